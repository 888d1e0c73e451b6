//! Words as numbers of a sector, and back.

ghost use Rattle.std.specs.Prelude.{◌≡◌, ◌⊎◌, ℕ, ◌+◌, ◌-◌, ◌<◌, ◌≤◌, ◌^◌, length, map, slice_get, Some, option_map, IfOk};
ghost use Rattle.b67_word.specs.Tagged.{Tagged};
ghost use Rattle.b67_word.specs.Numbers.{number};
ghost use Rattle.b67_backing.specs.Held.{under, blank, number_at};

use b67_core::{Core, to_number};
use b67_word::Word;
use std::alloc::{AllocError, Global};

/// So many sectors of zeros.
pub fn zeros(alloc: Global, sectors: u32) -> Result<Vec<[u64; 30]>, AllocError>
    ensures { IfOk result (λ v. v.items ≡ blank sectors) }
{
    let mut held = Vec::with_capacity(alloc, sectors as usize)?;
    for _i in 0..sectors {
        held.push([0u64; 30])?;
    }
    Ok(held)
}

/// The numbers of n words from a place on, with 0 after them.
#[inline(always)]
fn pack_words(from: &[Word], start: usize, n: usize) -> [u64; 30]
    requires inside { n ≤ length from.now - start }
    requires few { n ≤ 30 }
    ensures put { (i : ℕ) → i < n → slice_get result i ≡ Some (number_at (map number from.now) (start + i)) }
    ensures zeros { (i : ℕ) → n ≤ i → i < 30 → slice_get result i ≡ Some 0 }
{
    let mut buffer = [0u64; 30];
    for i in 0..n {
        buffer[i] = to_number(from[start + i]);
    }
    buffer
}

/// The numbers of 30 words from a place on, with 0 past their end.
pub fn pack(from: &[Word], start: usize) -> [u64; 30]
    requires { start + 30 < 2 ^ 64 }
    ensures { (i : ℕ) → i < 30 → slice_get result i ≡ Some (number_at (map number from.now) (start + i)) }
{
    if start + 30 <= from.len() {
        // most sectors are full: a loop of known length is unrolled, and nothing is cleared first
        return pack_words(from, start, 30);
    }
    pack_words(from, start, from.len().saturating_sub(start))
}

/// Puts the first n numbers into core, each as the word of its low 48 bits under a tag.
pub fn unpack(core: &mut Core, at: u32, n: u32, tag: u8, from: &[u64; 30])
    requires inside { at + n ≤ length core.old }
    requires few { n ≤ 30 }
    requires tag { tag < 8 }
    ensures value { (i : ℕ) → i < n → slice_get core.new (at + i) ≡ option_map (under tag) (slice_get from.now i) }
    ensures tags { (i : ℕ) → i < n → (w : Tagged) × (slice_get core.new (at + i) ≡ Some w) × (w.tag ≡ tag) }
    ensures low { (i : ℕ) → i < n → (w : Tagged) × (slice_get core.new (at + i) ≡ Some w) × (w.bits < 2 ^ 48) }
    ensures outside { (i : ℕ) → (i < at) ⊎ (at + n ≤ i) → slice_get core.new i ≡ slice_get core.old i }
    ensures len { length core.new ≡ length core.old }
{
    core.copy_under(at, tag, &from[..n as usize]);
}
