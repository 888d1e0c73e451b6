//! The words that lead from hole to hole.

ghost use Rattle.std.specs.Prelude.{◌≡◌, ◌≢◌, ℕ, ◌^◌, ◌<◌, ◌≤◌, Some, length, slice_get, slice_set};
ghost use Rattle.b67_area.specs.Words.{link_word, hole_high};
ghost use Rattle.b67_area.specs.Walk.{with_hole};

use b67_core::Core;
use b67_word::Word;

/// The word of bits above a link, and the link.
pub fn linked(high: u64, next: u32) -> Word
    requires high { high < 2 ^ 28 }
    requires next { next < 2 ^ 20 }
    ensures { result ≡ link_word high next }
{
    Word::of(3, high * 0x10_0000 + u64::from(next))
}

/// The link of a word.
pub fn link_of(core: &Core, at: u32) -> u32
    requires { (h : ℕ) × (x : ℕ) × (x < 2 ^ 20) × (slice_get core.now at ≡ Some (link_word h x)) }
    ensures { (h : ℕ) (x : ℕ) → x < 2 ^ 20 → slice_get core.now at ≡ Some (link_word h x) → result ≡ x }
{
    core.get(at).part(0, 20) as u32
}

/// Writes a link and leaves the bits above it.
pub fn set_link(core: &mut Core, at: u32, next: u32)
    requires link { (h : ℕ) × (x : ℕ) × (x < 2 ^ 20) × (slice_get core.old at ≡ Some (link_word h x)) }
    requires next { next < 2 ^ 20 }
    ensures value { (h : ℕ) (x : ℕ) → x < 2 ^ 20 → slice_get core.old at ≡ Some (link_word h x)
        → core.new ≡ slice_set core.old at (link_word h next) }
    ensures len { length core.new ≡ length core.old }
{
    let w = core.get(at);
    core.set(at, Word::of(3, w.bits() - w.part(0, 20) + u64::from(next)));
}

/// The number of words in the first word of a hole.
pub fn room_of(core: &Core, at: u32) -> u32
    requires { (n : ℕ) × (x : ℕ) × (n < 2 ^ 20) × (x < 2 ^ 20) × (slice_get core.now at ≡ Some (link_word (hole_high n) x)) }
    ensures { (n : ℕ) (x : ℕ) → n < 2 ^ 20 → x < 2 ^ 20 → slice_get core.now at ≡ Some (link_word (hole_high n) x) → result ≡ n }
{
    core.get(at).part(20, 20) as u32
}

/// Links in a hole of `room` words, or none.
pub fn leave(core: &mut Core, before: u32, at: u32, room: u32, next: u32)
    requires link { (h : ℕ) × (x : ℕ) × (x < 2 ^ 20) × (slice_get core.old before ≡ Some (link_word h x)) }
    requires apart { before ≢ at }
    requires room { room < 2 ^ 20 }
    requires inside { 1 ≤ room → at < length core.old × at < 2 ^ 20 }
    requires next { next < 2 ^ 20 }
    ensures value { (h : ℕ) (x : ℕ) → x < 2 ^ 20 → slice_get core.old before ≡ Some (link_word h x)
        → core.new ≡ with_hole core.old before h at room next }
    ensures len { length core.new ≡ length core.old }
{
    if room == 0 {
        set_link(core, before, next);
    } else {
        core.set(at, linked(0xC00_0000 + u64::from(room), next));
        set_link(core, before, at);
    }
}
