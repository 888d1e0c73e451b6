//! The core of the machine: a list of words, of which each call reads or changes those that it names.
//!
//! For all over core: `Core::get`, `Core::set`, `Core::words`, `Core::fill`, each with the words that are left.
//!
//! Begin with `Core::set`.
#![tactic(auto)]

ghost use Rattle.std.specs.Prelude.{◌≡◌, ◌⊎◌, ℕ, ◌+◌, ◌<◌, ◌≤◌, ◌^◌, length, slice_get, slice_set, slice_range, Some, IfOk, replicate, option_map};
ghost use Rattle.b67_word.specs.Tagged.{word};
ghost use Rattle.b67_word.specs.Numbers.{number};
ghost use Rattle.b67_core.specs.Numbers.{word_of, AreWords, under};

mod numbers;

use b67_word::{TAG_WEIGHT, Word};
pub use numbers::{from_number, to_number};
use std::alloc::{AllocError, Global};
use std::marker::Model;

/// The core, which contracts see as the list of its words. It stands on the heap, eight bytes for a word.
#[derive(Drop)]
pub struct Core {
    words: Vec<Word>,
}

impl Model for Core {
    ghost use Rattle.std.specs.Prelude.{◌<◌, ◌^◌, List, length};
    ghost use Rattle.b67_word.specs.Tagged.{Tagged};

    ghost Value = { List Tagged };

    ghost view = { λ c. c.words.items };

    ghost invariant = { λ c. length c.words.items < 2 ^ 20 };
}

/// Writes one word to every place.
fn fill_words(into: &mut [Word], w: Word)
    ensures { (i : ℕ) → i < length into.old → slice_get into.new i ≡ Some w }
{
    for i in 0..into.len() {
        into[i] = w;
    }
}

/// Writes the low 48 bits of each number under a tag.
fn put_under(into: &mut [Word], tag: u8, from: &[u64])
    requires same { length into.old ≡ length from.now }
    requires tag { tag < 8 }
    ensures { (i : ℕ) → i < length from.now → slice_get into.new i ≡ option_map (under tag) (slice_get from.now i) }
{
    for i in 0..from.len() {
        into[i] = Word::of(tag, from[i] % TAG_WEIGHT);
    }
}

impl Core {
    /// A core of that many words, each operand 0.
    pub fn new(alloc: Global, words: u32) -> Result<Core, AllocError>
        requires { words < 2 ^ 20 }
        ensures { IfOk result (λ c. c ≡ replicate words (word 0 0)) }
    {
        Ok(Core {
            words: vec![in alloc; Word::of(0, 0); words as usize]?,
        })
    }

    /// The number of words.
    pub fn size(&self) -> u32
        ensures value { result ≡ length self.now }
        ensures small { result < 2 ^ 20 }
    {
        self.words.len() as u32
    }

    /// The word at an address.
    pub fn get(&self, at: u32) -> Word
        requires { at < length self.now }
        ensures { slice_get self.now at ≡ Some result }
    {
        self.words[at as usize]
    }

    /// Writes a word. No other is changed.
    pub fn set(&mut self, at: u32, w: Word)
        requires { at < length self.old }
        ensures value { self.new ≡ slice_set self.old at w }
        ensures len { length self.new ≡ length self.old }
    {
        self.words[at as usize] = w;
    }

    /// The `n` words from an address on.
    pub fn words(&self, at: u32, n: u32) -> &[Word]
        requires { at + n ≤ length self.now }
        ensures { result.now ≡ slice_range self.now at (at + n) }
    {
        let _size = self.size();
        &self.words[at as usize..(at + n) as usize]
    }

    /// Writes one word to the `n` places from an address on. No other is changed.
    pub fn fill(&mut self, at: u32, n: u32, w: Word)
        requires { at + n ≤ length self.old }
        ensures value { (i : ℕ) → at ≤ i → i < at + n → slice_get self.new i ≡ Some w }
        ensures outside { (i : ℕ) → (i < at) ⊎ (at + n ≤ i) → slice_get self.new i ≡ slice_get self.old i }
        ensures len { length self.new ≡ length self.old }
    {
        let _size = self.size();
        fill_words(&mut self.words[at as usize..(at + n) as usize], w);
    }

    /// Writes the words of these numbers, each tag × 2^48 + bits, from an address on. No other is changed.
    pub fn copy_in(&mut self, at: u32, from: &[u64])
        requires inside { at + length from.now ≤ length self.old }
        requires words { AreWords from.now }
        ensures value { (i : ℕ) → i < length from.now → slice_get self.new (at + i) ≡ option_map word_of (slice_get from.now i) }
        ensures outside { (i : ℕ) → (i < at) ⊎ (at + length from.now ≤ i) → slice_get self.new i ≡ slice_get self.old i }
        ensures len { length self.new ≡ length self.old }
    {
        let _size = self.size();
        for i in 0..from.len() as u32 {
            self.set(at + i, from_number(from[i as usize]));
        }
    }

    /// Writes the words of the low 48 bits of these numbers under a tag, from an address on. No other is changed.
    pub fn copy_under(&mut self, at: u32, tag: u8, from: &[u64])
        requires inside { at + length from.now ≤ length self.old }
        requires tag { tag < 8 }
        ensures value { (i : ℕ) → i < length from.now → slice_get self.new (at + i) ≡ option_map (under tag) (slice_get from.now i) }
        ensures outside { (i : ℕ) → (i < at) ⊎ (at + length from.now ≤ i) → slice_get self.new i ≡ slice_get self.old i }
        ensures len { length self.new ≡ length self.old }
    {
        let _size = self.size();
        let first = at as usize;
        put_under(&mut self.words[first..first + from.len()], tag, from);
    }

    /// Reads as many words as there are places, from an address on, each as the number tag × 2^48 + bits.
    pub fn copy_out(&self, at: u32, into: &mut [u64])
        requires { at + length into.old ≤ length self.now }
        ensures value { (i : ℕ) → i < length into.new → slice_get into.new i ≡ option_map number (slice_get self.now (at + i)) }
    {
        let _size = self.size();
        for i in 0..into.len() as u32 {
            into[i as usize] = to_number(self.get(at + i));
        }
    }
}
