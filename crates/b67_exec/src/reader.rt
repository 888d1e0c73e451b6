//! Reading code syllable after syllable.

ghost use Rattle.std.specs.Prelude.{◌≡◌, ◌+◌, ◌-◌, ◌*◌, ◌%◌, ◌^◌, ◌<◌, ◌≤◌, ℕ, None, IfSome, slice_index};
ghost use Rattle.b67_model.specs.Operators.{count_at};
ghost use Rattle.b67_model.specs.Rows.{code_of};
ghost use Rattle.b67_layout.specs.Meets.{RunsSome, ForEach};
ghost use Rattle.b67_exec.specs.Near.{HoldsCode, syllables_of, ReaderAt, ReaderBehind, ReaderInside, EndsBehind, IsOutside, StopsHere};

use b67_ctl::SegDesc;
use b67_exec_cells::present_segment;
use b67_stack::{Cpu, Step, What};
use b67_word::{Fault, Place};

/// Where a syllable of the running segment's code stands, with what is left of its word from it on; or the end of the code.
#[derive(Clone, Copy, Debug, PartialEq, Eq)]
pub struct Reader {
    /// The segment's descriptor.
    pub code: SegDesc,
    /// The number of the syllable's word in the segment.
    pub word: u16,
    /// Which syllable of that word it is: 0 to 5.
    pub syllable: u8,
    /// The syllables of that word, turned so that this one is in the lowest bits, and the next one in the highest.
    pub bits: u64,
}

/// A word of code.
#[inline(always)]
fn word_at(cpu: &Cpu, code: SegDesc, word: u16) -> u64
    requires runs { RunsSome cpu.now }
    requires code { HoldsCode cpu.now code }
    requires inside { word < code.words }
    ensures word { ForEach cpu.now (λ x plan s m t. result ≡ slice_index (code_of m.constants t.segment) word) }
    ensures small { result < 2 ^ 48 }
{
    let words = cpu.core.words(code.address, code.words);
    words[usize::from(word)].bits()
}

/// The syllables of a word of code, turned so that this one is in the lowest bits.
#[inline(always)]
fn loaded(cpu: &Cpu, code: SegDesc, at: Place) -> u64
    requires runs { RunsSome cpu.now }
    requires code { HoldsCode cpu.now code }
    requires in_word { at.syllable < 6 }
    requires inside { at.word < code.words }
    ensures { ForEach cpu.now (λ x plan s m t. result ≡ syllables_of (slice_index (code_of m.constants t.segment) at.word) at.syllable) }
{
    let word = word_at(cpu, code, at.word) << 16;
    word.rotate_left(8 + 8 * u32::from(at.syllable))
}

/// The syllable.
#[inline(always)]
pub fn first(r: Reader) -> u8
    ensures { result ≡ r.bits % 2 ^ 8 }
{
    (r.bits % 256) as u8
}

/// The place of the syllable.
#[inline(always)]
pub fn place(r: Reader) -> Place
    ensures { result ≡ record { word = r.word; syllable = r.syllable } }
{
    Place {
        word: r.word,
        syllable: r.syllable,
    }
}

/// The next syllable. None at the end of the code.
#[inline(always)]
pub fn behind(cpu: &Cpu, r: Reader) -> Option<Reader>
    requires runs { RunsSome cpu.now }
    requires stands { (n : ℕ) × ReaderBehind cpu.now r n }
    ensures next { (n : ℕ) → ReaderInside cpu.now r n → IfSome result (λ next. ReaderInside cpu.now next (n + 1)) }
    ensures end { (n : ℕ) → ReaderInside cpu.now r n → result ≡ None → EndsBehind cpu.now (n + 1) }
{
    if r.syllable < 5 {
        return Some(Reader {
            code: r.code,
            word: r.word,
            syllable: r.syllable + 1,
            bits: r.bits.rotate_left(8),
        });
    }
    if u32::from(r.word) + 1 >= r.code.words {
        return None;
    }
    let word = r.word + 1;
    Some(Reader {
        code: r.code,
        word,
        syllable: 0,
        bits: loaded(cpu, r.code, Place { word, syllable: 0 }),
    })
}

/// What stands behind a segment's code for a reader: no operator begins so.
const END: u64 = 0xFD;

/// The first syllable of a word of the code, or the end of the code.
#[inline(always)]
pub fn at_word(cpu: &Cpu, code: SegDesc, word: u16) -> Reader
    requires runs { RunsSome cpu.now }
    requires code { HoldsCode cpu.now code }
    requires within { word ≤ code.words }
    ensures code { result.code ≡ code }
    ensures at { ForEach cpu.now (λ x plan s m t. ReaderAt result (code_of m.constants t.segment) (6 * word)) }
{
    if u32::from(word) >= code.words {
        return Reader {
            code,
            word,
            syllable: 0,
            bits: END,
        };
    }
    Reader {
        code,
        word,
        syllable: 0,
        bits: loaded(cpu, code, Place { word, syllable: 0 }),
    }
}

/// The next syllable, or the end of the code.
#[inline(always)]
pub fn after(cpu: &Cpu, r: Reader) -> Reader
    requires runs { RunsSome cpu.now }
    requires stands { (n : ℕ) × ReaderBehind cpu.now r n }
    ensures { (n : ℕ) → ReaderInside cpu.now r n → ReaderBehind cpu.now result (n + 1) }
{
    if r.syllable < 5 {
        return Reader {
            code: r.code,
            word: r.word,
            syllable: r.syllable + 1,
            bits: r.bits.rotate_left(8),
        };
    }
    at_word(cpu, r.code, r.word + 1)
}

/// The word of the code behind that of the syllable. None at the end of the code.
#[inline(always)]
pub fn next_word(cpu: &Cpu, r: Reader) -> Option<u64>
    requires runs { RunsSome cpu.now }
    requires stands { ReaderInside cpu.now r 0 }
    ensures word { IfSome result (λ bits. ForEach cpu.now (λ x plan s m t. bits ≡ slice_index (code_of m.constants t.segment) (r.word + 1))) }
    ensures small { IfSome result (λ bits. bits < 2 ^ 48) }
    ensures inside { IfSome result (λ bits. r.word + 1 < r.code.words) }
    ensures end { result ≡ None → r.code.words ≤ r.word + 1 }
{
    let word = r.word + 1;
    if u32::from(word) >= r.code.words {
        return None;
    }
    Some(word_at(cpu, r.code, word))
}

/// A reader at a place inside the running segment.
#[inline(always)]
pub fn reader_to(cpu: &Cpu, code: SegDesc, at: Place) -> Reader
    requires runs { RunsSome cpu.now }
    requires code { HoldsCode cpu.now code }
    requires in_word { at.syllable < 6 }
    requires inside { at.word < code.words }
    ensures code { result.code ≡ code }
    ensures at { ForEach cpu.now (λ x plan s m t. ReaderAt result (code_of m.constants t.segment) (count_at at + 0)) }
{
    Reader {
        code,
        word: at.word,
        syllable: at.syllable,
        bits: loaded(cpu, code, at),
    }
}

/// A reader at the running place. None if the place is outside the running segment.
#[inline(always)]
fn reader_at(cpu: &Cpu, code: SegDesc) -> Option<Reader>
    requires runs { RunsSome cpu.now }
    requires code { HoldsCode cpu.now code }
    ensures reader { IfSome result (λ r. ReaderBehind cpu.now r 0) }
    ensures outside { result ≡ None → IsOutside cpu.now.regs.place code }
{
    let at = cpu.regs.place;
    if at.syllable >= 6 || u32::from(at.word) >= code.words {
        return None;
    }
    Some(reader_to(cpu, code, at))
}

/// A reader at the running place. None if the running segment is absent, or the place is outside it: then no operator is made, and
/// `why` is the reason.
#[inline(always)]
pub fn reader_here(cpu: &Cpu, why: &mut Step) -> Option<Reader>
    requires { RunsSome cpu.now }
    ensures reader { IfSome result (λ r. ReaderBehind cpu.now r 0) }
    ensures why { result ≡ None → StopsHere cpu.now why.new }
{
    let code = match present_segment(cpu) {
        Some(code) => code,
        None => {
            *why = Step::Absent(What::Code(cpu.regs.segment));
            return None;
        }
    };
    match reader_at(cpu, code) {
        Some(reader) => Some(reader),
        None => {
            *why = Step::Fault(Fault::InvalidOperator);
            None
        }
    }
}
