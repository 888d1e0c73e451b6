ghost use Rattle.std.specs.Prelude.{◌≡◌, ◌+◌, ◌*◌, ◌%◌, ◌^◌, ◌<◌, ◌≤◌, ◌++◌, length, OnOk, IfOk, IsTrue};
ghost use Rattle.b67_word.specs.Tagged.{contents};
ghost use Rattle.std.specs.List.{AllByRecursion};
ghost use Rattle.b67_codefile.specs.Spelling.{HasTag};
ghost use Rattle.b67_model.specs.Encoding.{has_bits};
ghost use Rattle.b67_model_text.specs.Encoding.{filling, literal_part, laid_one, packed_words};
ghost use Rattle.b67_model.specs.declared.limits.TheConstants.{MOST_SEGMENT};

use arrayvec::ArrayVec;
use b67_model::Op;
use b67_syllable::encode;
use b67_word::{Word, Words};
use std::alloc::{AllocError, Global};

// Code, syllable by syllable.

/// Fills up to the next whole word.
pub fn fill(out: &mut Vec<u8>) -> Result<(), AllocError>
    ensures filled { OnOk result (out.new.items ≡ out.old.items ++ filling (length out.old.items)) }
    ensures whole { OnOk result (length out.new.items % 6 ≡ 0) }
    ensures more { OnOk result (length out.old.items ≤ length out.new.items) }
    ensures few { OnOk result (length out.old.items ≤ 6 * MOST_SEGMENT → length out.new.items ≤ 6 * MOST_SEGMENT) }
{
    while out.len() % 6 != 0 {
        out.push(0xFF)?;
    }
    Ok(())
}

fn put_literal(out: &mut Vec<u8>, literal: Option<u64>) -> Result<(), AllocError>
    ensures { OnOk result (out.new.items ≡ out.old.items ++ literal_part literal (length out.old.items)) }
{
    match literal {
        None => Ok(()),
        Some(bits) => {
            fill(out)?;
            out.extend_from_slice(&bits.to_be_bytes()[2..])
        }
    }
}

/// Appends an operator and its literal.
#[tactic(auto, using(crate::proofs::Laid::some_syllable))]
pub fn put(out: &mut Vec<u8>, op: Op) -> Result<(), AllocError>
    requires { IsTrue (has_bits op) }
    ensures laid { OnOk result (out.new.items ≡ out.old.items ++ laid_one (length out.old.items) op) }
    ensures more { OnOk result (length out.old.items < length out.new.items) }
{
    let mut syllables = ArrayVec::<u8, 3>::new();
    let literal = encode(op, &mut syllables);
    out.extend_from_slice(syllables.as_slice())?;
    put_literal(out, literal)
}

fn word_bits(a: u8, b: u8, c: u8, d: u8, e: u8, f: u8) -> u64
    ensures exact { result ≡ ((((a * 256 + b) * 256 + c) * 256 + d) * 256 + e) * 256 + f }
    ensures small { result < 2 ^ 48 }
{
    ((((u64::from(a) * 256 + u64::from(b)) * 256 + u64::from(c)) * 256 + u64::from(d)) * 256
        + u64::from(e))
        * 256
        + u64::from(f)
}

/// The words of code, six syllables to a word.
#[tactic(auto, using(crate::proofs::Six::six_more, crate::proofs::Six::no_six))]
pub fn pack(alloc: Global, syllables: &[u8]) -> Result<Words, AllocError>
    ensures code { IfOk result (λ words. contents words ≡ packed_words syllables.now) }
    ensures tag { IfOk result (λ words. AllByRecursion (HasTag 3) words) }
    ensures most { IfOk result (λ words. 6 * length words ≤ length syllables.now) }
    ensures least { IfOk result (λ words. length syllables.now < 6 * length words + 6) }
{
    let mut words = Words::new(alloc);
    let mut rest = syllables;
    while let [a, b, c, d, e, f, more @ ..] = rest {
        words.push(Word::of(3, word_bits(*a, *b, *c, *d, *e, *f)))?;
        rest = more;
    }
    Ok(words)
}
