//! The syllables of an operator.

ghost use Rattle.std.specs.Prelude.{◌≡◌, ◌<◌, ◌^◌, [], ◌∷◌, IsTrue};
ghost use Rattle.std.specs.Int.{w16, to_be_bytes};
ghost use Rattle.b67_model.specs.Encoding.{syllable_of as first_of, with_16, target_bits, syllables, literal, has_bits, ReadsBack};

use arrayvec::ArrayVec;
use b67_model::{Code, Op};
use b67_word::Place;

/// The syllable of an operator without parameters.
#[inline(always)]
fn syllable_of(code: Code) -> u8
    ensures { result ≡ first_of code }
{
    match code {
        Code::Add => 0x80,
        Code::Subt => 0x81,
        Code::Mult => 0x82,
        Code::Idiv => 0x84,
        Code::Rdiv => 0x85,
        Code::Less => 0x88,
        Code::Greq => 0x89,
        Code::Grtr => 0x8A,
        Code::Lseq => 0x8B,
        Code::Equl => 0x8C,
        Code::Neql => 0x8D,
        Code::Chsn => 0x8E,
        Code::Land => 0x90,
        Code::Lor => 0x91,
        Code::Lnot => 0x92,
        Code::Leqv => 0x93,
        Code::Same => 0x94,
        Code::Exit => 0xA3,
        Code::Indx => 0xA6,
        Code::Retn => 0xA7,
        Code::Entr => 0xAB,
        Code::Nxlv => 0xAD,
        Code::Mkst => 0xAE,
        Code::Stff => 0xAF,
        Code::Zero => 0xB0,
        Code::One => 0xB1,
        Code::Push => 0xB4,
        Code::Dlet => 0xB5,
        Code::Exch => 0xB6,
        Code::Dupl => 0xB7,
        Code::Stod => 0xB8,
        Code::Ston => 0xB9,
        Code::Load => 0xBD,
        Code::Noop => 0xFE,
        Code::Nvld => 0xFF,
    }
}

/// Puts a first syllable with one more.
#[inline(always)]
fn put_8(out: &mut ArrayVec<u8, 3>, first: u8, n: u8)
    requires { out.old.items ≡ [] }
    ensures { out.new.items ≡ first ∷ n ∷ [] }
{
    out.push(first);
    out.push(n);
}

/// Puts sixteen bits, the higher syllable first.
#[inline(always)]
fn put_couple(out: &mut ArrayVec<u8, 3>, bits: u16)
    requires { out.old.items ≡ [] }
    ensures { out.new.items ≡ to_be_bytes w16 bits }
{
    let [high, low] = bits.to_be_bytes();
    put_8(out, high, low);
}

/// Puts a first syllable with two more.
#[inline(always)]
fn put_two(out: &mut ArrayVec<u8, 3>, first: u8, high: u8, low: u8)
    requires { out.old.items ≡ [] }
    ensures { out.new.items ≡ first ∷ high ∷ low ∷ [] }
{
    put_8(out, first, high);
    out.push(low);
}

/// Puts a first syllable and sixteen bits.
#[inline(always)]
fn put_16(out: &mut ArrayVec<u8, 3>, first: u8, n: u16)
    requires { out.old.items ≡ [] }
    ensures { out.new.items ≡ with_16 first n }
{
    let [high, low] = n.to_be_bytes();
    put_two(out, first, high, low);
}

/// A branch's sixteen bits: three of syllable, thirteen of word.
#[inline(always)]
fn target_of(place: Place) -> u16
    requires syllable { place.syllable < 8 }
    requires word { place.word < 2 ^ 13 }
    ensures { result ≡ target_bits place }
{
    u16::from(place.syllable) * 0x2000 + place.word
}

/// Puts an operator's syllables, and gives its literal.
#[inline(always)]
fn put(op: Op, out: &mut ArrayVec<u8, 3>) -> Option<u64>
    requires empty { out.old.items ≡ [] }
    requires bits { IsTrue (has_bits op) }
    ensures syllables { out.new.items ≡ syllables op }
    ensures literal { result ≡ literal op }
{
    match op {
        Op::Valc(bits) => put_couple(out, bits),
        Op::Namc(bits) => put_couple(out, 0x4000 + bits),
        Op::Lt8(n) => put_8(out, 0xB2, n),
        Op::Lt16(n) => put_16(out, 0xB3, n),
        Op::Lt48(bits) => {
            out.push(0xBE);
            return Some(bits);
        }
        Op::Mpcw(bits) => {
            out.push(0xBF);
            return Some(bits);
        }
        Op::Brun(place) => put_16(out, 0xA2, target_of(place)),
        Op::Brtr(place) => put_16(out, 0xA1, target_of(place)),
        Op::Brfl(place) => put_16(out, 0xA0, target_of(place)),
        Op::Bset(n) => put_8(out, 0x96, n),
        Op::Brst(n) => put_8(out, 0x9E, n),
        Op::Isol(high, width) => put_two(out, 0x9A, high, width),
        Op::Insr(high, width) => put_two(out, 0x9C, high, width),
        Op::Plain(code) => out.push(syllable_of(code)),
    }
    None
}

/// Puts an operator's syllables into the empty `out`, and gives the literal that stands in the next whole word, if the
/// operator has one. Each number must be within the bits that the operator has for it: 14 for a couple, 48 for a
/// literal, 3 and 13 for a branch's syllable and word. `decode` gives the operator back wherever these stand.
#[inline(always)]
pub fn encode(op: Op, out: &mut ArrayVec<u8, 3>) -> Option<u64>
    requires empty { out.old.items ≡ [] }
    requires bits { IsTrue (has_bits op) }
    ensures syllables { out.new.items ≡ syllables op }
    ensures literal { result ≡ literal op }
    ensures again { ReadsBack op out.new.items result }
{
    put(op, out)
}
