//! Places in code, and address couples.

ghost use Rattle.std.specs.Prelude.{◌≡◌, ℕ, ◌+◌, ◌*◌, ◌/◌, ◌%◌, ◌^◌, ◌<◌, ◌≤◌, Some, IfSome};
ghost use Rattle.b67_word.specs.Couples.{level_bits as level_bits_at, level_of, couple, couple_bits, reversed_bits};

/// A syllable's place in a segment: a word of it, and one of that word's six syllables, both from 0.
#[derive(Clone, Copy, Debug, PartialEq, Eq)]
pub struct Place {
    pub word: u16,
    pub syllable: u8,
}

/// An address couple: a level, and a displacement in the activation at that level.
#[derive(Clone, Copy, Debug, PartialEq, Eq)]
pub struct Couple {
    pub level: u8,
    pub disp: u16,
}

/// How many of a couple's 14 bits are its level, at a running level.
fn level_bits(ll: u8) -> u32
    ensures value { result ≡ level_bits_at ll }
    ensures few { result ≤ 5 }
{
    match ll {
        0..=1 => 1,
        2..=3 => 2,
        4..=7 => 3,
        8..=15 => 4,
        _ => 5,
    }
}

/// The level in a couple's five top bits: bit 13 weighs 1, bit 9 weighs 16.
fn level_in(bits: u16) -> u16
    ensures value { result ≡ level_of 5 bits }
    ensures small { result < 32 }
{
    (bits >> 13) % 2
        + (bits >> 12) % 2 * 2
        + (bits >> 11) % 2 * 4
        + (bits >> 10) % 2 * 8
        + (bits >> 9) % 2 * 16
}

/// A level of five bits as a couple has it: bit 0 in bit 13, bit 4 in bit 9.
fn top_bits(level: u16) -> u16
    ensures value { result ≡ reversed_bits 5 level }
    ensures small { result < 2 ^ 14 }
{
    level % 2 * 0x2000
        + (level >> 1) % 2 * 0x1000
        + (level >> 2) % 2 * 0x800
        + (level >> 3) % 2 * 0x400
        + (level >> 4) % 2 * 0x200
}

/// The couple of 14 bits at a running level, whose first bits, the lowest first, are the level: one bit at levels 0
/// and 1, two at 2 and 3, three at 4 to 7, four at 8 to 15, and five above.
pub fn couple_of(bits: u16, ll: u8) -> Couple
    requires bits { bits < 2 ^ 14 }
    requires level { ll ≤ 31 }
    ensures { result ≡ couple bits ll }
{
    let split = level_bits(ll);
    Couple {
        level: (level_in(bits) % (1 << split)) as u8,
        disp: bits % (1 << (14 - split)),
    }
}

/// The 14 bits of a couple at a running level. None if they have too few bits for the level or the displacement.
pub fn bits_of(c: Couple, ll: u8) -> Option<u16>
    requires { ll ≤ 31 }
    ensures value { result ≡ couple_bits ll c }
    ensures again { IfSome result (λ bits. (bits < 2 ^ 14) × (couple bits ll ≡ c)) }
    ensures only { (bits : ℕ) → bits < 2 ^ 14 → couple bits ll ≡ c → result ≡ Some bits }
{
    let split = level_bits(ll);
    if c.level < 1 << split && c.disp < 1 << (14 - split) {
        Some(top_bits(u16::from(c.level)) + c.disp)
    } else {
        None
    }
}
