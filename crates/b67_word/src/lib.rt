//! Words, couples, places, faults, endings and the small lists that all crates of the machine share. A word is a tag and 48
//! bits; an operand is a whole number of at most 39 bits, and minus zero is zero.
//!
//! For all crates: `Word::new` (`fits`, `value`), `Word::operand`, `Word::value`; `couple_of`; `bits_of` (`value`, `again`,
//! `only`); `List`, one list for items of any type.
//!
//! Begin with `Word::new` (`fits`, `value`) and `couple_of`.
#![tactic(auto)]

mod couples;
mod faults;
mod lists;
mod tagged;

pub use couples::{Couple, Place, bits_of, couple_of};
pub use faults::{Ending, Failed, Fault};
pub use lists::{Bytes, List, Numbers, Words};
pub use tagged::{TAG_WEIGHT, Word};
