//! The control words of the machine, each as its fields and as a word, and the map of core. `word` gives the word of fields
//! that fit the layout, and `to_word` tests them first. `from_word` tests whether a word is on the layout: bits that the layout
//! doesn't name are zero. `read` is for a word that is known to be on it.
//!
//! For all over core: these four of each control word; the constants of `src/map.rt`.
//!
//! Begin with `to_word` (`fits`, `value`) and `from_word` (`some`, `known`) of one word.
#![tactic(auto)]

mod areas;
mod descriptors;
mod map;
mod marks;
mod programs;
mod references;
mod registers;
mod vector;

pub use areas::{AreaHead, AreaTail};
pub use descriptors::{DataDesc, SegDesc};
pub use map::{
    DICTIONARIES, DICTIONARY_STACKS, DIRECTORY, FIRST_DICTIONARY, FIRST_INTRINSIC, LAST_INTRINSIC,
    MCP_STACK, SLOTS, STACK_VECTOR,
};
pub use marks::{Mscw, Rcw, Toscw};
pub use programs::{IntrinsicPcw, Pcw};
pub use references::{Irw, Sirw};
pub use registers::{NO_SLOT, Regs};
pub use vector::{FIRST_TASK, VectorWord};
