//! The definitions of the machine, in `specs`, and what they and the code share: the operators, the intrinsics' numbers, the
//! limits.
//!
//! For all crates, and for whoever asks what is proved: contracts are stated in these words. `docs/MACHINE.md` tells the same
//! in sentences.
//!
//! Begin with `specs/State`, then `specs/Rows`, `specs/Intrinsics`, `specs/Schedule` and `specs/Run`; the limits are in
//! `src/limits.rt`.
#![tactic(auto)]

mod intrinsics;
mod limits;
mod operators;

pub use intrinsics::{
    ARRAYDEC, AWAIT, CAUSE, DEALLOCATE, PRINT, PRINTROW, PROCESS, READ, RESIZE, STATUS, WAIT,
};
pub use limits::{
    DECK_BYTES, FIXED_WORDS, GREATEST, IMAGE_BYTES, LEAST_CORE, LEAST_STACK, MOST_ARRAY, MOST_CORE,
    MOST_ENDINGS, MOST_ENTRIES, MOST_JOBS, MOST_LIMIT, MOST_LINKS, MOST_MADE, MOST_NUMBER,
    MOST_PARTS, MOST_QUANTUM, MOST_SECTORS, MOST_SEGMENT, MOST_STACK, MOST_STACKS, MOST_SWITCHES,
    MOST_TASKS, USUAL_LIMIT,
};
pub use operators::{Code, Mnemonic, OPERATORS, Op, Undecodable};
