//! The map of core: where its fixed part keeps what, and the numbers of stacks that are no task's. `SLOTS` and `DICTIONARIES` are
//! those of the limits; all else follows.

use crate::vector::FIRST_TASK;

/// The first of the MCP's words that are intrinsics; before it stands its mark.
pub const FIRST_INTRINSIC: u16 = 8;

/// The last of the MCP's words that are intrinsics.
pub const LAST_INTRINSIC: u16 = 18;

/// The first word of the stack vector, which has a word for each slot.
pub const STACK_VECTOR: u32 = 32;

/// How many slots there are, and so how many tasks live at once: `MOST_STACKS` of `b67_model`.
pub const SLOTS: u8 = 120;

/// How many dictionaries there are, one for each job: `MOST_JOBS` of `b67_model`.
pub const DICTIONARIES: u8 = 8;

/// What the number of a job's dictionary as a stack is above the job's number: 128 to 135 for jobs 1 to 8.
pub const DICTIONARY_STACKS: u16 = SLOTS as u16 + 7;

/// The number of the MCP's stack, after those of the dictionaries.
pub const MCP_STACK: u16 = DICTIONARY_STACKS + DICTIONARIES as u16 + 1;

/// The word with which the directory of areas begins, after the stack vector.
pub const DIRECTORY: u32 = STACK_VECTOR + SLOTS as u32;

/// How many words the directory of areas has in the fixed part.
const DIRECTORY_WORDS: u32 = 8;

/// The first word after the fixed part: the dictionary of the first job begins there.
pub const FIRST_DICTIONARY: u32 = DIRECTORY + DIRECTORY_WORDS;

// A slot's number is below the two that are no slot's; a job's number has 4 bits in the stack vector, a stack's 10.
const _: () = prove!(SLOTS < 254);

const _: () = prove!(DICTIONARIES < 16);

const _: () = prove!(MCP_STACK < FIRST_TASK);
