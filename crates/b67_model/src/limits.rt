//! The limits: each number that bounds a deck, a program, an image or a run. Code, contracts and definitions cite the
//! names.
//!
//! Most can be changed alone: what follows from one is computed from it, here or in the map of core. The others say what moves
//! with them. A layout's width above a limit, and each number of the map that must fit one, is tested where the compiler reads
//! both (`b67_ctl`, `src/map.rt`, and `b67_stack`, `src/fits.rt`): a value that doesn't fit is refused before anything is proved.

/// The fewest words of core: it holds the fixed part, a dictionary and a stack.
pub const LEAST_CORE: u32 = 256;

/// The most words of core: an address has 20 bits, in every control word. It can't be raised alone.
pub const MOST_CORE: u32 = 1_048_575;

/// The most sectors of a backing: a sector's number has 20 bits, where a descriptor has an address. It can't be raised alone.
pub const MOST_SECTORS: u32 = 1_048_575;

/// The fewest words of a stack.
pub const LEAST_STACK: u16 = 64;

/// The most words of a stack: a displacement of a mark has 14 bits. It can't be raised alone.
pub const MOST_STACK: u16 = 16_383;

/// The most jobs of a deck, at most 15: a word of the stack vector has 4 bits for a job. With it move the numbers of slots and of
/// dictionaries of the map of core (`SLOTS` and `DICTIONARIES` of `b67_ctl`, `src/map.rt`): the compiler refuses any others.
/// What follows by itself: `MOST_MADE`, `MOST_STACKS`, `FIXED_WORDS`, and all other numbers of the map.
pub const MOST_JOBS: u8 = 8;

/// How many tasks of a job live at most. So no task has as many parents. It moves with the same numbers as `MOST_JOBS`; all slots
/// are at most 254, since a slot's number has 8 bits and two numbers are no slot's.
pub const MOST_TASKS: u8 = 15;

/// How many tasks live at most, and so how many stacks there are at once.
pub const MOST_STACKS: u8 = MOST_JOBS * MOST_TASKS;

/// How many tasks one step may end: those of a task's family, and of its job by DEADLOCK.
pub const MOST_ENDINGS: u8 = 2 * MOST_TASKS;

/// The words of core before the first dictionary: the MCP and the stack vector, which has a word for each stack, and the directory
/// of areas. The map of core must agree.
pub const FIXED_WORDS: u32 = 32 + MOST_STACKS as u32 + 8;

/// The most segments and data rows of a program together.
pub const MOST_PARTS: u8 = 255;

/// The most words of a segment: a place's word has 13 bits. It can't be raised alone.
pub const MOST_SEGMENT: u16 = 8_191;

/// The most words of a data row and of an array: a descriptor's length has 16 bits. It can't be raised alone.
pub const MOST_ARRAY: u16 = 65_535;

/// The most entries of a segment.
pub const MOST_ENTRIES: u8 = 255;

/// The most links of a chain of references.
pub const MOST_LINKS: u32 = 1_024;

/// The greatest magnitude of a whole number: a mantissa has 39 bits. It can't be raised alone.
pub const GREATEST: u64 = 549_755_813_887;

/// The most operators of a turn.
pub const MOST_QUANTUM: u32 = 1_000_000;

/// The most operators of a job. A task's number has 32 bits, and a job starts no more tasks than it makes operators; so it must
/// be below 2^32. `MOST_NUMBER` and `MOST_MADE` follow.
pub const MOST_LIMIT: u64 = 100_000_000;

/// The operators of a job whose deck names no limit.
pub const USUAL_LIMIT: u64 = 1_000_000;

/// The greatest number of a task on a card: no job starts more than it makes operators.
pub const MOST_NUMBER: u32 = MOST_LIMIT as u32;

/// The most operators of a run: those of all jobs.
pub const MOST_MADE: u64 = MOST_JOBS as u64 * MOST_LIMIT;

/// The most switches of a deck.
pub const MOST_SWITCHES: u32 = 100_000;

/// The most bytes of a deck.
pub const DECK_BYTES: usize = 4_194_304;

/// The most bytes of an image: the longest image of a run must be shorter (`images_are_short` of `b67_image`).
pub const IMAGE_BYTES: usize = 67_108_864;
