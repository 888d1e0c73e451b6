//! How many bytes the records of an image take, each number in as many bytes as its type has.

use b67_ctl::SLOTS;

/// A place: its word and its syllable.
const PLACE: usize = 2 + 1;

/// The registers: S, F, BOSR and LOSR, the slot, the level, the segment, the place, the dictionary and its entries, the first
/// slot, the words of a slot, and how many slots were used.
const REGISTERS: usize = 4 + 4 + 4 + 4 + 1 + 1 + 2 + PLACE + 4 + 2 + 4 + 2 + 1;

/// The addresses of the display.
const DISPLAY: usize = 32 * 4;

/// The greatest critical displacement of each slot.
const CRITICAL: usize = SLOTS as usize * 2;

/// Where areas begin and end.
const AREAS: usize = 4 + 4;

/// What stands between core and the links of sectors.
pub const BEHIND_CORE: usize = REGISTERS + DISPLAY + CRITICAL + AREAS;

/// The numbers of the tables: the quantum, the operators made and those of the turn, the last job and its task, the running
/// row, and the next switch.
pub const COUNTS: usize = 4 + 8 + 4 + 1 + 4 + 1 + 4;

/// A switch: when, the job and the task.
pub const SWITCH: usize = 8 + 1 + 4;

/// A job between its name and its numbers for READ: its dictionary, its segments and data rows, its limit, the operators made,
/// and the next task's number.
pub const JOB_FRONT: usize = 4 + 2 + 2 + 8 + 8 + 4;

/// Whether a task may go on: the kind, a number and an offset.
const STATE: usize = 1 + 4 + 2;

/// A task's row: its job, its number, its slot and its parent's, the critical displacement, the state, the segment, the place.
pub const TASK_ROW: usize = 1 + 4 + 1 + 1 + 2 + STATE + 2 + PLACE;
