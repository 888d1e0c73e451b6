//! The intrinsics of the MCP, each by the offset of its word in the MCP's activation record, and how many tasks a job may have.

/// ARRAYDEC makes an array.
pub const ARRAYDEC: u8 = 8;

/// PRINT prints numbers.
pub const PRINT: u8 = 9;

/// PRINTROW prints the words of an array.
pub const PRINTROW: u8 = 10;

/// READ takes the job's next number.
pub const READ: u8 = 11;

/// PROCESS starts a task.
pub const PROCESS: u8 = 12;

/// AWAIT waits for the end of a task.
pub const AWAIT: u8 = 13;

/// STATUS tells whether a task is ready, waits or has ended.
pub const STATUS: u8 = 14;

/// WAIT waits until a cell isn't 0.
pub const WAIT: u8 = 15;

/// CAUSE sets a cell to 1, and makes all ready that wait for it.
pub const CAUSE: u8 = 16;

/// DEALLOCATE sets all words of an array to 0.
pub const DEALLOCATE: u8 = 17;

/// RESIZE changes the length of an array.
pub const RESIZE: u8 = 18;
