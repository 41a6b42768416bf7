//! The statuses with which the program ends.

/// The input was read to its end, and all was written.
pub const DONE: u8 = 0;

/// The words are refused.
pub const REFUSED: u8 = 2;

/// The source failed.
pub const SOURCE_FAILED: u8 = 3;

/// The sink failed.
pub const SINK_FAILED: u8 = 4;

/// There was no memory.
pub const NO_MEMORY: u8 = 5;

/// More bytes came than a script may have.
pub const TOO_LONG: u8 = 6;
