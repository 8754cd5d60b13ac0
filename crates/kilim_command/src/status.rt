//! The statuses of the top call.

/// The work was done, and its text was written whole.
pub const DONE: u8 = 0;

/// A report was written, of the first stage that has a fault.
pub const REPORTED: u8 = 1;

/// The words aren't in the grammar.
pub const USAGE: u8 = 2;

/// A file can't be read.
pub const UNREAD: u8 = 3;

/// The text, or a file, can't be written.
pub const UNWRITTEN: u8 = 4;

/// Memory is short.
pub const NO_MEMORY: u8 = 5;
