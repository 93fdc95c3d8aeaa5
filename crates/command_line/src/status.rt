//! The exit statuses of `l4proxy`.

/// All was done.
pub const DONE: u8 = 0;

/// What was handed in is refused.
pub const REFUSED: u8 = 1;

/// The words are no command.
pub const USAGE: u8 = 2;

/// Something cannot be read or written, or memory ran out.
pub const DEVICE: u8 = 3;
