//! The bytes between words and behind lines, and the sizes of texts.

/// What stands between two words.
pub const SPACE: u8 = b' ';

/// What ends a line.
pub const LINE_FEED: u8 = b'\n';

/// How many bytes a line buffer has room for.
pub const LINE_ROOM: usize = 512;

/// How many digits a number has at most.
pub const DIGITS_ROOM: usize = 10;

/// How many bytes a number has at most, with the space before it.
pub const NUMBER_ROOM: usize = 11;
