//! The bytes between the fields of texts.

/// The byte that ends a line.
pub const LINE_FEED: u8 = b'\n';

/// The byte between the fields of a line of a history.
pub const SPACE: u8 = b' ';

/// The byte between the fields of a line of a trace, and between figures.
pub const COMMA: u8 = b',';

/// The byte between the items of a list.
pub const SEMICOLON: u8 = b';';

/// The byte between a figure's CPU and its number.
pub const COLON: u8 = b':';

/// The byte before a number below 0, between the first and the last CPU of a run, and in the place of
/// what is not there.
pub const MINUS: u8 = b'-';

/// The digit 0.
pub const ZERO: u8 = b'0';
