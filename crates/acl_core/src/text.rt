//! The bytes of a list's text.

/// How many bytes the text has at most that a list is printed to.
pub const TEXT_ROOM: usize = 4096;

/// How many bytes are free before a list is printed. A list of 64 entries takes at most 1,343 of
/// them.
pub const LIST_ROOM: usize = 1400;

pub(crate) const DASH: u8 = b'-';

pub(crate) const COLON: u8 = b':';

pub(crate) const COMMA: u8 = b',';

pub(crate) const ZERO: u8 = b'0';

pub(crate) const LETTER_R: u8 = b'r';

pub(crate) const LETTER_W: u8 = b'w';

pub(crate) const LETTER_X: u8 = b'x';
