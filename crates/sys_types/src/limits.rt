//! The limits of the kernel. All of them are this project's own; the law `limits` has their figures.

/// How many processes there may be: the slots 0 to 31.
pub const SLOTS: usize = 32;

/// How many terminal lines there are: 0 to 7.
pub const LINES: usize = 8;

/// The line that is raw after a boot: the last one. The others are cooked.
pub const RAW_LINE: u8 = 7;

/// How many descriptors a process may have: the numbers 0 to 31.
pub const DESCRIPTORS: usize = 32;

/// How many open files there may be in all.
pub const OPEN_FILES: usize = 256;

/// How many pipes there may be: 0 to 15.
pub const PIPES: usize = 16;

/// How many nodes a file tree has at most, the root among them.
pub const NODES: usize = 1024;

/// How many bytes the contents of all files have at most.
pub const FILE_SPACE: usize = 4_194_304;

/// How many bytes a path has at most (PATH_MAX of POSIX.1 without the null byte).
pub const PATH_BYTES: usize = 1023;

/// How many bytes the text of a path has at most that a call names. One of 1,024 bytes can be asked, and is then denied as
/// too long.
pub const PATH_TEXT_BYTES: usize = 1024;

/// How many bytes the name of a node has at most (NAME_MAX).
pub const NAME_BYTES: usize = 255;

/// How many places the input queue of a line has: one for each byte, and one for each end of file.
pub const INPUT_PLACES: usize = 1024;

/// How many bytes the current line of a line's input has at most (MAX_CANON).
pub const READY_LINE_BYTES: usize = 255;

/// How many bytes the output queue of a line holds.
pub const OUTPUT_BYTES: usize = 4096;

/// How many bytes a pipe holds.
pub const PIPE_BYTES: usize = 4096;

/// How many bytes a read or a write carries at most.
pub const PIECE_BYTES: usize = 512;

/// How many bytes a text has at most that a call answers.
pub const TEXT_BYTES: usize = 4096;

/// How many blocks the pool of the queues has.
pub const POOL_BLOCKS: u16 = 512;

/// How many blocks of the pool an open line holds.
pub const LINE_BLOCKS: u16 = 40;

/// How many blocks of the pool a pipe holds.
pub const PIPE_BLOCKS: u16 = 32;

/// How many events a run has at most.
pub const TRAIL_EVENTS: u32 = 262_144;

/// How many bytes a line of a script has at most, without its newline.
pub const SCRIPT_LINE_BYTES: usize = 4096;
