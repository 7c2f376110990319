//! The tree of a line.

use crate::item_list::ItemList;

/// A word without its quotes, as its bytes, of which it may have none.
pub type Word = ItemList<u8>;

/// The words of a command, in order: at least 1.
pub type Words = ItemList<Word>;

/// The commands of a job, in order: 1 to 8.
pub type Commands = ItemList<Command>;

/// The jobs of a line, in order: 0 or more.
pub type Jobs = ItemList<Job>;

/// A simple command (POSIX.1, XCU 2.9.1): its words, of which there is at least one, and where its
/// input comes from and its output goes to (XCU 2.7).
#[derive(Drop)]
pub struct Command {
    /// The words in order, the name of the program first.
    pub words: Words,
    /// The word behind `<`.
    pub input: Option<Word>,
    /// The word behind `>` or `>>`.
    pub output: Option<Word>,
    /// Whether it was `>>`.
    pub append: bool,
}

/// A pipeline (POSIX.1, XCU 2.9.2): 1 to 8 commands of which each one's output is the next one's
/// input.
#[derive(Drop)]
pub struct Job {
    /// The commands in order.
    pub commands: Commands,
    /// Whether the shell does not wait for it, since it ends with `&` (XCU 2.9.3).
    pub background: bool,
}

/// A list of jobs (POSIX.1, XCU 2.9.3): in order, and none where the line has nothing but blanks.
#[derive(Drop)]
pub struct Line {
    /// The jobs in order.
    pub jobs: Jobs,
}
