//! Names of nodes of the file tree, and what a node is.
ghost use Rattle.std.specs.Prelude.{◌≡◌, ◌<◌, ◌^◌};

use std::marker::Model;

/// The name of a node of the file tree. Contracts see its number.
///
/// Only the tree makes names that are live. The root's number is 0.
#[derive(Clone, Copy, Default, PartialEq, Eq)]
pub struct Node {
    number: u16,
}

impl Model for Node {
    ghost use Rattle.std.specs.Prelude.{ℕ};

    ghost Value = { ℕ };

    ghost view = { λ node. node.number };

    ghost inverse = { λ number. record { number = number } };
}

impl Node {
    /// The root of the tree.
    pub const ROOT: Node = Node { number: 0 };

    /// The node of a number.
    pub fn of(number: u16) -> Self
        ensures { result ≡ number }
    {
        Node { number }
    }

    /// The node's number.
    pub fn number(self) -> u16
        ensures { result ≡ self }
    {
        self.number
    }
}

/// What a node is: a regular file, a directory, a terminal line of a number, or `/dev/tty`,
/// which leads to the caller's own line. (tty(4))
#[derive(Clone, Copy, PartialEq, Eq)]
pub enum Kind {
    File,
    Dir,
    Line(u8),
    Tty,
}
