//! The one access decision of the kernel: the label first, then the access list.
//!
//! Labels are those of mac_mls(4), lists those of draft POSIX.1e. That the label comes before the
//! list, and that a superuser is bound by labels, is this project's own.
#![tactic(auto)]

ghost use Rattle.std.specs.Prelude.{◌≡◌};

mod decision;

use acl_core::Acl;
pub use decision::may;
use label_core::Element;

/// What the access to a node depends on.
#[derive(Drop)]
pub struct Attrs {
    /// The element of the node's label.
    pub element: Element,
    /// The uid of the owner.
    pub owner: u32,
    /// The gid of the group.
    pub group: u32,
    /// The access list.
    pub list: Acl,
    /// Whether the node is a directory, which is searched and not executed.
    pub is_dir: bool,
}

impl Attrs {
    /// Equal attributes.
    pub fn copy(&self) -> Self
        ensures { result ≡ self.now }
    {
        Attrs {
            element: self.element.copy(),
            owner: self.owner,
            group: self.group,
            list: self.list.copy(),
            is_dir: self.is_dir,
        }
    }
}
