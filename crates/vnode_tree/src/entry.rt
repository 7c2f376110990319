//! What the table has of a node.
use crate::contents::Contents;
use access_rule::Attrs;
use acl_core::Acl;
use sys_types::{InPlace, Kind, NAME_BYTES};

/// The name of a node in its directory: at most 255 bytes.
pub type Name255 = InPlace<NAME_BYTES>;

/// A node: the directory that it is in and its name there, and what it is. The root is in itself and has the empty name.
#[derive(Drop)]
pub(crate) struct Entry {
    pub(crate) dir: u16,
    pub(crate) name: Name255,
    pub(crate) kind: Kind,
    pub(crate) attrs: Attrs,
    pub(crate) default: Option<Acl>,
    pub(crate) contents: Contents,
}
