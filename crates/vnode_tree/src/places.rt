//! Places of the table of nodes.
ghost use Rattle.std.specs.Prelude.{◌≡◌, ℕ, List, IsSome, Some, None, is_none, position, replicate, sum_by, slice_index_or, slice_set, ◌+◌, ◌&&◌, ◌<◌, ◌≤◌};
ghost use Rattle.std.specs.Prelude.{◌^◌, [], length, IfOk, OnOk, OnErr};
ghost use Rattle.std.specs.List.{zip};
ghost use Rattle.vnode_tree.specs.Links.{entry_at, is_child, is_in, with_entry, entry_with_attrs, entry_with_default, entry_with_contents};
ghost use Rattle.vnode_tree.specs.Children.{children_of};
ghost use Rattle.vnode_tree.specs.Contents.{after_write};
ghost use Rattle.sys_types.specs.declared.limits.TheConstants.{NODES, FILE_SPACE};
ghost use Rattle.vnode_tree.specs.Kept.{size_in};
ghost use Rattle.vnode_tree.specs.Keys.{has_key, is_key_below, key_of};

use crate::NODES;
use crate::contents::Contents;
use crate::entry::Entry;
use crate::key::{Key, children, free_place, has_key, is_key_below};
use access_rule::Attrs;
use acl_core::Acl;
use arrayvec::ArrayVec;
use std::alloc::{AllocError, Global};
use std::marker::Model;
use sys_types::Node;

/// The places of a table, some without a node. Contracts see the list of them.
///
/// Beside them stands the key of each, which a search reads in place of nodes, and how many bytes all nodes hold.
#[derive(Drop)]
pub(crate) struct Places {
    entries: Vec<Option<Entry>>,
    keys: Vec<Option<Key>>,
    total: usize,
}

impl Model for Places {
    ghost use Rattle.std.specs.Prelude.{List, Option};
    ghost use Rattle.vnode_tree.specs.declared.entry.Entry.{Entry};

    ghost Value = { List (Option Entry) };

    ghost use Rattle.vnode_tree.specs.Keys.{IsIndexed};

    ghost view = { λ p. p.entries.items };

    ghost invariant = { λ p. IsIndexed p.entries.items p.keys.items p.total };
}

/// Whether an entry is of that name in that directory.
fn is_child(entry: &Option<Entry>, dir: u16, name: &[u8]) -> bool
    ensures { result ≡ is_child dir name.now entry.now }
{
    match entry {
        Some(entry) => entry.dir == dir && entry.name.as_slice() == name,
        None => false,
    }
}

/// Whether an entry is in a directory. The root, which has no name, is in none.
fn is_in(entry: &Option<Entry>, dir: u16) -> bool
    ensures { result ≡ is_in dir entry.now }
{
    match entry {
        Some(entry) => entry.dir == dir && !entry.name.is_empty(),
        None => false,
    }
}

/// The first place of an entry of that name in that directory, by the keys of all entries.
fn child_place(
    keys: &[Option<Key>],
    entries: &[Option<Entry>],
    dir: u16,
    name: &[u8],
) -> Option<usize>
    ensures { result ≡ position (λ p. has_key (key_of dir name.now) p.0 && is_child dir name.now p.1) (zip keys.now entries.now) }
{
    let wanted = Key::of(dir, name);
    let mut pairs = keys.iter().zip(entries.iter());
    pairs.position(|(key, entry)| has_key(key, wanted) && is_child(entry, dir, name))
}

/// The first place of an entry that is in a directory, by the keys of all entries.
fn first_child(keys: &[Option<Key>], entries: &[Option<Entry>], dir: u16) -> Option<usize>
    ensures { result ≡ position (λ p. is_key_below dir p.0 && is_in dir p.1) (zip keys.now entries.now) }
{
    let mut pairs = keys.iter().zip(entries.iter());
    pairs.position(|(key, entry)| is_key_below(key, dir) && is_in(entry, dir))
}

/// How many bytes a node holds.
fn size(entry: &Option<Entry>) -> usize
    ensures { result ≡ size_in entry.now }
{
    match entry {
        Some(entry) => entry.contents.len(),
        None => 0,
    }
}

/// As many places without a node as a table has.
fn free_places(alloc: Global) -> Result<Vec<Option<Entry>>, AllocError>
    ensures { IfOk result (λ entries. entries.items ≡ replicate NODES None) }
{
    let mut entries = Vec::with_capacity(alloc, NODES)?;
    for _place in 0..NODES {
        entries.push_reserved(None);
    }
    Ok(entries)
}

impl Places {
    /// The places of a table, all without a node.
    pub(crate) fn all_free(alloc: Global) -> Result<Places, AllocError>
        ensures { IfOk result (λ places. places ≡ replicate NODES None) }
    {
        Ok(Places {
            entries: free_places(alloc)?,
            keys: vec![in alloc; None; NODES]?,
            total: 0,
        })
    }

    /// The entries of all places.
    pub(crate) fn as_slice(&self) -> &[Option<Entry>]
        ensures { result.now ≡ self.now }
    {
        self.entries.as_slice()
    }

    /// No bytes, for a node that is to be put here: more of them take their memory where the table took its own.
    pub(crate) fn no_contents(&self) -> Contents
        ensures { result ≡ [] }
    {
        Contents::empty(*self.entries.allocator())
    }

    /// How many bytes all nodes hold.
    pub(crate) fn total(&self) -> usize
        ensures { result ≡ sum_by size_in self.now }
    {
        self.total
    }

    /// The entry of a node that is there.
    pub(crate) fn entry_of(&self, node: Node) -> &Entry
        requires { IsSome (entry_at self.now node) }
        ensures { entry_at self.now node ≡ Some result.now }
    {
        match &self.entries[usize::from(node.number())] {
            Some(entry) => entry,
            None => unreachable!(),
        }
    }

    /// The first place without a node.
    pub(crate) fn free_place(&self) -> Option<usize>
        ensures { result ≡ position is_none self.now }
    {
        free_place(&self.keys)
    }

    /// The place of the node of a name in a directory, if it has one.
    pub(crate) fn child_place(&self, dir: u16, name: &[u8]) -> Option<usize>
        ensures { result ≡ position (is_child dir name.now) self.now }
    {
        child_place(&self.keys, &self.entries, dir, name)
    }

    /// The first place of a node that is in a directory, if there is one.
    pub(crate) fn first_child(&self, dir: u16) -> Option<usize>
        ensures { result ≡ position (is_in dir) self.now }
    {
        first_child(&self.keys, &self.entries, dir)
    }

    /// The nodes in a directory.
    pub(crate) fn children(&self, dir: Node) -> ArrayVec<Node, NODES>
        requires { length self.now ≤ NODES }
        ensures { result.items ≡ children_of self.now dir }
    {
        children(&self.keys, dir)
    }

    /// Puts a node at a place that has none.
    pub(crate) fn put(&mut self, place: usize, entry: Entry)
        requires inside { place < length self.old }
        requires free { entry_at self.old place ≡ None }
        requires room { sum_by size_in self.old + length entry.contents ≤ FILE_SPACE }
        ensures { self.new ≡ slice_set self.old place (Some entry) }
    {
        self.total += entry.contents.len();
        self.keys[place] = Some(Key::of(entry.dir, entry.name.as_slice()));
        self.entries[place] = Some(entry);
    }

    /// Takes away a node that is there.
    pub(crate) fn take_away(&mut self, node: Node)
        requires { IsSome (entry_at self.old node) }
        ensures { self.new ≡ slice_set self.old node None }
    {
        let place = usize::from(node.number());
        self.total -= size(&self.entries[place]);
        self.keys[place] = None;
        self.entries[place] = None;
    }

    /// Changes what access to a node that is there depends on.
    pub(crate) fn set_attrs(&mut self, node: Node, attrs: Attrs)
        requires { IsSome (entry_at self.old node) }
        ensures { self.new ≡ with_entry (entry_with_attrs attrs) self.old node }
    {
        match &mut self.entries[usize::from(node.number())] {
            Some(entry) => entry.attrs = attrs,
            None => unreachable!(),
        }
    }

    /// Changes the list that a node that is there gives to new nodes in it.
    pub(crate) fn set_default(&mut self, node: Node, list: Option<Acl>)
        requires { IsSome (entry_at self.old node) }
        ensures { self.new ≡ with_entry (entry_with_default list) self.old node }
    {
        match &mut self.entries[usize::from(node.number())] {
            Some(entry) => entry.default = list,
            None => unreachable!(),
        }
    }

    /// Writes bytes at a place of what a node that is there holds, which there is room for. With `Err` nothing changes.
    pub(crate) fn write(&mut self, node: Node, at: u32, bytes: &[u8]) -> Result<(), AllocError>
        requires there { IsSome (entry_at self.old node) }
        requires room { sum_by size_in (with_entry (entry_with_contents (λ old. after_write old at bytes.now)) self.old node) ≤ FILE_SPACE }
        ensures ok { OnOk result (self.new ≡ with_entry (entry_with_contents (λ old. after_write old at bytes.now)) self.old node) }
        ensures err { OnErr result (self.new ≡ self.old) }
    {
        match &mut self.entries[usize::from(node.number())] {
            Some(entry) => {
                let others = self.total - entry.contents.len();
                entry.contents.write(at, bytes)?;
                self.total = others + entry.contents.len();
                Ok(())
            }
            None => unreachable!(),
        }
    }

    /// Lets go what a node that is there holds.
    pub(crate) fn clear(&mut self, node: Node)
        requires { IsSome (entry_at self.old node) }
        ensures { self.new ≡ with_entry (entry_with_contents (λ old. [])) self.old node }
    {
        match &mut self.entries[usize::from(node.number())] {
            Some(entry) => {
                self.total -= entry.contents.len();
                entry.contents.clear();
            }
            None => unreachable!(),
        }
    }
}
