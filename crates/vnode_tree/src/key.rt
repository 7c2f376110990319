//! What a search of the table looks at before it looks at a node.
ghost use Rattle.std.specs.Prelude.{◌≡◌, ◌≤◌, length, is_none, position};
ghost use Rattle.sys_types.specs.declared.limits.TheConstants.{NODES};
ghost use Rattle.vnode_tree.specs.Keys.{name_sum, key_of, has_key, is_key_below, is_key_inside, keyed_inside};

use crate::NODES;
use arrayvec::ArrayVec;
use sys_types::Node;

/// The directory of a node, and a sum of the bytes of its name: names of other sums are other names.
#[derive(Clone, Copy)]
pub(crate) struct Key {
    pub(crate) dir: u16,
    pub(crate) sum: u16,
}

/// A sum of the bytes of a name.
fn sum_of(name: &[u8]) -> u16
    ensures { result ≡ name_sum name.now }
{
    name.iter().fold(0, |sum: u16, byte| {
        sum.wrapping_mul(31).wrapping_add(u16::from(*byte))
    })
}

impl Key {
    /// The key of a name in a directory.
    pub(crate) fn of(dir: u16, name: &[u8]) -> Key
        ensures { result ≡ key_of dir name.now }
    {
        Key {
            dir,
            sum: sum_of(name),
        }
    }
}

/// Whether a place has this key.
pub(crate) fn has_key(key: &Option<Key>, wanted: Key) -> bool
    ensures { result ≡ has_key wanted key.now }
{
    match key {
        Some(key) => key.dir == wanted.dir && key.sum == wanted.sum,
        None => false,
    }
}

/// Whether a place has a key of a directory.
pub(crate) fn is_key_below(key: &Option<Key>, dir: u16) -> bool
    ensures { result ≡ is_key_below dir key.now }
{
    match key {
        Some(key) => key.dir == dir,
        None => false,
    }
}

/// Whether the key at a place is of a node in a directory. The root is in none.
fn is_key_inside(dir: Node, place: usize, key: &Option<Key>) -> bool
    ensures { result ≡ is_key_inside dir place key.now }
{
    place > 0 && is_key_below(key, dir.number())
}

/// The first place without a key.
pub(crate) fn free_place(keys: &[Option<Key>]) -> Option<usize>
    ensures { result ≡ position is_none keys.now }
{
    keys.iter().position(|key| key.is_none())
}

/// The places whose keys are of nodes in a directory.
pub(crate) fn children(keys: &[Option<Key>], dir: Node) -> ArrayVec<Node, NODES>
    requires { length keys.now ≤ NODES }
    ensures { result.items ≡ keyed_inside keys.now dir }
{
    let mut children = ArrayVec::new();
    for (place, key) in keys.iter().enumerate() {
        if is_key_inside(dir, place, key) {
            children.push(Node::of(place as u16));
        }
    }
    children
}
