//! Lists that grow at their end.
ghost use Rattle.std.specs.Prelude.{◌≡◌, [], ◌∷◌, ◌++◌, is_ok, length, ◌==◌, if◌then◌else◌};

use crate::fault::NoMemory;
use std::alloc::Global;
use std::marker::Model;

/// Items in order, seen as their list.
#[derive(Drop)]
pub struct ItemList<T> {
    items: Vec<T>,
}

impl<T> Model for ItemList<T> {
    ghost use Rattle.std.specs.Prelude.{List};

    ghost Value = { List T };

    ghost view = { λ l. l.items.items };
}

impl<T: Drop> ItemList<T> {
    /// No items. It takes no memory.
    pub(crate) fn new(alloc: Global) -> Self
        ensures { result ≡ [] }
    {
        ItemList {
            items: Vec::new(alloc),
        }
    }

    /// Puts an item behind the others. `NoMemory` is the only error, and leaves the list as it was.
    pub(crate) fn push(&mut self, item: T) -> Result<(), NoMemory>
        ensures { self.new ≡ (if is_ok result then self.old ++ item ∷ [] else self.old) }
    {
        self.items.push(item)?;
        Ok(())
    }

    /// Whether there is no item.
    pub fn is_empty(&self) -> bool
        ensures { result ≡ (length self.now == 0) }
    {
        self.items.is_empty()
    }

    /// The items in order.
    pub fn as_slice(&self) -> &[T]
        ensures { result.now ≡ self.now }
    {
        &self.items
    }
}
