//! The items that a player holds, by their indexes.
ghost use Rattle.std.specs.Prelude.{◌≡◌, ◌≢◌, ◌<◌, ℕ, is_some, nat_eq, option_map, ◌++◌, ◌∷◌, []};
ghost use Rattle.std.specs.Prelude.{length, slice_set, Some, None, IfNone, OnOk, OnSome};
ghost use Rattle.std.specs.Option.{option_copied};
ghost use Rattle.std.specs.HashMap.{get};
ghost use Rattle.object_pool_cores.specs.Item.{item_value, with_value};
ghost use Rattle.object_pool_cores.specs.Held.{held_at};
ghost use Rattle.object_pool_cores.specs.Inside.HeldTable.{IsReplaced};

use crate::sequential::{Item, RunError};
use std::alloc::Global;
use std::collections::HashMap;
use std::marker::Model;

/// A table of what is held. An index is never used again, and what was taken out takes no place.
#[derive(Drop)]
pub(crate) struct HeldItems<T> {
    items: HashMap<usize, Item<T>>,
    next: usize,
}

impl<T> Model for HeldItems<T> {
    ghost use Rattle.object_pool_cores.specs.Inside.HeldTable.{HeldState, IsBelow, spare_of};
    ghost use Rattle.object_pool_cores.specs.Inside.HeldTable.{table_of};

    ghost Value = { HeldState T };

    ghost view = { λ held. record {
      items = table_of held.items held.next;
      spare = spare_of held.items held.next;
    } };

    ghost invariant = { λ held. IsBelow held.items held.next };
}

impl<T: Drop> HeldItems<T> {
    /// Creates a table in which nothing is held yet.
    pub(crate) fn new(alloc: Global) -> HeldItems<T>
        ensures { result.items ≡ [] }
    {
        HeldItems {
            items: HashMap::new(alloc),
            next: 0,
        }
    }

    /// Returns the value that is held at an index, if one is.
    pub(crate) fn get(&self, index: usize) -> Option<&T>
        ensures { option_copied result ≡ option_map item_value (held_at self.now.items index) }
    {
        match self.items.get(&index) {
            Some(item) => Some(item),
            None => None,
        }
    }

    /// Makes room for one item more.
    ///
    /// # Errors
    ///
    /// `Memory` if the table can't grow or the indexes are used up.
    pub(crate) fn reserve(&mut self) -> Result<(), RunError>
        ensures same { self.new.items ≡ self.old.items }
        ensures room { OnOk result (0 < self.new.spare) }
    {
        if self.next == usize::MAX {
            return Err(RunError::Memory);
        }
        self.items.reserve(1)?;
        Ok(())
    }

    /// Holds an item at the next index, which it returns.
    pub(crate) fn hold(&mut self, item: Item<T>) -> usize
        requires { 0 < self.old.spare }
        ensures held { self.new.items ≡ self.old.items ++ Some item ∷ [] }
        ensures index { result ≡ length self.old.items }
    {
        let index = self.next;
        let Ok(_) = self.items.insert(index, item) else {
            unreachable!()
        };
        self.next += 1;
        index
    }

    /// Takes the item at an index out of the table, if one is held there.
    pub(crate) fn take(&mut self, index: usize) -> Option<Item<T>>
        ensures item { result ≡ held_at self.old.items index }
        ensures held { OnSome result (self.new.items ≡ slice_set self.old.items index None) }
        ensures none { IfNone result (self.new.items ≡ self.old.items) }
    {
        self.items.remove(&index)
    }

    /// Replaces the value that is held at an index, and returns whether there is one.
    pub(crate) fn replace(&mut self, index: usize, value: T) -> bool
        ensures { IsReplaced self.old.items index value (held_at self.old.items index)
            result self.new.items }
    {
        replace_value(&mut self.items, index, value)
    }
}

/// Replaces the value of the item at an index of a map, and returns whether there is one.
fn replace_value<T: Drop>(items: &mut HashMap<usize, Item<T>>, index: usize, value: T) -> bool
    ensures there { result ≡ is_some (get nat_eq items.old index) }
    ensures here { get nat_eq items.new index ≡ option_map (λ item. with_value item value)
        (get nat_eq items.old index) }
    ensures others { (other : ℕ) → other ≢ index → get nat_eq items.new other
        ≡ get nat_eq items.old other }
{
    match items.get_mut(&index) {
        Some(item) => {
            **item = value;
            true
        }
        None => false,
    }
}
