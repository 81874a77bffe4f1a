//! One item, while it is in use.
ghost use Rattle.std.specs.Prelude.{◌≡◌, IsTrue, IsSome, Some, None};
ghost use Rattle.std.specs.Borrow.{Lends, sem};
ghost use Rattle.object_pool_cores.specs.Item.{item_value, item_number, has_room};
ghost use Rattle.object_pool_cores.specs.Item.{with_value};

use kept_values::stack::Room;
use std::ops::{Deref, DerefMut};

/// An item that was pulled from a sequential pool.
///
/// # Examples
///
/// ```rust
/// let item = core.pull()?;
/// assert_eq!(rt; item.number(), Some(0));
/// core.give(item); // a later pull gives it again
/// ```
#[derive(Drop)]
pub struct Item<T> {
    value: T,
    home: Home<T>,
}

/// What an item brings back to its pool.
#[derive(Drop)]
enum Home<T> {
    /// Its number.
    Number(u128),
    /// The room that it will lie in.
    Room(Room<T>),
    /// Nothing: it doesn't come back.
    Nowhere,
}

impl<T> Item<T> {
    /// Makes an item with a number.
    pub(crate) fn numbered(value: T, number: u128) -> Item<T>
        ensures value { item_value result ≡ value }
        ensures number { item_number result ≡ Some number }
    {
        Item {
            value,
            home: Home::Number(number),
        }
    }

    /// Makes an item with the room for its return.
    pub(crate) fn with_room(value: T, room: Room<T>) -> Item<T>
        ensures value { item_value result ≡ value }
        ensures number { item_number result ≡ None }
        ensures room { IsTrue (has_room result) }
    {
        Item {
            value,
            home: Home::Room(room),
        }
    }

    /// Makes an item that doesn't come back.
    pub(crate) fn fresh(value: T) -> Item<T>
        ensures value { item_value result ≡ value }
        ensures number { item_number result ≡ None }
    {
        Item {
            value,
            home: Home::Nowhere,
        }
    }

    /// Returns whether the item brings a room.
    pub(crate) fn has_room(&self) -> bool
        ensures { result ≡ has_room self.now }
    {
        match self.home {
            Home::Room(_) => true,
            Home::Number(_) | Home::Nowhere => false,
        }
    }

    /// Returns the item's number, if its pool numbers its items: 32 times its page, and its place
    /// there.
    pub fn number(&self) -> Option<u128>
        ensures { result ≡ item_number self.now }
    {
        match self.home {
            Home::Number(number) => Some(number),
            Home::Room(_) | Home::Nowhere => None,
        }
    }
}

impl<T: Drop> Item<T> {
    /// Returns the value.
    pub(crate) fn into_value(self) -> T
        ensures { result ≡ item_value self }
    {
        self.value
    }

    /// Returns the value, and the room that the item brings.
    pub(crate) fn into_parts(self) -> (T, Option<Room<T>>)
        ensures value { result.0 ≡ item_value self }
        ensures room { IsTrue (has_room self) → IsSome result.1 }
    {
        let Item { value, home } = self;
        match home {
            Home::Room(room) => (value, Some(room)),
            Home::Number(_) | Home::Nowhere => (value, None),
        }
    }
}

impl<T> Deref for Item<T> {
    type Target = T;

    ghost deref_gives = { λ item value. value ≡ item_value item };

    fn deref(&self) -> &T {
        &self.value
    }
}

impl<T> DerefMut for Item<T> {
    ghost use Rattle.object_pool_cores.specs.contracts.sequential.item.Item.{the_row};

    ghost deref_mut_gives = { λ item value. value ≡ item_value item };

    fn deref_mut(&mut self) -> &mut T
        ensures* writes_back { sem 𝓛
            (Lends (the_row T.row) T.row self.entry result (with_value self.old)) }
        ensures shows { result.now ≡ item_value self.old }
    {
        &mut self.value
    }
}
