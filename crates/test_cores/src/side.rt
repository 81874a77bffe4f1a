//! The two sides that are compared, a running pool and the core of its kind, and their items.
use crate::answer::{Call, Stopped};
use crate::dice::Dice;
use crate::tally::SideTally;
use crate::value::Value;
use lockfree_object_pool::PullError;
use lockfree_object_pool::page::PageId;
use object_pool_cores::sequential::{Item, SequentialPool};
use std::marker::PhantomData;
use std::ops::DerefMut;
use std::sync::Arc;

/// The page at which a walk begins, and how many pages it may go over.
#[derive(Clone, Copy)]
pub struct Walk {
    pub page: usize,
    pub limit: Option<usize>,
}

/// What both sides are asked for.
#[derive(Clone, Copy)]
pub struct Ask {
    pub call: Call,
    pub walk: Walk,
    /// The number of a value that is attached.
    pub number: u64,
    /// The page of the item that the core gave.
    pub page: usize,
}

/// An item that is held.
pub trait Pulled: Drop {
    /// Returns what it shows.
    fn shown(&self) -> u64;

    fn overwrite(&mut self, content: u64);

    /// Returns its number, where its pool numbers its items.
    fn number(&self) -> Option<u128>;
}

/// A side, which gives items.
pub trait Side {
    type Item: Pulled;

    /// Gives an item. Values that are attached count on the side's tally.
    fn give(&mut self, ask: Ask, tally: &Arc<SideTally>) -> Result<Self::Item, PullError>;

    /// Takes an item back, which a pool does at its drop. Returns whether it was out.
    fn take_back(&mut self, item: Self::Item) -> bool {
        drop(item);
        true
    }

    /// Draws over which pages the next walk goes, where pages are asked by themselves.
    fn draw_walk(&self, _dice: &mut Dice) -> Walk {
        Walk {
            page: 0,
            limit: None,
        }
    }

    /// Returns how many pages there are, where pages are asked by themselves.
    ///
    /// # Errors
    ///
    /// `Stopped` if memory is refused.
    fn pages(&mut self) -> Result<usize, Stopped> {
        Ok(0)
    }
}

/// Returns the number of the item with this id of this page.
pub fn number_of(page: usize, id: PageId) -> u128 {
    page as u128 * 32 + u128::from(id)
}

impl<T: Value> Pulled for Item<T> {
    fn shown(&self) -> u64 {
        T::content(&**self)
    }

    fn overwrite(&mut self, content: u64) {
        T::write(&mut **self, content);
    }

    fn number(&self) -> Option<u128> {
        Item::number(self)
    }
}

/// The side of a core.
#[derive(Drop)]
pub struct OnCore<T, C> {
    core: C,
    marker: PhantomData<T>,
}

impl<T, C> OnCore<T, C> {
    /// Creates the side of a core.
    pub fn new(core: C) -> OnCore<T, C> {
        OnCore {
            core,
            marker: PhantomData,
        }
    }
}

impl<T: Value, C: SequentialPool<T>> Side for OnCore<T, C> {
    type Item = Item<T>;

    fn give(&mut self, ask: Ask, tally: &Arc<SideTally>) -> Result<Item<T>, PullError> {
        if !ask.call.attaches() {
            return self.core.pull();
        }
        let value = attached(tally, ask.number)?;
        self.core.attach(value).map_err(|_| PullError::Memory)
    }

    fn take_back(&mut self, item: Item<T>) -> bool {
        let is_mine = self.core.is_mine(&item);
        if is_mine {
            self.core.give(item);
        }
        is_mine
    }
}

/// Makes a value that is attached. It is the same on both sides.
///
/// # Errors
///
/// `Memory` if the tally can have no more owners.
pub fn attached<T: Value>(tally: &Arc<SideTally>, number: u64) -> Result<T, PullError> {
    T::new(tally, number).ok_or(PullError::Memory)
}

/// An item of a running pool, under a borrow of the pool or with an owner of it, and its number.
#[derive(Drop)]
pub enum Held<A, B> {
    Borrowed(A, Option<u128>),
    Owned(B, Option<u128>),
}

impl<T: Value, A: DerefMut<Target = T> + Drop, B: DerefMut<Target = T> + Drop> Pulled
    for Held<A, B> {
    fn shown(&self) -> u64 {
        match self {
            Held::Borrowed(item, _) => T::content(&**item),
            Held::Owned(item, _) => T::content(&**item),
        }
    }

    fn overwrite(&mut self, content: u64) {
        match self {
            Held::Borrowed(item, _) => T::write(&mut **item, content),
            Held::Owned(item, _) => T::write(&mut **item, content),
        }
    }

    fn number(&self) -> Option<u128> {
        match self {
            Held::Borrowed(_, number) | Held::Owned(_, number) => *number,
        }
    }
}
