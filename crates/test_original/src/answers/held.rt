//! Items that are held, and how a pool is asked for one.
use super::item::Item;
use std::mem;
use std::ops::DerefMut;

/// What a pool is asked for.
#[derive(Drop)]
pub enum Source {
    /// An item that is pulled.
    Pool,
    /// This item, attached to the pool.
    Caller(Item),
}

/// Where an item lies in a linear pool.
#[derive(Clone, Copy)]
pub struct Place {
    pub page: usize,
    pub id: u8,
}

/// An item that came, and where it lies, if its pool tells.
#[derive(Drop)]
pub struct Given<A> {
    pub item: A,
    pub place: Option<Place>,
}

impl<A> Given<A> {
    /// Makes an item whose pool doesn't say where it lies.
    pub fn nowhere(item: A) -> Given<A> {
        Given { item, place: None }
    }
}

/// An item that is held, under a borrow of its pool or with an owner of it.
#[derive(Drop)]
pub enum Held<A, B> {
    Borrowed(A),
    Owned(B),
}

impl<A: DerefMut<Target = Item>, B: DerefMut<Target = Item>> Held<A, B> {
    /// Writes to the item, and answers what was written before.
    pub fn write(&mut self, content: u64) -> u64 {
        match self {
            Held::Borrowed(item) => mem::replace(&mut item.content, content),
            Held::Owned(item) => mem::replace(&mut item.content, content),
        }
    }
}
