//! The pool of these tests, and its items, however they were pulled.
use lazy_pools::lazy_object_pool::lazy_refused::{LazyRefused, PullWithError};
use lazy_pools::page::PullPass;
use lazy_pools::{LazyObjectPool, LazyOwnedReusable, LazyReusable, PullError};
use pool_model::value::{Closures, Value};
use pool_parts::reusable::Reusable;
use std::mem;

pub type Pool = LazyObjectPool<Value, Closures, Closures>;

pub type Borrowed<'p> = LazyReusable<'p, Value, Closures, Closures>;

pub type Owned = LazyOwnedReusable<Value, Closures, Closures>;

/// An item that is held.
#[derive(Drop)]
pub enum Item<'p> {
    Borrowed(Borrowed<'p>),
    Owned(Owned),
}

impl<'p> Item<'p> {
    /// Returns its number in the pool.
    pub fn number(&self) -> usize {
        match self {
            Item::Borrowed(item) => item.number(),
            Item::Owned(item) => item.number(),
        }
    }

    /// Returns how many values were made before its value.
    pub fn serial(&self) -> usize {
        match self {
            Item::Borrowed(item) => item.serial,
            Item::Owned(item) => item.serial,
        }
    }

    pub fn give_back(self) {
        match self {
            Item::Borrowed(item) => drop(item.give_back()),
            Item::Owned(item) => drop(item.give_back()),
        }
    }

    /// Resets the value, and returns it as it is if the reset keeps it.
    pub fn reset_first(self) {
        match self {
            Item::Borrowed(item) => {
                if let Ok(left) = item.try_reset() {
                    left.give_kept();
                }
            }
            Item::Owned(item) => {
                if let Ok(left) = item.try_reset() {
                    left.give_kept();
                }
            }
        }
    }

    pub fn discard(self) {
        match self {
            Item::Borrowed(item) => drop(item.discard()),
            Item::Owned(item) => drop(item.discard()),
        }
    }

    pub fn detach(self) {
        match self {
            Item::Borrowed(item) => drop(item.detach()),
            Item::Owned(item) => drop(item.detach()),
        }
    }

    pub fn forget(self) {
        mem::forget(self);
    }
}

pub fn borrowed<'p>(pulled: Result<Borrowed<'p>, PullError>) -> Result<Item<'p>, PullError> {
    match pulled {
        Ok(item) => Ok(Item::Borrowed(item)),
        Err(cause) => Err(cause),
    }
}

pub fn owned<'p>(pulled: Result<Owned, PullError>) -> Result<Item<'p>, PullError> {
    match pulled {
        Ok(item) => Ok(Item::Owned(item)),
        Err(cause) => Err(cause),
    }
}

/// The refusal of a pull by a closure as that of another pull.
pub fn made<A: Drop>(pulled: Result<A, PullWithError<Value, PullError>>) -> Result<A, PullError> {
    match pulled {
        Ok(item) => Ok(item),
        Err(PullWithError::Memory) => Err(PullError::Memory),
        Err(PullWithError::Limit(_)) => Err(PullError::Limit),
        Err(PullWithError::Make(cause)) => Err(cause),
        Err(PullWithError::Closed) => Err(PullError::Closed),
    }
}

/// Pulls by one pass.
pub fn tried(pool: &Pool) -> Result<Item<'_>, PullError> {
    let pass = PullPass::new();
    match pool.try_pull(&pass) {
        Ok(item) => Ok(Item::Borrowed(item)),
        Err(LazyRefused::Busy(_)) => Err(PullError::Limit),
        Err(LazyRefused::NotMade) => Err(PullError::Init),
        Err(LazyRefused::Closed) => Err(PullError::Closed),
    }
}
