//! What is held in a game.
use std::alloc::{AllocError, Global};

/// An item that is held: which one it is, and whether it owns the pool.
#[derive(Clone, Copy, PartialEq, Eq)]
pub struct Held {
    pub number: usize,
    pub serial: usize,
    pub is_owned: bool,
}

/// The items that are held, each at its number.
#[derive(Drop)]
pub struct Hand {
    held: Vec<Option<Held>>,
    /// How many of them own the pool.
    owned: usize,
    /// The most that were in use at once.
    most: usize,
}

impl Hand {
    /// Creates one with a place for each item of a pool.
    ///
    /// # Errors
    ///
    /// If memory is refused.
    pub fn new(alloc: Global, items: usize) -> Result<Hand, AllocError> {
        let mut held = Vec::with_capacity(alloc, items)?;
        for _ in 0..items {
            held.push(None)?;
        }
        Ok(Hand {
            held,
            owned: 0,
            most: 0,
        })
    }

    /// Returns how many of those that are held own the pool.
    pub fn owned(&self) -> usize {
        self.owned
    }

    /// Returns the most that were in use at once.
    pub fn most(&self) -> usize {
        self.most
    }

    /// Adds an item, with which so many are in use. Returns whether it wasn't held.
    pub fn hold(&mut self, held: Held, used: usize) -> bool {
        self.most = self.most.max(used);
        self.owned = self.owned.wrapping_add(held.is_owned as usize);
        match self.held.get_mut(held.number) {
            Some(place) => place.replace(held).is_none(),
            None => false,
        }
    }

    /// Takes the item of this number.
    pub fn taken(&mut self, number: usize) -> Option<Held> {
        let held = self.held.get_mut(number)?.take()?;
        self.owned = self.owned.wrapping_sub(held.is_owned as usize);
        Some(held)
    }

    /// Returns the number of an item that is held: this one, or the next one; 0 if none is.
    pub fn next_held(&self, number: usize) -> usize {
        self.first_from(number).or(self.first_from(0)).unwrap_or(0)
    }

    /// Returns the number of the first item from this number on that is held.
    fn first_from(&self, number: usize) -> Option<usize> {
        Some(self.held.iter().skip(number).flatten().next()?.number)
    }
}
