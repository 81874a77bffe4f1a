//! The plain model of a pool: a list of places.
use crate::book::Counts;
use pool_parts::PullError;
use std::alloc::{AllocError, Global};

#[derive(Clone, Copy)]
struct Place {
    /// The serial number of the value that lies there, or that its holder has.
    value: Option<usize>,
    is_held: bool,
}

/// What a pool is to be, and what is to have been done with its values.
#[derive(Drop)]
pub struct Model {
    places: Vec<Place>,
    /// How many values are made at a time: 1, or those of a page.
    batch: usize,
    is_closed: bool,
    held: usize,
    existing: usize,
    most: usize,
    pub counts: Counts,
}

impl Model {
    /// Creates the model of a pool of `items` empty places, which makes so many values at a time.
    ///
    /// # Errors
    ///
    /// If memory is refused.
    pub fn new(alloc: Global, items: usize, batch: usize) -> Result<Model, AllocError> {
        let mut places = Vec::with_capacity(alloc, items)?;
        for _ in 0..items {
            places.push(Place {
                value: None,
                is_held: false,
            })?;
        }
        Ok(Model {
            places,
            batch,
            is_closed: false,
            held: 0,
            existing: 0,
            most: 0,
            counts: Counts::new(),
        })
    }

    /// Returns how many places there are.
    pub fn items(&self) -> usize {
        self.places.len()
    }

    /// Returns how many items are in use.
    pub fn held(&self) -> usize {
        self.held
    }

    /// Returns how many values there are.
    pub fn existing(&self) -> usize {
        self.existing
    }

    /// Returns whether no place is empty.
    pub fn is_whole(&self) -> bool {
        self.existing == self.items()
    }

    /// Returns the most values that there ever were at once.
    pub fn most(&self) -> usize {
        self.most
    }

    /// Returns whether the pool was closed.
    pub fn is_closed(&self) -> bool {
        self.is_closed
    }

    /// Returns why each pull is refused now, whatever makes values.
    pub fn refusal(&self) -> Option<PullError> {
        if self.is_closed {
            Some(PullError::Closed)
        } else if self.held == self.items() {
            Some(PullError::Limit)
        } else {
            None
        }
    }

    /// Returns whether one of so many places from this one on is free.
    pub fn has_free(&self, start: usize, count: usize) -> bool {
        let places = self.places.iter().skip(start).take(count);
        places.into_iter().any(|place| !place.is_held)
    }

    /// Makes the value of a place.
    fn make(&mut self, number: usize, by_init: bool) {
        if by_init {
            self.counts.calls = self.counts.calls.wrapping_add(1);
        }
        let serial = self.counts.made;
        self.counts.made = serial.wrapping_add(1);
        if let Some(place) = self.places.get_mut(number) {
            place.value = Some(serial);
        }
        self.existing = self.existing.wrapping_add(1);
        self.most = self.most.max(self.existing);
    }

    /// Makes the values of these places by `init`.
    pub fn make_all(&mut self, start: usize, count: usize) {
        for number in start..start.saturating_add(count) {
            self.make(number, true);
        }
    }

    /// Returns the value of a place, and whether it is held.
    fn place(&self, number: usize) -> (Option<usize>, bool) {
        match self.places.get(number) {
            Some(place) => (place.value, place.is_held),
            None => (None, true),
        }
    }

    /// Takes the place that the pool gave. Returns whether it was free, and the value is the one
    /// that lay there, or a new one.
    pub fn take(&mut self, number: usize, serial: usize, by_init: bool) -> bool {
        let (value, is_held) = self.place(number);
        if is_held || self.is_closed {
            return false;
        }
        if value.is_none() {
            self.fill_batch(number, by_init);
        }
        self.set_held(number, true);
        self.holds(number, serial)
    }

    /// Makes a value at a place, and those that are made with it.
    fn fill_batch(&mut self, number: usize, by_init: bool) {
        if self.batch <= 1 {
            self.make(number, by_init);
        } else {
            let page = number.checked_div(self.batch).unwrap_or(0);
            self.make_all(page.saturating_mul(self.batch), self.batch);
        }
    }

    fn set_held(&mut self, number: usize, is_held: bool) {
        if let Some(place) = self.places.get_mut(number) {
            place.is_held = is_held;
        }
        if is_held {
            self.held = self.held.wrapping_add(1);
        } else {
            self.held = self.held.wrapping_sub(1);
        }
    }

    /// Returns whether an item in use has this value.
    pub fn holds(&self, number: usize, serial: usize) -> bool {
        self.place(number) == (Some(serial), true)
    }

    /// Counts a refusal of what makes values. Returns whether there was a place to make one for.
    pub fn is_refused(&mut self, by_init: bool) -> bool {
        if by_init {
            self.counts.calls = self.counts.calls.wrapping_add(1);
        }
        self.existing < self.items() && self.refusal().is_none()
    }

    /// Drops the value of a place, which is empty then.
    fn drop_value(&mut self, number: usize) {
        if let (Some(serial), _) = self.place(number) {
            self.take_value(number);
            self.counts.add_drop(serial);
        }
    }

    /// Empties a place.
    fn take_value(&mut self, number: usize) {
        if let Some(place) = self.places.get_mut(number) {
            place.value = None;
        }
        self.existing = self.existing.wrapping_sub(1);
    }

    /// Resets the value of an item in use. A rejected one is dropped, and its place is free. Returns
    /// whether the value is kept.
    pub fn reset(&mut self, number: usize, rejects: bool) -> bool {
        self.counts.resets = self.counts.resets.wrapping_add(1);
        if rejects {
            self.drop_value(number);
            self.set_held(number, false);
        }
        !rejects
    }

    /// Frees a place. A closed pool keeps nothing there.
    pub fn free(&mut self, number: usize) {
        self.set_held(number, false);
        if self.is_closed {
            self.drop_value(number);
        }
    }

    /// An item is returned.
    pub fn give_back(&mut self, number: usize, rejects: bool) {
        if self.reset(number, rejects) {
            self.free(number);
        }
    }

    /// An item leaves without a reset, and its value is dropped.
    pub fn discard(&mut self, number: usize) {
        self.drop_value(number);
        self.set_held(number, false);
    }

    /// Drops what is free.
    pub fn clear(&mut self) {
        for number in 0..self.items() {
            if !self.place(number).1 {
                self.drop_value(number);
            }
        }
    }

    /// Closes the pool.
    pub fn close(&mut self) {
        self.is_closed = true;
        self.clear();
    }

    /// Makes values in free places until there are so many.
    pub fn fill(&mut self, items: usize, refuses: bool) -> Result<(), PullError> {
        if self.is_closed {
            return Err(PullError::Closed);
        }
        for number in 0..self.items() {
            if self.existing >= items {
                return Ok(());
            }
            if self.place(number) == (None, false) {
                if refuses {
                    self.counts.calls = self.counts.calls.wrapping_add(1);
                    return Err(PullError::Init);
                }
                self.make(number, true);
            }
        }
        Ok(())
    }
}
