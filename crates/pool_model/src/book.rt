//! What is done with the values of a pool, counted by the pool's closures and by its model.
use pool_parts::PullError;
use std::alloc::Global;
use std::sync::Arc;
use std::sync::atomic::Ordering::SeqCst;
use std::sync::atomic::{AtomicBool, AtomicUsize};
use std::thread;

/// How often was done what can be done with values.
#[derive(Clone, Copy, Debug, PartialEq, Eq)]
pub struct Counts {
    /// How often `init` was called.
    pub calls: usize,
    /// How many values were made, by `init` or by the closure of a call.
    pub made: usize,
    pub resets: usize,
    pub drops: usize,
    /// Which values were dropped, in their order, as one number.
    pub order: usize,
}

impl Counts {
    /// Creates counts of nothing.
    pub fn new() -> Counts {
        Counts {
            calls: 0,
            made: 0,
            resets: 0,
            drops: 0,
            order: 0,
        }
    }

    /// Counts a drop of the value with this serial number.
    pub fn add_drop(&mut self, serial: usize) {
        self.drops = self.drops.wrapping_add(1);
        self.order = next_order(self.order, serial);
    }
}

/// The number of an order of drops that goes on with this value.
fn next_order(order: usize, serial: usize) -> usize {
    order.wrapping_mul(31).wrapping_add(serial).wrapping_add(1)
}

/// The counts that a pool's values and closures keep, and what they are told to do.
#[derive(Drop)]
pub struct Book {
    calls: AtomicUsize,
    made: AtomicUsize,
    resets: AtomicUsize,
    drops: AtomicUsize,
    order: AtomicUsize,
    refuses: AtomicBool,
    rejects: AtomicBool,
    /// Whether resets wait at their door, and how many came there.
    is_shut: AtomicBool,
    came: AtomicUsize,
}

/// How often one that waits at a door looks whether it is open.
const MOST_TURNS: u32 = 100_000_000;

/// Creates a book of which its values are owners.
///
/// # Errors
///
/// `Memory`.
pub fn new_book(alloc: Global) -> Result<Arc<Book>, PullError> {
    Ok(Arc::new(alloc, Book::new())?)
}

impl Book {
    /// Creates a book that counts from 0. Values are made, and resets keep them.
    fn new() -> Book {
        Book {
            calls: AtomicUsize::new(0),
            made: AtomicUsize::new(0),
            resets: AtomicUsize::new(0),
            drops: AtomicUsize::new(0),
            order: AtomicUsize::new(0),
            refuses: AtomicBool::new(false),
            rejects: AtomicBool::new(false),
            is_shut: AtomicBool::new(false),
            came: AtomicUsize::new(0),
        }
    }

    /// Returns the counts. Their order of drops is exact if one thread drops values.
    pub fn counts(&self) -> Counts {
        Counts {
            calls: self.calls.load(SeqCst),
            made: self.made.load(SeqCst),
            resets: self.resets.load(SeqCst),
            drops: self.drops.load(SeqCst),
            order: self.order.load(SeqCst),
        }
    }

    /// Returns whether what makes values refuses.
    pub fn refuses(&self) -> bool {
        self.refuses.load(SeqCst)
    }

    /// Says whether what makes values refuses from now on.
    pub fn refuse(&self, refuses: bool) {
        self.refuses.store(refuses, SeqCst);
    }

    /// Returns whether resets reject.
    pub fn rejects(&self) -> bool {
        self.rejects.load(SeqCst)
    }

    /// Says whether resets reject from now on.
    pub fn reject(&self, rejects: bool) {
        self.rejects.store(rejects, SeqCst);
    }

    /// Says whether resets wait at their door from now on.
    pub fn shut(&self, is_shut: bool) {
        self.is_shut.store(is_shut, SeqCst);
    }

    /// Returns how many resets came to a door that was shut.
    pub fn came(&self) -> usize {
        self.came.load(SeqCst)
    }

    /// Waits until the door is open.
    fn pass_door(&self) {
        if !self.is_shut.load(SeqCst) {
            return;
        }
        self.came.fetch_add(1, SeqCst);
        for _ in 0..MOST_TURNS {
            if !self.is_shut.load(SeqCst) {
                return;
            }
            thread::yield_now();
        }
    }

    pub(crate) fn count_call(&self) {
        self.calls.fetch_add(1, SeqCst);
    }

    /// Counts a value, and returns its serial number.
    pub(crate) fn count_value(&self) -> usize {
        self.made.fetch_add(1, SeqCst)
    }

    /// Counts a reset, which may have to wait at its door.
    pub(crate) fn count_reset(&self) {
        self.pass_door();
        self.resets.fetch_add(1, SeqCst);
    }

    pub(crate) fn count_drop(&self, serial: usize) {
        self.drops.fetch_add(1, SeqCst);
        let order = next_order(self.order.load(SeqCst), serial);
        self.order.store(order, SeqCst);
    }
}
