//! What is done with the values of a test, counted on all its threads.
use pool_parts::PullError;
use std::alloc::Global;
use std::sync::Arc;
use std::sync::atomic::AtomicUsize;
use std::sync::atomic::Ordering::SeqCst;

/// How many calls there were for a value, and how many values were made, reset and dropped.
#[derive(Drop)]
pub struct Tally {
    calls: AtomicUsize,
    made: AtomicUsize,
    resets: AtomicUsize,
    drops: AtomicUsize,
}

impl Tally {
    /// Creates a tally that counts from 0.
    pub fn new() -> Tally {
        Tally {
            calls: AtomicUsize::new(0),
            made: AtomicUsize::new(0),
            resets: AtomicUsize::new(0),
            drops: AtomicUsize::new(0),
        }
    }

    /// Counts a call, and returns its number from 0 on.
    pub fn next_call(&self) -> usize {
        self.calls.fetch_add(1, SeqCst)
    }

    /// Counts a value that was made.
    pub fn count_made(&self) {
        self.made.fetch_add(1, SeqCst);
    }

    /// Counts a reset.
    pub fn count_reset(&self) {
        self.resets.fetch_add(1, SeqCst);
    }

    /// Counts a drop.
    pub fn count_drop(&self) {
        self.drops.fetch_add(1, SeqCst);
    }

    /// Returns how many calls there were.
    pub fn calls(&self) -> usize {
        self.calls.load(SeqCst)
    }

    /// Returns how many values were made.
    pub fn made(&self) -> usize {
        self.made.load(SeqCst)
    }

    /// Returns how many resets there were.
    pub fn resets(&self) -> usize {
        self.resets.load(SeqCst)
    }

    /// Returns how many values were dropped.
    pub fn drops(&self) -> usize {
        self.drops.load(SeqCst)
    }

    /// Returns the calls and the drops until now.
    pub fn now(&self) -> (usize, usize) {
        (self.calls(), self.drops())
    }

    /// Returns how many values were made and not dropped.
    pub fn living(&self) -> usize {
        self.made().wrapping_sub(self.drops())
    }
}

/// Creates a tally of which its values are owners.
///
/// # Errors
///
/// `Memory`.
pub fn new_tally(alloc: Global) -> Result<Arc<Tally>, PullError> {
    Ok(Arc::new(alloc, Tally::new())?)
}
