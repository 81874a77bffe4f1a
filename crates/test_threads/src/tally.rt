//! How many items were made and dropped, on all threads.
use std::alloc::{AllocError, Global};
use std::sync::Arc;
use std::sync::atomic::AtomicUsize;
use std::sync::atomic::Ordering::SeqCst;

/// Counts of calls that make an item, of those that were refused, and of items that were made and
/// dropped.
#[derive(Drop)]
pub struct Tally {
    calls: AtomicUsize,
    refused: AtomicUsize,
    made: AtomicUsize,
    dropped: AtomicUsize,
}

impl Tally {
    /// Creates a tally that counts from 0.
    pub fn new(alloc: Global) -> Result<Arc<Tally>, AllocError> {
        let tally = Tally {
            calls: AtomicUsize::new(0),
            refused: AtomicUsize::new(0),
            made: AtomicUsize::new(0),
            dropped: AtomicUsize::new(0),
        };
        Ok(Arc::new(alloc, tally)?)
    }

    /// Counts a call, and returns its number from 0 on.
    pub fn call(&self) -> usize {
        self.calls.fetch_add(1, SeqCst)
    }

    /// Counts a refused call.
    pub fn count_refused(&self) {
        self.refused.fetch_add(1, SeqCst);
    }

    /// Returns how many calls were refused.
    pub fn refused(&self) -> usize {
        self.refused.load(SeqCst)
    }

    /// Returns how many calls were answered with an item.
    pub fn answered(&self) -> usize {
        self.calls.load(SeqCst).wrapping_sub(self.refused())
    }

    /// Counts an item that was made.
    pub fn count_made(&self) {
        self.made.fetch_add(1, SeqCst);
    }

    /// Counts an item that was dropped.
    pub fn count_dropped(&self) {
        self.dropped.fetch_add(1, SeqCst);
    }

    /// Returns how many items were made and not dropped.
    pub fn living(&self) -> usize {
        self.made
            .load(SeqCst)
            .wrapping_sub(self.dropped.load(SeqCst))
    }
}
