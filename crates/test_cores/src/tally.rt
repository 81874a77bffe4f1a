//! What is done with the items of one side, a running pool or a core, in figures.
use std::alloc::{AllocError, Global};
use std::sync::Arc;
use std::sync::atomic::AtomicUsize;
use std::sync::atomic::Ordering::SeqCst;
use test_values::tally::Tally;

/// How often a side's `init` was called, its `reset` was called, and an item of it was dropped.
#[derive(Clone, Copy, Debug, PartialEq, Eq)]
pub struct Counts {
    pub inits: usize,
    pub resets: usize,
    pub drops: usize,
}

/// The tally of a side's items, which also says which call of the side's `init` is refused.
#[derive(Drop)]
pub struct SideTally {
    tally: Tally,
    refused_call: AtomicUsize,
}

impl SideTally {
    /// Creates a tally that counts from 0 and refuses nothing.
    ///
    /// # Errors
    ///
    /// If memory is refused.
    pub fn new(alloc: Global) -> Result<Arc<SideTally>, AllocError> {
        let tally = SideTally {
            tally: Tally::new(),
            refused_call: AtomicUsize::new(usize::MAX),
        };
        Ok(Arc::new(alloc, tally)?)
    }

    /// Counts a call of `init`, and returns its number from 0 on, or `None` if it is refused.
    pub fn next_number(&self) -> Option<u64> {
        let call = self.tally.next_call();
        if call == self.refused_call.load(SeqCst) {
            None
        } else {
            Some(call as u64)
        }
    }

    /// Refuses from now on the call of `init` after so many others, and no other.
    pub fn refuse_after(&self, calls: usize) {
        let call = self.tally.calls().wrapping_add(calls);
        self.refused_call.store(call, SeqCst);
    }

    /// Counts a reset.
    pub fn count_reset(&self) {
        self.tally.count_reset();
    }

    /// Counts a drop.
    pub fn count_drop(&self) {
        self.tally.count_drop();
    }

    /// Returns the counts.
    pub fn counts(&self) -> Counts {
        Counts {
            inits: self.tally.calls(),
            resets: self.tally.resets(),
            drops: self.tally.drops(),
        }
    }
}
