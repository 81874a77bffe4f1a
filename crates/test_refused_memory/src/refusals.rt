//! What a test has met of refused memory.
use lockfree_object_pool::PullError;
use std::alloc::Global;
use std::cell::Cell;
use std::process::Abort;
use std::sync::Arc;
use test_values::tally::{Tally, new_tally};

/// Whether memory was refused until now.
#[derive(Drop)]
pub struct Refusals {
    is_met: Cell<bool>,
}

/// Answers what is asked for. If memory was refused, it comes by a second try.
macro_rules! again {
    ($rt:expr, $refusals:expr, $ask:expr) => {{
        let mut answer = $ask;
        if $refusals.are_told_by(&answer) {
            answer = $ask;
        }
        answer.expect($rt, "one request alone is refused")
    }};
}

pub(crate) use again;

impl Refusals {
    /// Creates a record of no refusal.
    pub fn new() -> Refusals {
        Refusals {
            is_met: Cell::new(false),
        }
    }

    /// Records that memory was refused.
    pub fn note(&self) {
        self.is_met.set(true);
    }

    /// Whether an answer tells that memory was refused, which is recorded.
    pub fn are_told_by<X: Drop>(&self, answer: &Result<X, PullError>) -> bool {
        let is_told = matches!(answer, Err(PullError::Memory));
        if is_told {
            self.note();
        }
        is_told
    }

    /// Creates a tally. If memory was refused, it comes by a second try.
    pub fn tally(&self, rt: &(impl Abort + AllocGlobal)) -> Arc<Tally> {
        again!(rt, self, new_tally(rt.alloc()))
    }

    /// Creates a list with room for so many entries. If memory was refused, it comes by a second
    /// try.
    pub fn list<X: Drop>(&self, rt: &impl Abort, alloc: Global, count: usize) -> Vec<X> {
        again!(rt, self, list_with_room(alloc, count))
    }

    /// Prints whether memory was refused.
    pub fn tell(&self, rt: &(impl Abort + Print)) {
        let told = if self.is_met.get() {
            println!(rt; "a request for memory was refused")
        } else {
            println!(rt; "each request for memory was met")
        };
        told.expect(rt, "standard output is there");
    }
}

/// An empty list with room for so many entries.
fn list_with_room<X: Drop>(alloc: Global, count: usize) -> Result<Vec<X>, PullError> {
    Ok(Vec::with_capacity(alloc, count)?)
}
