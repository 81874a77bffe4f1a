//! What a test has met of refused memory, and how it asks again for what was refused.
use pool_parts::PullError;
use std::cell::Cell;

/// Whether memory was refused until now.
#[derive(Drop)]
pub struct Refusals {
    is_met: Cell<bool>,
}

/// Answers what is asked for. If memory was refused, it comes by a second try.
#[macro_export]
macro_rules! asked_again {
    ($rt:expr, $refusals:expr, $ask:expr) => {{
        let mut answer = $ask;
        if $refusals.are_told_by(&answer) {
            answer = $ask;
        }
        answer.expect($rt, "one request alone is refused")
    }};
}

impl Refusals {
    /// Creates a record of no refusal.
    pub fn new() -> Refusals {
        Refusals {
            is_met: Cell::new(false),
        }
    }

    /// Records that memory was refused.
    pub fn note(&self) {
        self.is_met.set(true);
    }

    /// Returns whether an answer tells that memory was refused, which is recorded.
    pub fn are_told_by<X: Drop>(&self, answer: &Result<X, PullError>) -> bool {
        let is_told = matches!(answer, Err(PullError::Memory));
        if is_told {
            self.note();
        }
        is_told
    }

    /// Prints whether memory was refused. `ci/refuse_memory`, which compares the line with what it
    /// refused, misses one that isn't printed.
    pub fn tell(&self, rt: &impl Print) {
        let _told = if self.is_met.get() {
            println!(rt; "a request for memory was refused")
        } else {
            println!(rt; "each request for memory was met")
        };
    }
}
