//! Hints: bits that are set for pages that may have a free item. They save steps and promise
//! nothing.
//!
//! So no clause tells hints that are lost. If none is set, `ci/two_sizes` tells.
ghost use Rattle.std.specs.Prelude.{◌≤◌, ◌<◌, IfSome};

use std::sync::atomic::AtomicU64;
use std::sync::atomic::Ordering::SeqCst;

/// How many hints one word has.
pub(super) const HINTS: usize = 64;

/// A word of hints that threads share.
#[derive(Drop)]
pub(super) struct HintWord {
    bits: AtomicU64,
}

impl HintWord {
    /// Creates a word in which no hint is set.
    pub(super) fn new() -> HintWord {
        HintWord {
            bits: AtomicU64::new(0),
        }
    }

    /// Returns the first hint from this place on that is set.
    pub(super) fn first_from(&self, from: u32) -> Option<u32>
        requires { from < 64 }
        ensures { IfSome result (λ place. (from ≤ place) × (place < 64)) }
    {
        let bits = self.bits.load(SeqCst) >> from;
        let place = from + bits.trailing_zeros();
        if place < u64::BITS { Some(place) } else { None }
    }

    /// Sets a hint. Setting a hint that is already set costs only a load.
    pub(super) fn set(&self, place: u32)
        requires { place < 64 }
    {
        let hint = 1 << place;
        if self.bits.load(SeqCst) & hint == 0 {
            self.bits.fetch_or(hint, SeqCst);
        }
    }

    /// Clears a hint.
    pub(super) fn clear(&self, place: u32)
        requires { place < 64 }
    {
        self.bits.fetch_and(!(1 << place), SeqCst);
    }
}
