//! The law of a lock of which no history is asked.
use history_lock::{Law, Section};

/// Any history may leave any value. No value of this type is made.
pub struct NoLaw;

impl<T> Law<T, ()> for NoLaw {
    ghost use Rattle.std.specs.Prelude.{⊤};

    ghost leaves = { λ _ _. ⊤ };
}

/// A critical section of which nothing is recorded.
pub struct Unrecorded;

impl<T> Section<T, ()> for Unrecorded {
    ghost adds = { λ _ _. tt };
}
