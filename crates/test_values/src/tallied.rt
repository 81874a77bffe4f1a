//! Values that count how often they are made and dropped. Each is an owner of its tally, so that
//! its type names no lifetime and generic code serves for each kind of pool.
ghost use Rattle.std.specs.Prelude.{⊤};

use crate::counted::NEVER;
use crate::tally::Tally;
use pool_parts::PullError;
use pool_parts::clean::AnyValue;
use pool_parts::closures::Init;
use std::sync::Arc;

/// A value that knows which call made it, counted from 0, and counts its drop.
pub struct Tallied {
    tally: Arc<Tally>,
    pub number: usize,
}

impl Tallied {
    /// Makes a value, by one more call. It takes no memory.
    pub fn new(tally: &Arc<Tally>) -> Option<Tallied> {
        Tallied::new_but(tally, NEVER)
    }

    /// Makes a value as `new` does, but for one call, counted from 0, which is refused.
    pub fn new_but(tally: &Arc<Tally>, refused: usize) -> Option<Tallied> {
        let number = tally.next_call();
        if number == refused {
            return None;
        }
        let tally = Arc::try_clone(tally).ok()?;
        tally.count_made();
        Some(Tallied { tally, number })
    }
}

impl Drop for Tallied {
    fn drop(self) {
        let Tallied { tally, number: _ } = self;
        tally.count_drop();
    }
}

/// Makes such values, and refuses at one call, counted from 0.
#[derive(Drop)]
pub struct TalliedValues {
    pub tally: Arc<Tally>,
    pub refused: usize,
}

impl TalliedValues {
    /// Makes values of this tally, and refuses at no call.
    ///
    /// # Errors
    ///
    /// `Memory` if the tally can have no more owners.
    pub fn new(tally: &Arc<Tally>) -> Result<TalliedValues, PullError> {
        TalliedValues::new_but(tally, NEVER)
    }

    /// Makes values of this tally, and refuses at one call.
    ///
    /// # Errors
    ///
    /// `Memory` if the tally can have no more owners.
    pub fn new_but(tally: &Arc<Tally>, refused: usize) -> Result<TalliedValues, PullError> {
        let tally = Arc::try_clone(tally)?;
        Ok(TalliedValues { tally, refused })
    }
}

impl Init<Tallied, AnyValue> for TalliedValues {
    ghost answers = { λ _ _. ⊤ };

    fn make(&self) -> Option<Tallied> {
        Tallied::new_but(&self.tally, self.refused)
    }
}
