//! Values that borrow the tally which counts how often they are made and dropped.
use crate::tally::Tally;

impl Tally {
    /// Makes a value, by one more call.
    pub fn make(&self) -> Counted<'_> {
        let call = self.next_call();
        self.count_made();
        Counted { counts: self, call }
    }

    /// Makes a value as `make` does, but for one call, counted from 0, which is refused.
    pub fn make_but(&self, refused: usize) -> Option<Counted<'_>> {
        let call = self.next_call();
        if call == refused {
            None
        } else {
            self.count_made();
            Some(Counted { counts: self, call })
        }
    }
}

/// A value that knows which call made it, counted from 0, and counts its drop.
pub struct Counted<'c> {
    counts: &'c Tally,
    pub call: usize,
}

impl Drop for Counted<'_> {
    fn drop(self) {
        let Counted { counts, call: _ } = self;
        counts.count_drop();
    }
}

/// A call that no test comes to.
pub const NEVER: usize = usize::MAX;
