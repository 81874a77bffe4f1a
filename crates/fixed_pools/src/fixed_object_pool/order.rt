//! In which order a pull goes through the words of a pool.

/// Which words a pull reads after the one at which it begins.
#[derive(Clone, Copy)]
pub enum Order {
    /// Those behind it, and then those before it.
    Round,
    /// The lowest that may have a free item, those behind that, and then those before it: a page
    /// of which nobody has had an item is asked last.
    LowFirst,
    /// The hinted one, then those behind that, and then those before it.
    Hinted,
}
