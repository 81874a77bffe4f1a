//! What makes and resets the items of both sides.
use crate::tally::SideTally;
use crate::value::Value;
use lockfree_object_pool::clean::AnyValue;
use lockfree_object_pool::closures::{Init, Reset};
use std::alloc::AllocError;
use std::sync::Arc;

/// Makes items that show the number of their making, and refuses where its tally says so.
#[derive(Drop)]
pub struct Maker {
    tally: Arc<SideTally>,
}

impl Maker {
    /// Creates an initializer that counts on this tally.
    ///
    /// # Errors
    ///
    /// If memory is refused.
    pub fn new(tally: &Arc<SideTally>) -> Result<Maker, AllocError> {
        let tally = Arc::try_clone(tally)?;
        Ok(Maker { tally })
    }

    /// Makes a value, or returns `None` if the tally refuses it.
    pub fn value<T: Value>(&self) -> Option<T> {
        let number = self.tally.next_number()?;
        T::new(&self.tally, number)
    }
}

impl<T: Value> Init<T, AnyValue> for Maker {
    fn make(&self) -> Option<T> {
        self.value()
    }
}

/// Counts the resets, and leaves a trace of each and of what was written before.
#[derive(Drop)]
pub struct Traces {
    tally: Arc<SideTally>,
}

impl Traces {
    /// Creates a reset that counts on this tally.
    ///
    /// # Errors
    ///
    /// If memory is refused.
    pub fn new(tally: &Arc<SideTally>) -> Result<Traces, AllocError> {
        let tally = Arc::try_clone(tally)?;
        Ok(Traces { tally })
    }
}

impl<T: Value> Reset<T, AnyValue> for Traces {
    fn reset(&self, value: &mut T) {
        self.tally.count_reset();
        value.write(traced(value.content()));
    }
}

/// Creates what makes and what resets the items of a tally.
///
/// # Errors
///
/// If memory is refused.
pub fn closures(tally: &Arc<SideTally>) -> Result<(Maker, Traces), AllocError> {
    Ok((Maker::new(tally)?, Traces::new(tally)?))
}

/// Returns what a reset makes of a content.
pub fn traced(content: u64) -> u64 {
    content.wrapping_mul(5).wrapping_add(1)
}
