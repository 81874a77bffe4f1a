//! A reset that tells how often it ran.
use lockfree_object_pool::clean::AnyValue;
use lockfree_object_pool::closures::Reset;

/// Adds a number, and begins again at 0 past the greatest one.
#[derive(Clone, Copy, Drop)]
pub struct Adds {
    pub number: u32,
}

impl Adds {
    /// Returns what it leaves of a value.
    pub fn sum(&self, value: u32) -> u32 {
        value.wrapping_add(self.number)
    }
}

impl Reset<u32, AnyValue> for Adds {
    fn reset(&self, value: &mut u32) {
        *value = self.sum(*value);
    }
}
