//! What makes and resets zeros in the tests.
ghost use Rattle.std.specs.Prelude.{◌≡◌, Some};

use pool_parts::clean::{AnyValue, Clean};
use pool_parts::closures::{Init, Reset};
use std::alloc::{AllocError, Global};
use std::sync::Arc;
use std::sync::atomic::AtomicUsize;
use std::sync::atomic::Ordering::SeqCst;

/// The value is 0.
pub struct Zero;

impl Clean<u32> for Zero {
    ghost meets = { λ value. value ≡ 0 };
}

/// Makes zeros, and counts its calls.
#[derive(Drop)]
pub struct CountedZeros {
    pub calls: Arc<AtomicUsize>,
}

impl Init<u32, Zero> for CountedZeros {
    ghost answers = { λ _ answer. answer ≡ Some 0 };

    fn make(&self) -> Option<u32> {
        self.calls.fetch_add(1, SeqCst);
        Some(0)
    }
}

impl Init<u32, AnyValue> for CountedZeros {
    ghost answers = { λ _ answer. answer ≡ Some 0 };

    fn make(&self) -> Option<u32> {
        self.calls.fetch_add(1, SeqCst);
        Some(0)
    }
}

#[derive(Drop)]
pub struct ToZero;

impl Reset<u32, Zero> for ToZero {
    ghost leaves = { λ _ _ new. new ≡ 0 };

    fn reset(&self, value: &mut u32) {
        *value = 0;
    }
}

/// Creates a count of calls that begins at 0.
///
/// # Errors
///
/// If memory is refused.
pub fn new_calls(alloc: Global) -> Result<Arc<AtomicUsize>, AllocError> {
    Ok(Arc::new(alloc, AtomicUsize::new(0))?)
}
