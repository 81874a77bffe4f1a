//! What a test asserts by one call. A library may have no call that ends the process, so each crate
//! of tests has this one.
use std::fmt::Debug;
use std::process::Abort;

/// Ends the test where two values differ, and shows both. `assert_eq!` does so by steps of the test
/// itself, and in its proof each step states all that lives there.
pub(crate) fn assert_equal<T: PartialEq + Debug + Drop>(rt: &impl Abort, left: T, right: T) {
    assert_eq!(*rt; left, right);
}
