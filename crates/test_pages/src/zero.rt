//! What makes the zeros of pages and chains, and what makes none. Each is one function that serves
//! for all tests: a closure is proved by itself, and so is each of the three ways to call it.
ghost use Rattle.std.specs.Prelude.{◌≡◌, Some};

/// Returns a zero.
pub fn zero() -> Option<u32>
    ensures { result ≡ Some 0 }
{
    Some(0)
}

/// A refusal.
pub fn refused() -> Option<u32> {
    None
}
