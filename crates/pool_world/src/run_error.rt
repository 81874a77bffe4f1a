//! Why a run stopped before its end.
ghost use Rattle.pool_world.specs.declared.run_error.RunError.TheVariants.{Memory};
ghost use Rattle.std.specs.Prelude.{◌≡◌};

use std::alloc::{AllocError, AllocFailed};
use thiserror::Error;

/// Why a run stopped. What was done before stays done, and the step that failed wasn't done.
///
/// # Examples
///
/// ```rust
/// player.play(Command::Write(0, 5))?;
/// ```
#[derive(Clone, Copy, Debug, PartialEq, Eq, Hash, Error)]
pub enum RunError {
    /// A table of the run, or the list of its answers, couldn't grow.
    #[error("out of memory")]
    Memory,
}

impl From<AllocError> for RunError {
    ghost from_gives = { λ _ error. error ≡ Memory };

    fn from(_error: AllocError) -> RunError {
        RunError::Memory
    }
}

impl<X: Drop> From<AllocFailed<X>> for RunError {
    ghost from_gives = { λ _ error. error ≡ Memory };

    fn from(_error: AllocFailed<X>) -> RunError {
        RunError::Memory
    }
}
