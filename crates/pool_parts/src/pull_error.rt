//! Why a pull was refused.
ghost use Rattle.pool_parts.specs.declared.pull_error.PullError.TheVariants.{Memory};
ghost use Rattle.pool_parts.specs.Answers.{refusal_kind};
ghost use Rattle.std.specs.IoError.{error_kind};
ghost use Rattle.std.specs.Prelude.{◌≡◌};

use std::alloc::{AllocError, AllocFailed};
use std::io::{self, ErrorKind};
use thiserror::Error;

/// Why a pull, or the opening of a pool, was refused.
///
/// # Examples
///
/// ```rust
/// match connections.pull_timeout(rt, Duration::from_secs(1)) {
///     Ok(mut connection) => {
///         connection.sent.extend_from_slice(message)?;
///         Ok(true)
///     }
///     Err(PullError::Limit) => Ok(false), // a fallback goes here
///     Err(error) => Err(error),
/// }
/// ```
#[derive(Clone, Copy, Debug, PartialEq, Eq, Hash, Error)]
pub enum PullError {
    /// A request for memory was refused, or a counter is at its type's end.
    #[error("out of memory")]
    Memory = 1,
    /// The pool's `init` returned `None`. An `init` that takes memory returns it also if there is
    /// none, as `WithCapacity` does.
    #[error("init gave no item")]
    Init = 2,
    /// Each item that the pull could have taken was seen in use in this call.
    #[error("the pool is at its limit")]
    Limit = 3,
    /// The pool was closed. Only a lazy pool can be.
    #[error("the pool is closed")]
    Closed = 4,
}

impl From<AllocError> for PullError {
    ghost from_gives = { λ _ error. error ≡ Memory };

    fn from(_error: AllocError) -> PullError {
        PullError::Memory
    }
}

impl<X: Drop> From<AllocFailed<X>> for PullError {
    ghost from_gives = { λ _ error. error ≡ Memory };

    fn from(_error: AllocFailed<X>) -> PullError {
        PullError::Memory
    }
}

/// Lets `?` pass on a refusal where an `io::Error` is returned.
impl From<PullError> for io::Error {
    ghost from_gives = { λ refusal error. error_kind error ≡ refusal_kind refusal };

    fn from(refusal: PullError) -> io::Error {
        match refusal {
            PullError::Memory => io::Error::from(ErrorKind::OutOfMemory),
            PullError::Init => io::Error::other("init gave no item"),
            PullError::Limit => {
                io::Error::new(ErrorKind::ResourceBusy, "the pool is at its limit")
            }
            PullError::Closed => io::Error::new(ErrorKind::BrokenPipe, "the pool is closed"),
        }
    }
}
