//! What may not be seen of a pool.
use lockfree_object_pool::PullError;
use std::alloc::{AllocError, AllocFailed};
use thiserror::Error;

#[derive(Debug, Drop, Error)]
pub enum Wrong {
    #[error("a pull was refused: {0}")]
    Refused(#[from] PullError),
    #[error("a pull was not refused as it should be while each item was out")]
    NotRefused,
    #[error("an item came twice, or with a value that it should not have: {0}")]
    Value(u64),
    #[error("{0} items were made")]
    Made(u64),
    #[error("an item is not the pool's own")]
    NotOwn,
    #[error("pull {0} has another number")]
    Number(u64),
    #[error("turn {0} has another reply")]
    Reply(u64),
}

impl From<AllocError> for Wrong {
    fn from(error: AllocError) -> Wrong {
        Wrong::Refused(PullError::from(error))
    }
}

impl<X: Drop> From<AllocFailed<X>> for Wrong {
    fn from(error: AllocFailed<X>) -> Wrong {
        Wrong::Refused(PullError::from(error))
    }
}
