//! Calls, what is answered to them, and how two answers differ.
use crate::tally::Counts;
use lockfree_object_pool::PullError;
use std::alloc::{AllocError, AllocFailed};
use thiserror::Error;

/// A call that is done on both sides.
#[derive(Clone, Copy, Debug, PartialEq, Eq)]
pub enum Call {
    Open,
    Pull,
    PullOwned,
    Attach,
    AttachOwned,
    Look,
    Write,
    Drop,
    Forget,
    End,
}

impl Call {
    /// Returns whether the call attaches a value.
    pub fn attaches(self) -> bool {
        matches!(self, Call::Attach | Call::AttachOwned)
    }

    /// Returns whether the item that comes is to own its pool.
    pub fn owns(self) -> bool {
        matches!(self, Call::PullOwned | Call::AttachOwned)
    }
}

/// What a call gave.
#[derive(Clone, Copy, Debug, PartialEq, Eq)]
pub enum Answer {
    /// The pool is there.
    Opened,
    /// An item came: its number, where it has one, and what it shows.
    Came { number: Option<u128>, shown: u64 },
    /// There is none, for this cause.
    Refused(PullError),
    /// A held item shows this.
    Shown(u64),
    /// The item isn't one of those that are out.
    NotOut,
}

impl Answer {
    /// Returns the page of the item that came, or 0 where there is none, or no number.
    pub fn page(self) -> usize {
        let Answer::Came { number, .. } = self else {
            return 0;
        };
        usize::try_from(number.unwrap_or(0) / 32).unwrap_or(0)
    }
}

/// Why a session stopped.
#[derive(Clone, Copy, Debug, Error)]
pub enum Stopped {
    #[error("out of memory")]
    Memory,
    #[error("{0:?} answers {1:?} where the core answers {2:?}")]
    OtherAnswer(Call, Answer, Answer),
    #[error("{0:?} leaves {1:?} where the core leaves {2:?}")]
    OtherCounts(Call, Counts, Counts),
}

impl From<AllocError> for Stopped {
    fn from(_error: AllocError) -> Stopped {
        Stopped::Memory
    }
}

impl<X: Drop> From<AllocFailed<X>> for Stopped {
    fn from(_error: AllocFailed<X>) -> Stopped {
        Stopped::Memory
    }
}

/// Stops where the running pool's answer isn't the core's.
///
/// # Errors
///
/// `Stopped` if the two answers differ.
pub fn compare(call: Call, running: Answer, core: Answer) -> Result<(), Stopped> {
    if running == core {
        Ok(())
    } else {
        Err(Stopped::OtherAnswer(call, running, core))
    }
}
