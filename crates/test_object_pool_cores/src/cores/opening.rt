//! Cores of counted values, and how they are opened.
use crate::values::{Leaves, Resets, number_or_none};
use object_pool_cores::sequential::{LinearCore, NoneCore, StackCore};
use pool_parts::PullError;
use pool_parts::clean::AnyValue;
use rows::said::Said;
use std::alloc::Global;
use std::sync::Arc;
use test_values::counted::NEVER;
use test_values::tallied::{Tallied, TalliedValues};
use test_values::tally::Tally;

/// The limit of a linear core, which call of `init` is refused, counted from 0, and what a reset
/// leaves.
#[derive(Clone, Copy)]
pub struct Opening {
    pub limit: Option<usize>,
    pub refused: usize,
    pub leaves: Leaves,
}

/// No limit, no refusal, and a reset that leaves what it finds.
pub const PLAIN: Opening = Opening {
    limit: None,
    refused: NEVER,
    leaves: Leaves::TheSame,
};

/// The same with a limit of so many pages.
pub fn limited(pages: usize) -> Opening {
    Opening {
        limit: Some(pages),
        ..PLAIN
    }
}

/// The same, where `init` refuses at this call.
pub fn refusing(call: usize) -> Opening {
    Opening {
        refused: call,
        ..PLAIN
    }
}

/// A core of counted values.
pub trait Opens {
    /// Opens one.
    ///
    /// # Errors
    ///
    /// `Init` if the refused call comes at once, or `Memory`.
    fn open(alloc: Global, tally: &Arc<Tally>, opening: Opening) -> Result<Self, PullError>;

    /// Says what it tells of itself.
    fn tell(&self, _word: &str) -> Said {
        Said::of("no such command")
    }
}

pub type Linear = LinearCore<Tallied, TalliedValues, Resets, AnyValue>;

impl Opens for Linear {
    fn open(alloc: Global, tally: &Arc<Tally>, opening: Opening) -> Result<Linear, PullError> {
        let init = TalliedValues::new_but(tally, opening.refused)?;
        let reset = Resets::new(tally, opening.leaves)?;
        match opening.limit {
            Some(pages) if pages > 0 => LinearCore::with_limit(alloc, init, reset, pages),
            _ => LinearCore::new(alloc, init, reset),
        }
    }

    fn tell(&self, word: &str) -> Said {
        match word {
            "pages" => Said::of("pages").and(self.pages()),
            "looked" => Said::of("looked").and(self.pages_looked() as usize),
            _ => number_or_none("at most", self.limit()),
        }
    }
}

pub type Stack = StackCore<Tallied, TalliedValues, Resets, AnyValue>;

impl Opens for Stack {
    fn open(alloc: Global, tally: &Arc<Tally>, opening: Opening) -> Result<Stack, PullError> {
        let init = TalliedValues::new_but(tally, opening.refused)?;
        Ok(StackCore::new(alloc, init, Resets::new(tally, opening.leaves)?))
    }
}

pub type Fresh = NoneCore<Tallied, TalliedValues>;

impl Opens for Fresh {
    fn open(_alloc: Global, tally: &Arc<Tally>, opening: Opening) -> Result<Fresh, PullError> {
        Ok(NoneCore::new(TalliedValues::new_but(tally, opening.refused)?))
    }
}
