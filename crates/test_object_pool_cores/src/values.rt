//! The values of cores and worlds: they are counted, and so is what resets them.
ghost use Rattle.std.specs.Prelude.{⊤};

use crate::assert_equal::assert_equal;
use pool_parts::clean::AnyValue;
use pool_parts::closures::Reset;
use rows::said::Said;
use std::alloc::AllocError;
use std::process::Abort;
use std::sync::Arc;
use test_values::tallied::Tallied;
use test_values::tally::{Tally, new_tally};

/// Creates a tally of which its values are owners. There has to be memory for it.
pub fn made_tally(rt: &(impl Abort + AllocGlobal)) -> Arc<Tally> {
    new_tally(rt.alloc()).expect(rt, "memory is left")
}

/// Makes a value with this number, by one more call. `None` if it can have no tally.
pub fn numbered(tally: &Arc<Tally>, number: usize) -> Option<Tallied> {
    let mut value = Tallied::new(tally)?;
    value.number = number;
    Some(value)
}

/// What a reset leaves of a value's number.
#[derive(Clone, Copy)]
pub enum Leaves {
    TheSame,
    Zero,
    OneMore,
}

/// Resets values, and counts how often.
#[derive(Drop)]
pub struct Resets {
    tally: Arc<Tally>,
    leaves: Leaves,
}

impl Resets {
    /// Creates a reset that counts on this tally.
    ///
    /// # Errors
    ///
    /// If the tally can have no more owners.
    pub fn new(tally: &Arc<Tally>, leaves: Leaves) -> Result<Resets, AllocError> {
        let tally = Arc::try_clone(tally)?;
        Ok(Resets { tally, leaves })
    }
}

impl Reset<Tallied, AnyValue> for Resets {
    ghost leaves = { λ _ _ _. ⊤ };

    fn reset(&self, value: &mut Tallied) {
        self.tally.count_reset();
        value.number = match self.leaves {
            Leaves::TheSame => value.number,
            Leaves::Zero => 0,
            Leaves::OneMore => value.number.wrapping_add(1),
        };
    }
}

/// The commands of a row, and the answers, which stand behind `=>`.
pub fn parted(row: &'static str) -> (&'static str, &'static str) {
    row.split_once("=>").unwrap_or((row, ""))
}

/// Says how many calls there were for a value, and how many values were reset and dropped.
pub fn counts(tally: &Tally) -> Said {
    Said::of("calls reset dropped")
        .and(tally.calls())
        .and(tally.resets())
        .and(tally.drops())
}

/// Says a number, or that there is none.
pub fn number_or_none(words: &'static str, number: Option<usize>) -> Said {
    match number {
        Some(number) => Said::of(words).and(number),
        None => Said::of("none"),
    }
}

/// Ends what has the values of a tally: each of them is dropped by that, and none is reset.
pub fn ends<X: Drop>(rt: &impl Abort, holder: X, tally: &Arc<Tally>) {
    let resets = tally.resets();
    drop(holder);
    let left = (tally.living(), tally.resets(), Arc::strong_count(tally));
    assert_equal(rt, left, (0, resets, 1));
}
