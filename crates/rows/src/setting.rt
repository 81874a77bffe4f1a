//! What the function objects of a pool share with those who play on it: what they count, what they
//! do from here on, and where threads wait for each other.
ghost use Rattle.std.specs.Prelude.{⊤};

use crate::row::Command;
use crate::said::Said;
use crate::threads::wait_for;
use pool_parts::PullError;
use pool_parts::clean::AnyValue;
use pool_parts::closures::{Init, Reset};
use std::alloc::Global;
use std::sync::Arc;
use std::sync::atomic::AtomicUsize;
use std::sync::atomic::Ordering::SeqCst;
use test_values::counted::NEVER;
use test_values::tallied::Tallied;
use test_values::tally::{Tally, new_tally};

/// What function objects and players share.
#[derive(Drop)]
pub struct Setting {
    pub tally: Arc<Tally>,
    /// The call that `init` refuses, counted from 0.
    refused: AtomicUsize,
    /// The call that answers late: once it began, it waits for `go`.
    late: AtomicUsize,
    begun: AtomicUsize,
    gone: AtomicUsize,
    /// Whether a reset writes 0. Else it changes nothing.
    zeroes: AtomicUsize,
    /// How many have come to where threads meet.
    came: AtomicUsize,
}

impl Setting {
    /// Creates a setting in which `init` refuses this call.
    ///
    /// # Errors
    ///
    /// `Memory`.
    pub fn new(alloc: Global, refused: usize) -> Result<Arc<Setting>, PullError> {
        let setting = Setting {
            tally: new_tally(alloc)?,
            refused: AtomicUsize::new(refused),
            late: AtomicUsize::new(NEVER),
            begun: AtomicUsize::new(0),
            gone: AtomicUsize::new(0),
            zeroes: AtomicUsize::new(0),
            came: AtomicUsize::new(0),
        };
        Ok(Arc::new(alloc, setting)?)
    }

    /// Does a command for which no pool is needed.
    pub fn play(&self, command: Command) -> Said {
        let [number, _, _] = command.numbers;
        match command.word {
            "counts" => self.counts(),
            "refuse" => set(&self.refused, self.tally.calls().wrapping_add(number)),
            "late" => set(&self.late, number),
            "zero" => set(&self.zeroes, 1),
            "go" => set(&self.gone, 1),
            "begun" => said_of_wait(wait_for(&self.begun, 1)),
            "meet" => {
                self.come();
                said_of_wait(wait_for(&self.came, number))
            }
            "until" => said_of_wait(wait_for(&self.came, number)),
            _ => Said::of("no such command"),
        }
    }

    /// Counts one more who came to where threads meet.
    pub fn come(&self) {
        self.came.fetch_add(1, SeqCst);
    }

    /// How often `init` was called, and values were reset and dropped.
    fn counts(&self) -> Said {
        Said::of("calls resets drops")
            .and(self.tally.calls())
            .and(self.tally.resets())
            .and(self.tally.drops())
    }

    /// Says that so many own a pool, and how many own the tally: each value that there is, and one
    /// beside the pool.
    pub fn owners(&self, owners: usize) -> Said {
        Said::of("owners")
            .and(owners)
            .and(Arc::strong_count(&self.tally))
    }
}

fn set(place: &AtomicUsize, value: usize) -> Said {
    place.store(value, SeqCst);
    Said::of("set")
}

/// What is said of a refusal.
pub fn refused(cause: PullError) -> Said {
    Said::of(match cause {
        PullError::Limit => "refused limit",
        PullError::Init => "refused init",
        PullError::Memory => "refused memory",
        PullError::Closed => "closed",
    })
}

/// What is said of two numbers, or why there are none.
pub fn said_of_two(words: &'static str, numbers: Result<(usize, usize), PullError>) -> Said {
    match numbers {
        Ok((one, other)) => Said::of(words).and(one).and(other),
        Err(cause) => refused(cause),
    }
}

fn said_of_wait(is_over: bool) -> Said {
    Said::of(if is_over { "met" } else { "nobody came" })
}

/// Makes values of a setting's tally.
#[derive(Drop)]
pub struct Makes {
    setting: Arc<Setting>,
}

impl Init<Tallied, AnyValue> for Makes {
    ghost answers = { λ _ _. ⊤ };

    fn make(&self) -> Option<Tallied> {
        let setting = &self.setting;
        let value = Tallied::new_but(&setting.tally, setting.refused.load(SeqCst))?;
        if value.number == setting.late.load(SeqCst) {
            setting.begun.store(1, SeqCst);
            wait_for(&setting.gone, 1);
        }
        Some(value)
    }
}

/// Counts what it resets.
#[derive(Drop)]
pub struct Resets {
    setting: Arc<Setting>,
}

impl Reset<Tallied, AnyValue> for Resets {
    ghost leaves = { λ _ _ _. ⊤ };

    fn reset(&self, value: &mut Tallied) {
        self.setting.tally.count_reset();
        if self.setting.zeroes.load(SeqCst) > 0 {
            value.number = 0;
        }
    }
}

/// Creates function objects of a setting.
///
/// # Errors
///
/// `Memory` if it can have no more owners.
pub fn function_objects(setting: &Arc<Setting>) -> Result<(Makes, Resets), PullError> {
    let makes = Makes {
        setting: Arc::try_clone(setting)?,
    };
    let resets = Resets {
        setting: Arc::try_clone(setting)?,
    };
    Ok((makes, resets))
}
