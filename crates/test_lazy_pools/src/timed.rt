//! What is to come of a timed pull of a full pool, by the looks at its clock.
use crate::game::LazyGame;
use crate::hand::Held;
use crate::watch::LIMIT;
use lazy_pools::PullError;
use std::sync::Wait;
use std::time::Clock;

/// The limit of a timed pull, in milliseconds.
pub const TIME: usize = LIMIT as usize * 1_000;

/// The clock of a timed pull: how many milliseconds pass between two looks, which one fails, and at
/// which something happens.
#[derive(Clone, Copy, PartialEq, Eq)]
pub struct Looks {
    pub step: usize,
    pub fails: usize,
    pub at: usize,
}

/// A clock by which the time is over at the second look.
pub const NO_TIME_LEFT: Looks = Looks {
    step: TIME,
    fails: 0,
    at: 0,
};

/// What happens at a look of the clock.
#[derive(Clone, Copy, PartialEq, Eq)]
pub enum Event {
    Nothing,
    Close,
    Return(Held),
    Discard(Held),
    Swap(Held),
}

impl Event {
    /// Returns what leaves its holder then.
    pub fn held(self) -> Option<Held> {
        match self {
            Event::Nothing | Event::Close => None,
            Event::Return(held) | Event::Discard(held) | Event::Swap(held) => Some(held),
        }
    }

    /// Returns how many of these own the pool.
    pub fn owners(self) -> usize {
        self.held().map_or(0, |held| held.is_owned as usize)
    }
}

/// What is to come of a pull: why it is refused, how many looks it takes, how many are seen to wait,
/// and whether it sleeps until its time is over.
#[derive(Clone, Copy)]
pub struct Expected {
    pub refusal: Option<PullError>,
    pub looks: usize,
    pub waiting: usize,
    pub sleeps: bool,
}

impl Expected {
    /// What comes of a pull that doesn't wait.
    pub fn at_once(refusal: Option<PullError>) -> Expected {
        Expected {
            refusal,
            looks: 0,
            waiting: 0,
            sleeps: false,
        }
    }
}

impl<'p, R: Wait + Clock> LazyGame<'p, R> {
    /// What is to come of a timed pull of a full pool. It looks at its clock before it counts as
    /// waiting; again before each sleep; and before it makes an item, which may come too late.
    pub fn waits(&mut self) -> Expected {
        let mut expected = Expected::at_once(None);
        let mut is_told = false;
        self.look(&mut expected, &mut is_told);
        let is_readable = self.clock.fails != 1;
        for _ in 0..4 {
            expected.refusal = self.model.refusal();
            let finds_place = expected.refusal.is_none();
            if finds_place && self.model.is_whole() || self.model.is_closed() {
                return expected;
            }
            let has_time = is_readable && self.look(&mut expected, &mut is_told);
            if !has_time {
                expected.refusal = Some(PullError::Limit);
                return expected;
            }
            if finds_place {
                return expected;
            }
            expected.sleeps = !is_told;
            is_told = false;
        }
        expected
    }

    /// Looks at the clock. Returns whether it says that time is left.
    fn look(&mut self, expected: &mut Expected, is_told: &mut bool) -> bool {
        let Looks { step, fails, at } = self.clock;
        let passed = step.saturating_mul(expected.looks);
        expected.looks = expected.looks.saturating_add(1);
        if expected.looks == at {
            expected.waiting = at.saturating_sub(1).min(1);
            *is_told = self.event != Event::Nothing;
            self.happens();
        }
        expected.looks != fails && passed < TIME
    }

    /// Does what happens at the look.
    fn happens(&mut self) {
        let event = self.event;
        self.event = Event::Nothing;
        match event {
            Event::Nothing => {}
            Event::Close => self.model.close(),
            Event::Return(held) => self.leaves("return", held),
            Event::Discard(held) => self.leaves("discard", held),
            Event::Swap(held) => self.swaps(held),
        }
    }

    /// An item is returned, and pulled again, or made in its place.
    fn swaps(&mut self, held: Held) {
        self.leaves("return", held);
        let mut serial = held.serial;
        if !self.model.is_whole() {
            if self.player.book.refuses() {
                self.model.is_refused(true);
                return;
            }
            serial = self.model.counts.made;
        }
        self.model.take(held.number, serial, true);
        self.hold(held.number, serial, false);
    }
}
