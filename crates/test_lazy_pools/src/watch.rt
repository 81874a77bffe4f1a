//! The clock of timed pulls, which says what time it is by the number of its looks.
//!
//! A timed pull of a full pool looks at it once before it counts as waiting, and then between each
//! try and its sleep. What is to happen at one of these looks happens there, in the same thread; what
//! is to happen at look 0, in the closure of the next call.
use crate::items::{Item, Pool, borrowed};
use std::cell::Cell;
use std::io::{self, ErrorKind};
use std::sync::Wait;
use std::time::{Clock, Duration};

/// The limit of each timed pull, in seconds.
pub const LIMIT: u64 = 10;

/// How many milliseconds the clock shows at its first look.
const START: u64 = 1;

/// How many seconds no call takes that doesn't sleep.
const MOST_SECONDS: u64 = 3;

/// What happens at a look.
#[derive(Drop)]
pub enum Event<'p> {
    Nothing,
    Close,
    /// An item is returned.
    Return(Item<'p>),
    Discard(Item<'p>),
    /// An item is reset and returned, as a worker does it, and one is pulled.
    Swap(Item<'p>),
    /// The pool is filled with so many items.
    Fill(usize),
}

impl<'p> Event<'p> {
    /// Lets it happen. Returns what was pulled.
    pub fn happen(self, pool: &'p Pool) -> Option<Item<'p>> {
        match self {
            Event::Nothing => {}
            Event::Close => pool.close(),
            Event::Return(item) => drop(item),
            Event::Discard(item) => item.discard(),
            Event::Swap(item) => {
                item.reset_first();
                return borrowed(pool.pull()).ok();
            }
            Event::Fill(items) => drop(pool.fill(items)),
        }
        None
    }
}

/// Such a clock.
#[derive(Drop)]
pub struct Watch<'p, R: Wait + Clock> {
    rt: &'p R,
    pool: &'p Pool,
    /// The look at which something happens, counted from 1.
    at: Cell<u64>,
    /// How many milliseconds pass between two looks, until far more do.
    step: Cell<u64>,
    /// The look that fails.
    fails: Cell<u64>,
    event: Cell<Event<'p>>,
    /// What was pulled at the look.
    swapped: Cell<Option<Item<'p>>>,
    looks: Cell<u64>,
    /// How many were seen to wait at the look.
    waiting: Cell<usize>,
    /// When the pull began.
    start: Cell<Option<Duration>>,
}

impl<'p, R: Wait + Clock> Watch<'p, R> {
    /// Creates a clock by which the limit is over at the second look.
    pub fn new(rt: &'p R, pool: &'p Pool) -> Watch<'p, R> {
        Watch {
            rt,
            pool,
            at: Cell::new(0),
            step: Cell::new(LIMIT * 1_000),
            fails: Cell::new(0),
            event: Cell::new(Event::Nothing),
            swapped: Cell::new(None),
            looks: Cell::new(0),
            waiting: Cell::new(0),
            start: Cell::new(None),
        }
    }

    /// Says how many milliseconds pass between two looks, and which look fails, if one does.
    pub fn set(&self, step: usize, fails: usize) {
        self.step.set(step as u64);
        self.fails.set(fails as u64);
    }

    /// Says what happens at a look.
    pub fn expect(&self, event: Event<'p>, at: usize) {
        self.at.set(at as u64);
        self.event.set(event);
    }

    /// A pull ends. After one that looked at it, this is again a clock by which the limit is over at
    /// the second look.
    pub fn end(&self) {
        if self.looks.get() > 0 {
            self.set(LIMIT as usize * 1_000, 0);
        }
    }

    /// A pull begins.
    pub fn begin(&self) {
        self.looks.set(0);
        self.waiting.set(0);
        self.start.set(self.rt.monotonic().ok());
    }

    /// Returns whether the pull took as long as one that sleeps.
    pub fn has_slept(&self) -> bool {
        match (self.start.get(), self.rt.monotonic()) {
            (Some(start), Ok(end)) => {
                end.saturating_sub(start) >= Duration::from_secs(MOST_SECONDS)
            }
            _ => true,
        }
    }

    /// Returns how many looks the pull took.
    pub fn looks(&self) -> usize {
        self.looks.get() as usize
    }

    /// Returns how many were seen to wait.
    pub fn waiting(&self) -> usize {
        self.waiting.get()
    }

    /// Returns what was pulled at the look.
    pub fn swapped(&self) -> Option<Item<'p>> {
        self.swapped.take()
    }

    /// Takes what was to happen. If that is at no look, it happens in the closure of the call.
    pub fn take_event(&self) -> Event<'p> {
        self.event.replace(Event::Nothing)
    }

    /// Returns whether nothing happens at a look.
    pub fn is_at_no_look(&self) -> bool {
        self.at.get() == 0
    }

    fn happen(&self) {
        self.waiting.set(self.pool.waiting());
        let swapped = self.take_event().happen(self.pool);
        self.swapped.set(swapped);
    }
}

impl<'p, R: Wait + Clock> Wait for Watch<'p, R> {}

impl<'p, R: Wait + Clock> Clock for Watch<'p, R> {
    fn monotonic(&self) -> io::Result<Duration> {
        let passed = if self.looks.get() < 4 {
            self.looks.get().wrapping_mul(self.step.get())
        } else {
            1_000_000_000
        };
        let look = self.looks.get().wrapping_add(1);
        self.looks.set(look);
        if look == self.at.get() {
            self.happen();
        }
        if look == self.fails.get() {
            return Err(io::Error::from(ErrorKind::InvalidData));
        }
        Ok(Duration::from_millis(passed.wrapping_add(START)))
    }

    fn since_1970(&self) -> io::Result<Duration> {
        self.rt.since_1970()
    }
}
