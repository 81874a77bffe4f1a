//! Values that count what is done with them, and what makes and resets them as a test switches it.
ghost use Rattle.std.specs.Prelude.{⊤};

use pool_parts::clean::AnyValue;
use pool_parts::closures::{Init, Reset};
use rows::said::Said;
use rows::threads::wait_for;
use std::sync::Arc;
use std::sync::atomic::Ordering::SeqCst;
use std::sync::atomic::{AtomicBool, AtomicUsize};
use test_values::counted::NEVER;
use test_values::tally::Tally;

/// What was done with values, and what is to be done with the next.
#[derive(Drop)]
pub struct Book {
    pub tally: Tally,
    /// How many serial numbers were given away.
    serials: AtomicUsize,
    /// The sum of the serial numbers of the values that were dropped.
    dropped: AtomicUsize,
    /// The call of `init`, counted from 0, that makes no value.
    refused: AtomicUsize,
    /// `reset` rejects what it gets.
    rejects: AtomicBool,
    /// `reset` leaves 0.
    clears: AtomicBool,
    /// The first call of this place waits until another thread has used the pool.
    place: Option<Called>,
    pub came: AtomicUsize,
    pub uses: AtomicUsize,
    /// How often that use came in time.
    pub in_time: AtomicUsize,
}

/// What is called by a pool.
#[derive(Clone, Copy, PartialEq, Eq)]
pub enum Called {
    Init,
    Reset,
    Drop,
}

impl Book {
    /// Creates a book in which nothing is done, and nothing is switched on.
    pub fn new(place: Option<Called>) -> Book {
        Book {
            tally: Tally::new(),
            serials: AtomicUsize::new(0),
            dropped: AtomicUsize::new(0),
            refused: AtomicUsize::new(NEVER),
            rejects: AtomicBool::new(false),
            clears: AtomicBool::new(false),
            place,
            came: AtomicUsize::new(0),
            uses: AtomicUsize::new(0),
            in_time: AtomicUsize::new(0),
        }
    }

    /// Returns how often `init` was called, how many values were dropped, made and reset, and the
    /// sum of the serial numbers of those that were dropped.
    pub fn counts(&self) -> ((usize, usize), usize, usize, usize) {
        let (tally, dropped) = (&self.tally, self.dropped.load(SeqCst));
        (tally.now(), tally.made(), tally.resets(), dropped)
    }

    /// Says how many values were made, reset and dropped, or how often `init` was called, or
    /// switches what is to be done.
    pub fn play(&self, word: &'static str, number: usize) -> Said {
        match word {
            "counts" => return Said::of("made reset dropped")
                .and(self.tally.made())
                .and(self.tally.resets())
                .and(self.tally.drops()),
            "calls" => return Said::of("calls").and(self.tally.calls()),
            "refuse" => self.refused.store(number, SeqCst),
            "reject" => self.rejects.store(number > 0, SeqCst),
            "zero" => self.clears.store(number > 0, SeqCst),
            _ => return Said::of("no such command"),
        }
        Said::of("done")
    }

    /// Where a call meets another thread, says 1 if the use came while the first call waited, 2 if
    /// it didn't, and 7 to later calls.
    fn met(&self, called: Called) -> Option<usize> {
        if self.place != Some(called) {
            return None;
        }
        if self.came.fetch_add(1, SeqCst) > 0 {
            return Some(7);
        }
        let is_in_time = wait_for(&self.uses, 1);
        self.in_time.fetch_add(usize::from(is_in_time), SeqCst);
        Some(if is_in_time { 1 } else { 2 })
    }
}

/// A value with a serial number, to which a number can be written.
pub struct Value {
    book: Arc<Book>,
    pub serial: usize,
    pub written: usize,
}

impl Value {
    /// Makes a value. It takes no memory.
    pub fn new(book: &Arc<Book>, written: usize) -> Option<Value> {
        let book = Arc::try_clone(book).ok()?;
        let serial = book.serials.fetch_add(1, SeqCst);
        book.tally.count_made();
        Some(Value {
            book,
            serial,
            written,
        })
    }

    /// Says what it is.
    pub fn says(&self, words: &'static str) -> Said {
        Said::of(words).and(self.serial).and(self.written)
    }
}

impl Drop for Value {
    fn drop(self) {
        let Value {
            book,
            serial,
            written: _,
        } = self;
        let _met = book.met(Called::Drop);
        book.tally.count_drop();
        book.dropped.fetch_add(serial, SeqCst);
    }
}

/// What makes the values of a book, and what resets them.
#[derive(Drop)]
pub struct Part {
    pub book: Arc<Book>,
}

impl Init<Value, AnyValue> for Part {
    ghost answers = { λ _ _. ⊤ };

    /// Makes a value with a 0, but at the call that is to be refused.
    fn make(&self) -> Option<Value> {
        let call = self.book.tally.next_call();
        if call == self.book.refused.load(SeqCst) {
            return None;
        }
        Value::new(&self.book, self.book.met(Called::Init).unwrap_or(0))
    }
}

impl Reset<Value, AnyValue> for Part {
    ghost leaves = { λ _ _ _. ⊤ };

    ghost rejects = { λ _ _. ⊤ };

    fn reset(&self, value: &mut Value) {
        self.book.tally.count_reset();
        if self.book.clears.load(SeqCst) {
            value.written = 0;
        }
        if let Some(met) = self.book.met(Called::Reset) {
            value.written = met;
        }
    }

    fn try_reset(&self, mut value: Value) -> Option<Value> {
        self.reset(&mut value);
        if self.book.rejects.load(SeqCst) {
            return None;
        }
        Some(value)
    }
}
