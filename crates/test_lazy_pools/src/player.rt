//! One who does with a lazy pool what commands say.
//!
//! Each way to pull is a word: `pull`, `near`, `try`, `owned`, `wait`, `owned_wait`, `timed`,
//! `owned_timed`, `long_timed` by the longest limit, and by a closure of the call `with` and so on.
//! Its answer is `pulled NUMBER SERIAL`: the item's number in the pool, and how many values were made
//! before its value. `return 0`, `give_back 0`, `reset_first 0`, `discard 0`, `detach 0` and
//! `forget 0` are what item 0 leaves its holder by.
//!
//! `clock STEP FAILS` sets the clock of the next timed pull that waits (see `watch`). What happens at
//! look 2 of it, with 1,000 milliseconds between two looks, say `then_return 0 1000 2` and its like;
//! look 0 is the closure of the next call. `refuse`, `allow`, `reject` and `accept` say what closures
//! do from then on.
use crate::items::{Item, Owned, Pool, borrowed, made, owned, tried};
use crate::watch::{Event, LIMIT, Watch};
use lazy_pools::PullError;
use lazy_pools::near::Near;
use pool_model::book::Book;
use pool_model::value::{Closures, Value};
use rows::row::{Command, Player};
use rows::said::Said;
use std::cell::Cell;
use std::sync::{Arc, Wait};
use std::time::{Clock, Duration};

/// What a pool is asked by, and what is held of it.
#[derive(Drop)]
pub struct LazyPlayer<'p, R: Wait + Clock> {
    pub rt: &'p R,
    pub pool: &'p Arc<Pool>,
    pub book: &'p Arc<Book>,
    pub near: Near<'p, Value, Closures, Closures>,
    pub watch: Watch<'p, R>,
    /// The items that are held, each at its number in the pool.
    pub items: Vec<Option<Item<'p>>>,
    /// How many were in use when a closure of a call was called last.
    pub seen: &'p Cell<usize>,
    /// How many items were forgotten.
    pub forgotten: usize,
}

/// What the closure of a call has, and drops.
#[derive(Drop)]
struct Making<'p> {
    book: Arc<Book>,
    pool: &'p Pool,
    seen: &'p Cell<usize>,
    event: Event<'p>,
}

impl<'p> Making<'p> {
    /// Makes a value. The place for it is in use meanwhile, and the pool isn't locked: if nothing
    /// is free, another pull is refused.
    fn make(self) -> Result<Value, PullError> {
        let Making {
            book,
            pool,
            seen,
            event,
        } = self;
        let used = pool.in_use();
        seen.set(used);
        if used == pool.items() && made(pool.pull_with(never)).err() != Some(PullError::Limit) {
            return Err(PullError::Memory);
        }
        drop(event.happen(pool));
        Value::new(&book).ok_or(PullError::Init)
    }
}

/// Makes no value.
fn never() -> Result<Value, PullError> {
    Err(PullError::Init)
}

impl<'p, R: Wait + Clock> LazyPlayer<'p, R> {
    /// Returns all that is held, but for one item that owns the pool, if one does.
    pub fn last_owned(&mut self) -> Option<Owned> {
        let mut last = None;
        for number in 0..self.items.len() {
            match self.taken(number) {
                Some(Item::Owned(item)) => last = Some(item),
                Some(Item::Borrowed(item)) => drop(item),
                None => {}
            }
        }
        last
    }

    /// Says what a pull came to, and holds its item.
    fn hold(&mut self, pulled: Result<Item<'p>, PullError>) -> Said {
        match pulled {
            Ok(item) => self.hold_item(item),
            Err(PullError::Memory) => Said::of("refused memory"),
            Err(PullError::Init) => Said::of("refused init"),
            Err(PullError::Limit) => Said::of("refused limit"),
            Err(PullError::Closed) => Said::of("refused closed"),
        }
    }

    fn hold_item(&mut self, item: Item<'p>) -> Said {
        let said = Said::of("pulled").and(item.number()).and(item.serial());
        match self.items.get_mut(item.number()) {
            Some(place) if place.is_none() => {
                *place = Some(item);
                said
            }
            _ => Said::of("pulled what is held"),
        }
    }

    /// The same of a pull that may have waited, unless it slept.
    fn hold_awake(&mut self, pulled: Result<Item<'p>, PullError>) -> Said {
        self.watch.end();
        if self.watch.has_slept() {
            return Said::of("slept");
        }
        if let Some(item) = self.watch.swapped() {
            self.hold_item(item);
        }
        self.hold(pulled)
    }

    fn pull(&mut self, word: &str) -> Said {
        let pool = self.pool;
        let pulled = match word {
            "pull" => borrowed(pool.pull()),
            "near" => borrowed(self.near.pull()),
            "try" => tried(pool),
            _ => owned(pool.pull_owned()),
        };
        self.hold(pulled)
    }

    fn wait(&mut self, word: &str) -> Said {
        let (pool, time) = (self.pool, Duration::from_secs(LIMIT));
        self.watch.begin();
        let pulled = match word {
            "wait" => borrowed(pool.pull_wait(self.rt)),
            "owned_wait" => owned(pool.pull_owned_wait(self.rt)),
            "timed" => borrowed(pool.pull_timeout(&self.watch, time)),
            "long_timed" => borrowed(pool.pull_timeout(&self.watch, Duration::MAX)),
            _ => owned(pool.pull_owned_timeout(&self.watch, time)),
        };
        self.hold_awake(pulled)
    }

    fn making(&self) -> Result<Making<'p>, PullError> {
        let event = if self.watch.is_at_no_look() {
            self.watch.take_event()
        } else {
            Event::Nothing
        };
        Ok(Making {
            book: Arc::try_clone(self.book)?,
            pool: self.pool,
            seen: self.seen,
            event,
        })
    }

    fn pull_with(&mut self, word: &str) -> Said {
        let pool = self.pool;
        let Ok(making) = self.making() else {
            return Said::of("no owner more");
        };
        let make = move || making.make();
        let pulled = match word {
            "with" => borrowed(made(pool.pull_with(make))),
            _ => owned(made(pool.pull_owned_with(make))),
        };
        self.hold(pulled)
    }

    fn wait_with(&mut self, word: &str) -> Said {
        let (pool, time) = (self.pool, Duration::from_secs(LIMIT));
        let Ok(making) = self.making() else {
            return Said::of("no owner more");
        };
        let make = move || making.make();
        self.watch.begin();
        let pulled = match word {
            "wait_with" => borrowed(made(pool.pull_wait_with(self.rt, make))),
            "owned_wait_with" => owned(made(pool.pull_owned_wait_with(self.rt, make))),
            "timed_with" => borrowed(made(pool.pull_timeout_with(&self.watch, time, make))),
            _ => owned(made(pool.pull_owned_timeout_with(&self.watch, time, make))),
        };
        self.hold_awake(pulled)
    }

    /// Takes the item of this number from what is held.
    fn taken(&mut self, number: usize) -> Option<Item<'p>> {
        self.items.get_mut(number)?.take()
    }

    fn leave(&mut self, word: &str, number: usize) -> Said {
        let Some(item) = self.taken(number) else {
            return Said::of("nothing is held");
        };
        match word {
            "return" => drop(item),
            "give_back" => item.give_back(),
            "reset_first" => item.reset_first(),
            "discard" => item.discard(),
            "detach" => item.detach(),
            _ => {
                item.forget();
                self.forgotten = self.forgotten.saturating_add(1);
            }
        }
        Said::of("left")
    }

    /// Says what happens at a look, or in the closure of the next call, and how many milliseconds
    /// pass between two looks.
    fn expect(&mut self, word: &str, number: usize, step: usize, at: usize) -> Said {
        let event = match word {
            "then_close" => Some(Event::Close),
            "then_fill" => Some(Event::Fill(number)),
            "then_return" => self.taken(number).map(Event::Return),
            "then_discard" => self.taken(number).map(Event::Discard),
            _ => self.taken(number).map(Event::Swap),
        };
        let Some(event) = event else {
            return Said::of("nothing is held");
        };
        self.watch.set(step, 0);
        self.watch.expect(event, at);
        Said::of("set")
    }

    /// Answers what can be asked.
    fn asked(&self, word: &str) -> Said {
        let (pool, counts) = (self.pool, self.book.counts());
        match word {
            "items" => Said::of("items").and(pool.items()),
            "stands" => Said::of("made")
                .and(pool.made())
                .and(pool.in_use())
                .and(pool.waiting()),
            "counts" => Said::of("counts")
                .and(counts.calls)
                .and(counts.resets)
                .and(counts.drops),
            "owners" => Said::of("owners").and(Arc::strong_count(pool)),
            "looks" => Said::of("looks")
                .and(self.watch.looks())
                .and(self.watch.waiting()),
            "is_closed" if pool.is_closed() => Said::of("yes"),
            "is_closed" => Said::of("no"),
            _ => Said::of("no such command"),
        }
    }

    fn filled(&self, items: usize) -> Said {
        match self.pool.fill(items) {
            Ok(()) => Said::of("filled"),
            Err(PullError::Init) => Said::of("refused init"),
            Err(PullError::Closed) => Said::of("refused closed"),
            Err(_) => Said::of("refused"),
        }
    }

    /// Does what is done to the whole pool.
    fn done(&mut self, word: &str) -> Said {
        match word {
            "clear" => self.pool.clear(),
            "close" => self.pool.close(),
            "refuse" => self.book.refuse(true),
            "allow" => self.book.refuse(false),
            "reject" => self.book.reject(true),
            _ => self.book.reject(false),
        }
        Said::of("done")
    }

    /// Says at which page the pulls near one begin from now on.
    fn moved(&mut self) -> Said {
        self.near = self.pool.near();
        Said::of("page").and(self.near.page_number())
    }
}

impl<'p, R: Wait + Clock> Player for LazyPlayer<'p, R> {
    fn play(&mut self, command: Command) -> Said {
        let Command {
            word,
            numbers: [first, second, third],
        } = command;
        match word {
            "pull" | "near" | "try" | "owned" => self.pull(word),
            "wait" | "owned_wait" | "timed" | "owned_timed" | "long_timed" => self.wait(word),
            "with" | "owned_with" => self.pull_with(word),
            "wait_with" | "owned_wait_with" | "timed_with" | "owned_timed_with" => {
                self.wait_with(word)
            }
            "return" | "give_back" | "reset_first" | "discard" | "detach" | "forget" => {
                self.leave(word, first)
            }
            "then_close" | "then_fill" | "then_return" | "then_discard" | "then_swap" => {
                self.expect(word, first, second, third)
            }
            "clear" | "close" | "refuse" | "allow" | "reject" | "accept" => self.done(word),
            "clock" => {
                self.watch.set(first, second);
                Said::of("set")
            }
            "fill" => self.filled(first),
            "near_page" => self.moved(),
            _ => self.asked(word),
        }
    }
}
