//! One who calls a linear pool by commands: each public call of the pool and of its items.
//!
//! A command's first number is a held item's index (among those that are held, oldest first), the
//! second a value to be written. The answer to a pull is `pulled`, the item's number (32 times that
//! of its page, and that in the page) and its value.
use linear_pools::page::PullPass;
use linear_pools::{LinearObjectPool, LinearOwnedReusable, LinearReusable, PullError};
use pool_parts::reusable::Reusable;
use rows::row::{Command, Player};
use rows::said::Said;
use rows::setting::{Makes, Resets, Setting, refused, said_of_two};
use std::alloc::{AllocError, Global};
use std::sync::Arc;
use std::{mem, thread};
use test_values::tallied::Tallied;

pub type Pool = LinearObjectPool<Tallied, Makes, Resets>;

type Borrowed<'p> = LinearReusable<'p, Tallied, Makes, Resets>;

pub type Owned = LinearOwnedReusable<Tallied, Makes, Resets>;

/// An item, however it was pulled.
#[derive(Drop)]
enum Item<'p> {
    Borrowed(Borrowed<'p>),
    Owned(Owned),
}

/// The number of an item in its pool.
fn number_of(page: usize, id: u8) -> usize {
    page.wrapping_mul(32).wrapping_add(id as usize)
}

impl Item<'_> {
    fn number(&self) -> usize {
        match self {
            Item::Borrowed(item) => number_of(item.page_number(), item.page_id()),
            Item::Owned(item) => number_of(item.page_number(), item.page_id()),
        }
    }

    fn value(&self) -> usize {
        match self {
            Item::Borrowed(item) => item.number,
            Item::Owned(item) => item.number,
        }
    }

    fn write(&mut self, value: usize) {
        match self {
            Item::Borrowed(item) => item.number = value,
            Item::Owned(item) => item.number = value,
        }
    }

    /// Tells a note of its page what its holder knows.
    fn tell(&mut self) {
        match self {
            Item::Borrowed(item) => {
                let (mut note, known) = (item.note(), item.witness());
                item.tell(&mut note, known);
            }
            Item::Owned(item) => {
                let (mut note, known) = (item.note(), item.witness());
                item.tell(&mut note, known);
            }
        }
    }

    /// Returns it by a call, not by its drop.
    fn give_back(self) {
        match self {
            Item::Borrowed(item) => drop(item.give_back()),
            Item::Owned(item) => drop(item.give_back()),
        }
    }
}

fn borrowed<'p>(pulled: Result<Borrowed<'p>, PullError>) -> Result<Item<'p>, PullError> {
    Ok(Item::Borrowed(pulled?))
}

fn owned<'p>(pulled: Result<Owned, PullError>) -> Result<Item<'p>, PullError> {
    Ok(Item::Owned(pulled?))
}

/// Pulls by a call that shows what it found in place of an item.
fn tried(pool: &Pool) -> Result<Borrowed<'_>, PullError> {
    let pass = PullPass::new();
    match pool.try_pull(&pass) {
        Ok(item) => Ok(item),
        Err(refusal) => Err(refusal.cause()),
    }
}

/// Pulls an item and returns it. If it was of the first page, it pulls by the note of the return.
fn tried_again(pool: &Pool) -> Result<Borrowed<'_>, PullError> {
    let item = pool.pull()?;
    if item.page_number() > 0 {
        return Ok(item);
    }
    let note = item.give_back();
    let pass = PullPass::new();
    match pool.try_pull_from(&pass, note) {
        Ok(item) => Ok(item),
        Err(refusal) => Err(refusal.cause()),
    }
}

/// Pulls an item and returns it with this number, which is reset first and then returned as it is. The
/// item's number, and what its value was.
fn reset_first(pool: &Pool, written: usize) -> Result<(usize, usize), PullError> {
    let mut item = pool.pull()?;
    let seen = (number_of(item.page_number(), item.page_id()), item.number);
    item.number = written;
    if let Ok(left) = item.try_reset() {
        left.give_kept();
    }
    Ok(seen)
}

/// The numbers of two items, which come back in turn. Two of one page have two numbers there.
fn pair(pool: &Pool) -> Result<(usize, usize), PullError> {
    let mut one = pool.pull()?;
    let mut other = pool.pull()?;
    let numbers = (
        number_of(one.page_number(), one.page_id()),
        number_of(other.page_number(), other.page_id()),
    );
    if one.page_number() == other.page_number() {
        one.same_page(&mut other);
        one.differs_from(&mut other);
    }
    drop(one);
    Ok(numbers)
}

/// A pool, and what is held of it.
#[derive(Drop)]
pub struct LinearPlayer<'p> {
    pool: &'p Arc<Pool>,
    setting: &'p Arc<Setting>,
    held: Vec<Item<'p>>,
    /// How many items were forgotten, which stay out for good.
    pub forgotten: usize,
    /// What this player alone writes by `often`.
    pub mark: usize,
}

impl<'p> LinearPlayer<'p> {
    /// Creates one that holds nothing and has room for so many items.
    pub fn new(
        alloc: Global,
        pool: &'p Arc<Pool>,
        setting: &'p Arc<Setting>,
        room: usize,
    ) -> Result<LinearPlayer<'p>, AllocError> {
        Ok(LinearPlayer {
            pool,
            setting,
            held: Vec::with_capacity(alloc, room)?,
            forgotten: 0,
            mark: 0,
        })
    }

    /// Holds what was pulled.
    fn hold(&mut self, pulled: Result<Item<'p>, PullError>) -> Said {
        match pulled {
            Ok(item) => {
                let said = Said::of("pulled").and(item.number()).and(item.value());
                match self.held.push(item) {
                    Ok(()) => said,
                    Err(_) => Said::of("no room"),
                }
            }
            Err(cause) => refused(cause),
        }
    }

    /// Does a command for which an item is held.
    fn use_held(&mut self, command: Command) -> Said {
        let [index, number, _] = command.numbers;
        let Some(item) = self.held.get_mut(index) else {
            return Said::of("not held");
        };
        match command.word {
            "look" => Said::of("lies").and(item.number()).and(item.value()),
            "write" => {
                item.write(number);
                Said::of("written")
            }
            _ => {
                item.tell();
                Said::of("told")
            }
        }
    }

    /// Does a command by which a held item leaves.
    fn leave(&mut self, command: Command) -> Said {
        let [index, _, _] = command.numbers;
        if self.held.len() <= index {
            return Said::of("not held");
        }
        let item = self.held.remove(index);
        match (command.word, item) {
            ("give", item) => {
                item.give_back();
                Said::of("returned")
            }
            ("forget", Item::Borrowed(item)) => {
                mem::forget(item);
                self.forgotten = self.forgotten.wrapping_add(1);
                Said::of("forgotten")
            }
            (_, item) => {
                drop(item);
                Said::of("returned")
            }
        }
    }

    /// Pulls, writes the mark and returns, so often. Says how often the item didn't have the value of
    /// a reset, or another wrote to it.
    fn often(&self, rounds: usize) -> Said {
        let mut wrong = rounds;
        for round in 0..rounds {
            let Ok(mut item) = self.pool.pull() else {
                continue;
            };
            let was_reset = item.number == 0;
            item.number = self.mark;
            if round % 2 == 0 {
                thread::yield_now();
            }
            if was_reset && item.number == self.mark {
                wrong = wrong.wrapping_sub(1);
            }
        }
        Said::of("wrong").and(wrong)
    }

    fn limit(&self) -> Said {
        match self.pool.limit() {
            Some(pages) => Said::of("limit").and(pages),
            None => Said::of("no limit"),
        }
    }

    /// The owned items that are held. The borrowed ones come back.
    pub fn into_owned(self, alloc: Global) -> Result<Vec<Owned>, AllocError> {
        let mut owned = Vec::with_capacity(alloc, self.held.len())?;
        for item in self.held {
            if let Item::Owned(item) = item {
                owned.push(item)?;
            }
        }
        Ok(owned)
    }
}

impl<'p> Player for LinearPlayer<'p> {
    fn play(&mut self, command: Command) -> Said {
        let [written, _, _] = command.numbers;
        let pool = self.pool;
        match command.word {
            "pull" => self.hold(borrowed(pool.pull())),
            "try" => self.hold(borrowed(tried(pool))),
            "again" => self.hold(borrowed(tried_again(pool))),
            "owned" => self.hold(owned(pool.pull_owned())),
            "reset_first" => said_of_two("reset", reset_first(pool, written)),
            "pair" => said_of_two("two", pair(pool)),
            "often" => self.often(written),
            "limit" => self.limit(),
            "owners" => self.setting.owners(Arc::strong_count(pool)),
            "look" | "write" | "tell" => self.use_held(command),
            "return" | "give" | "forget" => self.leave(command),
            _ => self.setting.play(command),
        }
    }
}
