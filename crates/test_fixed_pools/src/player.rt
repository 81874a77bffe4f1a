//! One who calls a fixed pool by commands: each public call of the pool and of its items.
//!
//! A command's numbers are a held item's index (among those that are held, oldest first), a page,
//! or a value to be written. The answer to a pull is `pulled`, the item's number and its value.
ghost use Rattle.std.specs.Prelude.{◌≡◌, ◌≢◌, IfOk};
ghost use Rattle.fixed_pools.specs.FixedPool.{fixed_view};

use fixed_pools::fixed_object_pool::{Near, PoolNote};
use fixed_pools::page::PullPass;
use fixed_pools::{FixedObjectPool, FixedOwnedReusable, FixedReusable, PullError};
use pool_parts::reusable::Reusable;
use rows::row::{Command, Player};
use rows::said::Said;
use rows::setting::{Makes, Resets, Setting, refused, said_of_two};
use std::alloc::{AllocError, Global};
use std::sync::Arc;
use std::{mem, thread};
use test_values::tallied::Tallied;

pub type Pool = FixedObjectPool<Tallied, Makes, Resets>;

type Borrowed<'p> = FixedReusable<'p, Tallied, Makes, Resets>;

pub type Owned = FixedOwnedReusable<Tallied, Makes, Resets>;

/// An item, however it was pulled.
#[derive(Drop)]
enum Item<'p> {
    Borrowed(Borrowed<'p>),
    Owned(Owned),
}

impl Item<'_> {
    fn number(&self) -> usize {
        match self {
            Item::Borrowed(item) => item.number(),
            Item::Owned(item) => item.number(),
        }
    }

    fn value(&self) -> usize {
        match self {
            Item::Borrowed(item) => item.number,
            Item::Owned(item) => item.number,
        }
    }

    fn write(&mut self, value: usize) {
        match self {
            Item::Borrowed(item) => item.number = value,
            Item::Owned(item) => item.number = value,
        }
    }

    /// Its page, its number in the page, and its value.
    fn seen(&self) -> Said {
        let (page, id) = match self {
            Item::Borrowed(item) => (item.page_number(), item.page_id()),
            Item::Owned(item) => (item.page_number(), item.page_id()),
        };
        Said::of("lies")
            .and(page)
            .and(id as usize)
            .and(self.value())
    }

    /// Returns it by a call, not by its drop.
    fn give_back(self) {
        match self {
            Item::Borrowed(item) => drop(item.give_back()),
            Item::Owned(item) => drop(item.give_back()),
        }
    }
}

fn borrowed<'p>(pulled: Result<Borrowed<'p>, PullError>) -> Result<Item<'p>, PullError> {
    Ok(Item::Borrowed(pulled?))
}

fn owned<'p>(pulled: Result<Owned, PullError>) -> Result<Item<'p>, PullError> {
    Ok(Item::Owned(pulled?))
}

/// Pulls by one pass.
fn tried(pool: &Pool) -> Result<Borrowed<'_>, PullError> {
    let pass = PullPass::new();
    let Ok(item) = pool.try_pull(&pass) else {
        return Err(PullError::Limit);
    };
    Ok(item)
}

/// Pulls by one pass, by a note of an item's pool that was told what the item's holder knows.
fn tried_after<'p>(held: &mut Borrowed<'p>) -> Result<Borrowed<'p>, PullError> {
    let pool = *held.owner();
    let mut note = pool.note();
    let _ = held.number();
    pool.tell(&mut note, held.witness());
    tried_by(pool, note)
}

/// Returns an item, and pulls by one pass, by the note of the return.
fn tried_again<'p>(held: Borrowed<'p>) -> Result<Borrowed<'p>, PullError> {
    let pool = *held.owner();
    let _ = held.number();
    let note = held.give_back();
    tried_by(pool, note)
}

fn tried_by<'p>(pool: &'p Pool, note: PoolNote<Tallied>) -> Result<Borrowed<'p>, PullError>
    requires { note.seat.table_id ≡ (fixed_view pool.now).identity }
{
    let pass = PullPass::new();
    let Ok(item) = pool.try_pull_from(&pass, note) else {
        return Err(PullError::Limit);
    };
    Ok(item)
}

/// Pulls by one more owner.
fn by_owner(pool: &Arc<Pool>, page: usize) -> Result<Owned, PullError> {
    let owner = Arc::try_clone(pool)?;
    let note = owner.note();
    let Ok(item) = owner.pull_by_owner(page, note) else {
        return Err(PullError::Limit);
    };
    Ok(item)
}

/// Pulls by one more owner, and an item comes back. If the pull was refused, its owner pulls then
/// by the note of the refusal.
fn by_owner_after(pool: &Arc<Pool>, held: Item<'_>, page: usize) -> Result<Owned, PullError> {
    let owner = Arc::try_clone(pool)?;
    let note = owner.note();
    let pulled = owner.pull_by_owner(page, note);
    drop(held);
    let (owner, note) = match pulled {
        Ok(item) => return Ok(item),
        Err(kept) => kept,
    };
    let Ok(item) = owner.pull_by_owner(page, note) else {
        return Err(PullError::Limit);
    };
    Ok(item)
}

/// Returns an owned item, and pulls again by its owner and the note of the return.
fn by_owner_again(held: Owned, page: usize) -> Result<Owned, PullError> {
    let _ = held.number();
    let (owner, note) = held.give_back_with_owner();
    let Ok(item) = owner.pull_by_owner(page, note) else {
        return Err(PullError::Limit);
    };
    Ok(item)
}

/// Pulls an item without a borrow of the pool, as the calls for C do, and returns it with this number.
/// The item's number, and what its value was.
fn apart(pool: &Pool, page: usize, number: usize) -> Result<(usize, usize), PullError> {
    let Ok(mut item) = pool.pull_item(page) else {
        return Err(PullError::Limit);
    };
    let seen = (item.holding.number, item.value.number);
    item.value.number = number;
    pool.give(item.holding, item.value);
    Ok(seen)
}

/// Pulls an item near a page and returns it with this number, which is reset first and then returned
/// as it is. The item's number, and what its value was.
fn reset_first(pool: &Pool, page: usize, number: usize) -> Result<(usize, usize), PullError> {
    let mut item = pool.pull_near(page)?;
    let seen = (item.number(), item.number);
    item.number = number;
    if let Ok(left) = item.try_reset() {
        left.give_kept();
    }
    Ok(seen)
}

/// The numbers of two items that are pulled near a page, after which both go back.
fn two_near(pool: &Pool, page: usize) -> Result<(usize, usize), PullError>
    ensures differ { IfOk result (λ numbers. numbers.0 ≢ numbers.1) }
{
    let mut one = pool.pull_near(page)?;
    let mut other = pool.pull_near(page)?;
    one.differs_from(&mut other);
    let numbers = (one.number(), other.number());
    drop(one);
    Ok(numbers)
}

/// The numbers of a borrowed and an owned item, of which the first comes back first.
fn pair(pool: &Arc<Pool>) -> Result<(usize, usize), PullError>
    ensures differ { IfOk result (λ numbers. numbers.0 ≢ numbers.1) }
{
    let mut one = pool.pull()?;
    let mut other = pool.pull_owned()?;
    let numbers = (one.number(), other.number());
    one.differs_from(&mut other);
    drop(one);
    Ok(numbers)
}

/// Whether a pull was refused. What it gave comes back at once.
fn is_refused<X: Drop>(pulled: Result<X, PullError>) -> bool {
    pulled.is_err()
}

/// A pool, and what is held of it.
#[derive(Drop)]
pub struct FixedPlayer<'p> {
    pool: &'p Arc<Pool>,
    setting: &'p Arc<Setting>,
    near: Near<'p, Tallied, Makes, Resets>,
    held: Vec<Item<'p>>,
    /// How many items were forgotten, which stay out for good.
    pub forgotten: usize,
    /// What this player alone writes by `often`.
    pub mark: usize,
}

impl<'p> FixedPlayer<'p> {
    /// Creates one that holds nothing and has room for so many items.
    pub fn new(
        alloc: Global,
        pool: &'p Arc<Pool>,
        setting: &'p Arc<Setting>,
        room: usize,
    ) -> Result<FixedPlayer<'p>, AllocError> {
        Ok(FixedPlayer {
            pool,
            setting,
            near: pool.near(),
            held: Vec::with_capacity(alloc, room)?,
            forgotten: 0,
            mark: 0,
        })
    }

    /// Holds what was pulled.
    fn hold(&mut self, pulled: Result<Item<'p>, PullError>) -> Said {
        match pulled {
            Ok(item) => {
                let said = Said::of("pulled").and(item.number()).and(item.value());
                match self.held.push(item) {
                    Ok(()) => said,
                    Err(_) => Said::of("no room"),
                }
            }
            Err(cause) => refused(cause),
        }
    }

    /// Does a command for which an item is held.
    fn use_held(&mut self, command: Command) -> Said {
        let [index, number, _] = command.numbers;
        let Some(item) = self.held.get_mut(index) else {
            return Said::of("not held");
        };
        match command.word {
            "look" => item.seen(),
            "write" => {
                item.write(number);
                Said::of("written")
            }
            "after" => match item {
                Item::Borrowed(item) => {
                    let pulled = tried_after(item);
                    self.hold(borrowed(pulled))
                }
                Item::Owned(_) => Said::of("not borrowed"),
            },
            _ => Said::of("no such command"),
        }
    }

    /// Does a command by which a held item leaves.
    fn leave(&mut self, command: Command) -> Said {
        let [index, page, _] = command.numbers;
        if self.held.len() <= index {
            return Said::of("not held");
        }
        let item = self.held.remove(index);
        match (command.word, item) {
            ("again", Item::Borrowed(item)) => self.hold(borrowed(tried_again(item))),
            ("again", Item::Owned(item)) => self.hold(owned(by_owner_again(item, page))),
            ("owner_after", item) => self.hold(owned(by_owner_after(self.pool, item, page))),
            ("give", item) => {
                item.give_back();
                Said::of("returned")
            }
            ("forget", Item::Borrowed(item)) => {
                mem::forget(item);
                self.forgotten = self.forgotten.wrapping_add(1);
                Said::of("forgotten")
            }
            (_, item) => {
                drop(item);
                Said::of("returned")
            }
        }
    }

    /// Pulls, writes the mark and returns, so often. Says how often another wrote to the item.
    fn often(&self, rounds: usize) -> Said {
        let mut wrong = 0usize;
        for _ in 0..rounds {
            let Ok(mut item) = self.pool.pull() else {
                continue;
            };
            item.number = self.mark;
            thread::yield_now();
            if item.number != self.mark {
                wrong = wrong.wrapping_add(1);
            }
        }
        Said::of("wrong").and(wrong)
    }

    /// Pulls and returns so often in each way. Says how often that was refused.
    fn each_way(&self, rounds: usize) -> Said {
        let mut refusals = 0usize;
        for round in 0..rounds {
            let is_refused = is_refused(self.pool.pull())
                || is_refused(self.near.pull())
                || is_refused(self.pool.pull_near(round))
                || is_refused(self.pool.pull_owned())
                || is_refused(by_owner(self.pool, round));
            if is_refused {
                refusals = refusals.wrapping_add(1);
            }
        }
        Said::of("refused").and(refusals)
    }

    /// The owned items that are held. The borrowed ones come back.
    pub fn into_owned(self, alloc: Global) -> Result<Vec<Owned>, AllocError> {
        let mut owned = Vec::with_capacity(alloc, self.held.len())?;
        for item in self.held {
            if let Item::Owned(item) = item {
                owned.push(item)?;
            }
        }
        Ok(owned)
    }
}

impl<'p> Player for FixedPlayer<'p> {
    fn play(&mut self, command: Command) -> Said {
        let [first, second, _] = command.numbers;
        let pool = self.pool;
        match command.word {
            "pull" => self.hold(borrowed(pool.pull())),
            "near" => self.hold(borrowed(pool.pull_near(first))),
            "here" => {
                let pulled = self.near.pull();
                self.hold(borrowed(pulled))
            }
            "try" => self.hold(borrowed(tried(pool))),
            "owned" => self.hold(owned(pool.pull_owned())),
            "owner" => self.hold(owned(by_owner(pool, first))),
            "place" => {
                self.near = pool.near();
                Said::of("at page").and(self.near.page_number())
            }
            "apart" => said_of_two("apart", apart(pool, first, second)),
            "reset_first" => said_of_two("apart", reset_first(pool, first, second)),
            "two_near" => said_of_two("two", two_near(pool, first)),
            "pair" => said_of_two("two", pair(pool)),
            "items" => Said::of("items").and(pool.items()),
            "often" => self.often(first),
            "each_way" => self.each_way(first),
            "owners" => self.setting.owners(Arc::strong_count(pool)),
            "look" | "write" | "after" => self.use_held(command),
            "return" | "give" | "again" | "owner_after" | "forget" => self.leave(command),
            _ => self.setting.play(command),
        }
    }
}
