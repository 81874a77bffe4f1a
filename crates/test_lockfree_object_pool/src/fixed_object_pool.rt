//! The fixed pool in use: what stands before what in its history, what a refusal shows, and which
//! refusals may come.
ghost use Rattle.std.specs.Prelude.{◌≡◌, ◌≤◌, ◌<◌, ℕ, ◌∷◌, IfSome, IfErr};
ghost use Rattle.std.specs.Arc.{arc_value};
ghost use Rattle.pool_parts.specs.Item.{same_page};
ghost use Rattle.pool_parts.specs.Page.{view_of};
ghost use Rattle.fixed_pools.specs.FixedPool.{fixed_view};
ghost use Rattle.lockfree_object_pool.specs.Ledger.{History, IsPrefixOf, WasOutBetween};
ghost use Rattle.pool_parts.specs.declared.page.history.Operation.TheVariants.{Return};
ghost use Rattle.pool_parts.specs.declared.pull_error.PullError.TheVariants.{Limit};
ghost use Rattle.test_lockfree_object_pool.specs.Returned.{EndsWithReturn};

use crate::assert_equal::assert_equal;
use crate::kinds::{Pulls, held};
use lockfree_object_pool::clean::AnyValue;
use lockfree_object_pool::closures::{Copied, Keep};
use lockfree_object_pool::fixed_object_pool::{BusySeen, PoolNote};
use lockfree_object_pool::page::PullPass;
use lockfree_object_pool::{FixedObjectPool, FixedReusable, PullError};
use std::alloc::Global;
use std::process::Abort;
use std::sync::Arc;
use std::thread::{self, Threads};

/// A pool of numbers that keeps what was written last, and its items.
type NumberPool = FixedObjectPool<usize, Copied<usize, AnyValue>, Keep>;

type NumberItem<'p> = FixedReusable<'p, usize, Copied<usize, AnyValue>, Keep>;

impl<'p> Pulls for &'p NumberPool {
    type Item = NumberItem<'p>;

    fn pull_one(&self) -> Result<Self::Item, PullError> {
        self.pull()
    }
}

/// Creates a pool of so many zeros. The test ends if memory is refused.
fn opened(rt: &impl Abort, alloc: Global, items: usize) -> NumberPool
    requires { 1 ≤ items }
    ensures { (fixed_view result).items ≡ items }
{
    FixedObjectPool::new(alloc, Copied::new(0), Keep, items).expect(rt, "a pool is made")
}

/// Pulls by a note. The pull comes after all that the note knew.
fn pulled_after<'p>(pool: &'p NumberPool, note: PoolNote<usize>) -> Option<NumberItem<'p>>
    requires { note.seat.table_id ≡ (fixed_view pool.now).identity }
    ensures pool { IfSome result (λ item. item.item.page ≡ (fixed_view pool.now).identity) }
    ensures after { IfSome result (λ item.
        IsPrefixOf (view_of note.seat).operations item.item.history) }
{
    let pass = PullPass::new();
    match pool.try_pull_from(&pass, note) {
        Ok(item) => Some(item),
        Err(_) => None,
    }
}

/// Writes a number to an item near a page and returns it: the return of that number is the last
/// operation that the note knows.
fn returned_near(pool: &NumberPool, page: usize, number: usize) -> Option<PoolNote<usize>>
    ensures pool { IfSome result (λ note. note.seat.table_id ≡ (fixed_view pool.now).identity) }
    ensures last { IfSome result (λ note. EndsWithReturn number (view_of note.seat).operations) }
{
    let mut item = pool.pull_near(page).ok()?;
    *item = number;
    Some(item.give_back())
}

/// What a refused pull shows of one item: it was out during the pull.
fn refused_while_out<'p>(
    pool: &NumberPool,
    pass: &'p PullPass,
    number: usize,
) -> Option<BusySeen<'p, usize>>
    requires { number < (fixed_view pool.now).items }
    ensures { IfSome result (λ busy.
        WasOutBetween (fixed_view pool.now).opening busy.known.at_load
        busy.known.operations number) }
{
    match pool.try_pull(pass) {
        Ok(_) => None,
        Err(busy) => Some(busy),
    }
}

/// Work that takes no memory: what it may meet is `Limit`.
fn work(pool: &NumberPool, rounds: usize) -> Result<usize, PullError>
    ensures { IfErr result (λ error. error ≡ Limit) }
{
    let mut last = 0;
    for round in 0..rounds {
        let mut item = pool.pull()?;
        *item = round;
        last = item.number();
    }
    Ok(last)
}

/// One thread returns 5 on page 0, another 6 on page 2, each with a note. A pull by the first note,
/// then told the second, stands after both returns.
fn handed_on<'p, R: Threads + Sync>(rt: &R, pool: &'p NumberPool) -> Option<NumberItem<'p>>
    ensures first { IfSome result (λ item. (user id : ℕ) × (before : History ℕ)
        × IsPrefixOf (Return user id 5 ∷ before) item.item.history) }
    ensures second { IfSome result (λ item. (user id : ℕ) × (before : History ℕ)
        × IsPrefixOf (Return user id 6 ∷ before) item.item.history) }
{
    let (first, second) = thread::join(
        rt,
        || -> Option<PoolNote<usize>>
            ensures pool { IfSome result (λ note. note.seat.table_id
                ≡ (fixed_view pool.entry.now).identity) }
            ensures last { IfSome result (λ note. EndsWithReturn 5 (view_of note.seat).operations) }
        { returned_near(pool, 0, 5) },
        || -> Option<PoolNote<usize>>
            ensures pool { IfSome result (λ note. note.seat.table_id
                ≡ (fixed_view pool.entry.now).identity) }
            ensures last { IfSome result (λ note. EndsWithReturn 6 (view_of note.seat).operations) }
        { returned_near(pool, 2, 6) },
    );
    pulled_after_both(pool, first?, second?)
}

/// Pulls after all that two notes knew.
fn pulled_after_both<'p>(
    pool: &'p NumberPool,
    first: PoolNote<usize>,
    second: PoolNote<usize>,
) -> Option<NumberItem<'p>>
    requires first { first.seat.table_id ≡ (fixed_view pool.now).identity }
    requires second { second.seat.table_id ≡ (fixed_view pool.now).identity }
    ensures after_first { IfSome result (λ item.
        IsPrefixOf (view_of first.seat).operations item.item.history) }
    ensures after_second { IfSome result (λ item.
        IsPrefixOf (view_of second.seat).operations item.item.history) }
{
    let mut both = first;
    pool.tell(&mut both, second.into_witness());
    let Some(item) = pulled_after(pool, both) else {
        return None;
    };
    Some(item)
}

#[test]
fn a_pull_stands_after_returns_of_two_threads(rt: HostRuntime) {
    let pool = opened(&rt, rt.alloc(), 70);
    let item = handed_on(&rt, &pool).expect(&rt, "an item is free");
    assert_equal(&rt, (item.number(), *item), (0, 5));
    drop(item);
    drop(held(rt.alloc(), &&pool, 70).expect(&rt, "each item is free"));
}

/// What the sender knows of its pool's history, after a return of its own.
#[derive(Drop)]
struct Message {
    pool: Arc<NumberPool>,
    note: PoolNote<usize>,
    ghost of_pool: { note.seat.table_id ≡ (fixed_view (arc_value pool)).identity } by { same_page _ _ },
}

/// Pulls after all that the sender of a message knew, returns the item, and tells so by a message
/// of its own.
fn answered(message: Message) -> Option<Message>
    ensures pool { IfSome result (λ answer. (fixed_view (arc_value answer.pool)).identity
        ≡ (fixed_view (arc_value message.pool)).identity) }
    ensures after { IfSome result (λ answer.
        IsPrefixOf (view_of message.note.seat).operations (view_of answer.note.seat).operations) }
{
    let Message { pool, note } = message;
    let Some(item) = pulled_after(&pool, note) else {
        return None;
    };
    let note = item.give_back();
    Some(Message { pool, note })
}

/// What another thread answers to a message.
fn answer_to<R: Abort + Threads>(rt: &R, message: Message) -> Message {
    let other = thread::spawn(rt, move || answered(message)).expect(rt, "a thread is made");
    other.join(rt).expect(rt, "an answer comes")
}

#[test]
fn a_pull_stands_after_what_messages_told(rt: HostRuntime) {
    let pool = opened(&rt, rt.alloc(), 70);
    let Some(note) = returned_near(&pool, 2, 5) else {
        panic!(rt; "an item is free")
    };
    let pool = Arc::new(rt.alloc(), pool).expect(&rt, "memory is left");
    let Message { pool, note } = answer_to(&rt, Message { pool, note });
    let item = pulled_after(&pool, note).expect(&rt, "an item is free");
    assert_equal(&rt, (item.number(), *item), (0, 0));
}

#[test]
fn a_refusal_shows_that_each_item_was_out(rt: HostRuntime) {
    let pool = opened(&rt, rt.alloc(), 33);
    let mut all = held(rt.alloc(), &&pool, 33).expect(&rt, "each item is free");
    let pass = PullPass::new();
    assert!(rt; refused_while_out(&pool, &pass, 32).is_some());
    drop(all.pop());
    assert!(rt; refused_while_out(&pool, &pass, 32).is_none());
}

#[test]
fn work_meets_no_refusal_but_the_limit(rt: HostRuntime) {
    let pool = opened(&rt, rt.alloc(), 33);
    assert_equal(&rt, work(&pool, 1_000), Ok(0));
    let _all = held(rt.alloc(), &&pool, 33).expect(&rt, "each item is free");
    assert_equal(&rt, work(&pool, 1_000), Err(PullError::Limit));
}
