//! The linear pool in use: what callers know of a pulled value, of its place, of a refusal, and of
//! the history of the first page.
ghost use Rattle.std.specs.Prelude.{◌≡◌, ◌⊎◌, ◌↔◌, ℕ, ◌∷◌, None, Some, IfOk, IfSome, IsTrue};
ghost use Rattle.linear_pools.specs.LinearPool.{linear_view};
ghost use Rattle.lockfree_object_pool.specs.Ledger.{History, WasReturned};
ghost use Rattle.lockfree_object_pool.specs.Walk.{IsLastFull};
ghost use Rattle.pool_parts.specs.Page.{view_of};
ghost use Rattle.pool_parts.specs.declared.page.history.Operation.TheVariants.{Pull};
ghost use Rattle.pool_parts.specs.declared.pull_error.PullError.TheVariants.{Memory};
ghost use Rattle.test_lockfree_object_pool.specs.Returned.{EndsWithReturnOf, WasReturnedBefore, WasUsedSince};

use crate::assert_equal::assert_equal;
use lockfree_object_pool::clean::AnyValue;
use lockfree_object_pool::closures::{Copied, Keep, Reset};
use lockfree_object_pool::linear_object_pool::AnswerOf;
use lockfree_object_pool::linear_page::{LimitSeen, WalkRefusal};
use lockfree_object_pool::made_or_reset::MadeOrReset;
use lockfree_object_pool::page::{PageNote, PullPass};
use lockfree_object_pool::{
    FixedReusable, LinearObjectPool, LinearOwnedReusable, LinearReusable, PullError,
};
use std::alloc::Global;
use std::mem::{self, size_of};
use std::process::Abort;
use std::sync::Arc;
use test_values::zeros::{CountedZeros, Zero, new_calls};

/// What makes zeros, and what resets to 0, and a pool by these.
type Zeros = Copied<u32, Zero>;

type ClearedPool = LinearObjectPool<u32, Zeros, Zeros, Zero>;

/// What is read is what was written last, and the item keeps its place.
fn read_back(mut item: LinearReusable<'_, u32, Zeros, Zeros, Zero>) -> (usize, u8, u32)
    ensures number { result.0 ≡ item.entry.number.number }
    ensures id { result.1 ≡ item.entry.item.id }
    ensures value { result.2 ≡ 9 }
{
    *item = 8;
    *item += 1;
    (item.page_number(), item.page_id(), *item)
}

/// A write changes the value alone.
fn write(item: &mut LinearOwnedReusable<u32, Zeros, Zeros, Zero>, value: u32)
    ensures item { item.new.item ≡ record item.old.item { value = value } }
    ensures pool { item.new.pool ≡ item.old.pool }
    ensures number { item.new.number ≡ item.old.number }
{
    **item = value;
}

/// Where there is no limit and `init` always has an answer, a pull is refused for memory alone.
fn refusal(pool: &ClearedPool) -> Option<PullError>
    requires { (linear_view pool.now).limit ≡ None }
    ensures { IfSome result (λ error. error ≡ Memory) }
{
    pool.pull().err()
}

#[test]
fn a_value_is_written_and_read(rt: HostRuntime) {
    let pool = ClearedPool::new(rt.alloc(), Copied::new(0), Copied::new(0));
    let pool = pool.expect(&rt, "a pool is made");
    assert_equal(&rt, refusal(&pool), None);
    let item = pool.pull().expect(&rt, "an item is free");
    assert_equal(&rt, (*item, read_back(item)), (0, (0, 0, 9)));
    let pool = Arc::new(rt.alloc(), pool).expect(&rt, "memory is left");
    let mut item = pool.pull_owned().expect(&rt, "an item is free");
    write(&mut item, 7);
    assert_equal(&rt, *item, 7);
}

/// Under a limit of one page each item is of page 0.
fn page_of_one(alloc: Global) -> Result<usize, PullError>
    ensures { IfOk result (λ number. number ≡ 0) }
{
    let pool: ClearedPool = LinearObjectPool::with_limit(alloc, Copied::new(0), Copied::new(0), 1)?;
    let number = pool.pull()?.page_number();
    Ok(number)
}

/// The evidence of the last page.
type LastSeen<'p> = LimitSeen<'p, u32, MadeOrReset<Zeros, Zeros, Zero>, AnswerOf<Zeros, Zero>>;

/// What a pull that is refused at the limit has of the last page: each of its items was seen in
/// use.
fn last_full_page<'p>(pool: &ClearedPool, pass: &'p PullPass) -> Option<LastSeen<'p>>
    ensures { IfSome result (λ last. (pages : ℕ) × ((linear_view pool.now).limit ≡ Some pages)
        × IsLastFull (linear_view pool.now).start pages last) }
{
    match pool.try_pull(pass) {
        Err(WalkRefusal::Limit(last)) => Some(last),
        _ => None,
    }
}

#[test]
fn each_item_is_of_a_page_below_the_limit(rt: HostRuntime) {
    assert_equal(&rt, page_of_one(rt.alloc()), Ok(0));
    let pool = ClearedPool::with_limit(rt.alloc(), Copied::new(0), Copied::new(0), 3);
    let pool = pool.expect(&rt, "a pool is made");
    for _ in 0..95 {
        mem::forget(pool.pull().expect(&rt, "an item is free"));
    }
    let item = pool.pull().expect(&rt, "an item is free");
    let pass = PullPass::new();
    let last = last_full_page(&pool, &pass).expect(&rt, "the pool is at its limit");
    assert_equal(&rt, last.number.get(), 2);
    drop(item);
    assert!(rt; last_full_page(&pool, &pass).is_none());
}

/// A pool whose `init` answers 0.
type ZeroPool<R> = LinearObjectPool<u32, CountedZeros, R, AnyValue>;

/// Whatever the resets do: a pulled value is 0, or what the last return of this very item left.
fn pulled<'p, R: Reset<u32, AnyValue>>(
    pool: &'p ZeroPool<R>,
) -> Option<LinearReusable<'p, u32, CountedZeros, R, AnyValue>>
    ensures { IfSome result (λ item. (item.item.value ≡ 0) ⊎ ((before : History ℕ)
        × (item.item.history ≡ Pull item.item.holder item.item.id item.item.value ∷ before)
        × WasReturned before item.item.id item.item.value)) }
{
    match pool.pull() {
        Ok(item) => Some(item),
        Err(_) => None,
    }
}

#[test]
fn a_value_is_an_answer_or_what_a_return_left(rt: HostRuntime) {
    let calls = new_calls(rt.alloc()).expect(&rt, "memory is left");
    let pool = ZeroPool::new(rt.alloc(), CountedZeros { calls }, Keep);
    let pool = pool.expect(&rt, "a pool is made");
    for expected in [0, 1, 2] {
        let mut item = pulled(&pool).expect(&rt, "an item is free");
        assert_equal(&rt, *item, expected);
        *item = item.wrapping_add(1);
    }
}

/// A pool of numbers that keeps what was written last, and its items.
type NumberPool = LinearObjectPool<u32, Copied<u32, AnyValue>, Keep>;

type NumberItem<'p> = LinearReusable<'p, u32, Copied<u32, AnyValue>, Keep>;

/// Writes a number to item 0 of the first page and returns it: this return is the last operation
/// that the note knows.
fn returned_first(pool: &NumberPool, number: u32) -> Option<PageNote<u32>>
    ensures page { IfSome result (λ note. note.seat.table_id ≡ (linear_view pool.now).start.page.identity) }
    ensures last { IfSome result (λ note. EndsWithReturnOf 0 number
        (view_of note.seat).operations) }
{
    let mut item = pool.pull().ok()?;
    if item.page_number() != 0 || item.page_id() != 0 {
        return None;
    }
    *item = number;
    Some(item.give_back())
}

/// Item 0 of the first page, pulled after a return of it, and whether it has the number that was
/// returned then. It has that number, unless somebody had the item in between; what it has was
/// returned in either case.
fn pulled_again<'p>(
    pool: &'p NumberPool,
    note: PageNote<u32>,
    number: u32,
) -> Option<(NumberItem<'p>, bool)>
    requires of_page { note.seat.table_id ≡ (linear_view pool.now).start.page.identity }
    requires returned { EndsWithReturnOf 0 number (view_of note.seat).operations }
    ensures returned { IfSome result (λ pulled. WasReturnedBefore pulled.0.item) }
    ensures same { IfSome result (λ pulled. IsTrue pulled.1 ↔ (pulled.0.item.value ≡ number)) }
    ensures unless_used { IfSome result (λ pulled. (pulled.0.item.value ≡ number)
        ⊎ WasUsedSince (view_of note.seat).operations pulled.0.item) }
{
    let pass = PullPass::new();
    let Ok(item) = pool.try_pull_from(&pass, note) else {
        return None;
    };
    if item.page_number() != 0 || item.page_id() != 0 {
        return None;
    }
    let is_same = *item == number;
    Some((item, is_same))
}

/// What item 0 holds after a return of an 8, and whether that is this 8, where the item was used in
/// between or not.
fn found_after_eight(rt: &impl Abort, alloc: Global, is_used: bool) -> (u32, bool) {
    let pool = NumberPool::new(alloc, Copied::new(7), Keep).expect(rt, "a pool is made");
    let Some(note) = returned_first(&pool, 8) else {
        panic!(*rt; "item 0 is free")
    };
    if is_used {
        *pool.pull().expect(rt, "an item is free") = 9;
    }
    let (item, is_same) = pulled_again(&pool, note, 8).expect(rt, "item 0 is free");
    (*item, is_same)
}

#[test]
fn a_value_that_was_returned_is_pulled_again_or_was_used(rt: HostRuntime) {
    assert_equal(&rt, found_after_eight(&rt, rt.alloc(), false), (8, true));
    assert_equal(&rt, found_after_eight(&rt, rt.alloc(), true), (9, false));
}

/// What is known of a history takes no room in a reusable.
#[test]
fn a_reusable_is_as_large_as_its_parts(rt: HostRuntime) {
    type Numbers = Copied<u64, AnyValue>;
    let linear = size_of::<LinearReusable<'static, u64, Numbers, Keep>>();
    let owned = size_of::<LinearOwnedReusable<u64, Numbers, Keep>>();
    let fixed = size_of::<FixedReusable<'static, u64, Numbers, Keep>>();
    assert_equal(&rt, (linear, owned, fixed), (40, 32, 24));
}
