//! Proved callers: what they know of a pulled value, an attached one, a refusal and a lock.
ghost use Rattle.std.specs.Prelude.{◌≡◌, ◌%◌, None, Some, IsOk, IfOk, IfErr, IfSome};
ghost use Rattle.pool_parts.specs.declared.pull_error.PullError.TheVariants.{Memory};

use none_pools::{NoneObjectPool, NoneReusable};
use pool_parts::PullError;
use pool_parts::clean::Clean;
use pool_parts::closures::{Copied, Init, Reset};
use pool_parts::made_or_reset::MadeOrReset;
use stack_pools::free_list::FreeList;
use stack_pools::spin_lock::{SpinLock, SpinLockGuard};
use stack_pools::stack::{Room, Stack};
use stack_pools::stack_object_pool::StackObjectPool;
use stack_pools::stack_reusable::{SharedStackPool, StackReusable};
use stack_pools::{MutexObjectPool, SpinLockObjectPool};
use std::alloc::Global;
use std::process::Abort;
use std::sync::{Arc, Wait};
use test_values::zeros::{CountedZeros, Zero, new_calls};

/// Whatever other threads do and attach, a pulled value meets the condition, borrowed or owned.
fn pulled<
    K: Clean<u32>,
    I: Init<u32, K>,
    R: Reset<u32, K>,
    F: FreeList<u32, MadeOrReset<I, R, K>>,
    W: Wait + Copy,
>(rt: &W, pool: &Arc<StackObjectPool<u32, I, R, K, F>>) -> Option<(u32, u32)>
    ensures { IfSome result (λ both. (K.meets both.0) × (K.meets both.1)) }
{
    let borrowed = *pool.pull(rt).ok()?;
    Some((borrowed, *pool.pull_owned(rt).ok()?))
}

/// A write changes the value alone.
fn write<P: SharedStackPool<u32>, W: Wait + Copy>(item: &mut StackReusable<u32, P, W>, value: u32)
    ensures { item.new ≡ record item.old { value = value } }
{
    **item = value;
}

/// An attached value is shown until it is written, also where it doesn't meet the condition; a
/// refusal gives it back.
fn attached<P: SharedStackPool<u32>, W: Wait + Copy>(rt: &W, pool: P) -> Result<u32, u32>
    ensures shown { IfOk result (λ shown. shown ≡ 9) }
    ensures back { IfErr result (λ back. back ≡ 9) }
{
    let item = StackReusable::new(rt, pool, 9)?;
    Ok(*item)
}

/// A pool that resets to 0.
type Cleared<F> = StackObjectPool<u32, CountedZeros, Copied<u32, Zero>, Zero, F>;

/// Where `init` always has an answer, a pull is refused for memory alone.
fn refusal<F: FreeList<u32, MadeOrReset<CountedZeros, Copied<u32, Zero>, Zero>>, W: Wait + Copy>(
    rt: &W,
    pool: &Cleared<F>,
) -> Option<PullError>
    ensures { IfSome result (λ error. error ≡ Memory) }
{
    pool.pull(rt).err()
}

/// What a pull shows once 7 was written to its item.
fn written<F: FreeList<u32, MadeOrReset<CountedZeros, Copied<u32, Zero>, Zero>>, W: Wait + Copy>(
    rt: &W,
    pool: &Arc<Cleared<F>>,
) -> Option<(u32, Option<(u32, u32)>)> {
    let mut item = pool.pull(rt).ok()?;
    write(&mut item, 7);
    let shown = *item;
    drop(item);
    Some((shown, pulled(rt, pool)))
}

/// What the callers see of a pool that resets to 0, whose condition is that the value is 0.
fn shows_what_its_callers_know<
    F: FreeList<u32, MadeOrReset<CountedZeros, Copied<u32, Zero>, Zero>>,
    W: Abort + Wait + Copy,
>(rt: &W, alloc: Global, pool: Cleared<F>) {
    let pool = Arc::new(alloc, pool).expect(rt, "memory is left");
    assert_eq!(*rt; written(rt, &pool), Some((7, Some((0, 0)))));
    assert_eq!(*rt; (attached(rt, &*pool), refusal(rt, &*pool)), (Ok(9), None));
    let owner = Arc::try_clone(&pool).expect(rt, "an owner is made");
    assert_eq!(*rt;
        (attached(rt, owner), pulled(rt, &pool)),
        (Ok(9), Some((0, 0)))
    );
}

#[test]
fn a_value_is_written_and_read(rt: HostRuntime) {
    let alloc = rt.alloc();
    let calls = new_calls(alloc).expect(&rt, "memory is left");
    let pool = MutexObjectPool::new(alloc, CountedZeros { calls }, Copied::new(0));
    shows_what_its_callers_know(&rt, alloc, pool);
    let calls = new_calls(alloc).expect(&rt, "memory is left");
    let pool = SpinLockObjectPool::new(alloc, CountedZeros { calls }, Copied::new(0));
    shows_what_its_callers_know(&rt, alloc, pool.expect(&rt, "memory is left"));
}

/// A number that is even as long as it is kept.
#[derive(Drop)]
struct Even {
    number: u32,
    ghost even: { number % 2 ≡ 0 },
}

/// Whatever other threads do, what is written under the lock is what the guard shows.
fn written_under_lock<W: Wait>(rt: &W, lock: &SpinLock<u32>, value: u32) -> u32
    ensures { result ≡ value }
{
    let mut guard = lock.lock(rt);
    *guard = value;
    *guard
}

/// A write through a guard changes its value alone.
fn overwritten(guard: &mut SpinLockGuard<'_, u32>, value: u32)
    ensures { guard.new ≡ record guard.old { value = value } }
{
    **guard = value;
}

fn kept_even<W: Wait>(rt: &W, lock: &SpinLock<Even>) -> u32
    ensures { result % 2 ≡ 0 }
{
    lock.lock(rt).number
}

/// A stack's condition holds each time its lock is taken.
fn kept_clean<K: Clean<u32>, W: Wait>(
    rt: &W,
    lock: &SpinLock<Stack<u32, K>>,
) -> Option<(u32, Room<u32>)>
    ensures { IfSome result (λ taken. K.meets taken.0) }
{
    lock.lock(rt).take()
}

fn three() -> Option<u32>
    ensures { result ≡ Some 3 }
{
    Some(3)
}

/// What the none pool gives is an answer of its function, and what is read is what was written
/// last.
fn made_and_written() -> Result<(u32, u32), PullError>
    ensures { IfOk result (λ both. (both.0 ≡ 3) × (both.1 ≡ 9)) }
{
    let pool = NoneObjectPool::new(three);
    let mut item = pool.pull()?;
    let made = *item;
    *item = 8;
    *item += 1;
    Ok((made, *item))
}

/// A write changes the value.
fn write_made(item: &mut NoneReusable<u32>, value: u32)
    ensures { item.new ≡ value }
{
    **item = value;
}

/// A closure that always has an answer is never refused.
fn never_refused<I: Fn() -> Option<u32>>(pool: &NoneObjectPool<u32, I>) -> Result<u32, PullError>
    requires callable { I.pre pool.now }
    requires answers { I.post pool.now None → ⊥ }
    ensures { IsOk result }
{
    Ok(*pool.pull()?)
}

#[test]
fn what_is_made_is_written_and_read(rt: HostRuntime) {
    let pool = NoneObjectPool::new(three);
    assert_eq!(rt;
        (made_and_written(), never_refused(&pool)),
        (Ok((3, 9)), Ok(3))
    );
    let mut item = pool.pull().expect(&rt, "an item is made");
    write_made(&mut item, 5);
    assert_eq!(rt; *item, 5);
}
