//! What notes of a spin lock pool know.
ghost use Rattle.std.specs.Prelude.{◌≡◌, Some, IfOk, IfSome};
ghost use Rattle.stack_pools.specs.StackHistory.{IsNoteOf, GoesOn};
ghost use Rattle.stack_pools.specs.StackPool.{stack_view};

use crate::assert_equal::assert_equal;
use lockfree_object_pool::clean::AnyValue;
use lockfree_object_pool::closures::{Copied, Keep};
use lockfree_object_pool::stack_note::StackNote;
use lockfree_object_pool::{PullError, SpinLockObjectPool};
use std::sync::Wait;
use std::thread::{Threads, join};

/// A spin lock pool of zeros that keeps what was written last.
type Numbers = SpinLockObjectPool<u32, Copied<u32, AnyValue>, Keep>;

/// Returns 5 to a pool and pulls again, after that return.
fn pull_after_five<W: Wait + Copy>(rt: W, pool: &Numbers) -> Result<u32, PullError> {
    *pool.pull(&rt)? = 5; // its drop keeps it
    let note = pool.pull(&rt)?.give_back();
    let item = pool.pull_after(&rt, note)?; // comes after all that the note knew
    Ok(*item)
}

#[test]
fn a_pull_comes_after_a_note(rt: HostRuntime) -> Result<(), PullError> {
    let pool = Numbers::new(rt.alloc(), Copied::new(0), Keep)?;
    assert_equal(&rt, pull_after_five(rt, &pool), Ok(5));
    Ok(())
}

/// Returns a value to a pool.
fn returned<W: Wait + Copy>(rt: &W, pool: &Numbers, value: u32) -> Option<StackNote<u32>>
    ensures { IfSome result (λ note. IsNoteOf (Some (stack_view pool.now).list) note) }
{
    let mut item = pool.pull(rt).ok()?;
    *item = value;
    Some(item.give_back())
}

/// Two threads return a value each. The note knows both returns.
fn both_returned<R: Threads + Wait + Copy + Sync>(rt: &R, pool: &Numbers) -> Option<StackNote<u32>>
    ensures { IfSome result (λ note. IsNoteOf (Some (stack_view pool.now).list) note) }
{
    let (first, second) = join(
        rt,
        || -> Option<StackNote<u32>>
            ensures { IfSome result (λ note. IsNoteOf (Some (stack_view pool.entry.now).list) note) }
        { returned(rt, pool, 3) },
        || -> Option<StackNote<u32>>
            ensures { IfSome result (λ note. IsNoteOf (Some (stack_view pool.entry.now).list) note) }
        { returned(rt, pool, 4) },
    );
    let (first, second) = (first?, second?);
    let both = pool.learn(first, second); // comes after what both threads know
    Some(both)
}

/// What is pulled after both returns is what the later one left.
#[test]
fn a_pull_comes_after_two_threads(rt: HostRuntime) -> Result<(), PullError> {
    let pool = Numbers::new(rt.alloc(), Copied::new(0), Keep)?;
    let both = both_returned(&rt, &pool).expect(&rt, "both threads end");
    let value = *pool.pull_after(&rt, both)?;
    assert_equal(&rt, value == 3 || value == 4, true);
    Ok(())
}
