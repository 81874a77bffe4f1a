//! An owner of a fixed pool, which pulls again and again without counting owners.
ghost use Rattle.std.specs.Prelude.{◌≤◌};

use crate::assert_equal::assert_equal;
use lockfree_object_pool::clean::AnyValue;
use lockfree_object_pool::closures::{ByDefault, Copied};
use lockfree_object_pool::{FixedObjectPool, PullError};
use std::alloc::Global;
use std::sync::Arc;

/// A pool of counters, which a reset sets to 0.
type Counters = FixedObjectPool<u32, ByDefault, Copied<u32, AnyValue>>;

/// Pulls and returns ten times, by one owner and its note. Returns how many pulls gave an item. The
/// loop keeps that the note is of the owner's pool.
fn turns(alloc: Global, counters: usize) -> Result<u32, PullError>
    requires { 1 ≤ counters }
{
    let pool: Counters = FixedObjectPool::new(alloc, ByDefault, Copied::new(0), counters)?;
    let mut owner = Arc::new(alloc, pool)?;
    let mut note = owner.note();
    let mut turns: u32 = 0;
    for _ in 0..10 {
        match owner.pull_by_owner(0, note) {
            Ok(item) => {
                turns = turns.saturating_add(1);
                (owner, note) = item.give_back_with_owner();
            }
            Err(kept) => (owner, note) = kept,
        }
    }
    Ok(turns)
}

#[test]
fn an_owner_pulls_again_by_its_note(rt: HostRuntime) {
    assert_equal(&rt, turns(rt.alloc(), 4), Ok(10));
}
