//! Calls of a fixed pool that ask for no memory.
//!
//! Each test prints when it has all that it needs. `ci/refuse_memory` refuses each of its requests
//! in turn, and fails where one comes after that line. Before it, a request that is refused ends
//! the test.
use crate::opened::opened;
use crate::player::{FixedPlayer, Pool};
use fixed_pools::page::{PageId, PullPass};
use pool_parts::reusable::Reusable;
use rows::row::first_difference;
use rows::setting::Setting;
use std::process::Abort;
use std::sync::Arc;
use test_values::counted::NEVER;

/// Pulls of a fixed pool.
fn pull_fixed(pool: &Pool) -> Option<(usize, usize, PageId)> {
    let pass = PullPass::new();
    drop(pool.pull().ok()?);
    drop(pool.pull_near(1).ok()?);
    drop(pool.near().pull().ok()?);
    drop(pool.try_pull(&pass).ok()?);
    let item = pool.pull_item(1).ok()?;
    pool.give(item.holding, item.value);
    if let Ok(left) = pool.pull().ok()?.try_reset() {
        left.give_kept();
    }
    let item = pool.pull().ok()?;
    Some((item.number(), item.page_number(), item.page_id()))
}

/// A pull of a fixed pool by a note.
fn pull_fixed_from(pool: &Pool) -> Option<usize> {
    let pass = PullPass::new();
    let mut item = pool.pull().ok()?;
    let mut note = pool.note();
    pool.tell(&mut note, item.witness());
    drop(item.give_back());
    let item = pool.try_pull_from(&pass, note).ok()?;
    Some(item.number)
}

/// A pull of a fixed pool by an owner.
fn pull_fixed_by_owner(owner: Arc<Pool>) -> Option<usize> {
    drop(owner.pull_owned().ok()?);
    let note = owner.note();
    let item = owner.pull_by_owner(0, note).ok()?;
    let items = item.owner().items();
    drop(item.give_back_with_owner());
    Some(items)
}

/// Prints that no memory is asked for from here on.
fn is_ready(rt: &(impl Abort + Print)) {
    let told = println!(rt; "from here on no memory is asked for");
    told.expect(rt, "standard output is there");
}

#[test]
fn calls_of_a_fixed_pool_ask_for_no_memory(rt: HostRuntime) {
    let Ok(setting) = Setting::new(rt.alloc(), NEVER) else {
        return;
    };
    let Ok(pool) = opened(rt.alloc(), &setting, 40) else {
        return;
    };
    is_ready(&rt);
    let seen = (pool.items(), pull_fixed(&pool), pull_fixed_from(&pool));
    assert_eq!(rt; seen, (40, Some((0, 0, 0)), Some(0)));
    assert_eq!(rt; pull_fixed_by_owner(pool), Some(40));
}

/// Owned items and borrowed ones of three pages come back, and are pulled again.
#[test]
fn turns_of_a_fixed_pool_ask_for_no_memory(rt: HostRuntime) {
    let Ok(setting) = Setting::new(rt.alloc(), NEVER) else {
        return;
    };
    let Ok(pool) = opened(rt.alloc(), &setting, 96) else {
        return;
    };
    let Ok(mut player) = FixedPlayer::new(rt.alloc(), &pool, &setting, 96) else {
        return;
    };
    is_ready(&rt);
    let commands =
        "owned*48; pull*48; return 0*96; owned*48; pull*48; give 0*96; near 1; try; pull";
    let answers = "pulled 0+ 0+; pulled 48+ 48+; returned; pulled _ _; pulled _ _; returned; \
                   pulled 32 32; pulled _ _; pulled _ _";
    assert_eq!(rt; first_difference(&mut player, commands, answers), None);
}
