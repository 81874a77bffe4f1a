//! Linear pools that are refused memory: nothing is lost, and what was refused can be asked for
//! again; and calls that ask for no memory.
//!
//! Each test that prints does so when it has all that it needs. `ci/refuse_memory` refuses each
//! request of these tests in turn, and fails where one comes after that line. Before it, a request
//! that is refused ends the test.
use crate::opened::opened;
use crate::player::{LinearPlayer, Pool};
use linear_pools::PullError;
use linear_pools::page::{PageId, PullPass};
use rows::row::{Command, Player, first_difference};
use rows::said::Said;
use rows::setting::Setting;
use std::alloc::Global;
use std::process::Abort;
use std::sync::Arc;
use test_values::again;
use test_values::counted::NEVER;

/// Past a page of items that are held, a pull is met or refused for memory. Then the second page's
/// first item is there. A pool that is opened by a second try has later values than the first.
fn goes_on(rt: &(impl Abort + AllocGlobal), limit: usize, word: &'static str) {
    let setting = again!(Setting::new(rt.alloc(), NEVER)).expect(rt, "memory is left");
    let pool = again!(opened(rt.alloc(), &setting, limit)).expect(rt, "a pool is made");
    let Ok(mut player) = LinearPlayer::new(rt.alloc(), &pool, &setting, 34) else {
        return;
    };
    let pull = Command {
        word,
        numbers: [0; 3],
    };
    assert_eq!(*rt;
        first_difference(&mut player, "pull*32", "pulled 0+ _"),
        None
    );
    let said = player.play(pull);
    if said == Said::of("refused memory") {
        assert_eq!(*rt; setting.tally.living(), 32);
        assert!(*rt; player.play(pull).is_as("pulled 32 _", 0));
    } else {
        assert!(*rt; said.is_as("pulled 32 _", 0));
    }
    assert_eq!(*rt; setting.tally.living(), 64);
    let (commands, answers) = ("return 32; pull", "returned; pulled 32 _");
    assert_eq!(*rt; first_difference(&mut player, commands, answers), None);
}

/// Holds with each request for memory refused in turn too.
#[test]
fn a_pool_goes_on_where_memory_was_refused(rt: HostRuntime) {
    goes_on(&rt, 0, "pull");
}

/// Holds with each request for memory refused in turn too.
#[test]
fn owned_pulls_go_on_where_memory_was_refused(rt: HostRuntime) {
    goes_on(&rt, 2, "owned");
}

/// Holds with each request for memory refused in turn too.
#[test]
fn what_a_linear_pool_owns_is_dropped_where_memory_was_refused(rt: HostRuntime) {
    let Ok(setting) = Setting::new(rt.alloc(), NEVER) else {
        return;
    };
    let refusal = opened(rt.alloc(), &setting, 2).err();
    assert!(rt; matches!(refusal, None | Some(PullError::Memory)));
    assert_eq!(rt;
        (setting.tally.living(), Arc::strong_count(&setting)),
        (0, 1)
    );
}

/// Prints that no memory is asked for from here on.
fn is_ready(rt: &(impl Abort + Print)) {
    let told = println!(rt; "from here on no memory is asked for");
    told.expect(rt, "standard output is there");
}

/// Pulls of a linear pool.
fn pull_linear(pool: &Pool) -> Option<(usize, PageId)> {
    let pass = PullPass::new();
    drop(pool.pull().ok()?);
    let mut item = pool.try_pull(&pass).ok()?;
    let mut note = item.note();
    let witness = item.witness();
    item.tell(&mut note, witness);
    drop(item.give_back());
    let item = pool.pull().ok()?;
    Some((item.page_number(), item.page_id()))
}

/// An owned item of a linear pool.
fn pull_linear_owned(pool: &Arc<Pool>) -> Option<(usize, PageId)> {
    let mut item = pool.pull_owned().ok()?;
    let mut note = item.note();
    let witness = item.witness();
    item.tell(&mut note, witness);
    let place = (item.page_number(), item.page_id());
    drop(item.give_back());
    Some(place)
}

#[test]
fn calls_of_a_linear_pool_ask_for_no_memory(rt: HostRuntime) {
    let Ok(setting) = Setting::new(rt.alloc(), NEVER) else {
        return;
    };
    let Ok(pool) = opened(rt.alloc(), &setting, 0) else {
        return;
    };
    is_ready(&rt);
    let seen = (pool.limit(), pull_linear(&pool), pull_linear_owned(&pool));
    assert_eq!(rt; seen, (None, Some((0, 0)), Some((0, 0))));
}

/// Owned items and borrowed ones of three pages come back, and are pulled again.
#[test]
fn turns_of_a_linear_pool_ask_for_no_memory(rt: HostRuntime) {
    let Ok(setting) = Setting::new(rt.alloc(), NEVER) else {
        return;
    };
    let Ok(pool) = opened(rt.alloc(), &setting, 3) else {
        return;
    };
    let Ok(mut player) = LinearPlayer::new(rt.alloc(), &pool, &setting, 96) else {
        return;
    };
    if first_difference(
        &mut player,
        "owned*48; pull*48",
        "pulled 0+ _; pulled 48+ _",
    )
    .is_some()
    {
        return;
    }
    is_ready(&rt);
    let commands =
        "return 0*96; owned*48; pull*48; give 0*96; try; again; reset_first; pair; tell 0";
    let answers = "returned; pulled _ _; pulled _ _; returned; pulled 0 _; pulled 1 _; reset 2 _; \
                   two 2 3; told";
    assert_eq!(rt; first_difference(&mut player, commands, answers), None);
}
