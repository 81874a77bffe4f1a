//! Calls that ask for no memory. Each test prints when it has all that it needs.
//! `ci/refuse_memory` refuses each of its requests in turn, and fails where one comes after that
//! line. Before it, a request that is refused ends the test.
use crate::stack_player::{Kind, Opened, StackPlayer, UnderMutex, UnderSpinLock};
use crate::values::{Part, Value};
use none_pools::NoneObjectPool;
use pool_parts::clean::AnyValue;
use pool_parts::closures::{Copied, Keep};
use rows::refusals::Refusals;
use stack_pools::MutexObjectPool;
use stack_pools::spin_lock::SpinLock;
use stack_pools::stack::{Room, Stack};
use std::process::Abort;
use std::sync::Wait;

/// Prints that no memory is asked for from here on.
fn is_ready(rt: &(impl Abort + Print)) {
    let told = println!(rt; "from here on no memory is asked for");
    told.expect(rt, "standard output is there");
}

/// Plays a row without memory on a pool that keeps 48 values, if there was memory for that.
fn plays<F: Kind<Value, Part, Part>, W: Abort + AllocGlobal + Print + Wait + Copy>(
    rt: W,
    (commands, answers): (&'static str, &'static str),
) {
    let Ok(opened) = Opened::<F>::new(rt.alloc(), None) else {
        return;
    };
    let refusals = Refusals::new();
    let mut player = StackPlayer::new(rt, rt.alloc(), &opened, &refusals, false);
    if player.has_room() && opened.pool.fill(&rt, 48).is_ok() {
        is_ready(&rt);
        assert_eq!(rt; player.first_difference(commands, answers), None);
    }
}

/// Owned items and borrowed ones come back, and are pulled again, twice.
fn turns() -> (&'static str, &'static str) {
    (
        "pull*24; pull_owned*24; return_last*48; pull_owned*24; pull*24; return_last*48; counts",
        "pulled _ 0; pulled _ 0; done; pulled _ 0; pulled _ 0; done; made reset dropped 48 96 0",
    )
}

#[test]
fn turns_of_a_mutex_pool_ask_for_no_memory(rt: HostRuntime) {
    plays::<UnderMutex, _>(rt, turns());
}

#[test]
fn turns_of_a_spin_lock_pool_ask_for_no_memory(rt: HostRuntime) {
    plays::<UnderSpinLock, _>(rt, turns());
}

/// Each other call, once.
fn calls() -> (&'static str, &'static str) {
    (
        "pull; pull_owned; write 0 5; give_back 0; return 1; pull_after; renew; detach 2; \
         detach 3; reject 1; pull; return 4; reject 0; kept; owners; clear; kept",
        "..; ..; ..; done; done; ..; ..; ..; ..; done; ..; done; done; keeps 45; owners 1; done; \
         keeps 0",
    )
}

#[test]
fn calls_of_a_mutex_pool_ask_for_no_memory(rt: HostRuntime) {
    plays::<UnderMutex, _>(rt, calls());
}

#[test]
fn calls_of_a_spin_lock_pool_ask_for_no_memory(rt: HostRuntime) {
    plays::<UnderSpinLock, _>(rt, calls());
}

#[test]
fn openings_of_a_mutex_pool_ask_for_no_memory(rt: HostRuntime) {
    is_ready(&rt);
    let pool: MutexObjectPool<u32, _, _> = MutexObjectPool::new(rt.alloc(), Copied::new(0), Keep);
    assert_eq!(rt; pool.kept(&rt), 0);
}

#[test]
fn calls_of_a_none_pool_ask_for_no_memory(rt: HostRuntime) {
    is_ready(&rt);
    let pool = NoneObjectPool::new(|| Some(7u64));
    assert_eq!(rt; pool.pull().map(|item| *item), Ok(7));
}

#[test]
fn calls_of_a_stack_ask_for_no_memory(rt: HostRuntime) {
    let Ok(room) = Room::new(rt.alloc()) else {
        return;
    };
    is_ready(&rt);
    let mut stack: Stack<u64, AnyValue> = Stack::new();
    stack.put(room, 5);
    let kept = stack.kept();
    let (taken, _room) = stack.take().expect(&rt, "a value is kept");
    assert_eq!(rt; (kept, taken), (1, 5));
}

#[test]
fn calls_of_a_spin_lock_ask_for_no_memory(rt: HostRuntime) {
    let Ok(lock) = SpinLock::new(rt.alloc(), 5u64) else {
        return;
    };
    is_ready(&rt);
    let first = *lock.lock(&rt);
    let second = *lock.try_lock().expect(&rt, "the lock is free");
    assert_eq!(rt; (first, second), (5, 5));
}
