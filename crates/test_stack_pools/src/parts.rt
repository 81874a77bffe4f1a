//! The parts of stack pools in use. The spin lock: what its guards show, who has it, and what it
//! drops. The stack: which value it gives, how many it keeps, and what it drops.
use pool_parts::clean::AnyValue;
use rows::threads::wait_for;
use stack_pools::spin_lock::SpinLock;
use stack_pools::stack::{Room, Stack};
use std::sync::atomic::AtomicUsize;
use std::sync::atomic::Ordering::SeqCst;
use std::sync::{Arc, Wait};
use std::{mem, thread};
use test_values::again;
use test_values::counted::Counted;
use test_values::tally::Tally;

/// A sum that threads add to, and how many of them are done.
#[derive(Drop)]
struct Sum {
    lock: SpinLock<u32>,
    done: AtomicUsize,
}

fn add_a_thousand<W: Wait>(rt: &W, sum: &Sum) {
    for _ in 0..1_000 {
        let mut guard = sum.lock.lock(rt);
        *guard = guard.wrapping_add(1);
    }
    sum.done.fetch_add(1, SeqCst);
}

#[test]
fn two_threads_leave_two_thousand(rt: HostRuntime) {
    let lock = SpinLock::new(rt.alloc(), 0).expect(&rt, "memory is left");
    let done = AtomicUsize::new(0);
    let sum = Arc::new(rt.alloc(), Sum { lock, done }).expect(&rt, "memory is left");
    let there = Arc::try_clone(&sum).expect(&rt, "an owner is made");
    let first = thread::spawn(&rt, move || add_a_thousand(&rt, &there));
    let first = first.expect(&rt, "a thread is made");
    let there = Arc::try_clone(&sum).expect(&rt, "an owner is made");
    let second = thread::spawn(&rt, move || add_a_thousand(&rt, &there));
    let second = second.expect(&rt, "a thread is made");
    assert!(rt; wait_for(&sum.done, 2));
    first.join(&rt);
    second.join(&rt);
    assert_eq!(rt; *sum.lock.lock(&rt), 2_000);
}

#[test]
fn drops_each_value_once(rt: HostRuntime) {
    let counts = Tally::new();
    let lock = SpinLock::new(rt.alloc(), counts.make())
        .ok()
        .expect(&rt, "memory is left");
    let mut guard = lock.lock(&rt);
    *guard = counts.make();
    let written = counts.drops();
    drop(guard);
    let returned = counts.drops();
    drop(lock);
    assert_eq!(rt; (written, returned, counts.drops()), (1, 1, 2));
}

#[test]
fn shows_what_was_written_last(rt: HostRuntime) {
    let lock = SpinLock::new(rt.alloc(), 7u32).expect(&rt, "memory is left");
    let mut guard = lock.lock(&rt);
    let made = *guard;
    *guard = 8;
    assert_eq!(rt; (made, *guard, lock.try_lock().is_none()), (7, 8, true));
    drop(guard);
    assert_eq!(rt; lock.try_lock().map(|guard| *guard), Some(8));
}

#[test]
fn a_forgotten_guard_leaves_the_lock_taken_and_its_value(rt: HostRuntime) {
    let counts = Tally::new();
    let lock = SpinLock::new(rt.alloc(), counts.make())
        .ok()
        .expect(&rt, "memory is left");
    mem::forget(lock.lock(&rt));
    for _ in 0..1_000 {
        assert!(rt; lock.try_lock().is_none());
    }
    drop(lock);
    assert!(rt; counts.drops() == 0);
}

/// Holds with each request for memory refused in turn: the two rooms alone are asked for.
#[test]
fn a_take_and_a_put_in_its_room_takes_no_memory(rt: HostRuntime) {
    let mut stack: Stack<u32, AnyValue> = Stack::new();
    let room = again!(Room::new(rt.alloc())).expect(&rt, "one request alone is refused");
    let other = again!(Room::new(rt.alloc())).expect(&rt, "one request alone is refused");
    assert_eq!(rt; (stack.take().is_none(), stack.kept()), (true, 0));
    stack.put(room, 5);
    assert_eq!(rt; stack.kept(), 1);
    let (five, room) = stack.take().expect(&rt, "5 is kept");
    assert_eq!(rt; (five, stack.kept()), (5, 0));
    stack.put(room, 6);
    assert_eq!(rt; stack.kept(), 1);
    stack.put(other, 7);
    assert_eq!(rt; stack.kept(), 2);
    let (seven, room) = stack.take().expect(&rt, "7 is kept");
    drop(room);
    assert_eq!(rt; (seven, stack.kept()), (7, 1));
    let (six, _room) = stack.take().expect(&rt, "6 is kept");
    assert_eq!(rt; (six, stack.kept()), (6, 0));
}

#[test]
fn drops_each_of_a_million_values_once(rt: HostRuntime) {
    let counts = Tally::new();
    let mut stack: Stack<Counted<'_>, AnyValue> = Stack::new();
    for _ in 0..1_000_000 {
        let room = Room::new(rt.alloc()).expect(&rt, "memory is left");
        stack.put(room, counts.make());
    }
    let kept = stack.kept();
    let taken = stack.take().expect(&rt, "a value is kept");
    let out = counts.drops();
    drop(taken);
    let dropped = counts.drops();
    drop(stack);
    assert_eq!(rt;
        (kept, out, dropped, counts.drops()),
        (1_000_000, 0, 1, 1_000_000)
    );
}
