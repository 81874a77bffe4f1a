//! Calls that find their room, and are never refused for memory: that their callers need no answer
//! for it is proved. And what becomes of a value that memory was refused for.
use super::new_world;
use super::player::{TalliedWorld, made_page};
use crate::assert_equal::assert_equal;
use crate::values::made_tally;
use object_pool_cores::interleave::{Event, Prepared, RunError, Seen};
use std::alloc::AllocFailed;
use std::process::Abort;
use test_values::tallied::Tallied;

/// Agent 32 makes a page, and agent 33 one right behind it. What the first is answered where it
/// couldn't, and else the second.
fn make_two(world: &mut TalliedWorld, first: Prepared<Tallied>, second: Prepared<Tallied>) -> Seen {
    let made = world.step(Event::MakePage(32, Ok(first)));
    if made != Seen::Made(32) {
        return made;
    }
    match world.step(Event::MakePage(33, Ok(second))) {
        Seen::NoMemory => unreachable!(),
        seen => seen,
    }
}

/// So many agents begin, and take an item of the first page where it has one.
fn begin(world: &mut TalliedWorld, agents: usize) {
    for agent in 0..agents {
        let _ = world.step(Event::Begin);
        let _ = world.step(Event::ReadMask(agent));
        let _ = world.step(Event::ClearBit(agent));
        let _ = world.step(Event::ReadNext(agent));
    }
}

#[test]
fn a_second_page_is_made_in_the_room_of_the_first(rt: HostRuntime) {
    let (alloc, tally) = (rt.alloc(), made_tally(&rt));
    let mut world = new_world(alloc, &tally, None).expect(&rt, "memory is left");
    begin(&mut world, 34);
    let first = made_page(alloc, &tally).expect(&rt, "values are made");
    let second = made_page(alloc, &tally).expect(&rt, "values are made");
    assert_equal(&rt, make_two(&mut world, first, second), Seen::Made(33));
}

#[test]
fn a_run_with_room_for_its_answers_is_done(rt: HostRuntime) {
    let (alloc, tally) = (rt.alloc(), made_tally(&rt));
    let mut world = new_world(alloc, &tally, None).expect(&rt, "memory is left");
    let events = [Event::Begin, Event::ReadMask(0)];
    let events = Vec::from_array(alloc, events).expect(&rt, "memory is left");
    let mut seen = Vec::with_capacity(alloc, 2).expect(&rt, "memory is left");
    if world.run(events, &mut seen).is_err() {
        unreachable!();
    }
    assert_equal(&rt, seen.pop(), Some(Seen::Word(0, 4294967295)));
}

#[test]
fn a_value_that_memory_was_refused_for_is_dropped(rt: HostRuntime) {
    let tally = made_tally(&rt);
    let value = Tallied::new(&tally);
    let cause = RunError::from(AllocFailed { value });
    assert_equal(&rt, (cause, tally.now()), (RunError::Memory, (1, 1)));
}
