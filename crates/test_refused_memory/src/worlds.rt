//! The world of agents: an event that was refused changes nothing but drops its values, and is
//! answered again as with ample memory.
use crate::assert_equal::assert_equal;
use crate::refusals::{Refusals, again};
use lockfree_object_pool::PullError;
use lockfree_object_pool::closures::Keep;
use object_pool_cores::interleave::{Event, Prepared, Seen, World};
use std::alloc::Global;
use std::process::Abort;
use std::sync::Arc;
use test_values::tallied::Tallied;
use test_values::tally::Tally;

/// The word of a page all of whose items are free.
const FULL: u32 = 4294967295;

fn unbounded(alloc: Global) -> Result<World<u32, Keep>, PullError> {
    World::new(alloc, Prepared::make(alloc, &|| Some(0))?, Keep)
}

fn tallied_values(alloc: Global, tally: &Arc<Tally>) -> Result<Prepared<Tallied>, PullError> {
    Prepared::make(alloc, &|| Tallied::new(tally))
}

/// Such values. Where memory was refused, they come by a second try.
fn values_again(
    rt: &(impl Abort + AllocGlobal),
    refusals: &Refusals,
    tally: &Arc<Tally>,
) -> Prepared<Tallied> {
    again!(rt, refusals, tallied_values(rt.alloc(), tally))
}

type TalliedWorld = World<Tallied, Keep>;

fn tallied_bounded(alloc: Global, tally: &Arc<Tally>) -> Result<TalliedWorld, PullError> {
    World::with_limit(alloc, tallied_values(alloc, tally)?, Keep, 2)
}

/// A world keeps its values until it ends, and one that was refused has dropped them.
fn drops_its_values(
    rt: &impl Abort,
    refusals: &Refusals,
    tally: &Tally,
    world: Result<TalliedWorld, PullError>,
) {
    match world {
        Ok(world) => {
            assert_equal(rt, tally.living(), 32);
            drop(world);
        }
        Err(cause) => {
            refusals.note();
            assert_equal(rt, cause, PullError::Memory);
        }
    }
    assert_equal(rt, tally.living(), 0);
}

#[test]
fn a_world_that_was_refused_drops_its_values(rt: HostRuntime) {
    let refusals = Refusals::new();
    let tally = refusals.tally(&rt);
    let values = values_again(&rt, &refusals, &tally);
    drops_its_values(&rt, &refusals, &tally, World::new(rt.alloc(), values, Keep));
    let values = values_again(&rt, &refusals, &tally);
    let world = World::with_limit(rt.alloc(), values, Keep, 2);
    drops_its_values(&rt, &refusals, &tally, world);
    refusals.tell(&rt);
}

/// An agent that begins, by a second event where the tables couldn't grow.
fn begin_again<T: Drop>(refusals: &Refusals, world: &mut World<T, Keep>) -> Seen {
    match world.step(Event::Begin) {
        Seen::NoMemory => {
            refusals.note();
            world.step(Event::Begin)
        }
        seen => seen,
    }
}

#[test]
fn a_begin_that_was_refused_is_asked_again(rt: HostRuntime) {
    let refusals = Refusals::new();
    let mut world = again!(&rt, refusals, unbounded(rt.alloc()));
    for agent in 0..40 {
        let began = begin_again(&refusals, &mut world);
        let word = world.step(Event::ReadMask(agent));
        assert_equal(&rt, began, Seen::Began(agent));
        assert_equal(&rt, word, Seen::Word(agent, FULL));
    }
    refusals.tell(&rt);
}

/// Lets 33 agents each clear a bit of the first page, which has 32, and the last one read the link
/// to the next page.
fn find_no_item(refusals: &Refusals, world: &mut TalliedWorld) -> Seen {
    for agent in 0..33 {
        let _ = begin_again(refusals, world);
        let _ = world.step(Event::ReadMask(agent));
        let _ = world.step(Event::ClearBit(agent));
    }
    world.step(Event::ReadNext(32))
}

#[test]
fn a_page_that_was_refused_is_asked_again(rt: HostRuntime) {
    let refusals = Refusals::new();
    let tally = refusals.tally(&rt);
    let mut world = again!(&rt, refusals, tallied_bounded(rt.alloc(), &tally));
    let next = find_no_item(&refusals, &mut world);
    assert_equal(&rt, next, Seen::Next(32, false));
    let values = values_again(&rt, &refusals, &tally);
    let mut made = world.step(Event::MakePage(32, Ok(values)));
    if made == Seen::NoMemory {
        refusals.note();
        assert_equal(&rt, (world.pages(), world.word(0)), (1, Some(0)));
        assert_equal(&rt, tally.living(), 32);
        let values = tallied_values(rt.alloc(), &tally);
        let values = values.expect(&rt, "one request alone is refused");
        made = world.step(Event::MakePage(32, Ok(values)));
    }
    assert_equal(&rt, (made, tally.living()), (Seen::Made(32), 64));
    let linked = world.step(Event::ExchangeNext(32));
    assert_equal(&rt, linked, Seen::Linked(32));
    assert_equal(&rt, (world.pages(), world.word(1)), (2, Some(FULL)));
    refusals.tell(&rt);
}

/// How many agents begin in a run.
const AGENTS: usize = 6;

/// How many of the answers tell that an agent began. The agents are numbered from 0 on, and the
/// others were refused for memory.
fn agents_begun(rt: &impl Abort, refusals: &Refusals, seen: &[Seen]) -> usize {
    let mut agents = 0usize;
    for answer in seen {
        if *answer == Seen::NoMemory {
            refusals.note();
        } else {
            assert_equal(rt, *answer, Seen::Began(agents));
            agents = agents.saturating_add(1);
        }
    }
    agents
}

/// A list of so many agents' beginnings.
fn begins(rt: &impl Abort, refusals: &Refusals, alloc: Global, count: usize) -> Vec<Event<u32>> {
    let mut events = refusals.list(rt, alloc, count);
    for _ in 0..count {
        events.push(Event::Begin).expect(rt, "there is room");
    }
    events
}

#[test]
fn a_run_goes_on_from_the_events_done(rt: HostRuntime) {
    let refusals = Refusals::new();
    let mut world = again!(&rt, refusals, unbounded(rt.alloc()));
    let mut seen = Vec::new(rt.alloc());
    let events = begins(&rt, &refusals, rt.alloc(), AGENTS);
    if world.run(events, &mut seen).is_err() {
        refusals.note();
        // It was the list of answers that couldn't grow: of the world's own tables an answer tells.
        assert_equal(&rt, seen.as_slice().contains(&Seen::NoMemory), false);
        let rest = AGENTS.saturating_sub(seen.len());
        let rest = begins(&rt, &refusals, rt.alloc(), rest);
        let ran = world.run(rest, &mut seen);
        ran.expect(&rt, "one request alone is refused");
    }
    assert_equal(&rt, seen.len(), AGENTS);
    let refused = AGENTS.saturating_sub(agents_begun(&rt, &refusals, &seen));
    assert_equal(&rt, refused.max(1), 1);
    refusals.tell(&rt);
}

/// A world in which agent 0 holds a value, and that value's number.
fn held_by_one(
    rt: &(impl Abort + AllocGlobal),
    refusals: &Refusals,
    tally: &Arc<Tally>,
) -> (TalliedWorld, usize) {
    let mut world = again!(rt, refusals, tallied_bounded(rt.alloc(), tally));
    let _ = begin_again(refusals, &mut world);
    let _ = world.step(Event::ReadMask(0));
    let _ = world.step(Event::ClearBit(0));
    let _ = world.step(Event::MoveOut(0));
    let value = Tallied::new(tally).expect(rt, "a value takes no memory");
    let number = value.number;
    let wrote = world.step(Event::Write(0, value));
    assert_equal(rt, wrote, Seen::Wrote(0));
    (world, number)
}

/// How many writes a run has.
const WRITES: usize = 6;

/// Writes of values, each with the next number.
fn writes(
    rt: &impl Abort,
    refusals: &Refusals,
    alloc: Global,
    tally: &Arc<Tally>,
) -> Vec<Event<Tallied>> {
    let mut events = refusals.list(rt, alloc, WRITES);
    for _ in 0..WRITES {
        let value = Tallied::new(tally).expect(rt, "a value takes no memory");
        events
            .push(Event::Write(0, value))
            .expect(rt, "there is room");
    }
    events
}

/// The number of the value that agent 0 holds.
fn number_held(world: &TalliedWorld) -> Option<usize> {
    Some(world.held(0)?.number)
}

#[test]
fn a_run_that_was_refused_drops_the_events_not_done(rt: HostRuntime) {
    let refusals = Refusals::new();
    let tally = refusals.tally(&rt);
    let (mut world, number) = held_by_one(&rt, &refusals, &tally);
    let events = writes(&rt, &refusals, rt.alloc(), &tally);
    assert_equal(&rt, tally.living(), WRITES + 32);
    let mut seen = Vec::new(rt.alloc());
    let is_refused = world.run(events, &mut seen).is_err();
    if is_refused {
        refusals.note();
    }
    let done = seen.len();
    assert_equal(&rt, is_refused, done < WRITES);
    // What was written last is held, and lives with the page's other values alone.
    assert_equal(&rt, number_held(&world), number.checked_add(done));
    assert_equal(&rt, tally.living(), 32);
    refusals.tell(&rt);
}
