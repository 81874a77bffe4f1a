//! Turns on worlds of agents.
use crate::observer::Turns;
use crate::supply::{Buffer, Supply};
use lockfree_object_pool::closures::Keep;
use lockfree_object_pool::page::PAGE_ITEMS;
use object_pool_cores::interleave::{Event, Prepared, Seen, World};
use std::alloc::Global;
use std::sync::Wait;

/// Worlds that end.
#[derive(Drop)]
pub struct WorldEnds;

/// The only kind, and how its line begins.
pub const KINDS: [(&str, WorldEnds); 1] = [("worlds", WorldEnds)];

impl Turns for WorldEnds {
    fn take<W: Wait + Copy>(&self, _rt: &W, alloc: Global, turns: usize) -> Option<()> {
        ends(alloc, turns)
    }
}

/// A world ends with values that are home, out and written, with a page that is linked and one that
/// isn't yet, after another page lost its link.
fn ends(alloc: Global, turns: usize) -> Option<()> {
    let supply = Supply::endless(alloc)?;
    for _ in 0..turns {
        let mut world = World::new(alloc, page(&supply)?, Keep).ok()?;
        for agent in 0..PAGE_ITEMS {
            pull(&mut world, agent)?;
        }
        done(&mut world, Event::Write(0, supply.buffer()?))?;
        link_and_lose(&mut world, &supply)?;
        done(&mut world, Event::MoveHome(1))?;
        done(&mut world, Event::OrMask(1))?;
    }
    Some(())
}

/// The values of a page.
fn page(supply: &Supply) -> Option<Prepared<Buffer>> {
    Prepared::make(supply.alloc, &|| supply.buffer()).ok()
}

/// Does a step, or returns `None` if it isn't enabled or memory is refused.
pub fn done<T: Drop>(world: &mut World<T, Keep>, event: Event<T>) -> Option<()> {
    match world.step(event) {
        Seen::NotEnabled | Seen::NoMemory => None,
        _ => Some(()),
    }
}

/// An agent begins and pulls an item of the first page.
fn pull(world: &mut World<Buffer, Keep>, agent: usize) -> Option<()> {
    done(world, Event::Begin)?;
    done(world, Event::ReadMask(agent))?;
    done(world, Event::ClearBit(agent))?;
    done(world, Event::MoveOut(agent))
}

/// Three agents find the first page full and make a page each. One links its page, the next one
/// loses, and the last one stops.
fn link_and_lose(world: &mut World<Buffer, Keep>, supply: &Supply) -> Option<()> {
    let (winner, loser, last) = (PAGE_ITEMS, PAGE_ITEMS + 1, PAGE_ITEMS + 2);
    for agent in [winner, loser, last] {
        done(world, Event::Begin)?;
        done(world, Event::ReadMask(agent))?;
        done(world, Event::ReadNext(agent))?;
        done(world, Event::MakePage(agent, Ok(page(supply)?)))?;
    }
    done(world, Event::ExchangeNext(winner))?;
    match world.step(Event::ExchangeNext(loser)) {
        Seen::Lost(_) => Some(()),
        _ => None,
    }
}
