//! What the pages of cores, worlds and pools take of the process's memory: about a kilobyte each.
use crate::observer::Observer;
use crate::openings::{Agents, Core, Pool, new_core, new_pool, new_world, zeros};
use crate::worlds::done;
use anyhow::Result;
use lockfree_object_pool::page::PAGE_ITEMS;
use object_pool_cores::interleave::Event;
use object_pool_cores::sequential::SequentialPool;
use std::alloc::Global;
use std::mem;
use std::rt::Files;
use std::sync::Wait;

/// How many pages there are in the end. The names of the lines tell it too.
const PAGES: usize = 1_000;

/// How many items these pages have.
const ITEMS: usize = PAGES * PAGE_ITEMS;

/// What the pages take less than: a kilobyte each.
const KILOBYTES: u64 = 1_000;

/// Observes what has pages. What one lets go, the next may use. So what has the most beside its
/// pages, the agents of a world, comes last.
///
/// # Errors
///
/// If the process's figures can't be read, or a line can't be printed.
pub fn observe<R: Files + AllocGlobal + Print + Wait + Copy>(
    alloc: Global,
    observer: &mut Observer<R>,
) -> Result<()> {
    let before = observer.before()?;
    let core = core_grows(alloc);
    observer.observe_growth(
        "1000 pages of a linear core",
        KILOBYTES,
        before,
        core.is_some(),
    )?;
    drop(core);
    let before = observer.before()?;
    let pool = pool_grows(alloc);
    observer.observe_growth(
        "1000 pages of a linear pool",
        KILOBYTES,
        before,
        pool.is_some(),
    )?;
    drop(pool);
    observe_world(alloc, observer)
}

/// A world whose agents have begun before its pages are made.
fn observe_world<R: Files + AllocGlobal + Print + Wait + Copy>(
    alloc: Global,
    observer: &mut Observer<R>,
) -> Result<()> {
    let world = agents_begin(alloc);
    let before = observer.before()?;
    let grown = match world {
        Some(world) => world_grows(alloc, world),
        None => None,
    };
    observer.observe_growth("1000 pages of a world", KILOBYTES, before, grown.is_some())
}

/// A core of which each item was pulled and never returned.
fn core_grows(alloc: Global) -> Option<Core> {
    let mut core = new_core(alloc)?;
    for _ in 0..ITEMS {
        drop(core.pull().ok()?);
    }
    if core.pages() == PAGES {
        Some(core)
    } else {
        None
    }
}

/// A pool of which each item was pulled and forgotten.
fn pool_grows(alloc: Global) -> Option<Pool> {
    let pool = new_pool(alloc)?;
    for _ in 0..ITEMS {
        mem::forget(pool.pull().ok()?);
    }
    Some(pool)
}

/// The agent that links the pages. Those before it take an item each.
const LINKER: usize = ITEMS;

/// A world in which all agents have begun, so that its table of agents grows no more.
fn agents_begin(alloc: Global) -> Option<Agents> {
    let mut world = new_world(alloc)?;
    for _ in 0..ITEMS {
        done(&mut world, Event::Begin)?;
    }
    done(&mut world, Event::Begin)?;
    Some(world)
}

/// The agents take all items of page after page, and one of them links each page.
fn world_grows(alloc: Global, mut world: Agents) -> Option<Agents> {
    for agent in 0..ITEMS {
        if agent > 0 && agent % PAGE_ITEMS == 0 {
            link(alloc, &mut world)?;
        }
        take(&mut world, agent, agent / PAGE_ITEMS)?;
    }
    if world.pages() == PAGES {
        Some(world)
    } else {
        None
    }
}

/// An agent takes an item of a page, to which a hint leads it.
fn take(world: &mut Agents, agent: usize, page: usize) -> Option<()> {
    done(world, Event::ReadMask(agent))?;
    if page > 0 {
        done(world, Event::ReadHinted(agent, page))?;
    }
    done(world, Event::ClearBit(agent))
}

/// A page is linked behind the last one, which is full.
fn link(alloc: Global, world: &mut Agents) -> Option<()> {
    done(world, Event::ReadMask(LINKER))?;
    done(world, Event::ReadNext(LINKER))?;
    done(world, Event::MakePage(LINKER, Ok(zeros(alloc)?)))?;
    done(world, Event::ExchangeNext(LINKER))
}
