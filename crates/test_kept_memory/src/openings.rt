//! What pools, cores, players and worlds take of the process's memory when they open: a few
//! kilobytes each.
use crate::observer::Observer;
use anyhow::Result;
use lockfree_object_pool::clean::{AnyValue, Empty};
use lockfree_object_pool::closures::{Clear, Copied, Keep, WithCapacity};
use lockfree_object_pool::page::PAGE_ITEMS;
use lockfree_object_pool::{FixedObjectPool, LazyObjectPool, LinearObjectPool};
use object_pool_cores::buffers::BufferPool;
use object_pool_cores::interleave::{Prepared, World};
use object_pool_cores::sequential::{LinearCore, Player, StackCore};
use std::alloc::Global;
use std::rt::Files;
use std::sync::Wait;

/// How many of a kind open, and stay open together. The names of the lines tell it too.
const OPENINGS: usize = 100;

/// What all of a kind take less than: about 10 kilobytes each.
const KILOBYTES: u64 = 1_024;

/// What makes the items.
pub type Zeros = Copied<u32, AnyValue>;

pub type Pool = LinearObjectPool<u32, Zeros, Keep>;

type Fixed = FixedObjectPool<u32, Zeros, Keep>;

/// Its buffers have 4,096 bytes each.
type Lazy = LazyObjectPool<Vec<u8>, WithCapacity, Clear, Empty>;

type Buffers = BufferPool<WithCapacity, Clear>;

pub type Core = LinearCore<u32, Zeros, Keep, AnyValue>;

type Stack = StackCore<u32, Zeros, Keep, AnyValue>;

pub type Agents = World<u32, Keep>;

/// What opens together, or grows.
#[derive(Drop)]
enum Kind {
    LinearCores,
    StackCores,
    Players,
    Worlds,
    LinearPools,
    FixedPools,
    BufferPools,
    LazyPool,
    Buffers,
}

/// Each kind, and how its line begins.
const KINDS: [(&str, Kind); 9] = [
    ("opening 100 linear cores", Kind::LinearCores),
    ("opening 100 stack cores", Kind::StackCores),
    ("opening 100 players", Kind::Players),
    ("opening 100 worlds", Kind::Worlds),
    ("opening 100 linear pools", Kind::LinearPools),
    ("opening 100 fixed pools", Kind::FixedPools),
    ("opening 100 buffer pools", Kind::BufferPools),
    ("opening a lazy pool of 10,000 buffers", Kind::LazyPool),
    ("a byte in each of 100 buffers", Kind::Buffers),
];

/// Observes each kind, and prints whether it takes much.
///
/// # Errors
///
/// If the process's figures can't be read, or a line can't be printed.
pub fn observe<R: Files + AllocGlobal + Print + Wait + Copy>(
    alloc: Global,
    observer: &mut Observer<R>,
) -> Result<()> {
    for (name, kind) in KINDS {
        let before = observer.before()?;
        let is_done = kind.is_done(alloc);
        observer.observe_growth(name, KILOBYTES, before, is_done)?;
    }
    Ok(())
}

impl Kind {
    /// Does it, and lets all go. Whether each call answered as it should.
    fn is_done(&self, alloc: Global) -> bool {
        match self {
            Kind::LinearCores => all_open::<Core>(alloc).is_some(),
            Kind::StackCores => all_open::<Stack>(alloc).is_some(),
            Kind::Players => all_open::<Player<u32, Stack>>(alloc).is_some(),
            Kind::Worlds => all_open::<Agents>(alloc).is_some(),
            Kind::LinearPools => all_open::<Pool>(alloc).is_some(),
            Kind::FixedPools => all_open::<Fixed>(alloc).is_some(),
            Kind::BufferPools => all_open::<Buffers>(alloc).is_some(),
            Kind::LazyPool => lazy_pool(alloc).is_some(),
            Kind::Buffers => all_grow(alloc).is_some(),
        }
    }
}

/// What opens.
trait Opens: Drop {
    fn open(alloc: Global) -> Option<Self>;
}

impl Opens for Core {
    fn open(alloc: Global) -> Option<Core> {
        new_core(alloc)
    }
}

impl Opens for Stack {
    fn open(alloc: Global) -> Option<Stack> {
        Some(StackCore::new(alloc, Copied::new(0), Keep))
    }
}

impl Opens for Player<u32, Stack> {
    fn open(alloc: Global) -> Option<Player<u32, Stack>> {
        Some(Player::new(alloc, Stack::open(alloc)?))
    }
}

impl Opens for Agents {
    fn open(alloc: Global) -> Option<Agents> {
        new_world(alloc)
    }
}

impl Opens for Pool {
    fn open(alloc: Global) -> Option<Pool> {
        new_pool(alloc)
    }
}

impl Opens for Fixed {
    fn open(alloc: Global) -> Option<Fixed> {
        FixedObjectPool::new(alloc, Copied::new(0), Keep, PAGE_ITEMS).ok()
    }
}

impl Opens for Buffers {
    fn open(alloc: Global) -> Option<Buffers> {
        BufferPool::new(alloc, WithCapacity::new(alloc, 0), Clear, 1).ok()
    }
}

/// A lazy pool, which makes none of its 40 megabytes.
fn lazy_pool(alloc: Global) -> Option<Lazy> {
    Lazy::new(alloc, WithCapacity::new(alloc, 4_096), Clear, 10_000).ok()
}

/// Many of a kind, all open at once.
fn all_open<X: Opens>(alloc: Global) -> Option<Vec<X>> {
    let mut opened = Vec::with_capacity(alloc, OPENINGS).ok()?;
    for _ in 0..OPENINGS {
        opened.push(X::open(alloc)?).ok()?;
    }
    Some(opened)
}

/// Creates a core.
pub fn new_core(alloc: Global) -> Option<Core> {
    LinearCore::new(alloc, Copied::new(0), Keep).ok()
}

/// Creates a world.
pub fn new_world(alloc: Global) -> Option<Agents> {
    World::new(alloc, zeros(alloc)?, Keep).ok()
}

/// Makes the values of a page.
pub fn zeros(alloc: Global) -> Option<Prepared<u32>> {
    Prepared::make(alloc, &zero).ok()
}

fn zero() -> Option<u32> {
    Some(0)
}

/// Creates a pool.
pub fn new_pool(alloc: Global) -> Option<Pool> {
    LinearObjectPool::new(alloc, Copied::new(0), Keep).ok()
}

/// Holds many buffers together, with a byte each, which takes a few bytes.
fn all_grow(alloc: Global) -> Option<()> {
    let pool: Buffers = BufferPool::new(alloc, WithCapacity::new(alloc, 0), Clear, 4).ok()?;
    let mut held = Vec::with_capacity(alloc, OPENINGS).ok()?;
    for _ in 0..OPENINGS {
        let mut buffer = pool.pull().ok()?;
        buffer.append(&[7]).ok()?;
        held.push(buffer).ok()?;
    }
    Some(())
}
