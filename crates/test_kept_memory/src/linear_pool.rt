//! Turns on linear pools, their buffer pools and their chains.
use crate::observer::Turns;
use crate::supply::{Buffer, Supply, refused};
use lockfree_object_pool::clean::AnyValue;
use lockfree_object_pool::closures::{Clear, Keep, WithCapacity};
use lockfree_object_pool::linear_page::Chain;
use lockfree_object_pool::page::{Allocated, PAGE_ITEMS, PullPass};
use lockfree_object_pool::{LinearObjectPool, PullError};
use object_pool_cores::buffers::BufferPool;
use std::alloc::Global;
use std::sync::{Arc, Wait};

type Pool = LinearObjectPool<Buffer, Supply, Keep>;

/// What is done in a turn.
#[derive(Drop)]
pub enum Kind {
    RefusedPools,
    RefusedPulls,
    Returns,
    Ends,
    ChainEnds,
    BufferPoolEnds,
}

/// Each kind, and how its line begins.
pub const KINDS: [(&str, Kind); 6] = [
    ("linear pools that are refused", Kind::RefusedPools),
    ("refused pulls of a linear pool", Kind::RefusedPulls),
    ("items of a linear pool", Kind::Returns),
    ("linear pools", Kind::Ends),
    ("chains", Kind::ChainEnds),
    ("buffer pools", Kind::BufferPoolEnds),
];

impl Turns for Kind {
    fn take<W: Wait + Copy>(&self, _rt: &W, alloc: Global, turns: usize) -> Option<()> {
        match self {
            Kind::RefusedPools => refused_pools(alloc, turns),
            Kind::RefusedPulls => refused_pulls(alloc, turns),
            Kind::Returns => returns(alloc, turns),
            Kind::Ends => ends(alloc, turns),
            Kind::ChainEnds => chain_ends(alloc, turns),
            Kind::BufferPoolEnds => buffer_pool_ends(alloc, turns),
        }
    }
}

fn new_pool(alloc: Global, supply: &Supply) -> Option<Arc<Pool>> {
    let pool: Pool = LinearObjectPool::new(alloc, supply.share()?, Keep).ok()?;
    Arc::new(alloc, pool).ok()
}

/// A pool's first page is refused, after any number of its items.
fn refused_pools(alloc: Global, turns: usize) -> Option<()> {
    let supply = Supply::endless(alloc)?;
    for turn in 0..turns {
        supply.end_after(turn % PAGE_ITEMS);
        let pool = Pool::new(alloc, supply.share()?, Keep);
        refused(pool, PullError::Init)?;
    }
    Some(())
}

/// A pool's second page is refused, after any number of its items.
fn refused_pulls(alloc: Global, turns: usize) -> Option<()> {
    let supply = Supply::endless(alloc)?;
    let pool = new_pool(alloc, &supply)?;
    let mut held = Vec::with_capacity(alloc, PAGE_ITEMS).ok()?;
    for _ in 0..PAGE_ITEMS {
        held.push(pool.pull().ok()?).ok()?;
    }
    pages_are_refused(&pool, &supply, turns)
}

/// Pulls are refused, each after some items of the page that it needs were made.
fn pages_are_refused(pool: &Arc<Pool>, supply: &Supply, turns: usize) -> Option<()> {
    for turn in 0..turns {
        supply.end_after(turn % PAGE_ITEMS);
        refused(pool.pull(), PullError::Init)?;
        supply.end_after(turn % PAGE_ITEMS);
        refused(pool.pull_owned(), PullError::Init)?;
    }
    Some(())
}

/// Items are pulled and returned.
fn returns(alloc: Global, turns: usize) -> Option<()> {
    let pool = new_pool(alloc, &Supply::endless(alloc)?)?;
    for _ in 0..turns {
        let _borrowed = pool.pull().ok()?;
        let _owned = pool.pull_owned().ok()?;
    }
    Some(())
}

/// A pool of three pages, whose links lie in two rows, ends with the last of its items.
fn ends(alloc: Global, turns: usize) -> Option<()> {
    let supply = Supply::endless(alloc)?;
    for _ in 0..turns {
        let pool = new_pool(alloc, &supply)?;
        let mut held = Vec::with_capacity(alloc, 2 * PAGE_ITEMS + 1).ok()?;
        for _ in 0..2 * PAGE_ITEMS + 1 {
            held.push(pool.pull_owned().ok()?).ok()?;
        }
        drop(pool);
    }
    Some(())
}

/// A chain of two pages ends.
fn chain_ends(alloc: Global, turns: usize) -> Option<()> {
    let supply = Supply::endless(alloc)?;
    for _ in 0..turns {
        let chain: Chain<Buffer, AnyValue> = Chain::new(alloc, &|| supply.buffer()).ok()?;
        grow(&chain, &supply)?;
    }
    Some(())
}

/// Takes all items of the first page, and links a second one behind it.
fn grow(chain: &Chain<Buffer, AnyValue>, supply: &Supply) -> Option<()> {
    let first = chain.first();
    let mut held = Vec::with_capacity(supply.alloc, PAGE_ITEMS).ok()?;
    for _ in 0..PAGE_ITEMS {
        held.push(first.page().alloc().ok()??).ok()?;
    }
    link(chain, supply)
}

/// Links a second page behind the first one, which is full.
fn link(chain: &Chain<Buffer, AnyValue>, supply: &Supply) -> Option<()> {
    let first = chain.first();
    let pass = PullPass::new();
    let Allocated::Full(seen) = first.page().try_alloc(&pass).ok()? else {
        return None;
    };
    first.get_or_create_next(seen, &|| supply.buffer()).ok()?;
    Some(())
}

/// Buffers of a buffer pool are pulled, written and returned, and the pool ends.
fn buffer_pool_ends(alloc: Global, turns: usize) -> Option<()> {
    for _ in 0..turns {
        let pool = BufferPool::new(alloc, WithCapacity::new(alloc, 16), Clear, 1).ok()?;
        let mut short = pool.pull().ok()?;
        let mut long = pool.pull().ok()?;
        short.append(b"short").ok()?;
        long.append(b"longer than the room that a new buffer has")
            .ok()?;
    }
    Some(())
}
