//! Pools of types that say themselves how they are made and reset, each beside the linear core: a
//! recyclable number, and buffers.
ghost use Rattle.std.specs.Prelude.{⊤};

use crate::answer::Stopped;
use crate::comparison::{compare_ends, compare_openings, play};
use crate::figures::Figures;
use crate::maker::traced;
use crate::pools::{OnLinear, refuse_opening};
use crate::session::Session;
use crate::side::{Ask, OnCore, Pulled, Side, number_of};
use crate::tallies::Tallies;
use crate::tally::SideTally;
use crate::value::Value;
use lockfree_object_pool::PullError;
use lockfree_object_pool::closures::{Init, Reset};
use lockfree_object_pool::recycling::{Pool, Recyclable, Recycler};
use object_pool_cores::buffers::{Buffer, BufferPool, Empty};
use object_pool_cores::sequential::LinearCore;
use std::alloc::{AllocError, Global};
use std::marker::PhantomData;
use std::sync::Arc;

/// A number that says itself how it is made and reset. Each reset leaves a trace.
#[derive(Drop)]
pub struct Recycled {
    number: u64,
}

impl Recyclable for Recycled {
    ghost is_clean = { λ _. ⊤ };

    fn make(_alloc: Global) -> Option<Recycled> {
        Some(Recycled { number: 1 })
    }

    fn reset(&mut self) {
        self.number = traced(self.number);
    }
}

impl Value for Recycled {
    fn new(_tally: &Arc<SideTally>, number: u64) -> Option<Recycled> {
        Some(Recycled { number })
    }

    fn content(&self) -> u64 {
        self.number
    }

    fn write(&mut self, content: u64) {
        self.number = content;
    }
}

/// Does the session's calls on a pool of recyclable numbers, without a limit.
///
/// # Errors
///
/// `Stopped` if the two sides differ, or memory is refused.
pub fn compare_recycled(alloc: Global, session: Session) -> Result<Figures, Stopped> {
    let tallies = Tallies::new(alloc)?;
    let pool = Pool::<Recycled>::with_recycler(alloc);
    let recycler = Recycler::new(alloc);
    let core: Result<LinearCore<Recycled, Recycler, Recycler, Recycler>, PullError> =
        LinearCore::new(alloc, recycler, recycler);
    let Some((pool, core)) = compare_openings(&tallies, pool, core)? else {
        return Ok(Figures::default());
    };
    let pool = Arc::new(alloc, pool)?;
    let linear = OnLinear { pool: &pool };
    let ended = play(alloc, linear, OnCore::new(core), session, tallies, 0)?;
    drop(pool);
    compare_ends(ended)
}

/// Makes empty buffers, and refuses where its tally says so.
#[derive(Drop)]
struct NewBuffers {
    alloc: Global,
    tally: Arc<SideTally>,
}

impl Init<Vec<u8>, Empty> for NewBuffers {
    fn make(&self) -> Option<Vec<u8>> {
        let _number = self.tally.next_number()?;
        Some(Vec::new(self.alloc))
    }
}

/// Counts the resets, and leaves each buffer empty.
#[derive(Drop)]
struct Empties {
    tally: Arc<SideTally>,
}

impl Reset<Vec<u8>, Empty> for Empties {
    fn reset(&self, value: &mut Vec<u8>) {
        self.tally.count_reset();
        value.clear();
    }
}

fn closures(alloc: Global, tally: &Arc<SideTally>) -> Result<(NewBuffers, Empties), AllocError> {
    let init = NewBuffers {
        alloc,
        tally: Arc::try_clone(tally)?,
    };
    let reset = Empties {
        tally: Arc::try_clone(tally)?,
    };
    Ok((init, reset))
}

/// A number that tells the bytes of a buffer.
fn told(bytes: &[u8]) -> u64 {
    let mut told = 7u64;
    for &byte in bytes {
        told = told.wrapping_mul(31).wrapping_add(u64::from(byte));
    }
    told
}

impl Value for Vec<u8> {
    fn new(_tally: &Arc<SideTally>, _number: u64) -> Option<Vec<u8>> {
        None
    }

    fn content(&self) -> u64 {
        told(self.as_slice())
    }

    /// Puts the number's bytes behind those that are there, as far as there is memory.
    fn write(&mut self, content: u64) {
        let _appended = self.extend_from_slice(&content.to_le_bytes()).is_ok();
    }
}

impl<I: Init<Vec<u8>, Empty>, R: Reset<Vec<u8>, Empty>> Pulled for Buffer<'_, I, R> {
    fn shown(&self) -> u64 {
        told(self.as_slice())
    }

    fn overwrite(&mut self, content: u64) {
        let _appended = self.append(&content.to_le_bytes()).is_ok();
    }

    fn number(&self) -> Option<u128> {
        Some(number_of(self.page_number(), self.page_id()))
    }
}

/// A pool of buffers, which it gives under a borrow alone. Its parameter stands for nothing: the
/// checker refuses the impl without one.
#[derive(Drop)]
struct OnBuffers<'p, V> {
    pool: &'p BufferPool<NewBuffers, Empties>,
    marker: PhantomData<V>,
}

impl<'p, V: Copy> Side for OnBuffers<'p, V> {
    type Item = Buffer<'p, NewBuffers, Empties>;

    fn give(&mut self, _ask: Ask, _tally: &Arc<SideTally>) -> Result<Self::Item, PullError> {
        self.pool.pull()
    }
}

/// Does the session's calls on a buffer pool, which always has a limit.
///
/// # Errors
///
/// `Stopped` if the two sides differ, or memory is refused.
pub fn compare_buffers(alloc: Global, session: Session) -> Result<Figures, Stopped> {
    let tallies = Tallies::new(alloc)?;
    refuse_opening(&tallies, session);
    let pages = session.limit.unwrap_or(70).max(1);
    let (init, reset) = closures(alloc, &tallies.running)?;
    let pool = BufferPool::new(alloc, init, reset, pages);
    let (init, reset) = closures(alloc, &tallies.core)?;
    let core: Result<LinearCore<Vec<u8>, NewBuffers, Empties, Empty>, PullError> =
        LinearCore::with_limit(alloc, init, reset, pages);
    let Some((pool, core)) = compare_openings(&tallies, pool, core)? else {
        return Ok(Figures::default());
    };
    let buffers = OnBuffers::<u8> {
        pool: &pool,
        marker: PhantomData,
    };
    let ended = play(alloc, buffers, OnCore::new(core), session, tallies, 0)?;
    drop(pool);
    compare_ends(ended)
}
