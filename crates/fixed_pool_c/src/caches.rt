//! The calls for C on caches. A cache keeps places that came back, and hands them out again without
//! a step on their pool.
ghost use Rattle.std.specs.Prelude.{◌≡◌, None, Some, IfSome};
ghost use Rattle.fixed_pool_c.specs.Caches.{IsCacheDropAnswer, IsCacheFlushAnswer, IsCacheNewAnswer, IsCachePullAnswer, IsCacheReturnAnswer, IsOwedTo, KeepsReturn, PullsFurther, cache_keeps, cache_pool};
ghost use Rattle.fixed_pool_c.specs.Kept.{IsOfPool};
ghost use Rattle.fixed_pool_c.specs.Refusals.{IsEmpty};
ghost use Rattle.fixed_pool_c.specs.declared.answer.TheConstants.{DONE};
ghost use Rattle.fixed_pool_c.specs.declared.open_cache.OpenCache.{OpenCache as CacheShown};
ghost use Rattle.fixed_pools.specs.FixedPool.{fixed_view};

use crate::answer::{DONE, HAS_POOL, NO_POOL};
use crate::cache::Cache;
use crate::handle::Handle;
use crate::open_cache::OpenCache;
use crate::place::Place;
use pool_parts::page::inside::Holding;
use std::alloc::Global;

/// Makes a cache of the handle's pool with room for so many places. Its pulls from the pool begin
/// at this page of 32 places, counted round and round. It goes to `out`, which was empty.
///
/// # Errors
///
/// `HAS_POOL`, `NO_POOL` or `NO_MEMORY`. `out` is as before.
#[unsafe(no_mangle)]
pub extern "C" fn kdr_cache_new(
    alloc: Global,
    handle: &mut Handle,
    room: usize,
    page: usize,
    out: &mut Cache,
) -> u32
    ensures answer { IsCacheNewAnswer result room handle.old.held out.old.held out.new.held }
    ensures same { handle.new.held ≡ handle.old.held }
{
    if let Some(before) = out.take(alloc) {
        out.put(before);
        return HAS_POOL;
    }
    let Some(held) = handle.take(alloc) else {
        return NO_POOL;
    };
    let made = held.open_cache(alloc, room, page);
    handle.put(held);
    match made {
        Ok(cache) => {
            out.put(cache);
            DONE
        }
        Err(answer) => answer,
    }
}

/// Takes the place that came back last, or a place of the pool if the cache keeps none.
///
/// # Errors
///
/// `ALL_IN_USE`, `HOLDS_ONE` or `NO_POOL`. `place` keeps its number.
#[unsafe(no_mangle)]
pub extern "C" fn kdr_cache_pull(alloc: Global, cache: &mut Cache, place: &mut Place) -> u32
    ensures { IsCachePullAnswer result cache.old.held cache.new.held place.old place.new }
{
    let Some(mut held) = cache.take(alloc) else {
        return NO_POOL;
    };
    match held.pull_kept(place) {
        Some(answer) => {
            cache.put(held);
            answer
        }
        None => pull_further(cache, held, place),
    }
}

/// Takes a place of the pool, for a cache that was taken apart and keeps none.
///
/// It is the last call of a pull, so that a pull of a kept place saves no registers.
#[cold]
#[inline(never)]
fn pull_further(cache: &mut Cache, mut held: Box<OpenCache>, place: &mut Place) -> u32
    requires closed { cache.old.held ≡ None }
    requires empty { IsEmpty place.old }
    ensures { (later : CacheShown) × (cache.new.held ≡ Some later)
        × PullsFurther result held.value later place.new }
{
    let answer = held.pull_further(place);
    cache.put(held);
    answer
}

/// Keeps a place, which is empty from then on, or returns it to the pool if the cache has no room.
///
/// # Errors
///
/// `HOLDS_NONE`, `OTHER_POOL`, `NO_SUCH_PLACE` or `NO_POOL`. `place` is as before.
#[unsafe(no_mangle)]
pub extern "C" fn kdr_cache_return(alloc: Global, cache: &mut Cache, place: &mut Place) -> u32
    requires { IfSome cache.old.held (IsOwedTo place.old) }
    ensures { IsCacheReturnAnswer result cache.old.held cache.new.held place.old place.new }
{
    let Some(mut held) = cache.take(alloc) else {
        return NO_POOL;
    };
    match held.keep(place) {
        Ok(answer) => {
            cache.put(held);
            answer
        }
        Err(holding) => give_back(cache, held, holding, place),
    }
}

/// Returns a place to the pool, for a cache that was taken apart and has no room for it.
///
/// It is the last call of a return, so that a return that keeps its place saves no registers.
#[cold]
#[inline(never)]
fn give_back(
    cache: &mut Cache,
    held: Box<OpenCache>,
    holding: Holding<()>,
    place: &mut Place,
) -> u32
    requires closed { cache.old.held ≡ None }
    requires of_pool { IsOfPool (fixed_view (cache_pool held.value)).identity holding }
    ensures done { result ≡ DONE }
    ensures same { cache.new.held ≡ Some held.value }
    ensures returned { KeepsReturn holding place.new }
{
    place.keep(held.pool.give(holding, ()));
    cache.put(held);
    DONE
}

/// Returns the places that the cache keeps to their pool.
///
/// # Errors
///
/// `NO_POOL`.
#[unsafe(no_mangle)]
pub extern "C" fn kdr_cache_flush(alloc: Global, cache: &mut Cache) -> u32
    ensures { IsCacheFlushAnswer result cache.old.held cache.new.held }
{
    let Some(mut held) = cache.take(alloc) else {
        return NO_POOL;
    };
    held.flush();
    cache.put(held);
    DONE
}

/// Closes the cache, which is empty from then on. The places that it keeps are returned.
///
/// # Errors
///
/// `NO_POOL`.
#[unsafe(no_mangle)]
pub extern "C" fn kdr_cache_drop(alloc: Global, cache: &mut Cache) -> u32
    ensures { IsCacheDropAnswer result cache.old.held cache.new.held cache.new.final_note }
{
    let Some(mut open) = cache.take(alloc) else {
        return NO_POOL;
    };
    open.flush();
    let OpenCache {
        way: _way,
        tag: _tag,
        pool: _pool,
        kept: _kept,
        note,
    } = Box::into_inner(open);
    cache.close(alloc, note);
    DONE
}

/// Returns whether the cache keeps a place of this number, and its pool has this tag.
#[unsafe(no_mangle)]
pub extern "C" fn kdr_cache_keeps(
    alloc: Global,
    cache: &mut Cache,
    number: usize,
    tag: usize,
) -> bool
    ensures keeps { result ≡ cache_keeps cache.old.held number tag }
    ensures same { cache.new.held ≡ cache.old.held }
{
    let Some(held) = cache.take(alloc) else {
        return false;
    };
    let keeps = held.tag == tag && held.keeps(number);
    cache.put(held);
    keeps
}
