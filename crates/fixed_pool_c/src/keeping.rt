//! What an open cache does: it keeps places, and returns them.
ghost use Rattle.std.specs.Prelude.{◌≡◌, ◌⊎◌, [], All, IfErr, IfOk, MatchOption};
ghost use Rattle.fixed_pool_c.specs.Caches.{HasNoRoom, IsOwedTo, IsReturnedIn, IsSameCache, KeepsNone, KeepsOrRefuses, OpensCache, PullsFurther, PullsKept, keeps, kept};
ghost use Rattle.fixed_pool_c.specs.Refusals.{IsEmpty};
ghost use Rattle.fixed_pool_c.specs.declared.answer.TheConstants.{NO_MEMORY, NO_POOL};

use crate::answer::{ALL_IN_USE, DONE, HOLDS_ONE, NO_MEMORY, NO_POOL};
use crate::open_cache::OpenCache;
use crate::open_handle::OpenHandle;
use crate::place::Place;
use crate::way::Way;
use fixed_pools::page::PAGE_ITEMS;
use pool_parts::page::inside::Holding;
use std::alloc::Global;
use std::sync::Arc;
use std::sync::atomic::Ordering::SeqCst;

impl OpenHandle {
    /// Makes a cache of the handle's pool, with this room.
    ///
    /// # Errors
    ///
    /// The answer for C.
    pub(crate) fn open_cache(
        &self,
        alloc: Global,
        room: usize,
        page: usize,
    ) -> Result<Box<OpenCache>, u32>
        ensures opens { IfOk result (λ cache. OpensCache self.now room cache.value) }
        ensures refused { IfErr result
            (λ answer. ((answer ≡ NO_POOL) × (self.now.state ≡ None)) ⊎ (answer ≡ NO_MEMORY)) }
    {
        let Some(pool) = self.pool() else {
            return Err(NO_POOL);
        };
        let Ok(pool) = Arc::try_clone(pool) else {
            return Err(NO_MEMORY);
        };
        let Ok(kept) = Vec::with_capacity(alloc, room) else {
            return Err(NO_MEMORY);
        };
        let number = self.handles.fetch_add(1, SeqCst);
        let note = pool.note();
        match Box::new(
            alloc,
            OpenCache {
                way: Way::new(number, pool.items()).beginning_at(page),
                tag: self.tag,
                pool,
                kept,
                note,
            },
        ) {
            Ok(cache) => Ok(cache),
            Err(_) => Err(NO_MEMORY),
        }
    }
}

impl OpenCache {
    /// Takes the place that came back last, if one is kept.
    #[inline(always)]
    pub(crate) fn pull_kept(&mut self, place: &mut Place) -> Option<u32>
        ensures answer { MatchOption result (KeepsNone self.old self.new place.old place.new)
            (λ answer. PullsKept answer self.old self.new place.old place.new) }
        ensures same { IsSameCache self.old self.new }
    {
        if place.after != 0 {
            return Some(HOLDS_ONE);
        }
        let _items = self.pool.items(); // a `usize`, so one more than an item's number is one
        match self.kept.pop() {
            Some(holding) => {
                place.hold(holding, self.tag);
                Some(DONE)
            }
            None => None,
        }
    }

    /// Takes a place of the pool.
    pub(crate) fn pull_further(&mut self, place: &mut Place) -> u32
        requires { IsEmpty place.old }
        ensures { PullsFurther result self.old self.new place.new }
    {
        let page = self.way.page();
        match self.pool.pull_item(page) {
            Ok(item) => {
                let items = self.pool.items();
                self.way
                    .go_on(page, item.holding.number / PAGE_ITEMS, items);
                place.hold(item.holding, self.tag);
                DONE
            }
            Err(note) => {
                place.keep(note);
                ALL_IN_USE
            }
        }
    }

    /// Keeps a place, which is empty from then on, if there is room for it.
    ///
    /// # Errors
    ///
    /// What the place held, if there is no room.
    #[inline(always)]
    pub(crate) fn keep(&mut self, place: &mut Place) -> Result<u32, Holding<()>>
        requires { IsOwedTo place.old self.old }
        ensures answer { IfOk result
            (λ answer. KeepsOrRefuses answer self.old self.new place.old place.new) }
        ensures no_room { IfErr result (HasNoRoom self.old self.new place.old place.new) }
        ensures same { IsSameCache self.old self.new }
    {
        match place.take(self.tag, self.pool.items()) {
            Ok(holding) => {
                if self.kept.len() < self.kept.capacity() {
                    self.kept.push_reserved(holding);
                    Ok(DONE)
                } else {
                    Err(holding)
                }
            }
            Err(answer) => Ok(answer),
        }
    }

    /// Returns the places that it keeps to the pool.
    pub(crate) fn flush(&mut self)
        ensures empty { kept self.new ≡ [] }
        ensures returned { All (IsReturnedIn self.new.note) (kept self.old) }
        ensures same { IsSameCache self.old self.new }
    {
        while let Some(holding) = self.kept.pop() {
            let given = self.pool.give(holding, ());
            self.pool.tell(&mut self.note, given.into_witness());
        }
    }

    /// Returns whether it keeps the place of this number.
    pub(crate) fn keeps(&self, number: usize) -> bool
        ensures { result ≡ keeps self.now number }
    {
        self.kept.iter().any(|holding| holding.number == number)
    }
}
