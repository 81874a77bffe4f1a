//! A cache as C has it.
ghost use Rattle.std.specs.Prelude.{◌≡◌, Option, Some, None, MatchOption};
ghost use Rattle.fixed_pool_c.specs.CacheOwns.{cache_owns};
ghost use Rattle.fixed_pool_c.specs.Shows.{final_note_of};
ghost use Rattle.fixed_pool_c.specs.declared.open_cache.OpenCache.{OpenCache};
ghost use Rattle.fixed_pool_c.specs.declared.open_handle.FinalNote.{FinalNote};

use crate::open_cache::OpenCache;
use crate::open_handle::FinalNote;
use crate::raw_box::RawBox;
use fixed_pools::fixed_object_pool::PoolNote;
use std::alloc::Global;
use std::marker::Model;
use std::mem::{ManuallyDrop, replace};
use std::ptr::null_mut;

/// An open cache, which is a pointer to what it has, or an empty one, which is null.
///
/// It isn't `Drop`, so each is closed by `take` and none is dropped silently.
#[repr(C)]
pub struct Cache {
    at: *mut u8,
    alloc: Global,
    pub ghost held: { Option OpenCache },
    pub ghost final_note: { Option FinalNote },
}

impl Model for Cache {
    ghost also_owns = { λ cache. cache_owns cache.alloc cache.at cache.held cache.final_note };
}

impl Cache {
    fn empty(alloc: Global) -> Cache
        ensures { result.held ≡ None }
    {
        Cache {
            at: null_mut(),
            alloc,
        }
    }

    /// Makes a cache that is closed. It is empty, and keeps the note of its last operation.
    fn closed(alloc: Global, last: FinalNote) -> Cache
        ensures { (result.held ≡ None) × (result.final_note ≡ Some last) }
    {
        let FinalNote { note: _ } = last;
        Cache {
            at: null_mut(),
            alloc,
        }
    }

    fn of(raw: RawBox<OpenCache, Global>) -> Cache
        ensures { result.held ≡ Some raw.value }
    {
        let RawBox { at, alloc } = raw;
        Cache {
            at: at as *mut u8,
            alloc,
        }
    }

    fn into_raw(self) -> Option<RawBox<OpenCache, Global>>
        ensures { MatchOption result (self.held ≡ None) (λ raw. self.held ≡ Some raw.value) }
    {
        let Cache { at, alloc } = self;
        if at.is_null() {
            None
        } else {
            Some(RawBox {
                at: at as *mut OpenCache,
                alloc,
            })
        }
    }

    /// Takes out what an open cache has, which is empty from then on.
    #[inline(always)]
    pub(crate) fn take(&mut self, alloc: Global) -> Option<Box<OpenCache>>
        ensures taken { MatchOption result (self.old.held ≡ None)
            (λ held. self.old.held ≡ Some held.value) }
        ensures empty { self.new.held ≡ None }
    {
        match replace(self, Cache::empty(alloc)).into_raw() {
            Some(raw) => Some(raw.into_box()),
            None => None,
        }
    }

    /// Closes the cache, which is empty, for good. It keeps the note.
    #[inline(always)]
    pub(crate) fn close(&mut self, alloc: Global, note: PoolNote<()>)
        requires { self.old.held ≡ None }
        ensures empty { self.new.held ≡ None }
        ensures final_note { self.new.final_note ≡ Some (final_note_of note) }
    {
        let last = FinalNote {
            note: ManuallyDrop::new(note),
        };
        match replace(self, Cache::closed(alloc, last)).into_raw() {
            None => {}
            Some(_) => unreachable!(),
        }
    }

    /// Opens the cache, which is empty.
    #[inline(always)]
    pub(crate) fn put(&mut self, held: Box<OpenCache>)
        requires { self.old.held ≡ None }
        ensures { self.new.held ≡ Some held.value }
    {
        match replace(self, Cache::of(RawBox::of(held))).into_raw() {
            None => {}
            Some(_) => unreachable!(),
        }
    }
}

unsafe impl Send for Cache {}
