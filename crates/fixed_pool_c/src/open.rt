//! How handles are made, and what an open one shows of its pool.
ghost use Rattle.std.specs.Prelude.{◌≡◌, ◌≤◌, ◌⊎◌, Some, None, MatchOption, IfSome, IfOk, IfErr};
ghost use Rattle.std.specs.Arc.{arc_value};
ghost use Rattle.fixed_pool_c.specs.Answers.{OpensOf, OpensNew, Shares, state_items};
ghost use Rattle.fixed_pool_c.specs.Shows.{state_pool};
ghost use Rattle.fixed_pool_c.specs.declared.answer.TheConstants.{NO_POOL, NO_MEMORY};
ghost use Rattle.fixed_pool_c.specs.declared.open_handle.HandleState.{HandleState as StateShown};

use crate::answer::{NO_MEMORY, NO_POOL};
use crate::open_handle::{HandleState, Idle, OpenHandle, PlacePool};
use crate::way::Way;
use fixed_pools::closures::{Copied, Keep};
use std::alloc::Global;
use std::sync::Arc;
use std::sync::atomic::AtomicUsize;
use std::sync::atomic::Ordering::SeqCst;

impl HandleState {
    /// Returns the pool's owner, whether a place is held or not.
    fn pool(&self) -> &Arc<PlacePool>
        ensures { arc_value result.now ≡ state_pool self.now }
    {
        match self {
            HandleState::Empty(idle) => &idle.pool,
            HandleState::Full(out) => out.owner(),
        }
    }
}

impl OpenHandle {
    /// Makes the first handle of a new pool of so many free places, which has this tag.
    ///
    /// # Errors
    ///
    /// `None` if memory is refused.
    pub(crate) fn first(alloc: Global, items: usize, tag: usize) -> Option<Box<OpenHandle>>
        requires { 1 ≤ items }
        ensures { IfSome result (λ held. OpensNew items tag held.value) }
    {
        let Ok(pool) = PlacePool::new(alloc, Copied::new(()), Keep, items) else {
            return None;
        };
        let Ok(pool) = Arc::new(alloc, pool) else {
            return None;
        };
        let Ok(handles) = Arc::new(alloc, AtomicUsize::new(0)) else {
            return None;
        };
        // The match is for the prover, which finds no proof of the call alone.
        match OpenHandle::open(alloc, pool, tag, handles) {
            Some(held) => Some(held),
            None => None,
        }
    }

    /// Makes a further handle of the pool, which holds no place.
    ///
    /// # Errors
    ///
    /// The answer for C.
    pub(crate) fn share(&self, alloc: Global) -> Result<Box<OpenHandle>, u32>
        ensures shares { IfOk result (λ other. Shares self.now other.value) }
        ensures refused { IfErr result
            (λ answer. ((answer ≡ NO_POOL) × (self.now.state ≡ None)) ⊎ (answer ≡ NO_MEMORY)) }
    {
        let Some(pool) = self.pool() else {
            return Err(NO_POOL);
        };
        let Ok(pool) = Arc::try_clone(pool) else {
            return Err(NO_MEMORY);
        };
        let Ok(handles) = Arc::try_clone(&self.handles) else {
            return Err(NO_MEMORY);
        };
        match OpenHandle::open(alloc, pool, self.tag, handles) {
            Some(other) => Ok(other),
            None => Err(NO_MEMORY),
        }
    }

    /// Returns how many places the pool has.
    pub(crate) fn items(&self) -> usize
        ensures { result ≡ state_items self.now.state }
    {
        match self.pool() {
            Some(pool) => pool.items(),
            None => 0,
        }
    }

    /// Returns the pool's owner.
    #[inline(always)]
    pub(crate) fn pool(&self) -> Option<&Arc<PlacePool>>
        ensures { MatchOption result (self.now.state ≡ None) (λ pool. (state : StateShown)
            × (self.now.state ≡ Some state) × (arc_value pool.now ≡ state_pool state)) }
    {
        match &self.state {
            None => None,
            Some(state) => Some(state.pool()),
        }
    }

    /// Makes a handle of this pool, which has this tag, or returns `None` if memory is refused.
    fn open(
        alloc: Global,
        pool: Arc<PlacePool>,
        tag: usize,
        handles: Arc<AtomicUsize>,
    ) -> Option<Box<OpenHandle>>
        ensures { IfSome result (λ held. OpensOf (arc_value pool) tag held.value) }
    {
        let way = Way::new(handles.fetch_add(1, SeqCst), pool.items());
        let note = pool.note();
        let state = Some(HandleState::Empty(Idle { pool, note }));
        match Box::new(
            alloc,
            OpenHandle {
                way,
                tag,
                handles,
                state,
            },
        ) {
            Ok(held) => Some(held),
            Err(_) => None,
        }
    }
}
