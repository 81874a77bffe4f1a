//! The items that a worker keeps beside the one that came back last.
ghost use Rattle.std.specs.Prelude.{◌≡◌, ◌<◌, ◌≤◌, ◌++◌, ◌∷◌, [], IfOk, MatchOption, vec_capacity, vec_len};

use crate::spare::Spare;
use crate::worker_place::WorkerPlace;
use std::alloc::{AllocError, Global};

/// Items that a worker keeps, in the order in which they came. It asks for no memory after it is
/// made: its capacity is its room.
#[derive(Drop)]
pub(crate) struct Shelf<T: Drop, P: WorkerPlace<T>> {
    spares: Vec<Spare<T, P>>,
}

impl<T: Drop, P: WorkerPlace<T>> Shelf<T, P> {
    /// Creates an empty one with this room.
    pub(crate) fn with_room(alloc: Global, room: usize) -> Result<Shelf<T, P>, AllocError>
        ensures empty { IfOk result (λ shelf. shelf.spares.items ≡ []) }
        ensures room { IfOk result (λ shelf. vec_capacity shelf.spares ≡ room) }
    {
        let spares = Vec::with_capacity(alloc, room)?;
        Ok(Shelf { spares })
    }

    /// Puts an item behind the others, or gives it back if the room is full.
    #[inline(always)]
    pub(crate) fn put(&mut self, spare: Spare<T, P>) -> Option<Spare<T, P>>
        ensures put { MatchOption result
            (self.new.spares.items ≡ self.old.spares.items ++ spare ∷ [])
            (λ back. (back ≡ spare) × (self.new ≡ self.old)) }
        ensures full { MatchOption result (vec_len self.old.spares < vec_capacity self.old.spares)
            (λ _. vec_capacity self.old.spares ≤ vec_len self.old.spares) }
        ensures room { vec_capacity self.new.spares ≡ vec_capacity self.old.spares }
    {
        if self.spares.len() < self.spares.capacity() {
            self.spares.push_reserved(spare);
            None
        } else {
            Some(spare)
        }
    }

    /// Takes the item that came last.
    #[inline(always)]
    pub(crate) fn take_last(&mut self) -> Option<Spare<T, P>>
        ensures last { MatchOption result
            ((self.old.spares.items ≡ []) × (self.new.spares.items ≡ []))
            (λ last. self.old.spares.items ≡ self.new.spares.items ++ last ∷ []) }
        ensures room { vec_capacity self.new.spares ≡ vec_capacity self.old.spares }
    {
        self.spares.pop()
    }

    /// Returns all to the pool.
    pub(crate) fn clear(&mut self)
        ensures empty { self.new.spares.items ≡ [] }
        ensures room { vec_capacity self.new.spares ≡ vec_capacity self.old.spares }
    {
        self.spares.clear();
    }
}
