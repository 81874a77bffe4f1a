//! Ready-made initializers and resets for vectors, whose condition is [`Empty`].
ghost use Rattle.std.specs.Prelude.{◌≡◌, ◌≤◌, IfSome, vec_capacity};

use crate::clean::Empty;
use crate::closures::{Init, Reset};
use std::alloc::Global;

/// An initializer that makes empty vectors with room for a number of items.
///
/// If there is no memory for one it returns `None`, and the pull is refused with `Init`.
///
/// # Examples
///
/// ```rust
/// let room = WithCapacity::new(alloc, 4096);
/// let pool = LinearObjectPool::<Vec<u8>, _, _, Empty>::new(alloc, room, Clear)?;
/// ```
#[derive(Clone, Copy, Debug)]
pub struct WithCapacity {
    /// The allocator that gives the room.
    pub alloc: Global,
    /// The number of items for which each vector has room at first.
    pub capacity: usize,
}

impl WithCapacity {
    /// Creates an initializer that makes vectors with room for `capacity` items.
    ///
    /// # Examples
    ///
    /// ```rust
    /// let room = WithCapacity::new(alloc, 4096);
    /// ```
    pub fn new(alloc: Global, capacity: usize) -> WithCapacity
        ensures { result.capacity ≡ capacity }
    {
        WithCapacity { alloc, capacity }
    }
}

impl<X> Init<Vec<X>, Empty> for WithCapacity {
    ghost answers = { λ maker answer.
        IfSome answer (λ vector. maker.capacity ≤ vec_capacity vector) };

    fn make(&self) -> Option<Vec<X>> {
        Vec::with_capacity(self.alloc, self.capacity).ok()
    }
}

/// A reset that drops the items of a vector, which keeps its room.
///
/// # Examples
///
/// ```rust
/// let pool = LinearObjectPool::<Vec<u8>, _, _, Empty>::new(alloc, room, Clear)?;
/// pool.pull()?.push(5)?; // its drop empties the vector, which keeps its room
/// ```
#[derive(Clone, Copy, Debug)]
pub struct Clear;

impl<X: Drop> Reset<Vec<X>, Empty> for Clear {
    ghost leaves = { λ _ old new. vec_capacity new ≡ vec_capacity old };

    fn reset(&self, vector: &mut Vec<X>) {
        vector.clear();
    }
}
