//! A pool that keeps nothing: each pull makes an item, which is dropped with its reusable.
ghost use Rattle.std.specs.Prelude.{◌≡◌, Some, None, IfOk, IfErr};
ghost use Rattle.std.specs.Arc.{arc_value};
ghost use Rattle.pool_parts.specs.Answers.{Refuses};

use crate::none_reusable::NoneReusable;
use pool_parts::PullError;
use std::fmt::{self, Debug, Formatter, Write};
use std::marker::Model;
use std::sync::Arc;

/// A pool that keeps nothing, to compare other pools with. A closure makes its items. In a clause
/// it is the closure.
///
/// # Examples
///
/// ```rust
/// let pool = NoneObjectPool::new(|| Some(0u32));
/// let item = pool.pull()?; // its drop ends it
/// ```
#[derive(Drop)]
pub struct NoneObjectPool<T, I: Fn() -> Option<T>> {
    init: I,
}

impl<T, I: Fn() -> Option<T>> Model for NoneObjectPool<T, I> {
    ghost Value = { I };

    ghost view = { λ pool. pool.init };
}

impl<T, I: Fn() -> Option<T>> NoneObjectPool<T, I> {
    /// Creates a pool whose items this closure makes.
    ///
    /// # Examples
    ///
    /// ```rust
    /// let pool = NoneObjectPool::new(|| Some(0u32));
    /// ```
    pub fn new(init: I) -> NoneObjectPool<T, I>
        ensures { result ≡ init }
    {
        NoneObjectPool { init }
    }

    /// Makes an item.
    ///
    /// # Errors
    ///
    /// `Init` if `init` returns `None`.
    pub fn pull(&self) -> Result<NoneReusable<T>, PullError>
        requires callable { I.pre self.now }
        ensures made { IfOk result (λ item. I.post self.now (Some item)) }
        ensures refused { IfErr result (Refuses ⊥ (I.post self.now None) ⊥) }
    {
        match (self.init)() {
            Some(value) => Ok(NoneReusable::new(value)),
            None => Err(PullError::Init),
        }
    }

    /// Makes an item, for a pool in an `Arc`. An item needs no owner of the pool, since it isn't
    /// returned.
    ///
    /// # Errors
    ///
    /// As `pull`.
    pub fn pull_owned(self: &Arc<Self>) -> Result<NoneReusable<T>, PullError>
        requires callable { I.pre (arc_value self.now) }
        ensures made { IfOk result (λ item. I.post (arc_value self.now) (Some item)) }
        ensures refused { IfErr result (Refuses ⊥ (I.post (arc_value self.now) None) ⊥) }
    {
        self.pull()
    }
}

impl<T, I: Fn() -> Option<T>> Debug for NoneObjectPool<T, I> {
    fn fmt<W: Write>(&self, f: &mut Formatter<W>) -> fmt::Result {
        f.debug_struct("NoneObjectPool").finish_non_exhaustive()
    }
}
