//! A value that was pulled from a pool that keeps nothing.
ghost use Rattle.std.specs.Prelude.{◌≡◌};

use std::fmt::{self, Debug, Formatter, Write};
use std::marker::Model;
use std::ops::{Deref, DerefMut};

/// A pulled value, which is dropped with it. In a clause it is the value.
///
/// # Examples
///
/// ```rust
/// let mut item = NoneReusable::new(5);
/// *item = 6;
/// ```
#[derive(Drop)]
pub struct NoneReusable<T> {
    value: T,
}

impl<T> Model for NoneReusable<T> {
    ghost Value = { T };

    ghost view = { λ reusable. reusable.value };
}

impl<T> NoneReusable<T> {
    /// Creates a reusable of this value, of no pool.
    ///
    /// # Examples
    ///
    /// ```rust
    /// let mut item = NoneReusable::new(5);
    /// ```
    pub fn new(value: T) -> NoneReusable<T>
        ensures { result ≡ value }
    {
        NoneReusable { value }
    }
}

impl<T> Deref for NoneReusable<T> {
    type Target = T;

    ghost deref_gives = { λ reusable value. value ≡ reusable };

    fn deref(&self) -> &T {
        &self.value
    }
}

impl<T> DerefMut for NoneReusable<T> {
    ghost use Rattle.std.specs.Borrow.{Lends, sem};
    ghost use Rattle.none_pools.specs.contracts.none_reusable.NoneReusable.{the_row};

    ghost deref_mut_gives = { λ reusable value. value ≡ reusable };

    fn deref_mut(&mut self) -> &mut T
        ensures* writes_back { sem 𝓛 (Lends (the_row T.row) T.row self.entry result (λ value. value)) }
        ensures shows { result.now ≡ self.old }
    {
        &mut self.value
    }
}

impl<T: Debug> Debug for NoneReusable<T> {
    ghost debug_output = { λ reusable. T.debug_output reusable };

    fn fmt<W: Write>(&self, f: &mut Formatter<W>) -> fmt::Result {
        Debug::fmt(&self.value, f)
    }
}
