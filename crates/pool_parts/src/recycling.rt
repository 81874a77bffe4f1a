//! Types that define how their values are made and reset.
//!
//! A type needs one impl of [`Recyclable`]. Each crate of pools names its pools of such types.
ghost use Rattle.std.specs.Prelude.{◌≡◌, [], None, IfSome};

use crate::clean::Clean;
use crate::closures::{Init, Reset};
use std::alloc::Global;
use std::collections::{BTreeMap, HashMap, VecDeque};
use std::hash::Hash;

/// A value that can be used again once it is reset.
///
/// # Examples
///
/// ```rust
/// impl Recyclable for Connection {
///     ghost is_clean = { λ connection. connection.sent.items ≡ [] };
///
///     fn make(alloc: Global) -> Option<Connection> {
///         Some(Connection {
///             sent: Vec::with_capacity(alloc, 16).ok()?,
///         })
///     }
///
///     fn reset(&mut self) {
///         self.sent.clear();
///     }
/// }
/// ```
pub trait Recyclable: Drop {
    /// Nothing of an earlier use is left in the value.
    ghost is_clean: { Self → Type 0 };

    /// Makes a value, or returns `None` as a refusal, also for want of memory. Then the pull is
    /// refused with `Init`.
    fn make(alloc: Global) -> Option<Self>
        ensures { IfSome result is_clean };

    /// Makes the value clean.
    fn reset(&mut self)
        ensures { is_clean self.new };
}

/// A vector comes empty. Its room grows with its use and is kept.
impl<X: Drop> Recyclable for Vec<X> {
    ghost is_clean = { λ vector. vector.items ≡ [] };

    fn make(alloc: Global) -> Option<Vec<X>> {
        Some(Vec::new(alloc))
    }

    fn reset(&mut self) {
        self.clear();
    }
}

/// A text comes empty. Its room grows with its use and is kept.
impl Recyclable for String {
    ghost use Rattle.std.specs.Prelude.{string_bytes};

    ghost is_clean = { λ text. string_bytes text ≡ [] };

    fn make(alloc: Global) -> Option<String> {
        Some(String::new(alloc))
    }

    fn reset(&mut self) {
        self.clear();
    }
}

/// A deque comes empty. Its room grows with its use and is kept.
impl<X: Drop> Recyclable for VecDeque<X> {
    ghost is_clean = { λ deque. deque.items ≡ [] };

    fn make(alloc: Global) -> Option<VecDeque<X>> {
        Some(VecDeque::new(alloc))
    }

    fn reset(&mut self) {
        self.clear();
    }
}

/// A map comes empty. Its room grows with its use and is kept.
impl<X: Eq + Hash + Drop, Y: Drop> Recyclable for HashMap<X, Y> {
    ghost use Rattle.std.specs.HashMap.{IsEmpty};

    ghost is_clean = { λ map. IsEmpty map };

    fn make(alloc: Global) -> Option<HashMap<X, Y>> {
        Some(HashMap::new(alloc))
    }

    fn reset(&mut self) {
        self.clear();
    }
}

/// A map in order comes empty.
impl<X: Ord + Drop, Y: Drop> Recyclable for BTreeMap<X, Y> {
    ghost use Rattle.std.specs.BTreeMap.{IsEmpty};

    ghost is_clean = { λ map. IsEmpty map };

    fn make(alloc: Global) -> Option<BTreeMap<X, Y>> {
        Some(BTreeMap::new(alloc))
    }

    fn reset(&mut self) {
        self.clear();
    }
}

/// An option comes empty.
impl<X: Drop> Recyclable for Option<X> {
    ghost is_clean = { λ option. option ≡ None };

    fn make(_alloc: Global) -> Option<Option<X>> {
        Some(None)
    }

    fn reset(&mut self) {
        *self = None;
    }
}

/// A box keeps its room. Its value is reset in place.
impl<X: Recyclable> Recyclable for Box<X> {
    ghost is_clean = { λ boxed. X.is_clean boxed.value };

    fn make(alloc: Global) -> Option<Box<X>> {
        Box::new(alloc, X::make(alloc)?).ok()
    }

    fn reset(&mut self) {
        (**self).reset();
    }
}

/// Both values of a pair are made and reset, the first one first.
impl<X: Recyclable, Y: Recyclable> Recyclable for (X, Y) {
    ghost is_clean = { λ pair. X.is_clean pair.0 × Y.is_clean pair.1 };

    fn make(alloc: Global) -> Option<(X, Y)> {
        let first = X::make(alloc)?;
        let second = Y::make(alloc)?;
        Some((first, second))
    }

    fn reset(&mut self) {
        self.0.reset();
        self.1.reset();
    }
}

/// Makes and resets the values of any [`Recyclable`] type. It is the condition of their pool too: a
/// value is clean.
///
/// # Examples
///
/// ```rust
/// let pool = Pool::<Vec<u8>>::with_recycler(alloc)?;
/// ```
#[derive(Clone, Copy, Debug)]
pub struct Recycler {
    alloc: Global,
}

impl Recycler {
    /// Creates a recycler whose values are made by this allocator.
    pub fn new(alloc: Global) -> Recycler {
        Recycler { alloc }
    }
}

impl<T: Recyclable> Clean<T> for Recycler {
    ghost meets = { λ value. T.is_clean value };
}

impl<T: Recyclable> Init<T, Recycler> for Recycler {
    fn make(&self) -> Option<T> {
        T::make(self.alloc)
    }
}

impl<T: Recyclable> Reset<T, Recycler> for Recycler {
    fn reset(&self, value: &mut T) {
        value.reset();
    }
}
