//! Ready-made initializers and resets.
ghost use Rattle.std.specs.Prelude.{◌≡◌, ⊤, Some, IsSomeAnd};

use crate::clean::{AnyValue, Clean};
use crate::closures::{Init, Reset};
use std::marker::{Model, PhantomData};
use std::sync::Mutex;

/// A reset that changes nothing.
///
/// # Examples
///
/// ```rust
/// let pool = LinearObjectPool::<u32, _, _>::new(alloc, Copied::new(0), Keep)?;
/// ```
#[derive(Clone, Copy, Debug)]
pub struct Keep;

impl<T> Reset<T, AnyValue> for Keep {
    ghost leaves = { λ _ old new. new ≡ old };

    fn reset(&self, value: &mut T) {
        let _ = value;
    }
}

/// A reset that changes nothing, of a type whose every value meets the condition.
///
/// # Examples
///
/// ```rust
/// let kept = Kept::<u32, AnyValue>::new(); // each value meets this condition
/// let pool = LinearObjectPool::<u32, _, _>::new(alloc, Copied::new(0), kept)?;
/// ```
#[derive(Drop)]
pub struct Kept<T, K: Clean<T>> {
    marker: PhantomData<(Mutex<T>, Mutex<K>)>,
}

impl<T, K: Clean<T>> Model for Kept<T, K> {
    ghost Value = { ⊤ };

    ghost view = { λ _. tt };

    ghost invariant = { λ _. (value : T) → K.meets value };
}

impl<T, K: Clean<T>> Kept<T, K> {
    /// Creates the reset of such a type.
    ///
    /// # Examples
    ///
    /// ```rust
    /// let kept = Kept::<u32, AnyValue>::new(); // each value meets this condition
    /// ```
    pub fn new() -> Kept<T, K>
        requires { (value : T) → K.meets value }
    {
        Kept {
            marker: PhantomData,
        }
    }
}

impl<T, K: Clean<T>> Reset<T, K> for Kept<T, K> {
    ghost leaves = { λ _ old new. new ≡ old };

    fn reset(&self, value: &mut T) {
        let _ = &self.marker; // a look at a field shows the invariant of `Kept`
        let _ = value;
    }
}

/// An initializer that makes values by their type's `Default`. It never refuses.
///
/// # Examples
///
/// ```rust
/// type Counters = FixedObjectPool<u32, ByDefault, Copied<u32, AnyValue>>;
/// ```
#[derive(Clone, Copy, Debug)]
pub struct ByDefault;

impl<T: Default> Init<T, AnyValue> for ByDefault {
    ghost answers = { λ _ answer. IsSomeAnd answer T.is_default };

    fn make(&self) -> Option<T> {
        Some(T::default())
    }
}

/// A value that meets the condition and is copied: each new item is a copy of it, and a reset
/// leaves a copy.
///
/// # Examples
///
/// ```rust
/// let pool = FixedObjectPool::<u32, _, _>::new(alloc, Copied::new(0), Copied::new(0), 8)?;
/// ```
#[derive(Drop)]
pub struct Copied<T, K: Clean<T>> {
    value: T,
    marker: PhantomData<(Mutex<T>, Mutex<K>)>,
}

impl<T, K: Clean<T>> Model for Copied<T, K> {
    ghost Value = { T };

    ghost view = { λ copied. copied.value };

    ghost invariant = { λ copied. K.meets copied.value };
}

impl<T: Copy, K: Clean<T>> Copied<T, K> {
    /// Creates an initializer and reset that copies this value.
    ///
    /// # Examples
    ///
    /// ```rust
    /// let pool = FixedObjectPool::<u32, _, _>::new(alloc, Copied::new(0), Copied::new(0), 8)?;
    /// ```
    pub fn new(value: T) -> Copied<T, K>
        requires { K.meets value }
        ensures { result ≡ value }
    {
        Copied {
            value,
            marker: PhantomData,
        }
    }
}

impl<T: Copy, K: Clean<T>> Init<T, K> for Copied<T, K> {
    ghost answers = { λ copied answer. answer ≡ Some copied };

    fn make(&self) -> Option<T> {
        Some(self.value)
    }
}

impl<T: Copy, K: Clean<T>> Reset<T, K> for Copied<T, K> {
    ghost leaves = { λ copied _ new. new ≡ copied };

    fn reset(&self, value: &mut T) {
        *value = self.value;
    }
}
