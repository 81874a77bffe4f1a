//! Closures as initializers and resets: two traits that every fitting closure implements, and an
//! adapter for each, which keeps what a pool has to know of it.
ghost use Rattle.std.specs.Prelude.{◌≡◌, Option, IfSome};
ghost use Rattle.std.specs.Borrow.{MutBor};

use crate::clean::Clean;
use crate::closures::{Init, Reset};
use std::marker::{Model, PhantomData};
use std::sync::Mutex;

/// A closure that makes values. Each `Fn() -> Option<T>` is one.
///
/// # Examples
///
/// ```rust
/// fn price_left<I: InitBy<Basket>, R: ResetBy<Basket>>(
///     alloc: Global,
///     init: I,
///     reset: R,
/// ) -> Result<u64, PullError>
///     requires may_make { I.may_make init }
///     requires may_reset { R.may_reset reset }
/// ```
pub trait InitBy<T>: Drop {
    /// It may be called at any time.
    ghost may_make: { Self → Type 0 };

    /// The answers that may come.
    ghost makes: { Self → Option T → Type 0 };

    /// Makes a value, or returns `None` as a refusal.
    fn make_by(&self) -> Option<T>
        requires { may_make self.now }
        ensures { makes self.now result };
}

impl<T, F: Fn() -> Option<T>> InitBy<T> for F {
    ghost may_make = { λ f. F.pre f };

    ghost makes = { λ f answer. F.post f answer };

    fn make_by(&self) -> Option<T> {
        self()
    }
}

/// A closure that resets values. Each `Fn(&mut T)` is one.
///
/// # Examples
///
/// ```rust
/// fn price_left<I: InitBy<Basket>, R: ResetBy<Basket>>(
///     alloc: Global,
///     init: I,
///     reset: R,
/// ) -> Result<u64, PullError>
///     requires may_make { I.may_make init }
///     requires may_reset { R.may_reset reset }
/// ```
pub trait ResetBy<T>: Drop {
    /// It may be called on every value.
    ghost may_reset: { Self → Type 0 };

    /// The values that the reset may leave: the old one, then the new one.
    ghost resets: { Self → T → T → Type 0 };

    /// Makes a value ready to be kept.
    fn reset_by(&self, value: &mut T)
        requires { may_reset self.now }
        ensures { resets self.now value.old value.new };
}

impl<T, F: Fn(&mut T)> ResetBy<T> for F {
    ghost may_reset = { λ f. F.IsAlwaysCallable f };

    ghost resets = { λ f old new.
        (before after : MutBor T) × F.post f before tt after × (before.now ≡ old)
        × (after.now ≡ new) };

    fn reset_by(&self, value: &mut T) {
        self(value);
    }
}

/// A closure as an [`Init`]: it may be called at any time, and each value that it makes meets the
/// condition.
///
/// # Examples
///
/// ```rust
/// let pool: LinearObjectPool<Basket, _, _> = LinearObjectPool::new(
///     alloc,
///     Makes::new(init),
///     Resets::new(reset),
/// )?;
/// ```
#[derive(Drop)]
pub struct Makes<T, F: InitBy<T>, K: Clean<T>> {
    closure: F,
    marker: PhantomData<(Mutex<T>, Mutex<K>)>,
}

impl<T, F: InitBy<T>, K: Clean<T>> Model for Makes<T, F, K> {
    ghost Value = { F };

    ghost view = { λ made. made.closure };

    ghost invariant = { λ made.
        F.may_make made.closure
        × ((answer : Option T) → F.makes made.closure answer → IfSome answer K.meets) };
}

impl<T, F: InitBy<T>, K: Clean<T>> Makes<T, F, K> {
    /// Creates an initializer that calls this closure.
    ///
    /// # Examples
    ///
    /// ```rust
    /// let pool: LinearObjectPool<Basket, _, _> = LinearObjectPool::new(
    ///     alloc,
    ///     Makes::new(init),
    ///     Resets::new(reset),
    /// )?;
    /// ```
    pub fn new(closure: F) -> Makes<T, F, K>
        requires may { F.may_make closure }
        requires makes { (answer : Option T) → F.makes closure answer → IfSome answer K.meets }
        ensures { result ≡ closure }
    {
        Makes {
            closure,
            marker: PhantomData,
        }
    }
}

impl<T, F: InitBy<T>, K: Clean<T>> Init<T, K> for Makes<T, F, K> {
    ghost answers = { λ closure answer. F.makes closure answer };

    fn make(&self) -> Option<T> {
        self.closure.make_by()
    }
}

/// A closure as a [`Reset`]: it may be called on every value, and what it leaves meets the
/// condition.
///
/// # Examples
///
/// ```rust
/// let pool: LinearObjectPool<Basket, _, _> = LinearObjectPool::new(
///     alloc,
///     Makes::new(init),
///     Resets::new(reset),
/// )?;
/// ```
#[derive(Drop)]
pub struct Resets<T, F: ResetBy<T>, K: Clean<T>> {
    closure: F,
    marker: PhantomData<(Mutex<T>, Mutex<K>)>,
}

impl<T, F: ResetBy<T>, K: Clean<T>> Model for Resets<T, F, K> {
    ghost Value = { F };

    ghost view = { λ reset. reset.closure };

    ghost invariant = { λ reset.
        F.may_reset reset.closure
        × ((old new : T) → F.resets reset.closure old new → K.meets new) };
}

impl<T, F: ResetBy<T>, K: Clean<T>> Resets<T, F, K> {
    /// Creates a reset that calls this closure.
    ///
    /// # Examples
    ///
    /// ```rust
    /// let pool: LinearObjectPool<Basket, _, _> = LinearObjectPool::new(
    ///     alloc,
    ///     Makes::new(init),
    ///     Resets::new(reset),
    /// )?;
    /// ```
    pub fn new(closure: F) -> Resets<T, F, K>
        requires may { F.may_reset closure }
        requires leaves { (old new : T) → F.resets closure old new → K.meets new }
        ensures { result ≡ closure }
    {
        Resets {
            closure,
            marker: PhantomData,
        }
    }
}

impl<T, F: ResetBy<T>, K: Clean<T>> Reset<T, K> for Resets<T, F, K> {
    ghost leaves = { λ closure old new. F.resets closure old new };

    fn reset(&self, value: &mut T) {
        self.closure.reset_by(value);
    }
}
