//! Initializers and resets: what makes a pool's values, and what makes them ready for the next use.
//!
//! A pool's type is bounded by [`Init`] and [`Reset`]. Their contracts carry the facts that a
//! reusable's drop can't require of anyone. [`ByDefault`], [`Copied`], [`Keep`], [`Kept`],
//! [`WithCapacity`] and [`Clear`] are ready-made. A type of your own implements the traits
//! directly. Closures go through [`Makes`] and [`Resets`], in code that is generic in [`InitBy`]
//! and [`ResetBy`]. A type that defines how its values are made and reset implements `Recyclable`,
//! which is defined with the pools.
ghost use Rattle.std.specs.Prelude.{⊤, Option, IfSome, MatchOption};

use crate::clean::Clean;

mod by_closure;
mod ready;
mod vectors;

pub use by_closure::{InitBy, Makes, ResetBy, Resets};
pub use ready::{ByDefault, Copied, Keep, Kept};
pub use vectors::{Clear, WithCapacity};

/// An initializer, which makes the values of a pool. `None` is a refusal.
///
/// # Examples
///
/// ```rust
/// impl Init<Ticket, Unused> for Press {
///     fn make(&self) -> Option<Ticket> {
///         if self.made.fetch_add(1, SeqCst) < 40 {
///             Some(Ticket { uses: 0 })
///         } else {
///             None
///         }
///     }
/// }
/// ```
pub trait Init<T, K: Clean<T>>: Drop {
    /// The answers that may come. By default any answer that meets the condition may.
    ghost answers: { Self → Option T → Type 0 } = { λ _ _. ⊤ };

    /// Makes a value, or returns `None` as a refusal, also for want of memory. Then the pull is
    /// refused with `Init`.
    fn make(&self) -> Option<T>
        ensures answer { answers self.now result }
        ensures meets { IfSome result K.meets };
}

/// A reset, which makes a value ready to be kept after its use.
///
/// # Examples
///
/// ```rust
/// impl Reset<Ticket, Unused> for Renew {
///     fn reset(&self, ticket: &mut Ticket) {
///         ticket.uses = 0;
///     }
/// }
/// ```
pub trait Reset<T, K: Clean<T>>: Drop {
    /// The values that the reset may leave: the old one, then the new one. By default it may leave
    /// any value that meets the condition.
    ghost leaves: { Self → T → T → Type 0 } = { λ _ _ _. ⊤ };

    /// The values that `try_reset` may reject. By default it rejects none.
    ghost rejects: { Self → T → Type 0 } = { λ _ _. ⊥ };

    /// Makes a value ready to be kept.
    fn reset(&self, value: &mut T)
        ensures leaves { leaves self.now value.old value.new }
        ensures meets { K.meets value.new };

    /// Makes a value ready to be kept, or rejects it by `None`. By default it calls `reset`, and
    /// rejects none.
    ///
    /// The lazy and the stack pools call it at each return, and don't keep a rejected value. Its
    /// place in a lazy pool is empty, and a later pull makes another value. The linear and the
    /// fixed pools call `reset`.
    ///
    /// # Examples
    ///
    /// ```rust
    /// fn try_reset(&self, mut session: Session) -> Option<Session> {
    ///     if session.is_broken {
    ///         return None; // it is dropped, and a later pull makes another one
    ///     }
    ///     self.reset(&mut session);
    ///     Some(session)
    /// }
    /// ```
    #[inline(always)]
    fn try_reset(&self, value: T) -> Option<T>
        ensures { MatchOption result (rejects self.now value)
            (λ new. leaves self.now value new × K.meets new) }
    {
        let mut left = value;
        self.reset(&mut left);
        Some(left)
    }
}
