//! What a worker does with the reusables of its pool, be it a fixed, a lazy or a linear one.
ghost use Rattle.std.specs.Prelude.{◌≡◌, IfOk, IfErr};

/// A pulled value and its item, which a pool's pull returns: it lends the value, and returns the
/// item.
///
/// Its drop resets the value and returns the item. A worker of the pool does that in two steps.
pub trait Reusable<T> {
    ghost use Rattle.std.specs.Borrow.{Lends, sem};

    /// What is left of an item that was returned.
    type Note: Drop;

    /// The value.
    ghost value_of: { Self → T };

    /// The same item with another value.
    ghost with_value: { Self → T → Self };

    /// The value is one that the pool may keep: it meets the pool's condition, and `init` may make
    /// it or `reset` leave it.
    ghost keeps: { T → Type 0 };

    /// The pool's reset may leave the second value in place of the first.
    ghost leaves: { Self → T → T → Type 0 };

    /// The pool's reset may reject the value. By default it rejects none.
    ghost rejects: { Self → T → Type 0 } = { λ _ _. ⊥ };

    /// The note tells that the item was returned with its value.
    ghost is_returned: { Self → Self.Note → Type 0 };

    /// The note tells that the item's place was returned empty. By default none does.
    ghost is_emptied: { Self → Self.Note → Type 0 } = { λ _ _. ⊥ };

    /// Returns the value.
    fn value(&self) -> &T
        ensures { result.now ≡ value_of self.now };

    /// Lends the value. Whatever is written, the item stays the same.
    fn value_mut(&mut self) -> &mut T
        ensures* writes_back { sem 𝓛 (Lends Self.row T.row self.entry result (with_value self.old)) }
        ensures shows { result.now ≡ value_of self.old }
        ensures same_item { (written other : T) → with_value (with_value self.old written) other
            ≡ with_value self.old other };

    /// Resets the value as a return does. The item stays in use.
    ///
    /// # Errors
    ///
    /// The note of the item's place, which was returned empty, if the reset rejects the value.
    fn try_reset(self) -> Result<Self, Self::Note>
        ensures same_item { IfOk result (λ left. (other : T) → with_value left other
            ≡ with_value self other) }
        ensures by_reset { IfOk result (λ left. leaves self (value_of self) (value_of left)) }
        ensures keeps { IfOk result (λ left. keeps (value_of left)) }
        ensures rejected { IfErr result (λ _. rejects self (value_of self)) }
        ensures emptied { IfErr result (is_emptied self) };

    /// Returns the item with its value as it is, which the pool may keep. No reset runs.
    fn give_kept(self) -> Self::Note
        requires { keeps (value_of self) }
        ensures { is_returned self result };
}
