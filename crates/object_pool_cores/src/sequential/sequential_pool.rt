//! The calls of a sequential pool, whichever way it chooses its items.
ghost use Rattle.std.specs.Prelude.{◌≡◌, ◌∷◌, [], ◌++◌, ◌↔◌, ℕ, Option, Some, None, List, Result};
ghost use Rattle.std.specs.Prelude.{Ok, Err, IsTrue, OnErr, MatchResult, slice_get, slice_set};
ghost use Rattle.pool_parts.specs.declared.pull_error.PullError.{PullError};
ghost use Rattle.object_pool_cores.specs.declared.sequential.item.Item.{Item};
ghost use Rattle.object_pool_cores.specs.declared.sequential.attach_error.AttachError.{AttachError};
ghost use Rattle.object_pool_cores.specs.Item.{item_value, with_value};
ghost use Rattle.object_pool_cores.specs.Attach.{refused_value};
ghost use Rattle.object_pool_cores.specs.Bag.{PullsFromBag, ReturnsToBag, pulled_value};

use crate::sequential::{AttachError, Item};
use pool_parts::PullError;

/// A pool that one owner uses. Its ghost members say what it gives and takes, and its laws tie them
/// together.
///
/// # Examples
///
/// ```rust
/// let item = core.pull()?;
/// core.give(item); // drops it
/// ```
pub trait SequentialPool<T> {
    /// The step of a pull: the pool before, the answer, the pool after.
    ghost pulls: { Self → Result (Item T) PullError → Self → Type 0 };

    /// The step of a return: the pool before, the item, the pool after.
    ghost gives: { Self → Item T → Self → Type 0 };

    /// The step of an attach: the pool before, the value, the answer, the pool after.
    ghost attaches: { Self → T → Result (Item T) (AttachError T) → Self → Type 0 };

    /// The item may be given back to the pool.
    ghost owns: { Self → Item T → Type 0 };

    /// These items may be held of the pool at one time, each at its index.
    ghost together: { Self → List (Option (Item T)) → Type 0 };

    /// The bag of kept values.
    ghost kept: { Self → List T };

    /// The answers that the pool's `init` may give.
    ghost answers: { Self → Option T → Type 0 };

    /// What the pool's `reset` may make of a value.
    ghost leaves: { Self → T → T → Type 0 };

    /// Pulls an item.
    ///
    /// # Errors
    ///
    /// The cause for which the pool has none. `pulls` says when each comes, and what is left.
    fn pull(&mut self) -> Result<Item<T>, PullError>
        ensures { pulls self.old result self.new };

    /// Returns an item to the pool.
    fn give(&mut self, item: Item<T>)
        requires { owns self.old item }
        ensures { gives self.old item self.new };

    /// Makes an item of a value from outside.
    ///
    /// # Errors
    ///
    /// `Memory`, or `NotOffered` by a pool that takes no values from outside. The value comes back,
    /// and the pool is left as it was.
    fn attach(&mut self, value: T) -> Result<Item<T>, AttachError<T>>
        ensures step { attaches self.old value result self.new }
        ensures value { MatchResult result (λ item. item_value item ≡ value)
            (λ error. refused_value error ≡ value) }
        ensures err { OnErr result (self.new ≡ self.old) };

    /// Returns whether the item may be given back to this pool.
    fn is_mine(&self, item: &Item<T>) -> bool
        ensures { IsTrue result ↔ owns self.now item.now };

    /// A pull takes from the bag of kept values, or finds it empty.
    ghost pull_from_bag: { (old new : Self) (answer : Result (Item T) PullError)
        → pulls old answer new
        → PullsFromBag (answers old) (kept old) (pulled_value answer) (kept new) };

    /// A return adds to the bag what `reset` left, or drops the item.
    ghost return_to_bag: { (old new : Self) (item : Item T) → owns old item → gives old item new
        → ReturnsToBag (leaves old) (kept old) (item_value item) (kept new) };

    /// An attach leaves the bag as it was.
    ghost attach_beside_bag: { (old new : Self) (value : T)
        (answer : Result (Item T) (AttachError T))
        → attaches old value answer new → kept new ≡ kept old };

    /// If no items are held, they may be held together.
    ghost together_at_first: { (pool : Self) → together pool [] };

    /// Items that are held together are each the pool's own.
    ghost together_is_owned: { (pool : Self) (held : List (Option (Item T))) (index : ℕ)
        (item : Item T)
        → together pool held → slice_get held index ≡ Some (Some item) → owns pool item };

    /// A pulled item may be held with the others, and so on after each other step.
    ghost together_after_pull: { (old new : Self) (held : List (Option (Item T))) (item : Item T)
        → together old held → pulls old (Ok item) new → together new (held ++ Some item ∷ []) };

    ghost together_after_refusal: { (old new : Self) (held : List (Option (Item T)))
        (cause : PullError)
        → together old held → pulls old (Err cause) new → together new held };

    ghost together_after_attach: { (old new : Self) (held : List (Option (Item T))) (value : T)
        (item : Item T) → together old held → attaches old value (Ok item) new
        → together new (held ++ Some item ∷ []) };

    ghost together_after_give: { (old new : Self) (held : List (Option (Item T))) (index : ℕ)
        (item : Item T)
        → together old held → slice_get held index ≡ Some (Some item) → gives old item new
        → together new (slice_set held index None) };

    ghost together_after_forget: { (pool : Self) (held : List (Option (Item T))) (index : ℕ)
        → together pool held → together pool (slice_set held index None) };

    ghost together_after_write: { (pool : Self) (held : List (Option (Item T))) (index : ℕ)
        (item : Item T) (value : T)
        → together pool held → slice_get held index ≡ Some (Some item)
        → together pool (slice_set held index (Some (with_value item value))) };
}
