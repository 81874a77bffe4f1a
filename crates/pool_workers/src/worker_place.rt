//! Where a worker pulls.
ghost use Rattle.std.specs.Prelude.{IfOk, IfErr};
ghost use Rattle.pool_parts.specs.declared.pull_error.PullError.{PullError};

use pool_parts::PullError;
use pool_parts::reusable::Reusable;

/// A place at which a worker pulls: that of a fixed or of a lazy pool, as their `near` returns it,
/// or a borrow of a linear pool.
pub trait WorkerPlace<T>: Drop {
    ghost use Rattle.pool_workers.specs.Workers.{WasPulled};

    /// What the pool's own pull returns. A worker keeps these.
    type Item: Reusable<T>;

    /// A pull of its pool gave the item as it is.
    ghost is_pulled: { Self.Item → Type 0 };

    /// The pool may refuse a pull with this.
    ghost refuses: { Self → PullError → Type 0 };

    /// Pulls an item.
    fn pull(&self) -> Result<Self::Item, PullError>
        ensures pulled { IfOk result (WasPulled Self.Item.Reusable.with_value is_pulled) }
        ensures keeps { IfOk result
            (λ item. Self.Item.Reusable.keeps (Self.Item.Reusable.value_of item)) }
        ensures refused { IfErr result (refuses self.now) };

    /// Returns whether the pool was closed, and so is to keep nothing. By default it never is.
    #[inline(always)]
    fn is_closed(&self) -> bool {
        false
    }
}
