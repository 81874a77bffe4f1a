//! The law of the lock round a stack of kept values, and its critical sections. No value of these
//! types is made.
use crate::operation::Operation;
use history_lock::{Law, Section};
use kept_values::stack::Stack;
use pool_parts::clean::Clean;

/// A pull takes the value that was kept last.
pub struct LastKept;

impl<T, K: Clean<T>> Law<Stack<T, K>, Operation<T>> for LastKept {
    ghost use Rattle.stack_pools.specs.Sections.{Leaves};

    ghost leaves = { Leaves };
}

/// A pull.
pub struct Takes;

impl<T, K: Clean<T>> Section<Stack<T, K>, Operation<T>> for Takes {
    ghost use Rattle.stack_pools.specs.Sections.{pull_of};
    ghost use Rattle.stack_pools.specs.StackHistory.{kept_by};

    ghost adds = { λ history _. pull_of (kept_by history) };
}

/// A return.
pub struct Keeps;

impl<T, K: Clean<T>> Section<Stack<T, K>, Operation<T>> for Keeps {
    ghost use Rattle.stack_pools.specs.Sections.{return_to};

    ghost adds = { λ _ kept. return_to kept };
}

/// A count of the values.
pub struct Counts;

impl<T, K: Clean<T>> Section<Stack<T, K>, Operation<T>> for Counts {
    ghost use Rattle.stack_pools.specs.declared.operation.Operation.TheVariants.{Counted};

    ghost adds = { λ _ _. Counted };
}

/// All values go.
pub struct Clears;

impl<T, K: Clean<T>> Section<Stack<T, K>, Operation<T>> for Clears {
    ghost use Rattle.stack_pools.specs.declared.operation.Operation.TheVariants.{Cleared};

    ghost adds = { λ _ _. Cleared };
}
