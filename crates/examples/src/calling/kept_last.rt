//! A value that a spin lock pool kept last, and the pull that comes next.
ghost use Rattle.std.specs.Prelude.{◌≡◌, ◌∷◌, Some, IfOk, IfSome};
ghost use Rattle.stack_pools.specs.StackHistory.{IsNoteOf, GoesOn, KeptLast};
ghost use Rattle.stack_pools.specs.StackPool.{stack_view};

use lockfree_object_pool::clean::AnyValue;
use lockfree_object_pool::closures::{Copied, Keep};
use lockfree_object_pool::stack_note::StackNote;
use lockfree_object_pool::{PullError, SpinLockObjectPool, SpinLockReusable};
use std::sync::Wait;

/// A pool of numbers that keeps what was written last.
type Numbers = SpinLockObjectPool<u32, Copied<u32, AnyValue>, Keep>;

/// A number of the pool.
type Number<'p, W> = SpinLockReusable<'p, u32, Copied<u32, AnyValue>, Keep, W>;

/// Has the pool keep a 7. The note's last operation is this return.
fn keep_seven<W: Wait + Copy>(rt: &W, numbers: &Numbers) -> Result<StackNote<u32>, PullError>
    ensures of_pool { IfOk result (λ note. IsNoteOf (Some (stack_view numbers.now).list) note) }
    ensures seven { IfOk result (λ note. IfSome note (λ kept. KeptLast kept.history 7)) }
{
    let mut number = numbers.pull(rt)?;
    *number = 7;
    Ok(number.give_back())
}

/// Pulls after that. If no other operation came in between, the number is the 7.
fn pull_next<'p, W: Wait + Copy>(
    rt: &W,
    numbers: &'p Numbers,
    note: StackNote<u32>,
) -> Result<Number<'p, W>, PullError>
    requires of_pool { IsNoteOf (Some (stack_view numbers.now).list) note }
    requires seven { IfSome note (λ kept. KeptLast kept.history 7) }
    ensures later { IfOk result (λ number. GoesOn note number.known) }
    ensures seven { IfOk result (λ number. IfSome note (λ kept. IfSome number.known (λ known.
        (pull : _) → known.history ≡ pull ∷ kept.history → number.value ≡ 7))) }
{
    numbers.pull_after(rt, note)
}

#[cfg(test)]
mod tests;
