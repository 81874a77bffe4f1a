//! Closures whose vectors come empty: the condition is `Empty`, and both closures are asked for it.
ghost use Rattle.std.specs.Prelude.{◌≡◌, [], IfSome, IfOk};

use lockfree_object_pool::clean::Empty;
use lockfree_object_pool::closures::{InitBy, Makes, ResetBy, Resets};
use lockfree_object_pool::{LinearObjectPool, PullError};
use std::alloc::Global;

/// Returns how long a used vector is when it comes again.
fn length_left<I: InitBy<Vec<u8>>, R: ResetBy<Vec<u8>>>(
    alloc: Global,
    init: I,
    reset: R,
) -> Result<usize, PullError>
    requires may_make { I.may_make init }
    requires makes_empty { (answer : _) → I.makes init answer → IfSome answer
        (λ made. made.items ≡ []) }
    requires may_reset { R.may_reset reset }
    requires leaves_empty { (old new : _) → R.resets reset old new → new.items ≡ [] }
    ensures comes_empty { IfOk result (λ length. length ≡ 0) }
{
    let pool: LinearObjectPool<Vec<u8>, _, _, Empty> = LinearObjectPool::new(
        alloc,
        Makes::new(init),
        Resets::new(reset),
    )?;
    pool.pull()?.extend_from_slice(b"hello")?;
    Ok(pool.pull()?.len())
}

fn none_left(alloc: Global) -> Result<usize, PullError>
    ensures comes_empty { IfOk result (λ length. length ≡ 0) }
{
    length_left(
        alloc,
        || Vec::with_capacity(alloc, 16).ok(),
        |bytes: &mut Vec<u8>| bytes.clear(),
    )
}

#[cfg(test)]
mod tests;
