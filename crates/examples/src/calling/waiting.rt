ghost use Rattle.std.specs.Prelude.{◌≡◌, [], IfOk};

use lockfree_object_pool::PullError;
use lockfree_object_pool::recycling::{LazyPool, LazyPoolReusable};
use std::sync::Wait;
use std::time::{Clock, Duration};

/// Pulls an empty buffer, for which it waits a second at most.
fn buffer_in_time<'p, R: Wait + Clock>(
    rt: &R,
    pool: &'p LazyPool<Vec<u8>>,
) -> Result<LazyPoolReusable<'p, Vec<u8>>, PullError>
    ensures empty { IfOk result (λ buffer. buffer.value.items ≡ []) }
{
    pool.pull_timeout(rt, Duration::from_secs(1))
}

/// Appends to such a buffer. Returns how long it was before.
fn length_before<R: Wait + Clock>(
    rt: &R,
    pool: &LazyPool<Vec<u8>>,
    text: &[u8],
) -> Result<usize, PullError>
    ensures { IfOk result (λ length. length ≡ 0) }
{
    let mut buffer = buffer_in_time(rt, pool)?;
    let length = buffer.len();
    buffer.extend_from_slice(text)?;
    Ok(length)
}

#[cfg(test)]
mod tests;
