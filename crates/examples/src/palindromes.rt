//! Threads that look for palindromes. Each has a scratch of a pool that they share.
ghost use Rattle.std.specs.Prelude.{◌≡◌, ◌<◌, ◌↔◌, ℕ, [], length, vec_capacity, IsTrue, IsSome, IfOk, OnErr, IfSome, slice_index_or};
ghost use Rattle.examples.specs.Palindromes.{IsPalindrome, IsAnswerTo};

use lockfree_object_pool::LinearObjectPool;
use lockfree_object_pool::clean::Empty;
use lockfree_object_pool::closures::{Clear, WithCapacity};
use std::alloc::{AllocError, Global};
use std::thread;
use std::thread::Threads;

/// A pool of empty vectors of bytes.
pub type ScratchPool = LinearObjectPool<Vec<u8>, WithCapacity, Clear, Empty>;

/// Returns whether a text reads the same from its end.
///
/// # Errors
///
/// If the scratch has less room than the text, and memory is refused.
pub fn is_palindrome(text: &[u8], scratch: &mut Vec<u8>) -> Result<bool, AllocError>
    requires { scratch.old.items ≡ [] }
    ensures answer { IfOk result (λ answer. IsTrue answer ↔ IsPalindrome text.now) }
    ensures refused { OnErr result (vec_capacity scratch.old < length text.now) }
{
    scratch.extend_from_slice(text)?;
    scratch.reverse();
    Ok(scratch.as_slice() == text)
}

/// Returns the same by a scratch of the pool, or `None` if memory is refused. A short text needs
/// none.
fn answered(pool: &ScratchPool, text: &[u8]) -> Option<bool>
    ensures answer { IfSome result (λ answer. IsTrue answer ↔ IsPalindrome text.now) }
    ensures short { length text.now < 2 → IsSome result }
{
    if let [] | [_] = text {
        return Some(true);
    }
    let mut scratch = pool.pull().ok()?;
    is_palindrome(text, &mut scratch).ok()
}

/// Returns the answers to all texts, in their order: `None` if memory was refused. Each text has a
/// thread of its own.
///
/// # Errors
///
/// If there is no memory for the answers or the threads.
pub fn palindromes<R: Threads + Sync>(
    rt: &R,
    alloc: Global,
    pool: &ScratchPool,
    texts: &[Vec<u8>],
) -> Result<Vec<Option<bool>>, AllocError>
    // Each answer is the one that a single thread would give.
    ensures { IfOk result (λ answers. (i : ℕ) (d : _) (e : _) → i < length texts.now
        → IsAnswerTo (slice_index_or texts.now i d) (slice_index_or answers.items i e)) }
{
    thread::map_indices(rt, alloc, texts.len(), &|i| answered(pool, &texts[i]))
}

#[cfg(test)]
mod tests;
