//! A pool of byte buffers of so many pages at most, which threads share without a lock.
//!
//! A pulled buffer is empty, whatever was done with it before, and it returns to its pool when it
//! is dropped.
ghost use Rattle.std.specs.Prelude.{◌≡◌, ◌≤◌, ◌<◌, [], None, Some, IfOk, IfErr, IsSome, IfSome, ⊤};
ghost use Rattle.std.specs.Prelude.{vec_capacity};

use linear_pools::LinearObjectPool;
use pool_parts::PullError;
use pool_parts::clean::Clean;
use pool_parts::closures::{Init, Reset};
use std::alloc::Global;
use std::fmt::{self, Debug, Formatter, Write};

mod buffer;

pub use buffer::Buffer;
/// The condition that each buffer meets while it lies in its pool: it has no bytes.
pub use pool_parts::clean::Empty;
pub use pool_parts::closures::{Clear, WithCapacity};

/// Makes an empty buffer with room for `capacity` bytes.
///
/// # Errors
///
/// `None` if there is no memory for it.
///
/// # Examples
///
/// ```rust
/// let mut bytes = fresh(alloc, 512).expect(&rt, "memory is left");
/// bytes.push(5)?;
/// clear(&mut bytes);
/// ```
pub fn fresh(alloc: Global, capacity: usize) -> Option<Vec<u8>>
    ensures empty { IfSome result (λ bytes. bytes.items ≡ []) }
    ensures room { IfSome result (λ bytes. capacity ≤ vec_capacity bytes) }
{
    WithCapacity::new(alloc, capacity).make()
}

/// Leaves a buffer empty, with the room that it had.
pub fn clear(bytes: &mut Vec<u8>)
    ensures empty { bytes.new.items ≡ [] }
    ensures room { vec_capacity bytes.new ≡ vec_capacity bytes.old }
{
    Clear.reset(bytes);
}

/// A pool of byte buffers. Its initializer and its reset leave each one empty.
///
/// # Examples
///
/// ```rust
/// let pool = BufferPool::new(alloc, WithCapacity::new(alloc, 512), Clear, 4)?;
/// let mut buffer = pool.pull()?;
/// buffer.append(b"hello")?;
/// ```
///
/// `T` and `K` are always as they stand here. They are parameters since a type with a pool in it is
/// checked only so.
#[derive(Drop)]
pub struct BufferPool<I: Init<T, K>, R: Reset<T, K>, T = Vec<u8>, K: Clean<T> = Empty> {
    pool: LinearObjectPool<T, I, R, K>,
}

impl<I: Init<Vec<u8>, Empty>, R: Reset<Vec<u8>, Empty>> BufferPool<I, R> {
    ghost use Rattle.pool_parts.specs.Answers.{Refuses};
    ghost use Rattle.object_pool_cores.specs.Buffers.{maker_of, limit_of_pages, bytes_of, page_of};
    ghost use Rattle.object_pool_cores.specs.Buffers.{IsOnItsPage};

    /// Creates a pool of one page, which grows to at most `pages` pages of 32 buffers.
    ///
    /// # Errors
    ///
    /// `Memory`, or `Init` at the first `None` of `init`. The buffers that were made are dropped.
    ///
    /// # Examples
    ///
    /// ```rust
    /// let pool = BufferPool::new(alloc, WithCapacity::new(alloc, 512), Clear, 4)?;
    /// ```
    pub fn new(
        alloc: Global,
        init: I,
        reset: R,
        pages: usize,
    ) -> Result<BufferPool<I, R>, PullError>
        requires some_page { 1 ≤ pages }
        ensures maker { IfOk result (λ pool. maker_of pool ≡ init) }
        ensures limit { IfOk result (λ pool. limit_of_pages pool ≡ Some pages) }
        ensures refused { IfErr result (Refuses ⊤ (I.answers init None) ⊥) }
    {
        let pool = LinearObjectPool::with_limit(alloc, init, reset, pages)?;
        Ok(BufferPool { pool })
    }

    /// Pulls a buffer, which is empty.
    ///
    /// # Errors
    ///
    /// If each page was found full and no further one comes: `Limit` if the pool may have no more
    /// pages, `Memory`, or `Init` if `init` returns `None`.
    pub fn pull(&self) -> Result<Buffer<'_, I, R>, PullError>
        ensures empty { IfOk result (λ buffer. bytes_of buffer ≡ []) }
        ensures on_page { IfOk result (IsOnItsPage self.now) }
        ensures within { IfOk result (λ buffer. IfSome (limit_of_pages self.now)
            (λ pages. page_of buffer < pages)) }
        ensures refused { IfErr result
            (Refuses ⊤ (I.answers (maker_of self.now) None) (IsSome (limit_of_pages self.now))) }
    {
        Ok(Buffer::new(self.pool.pull()?))
    }
}

impl<I: Init<Vec<u8>, Empty>, R: Reset<Vec<u8>, Empty>> Debug for BufferPool<I, R> {
    fn fmt<W: Write>(&self, f: &mut Formatter<W>) -> fmt::Result {
        f.debug_struct("BufferPool")
            .field("pool", &self.pool)
            .finish()
    }
}
