//! A pool whose pulls are counted, and a value of the caller's own if none is free.
ghost use Rattle.std.specs.Prelude.{◌≡◌, ◌≤◌, IfOk, length};

use lockfree_object_pool::PullError;
use lockfree_object_pool::recycling::LazyPool;
use std::alloc::Global;
use std::sync::atomic::AtomicUsize;
use std::sync::atomic::Ordering::SeqCst;

/// Buffers of a pool, with counts of its pulls.
#[derive(Drop)]
struct CountedBuffers {
    pool: LazyPool<Vec<u8>>,
    pulls: AtomicUsize,
    misses: AtomicUsize,
}

impl CountedBuffers {
    /// Creates a pool of at most so many buffers.
    fn new(alloc: Global, buffers: usize) -> Result<CountedBuffers, PullError>
        requires { 1 ≤ buffers }
    {
        Ok(CountedBuffers {
            pool: LazyPool::with_recycler(alloc, buffers)?,
            pulls: AtomicUsize::new(0),
            misses: AtomicUsize::new(0),
        })
    }

    /// Writes a text to a buffer of the pool, or to a new one if none is free. Returns its length.
    fn write(&self, alloc: Global, text: &[u8]) -> Result<usize, PullError>
        ensures { IfOk result (λ written. written ≡ length text.now) }
    {
        self.pulls.fetch_add(1, SeqCst);
        match self.pool.pull() {
            Ok(mut buffer) => {
                buffer.extend_from_slice(text)?;
                Ok(buffer.len())
            }
            Err(PullError::Limit) => {
                self.misses.fetch_add(1, SeqCst);
                let mut own = Vec::new(alloc);
                own.extend_from_slice(text)?;
                Ok(own.len())
            }
            Err(error) => Err(error),
        }
    }

    /// Returns how many pulls there were, how many of them found no buffer free, and how many
    /// buffers were made.
    fn counts(&self) -> (usize, usize, usize) {
        let (pulls, misses) = (self.pulls.load(SeqCst), self.misses.load(SeqCst));
        (pulls, misses, self.pool.made())
    }
}

#[cfg(test)]
mod tests;
