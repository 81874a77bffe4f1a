//! Replies that are put together in a buffer of a pool. The pool has one page, so 32 replies may be
//! under way at once.
ghost use Rattle.std.specs.Prelude.{◌≡◌, ◌≢◌, [], Some, Err, IfOk, IfErr};
ghost use Rattle.pool_parts.specs.declared.pull_error.PullError.TheVariants.{Memory};
ghost use Rattle.object_pool_cores.specs.Buffers.{bytes_of, limit_of_pages, maker_of};
ghost use Rattle.examples.specs.Replies.{greeting_of};

use lockfree_object_pool::PullError;
use object_pool_cores::buffers::{Buffer, BufferPool, Clear, WithCapacity};
use std::alloc::Global;

/// A pool of one page of buffers.
pub type Replies = BufferPool<WithCapacity, Clear>;

/// Creates a pool whose buffers have room for `capacity` bytes at first.
///
/// # Errors
///
/// `Memory`, and `Init` if there is no memory for the room of a buffer.
pub fn new_replies(alloc: Global, capacity: usize) -> Result<Replies, PullError>
    ensures room { IfOk result (λ replies. (maker_of replies).capacity ≡ capacity) }
    ensures one_page { IfOk result (λ replies. limit_of_pages replies ≡ Some 1) }
    ensures refused { result ≢ Err PullError.Limit }
{
    BufferPool::new(alloc, WithCapacity::new(alloc, capacity), Clear, 1)
}

/// Puts a greeting into an empty buffer.
fn greet(buffer: &mut Buffer<'_, WithCapacity, Clear>, name: &[u8]) -> Result<(), PullError>
    requires { bytes_of buffer.old ≡ [] }
    ensures greeting { IfOk result (λ _. bytes_of buffer.new ≡ greeting_of name.now) }
    ensures refused { IfErr result (λ cause. cause ≡ Memory) }
{
    buffer.append(b"hello, ")?;
    buffer.append(name)?;
    buffer.append(b"\n")
}

/// Returns a greeting by name, with no byte of another one.
///
/// # Errors
///
/// `Limit` while 32 replies are under way, and `Memory` if the buffer or the answer can't grow.
pub fn greeting(alloc: Global, replies: &Replies, name: &[u8]) -> Result<Vec<u8>, PullError>
    ensures { IfOk result (λ reply. reply.items ≡ greeting_of name.now) }
{
    let mut buffer = replies.pull()?;
    greet(&mut buffer, name)?;
    Ok(Vec::from_slice(alloc, buffer.as_slice())?)
}

#[cfg(test)]
mod tests;
