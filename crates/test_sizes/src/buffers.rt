//! Buffer pools of many pages.
ghost use Rattle.std.specs.Prelude.{◌≤◌};

use crate::numbers::PAGE_ITEMS;
use crate::wrong::Wrong;
use lockfree_object_pool::PullError;
use object_pool_cores::buffers::{Buffer, BufferPool, Clear, WithCapacity};
use std::alloc::Global;

type Pool = BufferPool<WithCapacity, Clear>;

/// Pulls each buffer, and no more, in two rounds. It comes empty, and shows what is written to it
/// while it is held. The pool has a quarter of the pages, since its walks take longer than those of
/// other pools.
///
/// # Errors
///
/// `Wrong` names what was seen and may not be.
pub fn bounded(alloc: Global, pages: u16) -> Result<(), Wrong>
    requires { 1 ≤ pages }
{
    let pages = pages / 4 + 1;
    let items = u64::from(pages) * PAGE_ITEMS;
    let pool: Pool = BufferPool::new(
        alloc,
        WithCapacity::new(alloc, 8),
        Clear,
        usize::from(pages),
    )?;
    for _ in 0..2 {
        let held = hold(alloc, items, &pool)?;
        match pool.pull() {
            Err(PullError::Limit) => {}
            _ => return Err(Wrong::NotRefused),
        }
        show_numbers(&held)?;
    }
    Ok(())
}

/// So many buffers, each with its number written.
fn hold<'p>(
    alloc: Global,
    items: u64,
    pool: &'p Pool,
) -> Result<Vec<Buffer<'p, WithCapacity, Clear>>, Wrong> {
    let mut held = Vec::with_capacity(alloc, items as usize)?;
    for number in 0..items {
        let mut buffer = pool.pull()?;
        if !buffer.as_slice().is_empty() {
            return Err(Wrong::Value(number));
        }
        buffer.append(&number.to_le_bytes())?;
        held.push(buffer)?;
    }
    Ok(held)
}

/// Sees that each buffer shows its number.
fn show_numbers(held: &[Buffer<'_, WithCapacity, Clear>]) -> Result<(), Wrong> {
    for (number, buffer) in held.iter().enumerate() {
        if buffer.as_slice() != &number.to_le_bytes()[..] {
            return Err(Wrong::Value(number as u64));
        }
    }
    Ok(())
}
