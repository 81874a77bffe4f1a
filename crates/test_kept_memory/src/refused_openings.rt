//! Openings of pools that are refused memory, and whether they keep some of it.
//!
//! Some blocks of memory are given back, of each choice of sizes in turn, and pools are opened. An
//! opening takes one of the blocks and then another one, or is refused that. What it took it lets
//! go, so that each block can be had again. No clause tells of a block that an opening forgot, and
//! no test sees it.
use crate::blocks::{Blocks, fill};
use lockfree_object_pool::clean::AnyValue;
use lockfree_object_pool::closures::{Copied, Keep};
use lockfree_object_pool::{FixedObjectPool, PullError, SpinLockObjectPool};
use std::alloc::Global;
use std::io;

/// What makes the items.
type Zeros = Copied<u64, AnyValue>;

/// What was seen of openings.
#[derive(Clone, Copy)]
enum Seen {
    /// Each was met.
    Met,
    /// Some were refused.
    Refused,
    /// A block could not be had again.
    Kept,
}

/// Opens pools, and prints what was seen. Returns whether they kept nothing. Where all other memory
/// is taken first, openings are refused; it has to be limited then, as by `ulimit -v`.
///
/// # Errors
///
/// If a line can't be printed.
pub fn observe<R: AllocGlobal + Print>(rt: &R, is_filled: bool) -> io::Result<bool> {
    let (line, is_good) = match open_beside_blocks(rt.alloc(), is_filled) {
        Ok(Seen::Met) => ("openings are met, and keep nothing", true),
        Ok(Seen::Refused) => ("openings are refused, and keep nothing", true),
        Ok(Seen::Kept) => ("openings keep memory", false),
        Err(_) => ("memory is not limited, or too small", false),
    };
    println!(rt; "{line}")?;
    Ok(is_good)
}

/// Opens pools beside each choice of blocks.
fn open_beside_blocks(alloc: Global, is_filled: bool) -> Result<Seen, PullError> {
    let mut blocks = Blocks::new(alloc)?;
    let _filling = if is_filled { Some(fill(alloc)?) } else { None };
    let mut seen = Seen::Met;
    for choice in 0..Blocks::CHOICES {
        blocks.give_back(choice);
        let locked = open_lock(alloc);
        let fixed = open_fixed(alloc);
        if !blocks.take_again(alloc) {
            return Ok(Seen::Kept);
        }
        if locked.is_err() || fixed.is_err() {
            seen = Seen::Refused;
        }
    }
    Ok(seen)
}

/// Opens a pool with a spin lock, which ends at once.
fn open_lock(alloc: Global) -> Result<(), PullError> {
    let _pool = SpinLockObjectPool::new(alloc, Zeros::new(0), Keep)?;
    Ok(())
}

/// Opens a fixed pool of one item, which ends at once.
fn open_fixed(alloc: Global) -> Result<(), PullError> {
    let _pool = FixedObjectPool::new(alloc, Zeros::new(0), Keep, 1)?;
    Ok(())
}
