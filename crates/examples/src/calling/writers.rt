use lockfree_object_pool::clean::Empty;
use lockfree_object_pool::closures::{Clear, WithCapacity};
use lockfree_object_pool::{LinearObjectPool, LinearOwnedReusable, PullError};
use std::alloc::Global;
use std::sync::{Arc, Wait};
use std::thread;
use std::thread::Threads;

/// A pool of empty sheets.
type Sheets = LinearObjectPool<Vec<u8>, WithCapacity, Clear, Empty>;

/// A sheet that owns its pool with others.
type Sheet = LinearOwnedReusable<Vec<u8>, WithCapacity, Clear, Empty>;

/// Writes a sheet full. Its drop, here at the end, brings it home from this thread.
fn written(mut sheet: Sheet, letter: u8) -> Result<usize, PullError> {
    for _ in 0..10 {
        sheet.push(letter)?;
    }
    Ok(sheet.len())
}

/// Counts the letters that four threads write, each on a sheet of a pool of one page.
fn letters<R: Threads + Wait>(rt: &R, alloc: Global) -> Result<usize, PullError> {
    let pool: Sheets = LinearObjectPool::with_limit(alloc, WithCapacity::new(alloc, 10), Clear, 1)?;
    let pool = Arc::new(alloc, pool)?;
    let mut threads = Vec::with_capacity(alloc, 4)?;
    for letter in b'a'..b'e' {
        let sheet = pool.pull_owned()?;
        let Ok(thread) = thread::spawn(rt, move || written(sheet, letter)) else {
            return Err(PullError::Memory);
        };
        threads.push(thread)?;
    }
    let mut letters = 0usize;
    for thread in threads {
        letters = letters.saturating_add(thread.join(rt)?);
    }
    Ok(letters)
}

#[cfg(test)]
mod tests;
