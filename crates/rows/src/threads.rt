//! Threads that play rows at one table.
use crate::row::Difference;
use std::alloc::{AllocError, Global};
use std::sync::Arc;
use std::sync::atomic::AtomicUsize;
use std::sync::atomic::Ordering::SeqCst;
use std::thread;
use std::thread::{JoinHandle, Threads};

/// A thread that still waits after so many turns gives up.
const MOST_TURNS: u32 = 10_000_000;

/// Waits until a count is so high. Returns whether it is.
pub fn wait_for(count: &AtomicUsize, least: usize) -> bool {
    for _ in 0..MOST_TURNS {
        if count.load(SeqCst) >= least {
            return true;
        }
        thread::yield_now();
    }
    false
}

/// What threads share, and what each of them plays there.
pub trait Table: Send + Sync + Drop {
    /// Plays as the thread with this index. Returns what was said otherwise than it was to be.
    fn play(&self, index: usize) -> Option<Difference>;
}

/// Threads that play.
pub type Started = Vec<JoinHandle<Option<Difference>>>;

/// Starts so many threads.
///
/// # Errors
///
/// If one isn't started.
pub fn started<T: Table + 'static, R: Threads>(
    rt: &R,
    alloc: Global,
    table: &Arc<T>,
    threads: usize,
) -> Result<Started, AllocError> {
    let mut started = Vec::with_capacity(alloc, threads)?;
    for index in 0..threads {
        let own = Arc::try_clone(table)?;
        let thread = thread::spawn(rt, move || own.play(index)).map_err(|_| AllocError)?;
        started.push(thread)?;
    }
    Ok(started)
}

/// Waits for the end of threads. Returns what one of them found.
pub fn joined<R: Threads>(rt: &R, started: Started) -> Option<Difference> {
    let mut found = None;
    for thread in started {
        found = thread.join(rt).or(found);
    }
    found
}
