//! Eight threads on a lazy pool of eight items, each made by the closure of a pull: a closure isn't
//! called where a value is kept.
use lockfree_object_pool::clean::AnyValue;
use lockfree_object_pool::closures::{Copied, Keep};
use lockfree_object_pool::{LazyObjectPool, PullError};
use std::alloc::Global;
use std::sync::Arc;
use std::sync::atomic::AtomicUsize;
use std::sync::atomic::Ordering::SeqCst;
use std::thread;
use std::thread::Threads;

/// How many threads and items there are.
const THREADS: usize = 8;

type Pool = LazyObjectPool<u32, Copied<u32, AnyValue>, Keep>;

/// A pool, and how often a closure was called.
#[derive(Drop)]
struct Counted {
    pool: Arc<Pool>,
    calls: AtomicUsize,
}

impl Counted {
    /// Pulls an item in each round and returns it. Whether it always had one.
    fn work(&self, rounds: u32) -> bool {
        let make = || -> Result<u32, PullError> {
            self.calls.fetch_add(1, SeqCst);
            Ok(0)
        };
        for round in 0..rounds {
            let is_pulled = if round % 2 == 0 {
                self.pool.pull_with(make).is_ok()
            } else {
                self.pool.pull_owned_with(make).is_ok()
            };
            if !is_pulled {
                return false;
            }
        }
        true
    }
}

/// Counts how often the eight threads called a closure though a value was kept, or had no item.
pub fn made_again<R: Threads>(rt: &R, alloc: Global, rounds: u32) -> Result<usize, PullError> {
    let pool: Pool = LazyObjectPool::new(alloc, Copied::new(0), Keep, THREADS)?;
    let counted = Counted {
        pool: Arc::new(alloc, pool)?,
        calls: AtomicUsize::new(0),
    };
    let counted = Arc::new(alloc, counted)?;
    let mut threads = Vec::with_capacity(alloc, THREADS)?;
    for _ in 0..THREADS {
        let counted = Arc::try_clone(&counted)?;
        let thread = thread::spawn(rt, move || counted.work(rounds)).map_err(|_| {
            PullError::Memory
        })?;
        threads.push(thread)?;
    }
    let mut again = 0usize;
    for thread in threads {
        again = again.saturating_add(usize::from(!thread.join(rt)));
    }
    let calls = counted.calls.load(SeqCst);
    Ok(again.saturating_add(calls.saturating_sub(counted.pool.made())))
}
