//! One thread waits for the only item of a lazy pool, and another returns it once. No later return
//! wakes a thread that missed this one.
use lockfree_object_pool::clean::AnyValue;
use lockfree_object_pool::closures::{Copied, Keep};
use lockfree_object_pool::{LazyObjectPool, PullError};
use std::alloc::Global;
use std::sync::Wait;
use std::sync::atomic::AtomicU32;
use std::sync::atomic::Ordering::SeqCst;
use std::thread;
use std::thread::Threads;
use std::time::{Clock, Duration};

type Pool = LazyObjectPool<u32, Copied<u32, AnyValue>, Keep>;

/// How the thread pulls that waits.
#[derive(Clone, Copy)]
enum Way {
    Waits,
    WaitsForSeconds,
}

/// How many seconds it waits at most, if its pull has a limit: longer than it is watched.
const SECONDS: u64 = 90;

/// How far the thread is that waits.
#[derive(Drop)]
struct Steps {
    begun: AtomicU32,
    served: AtomicU32,
}

impl Steps {
    /// Waits for the item, and returns it.
    fn wait<R: Wait + Clock>(&self, rt: &R, pool: &Pool, way: Way) {
        self.begun.store(1, SeqCst);
        let pulled = match way {
            Way::Waits => pool.pull_wait(rt),
            Way::WaitsForSeconds => pool.pull_timeout(rt, Duration::from_secs(SECONDS)),
        };
        drop(pulled);
        self.served.store(1, SeqCst);
    }

    /// Waits until the other thread begins to pull, and then for so many loads more.
    fn let_begin(&self, loads: u32) {
        for _ in 0..10_000_000u32 {
            if self.begun.load(SeqCst) == 1 {
                break;
            }
        }
        for _ in 0..loads {
            self.begun.load(SeqCst);
        }
    }

    /// Sees whether the other thread is served in time. If it isn't, this one frees it.
    fn watch<R: Clock>(&self, rt: &R, pool: &Pool) -> bool {
        for turn in 0..MOST_TURNS {
            if self.served.load(SeqCst) == 1 {
                return true;
            }
            if turn < YIELDS {
                thread::yield_now();
            } else {
                thread::sleep(rt, Duration::from_millis(1));
            }
        }
        for _ in 0..MOST_FREED {
            if self.served.load(SeqCst) == 1 {
                break;
            }
            drop(pool.pull());
            thread::yield_now();
        }
        false
    }
}

/// How often the watcher looks at once, and then how often in all, a millisecond apart.
const YIELDS: u32 = 1_000;

const MOST_TURNS: u32 = 21_000;

/// How often a thread that waits too long is freed.
const MOST_FREED: u32 = 100_000_000;

/// In how many loads more the item comes back, at most.
const MOST_LOADS: u32 = 300;

/// Makes one round. Whether the thread that waits was served in time.
fn is_served<R: Threads + Wait + Clock + Sync>(rt: &R, pool: &Pool, way: Way, loads: u32) -> bool {
    let Ok(item) = pool.pull() else {
        return false;
    };
    let steps = Steps {
        begun: AtomicU32::new(0),
        served: AtomicU32::new(0),
    };
    let ((), in_time) = thread::join(
        rt,
        || steps.wait(rt, pool, way),
        || {
            steps.let_begin(loads);
            drop(item);
            steps.watch(rt, pool)
        },
    );
    in_time
}

/// Makes one round in each way.
fn both_are_served<R: Threads + Wait + Clock + Sync>(rt: &R, pool: &Pool, loads: u32) -> bool {
    is_served(rt, pool, Way::Waits, loads) && is_served(rt, pool, Way::WaitsForSeconds, loads)
}

/// Makes so many rounds, up to the first in which a thread isn't served in time. How many of those
/// there are.
pub fn lost<R: Threads + Wait + Clock + Sync>(
    rt: &R,
    alloc: Global,
    rounds: u32,
) -> Result<usize, PullError> {
    let pool: Pool = LazyObjectPool::new(alloc, Copied::new(0), Keep, 1)?;
    for round in 0..rounds {
        if !both_are_served(rt, &pool, round % MOST_LOADS) {
            return Ok(1);
        }
    }
    Ok(0)
}
