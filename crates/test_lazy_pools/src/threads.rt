//! Eight threads that wait for the items of a pool. If they aren't served in time, they are freed one
//! by one, and the test fails.
ghost use Rattle.std.specs.Prelude.{◌≤◌};

use crate::items::Pool;
use crate::plays::{ends, pool_of};
use pool_model::book::{Book, new_book};
use std::process::Abort;
use std::sync::Wait;
use std::sync::atomic::AtomicUsize;
use std::sync::atomic::Ordering::SeqCst;
use std::thread;
use std::thread::Threads;
use std::time::{Clock, Duration};

const WORKERS: usize = 8;

/// How many milliseconds the watcher gives the workers.
const MOST_TURNS: u32 = 30_000;

/// How often is asked again.
const MOST_TRIES: u32 = 100_000_000;

/// What the workers do.
#[derive(Clone, Copy, PartialEq, Eq)]
enum Work {
    /// They wait.
    Waits,
    /// Every other one waits for a very short time, and asks again.
    WaitsShortly,
    /// They discard what they waited for, and what makes it refuses by turns.
    Discards,
}

/// Waits for an item once more, and returns it. A refusal is asked again.
fn be_served<R: Wait + Clock>(rt: &R, pool: &Pool, work: Work, is_hasty: bool) {
    for _ in 0..MOST_TRIES {
        let pulled = if is_hasty && work == Work::WaitsShortly {
            pool.pull_timeout(rt, Duration::from_micros(20))
        } else {
            pool.pull_wait(rt)
        };
        if let Ok(item) = pulled {
            if work == Work::Discards {
                item.discard();
            }
            return;
        }
    }
}

/// Returns whether so many were served in time. If not, it frees those that wait.
fn watch<R: Clock>(
    rt: &R,
    pool: &Pool,
    refuser: Option<&Book>,
    served: &AtomicUsize,
    total: usize,
) -> bool {
    for turn in 0..MOST_TURNS {
        if served.load(SeqCst) == total {
            return true;
        }
        if let Some(book) = refuser {
            book.refuse(turn % 2 == 0);
        }
        thread::sleep(rt, Duration::from_millis(1));
    }
    if let Some(book) = refuser {
        book.refuse(false);
    }
    for _ in 0..MOST_TRIES {
        if served.load(SeqCst) == total {
            return false;
        }
        drop(pool.pull());
        thread::yield_now();
    }
    false
}

/// Whether eight workers are served so often each, in time, by a pool of so many items, and the
/// pool makes no more.
fn all_served<R: Abort + Threads + Wait + Clock + AllocGlobal + Sync>(
    rt: &R,
    items: usize,
    rounds: usize,
    work: Work,
) -> Option<bool>
    requires { 1 ≤ items }
{
    let book = new_book(rt.alloc()).expect(rt, "memory is left");
    let pool = pool_of(rt.alloc(), &book, items).expect(rt, "a pool is made");
    let served = AtomicUsize::new(0);
    let total = WORKERS.saturating_mul(rounds);
    let refuser: Option<&Book> = if work == Work::Discards {
        Some(&book)
    } else {
        None
    };
    let one_thread = |thread: usize| {
        if thread == WORKERS {
            return watch(rt, &pool, refuser, &served, total);
        }
        for _ in 0..rounds {
            be_served(rt, &pool, work, thread % 2 == 1);
            served.fetch_add(1, SeqCst);
        }
        true
    };
    let answers = thread::map_indices(rt, rt.alloc(), WORKERS + 1, &one_thread).ok()?;
    let left = (pool.in_use(), pool.waiting(), pool.made() <= items);
    assert!(*rt; ends(pool, &book, None, 0));
    Some(answers.iter().all(|answer| *answer) && left == (0, 0, true))
}

#[test]
fn eight_threads_wait_for_one_item(rt: HostRuntime) {
    assert!(rt; all_served(&rt, 1, 5_000, Work::Waits) == Some(true));
}

#[test]
fn eight_threads_wait_for_three_items(rt: HostRuntime) {
    assert!(rt; all_served(&rt, 3, 5_000, Work::Waits) == Some(true));
}

#[test]
fn a_refused_maker_lets_the_next_one_try(rt: HostRuntime) {
    assert!(rt; all_served(&rt, 1, 500, Work::Discards) == Some(true));
}

#[test]
fn those_that_give_up_wake_others(rt: HostRuntime) {
    assert!(rt; all_served(&rt, 2, 5_000, Work::WaitsShortly) == Some(true));
}
