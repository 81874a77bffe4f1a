//! Threads that pull, wait and return while another closes their pool. If a closing leaves one
//! asleep, the test closes again after a while, and fails.
use crate::items::Pool;
use crate::wakings::{opened, wait_until};
use lazy_pools::PullError;
use std::alloc::Global;
use std::sync::Wait;
use std::sync::atomic::AtomicUsize;
use std::sync::atomic::Ordering::SeqCst;
use std::thread;
use std::thread::Threads;
use std::time::{Clock, Duration};

#[test]
fn an_item_whose_return_began_before_the_closing_is_dropped_too(rt: HostRuntime) {
    let (book, pool) = opened(&rt, 1);
    let item = pool.pull().expect(&rt, "an item is free");
    book.shut(true);
    let (begun, ()) = thread::join(
        &rt,
        || {
            let begun = wait_until(&rt, || book.came() == 1);
            pool.close();
            book.shut(false);
            begun
        },
        || drop(item),
    );
    let counts = book.counts();
    assert!(rt; begun && (counts.made, counts.drops, pool.in_use()) == (1, 1, 0));
}

/// The threads of a round beside the one that closes.
const WORKERS: usize = 5;

/// How often a worker asks at most.
const MOST_TURNS: u32 = 100_000_000;

/// Whether a worker's call, each of another kind, fails because the pool is closed. What it pulls
/// comes back.
fn is_ended<R: Wait + Clock>(rt: &R, pool: &Pool, worker: usize) -> bool {
    let refusal = match worker {
        0 => pool.pull().err(),
        1 => pool.pull_wait(rt).err(),
        2 => pool.pull_timeout(rt, Duration::from_micros(20)).err(),
        3 => match pool.pull() {
            Ok(item) => {
                item.discard();
                None
            }
            Err(refusal) => Some(refusal),
        },
        _ => {
            pool.clear();
            pool.fill(2).err()
        }
    };
    refusal == Some(PullError::Closed)
}

/// Closes the pool after so many turns, and sees that all workers end by that. If they don't, it
/// closes the pool again and again, so that the test ends.
fn close_after<R: Clock>(rt: &R, pool: &Pool, turns: usize, ended: &AtomicUsize) -> bool {
    for _ in 0..turns {
        thread::yield_now();
    }
    pool.close();
    let in_time = wait_until(rt, || ended.load(SeqCst) == WORKERS);
    if !in_time {
        wait_until(rt, || {
            pool.close();
            ended.load(SeqCst) == WORKERS
        });
    }
    in_time
}

/// Whether all workers of a pool end once it is closed.
fn all_ended<R: Threads + Wait + Clock + Sync>(
    rt: &R,
    alloc: Global,
    pool: &Pool,
    turns: usize,
) -> Option<bool> {
    let ended = AtomicUsize::new(0);
    let one_thread = |thread: usize| {
        if thread == WORKERS {
            return close_after(rt, pool, turns, &ended);
        }
        for _ in 0..MOST_TURNS {
            if is_ended(rt, pool, thread) {
                ended.fetch_add(1, SeqCst);
                return true;
            }
        }
        false
    };
    let answers = thread::map_indices(rt, alloc, WORKERS + 1, &one_thread).ok()?;
    Some(answers.iter().all(|answer| *answer))
}

#[test]
fn a_closing_beside_all_else_leaves_nothing(rt: HostRuntime) {
    for round in 0..200usize {
        let (book, pool) = opened(&rt, 2);
        let ended = all_ended(&rt, rt.alloc(), &pool, round % 10);
        let counts = book.counts();
        let left = (
            pool.waiting(),
            pool.in_use(),
            counts.made.wrapping_sub(counts.drops),
        );
        assert!(rt; ended == Some(true) && left == (0, 0, 0));
    }
}
