//! What wakes threads that wait: a closing, a refusal, a clearing, one that is too late. If they
//! aren't woken in time, they are freed, and the test fails.
ghost use Rattle.std.specs.Prelude.{◌≤◌};

use crate::items::{Borrowed, Owned, Pool, made};
use crate::plays::{ends, pool_of};
use lazy_pools::PullError;
use pool_model::book::{Book, new_book};
use pool_model::value::Value;
use std::alloc::Global;
use std::process::Abort;
use std::sync::atomic::Ordering::SeqCst;
use std::sync::atomic::{AtomicBool, AtomicU64, AtomicUsize};
use std::sync::{Arc, Mutex, Wait};
use std::thread::Threads;
use std::time::{Clock, Duration, Instant};
use std::{io, thread};

/// How many seconds they wait at most.
const LONG: u64 = 3_600;

/// Whether something comes within 10 seconds, which is asked each millisecond.
pub fn wait_until<R: Clock, F: Fn() -> bool>(rt: &R, has_come: F) -> bool
    requires { F.pre has_come }
{
    for _ in 0..10_000u32 {
        if has_come() {
            return true;
        }
        thread::sleep(rt, Duration::from_millis(1));
    }
    false
}

/// A pool of so many items, and its book.
pub fn opened<R: Abort + AllocGlobal>(rt: &R, items: usize) -> (Arc<Book>, Arc<Pool>)
    requires { 1 ≤ items }
{
    let book = new_book(rt.alloc()).expect(rt, "memory is left");
    let pool = pool_of(rt.alloc(), &book, items).expect(rt, "a pool is made");
    (book, pool)
}

/// Makes no value.
fn never() -> Result<Value, PullError> {
    Err(PullError::Init)
}

/// Why a thread that waits, each of four in a way of its own, has no item. What it has comes back.
fn refusal_of<R: Wait + Clock>(rt: &R, pool: &Pool, thread: usize) -> Option<PullError> {
    let time = Duration::from_secs(LONG);
    match thread % 4 {
        0 => pool.pull_wait(rt).err(),
        1 => pool.pull_timeout(rt, time).err(),
        2 => made(pool.pull_wait_with(rt, never)).err(),
        _ => made(pool.pull_timeout_with(rt, time, never)).err(),
    }
}

/// What ends that others wait for an item.
#[derive(Clone, Copy)]
enum End {
    Closes,
    /// The item is returned.
    Returns,
    /// It is discarded, and what makes values refuses.
    Discards,
    /// It is rejected, and what makes values refuses.
    Rejects,
}

/// Ends the waits, once so many wait. Returns whether all had an answer in time.
fn end_waits<R: Clock>(
    rt: &R,
    pool: &Pool,
    book: &Book,
    item: Borrowed<'_>,
    end: End,
    (waiters, answered): (usize, &AtomicUsize),
) -> bool {
    let seen = wait_until(rt, || pool.waiting() == waiters);
    let mut held = None;
    match end {
        End::Closes => {
            pool.close();
            held = Some(item);
        }
        End::Returns => drop(item),
        End::Discards => {
            book.refuse(true);
            item.discard();
        }
        End::Rejects => {
            book.refuse(true);
            book.reject(true);
            drop(item);
        }
    }
    let in_time = wait_until(rt, || answered.load(SeqCst) == waiters);
    drop(held);
    if !in_time {
        pool.close();
    }
    seen && in_time
}

/// Whether so many threads that wait for the item of a pool all have this answer, in time.
fn all_answered<R: Abort + Threads + Wait + Clock + AllocGlobal + Sync>(
    rt: &R,
    waiters: usize,
    end: End,
    answer: Option<PullError>,
) -> Option<bool> {
    let (book, pool) = opened(rt, 1);
    let answered = AtomicUsize::new(0);
    let item = pool.pull().ok()?;
    let (in_time, answers) = thread::join(
        rt,
        || end_waits(rt, &pool, &book, item, end, (waiters, &answered)),
        || {
            let one_thread = |thread: usize| {
                let refusal = refusal_of(rt, &pool, thread);
                answered.fetch_add(1, SeqCst);
                refusal == answer
            };
            let answers = thread::map_indices(rt, rt.alloc(), waiters, &one_thread).ok()?;
            Some(answers.iter().all(|is_right| *is_right))
        },
    );
    let left = (pool.in_use(), pool.waiting());
    assert!(*rt; ends(pool, &book, None, 0));
    Some(in_time && answers? && left == (0, 0))
}

/// More than a byte's worth of threads of half a byte wait.
#[test]
fn a_closing_wakes_all_that_wait(rt: HostRuntime) {
    let closed = Some(PullError::Closed);
    assert!(rt; all_answered(&rt, 70, End::Closes, closed) == Some(true));
}

#[test]
fn each_that_waits_is_served(rt: HostRuntime) {
    assert!(rt; all_answered(&rt, 8, End::Returns, None) == Some(true));
}

#[test]
fn each_that_waits_is_told_its_cause(rt: HostRuntime) {
    let refused = Some(PullError::Init);
    assert!(rt; all_answered(&rt, 4, End::Discards, refused) == Some(true));
}

#[test]
fn a_closed_pool_refuses_those_that_wait(rt: HostRuntime) {
    let refused = Some(PullError::Init);
    assert!(rt; all_answered(&rt, 4, End::Rejects, refused) == Some(true));
}

/// How often one that waits has an item beside clearings, each time in an empty place.
const ROUNDS: usize = 20_000;

/// Clears the pool until so many items were had. Whether they were in time: if not it wakes the one
/// that waits, so that the test ends.
fn clear_beside<R: Clock>(rt: &R, pool: &Pool, served: &AtomicUsize) -> bool {
    let start = Instant::now(rt).ok();
    for turn in 0..u64::MAX {
        if served.load(SeqCst) == ROUNDS {
            return true;
        }
        if turn % 1_000 == 999 && is_late(rt, start) {
            break;
        }
        pool.clear();
    }
    pool.close();
    false
}

/// Whether 30 seconds passed since the start.
fn is_late<R: Clock>(rt: &R, start: Option<Instant>) -> bool {
    match start {
        Some(start) => start.elapsed(rt).ok() >= Some(Duration::from_secs(30)),
        None => true,
    }
}

/// Discards each item that it waits for.
fn discard_all<R: Wait>(rt: &R, pool: &Pool, served: &AtomicUsize) {
    for _ in 0..ROUNDS {
        if let Ok(item) = pool.pull_wait(rt) {
            item.discard();
            served.fetch_add(1, SeqCst);
        }
    }
}

#[test]
fn a_clearing_wakes_one_that_waits(rt: HostRuntime) {
    let (book, pool) = opened(&rt, 1);
    let served = AtomicUsize::new(0);
    let (in_time, ()) = thread::join(
        &rt,
        || clear_beside(&rt, &pool, &served),
        || discard_all(&rt, &pool, &served),
    );
    assert!(rt; ends(pool, &book, None, 0));
    assert!(rt; in_time);
}

/// A clock by which an hour passes between two looks. At its second look it discards an item. At its
/// third it tells another thread, and waits until that waits for an item and is asleep.
#[derive(Drop)]
struct HourlyClock<'r, 'p, 't, R: Wait + Clock> {
    rt: &'r R,
    pool: &'p Pool,
    looks: AtomicU64,
    held: Mutex<Option<Borrowed<'p>>>,
    told: &'t AtomicBool,
}

impl<'r, 'p, 't, R: Wait + Clock> HourlyClock<'r, 'p, 't, R> {
    fn new(rt: &'r R, pool: &'p Pool, told: &'t AtomicBool) -> HourlyClock<'r, 'p, 't, R> {
        HourlyClock {
            rt,
            pool,
            looks: AtomicU64::new(0),
            held: Mutex::new(pool.pull().ok()),
            told,
        }
    }
}

impl<'r, 'p, 't, R: Wait + Clock> Wait for HourlyClock<'r, 'p, 't, R> {}

impl<'r, 'p, 't, R: Wait + Clock> Clock for HourlyClock<'r, 'p, 't, R> {
    fn monotonic(&self) -> io::Result<Duration> {
        let look = self.looks.fetch_add(1, SeqCst);
        if look == 0 {
            if let Some(item) = self.held.lock(self.rt).take() {
                item.discard();
            }
        } else {
            self.told.store(true, SeqCst);
            wait_until(self.rt, || self.pool.waiting() == 1);
            thread::sleep(self.rt, Duration::from_millis(30));
        }
        Ok(Duration::from_secs(look.saturating_mul(3_600)))
    }

    fn since_1970(&self) -> io::Result<Duration> {
        self.rt.since_1970()
    }
}

/// Pulls by such a clock. Returns why there is no item.
fn refused_late<R: Wait + Clock>(rt: &R, pool: &Pool, told: &AtomicBool) -> Option<PullError> {
    let clock = HourlyClock::new(rt, pool, told);
    pool.pull_timeout(&clock, Duration::from_secs(60)).err()
}

/// One that begins to wait while another has the empty place, for which that is too late, is woken.
#[test]
fn one_that_is_too_late_wakes_another(rt: HostRuntime) {
    let (book, pool) = opened(&rt, 1);
    let (told, served) = (AtomicBool::new(false), AtomicBool::new(false));
    let ((late, in_time), ()) = thread::join(
        &rt,
        || {
            let late = refused_late(&rt, &pool, &told);
            let in_time = wait_until(&rt, || served.load(SeqCst));
            drop(pool.pull()); // it wakes the other, if nobody did
            (late, in_time)
        },
        || {
            wait_until(&rt, || told.load(SeqCst));
            drop(pool.pull_wait(&rt));
            served.store(true, SeqCst);
        },
    );
    assert!(rt; in_time && late == Some(PullError::Limit) && pool.waiting() == 0);
    assert!(rt; ends(pool, &book, None, 0));
}

/// An item of a pool, which is waited for.
fn waited_for<R: Abort + Wait + Clock>(rt: &R, pool: &Arc<Pool>) -> Owned {
    pool.pull_owned_timeout(rt, Duration::from_secs(20))
        .expect(rt, "an item comes back")
}

#[test]
fn an_owned_item_comes_home_from_another_thread(rt: HostRuntime) {
    let (book, pool) = opened(&rt, 1);
    for _ in 0..100 {
        let item = waited_for(&rt, &pool);
        assert!(rt; pool.pull().is_err());
        let thread = thread::spawn(&rt, move || item.serial).expect(&rt, "a thread is made");
        let again = waited_for(&rt, &pool).serial;
        assert!(rt; again == 0 && thread.join(&rt) == 0);
    }
    assert!(rt; ends(pool, &book, None, 0));
}

/// By the clock of the system.
#[test]
fn a_time_is_waited_for_and_then_the_limit_is_told(rt: HostRuntime) {
    let (book, pool) = opened(&rt, 1);
    let time = Duration::from_millis(30);
    let item = pool.pull_timeout(&rt, Duration::from_millis(0)).ok();
    let start = Instant::now(&rt).expect(&rt, "the clock is read");
    let refusals = (
        pool.pull_timeout(&rt, Duration::from_millis(0)).err(),
        pool.pull_timeout(&rt, time).err(),
    );
    let gone = start.elapsed(&rt).expect(&rt, "the clock is read");
    assert!(rt; refusals == (Some(PullError::Limit), Some(PullError::Limit)));
    assert!(rt; item.is_some() && gone >= time && gone < Duration::from_secs(20));
    drop(item);
    assert!(rt; ends(pool, &book, None, 0));
}
