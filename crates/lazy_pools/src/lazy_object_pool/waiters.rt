//! Threads that wait until an item is returned, or the pool is closed: an event count of two words.
//!
//! A waiter counts itself, reads how many returns were counted, tries once more, and sleeps only if
//! none was counted since. A return sets the bit of its item, and then reads whether anybody waits;
//! if so it is counted. Each step is sequentially consistent. So if a waiter's try missed the item,
//! the return finds the waiter counted, and the waiter finds the return counted. While nobody
//! waits, a return costs one load more, of a word that nobody writes.
//!
//! A waiter that gives up may have been woken in place of another, so it wakes one. Who closes the
//! pool says so in the first word, counts a return, and wakes all. So a waiter that hasn't seen the
//! pool closed finds that return counted. A return finds a closed pool as it finds a waiter.
//!
//! No contract says any of this: `ci/waiting_model` explores these steps.
use std::sync::Wait;
use std::sync::atomic::AtomicU64;
use std::sync::atomic::Ordering::SeqCst;
use std::time::Duration;

/// The bit of `waiting` that says that the pool is closed. It is never cleared.
const CLOSED: u64 = 1 << 63;

/// How many threads wait for an item, and how many returns were counted while some waited.
#[derive(Drop)]
pub(crate) struct Waiters {
    /// How many threads wait, and `CLOSED`.
    waiting: AtomicU64,
    /// It may wrap. A sleep misses a return only if 2^32 others come between its look and its
    /// sleep.
    returns: AtomicU64,
}

impl Waiters {
    /// Creates the words that say that nobody waits, and that the pool isn't closed.
    pub(crate) const fn new() -> Waiters {
        Waiters {
            waiting: AtomicU64::new(0),
            returns: AtomicU64::new(0),
        }
    }

    /// Returns how many wait.
    pub(crate) fn count(&self) -> usize {
        (self.waiting.load(SeqCst) & !CLOSED) as usize
    }

    /// Returns whether the pool is closed.
    #[inline(always)]
    pub(crate) fn is_closed(&self) -> bool {
        self.waiting.load(SeqCst) & CLOSED != 0
    }

    /// Says that the pool is closed, and wakes all that wait.
    pub(crate) fn close(&self) {
        self.waiting.fetch_or(CLOSED, SeqCst);
        self.returns.fetch_add(1, SeqCst);
        self.returns.wake_all();
    }

    /// Counts one more that waits. From now on each return is counted.
    pub(crate) fn enter(&self) {
        self.waiting.fetch_add(1, SeqCst);
    }

    /// Counts one less, which has its item or finds the pool closed.
    pub(crate) fn leave(&self) {
        self.waiting.fetch_sub(1, SeqCst);
    }

    /// Counts one less, which has no item, and wakes another.
    pub(crate) fn give_up(&self) {
        self.leave();
        self.wake_one();
    }

    /// Returns the number of returns counted, which a waiter reads before its try and hands to its
    /// sleep.
    pub(crate) fn seen(&self) -> u32 {
        (self.returns.load(SeqCst) & 0xffff_ffff) as u32
    }

    /// Sleeps until a return is counted, unless one was since `seen`. It may end for no reason.
    pub(crate) fn sleep<W: Wait>(&self, rt: &W, seen: u32) {
        self.returns.park(rt, seen);
    }

    /// Sleeps until a return is counted, for `time` at most, unless one was since `seen`.
    pub(crate) fn sleep_for<W: Wait>(&self, rt: &W, seen: u32, time: Duration) {
        self.returns.park_timeout(rt, seen, time);
    }

    /// Wakes one that waits, after the bit of an item was set. Returns whether the pool is closed.
    #[inline(always)]
    pub(crate) fn wake_one(&self) -> bool {
        self.waiting.load(SeqCst) != 0 && self.count_and_wake()
    }

    #[cold]
    fn count_and_wake(&self) -> bool {
        self.returns.fetch_add(1, SeqCst);
        self.returns.wake_one();
        self.is_closed()
    }
}
