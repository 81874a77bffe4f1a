//! Threads that share one stack pool, or its list. Each runs to its end. Each call of a list waits
//! for the lock that another thread holds, but a note doesn't.
use crate::stack_player::{Kind, Opened, Pool, UnderMutex, UnderSpinLock};
use crate::values::{Called, Part, Value};
use pool_parts::clean::AnyValue;
use rows::threads::wait_for;
use stack_pools::free_list::FreeList;
use stack_pools::kept_stack::KeptStack;
use stack_pools::kept_stack::sections::Counts;
use stack_pools::stack::{Room, Stack};
use std::alloc::Global;
use std::process::Abort;
use std::sync::atomic::AtomicUsize;
use std::sync::atomic::Ordering::SeqCst;
use std::sync::{Arc, Mutex, Wait};
use std::thread;
use std::thread::{JoinHandle, Threads};

/// Pulls so many times, and returns each item at once, or clears the pool if there are no pulls.
/// What was shown last, if no pull was refused.
fn use_up<F: Kind<Value, Part, Part>, W: Wait + Copy>(
    rt: &W,
    pool: &Pool<F>,
    pulls: u32,
) -> Option<usize> {
    if pulls == 0 {
        pool.clear(rt);
    }
    let mut shown = None;
    for _ in 0..pulls {
        shown = Some(pool.pull(rt).ok()?.written);
    }
    shown
}

/// A thread that uses a pool.
fn use_elsewhere<
    F: Kind<Value, Part, Part> + Send + Sync + 'static,
    W: Wait + Threads + Copy + Send + 'static,
>(rt: W, pool: &Arc<Pool<F>>, pulls: u32) -> Option<JoinHandle<Option<usize>>> {
    let there = Arc::try_clone(pool).ok()?;
    thread::spawn(&rt, move || use_up(&rt, &*there, pulls)).ok()
}

/// What is shown to a thread in whose pull or return another one pulls and returns, and to that
/// one. Then what two pulls show that are held.
fn shown_to_two<
    F: Kind<Value, Part, Part> + Send + Sync + 'static,
    W: Abort + AllocGlobal + Wait + Threads + Copy + Send + 'static,
>(rt: W, place: Called) -> [usize; 4] {
    let opened = Opened::<F>::new(rt.alloc(), Some(place));
    let Opened { pool, book } = opened.expect(&rt, "memory is left");
    let first = use_elsewhere(rt, &pool, 1).expect(&rt, "a thread is made");
    assert!(rt; wait_for(&book.came, 1));
    let meanwhile = use_up(&rt, &*pool, 1).expect(&rt, "an item is made");
    book.uses.fetch_add(1, SeqCst);
    let first = first.join(&rt).expect(&rt, "an item is made");
    let last = pool.pull(&rt).expect(&rt, "an item is kept");
    let under = pool.pull(&rt).expect(&rt, "an item is kept");
    [first, meanwhile, last.written, under.written]
}

#[test]
fn init_runs_without_the_lock(rt: HostRuntime) {
    let seen = [1, 7, 1, 7];
    assert_eq!(rt; shown_to_two::<UnderMutex, _>(rt, Called::Init), seen);
    assert_eq!(rt; shown_to_two::<UnderSpinLock, _>(rt, Called::Init), seen);
}

/// The item that was pulled and dropped meanwhile lies under the one whose reset took so long.
#[test]
fn reset_runs_without_the_lock(rt: HostRuntime) {
    let seen = [0, 0, 1, 7];
    assert_eq!(rt; shown_to_two::<UnderMutex, _>(rt, Called::Reset), seen);
    assert_eq!(rt; shown_to_two::<UnderSpinLock, _>(rt, Called::Reset), seen);
}

/// While a kept value is dropped, another thread counts what is kept and fills the pool. What comes
/// so late is kept.
fn clears<
    F: Kind<Value, Part, Part> + Send + Sync + 'static,
    W: Abort + AllocGlobal + Wait + Threads + Copy + Send + 'static,
>(rt: W) {
    let opened = Opened::<F>::new(rt.alloc(), Some(Called::Drop));
    let Opened { pool, book } = opened.expect(&rt, "memory is left");
    pool.fill(&rt, 1).expect(&rt, "a value is made");
    let clearing = use_elsewhere(rt, &pool, 0).expect(&rt, "a thread is made");
    let dropping = (wait_for(&book.came, 1), pool.kept(&rt));
    pool.fill(&rt, 1).expect(&rt, "a value is made");
    book.uses.fetch_add(1, SeqCst);
    clearing.join(&rt);
    assert_eq!(rt; dropping, (true, 0));
    assert_eq!(rt; (book.in_time.load(SeqCst), pool.kept(&rt)), (1, 1));
}

#[test]
fn a_cleared_value_is_dropped_without_the_lock(rt: HostRuntime) {
    clears::<UnderMutex, _>(rt);
    clears::<UnderSpinLock, _>(rt);
}

/// Each of two threads has one item at a time, so two are made at most, and each that was made is
/// kept at last.
fn pulls<
    F: Kind<Value, Part, Part> + Send + Sync + 'static,
    W: Abort + AllocGlobal + Wait + Threads + Copy + Send + 'static,
>(rt: W) {
    let opened = Opened::<F>::new(rt.alloc(), None);
    let Opened { pool, book } = opened.expect(&rt, "memory is left");
    let thread = use_elsewhere(rt, &pool, 30_000).expect(&rt, "a thread is made");
    let here = use_up(&rt, &*pool, 30_000);
    assert_eq!(rt; (here, thread.join(&rt)), (Some(0), Some(0)));
    let made = book.tally.calls();
    assert_eq!(rt; (pool.kept(&rt), made.max(2)), (made, 2));
}

#[test]
fn two_threads_lose_no_value_and_make_two_at_most(rt: HostRuntime) {
    pulls::<UnderMutex, _>(rt);
    pulls::<UnderSpinLock, _>(rt);
}

type MutexList = Mutex<Stack<u32, AnyValue>>;

type SpinLockList = KeptStack<u32, AnyValue>;

/// How far two threads are: the one that holds a list's lock, and the one that calls meanwhile.
#[derive(Drop)]
struct Steps {
    held: AtomicUsize,
    begun: AtomicUsize,
    done: AtomicUsize,
    /// The call returned while the lock was held.
    has_passed: AtomicUsize,
    /// How long the lock is held after the call began, unless it returns before.
    turns: u32,
}

impl Steps {
    /// What the holder does while it has the lock.
    fn hold(&self) {
        self.held.store(1, SeqCst);
        let _begun = wait_for(&self.begun, 1);
        for _ in 0..self.turns {
            if self.done.load(SeqCst) > 0 {
                break;
            }
            thread::yield_now();
        }
        self.has_passed.store(self.done.load(SeqCst), SeqCst);
    }
}

/// A list whose lock can be held.
trait Lockable: FreeList<u32, AnyValue> {
    fn lock_during<W: Wait>(&self, rt: &W, steps: &Steps);
}

impl Lockable for MutexList {
    fn lock_during<W: Wait>(&self, rt: &W, steps: &Steps) {
        let _guard = self.lock(rt);
        steps.hold();
    }
}

impl Lockable for SpinLockList {
    fn lock_during<W: Wait>(&self, rt: &W, steps: &Steps) {
        let (stack, turn) = self.lock(rt);
        steps.hold();
        drop(turn.release::<Counts>(stack));
    }
}

/// A call of a list, and the value or the number that it returns.
fn call<F: Lockable, W: Wait>(
    rt: &W,
    alloc: Global,
    list: &F,
    word: &'static str,
) -> Option<usize> {
    let note = list.note();
    let taken = match word {
        "take" => list.take(rt).0,
        "take after" => list.take_after(rt, note).0,
        "give 6" => {
            drop(list.give(rt, note, Room::new(alloc).ok()?, 6));
            return Some(6);
        }
        "count" => return Some(list.count(rt).0),
        "clear" => {
            drop(list.clear(rt));
            return Some(0);
        }
        _ => return Some(0),
    };
    Some(taken?.0 as usize)
}

/// A thread that holds a list's lock.
fn hold_elsewhere<F: Lockable + Send + Sync + 'static, W: Wait + Threads + Copy + Send + 'static>(
    rt: &W,
    list: &Arc<F>,
    steps: &Arc<Steps>,
) -> Option<JoinHandle<()>> {
    let (list, steps, there) = (Arc::try_clone(list).ok()?, Arc::try_clone(steps).ok()?, *rt);
    thread::spawn(rt, move || list.lock_during(&there, &steps)).ok()
}

/// What each of these calls returns that begins while another thread has the lock. Only a note
/// returns before that thread lets it go.
fn calls_meanwhile<
    F: Lockable + Send + Sync + 'static,
    W: Abort + AllocGlobal + Wait + Threads + Copy + Send + 'static,
>(rt: &W, list: F, calls: &[(&'static str, usize)]) {
    let list = Arc::new(rt.alloc(), list).expect(rt, "memory is left");
    for (word, said) in calls.iter().copied() {
        let is_note = word == "note";
        let steps = Steps {
            held: AtomicUsize::new(0),
            begun: AtomicUsize::new(0),
            done: AtomicUsize::new(0),
            has_passed: AtomicUsize::new(0),
            turns: if is_note { 10_000_000 } else { 10_000 },
        };
        let steps = Arc::new(rt.alloc(), steps).expect(rt, "memory is left");
        let holder = hold_elsewhere(rt, &list, &steps).expect(rt, "a thread is made");
        assert!(*rt; wait_for(&steps.held, 1));
        steps.begun.store(1, SeqCst);
        let returned = call(rt, rt.alloc(), &*list, word);
        steps.done.store(1, SeqCst);
        holder.join(rt);
        assert_eq!(*rt;
            (word, returned, steps.has_passed.load(SeqCst)),
            (word, Some(said), usize::from(is_note))
        );
    }
}

fn calls_of_both<W: Abort + AllocGlobal + Wait + Threads + Copy + Send + 'static>(
    rt: &W,
    calls: &[(&'static str, usize)],
) {
    let under_mutex: MutexList = Mutex::new(Stack::new());
    calls_meanwhile(rt, under_mutex, calls);
    let under_spin_lock: Option<SpinLockList> = KeptStack::new(rt.alloc());
    calls_meanwhile(rt, under_spin_lock.expect(rt, "memory is left"), calls);
}

#[test]
fn a_take_and_a_put_wait_for_the_lock(rt: HostRuntime) {
    let calls = [("give 6", 6), ("take", 6), ("give 6", 6), ("take after", 6)];
    calls_of_both(&rt, &calls);
}

#[test]
fn a_count_and_a_clear_wait_for_the_lock(rt: HostRuntime) {
    calls_of_both(
        &rt,
        &[("give 6", 6), ("count", 1), ("clear", 0), ("count", 0)],
    );
}

#[test]
fn a_note_waits_for_no_lock(rt: HostRuntime) {
    calls_of_both(&rt, &[("note", 0)]);
}
