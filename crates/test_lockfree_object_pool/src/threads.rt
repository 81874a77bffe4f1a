//! What goes from thread to thread by channels, and lazy pools that make and discard items beside
//! other threads. Each wait has a limit.
use crate::assert_equal::assert_equal;
use crate::kinds::Lazy;
use crossbeam_channel::{Receiver, Sender, unbounded};
use lockfree_object_pool::clean::AnyValue;
use lockfree_object_pool::closures::{Copied, Init};
use lockfree_object_pool::free_list::FreeList;
use lockfree_object_pool::made_or_reset::MadeOrReset;
use lockfree_object_pool::stack_object_pool::StackObjectPool;
use lockfree_object_pool::stack_reusable::StackReusable;
use lockfree_object_pool::{
    LazyObjectPool, LinearObjectPool, LinearOwnedReusable, MutexObjectPool, PullError,
    SpinLockObjectPool,
};
use rows::row::Command;
use rows::setting::{Makes, Resets, Setting, function_objects};
use rows::threads::wait_for;
use std::alloc::Global;
use std::ops::DerefMut;
use std::process::Abort;
use std::sync::atomic::AtomicUsize;
use std::sync::atomic::Ordering::SeqCst;
use std::sync::{Arc, Wait};
use std::thread::Threads;
use std::time::{Clock, Duration, Instant};
use std::{mem, thread};
use test_values::counted::NEVER;
use test_values::tallied::Tallied;
use test_values::zeros::{CountedZeros, new_calls};

/// The next message, where it comes within ten million turns.
fn receive<T: Drop, W: Wait>(rt: &W, from: &Receiver<T>) -> Option<T> {
    for _ in 0..10_000_000u32 {
        if let Ok(message) = from.try_recv(rt) {
            return Some(message);
        }
        thread::yield_now();
    }
    None
}

type ToZero = Copied<u32, AnyValue>;

type Linear = LinearObjectPool<u32, CountedZeros, ToZero>;

type OwnedZero = LinearOwnedReusable<u32, CountedZeros, ToZero>;

type MutexPool = MutexObjectPool<u32, CountedZeros, ToZero>;

type SpinLockPool = SpinLockObjectPool<u32, CountedZeros, ToZero>;

/// A mutex pool or a spin lock pool, by its free list, and what it keeps.
type Stack<F> = StackObjectPool<u32, CountedZeros, ToZero, AnyValue, F>;

type ZeroValues = MadeOrReset<CountedZeros, ToZero, AnyValue>;

fn counted_zeros(rt: &impl Abort, alloc: Global) -> (CountedZeros, Arc<AtomicUsize>) {
    let count = new_calls(alloc).expect(rt, "memory is left");
    let calls = Arc::try_clone(&count).expect(rt, "memory is left");
    (CountedZeros { calls }, count)
}

/// A pool, and the count of the calls of its `init`.
type Counted<P> = (Arc<P>, Arc<AtomicUsize>);

fn linear(rt: &impl Abort, alloc: Global) -> Counted<Linear> {
    let (init, calls) = counted_zeros(rt, alloc);
    let pool = LinearObjectPool::new(alloc, init, Copied::new(0)).expect(rt, "a pool is made");
    (Arc::new(alloc, pool).expect(rt, "memory is left"), calls)
}

fn mutex(rt: &impl Abort, alloc: Global) -> Counted<MutexPool> {
    let (init, calls) = counted_zeros(rt, alloc);
    let pool = MutexObjectPool::new(alloc, init, Copied::new(0));
    (Arc::new(alloc, pool).expect(rt, "memory is left"), calls)
}

fn spin_lock(rt: &impl Abort, alloc: Global) -> Counted<SpinLockPool> {
    let (init, calls) = counted_zeros(rt, alloc);
    let pool = SpinLockObjectPool::new(alloc, init, Copied::new(0)).expect(rt, "a pool is made");
    (Arc::new(alloc, pool).expect(rt, "memory is left"), calls)
}

/// A pool of numbers, whose owned items are sent.
trait Sends<A, W> {
    fn pull_to_send(owner: &Arc<Self>, rt: &W) -> Result<A, PullError>;
}

impl<W: Wait> Sends<OwnedZero, W> for Linear {
    fn pull_to_send(owner: &Arc<Linear>, _rt: &W) -> Result<OwnedZero, PullError> {
        owner.pull_owned()
    }
}

type StackZero<F, W> = StackReusable<u32, Arc<Stack<F>>, W>;

impl<F: FreeList<u32, ZeroValues>, W: Wait + Copy> Sends<StackZero<F, W>, W> for Stack<F> {
    fn pull_to_send(owner: &Arc<Stack<F>>, rt: &W) -> Result<StackZero<F, W>, PullError> {
        owner.pull_owned(rt)
    }
}

/// A pool of numbers that threads share.
trait Writes<W>: Send + Sync + Drop {
    /// Writes a number to an item of the pool, and sends the number that it reads.
    fn write_and_send(&self, rt: &W, number: u32, to: &Sender<u32>) -> bool;
}

impl<W: Wait> Writes<W> for Linear {
    fn write_and_send(&self, rt: &W, number: u32, to: &Sender<u32>) -> bool {
        read_and_sent(rt, self.pull(), number, to)
    }
}

impl<F: FreeList<u32, ZeroValues> + Send + Sync, W: Wait + Copy> Writes<W> for Stack<F> {
    fn write_and_send(&self, rt: &W, number: u32, to: &Sender<u32>) -> bool {
        read_and_sent(rt, self.pull(rt), number, to)
    }
}

fn read_and_sent<A: DerefMut<Target = u32> + Drop, W: Wait>(
    rt: &W,
    pulled: Result<A, PullError>,
    number: u32,
    to: &Sender<u32>,
) -> bool {
    match pulled {
        Ok(mut item) => {
            *item = number;
            to.send(rt, *item).is_ok()
        }
        Err(_) => false,
    }
}

/// Sends five items, each with a 7, to another thread, which drops them.
fn send_five<
    A: DerefMut<Target = u32> + Send + Drop + 'static,
    P: Sends<A, R>,
    R: Abort + Threads + Wait + Copy + Send + 'static,
>(rt: &R, alloc: Global, pool: &Arc<P>) {
    let (sender, receiver) = unbounded(alloc).expect(rt, "a channel is made");
    let there = *rt;
    let dropper = thread::spawn(rt, move || drop_five(&there, &receiver));
    for _ in 0..5 {
        let mut item = P::pull_to_send(pool, rt).expect(rt, "an item is free");
        *item = 7;
        sender.send(rt, item).expect(rt, "the channel is open");
    }
    assert!(rt; dropper.expect(rt, "a thread is made").join(rt));
}

fn drop_five<T: Drop, W: Wait>(rt: &W, from: &Receiver<T>) -> bool {
    for _ in 0..5 {
        if receive(rt, from).is_none() {
            return false;
        }
    }
    true
}

/// Five items of a stack pool are sent to another thread, which drops them.
fn come_home<
    F: FreeList<u32, ZeroValues> + Send + Sync + 'static,
    W: Abort + Threads + Wait + Copy + Send + Sync + 'static,
>(rt: &W, alloc: Global, (pool, calls): Counted<Stack<F>>) {
    send_five(rt, alloc, &pool);
    for _ in 0..5 {
        let item = pool.pull(rt).expect(rt, "an item is free");
        assert_equal(rt, *item, 0);
        mem::forget(item);
    }
    assert_equal(rt, calls.load(SeqCst), 5);
}

#[test]
fn owned_items_of_a_linear_pool_are_sent_and_come_home(rt: HostRuntime) {
    let (pool, calls) = linear(&rt, rt.alloc());
    send_five(&rt, rt.alloc(), &pool);
    for id in 0..5u8 {
        let item = pool.pull().expect(&rt, "an item is free");
        assert_equal(&rt, (item.page_number(), item.page_id(), *item), (0, id, 0));
        mem::forget(item);
    }
    assert_equal(&rt, calls.load(SeqCst), 32);
}

#[test]
fn owned_items_of_stack_pools_are_sent_and_come_home(rt: HostRuntime) {
    come_home(&rt, rt.alloc(), mutex(&rt, rt.alloc()));
    come_home(&rt, rt.alloc(), spin_lock(&rt, rt.alloc()));
}

/// Five threads share the pool, and each sends its number.
fn five_send<P: Writes<R> + 'static, R: Abort + Threads + Wait + Copy + Send + Sync + 'static>(
    rt: &R,
    alloc: Global,
    pool: &Arc<P>,
) {
    let (sender, receiver) = unbounded(alloc).expect(rt, "a channel is made");
    let mut threads = Vec::with_capacity(alloc, 5).expect(rt, "memory is left");
    for number in 0..5u32 {
        let pool = Arc::try_clone(pool).expect(rt, "memory is left");
        let sender = sender.clone().expect(rt, "memory is left");
        let there = *rt;
        let writer = move || pool.write_and_send(&there, number, &sender);
        let thread = thread::spawn(rt, writer).expect(rt, "a thread is made");
        threads.push(thread).expect(rt, "memory is left");
    }
    for thread in threads {
        assert!(rt; thread.join(rt));
    }
    let mut numbers = Vec::new(alloc);
    for _ in 0..5 {
        let number = receive(rt, &receiver).expect(rt, "each thread sends");
        numbers.push(number).expect(rt, "memory is left");
    }
    numbers.sort().expect(rt, "memory is left");
    assert_equal(rt, numbers.as_slice(), [0, 1, 2, 3, 4].as_slice());
}

#[test]
fn five_threads_send_what_they_wrote(rt: HostRuntime) {
    five_send(&rt, rt.alloc(), &linear(&rt, rt.alloc()).0);
    five_send(&rt, rt.alloc(), &mutex(&rt, rt.alloc()).0);
    five_send(&rt, rt.alloc(), &spin_lock(&rt, rt.alloc()).0);
}

/// Makes values of a setting. The first may be refused once it was made.
#[derive(Drop)]
struct Refusing {
    makes: Makes,
    is_refused: bool,
}

impl Init<Tallied, AnyValue> for Refusing {
    fn make(&self) -> Option<Tallied> {
        let value = self.makes.make()?;
        if self.is_refused && value.number == 0 {
            return None;
        }
        Some(value)
    }
}

type Slow = LazyObjectPool<Tallied, Refusing, Resets>;

/// Does a command of a setting, of number 0. Whether what it waits for comes.
fn plays(setting: &Setting, word: &'static str) -> bool {
    let numbers = [0; 3];
    setting.play(Command { word, numbers }).words() != "nobody came"
}

fn comes_in_time<R: Wait + Clock>(rt: &R, pool: &Slow) -> Option<bool> {
    let most = Duration::from_secs(5);
    let start = Instant::now(rt).ok()?;
    drop(pool.pull_timeout(rt, most).ok()?);
    Some(start.elapsed(rt).ok()? < most)
}

/// One thread fills the pool, which may be refused. Another waits for the item that is made, and
/// the third lets it be made a little later.
fn fill_beside_one_that_waits<R: Threads + Wait + Clock + Sync>(
    rt: &R,
    alloc: Global,
    is_refused: bool,
) -> Option<bool> {
    let setting = Setting::new(alloc, NEVER).ok()?;
    let (makes, reset) = function_objects(&setting).ok()?;
    let pool = Slow::new(alloc, Refusing { makes, is_refused }, reset, 1).ok()?;
    plays(&setting, "late");
    let one_thread = |thread: usize| match thread {
        0 => pool.fill(1).is_err() == is_refused,
        1 => plays(&setting, "begun") && comes_in_time(rt, &pool) == Some(true),
        _ => {
            let begun = plays(&setting, "begun");
            thread::sleep(rt, Duration::from_millis(100));
            plays(&setting, "go") && begun
        }
    };
    let answers = thread::map_indices(rt, alloc, 3, &one_thread).ok()?;
    Some(!answers.contains(&false))
}

#[test]
fn a_filling_wakes_one_that_waits(rt: HostRuntime) {
    for is_refused in [false, true] {
        let comes = fill_beside_one_that_waits(&rt, rt.alloc(), is_refused);
        assert_equal(&rt, comes, Some(true));
    }
}

/// Waits until another thread is here, and then makes and discards a hundred items.
fn make_and_discard(pool: &Lazy, here: &AtomicUsize) -> Option<()> {
    here.fetch_add(1, SeqCst);
    wait_for(here, 2);
    for _ in 0..100 {
        drop(pool.pull().ok()?.discard());
    }
    Some(())
}

#[test]
fn items_are_counted_by_two_threads_at_once(rt: HostRuntime) {
    let setting = Setting::new(rt.alloc(), NEVER).expect(&rt, "memory is left");
    for _ in 0..300 {
        let (init, reset) = function_objects(&setting).expect(&rt, "few own it");
        let pool = Lazy::new(rt.alloc(), init, reset, 2).expect(&rt, "a pool is made");
        let here = AtomicUsize::new(0);
        let made_here = |_: usize| make_and_discard(&pool, &here);
        let answers = thread::map_indices(&rt, rt.alloc(), 2, &made_here);
        let answers = answers.expect(&rt, "threads are made");
        assert_equal(&rt, answers.contains(&None), false);
        let before = setting.tally.calls();
        pool.fill(1).expect(&rt, "an item is made");
        assert_equal(&rt, setting.tally.calls().wrapping_sub(before), 1);
    }
}
