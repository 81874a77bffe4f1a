//! The kinds of pool, each in one state.
ghost use Rattle.std.specs.Prelude.{◌≤◌};

use crate::calls::made;
use crate::pools::{
    Fixed, FixedItem, FixedOwnedItem, Lazy, LazyItem, LazyOwnedItem, Linear, LinearItem,
    LinearOwnedItem, SpinLocked, SpinLockedItem, Way, WorkerItem, held_but,
};
use crate::rounds::{State, Task, tell_round};
use lockfree_object_pool::closures::{Copied, Keep};
use lockfree_object_pool::{
    FixedObjectPool, LazyObjectPool, LinearObjectPool, PullError, SpinLockObjectPool, Worker,
};
use std::alloc::Global;
use std::sync::{Arc, Wait};
use std::thread::Threads;
use std::{io, thread};

/// A pool in a state.
#[derive(Clone, Copy)]
pub enum Kind {
    /// The linear pool, whose first page has room.
    LinearRoom,
    /// Its first page is full, and a hint leads to the second.
    LinearHint,
    /// The same, and one item is free.
    LinearLast,
    /// Its three pages are full, and no hint is set: a pull walks along the links.
    LinearWalk,
    /// Its only page is full: a pull makes another.
    LinearGrow,
    /// The fixed pool, of two words.
    Fixed,
    /// The same, and one item is free.
    FixedLast,
    /// The lazy pool, of two words.
    Lazy,
    /// The same, and one item is free.
    LazyLast,
    /// The linear pool, by `try_pull`, `pull_owned`.
    LinearTry,
    LinearOwned,
    /// The fixed pool, by `pull_near`, `try_pull`, `try_pull_from`, `pull_owned`, `pull_by_owner`.
    FixedNear,
    FixedTry,
    FixedNoted,
    FixedOwned,
    FixedByOwner,
    /// The lazy pool, by `near`, `try_pull`, `pull_with`, `pull_owned`.
    LazyNear,
    LazyTry,
    LazyWith,
    LazyOwned,
    /// The fixed pool, by a worker for each thread.
    Worker,
    /// The fixed pool, behind a note of a spin lock pool.
    StackNote,
    /// The spin lock pool.
    SpinLock,
}

impl Kind {
    pub const ALL: [Kind; 23] = [
        Kind::LinearRoom,
        Kind::LinearHint,
        Kind::LinearLast,
        Kind::LinearWalk,
        Kind::LinearGrow,
        Kind::Fixed,
        Kind::FixedLast,
        Kind::Lazy,
        Kind::LazyLast,
        Kind::LinearTry,
        Kind::LinearOwned,
        Kind::FixedNear,
        Kind::FixedTry,
        Kind::FixedNoted,
        Kind::FixedOwned,
        Kind::FixedByOwner,
        Kind::LazyNear,
        Kind::LazyTry,
        Kind::LazyWith,
        Kind::LazyOwned,
        Kind::Worker,
        Kind::StackNote,
        Kind::SpinLock,
    ];

    pub fn name(self) -> &'static str {
        match self {
            Kind::LinearRoom => "linear_room",
            Kind::LinearHint => "linear_hint",
            Kind::LinearLast => "linear_last",
            Kind::LinearWalk => "linear_walk",
            Kind::LinearGrow => "linear_grow",
            Kind::Fixed => "fixed",
            Kind::FixedLast => "fixed_last",
            Kind::Lazy => "lazy",
            Kind::LazyLast => "lazy_last",
            Kind::LinearTry => "linear_try",
            Kind::LinearOwned => "linear_owned",
            Kind::FixedNear => "fixed_near",
            Kind::FixedTry => "fixed_try",
            Kind::FixedNoted => "fixed_noted",
            Kind::FixedOwned => "fixed_owned",
            Kind::FixedByOwner => "fixed_by_owner",
            Kind::LazyNear => "lazy_near",
            Kind::LazyTry => "lazy_try",
            Kind::LazyWith => "lazy_with",
            Kind::LazyOwned => "lazy_owned",
            Kind::Worker => "worker",
            Kind::StackNote => "stack_note",
            Kind::SpinLock => "spin_lock",
        }
    }

    /// The kind of this name.
    pub fn named(name: &str) -> Option<Kind> {
        Kind::ALL.iter().copied().find(|kind| kind.name() == name)
    }

    fn state(self) -> State {
        match self {
            Kind::LinearRoom | Kind::LinearTry | Kind::LinearOwned => State::new(
                32,
                2,
                [5, 17, 31, 8],
            ),
            Kind::LinearHint => State::new(64, 2, [37, 50, 63, 44]),
            Kind::LinearLast => State::new(64, 1, [50, 37, 44, 63]),
            Kind::LinearWalk => State::new(96, 0, [70, 40, 5, 90]),
            Kind::LinearGrow => State::new(32, 0, [17, 5, 30, 8]),
            Kind::Fixed
            | Kind::FixedNear
            | Kind::FixedTry
            | Kind::FixedNoted
            | Kind::FixedOwned
            | Kind::FixedByOwner
            | Kind::Worker
            | Kind::StackNote
            | Kind::Lazy
            | Kind::LazyNear
            | Kind::LazyTry
            | Kind::LazyWith
            | Kind::LazyOwned => State::new(40, 2, [5, 33, 39, 20]),
            Kind::FixedLast | Kind::LazyLast => State::new(40, 1, [33, 5, 20, 39]),
            Kind::SpinLock => State::new(4, 4, [0, 1, 2, 3]),
        }
    }
}

/// How many items the fixed and the lazy pool have.
const ITEMS: usize = 40;

/// Makes the rounds, behind a line that tells the pool's state.
pub fn run<R: Print + AllocGlobal + Threads + Wait + Copy + Sync>(
    rt: &R,
    kind: Kind,
    task: Task,
) -> io::Result<()> {
    let state = kind.state();
    print!(rt; "free")?;
    for number in state.free_before(task) {
        print!(rt; " {number}")?;
    }
    match kind {
        Kind::LinearRoom | Kind::LinearGrow | Kind::LinearTry | Kind::LinearOwned => {
            println!(rt; " further {}", state.items)?;
        }
        _ => println!(rt; "")?,
    }
    for _ in 0..task.rounds {
        one(rt, rt.alloc(), kind, state, task)?;
    }
    Ok(())
}

/// Makes one round.
fn one<R: Print + Threads + Wait + Copy + Sync>(
    rt: &R,
    alloc: Global,
    kind: Kind,
    state: State,
    task: Task,
) -> io::Result<()> {
    match kind {
        Kind::LinearRoom | Kind::LinearGrow => {
            on_linear(rt, alloc, linear(alloc)?, Way::Pull, state, task)
        }
        Kind::LinearTry => on_linear(rt, alloc, linear(alloc)?, Way::Try, state, task),
        Kind::LinearHint | Kind::LinearLast => {
            on_linear(rt, alloc, bounded(alloc, 2)?, Way::Pull, state, task)
        }
        Kind::LinearWalk => on_linear(rt, alloc, bounded(alloc, 3)?, Way::Pull, state, task),
        Kind::LinearOwned => {
            on_linear_owned(rt, alloc, Arc::new(alloc, linear(alloc)?)?, state, task)
        }
        Kind::Fixed | Kind::FixedLast => on_fixed(rt, alloc, Way::Pull, state, task),
        Kind::FixedNear => on_fixed(rt, alloc, Way::Near, state, task),
        Kind::FixedTry => on_fixed(rt, alloc, Way::Try, state, task),
        Kind::FixedNoted => on_fixed(rt, alloc, Way::Noted, state, task),
        Kind::FixedOwned => on_fixed_owned(rt, alloc, Way::Pull, state, task),
        Kind::FixedByOwner => on_fixed_owned(rt, alloc, Way::Noted, state, task),
        Kind::Lazy | Kind::LazyLast => on_lazy(rt, alloc, Way::Pull, state, task),
        Kind::LazyNear => on_lazy(rt, alloc, Way::Near, state, task),
        Kind::LazyTry => on_lazy(rt, alloc, Way::Try, state, task),
        Kind::LazyWith => on_lazy(rt, alloc, Way::With, state, task),
        Kind::LazyOwned => on_lazy_owned(rt, alloc, state, task),
        Kind::Worker => on_workers(rt, alloc, state, task),
        Kind::StackNote => on_notes(rt, alloc, state, task),
        Kind::SpinLock => on_spin_lock(rt, alloc, state, task),
    }
}

fn linear(alloc: Global) -> Result<Linear, PullError> {
    LinearObjectPool::new(alloc, Copied::new(0), Keep)
}

fn bounded(alloc: Global, pages: usize) -> Result<Linear, PullError>
    requires { 1 ≤ pages }
{
    LinearObjectPool::with_limit(alloc, Copied::new(0), Keep, pages)
}

fn fixed(alloc: Global) -> Result<Fixed, PullError> {
    FixedObjectPool::new(alloc, Copied::new(0), Keep, ITEMS)
}

fn lazy(alloc: Global) -> Result<Lazy, PullError> {
    LazyObjectPool::new(alloc, Copied::new(0), Keep, ITEMS)
}

fn spin_locked(alloc: Global) -> Result<SpinLocked, PullError> {
    SpinLockObjectPool::new(alloc, Copied::new(0), Keep)
}

/// Holds all items of a pool but those that are to be free, and makes both calls. The pool's type
/// is known where this stands: what is sent to a thread may not rest on a bound.
macro_rules! both_calls {
    ($rt:expr, $alloc:expr, $pool:expr, $state:expr, $task:expr, $item:ty) => {{
        let free = $state.free_before($task);
        let _held = held_but::<$item, _, R>($rt, $alloc, $pool, $state.items, free)?;
        let told = thread::join(
            $rt,
            || made::<$item, _, R>($rt, $pool, $task.first),
            || made::<$item, _, R>($rt, $pool, $task.second),
        );
        tell_round::<$item, _, R>($rt, $alloc, $pool, told, free.len())
    }};
}

fn on_linear<R: Print + Threads + Sync>(
    rt: &R,
    alloc: Global,
    pool: Linear,
    way: Way,
    state: State,
    task: Task,
) -> io::Result<()> {
    let by = (&pool, way);
    both_calls!(rt, alloc, by, state, task, LinearItem<'_>)
}

fn on_linear_owned<R: Print + Threads + Sync>(
    rt: &R,
    alloc: Global,
    pool: Arc<Linear>,
    state: State,
    task: Task,
) -> io::Result<()> {
    both_calls!(rt, alloc, &pool, state, task, LinearOwnedItem)
}

fn on_fixed<R: Print + Threads + Sync>(
    rt: &R,
    alloc: Global,
    way: Way,
    state: State,
    task: Task,
) -> io::Result<()> {
    let pool = fixed(alloc)?;
    let by = (&pool, way);
    both_calls!(rt, alloc, by, state, task, FixedItem<'_>)
}

fn on_fixed_owned<R: Print + Threads + Sync>(
    rt: &R,
    alloc: Global,
    way: Way,
    state: State,
    task: Task,
) -> io::Result<()> {
    let pool = Arc::new(alloc, fixed(alloc)?)?;
    let by = (&pool, way);
    both_calls!(rt, alloc, by, state, task, FixedOwnedItem)
}

fn on_lazy<R: Print + Threads + Sync>(
    rt: &R,
    alloc: Global,
    way: Way,
    state: State,
    task: Task,
) -> io::Result<()> {
    let pool = lazy(alloc)?;
    let by = (&pool, way);
    both_calls!(rt, alloc, by, state, task, LazyItem<'_>)
}

fn on_lazy_owned<R: Print + Threads + Sync>(
    rt: &R,
    alloc: Global,
    state: State,
    task: Task,
) -> io::Result<()> {
    let pool = Arc::new(alloc, lazy(alloc)?)?;
    both_calls!(rt, alloc, &pool, state, task, LazyOwnedItem)
}

fn on_notes<R: Print + Threads + Sync>(
    rt: &R,
    alloc: Global,
    state: State,
    task: Task,
) -> io::Result<()> {
    let (stack, pool) = (spin_locked(alloc)?, fixed(alloc)?);
    let both = (&stack, &pool);
    both_calls!(rt, alloc, both, state, task, FixedItem<'_>)
}

fn on_spin_lock<R: Print + Threads + Wait + Copy + Sync>(
    rt: &R,
    alloc: Global,
    state: State,
    task: Task,
) -> io::Result<()> {
    let pool = spin_locked(alloc)?;
    both_calls!(rt, alloc, &pool, state, task, SpinLockedItem<'_, R>)
}

/// Makes both calls by a worker for each thread.
fn on_workers<R: Print + Threads + Sync>(
    rt: &R,
    alloc: Global,
    state: State,
    task: Task,
) -> io::Result<()> {
    let pool = fixed(alloc)?;
    let by = (&pool, Way::Pull);
    let free = state.free_before(task);
    let _held = held_but::<FixedItem<'_>, _, R>(rt, alloc, by, state.items, free)?;
    let (first, second) = (Worker::new(pool.near()), Worker::new(pool.near()));
    let told = thread::join(
        rt,
        move || made::<WorkerItem<'_, '_>, _, R>(rt, &first, task.first),
        move || made::<WorkerItem<'_, '_>, _, R>(rt, &second, task.second),
    );
    tell_round::<FixedItem<'_>, _, R>(rt, alloc, by, told, free.len())
}
