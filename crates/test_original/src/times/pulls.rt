//! The pools that are measured, and how an item of each is pulled.
use lockfree_object_pool::clean::AnyValue;
use lockfree_object_pool::closures::Copied;
use lockfree_object_pool::free_list::FreeList;
use lockfree_object_pool::made_or_reset::MadeOrReset;
use lockfree_object_pool::stack_object_pool::StackObjectPool;
use lockfree_object_pool::stack_reusable::StackReusable;
use lockfree_object_pool::{
    FixedObjectPool, FixedOwnedReusable, FixedReusable, LazyObjectPool, LazyOwnedReusable,
    LazyReusable, LinearObjectPool, LinearOwnedReusable, LinearReusable, PullError,
};
use std::ops::DerefMut;
use std::sync::{Arc, Wait};

/// How many pages lie between two threads that keep to pages of their own: eight words share a
/// cache line, and a processor may fetch two lines at once.
const PAGES_APART: usize = 16;

/// What makes the items, and what a return leaves: 0.
pub type Zero = Copied<u64, AnyValue>;

/// An owner of a pool pulls owned items, a reference borrowed ones.
pub trait Pulls<R> {
    type Item: DerefMut<Target = u64> + Send + Drop;

    /// Pulls an item on the thread with this number.
    fn pull_one(&self, rt: &R, thread: usize) -> Result<Self::Item, PullError>;
}

pub type Linear = LinearObjectPool<u64, Zero, Zero, AnyValue>;

impl<'p, R> Pulls<R> for &'p Linear {
    type Item = LinearReusable<'p, u64, Zero, Zero, AnyValue>;

    fn pull_one(&self, _rt: &R, _thread: usize) -> Result<Self::Item, PullError> {
        self.pull()
    }
}

impl<R> Pulls<R> for Arc<Linear> {
    type Item = LinearOwnedReusable<u64, Zero, Zero, AnyValue>;

    fn pull_one(&self, _rt: &R, _thread: usize) -> Result<Self::Item, PullError> {
        self.pull_owned()
    }
}

pub type Fixed = FixedObjectPool<u64, Zero, Zero, AnyValue>;

impl<'p, R> Pulls<R> for &'p Fixed {
    type Item = FixedReusable<'p, u64, Zero, Zero, AnyValue>;

    #[inline(always)]
    fn pull_one(&self, _rt: &R, _thread: usize) -> Result<Self::Item, PullError> {
        self.pull()
    }
}

impl<R> Pulls<R> for Arc<Fixed> {
    type Item = FixedOwnedReusable<u64, Zero, Zero, AnyValue>;

    fn pull_one(&self, _rt: &R, _thread: usize) -> Result<Self::Item, PullError> {
        self.pull_owned()
    }
}

/// A fixed pool, of whose threads each begins at a page of its own.
#[derive(Clone, Copy)]
pub struct Near<'p> {
    pub pool: &'p Fixed,
}

impl<'p, R> Pulls<R> for Near<'p> {
    type Item = FixedReusable<'p, u64, Zero, Zero, AnyValue>;

    #[inline(always)]
    fn pull_one(&self, _rt: &R, thread: usize) -> Result<Self::Item, PullError> {
        self.pool.pull_near(thread.wrapping_mul(PAGES_APART))
    }
}

pub type Lazy = LazyObjectPool<u64, Zero, Zero, AnyValue>;

impl<'p, R> Pulls<R> for &'p Lazy {
    type Item = LazyReusable<'p, u64, Zero, Zero, AnyValue>;

    fn pull_one(&self, _rt: &R, _thread: usize) -> Result<Self::Item, PullError> {
        self.pull()
    }
}

impl<R> Pulls<R> for Arc<Lazy> {
    type Item = LazyOwnedReusable<u64, Zero, Zero, AnyValue>;

    fn pull_one(&self, _rt: &R, _thread: usize) -> Result<Self::Item, PullError> {
        self.pull_owned()
    }
}

/// A lazy pool by pulls that wait.
#[derive(Clone, Copy)]
pub struct Waiting<'p> {
    pub pool: &'p Lazy,
}

impl<'p, R: Wait> Pulls<R> for Waiting<'p> {
    type Item = LazyReusable<'p, u64, Zero, Zero, AnyValue>;

    fn pull_one(&self, rt: &R, _thread: usize) -> Result<Self::Item, PullError> {
        self.pool.pull_wait(rt)
    }
}

/// The same by owned pulls.
#[derive(Clone, Copy)]
pub struct WaitingOwner<'p> {
    pub pool: &'p Arc<Lazy>,
}

impl<R: Wait> Pulls<R> for WaitingOwner<'_> {
    type Item = LazyOwnedReusable<u64, Zero, Zero, AnyValue>;

    fn pull_one(&self, rt: &R, _thread: usize) -> Result<Self::Item, PullError> {
        self.pool.pull_owned_wait(rt)
    }
}

pub type Stack<F> = StackObjectPool<u64, Zero, Zero, AnyValue, F>;

pub type Stacked = MadeOrReset<Zero, Zero, AnyValue>;

impl<F: FreeList<u64, Stacked> + Send + Sync, R: Wait + Copy + Send> Pulls<R> for &Stack<F> {
    type Item = StackReusable<u64, Self, R>;

    fn pull_one(&self, rt: &R, _thread: usize) -> Result<Self::Item, PullError> {
        self.pull(rt)
    }
}

impl<F: FreeList<u64, Stacked> + Send + Sync, R: Wait + Copy + Send> Pulls<R> for Arc<Stack<F>> {
    type Item = StackReusable<u64, Self, R>;

    fn pull_one(&self, rt: &R, _thread: usize) -> Result<Self::Item, PullError> {
        self.pull_owned(rt)
    }
}
