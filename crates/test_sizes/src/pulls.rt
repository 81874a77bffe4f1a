//! The pools whose items come back in rounds, borrowed or owned, and how one pulls an item of each.
use crate::numbers::Numbers;
use lockfree_object_pool::clean::AnyValue;
use lockfree_object_pool::closures::Keep;
use lockfree_object_pool::free_list::FreeList;
use lockfree_object_pool::made_or_reset::MadeOrReset;
use lockfree_object_pool::stack_object_pool::StackObjectPool;
use lockfree_object_pool::stack_reusable::StackReusable;
use lockfree_object_pool::{
    FixedObjectPool, FixedOwnedReusable, FixedReusable, LazyObjectPool, LazyReusable,
    LinearObjectPool, LinearOwnedReusable, LinearReusable, PullError,
};
use std::ops::DerefMut;
use std::sync::{Arc, Wait};

/// A reference to a pool, which pulls borrowed items, or an owner of one, which pulls owned items.
pub trait Pulls<W> {
    type Item: DerefMut<Target = u64> + Drop;

    fn pull_one(&self, rt: &W) -> Result<Self::Item, PullError>;
}

pub type Linear = LinearObjectPool<u64, Numbers, Keep>;

impl<'p, W> Pulls<W> for &'p Linear {
    type Item = LinearReusable<'p, u64, Numbers, Keep>;

    fn pull_one(&self, _rt: &W) -> Result<Self::Item, PullError> {
        self.pull()
    }
}

impl<W> Pulls<W> for Arc<Linear> {
    type Item = LinearOwnedReusable<u64, Numbers, Keep>;

    fn pull_one(&self, _rt: &W) -> Result<Self::Item, PullError> {
        self.pull_owned()
    }
}

pub type Fixed = FixedObjectPool<u64, Numbers, Keep>;

impl<'p, W> Pulls<W> for &'p Fixed {
    type Item = FixedReusable<'p, u64, Numbers, Keep>;

    fn pull_one(&self, _rt: &W) -> Result<Self::Item, PullError> {
        self.pull()
    }
}

impl<W> Pulls<W> for Arc<Fixed> {
    type Item = FixedOwnedReusable<u64, Numbers, Keep>;

    fn pull_one(&self, _rt: &W) -> Result<Self::Item, PullError> {
        self.pull_owned()
    }
}

pub type Lazy = LazyObjectPool<u64, Numbers, Keep>;

impl<'p, W> Pulls<W> for &'p Lazy {
    type Item = LazyReusable<'p, u64, Numbers, Keep>;

    fn pull_one(&self, _rt: &W) -> Result<Self::Item, PullError> {
        self.pull()
    }
}

/// What a stack pool keeps.
pub type Stacked = MadeOrReset<Numbers, Keep, AnyValue>;

pub type Stack<F> = StackObjectPool<u64, Numbers, Keep, AnyValue, F>;

impl<F: FreeList<u64, Stacked>, W: Wait + Copy> Pulls<W> for &Stack<F> {
    type Item = StackReusable<u64, Self, W>;

    fn pull_one(&self, rt: &W) -> Result<Self::Item, PullError> {
        self.pull(rt)
    }
}

impl<F: FreeList<u64, Stacked>, W: Wait + Copy> Pulls<W> for Arc<Stack<F>> {
    type Item = StackReusable<u64, Self, W>;

    fn pull_one(&self, rt: &W) -> Result<Self::Item, PullError> {
        self.pull_owned(rt)
    }
}
