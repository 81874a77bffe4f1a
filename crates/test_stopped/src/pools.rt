//! The pools of numbers, and their state before the two calls.
use crate::calls::Gives;
use lockfree_object_pool::clean::AnyValue;
use lockfree_object_pool::closures::{Copied, Keep};
use lockfree_object_pool::fixed_object_pool::Near;
use lockfree_object_pool::page::{PageId, PullPass};
use lockfree_object_pool::{
    FixedObjectPool, FixedOwnedReusable, FixedReusable, LazyObjectPool, LazyOwnedReusable,
    LazyReusable, LinearObjectPool, LinearOwnedReusable, LinearReusable, PullError,
    SpinLockObjectPool, SpinLockReusable, Worker, WorkerReusable,
};
use std::alloc::Global;
use std::ops::DerefMut;
use std::sync::{Arc, Wait};

type Zeros = Copied<u32, AnyValue>;

pub type Linear = LinearObjectPool<u32, Zeros, Keep>;

pub type LinearItem<'p> = LinearReusable<'p, u32, Zeros, Keep>;

pub type Fixed = FixedObjectPool<u32, Zeros, Keep>;

pub type FixedItem<'p> = FixedReusable<'p, u32, Zeros, Keep>;

pub type Lazy = LazyObjectPool<u32, Zeros, Keep>;

pub type LazyItem<'p> = LazyReusable<'p, u32, Zeros, Keep>;

pub type SpinLocked = SpinLockObjectPool<u32, Zeros, Keep>;

pub type SpinLockedItem<'p, R> = SpinLockReusable<'p, u32, Zeros, Keep, R>;

pub type FixedWorker<'p> = Worker<u32, Near<'p, u32, Zeros, Keep>>;

pub type LinearOwnedItem = LinearOwnedReusable<u32, Zeros, Keep>;

pub type FixedOwnedItem = FixedOwnedReusable<u32, Zeros, Keep>;

pub type LazyOwnedItem = LazyOwnedReusable<u32, Zeros, Keep>;

pub type WorkerItem<'w, 'p> = WorkerReusable<'w, u32, Near<'p, u32, Zeros, Keep>>;

/// By which call an item is pulled under a borrow of its pool.
#[derive(Clone, Copy, PartialEq, Eq)]
pub enum Way {
    Pull,
    Near,
    Try,
    Noted,
    With,
}

// A pool beside a way gives items by the call that the way names.

impl<'p, R> Gives<LinearItem<'p>, R> for (&'p Linear, Way) {
    fn pull_one(self, _rt: &R) -> Result<LinearItem<'p>, PullError> {
        if self.1 != Way::Try {
            return self.0.pull();
        }
        let pass = PullPass::new();
        match self.0.try_pull(&pass) {
            Ok(item) => Ok(item),
            Err(_) => Err(PullError::Limit),
        }
    }

    fn number(item: &LinearItem<'p>) -> usize {
        linear_number(item.page_number(), item.page_id())
    }
}

impl<'p, R> Gives<LinearOwnedItem, R> for &'p Arc<Linear> {
    fn pull_one(self, _rt: &R) -> Result<LinearOwnedItem, PullError> {
        self.pull_owned()
    }

    fn number(item: &LinearOwnedItem) -> usize {
        linear_number(item.page_number(), item.page_id())
    }
}

/// The number of an item of a linear pool.
fn linear_number(page: usize, id: PageId) -> usize {
    page.wrapping_mul(32).wrapping_add(id as usize)
}

impl<'p, R> Gives<FixedItem<'p>, R> for (&'p Fixed, Way) {
    fn pull_one(self, _rt: &R) -> Result<FixedItem<'p>, PullError> {
        match self.1 {
            Way::Near => self.0.pull_near(1),
            Way::Try => {
                let pass = PullPass::new();
                match self.0.try_pull(&pass) {
                    Ok(item) => Ok(item),
                    Err(_) => Err(PullError::Limit),
                }
            }
            Way::Noted => {
                let pass = PullPass::new();
                match self.0.try_pull_from(&pass, self.0.note()) {
                    Ok(item) => Ok(item),
                    Err(_) => Err(PullError::Limit),
                }
            }
            Way::Pull | Way::With => self.0.pull(),
        }
    }

    fn number(item: &FixedItem<'p>) -> usize {
        item.number()
    }
}

impl<'p, R> Gives<FixedOwnedItem, R> for (&'p Arc<Fixed>, Way) {
    fn pull_one(self, _rt: &R) -> Result<FixedOwnedItem, PullError> {
        if self.1 != Way::Noted {
            return self.0.pull_owned();
        }
        let owner = Arc::try_clone(self.0)?;
        match owner.pull_by_owner(1, self.0.note()) {
            Ok(item) => Ok(item),
            Err(_) => Err(PullError::Limit),
        }
    }

    fn number(item: &FixedOwnedItem) -> usize {
        item.number()
    }
}

impl<'p, R> Gives<LazyItem<'p>, R> for (&'p Lazy, Way) {
    fn pull_one(self, _rt: &R) -> Result<LazyItem<'p>, PullError> {
        match self.1 {
            Way::Near => self.0.near().pull(),
            Way::Try => {
                let pass = PullPass::new();
                match self.0.try_pull(&pass) {
                    Ok(item) => Ok(item),
                    Err(_) => Err(PullError::Limit),
                }
            }
            Way::With => match self.0.pull_with(|| Ok::<u32, ()>(0)) {
                Ok(item) => Ok(item),
                Err(_) => Err(PullError::Limit),
            },
            Way::Pull | Way::Noted => self.0.pull(),
        }
    }

    fn number(item: &LazyItem<'p>) -> usize {
        item.number()
    }
}

impl<'p, R> Gives<LazyOwnedItem, R> for &'p Arc<Lazy> {
    fn pull_one(self, _rt: &R) -> Result<LazyOwnedItem, PullError> {
        self.pull_owned()
    }

    fn number(item: &LazyOwnedItem) -> usize {
        item.number()
    }
}

impl<'w, 'p, R> Gives<WorkerItem<'w, 'p>, R> for &'w FixedWorker<'p> {
    fn pull_one(self, _rt: &R) -> Result<WorkerItem<'w, 'p>, PullError> {
        self.pull()
    }

    fn number(item: &WorkerItem<'w, 'p>) -> usize {
        item.item().number()
    }
}

/// What an item of a stack pool has is its number, or its number and what is added to it.
fn number_of(value: u32) -> usize {
    (value % 100) as usize
}

impl<'p, R: Wait + Copy> Gives<SpinLockedItem<'p, R>, R> for &'p SpinLocked {
    fn pull_one(self, rt: &R) -> Result<SpinLockedItem<'p, R>, PullError> {
        self.pull(rt)
    }

    fn number(item: &SpinLockedItem<'p, R>) -> usize {
        number_of(**item)
    }
}

/// A pull that takes a note of a spin lock pool first: a note waits for nobody.
impl<'p, R> Gives<FixedItem<'p>, R> for (&'p SpinLocked, &'p Fixed) {
    fn pull_one(self, _rt: &R) -> Result<FixedItem<'p>, PullError> {
        let _note = self.0.note();
        self.1.pull()
    }

    fn number(item: &FixedItem<'p>) -> usize {
        item.number()
    }
}

/// Pulls so many items.
pub fn pulled<A: DerefMut<Target = u32> + Drop, P: Gives<A, R>, R>(
    rt: &R,
    alloc: Global,
    pool: P,
    items: usize,
) -> Result<Vec<A>, PullError> {
    let mut held = Vec::with_capacity(alloc, items)?;
    for _ in 0..items {
        held.push(pool.pull_one(rt)?)?;
    }
    Ok(held)
}

/// Holds so many items of a pool but for those of these numbers, which are free. Each has its
/// number for value. An item of a stack pool, which has no other number, has its turn.
pub fn held_but<A: DerefMut<Target = u32> + Drop, P: Gives<A, R>, R>(
    rt: &R,
    alloc: Global,
    pool: P,
    items: usize,
    free: &[usize],
) -> Result<Vec<A>, PullError> {
    let mut held = Vec::with_capacity(alloc, items)?;
    for (turn, mut item) in pulled::<A, P, R>(rt, alloc, pool, items)?
        .into_iter()
        .enumerate()
    {
        *item = (turn & 0xffff_ffff) as u32;
        let number = P::number(&item);
        *item = (number & 0xffff_ffff) as u32;
        if !free.contains(&number) {
            held.push(item)?;
        }
    }
    Ok(held)
}
