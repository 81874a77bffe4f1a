//! How each pool is asked for an item.
ghost use Rattle.std.specs.Prelude.{⊤};
ghost use Rattle.std.specs.Arc.{arc_value};

use super::held::{Given, Place, Source};
use super::item::{Item, Numbered, Restore};
use lockfree_object_pool::clean::AnyValue;
use lockfree_object_pool::closures::{Init, Reset};
use lockfree_object_pool::free_list::FreeList;
use lockfree_object_pool::made_or_reset::MadeOrReset;
use lockfree_object_pool::stack_object_pool::StackObjectPool;
use lockfree_object_pool::stack_reusable::StackReusable;
use lockfree_object_pool::{
    LinearObjectPool, LinearOwnedReusable, LinearReusable, NoneObjectPool, NoneReusable,
};
use std::ops::DerefMut;
use std::sync::{Arc, Wait};

/// What a stack pool keeps.
pub type StackedItems = MadeOrReset<Numbered, Restore, AnyValue>;

pub type Stacked<F> = StackObjectPool<Item, Numbered, Restore, AnyValue, F>;

/// A reference to a pool, which gives borrowed items, or an owner of one, which gives owned items.
pub trait Gives<R> {
    type Came: DerefMut<Target = Item> + Drop;

    /// It may be asked at any time.
    ghost may_give: { Self → Type 0 } = { λ _. ⊤ };

    /// Gives an item. `None` is a refusal.
    fn give(&self, rt: &R, source: Source) -> Option<Given<Self::Came>>
        requires { may_give self.now };
}

/// A linear pool attaches no item.
impl<'p, I: Init<Item, AnyValue>, S: Reset<Item, AnyValue>, R> Gives<R>
    for &'p LinearObjectPool<Item, I, S, AnyValue> {
    type Came = LinearReusable<'p, Item, I, S, AnyValue>;

    fn give(&self, _rt: &R, source: Source) -> Option<Given<Self::Came>> {
        let Source::Pool = source else {
            return None;
        };
        let item = self.pull().ok()?;
        let (page, id) = (item.page_number(), item.page_id());
        let place = Some(Place { page, id });
        Some(Given { item, place })
    }
}

impl<I: Init<Item, AnyValue>, S: Reset<Item, AnyValue>, R> Gives<R>
    for Arc<LinearObjectPool<Item, I, S, AnyValue>> {
    type Came = LinearOwnedReusable<Item, I, S, AnyValue>;

    fn give(&self, _rt: &R, source: Source) -> Option<Given<Self::Came>> {
        let Source::Pool = source else {
            return None;
        };
        let item = self.pull_owned().ok()?;
        let (page, id) = (item.page_number(), item.page_id());
        let place = Some(Place { page, id });
        Some(Given { item, place })
    }
}

impl<F: FreeList<Item, StackedItems>, R: Wait + Copy> Gives<R> for &Stacked<F> {
    type Came = StackReusable<Item, Self, R>;

    fn give(&self, rt: &R, source: Source) -> Option<Given<Self::Came>> {
        let item = match source {
            Source::Pool => self.pull(rt).ok()?,
            Source::Caller(item) => StackReusable::new(rt, *self, item).ok()?,
        };
        Some(Given::nowhere(item))
    }
}

impl<F: FreeList<Item, StackedItems>, R: Wait + Copy> Gives<R> for Arc<Stacked<F>> {
    type Came = StackReusable<Item, Self, R>;

    fn give(&self, rt: &R, source: Source) -> Option<Given<Self::Came>> {
        let item = match source {
            Source::Pool => self.pull_owned(rt).ok()?,
            Source::Caller(item) => {
                StackReusable::new(rt, Arc::try_clone(self).ok()?, item).ok()?
            }
        };
        Some(Given::nowhere(item))
    }
}

impl<I: Fn() -> Option<Item>, R> Gives<R> for &NoneObjectPool<Item, I> {
    type Came = NoneReusable<Item>;

    ghost may_give = { λ pool. I.pre pool.now };

    fn give(&self, _rt: &R, source: Source) -> Option<Given<Self::Came>> {
        let item = match source {
            Source::Pool => self.pull().ok()?,
            Source::Caller(item) => NoneReusable::new(item),
        };
        Some(Given::nowhere(item))
    }
}

impl<I: Fn() -> Option<Item>, R> Gives<R> for Arc<NoneObjectPool<Item, I>> {
    type Came = NoneReusable<Item>;

    ghost may_give = { λ pool. I.pre (arc_value pool) };

    fn give(&self, _rt: &R, source: Source) -> Option<Given<Self::Came>> {
        let item = match source {
            Source::Pool => self.pull_owned().ok()?,
            Source::Caller(item) => NoneReusable::new(item),
        };
        Some(Given::nowhere(item))
    }
}
