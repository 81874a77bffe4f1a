//! The pools of these tests, and the places where their workers pull.
ghost use Rattle.std.specs.Prelude.{◌≤◌};

use fixed_pools::near::Near as FixedNear;
use fixed_pools::{FixedObjectPool, FixedReusable};
use lazy_pools::near::Near as LazyNear;
use lazy_pools::{LazyObjectPool, LazyReusable};
use linear_pools::{LinearObjectPool, LinearReusable};
use pool_model::book::Book;
use pool_model::value::{Closures, Value};
use pool_parts::PullError;
use std::alloc::Global;
use std::sync::Arc;

pub type Fixed = FixedObjectPool<Value, Closures, Closures>;

pub type Lazy = LazyObjectPool<Value, Closures, Closures>;

pub type Linear = LinearObjectPool<Value, Closures, Closures>;

/// Creates a fixed pool of so many items.
pub fn fixed_of(alloc: Global, book: &Arc<Book>, items: usize) -> Result<Fixed, PullError>
    requires { 1 ≤ items }
{
    FixedObjectPool::new(alloc, Closures::new(book)?, Closures::new(book)?, items)
}

/// Creates a lazy pool of so many items.
pub fn lazy_of(alloc: Global, book: &Arc<Book>, items: usize) -> Result<Lazy, PullError>
    requires { 1 ≤ items }
{
    LazyObjectPool::new(alloc, Closures::new(book)?, Closures::new(book)?, items)
}

/// Creates a linear pool of at most so many pages.
pub fn linear_of(alloc: Global, book: &Arc<Book>, pages: usize) -> Result<Linear, PullError>
    requires { 1 ≤ pages }
{
    LinearObjectPool::with_limit(alloc, Closures::new(book)?, Closures::new(book)?, pages)
}

/// The number of an item in its pool, and how many values were made before its value.
pub type Seen = (usize, usize);

/// A pool that workers and others use. `P` is where a worker pulls, and `Item` what
/// the pool gives there.
pub trait Shared<P, Item>: Copy {
    /// Returns a place for a worker, and the page at which its pulls begin.
    fn place(self) -> (P, usize);

    /// Returns the number of an item in its pool.
    fn number_of(item: &Item) -> usize;

    /// Another user pulls an item and returns it.
    ///
    /// # Errors
    ///
    /// As of the pool's own pull.
    fn visit(self) -> Result<Seen, PullError>;

    /// Returns how many items there were at once at most, and how many are in use, if the pool
    /// counts them.
    fn counted(self) -> Option<(usize, usize)>;

    /// Closes the pool, if it can be closed.
    fn close(self);
}

impl<'p> Shared<
    FixedNear<'p, Value, Closures, Closures>,
    FixedReusable<'p, Value, Closures, Closures>,
> for &'p Fixed {
    fn place(self) -> (FixedNear<'p, Value, Closures, Closures>, usize) {
        let place = self.near();
        let page = place.page_number();
        (place, page)
    }

    fn number_of(item: &FixedReusable<'p, Value, Closures, Closures>) -> usize {
        item.number()
    }

    fn visit(self) -> Result<Seen, PullError> {
        let item = self.pull()?;
        Ok((item.number(), item.serial))
    }

    fn counted(self) -> Option<(usize, usize)> {
        None
    }

    fn close(self) {}
}

impl<'p> Shared<
    LazyNear<'p, Value, Closures, Closures>,
    LazyReusable<'p, Value, Closures, Closures>,
> for &'p Lazy {
    fn place(self) -> (LazyNear<'p, Value, Closures, Closures>, usize) {
        let place = self.near();
        let page = place.page_number();
        (place, page)
    }

    fn number_of(item: &LazyReusable<'p, Value, Closures, Closures>) -> usize {
        item.number()
    }

    fn visit(self) -> Result<Seen, PullError> {
        let item = self.pull()?;
        Ok((item.number(), item.serial))
    }

    fn counted(self) -> Option<(usize, usize)> {
        Some((self.made(), self.in_use()))
    }

    fn close(self) {
        LazyObjectPool::close(self);
    }
}

/// The number of an item, by its page's and that in the page.
fn number_of(page: usize, id: u8) -> usize {
    page.wrapping_mul(32).wrapping_add(id as usize)
}

impl<'p> Shared<&'p Linear, LinearReusable<'p, Value, Closures, Closures>> for &'p Linear {
    fn place(self) -> (&'p Linear, usize) {
        (self, 0)
    }

    fn number_of(item: &LinearReusable<'p, Value, Closures, Closures>) -> usize {
        number_of(item.page_number(), item.page_id())
    }

    fn visit(self) -> Result<Seen, PullError> {
        let item = self.pull()?;
        Ok((number_of(item.page_number(), item.page_id()), item.serial))
    }

    fn counted(self) -> Option<(usize, usize)> {
        None
    }

    fn close(self) {}
}
