//! A place at which one user of a lazy pool begins its pulls.
ghost use Rattle.std.specs.Prelude.{◌≡◌, ◌*◌, ◌<◌, None, IfOk, IfErr, ◌+◌, ⊤};

use crate::lazy_object_pool::LazyObjectPool;
use crate::lazy_reusable::LazyReusable;
use fixed_pools::fixed_object_pool::order::Order;
use fixed_pools::own_page::OwnPage;
use pool_parts::PullError;
use pool_parts::clean::{AnyValue, Clean};
use pool_parts::closures::{Init, Reset};

/// A lazy pool with a page at which pulls begin, for one thread that uses the pool again and again.
///
/// Its pulls make items on a page of their own. So the pool may make more items than were in use at
/// once. A page that had no free item is left: the next pull begins a page further.
///
/// # Examples
///
/// ```rust
/// let near = pool.near(); // one for each thread
/// for _ in 0..1_000 {
///     let mut item = near.pull()?; // meets no other thread, as long as the page has a free item
///     *item = 5;
/// }
/// ```
#[derive(Drop)]
pub struct Near<'p, T, I: Init<T, K>, R: Reset<T, K>, K: Clean<T> = AnyValue> {
    /// The pool of which it is a place.
    pub pool: &'p LazyObjectPool<T, I, R, K>,
    /// Where its next pull begins.
    pub own_page: OwnPage,
}

impl<'p, T: Drop, I: Init<T, K>, R: Reset<T, K>, K: Clean<T>> Near<'p, T, I, R, K> {
    ghost use Rattle.pool_parts.specs.Answers.{RefusesOrClosed};
    ghost use Rattle.fixed_pools.specs.FixedPool.{returns_since, IsWithin};
    ghost use Rattle.lazy_pools.specs.LazyPool.{Pulls, lazy_view};

    pub(crate) fn new(pool: &'p LazyObjectPool<T, I, R, K>, page: usize) -> Near<'p, T, I, R, K>
        ensures { result.pool.now ≡ pool.now }
    {
        Near {
            pool,
            own_page: OwnPage::new(page),
        }
    }

    /// Pulls a free item, and makes it if its place is empty. It begins at the page of this place,
    /// and goes on at the hinted one.
    ///
    /// # Errors
    ///
    /// `Limit`, `Init` and `Closed` as [`LazyObjectPool::pull`] says.
    pub fn pull(&self) -> Result<LazyReusable<'p, T, I, R, K>, PullError>
        ensures pool { IfOk result (λ item. item.pool.now ≡ self.now.pool.now) }
        ensures pulled { IfOk result (λ item.
            Pulls K.meets I.answers R.leaves (lazy_view self.now.pool.now) item.item item.value) }
        ensures steps { IfOk result (λ item.
            IsWithin ((lazy_view self.now.pool.now).pages * (returns_since item.known
            + 1)) 0 0 item.known) }
        ensures refused { IfErr result
            (RefusesOrClosed ⊥ (I.answers (lazy_view self.now.pool.now).init None) ⊤) }
    {
        let pool = self.pool;
        if pool.is_closed() {
            return Err(PullError::Closed);
        }
        let begun = self.page_number();
        match pool.places.pull_in_order(begun, Some(Order::Hinted)) {
            Ok(pulled) => {
                self.own_page.go_on(begun, pulled.holding.number);
                pool.reusable(pool, pulled)
            }
            Err(_) => Err(PullError::Limit),
        }
    }

    /// Returns the number of the page at which the next pull begins, counted from 0.
    pub fn page_number(&self) -> usize
        ensures { result < (lazy_view self.now.pool.now).pages }
    {
        self.pool.places.page_round(self.own_page.number())
    }
}
