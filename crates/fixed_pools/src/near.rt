//! A place at which one user of a fixed pool begins its pulls.
ghost use Rattle.std.specs.Prelude.{◌≡◌, ◌+◌, ◌<◌, IfOk, IfErr};
ghost use Rattle.pool_parts.specs.declared.pull_error.PullError.TheVariants.{Limit};

use crate::fixed_object_pool::FixedObjectPool;
use crate::fixed_object_pool::order::Order;
use crate::fixed_reusable::FixedReusable;
use crate::own_page::OwnPage;
use pool_parts::PullError;
use pool_parts::clean::{AnyValue, Clean};
use pool_parts::closures::{Init, Reset};

/// A fixed pool with a page at which pulls begin, for one thread that uses the pool again and
/// again.
///
/// A page that had no free item is left: the next pull begins a page further. So the places of many
/// threads stay apart, also where each thread holds more items than a page has.
///
/// # Examples
///
/// ```rust
/// let near = pool.near(); // one for each thread
/// for _ in 0..1_000 {
///     let mut item = near.pull()?; // meets no other thread, as long as the page has a free item
///     *item = 5;
/// }
/// ```
#[derive(Drop)]
pub struct Near<'p, T, I: Init<T, K>, R: Reset<T, K>, K: Clean<T> = AnyValue> {
    /// The pool of which it is a place.
    pub pool: &'p FixedObjectPool<T, I, R, K>,
    /// Where its next pull begins.
    pub own_page: OwnPage,
}

impl<'p, T: Drop, I: Init<T, K>, R: Reset<T, K>, K: Clean<T>> Near<'p, T, I, R, K> {
    ghost use Rattle.fixed_pools.specs.FixedPool.{Pulls, fixed_view, returns_since};
    ghost use Rattle.pool_parts.specs.Item.{new_user};

    pub(crate) fn new(pool: &'p FixedObjectPool<T, I, R, K>, page: usize) -> Near<'p, T, I, R, K>
        ensures { result.pool.now ≡ pool.now }
    {
        Near {
            pool,
            own_page: OwnPage::new(page),
        }
    }

    /// Pulls a free item as [`FixedObjectPool::pull_near`] does, at the page of this place.
    ///
    /// # Errors
    ///
    /// `Limit`, as of [`FixedObjectPool::pull`].
    pub fn pull(&self) -> Result<FixedReusable<'p, T, I, R, K>, PullError>
        ensures pool { IfOk result (λ item. item.pool.now ≡ self.now.pool.now) }
        ensures pulled { IfOk result (λ item.
            Pulls K.meets I.answers R.leaves self.now.pool.now (returns_since item.known + 1)
            (new_user (fixed_view self.now.pool.now).opening item.item.holder) item.item
            item.known) }
        ensures refused { IfErr result (λ error. error ≡ Limit) }
    {
        let begun = self.page_number();
        match self.pool.items.pull_in_order(begun, Some(Order::Hinted)) {
            Ok(pulled) => {
                self.own_page.go_on(begun, pulled.holding.number);
                Ok(FixedReusable::new(self.pool, pulled))
            }
            Err(_) => Err(PullError::Limit),
        }
    }

    /// Returns the number of the page at which the next pull begins, counted from 0.
    pub fn page_number(&self) -> usize
        ensures { result < (fixed_view self.now.pool.now).pages }
    {
        self.pool.items.page_round(self.own_page.number())
    }
}
