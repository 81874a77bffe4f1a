//! Workers of a lazy pool.
ghost use Rattle.std.specs.Prelude.{None, ⊤};

use crate::worker_place::WorkerPlace;
use lazy_pools::LazyReusable;
use lazy_pools::near::Near;
use pool_parts::PullError;
use pool_parts::clean::Clean;
use pool_parts::closures::{Init, Reset};

impl<'p, T: Drop, I: Init<T, K>, R: Reset<T, K>, K: Clean<T>> WorkerPlace<T>
    for Near<'p, T, I, R, K> {
    ghost use Rattle.lazy_pools.specs.LazyPool.{Pulls, lazy_view};
    ghost use Rattle.pool_parts.specs.Answers.{RefusesOrClosed};

    type Item = LazyReusable<'p, T, I, R, K>;

    ghost is_pulled = { λ item.
        Pulls K.meets I.answers R.leaves (lazy_view item.pool.now) item.item item.value };

    ghost refuses = { λ place. RefusesOrClosed ⊥ (I.answers (lazy_view place.pool.now).init None) ⊤ };

    fn pull(&self) -> Result<LazyReusable<'p, T, I, R, K>, PullError> {
        Near::pull(self)
    }

    #[inline(always)]
    fn is_closed(&self) -> bool {
        self.pool.is_closed()
    }
}
