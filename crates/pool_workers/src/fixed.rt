//! Workers of a fixed pool.
ghost use Rattle.std.specs.Prelude.{◌≡◌, ◌+◌};
ghost use Rattle.pool_parts.specs.declared.pull_error.PullError.TheVariants.{Limit};

use crate::worker_place::WorkerPlace;
use fixed_pools::FixedReusable;
use fixed_pools::near::Near;
use pool_parts::PullError;
use pool_parts::clean::Clean;
use pool_parts::closures::{Init, Reset};

impl<'p, T: Drop, I: Init<T, K>, R: Reset<T, K>, K: Clean<T>> WorkerPlace<T>
    for Near<'p, T, I, R, K> {
    ghost use Rattle.fixed_pools.specs.FixedPool.{Pulls, fixed_view, returns_since};
    ghost use Rattle.pool_parts.specs.Item.{new_user};

    type Item = FixedReusable<'p, T, I, R, K>;

    ghost is_pulled = { λ item.
        Pulls K.meets I.answers R.leaves item.pool.now (returns_since item.known + 1)
        (new_user (fixed_view item.pool.now).opening item.item.holder) item.item item.known };

    ghost refuses = { λ _ error. error ≡ Limit };

    fn pull(&self) -> Result<FixedReusable<'p, T, I, R, K>, PullError> {
        Near::pull(self)
    }
}
