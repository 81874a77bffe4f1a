//! Workers of a linear pool.
ghost use Rattle.std.specs.Prelude.{None, IsSome, ⊤};

use crate::worker_place::WorkerPlace;
use linear_pools::{LinearObjectPool, LinearReusable};
use pool_parts::PullError;
use pool_parts::clean::Clean;
use pool_parts::closures::{Init, Reset};

impl<'p, T: Drop, I: Init<T, K>, R: Reset<T, K>, K: Clean<T>> WorkerPlace<T>
    for &'p LinearObjectPool<T, I, R, K> {
    ghost use Rattle.linear_pools.specs.LinearPool.{Pulls, linear_view};
    ghost use Rattle.pool_parts.specs.Answers.{Refuses};

    type Item = LinearReusable<'p, T, I, R, K>;

    ghost is_pulled = { λ item.
        Pulls K.meets I.answers R.leaves item.pool item.number item.item };

    ghost refuses = { λ pool.
        Refuses ⊤ (I.answers (linear_view pool.now).init None)
        (IsSome (linear_view pool.now).limit) };

    fn pull(&self) -> Result<LinearReusable<'p, T, I, R, K>, PullError> {
        let pool = *self;
        pool.pull()
    }
}
