//! Callers that rely on what is proved of a worker's pulls.
ghost use Rattle.std.specs.Prelude.{◌≡◌, ◌<◌, [], IfOk, IfErr};
ghost use Rattle.fixed_pools.specs.FixedPool.{fixed_view};
ghost use Rattle.pool_parts.specs.declared.pull_error.PullError.TheVariants.{Limit};

use crate::assert_equal::assert_equal;
use fixed_pools::FixedObjectPool;
use fixed_pools::recycling::FixedPool;
use lazy_pools::recycling::LazyPool;
use linear_pools::recycling::Pool;
use pool_parts::PullError;
use pool_parts::clean::AnyValue;
use pool_parts::closures::{Copied, Keep};
use pool_workers::Worker;

/// Pulls a vector, which is empty, and writes to it.
fn use_fixed(pool: &FixedPool<Vec<u8>>) -> Result<usize, PullError>
    ensures empty { IfOk result (λ length. length ≡ 0) }
{
    let worker = Worker::new(pool.near());
    worker.pull()?.extend_from_slice(b"fixed")?;
    Ok(worker.pull()?.len())
}

/// The same of a lazy pool.
fn use_lazy(pool: &LazyPool<Vec<u8>>) -> Result<usize, PullError>
    ensures empty { IfOk result (λ length. length ≡ 0) }
{
    let worker = Worker::new(pool.near());
    worker.pull()?.extend_from_slice(b"lazy")?;
    Ok(worker.pull()?.len())
}

/// The same of a linear pool.
fn use_linear(pool: &Pool<Vec<u8>>) -> Result<usize, PullError>
    ensures empty { IfOk result (λ length. length ≡ 0) }
{
    let worker = Worker::new(pool);
    worker.pull()?.extend_from_slice(b"linear")?;
    Ok(worker.pull()?.len())
}

/// Writes to a value, and reads it again.
fn write_twice(pool: &FixedPool<Vec<u8>>) -> Result<usize, PullError>
    ensures written { IfOk result (λ length. length ≡ 2) }
{
    let worker = Worker::new(pool.near());
    let mut item = worker.pull()?;
    item.push(1)?;
    item.push(2)?;
    Ok(item.len())
}

type Numbers = FixedObjectPool<u32, Copied<u32, AnyValue>, Keep>;

/// Returns the number of a worker's item in its pool.
fn number_of(pool: &Numbers) -> Result<usize, PullError>
    ensures refused { IfErr result (λ error. error ≡ Limit) }
{
    let worker = Worker::new(pool.near());
    let item = worker.pull()?;
    Ok(item.item().number())
}

#[test]
fn used_vectors_come_empty(rt: HostRuntime) {
    let fixed = FixedPool::with_recycler(rt.alloc(), 2).expect(&rt, "a pool is made");
    let lazy = LazyPool::with_recycler(rt.alloc(), 2).expect(&rt, "a pool is made");
    let linear = Pool::with_recycler(rt.alloc()).expect(&rt, "a pool is made");
    assert_equal(&rt, use_fixed(&fixed), Ok(0));
    assert_equal(&rt, use_lazy(&lazy), Ok(0));
    assert_equal(&rt, use_linear(&linear), Ok(0));
    assert_equal(&rt, write_twice(&fixed), Ok(2));
}

#[test]
fn an_item_has_its_number(rt: HostRuntime) {
    let pool = Numbers::new(rt.alloc(), Copied::new(7), Keep, 1).expect(&rt, "a pool is made");
    assert_equal(&rt, number_of(&pool), Ok(0));
}
