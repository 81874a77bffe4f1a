//! Callers that need workers to be sent.
use fixed_pools::near::Near as FixedNear;
use lazy_pools::near::Near as LazyNear;
use linear_pools::LinearObjectPool;
use pool_parts::clean::Clean;
use pool_parts::closures::{Init, Reset};
use pool_workers::Worker;

fn sent<X: Send>(_value: &X) {}

fn worker_of_a_fixed_pool_sent<
    T: Send + Drop,
    I: Init<T, K> + Send + Sync,
    R: Reset<T, K> + Send + Sync,
    K: Clean<T>,
>(worker: &Worker<T, FixedNear<'_, T, I, R, K>>) {
    sent(worker);
}

fn worker_of_a_lazy_pool_sent<
    T: Send + Drop,
    I: Init<T, K> + Send + Sync,
    R: Reset<T, K> + Send + Sync,
    K: Clean<T>,
>(worker: &Worker<T, LazyNear<'_, T, I, R, K>>) {
    sent(worker);
}

fn worker_of_a_linear_pool_sent<
    T: Send + Drop,
    I: Init<T, K> + Send + Sync,
    R: Reset<T, K> + Send + Sync,
    K: Clean<T>,
>(worker: &Worker<T, &LinearObjectPool<T, I, R, K>>) {
    sent(worker);
}
