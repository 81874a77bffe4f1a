//! Callers that need a pool and its reusables to be sent and shared, each under the least that its
//! parts have to allow.
use lazy_pools::clean::Clean;
use lazy_pools::closures::{Init, Reset};
use lazy_pools::{LazyObjectPool, LazyOwnedReusable, LazyReusable};

fn sent<X: Send>(_value: &X) {}

fn shared<X: Sync>(_value: &X) {}

fn pool_sent<T: Send + Drop, I: Init<T, K> + Send, R: Reset<T, K> + Send, K: Clean<T>>(
    pool: &LazyObjectPool<T, I, R, K>,
) {
    sent(pool);
}

fn pool_shared<
    T: Send + Drop,
    I: Init<T, K> + Send + Sync,
    R: Reset<T, K> + Send + Sync,
    K: Clean<T>,
>(pool: &LazyObjectPool<T, I, R, K>) {
    shared(pool);
}

fn reusables_sent<
    T: Send + Drop,
    I: Init<T, K> + Send + Sync,
    R: Reset<T, K> + Send + Sync,
    K: Clean<T>,
>(item: &LazyReusable<'_, T, I, R, K>, owned: &LazyOwnedReusable<T, I, R, K>) {
    sent(item);
    sent(owned);
}

fn reusables_shared<
    T: Send + Sync + Drop,
    I: Init<T, K> + Send + Sync,
    R: Reset<T, K> + Send + Sync,
    K: Clean<T>,
>(item: &LazyReusable<'_, T, I, R, K>, owned: &LazyOwnedReusable<T, I, R, K>) {
    shared(item);
    shared(owned);
}
