//! Callers that need pools, items, locks and their guards to be sent and shared, each under the
//! least that its parts have to allow.
use history_lock::{HistoryLock, Law, Seen};
use none_pools::{NoneObjectPool, NoneReusable};
use pool_parts::clean::Clean;
use pool_parts::closures::{Init, Reset};
use pool_parts::made_or_reset::MadeOrReset;
use stack_pools::free_list::FreeList;
use stack_pools::spin_lock::{SpinLock, SpinLockGuard};
use stack_pools::stack::{Room, Stack};
use stack_pools::stack_object_pool::StackObjectPool;
use stack_pools::stack_reusable::StackReusable;
use stack_pools::{
    MutexObjectPool, MutexOwnedReusable, MutexReusable, SpinLockObjectPool, SpinLockOwnedReusable,
    SpinLockReusable,
};
use std::sync::{Arc, Wait};

fn sent<X: Send>(_value: &X) {}

fn shared<X: Sync>(_value: &X) {}

fn pools_sent<T: Send + Drop, I: Init<T, K> + Send, R: Reset<T, K> + Send, K: Clean<T> + Send>(
    mutex: &MutexObjectPool<T, I, R, K>,
    spin_lock: &SpinLockObjectPool<T, I, R, K>,
) {
    sent(mutex);
    sent(spin_lock);
}

fn pools_shared<
    T: Send + Drop,
    I: Init<T, K> + Send + Sync,
    R: Reset<T, K> + Send + Sync,
    K: Clean<T> + Send,
>(mutex: &MutexObjectPool<T, I, R, K>, spin_lock: &SpinLockObjectPool<T, I, R, K>) {
    shared(mutex);
    shared(spin_lock);
}

fn items_sent<
    T: Send + Drop,
    I: Init<T, K> + Send + Sync,
    R: Reset<T, K> + Send + Sync,
    K: Clean<T> + Send,
    W: Wait + Copy + Send,
>(
    mutex: &MutexReusable<'_, T, I, R, W, K>,
    mutex_owned: &MutexOwnedReusable<T, I, R, W, K>,
    spin_lock: &SpinLockReusable<'_, T, I, R, W, K>,
    spin_lock_owned: &SpinLockOwnedReusable<T, I, R, W, K>,
) {
    sent(mutex);
    sent(mutex_owned);
    sent(spin_lock);
    sent(spin_lock_owned);
}

/// Items over a list that may be shared.
fn borrowed_shared<
    T: Send + Sync + Drop,
    I: Init<T, K> + Send + Sync,
    R: Reset<T, K> + Send + Sync,
    K: Clean<T> + Send,
    F: FreeList<T, MadeOrReset<I, R, K>> + Send + Sync,
    W: Wait + Copy + Send + Sync,
>(item: &StackReusable<T, &StackObjectPool<T, I, R, K, F>, W>) {
    shared(item);
}

fn owned_shared<
    T: Send + Sync + Drop,
    I: Init<T, K> + Send + Sync,
    R: Reset<T, K> + Send + Sync,
    K: Clean<T> + Send,
    F: FreeList<T, MadeOrReset<I, R, K>> + Send + Sync,
    W: Wait + Copy + Send + Sync,
>(item: &StackReusable<T, Arc<StackObjectPool<T, I, R, K, F>>, W>) {
    shared(item);
}

fn items_shared<
    T: Send + Sync + Drop,
    I: Init<T, K> + Send + Sync,
    R: Reset<T, K> + Send + Sync,
    K: Clean<T> + Send,
    W: Wait + Copy + Send + Sync,
>(
    mutex: &MutexReusable<'_, T, I, R, W, K>,
    mutex_owned: &MutexOwnedReusable<T, I, R, W, K>,
    spin_lock: &SpinLockReusable<'_, T, I, R, W, K>,
    spin_lock_owned: &SpinLockOwnedReusable<T, I, R, W, K>,
) {
    borrowed_shared(mutex);
    owned_shared(mutex_owned);
    borrowed_shared(spin_lock);
    owned_shared(spin_lock_owned);
}

fn parts_sent<T: Send>(
    lock: &SpinLock<T>,
    guard: &SpinLockGuard<'_, T>,
    room: &Room<T>,
    item: &NoneReusable<T>,
) {
    sent(lock);
    shared(lock);
    sent(guard);
    sent(room);
    sent(item);
}

fn guard_shared<T: Send + Sync>(guard: &SpinLockGuard<'_, T>) {
    shared(guard);
}

fn stack_lock_shared<T: Send, K: Clean<T> + Send>(lock: &SpinLock<Stack<T, K>>) {
    shared(lock);
}

fn none_pool_sent<T, I: Fn() -> Option<T> + Send>(pool: &NoneObjectPool<T, I>) {
    sent(pool);
}

fn none_pool_shared<T, I: Fn() -> Option<T> + Sync>(pool: &NoneObjectPool<T, I>) {
    shared(pool);
}

fn none_item_shared<T: Sync>(item: &NoneReusable<T>) {
    shared(item);
}

fn history_lock_sent<T: Send, E, L: Law<T, E>>(lock: &HistoryLock<T, E, L>, seen: &Seen<E>) {
    sent(lock);
    shared(lock);
    sent(seen);
}

fn seen_shared<E: Sync>(seen: &Seen<E>) {
    shared(seen);
}
