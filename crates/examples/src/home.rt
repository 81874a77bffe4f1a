//! Looks at the items of a pool that came home, and joins threads.
use lockfree_object_pool::LinearObjectPool;
use lockfree_object_pool::clean::{Clean, Empty};
use lockfree_object_pool::closures::{Clear, Init, Reset, WithCapacity};
use std::mem;
use std::process::Abort;
use std::thread::{JoinHandle, Threads};

/// Counts the items of a pool that are home. Each is taken out for good, so that it takes no memory
/// to hold them.
pub(crate) fn take_all<X: Drop>(
    pool: &LinearObjectPool<Vec<X>, WithCapacity, Clear, Empty>,
) -> usize {
    for taken in 0..1_000 {
        match pool.pull() {
            Ok(item) => mem::forget(item),
            Err(_) => return taken,
        }
    }
    1_000
}

/// Returns the place of the item that a pool gives next: the number of its page, and its id there.
pub(crate) fn next_place<T: Drop, I: Init<T, K>, R: Reset<T, K>, K: Clean<T>>(
    rt: &impl Abort,
    pool: &LinearObjectPool<T, I, R, K>,
) -> (usize, u8) {
    let item = pool.pull().expect(rt, "an item is home");
    (item.page_number(), item.page_id())
}

/// Joins all of these threads, and returns whether all went well in each.
pub(crate) fn all_went_well<R: Threads>(rt: &R, threads: Vec<JoinHandle<bool>>) -> bool {
    let mut well = true;
    for thread in threads {
        well = thread.join(rt) && well;
    }
    well
}
