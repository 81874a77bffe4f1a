//! An item that two threads read.
use super::*;
use crate::assert_equal::assert_equal;
use lockfree_object_pool::LinearObjectPool;

#[test]
fn two_threads_read_what_was_written(rt: HostRuntime) {
    let pool = LinearObjectPool::new(rt.alloc(), Copied::new(0), Keep).expect(&rt, "made");
    let mut item = pool.pull().expect(&rt, "an item is free");
    *item = 7;
    assert_equal(&rt, read_twice(&rt, &item), (7, 7));
}
