//! The pool that keeps nothing.
use crate::assert_equal::assert_equal;
use lockfree_object_pool::{NoneObjectPool, NoneReusable, PullError};

#[test]
fn each_item_is_made(rt: HostRuntime) -> Result<(), PullError> {
    let pool = NoneObjectPool::new(|| Some(0u32));
    let item = pool.pull()?; // its drop ends it
    assert_equal(&rt, *item, 0);
    let mut item = NoneReusable::new(5);
    *item = 6;
    assert_equal(&rt, *item, 6);
    Ok(())
}
