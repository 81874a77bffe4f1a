//! A 9 in a pool of zeros.
use super::*;
use crate::assert_equal::assert_equal;

#[test]
fn an_attached_item_is_shown_and_comes_again_reset(rt: HostRuntime) {
    let pool = MutexObjectPool::new(rt.alloc(), Copied::new(0), Copied::new(0));
    let shown = by_mutex(&rt, &pool).ok();
    assert_equal(&rt, shown, Some(9));
    assert_equal(&rt, pool.kept(&rt), 1);
    let next = pulled_next(&rt, rt.alloc()).ok();
    assert_equal(&rt, next, Some(0));
}
