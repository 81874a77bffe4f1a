//! Two rows that are written by the items which are theirs.
use super::*;
use crate::assert_equal::assert_equal;
use lockfree_object_pool::FixedObjectPool;

#[test]
fn each_row_has_its_own_value(rt: HostRuntime) {
    let pool = FixedObjectPool::new(rt.alloc(), Copied::new(0), Keep, 4).expect(&rt, "made");
    let mut one = pool.pull().expect(&rt, "an item is free");
    let mut other = pool.pull().expect(&rt, "an item is free");
    let mut rows = [0; 4];
    if one.number() < 4 && other.number() < 4 {
        write_both(&mut rows, &mut one, &mut other);
    }
    assert_equal(&rt, (rows[0], rows[1], rows[2]), (1, 2, 0));
}
