//! Counters that are made by default, and a pool that has none left.
use super::*;
use crate::assert_equal::assert_equal;
use std::io::ErrorKind;

#[test]
fn each_counter_begins_at_zero(rt: HostRuntime) {
    let counters = new_counters(rt.alloc(), 3).expect(&rt, "a pool is made");
    for _ in 0..4 {
        assert_equal(
            &rt,
            count_once(&counters).expect(&rt, "a counter is free"),
            1,
        );
    }
}

#[test]
fn a_pool_with_no_counter_left_is_a_busy_resource(rt: HostRuntime) {
    let counters = new_counters(rt.alloc(), 1).expect(&rt, "a pool is made");
    let held = counters.pull().expect(&rt, "a counter is free");
    let refused = match count_once(&counters) {
        Ok(_) => None,
        Err(error) => Some(error.kind()),
    };
    assert_equal(&rt, refused, Some(ErrorKind::ResourceBusy));
    drop(held);
    assert_equal(
        &rt,
        count_once(&counters).expect(&rt, "a counter is free"),
        1,
    );
}
