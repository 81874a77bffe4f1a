//! One who uses its scratch again.
use super::*;
use crate::assert_equal::assert_equal;
use crate::home::next_place;
use std::process::Abort;

/// Creates one with a pool of its own.
fn new_gatherer(rt: &impl Abort, alloc: Global) -> Gatherer {
    let pool = Pool::with_recycler(alloc).expect(rt, "a pool is made");
    Gatherer { pool }
}

#[test]
fn each_use_finds_the_scratch_clean(rt: HostRuntime) {
    let gatherer = new_gatherer(&rt, rt.alloc());
    for _ in 0..2 {
        assert_equal(&rt, gatherer.use_once(), Some((0, 0)));
    }
}

#[test]
fn a_used_scratch_comes_back(rt: HostRuntime) {
    let gatherer = new_gatherer(&rt, rt.alloc());
    assert_equal(&rt, gatherer.use_once(), Some((0, 0)));
    assert_equal(&rt, next_place(&rt, &gatherer.pool), (0, 0));
}
