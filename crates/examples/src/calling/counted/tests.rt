//! A pool of one buffer, which is held once.
use super::*;
use crate::assert_equal::assert_equal;

#[test]
fn a_pull_that_finds_no_buffer_free_is_counted(rt: HostRuntime) {
    let buffers = CountedBuffers::new(rt.alloc(), 1).expect(&rt, "a pool is made");
    assert_equal(&rt, buffers.write(rt.alloc(), b"hello"), Ok(5));
    let held = buffers.pool.pull().expect(&rt, "the buffer is free");
    assert_equal(&rt, buffers.write(rt.alloc(), b"again!"), Ok(6));
    drop(held);
    assert_equal(&rt, buffers.counts(), (2, 1, 1));
}
