//! A pool of two buffers, each made when it is first needed.
use super::*;
use crate::assert_equal::assert_equal;

#[test]
fn a_buffer_is_made_when_it_is_needed(rt: HostRuntime) {
    let pool = LazyPool::with_recycler(rt.alloc(), 2).expect(&rt, "a pool is made");
    for text in [b"hello", b"again"] {
        assert_equal(&rt, length_before(&rt, &pool, text), Ok(0));
    }
    assert_equal(&rt, pool.made(), 1);
}
