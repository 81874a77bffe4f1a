use super::*;
use crate::assert_equal::assert_equal;
use crate::home::next_place;
use std::alloc::Global;
use std::process::Abort;

/// Creates a pool of letters, with one owner.
fn pool_of_letters(rt: &impl Abort, alloc: Global) -> Arc<Pool<Vec<u8>>> {
    let letters = Pool::with_recycler(alloc).expect(rt, "a pool is made");
    Arc::new(alloc, letters).expect(rt, "memory is left")
}

#[test]
fn a_greeting_has_five_letters(rt: HostRuntime) {
    let letters = pool_of_letters(&rt, rt.alloc());
    for _ in 0..2 {
        assert_equal(&rt, greeted(&letters), Ok(5));
    }
}

#[test]
fn a_letter_with_a_greeting_comes_back(rt: HostRuntime) {
    let letters = pool_of_letters(&rt, rt.alloc());
    assert_equal(&rt, greeted(&letters), Ok(5));
    assert_equal(&rt, next_place(&rt, &letters), (0, 0));
}
