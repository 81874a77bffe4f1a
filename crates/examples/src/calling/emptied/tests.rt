use super::*;
use crate::assert_equal::assert_equal;
use std::cell::Cell;

#[test]
fn a_used_vector_comes_empty(rt: HostRuntime) {
    assert_equal(&rt, none_left(rt.alloc()), Ok(0));
}

/// A vector that was used is reset, and so is the one that is pulled behind it.
#[test]
fn a_used_vector_comes_back(rt: HostRuntime) {
    let alloc = rt.alloc();
    let resets = Cell::new(0u32);
    let length = length_left(
        alloc,
        || Some(Vec::new(alloc)),
        |bytes: &mut Vec<u8>| {
            resets.set(resets.get().wrapping_add(1));
            bytes.clear();
        },
    );
    assert_equal(&rt, (length, resets.get()), (Ok(0), 2));
}
