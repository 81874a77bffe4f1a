use super::*;
use crate::assert_equal::assert_equal;
use crate::home::{next_place, take_all};
use lockfree_object_pool::closures::{Copied, Keep};
use std::alloc::Global;
use std::process::Abort;

/// Puts one byte into what a store lends, and returns whether it is the only one.
fn put_one(bytes: &mut Vec<u8>) -> bool {
    bytes.push(1).is_ok() && bytes.len() == 1
}

/// Puts one byte into what a store lends, and returns whether it did so or left it empty.
fn put_one_or_none(bytes: &mut Vec<u8>) -> bool {
    bytes.push(1).is_ok() || bytes.is_empty()
}

#[test]
fn stores_lend_what_their_pools_have(rt: HostRuntime) {
    let pool = Pool::with_recycler(rt.alloc()).expect(&rt, "a pool is made");
    let store = Store::<Vec<u8>> { pool };
    assert_equal(&rt, store.lend(&put_one), Ok(true));
    let shown = format!(in rt.alloc(); "{store:?}").expect(&rt, "memory is left");
    let expected = "Store { pool: LinearObjectPool { limit: None, .. } }";
    assert_equal(&rt, shown.as_str(), expected);
}

#[test]
fn sheets_come_empty(rt: HostRuntime) {
    let room = WithCapacity::new(rt.alloc(), 4);
    let pool = LinearObjectPool::new(rt.alloc(), room, Clear).expect(&rt, "a pool is made");
    let sheets = Sheets { pool };
    assert_equal(&rt, sheets.letters(), Ok(0));
}

/// Creates an arena of sevens.
fn new_arena(rt: &impl Abort, alloc: Global) -> Arena<u32, Copied<u32, AnyValue>, Keep> {
    let pool = LinearObjectPool::new(alloc, Copied::new(7), Keep).expect(rt, "a pool is made");
    Arena { pool }
}

#[test]
fn an_arena_has_a_value(rt: HostRuntime) {
    let arena = new_arena(&rt, rt.alloc());
    assert!(rt; arena.has_one());
}

/// Whichever request is refused, what a store lends comes back: else forty values would be of more
/// than a page.
#[test]
fn lent_values_come_back_where_memory_was_refused(rt: HostRuntime) {
    let Ok(pool) = Pool::with_recycler(rt.alloc()) else {
        return;
    };
    let store = Store::<Vec<u8>> { pool };
    for _ in 0..40 {
        assert_equal(&rt, store.lend(&put_one_or_none), Ok(true));
    }
    assert_equal(&rt, next_place(&rt, &store.pool), (0, 0));
}

#[test]
fn a_sheet_whose_letters_are_counted_comes_back(rt: HostRuntime) {
    let alloc = rt.alloc();
    let pool = LinearObjectPool::with_limit(alloc, WithCapacity::new(alloc, 4), Clear, 1).expect(
        &rt,
        "a pool is made",
    );
    let sheets = Sheets { pool };
    assert_equal(&rt, sheets.letters(), Ok(0));
    assert_equal(&rt, take_all(&sheets.pool), 32);
}

#[test]
fn the_value_that_an_arena_looks_for_comes_back(rt: HostRuntime) {
    let arena = new_arena(&rt, rt.alloc());
    assert!(rt; arena.has_one());
    assert_equal(&rt, next_place(&rt, &arena.pool), (0, 0));
}
