//! Two items of two pages of a linear pool.
use linear_pools::clean::AnyValue;
use linear_pools::closures::{Copied, Keep};
use linear_pools::{LinearObjectPool, PullError};
use pool_laws::two_items::{are_two, pull_two, return_two};
use std::test::Fail;

/// How many items of the first page are held before.
const HELD: usize = 31;

#[test]
fn the_last_item_of_a_page_and_the_first_of_the_next_one(rt: HostRuntime) -> Result<(), Fail> {
    let alloc = rt.alloc();
    let pool = LinearObjectPool::<u32, _, _, AnyValue>::new(alloc, Copied::new(0), Keep)?;
    let mut held = Vec::new(alloc);
    for _ in 0..HELD {
        held.push(pool.pull()?)?;
    }
    let (one, other) = pull_two(&pool)?;
    assert_eq!(rt; (one.page_number(), other.page_number()), (0, 1));
    if one.page_number() != other.page_number() {
        return_two(one, other);
    }
    // both are free again: the pull that asks the first page gives its one free item
    assert_eq!(rt; pool.pull()?.page_number(), 0);
    Ok(())
}

#[test]
fn two_items_of_a_further_page(rt: HostRuntime) -> Result<(), Fail> {
    let alloc = rt.alloc();
    let pool = LinearObjectPool::<u32, _, _, AnyValue>::new(alloc, Copied::new(0), Keep)?;
    let mut held = Vec::new(alloc);
    for _ in 0..HELD + 1 {
        held.push(pool.pull()?)?;
    }
    let (mut one, mut other) = pull_two(&pool)?;
    assert_eq!(rt; (one.page_number(), other.page_number()), (1, 1));
    if one.page_number() == other.page_number() {
        are_two(&mut one, &mut other);
    }
    assert_eq!(rt; (one.page_id(), other.page_id()), (0, 1));
    Ok(())
}

#[test]
fn the_last_item_at_the_limit_is_free_again_where_two_are_refused(
    rt: HostRuntime,
) -> Result<(), Fail> {
    let alloc = rt.alloc();
    let pool = LinearObjectPool::<u32, _, _, AnyValue>::with_limit(alloc, Copied::new(0), Keep, 1)?;
    let mut held = Vec::new(alloc);
    for _ in 0..HELD {
        held.push(pool.pull()?)?;
    }
    assert_eq!(rt; pull_two(&pool).err(), Some(PullError::Limit));
    assert_eq!(rt; pool.pull()?.page_id(), 31);
    Ok(())
}
