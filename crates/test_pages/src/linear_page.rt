//! Chains in use. Here stands how the tests hold a page as a whole and come to the page behind it.
use page_chain::linear_page::{Chain, LinearPage};
use pool_parts::PullError;
use pool_parts::clean::{AnyValue, Clean};
use pool_parts::page::{Allocated, PullPass};
use std::mem;
use std::process::Abort;

mod links;
mod lost_race;
mod refusals;
mod sends;

type Zeros = Chain<u32, AnyValue>;

type ZeroPage<'c> = LinearPage<'c, u32, AnyValue>;

/// Takes all items of a page out for good, without memory. The test ends where one is out already.
fn forget_all<T: Drop>(rt: &impl Abort, page: &LinearPage<'_, T, AnyValue>) {
    for _ in 0..32 {
        let slot = page.page().alloc().ok().flatten();
        mem::forget(slot.expect(rt, "an item is free"));
    }
}

/// The page behind one that is full.
fn behind_full<'c, T: Drop, I: Fn() -> Option<T>>(
    page: &LinearPage<'c, T, AnyValue>,
    init: &I,
) -> Option<LinearPage<'c, T, AnyValue>>
    requires { I.pre init.now }
{
    let pass = PullPass::new();
    match page.page().try_alloc(&pass) {
        Ok(Allocated::Full(seen)) => match page.get_or_create_next(seen, init) {
            Ok((next, _)) => Some(next),
            Err(_) => None,
        },
        _ => None,
    }
}

/// The id that a page gives first, which stays out.
fn first_id<T: Drop>(page: &LinearPage<'_, T, AnyValue>) -> Option<u8> {
    match page.page().alloc() {
        Ok(Some(slot)) => Some(slot.id()),
        _ => None,
    }
}

/// The number of the page behind a full one, and the id that it gives first, which stays out.
fn place_behind<T: Drop, I: Fn() -> Option<T>>(
    page: &LinearPage<'_, T, AnyValue>,
    init: &I,
) -> Option<(usize, Option<u8>)>
    requires { I.pre init.now }
{
    match behind_full(page, init) {
        Some(next) => Some((next.number(), first_id(&next))),
        None => None,
    }
}
