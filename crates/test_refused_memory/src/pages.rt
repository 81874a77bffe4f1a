//! Pages and chains: what is refused drops what was made for it and links nothing.
use crate::assert_equal::assert_equal;
use crate::refusals::{Refusals, again};
use lockfree_object_pool::PullError;
use lockfree_object_pool::clean::AnyValue;
use lockfree_object_pool::linear_page::{Chain, LinearPage};
use lockfree_object_pool::page::{Allocated, Page, PullPass};
use std::alloc::Global;
use std::mem;
use std::process::Abort;
use std::sync::Arc;
use test_values::tallied::Tallied;
use test_values::tally::Tally;

type TalliedPage<'c> = LinearPage<'c, Tallied, AnyValue>;

fn page(alloc: Global, tally: &Arc<Tally>) -> Result<Page<Tallied, AnyValue>, PullError> {
    Page::new(alloc, &|| Tallied::new(tally))
}

#[test]
fn a_page_that_was_refused_is_asked_again(rt: HostRuntime) {
    let refusals = Refusals::new();
    let tally = refusals.tally(&rt);
    let page = again!(&rt, refusals, page(rt.alloc(), &tally));
    assert_equal(&rt, (page.get_mask(), tally.living()), (u32::MAX, 32));
    drop(page);
    assert_equal(&rt, tally.living(), 0);
    refusals.tell(&rt);
}

/// Takes all items of a page out for good.
fn forget_all(page: &TalliedPage<'_>) -> Option<()> {
    for _ in 0..32 {
        mem::forget(page.page().alloc().ok()??);
    }
    Some(())
}

/// What the page behind a full one is, or why there is none.
fn behind_full<'c>(
    page: &TalliedPage<'c>,
    tally: &Arc<Tally>,
) -> Result<Option<TalliedPage<'c>>, PullError> {
    let pass = PullPass::new();
    match page.page().try_alloc(&pass)? {
        Allocated::Slot(_) => Ok(None),
        Allocated::Full(seen) => {
            let (next, _) = page.get_or_create_next(seen, &|| Tallied::new(tally))?;
            Ok(Some(next))
        }
    }
}

/// A chain whose first page has all its items out for good.
fn used_up(
    rt: &(impl Abort + AllocGlobal),
    refusals: &Refusals,
    tally: &Arc<Tally>,
) -> Chain<Tallied, AnyValue> {
    let make = || Tallied::new(tally);
    let chain = again!(rt, refusals, Chain::new(rt.alloc(), &make));
    assert_equal(rt, tally.living(), 32);
    forget_all(&chain.first()).expect(rt, "32 items are free");
    chain
}

#[test]
fn a_link_that_was_refused_is_asked_again(rt: HostRuntime) {
    let refusals = Refusals::new();
    let tally = refusals.tally(&rt);
    let chain = used_up(&rt, &refusals, &tally);
    let first = chain.first();
    let mut next = behind_full(&first, &tally);
    if refusals.are_told_by(&next) {
        assert_equal(&rt, (first.next().is_none(), tally.living()), (true, 32));
        next = behind_full(&first, &tally);
    }
    let next = next.expect(&rt, "one request alone is refused");
    let number = next.expect(&rt, "the first page is full").number();
    assert_equal(&rt, (number, tally.living()), (1, 64));
    assert_equal(&rt, first.next().is_some(), true);
    refusals.tell(&rt);
}

#[test]
fn a_walk_that_was_refused_is_asked_again(rt: HostRuntime) {
    let refusals = Refusals::new();
    let tally = refusals.tally(&rt);
    let chain = used_up(&rt, &refusals, &tally);
    let first = chain.first();
    let make = || Tallied::new(&tally);
    let (slot, pages) = again!(&rt, refusals, first.alloc(&make));
    assert_equal(&rt, (slot.id(), pages, tally.living()), (0, 1, 64));
    let (owned, pages) = again!(&rt, refusals, first.alloc_owned(&make));
    assert_equal(&rt, (owned.id(), pages, tally.living()), (1, 1, 64));
    refusals.tell(&rt);
}

#[test]
fn a_bounded_walk_that_was_refused_is_asked_again(rt: HostRuntime) {
    let refusals = Refusals::new();
    let tally = refusals.tally(&rt);
    let chain = used_up(&rt, &refusals, &tally);
    let first = chain.first();
    let make = || Tallied::new(&tally);
    let (owned, pages) = again!(&rt, refusals, first.alloc_owned_within(2, &make));
    assert_equal(&rt, (owned.id(), pages, tally.living()), (0, 1, 64));
    let (slot, pages) = again!(&rt, refusals, first.alloc_within(2, &make));
    assert_equal(&rt, (slot.id(), pages, tally.living()), (1, 1, 64));
    refusals.tell(&rt);
}
