//! What pulls show, and what is known of a history while no item is held.
use super::parts::{chain_of_zeros, page_of_zeros};
use crate::assert_equal::assert_equal;
use lockfree_object_pool::clean::AnyValue;
use lockfree_object_pool::closures::{Copied, Keep};
use lockfree_object_pool::lazy_object_pool::lazy_refused::{LazyRefused, PullWithError};
use lockfree_object_pool::linear_page::Chain;
use lockfree_object_pool::page::{Page, PullPass};
use lockfree_object_pool::{FixedObjectPool, LazyObjectPool, LinearObjectPool, PullError};

/// Pulls and returns an item, and returns what is known then.
fn tell_of_a_return(page: &Page<u32, AnyValue>) -> Result<u32, PullError> {
    let mut note = page.note(); // knows a beginning of the page's history
    if let Some(mut slot) = page.alloc()? {
        let witness = slot.witness(); // knows what the holder knows
        page.tell(&mut note, witness); // now the note knows it too
        Page::free(slot);
    }
    Ok(page.get_mask())
}

#[test]
fn a_note_is_told_a_witness(rt: HostRuntime) {
    let page = page_of_zeros(rt.alloc()).expect(&rt, "a page is made");
    assert_equal(&rt, tell_of_a_return(&page), Ok(4294967295));
}

/// A fixed pool that keeps what was written last.
type Fixed = FixedObjectPool<u32, Copied<u32, AnyValue>, Keep>;

/// Returns the number of an item that is pulled in one pass.
fn pulled_in_one_pass(pool: &Fixed) -> Option<usize> {
    let pass = PullPass::new();
    match pool.try_pull(&pass) {
        Ok(item) => Some(item.number()),
        Err(_busy) => None, // it shows that each item was seen in use
    }
}

/// Returns the number of an item that is pulled after what a note knows.
fn pulled_by_a_note(pool: &Fixed) -> Option<usize> {
    let pass = PullPass::new();
    let note = pool.note();
    let item = pool.try_pull_from(&pass, note).ok()?; // comes after all that the note knew
    Some(item.number())
}

#[test]
fn a_fixed_pool_shows_that_it_was_busy(rt: HostRuntime) {
    let pool = Fixed::new(rt.alloc(), Copied::new(0), Keep, 1).expect(&rt, "a pool is made");
    assert_equal(
        &rt,
        (pulled_in_one_pass(&pool), pulled_by_a_note(&pool)),
        (Some(0), Some(0)),
    );
    let held = pool.pull().expect(&rt, "the item is free");
    assert_equal(&rt, pulled_in_one_pass(&pool), None);
    drop(held);
}

/// A linear pool that keeps what was written last.
type Linear = LinearObjectPool<u32, Copied<u32, AnyValue>, Keep>;

/// Pulls an item of a linear pool in one walk. Returns its id.
fn pulled_in_one_walk(pool: &Linear) -> Result<u8, PullError> {
    let pass = PullPass::new();
    match pool.try_pull(&pass) {
        Ok(item) => Ok(item.page_id()),
        Err(refusal) => Err(refusal.cause()), // `Limit`, `Memory` or `Init`
    }
}

#[test]
fn a_linear_pool_shows_why_it_refuses(rt: HostRuntime) {
    let pool = Linear::new(rt.alloc(), Copied::new(0), Keep).expect(&rt, "a pool is made");
    assert_equal(&rt, pulled_in_one_walk(&pool), Ok(0));
}

/// A lazy pool that keeps what was written last.
type Lazy = LazyObjectPool<u32, Copied<u32, AnyValue>, Keep>;

/// Returns what a pull of one pass found.
fn found_in_one_pass(pool: &Lazy) -> &'static str {
    let pass = PullPass::new();
    match pool.try_pull(&pass) {
        Ok(_item) => "an item",
        Err(LazyRefused::Busy(_)) => "each item was seen in use",
        Err(LazyRefused::NotMade) => "`init` returned `None`",
        Err(LazyRefused::Closed) => "the pool is closed",
    }
}

/// Returns why an item isn't made by a closure that fails.
fn cause_of_failure(pool: &Lazy) -> &'static str {
    match pool.pull_with(|| Err("the server is down")) {
        Err(PullWithError::Make(cause)) => cause,
        Err(_) => "no item is free",
        Ok(_item) => "an item is there",
    }
}

#[test]
fn a_lazy_pool_shows_why_it_refuses(rt: HostRuntime) {
    let pool = Lazy::new(rt.alloc(), Copied::new(0), Keep, 1).expect(&rt, "a pool is made");
    assert_equal(
        &rt,
        (cause_of_failure(&pool), found_in_one_pass(&pool)),
        ("the server is down", "an item"),
    );
}

/// Returns the number of a chain's second page.
fn number_of_the_second(chain: &Chain<u32, AnyValue>) -> Option<usize> {
    let first = chain.first();
    let (next, _note) = first.next()?; // the note knows which page the link leads to
    Some(next.number())
}

#[test]
fn a_chain_begins_with_one_page(rt: HostRuntime) {
    let chain = chain_of_zeros(rt.alloc()).expect(&rt, "a chain is made");
    assert_equal(&rt, number_of_the_second(&chain), None);
}
