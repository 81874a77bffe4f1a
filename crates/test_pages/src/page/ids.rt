//! The ids of a page that two threads share, also where they lose clearings to each other, and
//! items that are told apart.
use super::{item, owned_item};
use crate::assert_equal::assert_equal;
use crate::zero::zero;
use pool_parts::PullError;
use pool_parts::clean::AnyValue;
use pool_parts::page::{Allocated, Page, PageSlot, PullPass, with_bit};
use std::alloc::Global;
use std::sync::Arc;
use std::sync::atomic::{AtomicUsize, Ordering};
use std::thread;

/// How often a test's thread looks for the other one before the test fails.
const TURNS: usize = 10_000_000;

type Zeros = Page<u32, AnyValue>;

type ZeroSlot<'s> = PageSlot<'s, u32, AnyValue>;

fn zeros(alloc: Global) -> Result<Zeros, PullError> {
    Page::new(alloc, &zero)
}

/// Takes 16 slots of a page.
fn take_slots<'s>(alloc: Global, page: &'s Zeros) -> Option<Vec<ZeroSlot<'s>>> {
    let mut slots = Vec::with_capacity(alloc, 16).ok()?;
    for _ in 0..16u8 {
        slots.push(page.alloc().ok()??).ok()?;
    }
    Some(slots)
}

/// Takes 16 slots, and waits until the other thread has 16 too. `None` where that didn't come, or
/// memory was refused.
fn take_half<'s>(
    alloc: Global,
    page: &'s Zeros,
    holding: &AtomicUsize,
) -> Option<Vec<ZeroSlot<'s>>> {
    let slots = take_slots(alloc, page)?;
    holding.fetch_add(1, Ordering::SeqCst);
    for _ in 0..TURNS {
        if holding.load(Ordering::SeqCst) == 2 {
            return Some(slots);
        }
        thread::yield_now();
    }
    None
}

/// The ids of the slots, as bits.
fn ids_of(slots: &[ZeroSlot<'_>]) -> u32 {
    let mut ids = 0;
    for slot in slots {
        ids = with_bit(ids, slot.id());
    }
    ids
}

/// The id that a page gives to a pull, 32 if it tells that it is full, and else 33.
fn id_for_pull(page: &Zeros) -> u8 {
    match page.try_alloc(&PullPass::new()) {
        Ok(Allocated::Slot(slot)) => slot.id(),
        Ok(Allocated::Full(_)) => 32,
        Err(_) => 33,
    }
}

#[test]
fn two_threads_share_the_ids_of_a_page(rt: HostRuntime) {
    let page = zeros(rt.alloc()).expect(&rt, "a page is made");
    let holding = AtomicUsize::new(0);
    let (one, two) = thread::join(
        &rt,
        || take_half(rt.alloc(), &page, &holding),
        || take_half(rt.alloc(), &page, &holding),
    );
    let mut one = one.expect(&rt, "a thread holds 16 slots");
    let two = two.expect(&rt, "the other one holds 16 slots");
    let ids = ids_of(&one) | ids_of(&two);
    assert_equal(&rt, (ids, id_for_pull(&page)), (4294967295, 32));
    let slot = one.pop().expect(&rt, "16 slots are held");
    let id = slot.id();
    Page::free(slot);
    assert_equal(&rt, id_for_pull(&page), id);
}

#[test]
fn items_that_were_introduced_stay_as_they_are(rt: HostRuntime) {
    let page = zeros(rt.alloc()).expect(&rt, "a page is made");
    let page = Arc::new(rt.alloc(), page).expect(&rt, "memory is left");
    let mut one = item(&page).expect(&rt, "item 0 is free");
    let mut two = item(&page).expect(&rt, "item 1 is free");
    let mut three = owned_item(&page).expect(&rt, "item 2 is free");
    let mut four = owned_item(&page).expect(&rt, "item 3 is free");
    one.differs_from(&mut two);
    one.differs_from_owned(&mut three);
    three.differs_from(&mut four);
    assert_equal(
        &rt,
        (one.id(), two.id(), three.id(), four.id()),
        (0, 1, 2, 3),
    );
    assert_equal(&rt, page.get_mask(), 4294967280);
}

/// How many rounds each thread makes.
const ROUNDS: u32 = 100_000;

/// In how many rounds an item was free. It is taken, and comes home at once.
fn rounds_with_an_item(page: &Zeros) -> u32 {
    let mut taken = 0u32;
    for _ in 0..ROUNDS {
        if let Ok(Some(slot)) = page.alloc() {
            Page::free(slot);
            taken = taken.saturating_add(1);
        }
    }
    taken
}

#[test]
fn two_of_thirty_two_items_leave_one_for_each_round(rt: HostRuntime) {
    let page = zeros(rt.alloc()).expect(&rt, "a page is made");
    let taken = thread::join(
        &rt,
        || rounds_with_an_item(&page),
        || rounds_with_an_item(&page),
    );
    assert_equal(&rt, taken, (ROUNDS, ROUNDS));
}
