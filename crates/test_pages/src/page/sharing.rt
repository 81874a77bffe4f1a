//! What may be sent to another thread, and what may be shared with one.
use super::{item, owned_item};
use crate::assert_equal::assert_equal;
use pool_parts::PullError;
use pool_parts::clean::{AnyValue, Clean};
use pool_parts::page::{FullSeen, OwnedSlot, Page, PageSlot};
use std::alloc::Global;
use std::sync::Arc;
use std::thread;
use std::thread::Threads;

/// Takes a value that may be sent.
pub fn sent<X: Send>(_value: &X) {}

/// Takes a value that may be shared.
pub fn shared<X: Sync>(_value: &X) {}

fn pages<T: Send, K: Clean<T>>(page: &Page<T, K>) {
    sent(page);
    shared(page);
}

fn sent_slots<T: Send, K: Clean<T>>(
    slot: &PageSlot<'_, T, K>,
    owned: &OwnedSlot<T, K>,
    seen: &FullSeen<'_, T>,
) {
    sent(slot);
    sent(owned);
    sent(seen);
}

fn shared_slots<T: Send + Sync, K: Clean<T>>(slot: &PageSlot<'_, T, K>, owned: &OwnedSlot<T, K>) {
    shared(slot);
    shared(owned);
}

/// Two threads read one slot.
fn read_twice<R: Threads + Sync>(rt: &R, slot: &PageSlot<'_, u32, AnyValue>) -> (u32, u32) {
    thread::join(rt, || **slot, || **slot)
}

pub fn threes(alloc: Global) -> Result<Page<u32, AnyValue>, PullError> {
    Page::new(alloc, &|| Some(3))
}

#[test]
fn a_slot_is_shared(rt: HostRuntime) {
    let page = threes(rt.alloc()).expect(&rt, "a page is made");
    let slot = item(&page).expect(&rt, "an item is free");
    assert_equal(&rt, read_twice(&rt, &slot), (3, 3));
}

#[test]
fn an_owned_slot_is_sent(rt: HostRuntime) {
    let page = threes(rt.alloc()).expect(&rt, "a page is made");
    let page = Arc::new(rt.alloc(), page).expect(&rt, "memory is left");
    let owned = owned_item(&page).expect(&rt, "an item is free");
    let reader = thread::spawn(&rt, move || {
        let value = *owned;
        owned.free();
        value
    });
    let value = reader.expect(&rt, "a thread is made").join(&rt);
    assert_equal(&rt, (value, page.get_mask()), (3, 4294967295));
}
