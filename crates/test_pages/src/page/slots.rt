//! What a caller knows of a slot by public contracts alone.
ghost use Rattle.std.specs.Prelude.{◌≡◌, IfSome};
ghost use Rattle.page_chain.specs.Slot.{IsAllOut};
ghost use Rattle.page_chain.specs.Item.{new_user};
ghost use Rattle.page_chain.specs.Page.{view_of, page_view};
ghost use Rattle.pool_parts.specs.declared.page.word.TheConstants.{PAGE_ITEMS};

use super::{item, owned_item};
use crate::assert_equal::assert_equal;
use crate::zero::zero;
use pool_parts::clean::{AnyValue, Clean};
use pool_parts::page::{Allocated, FullSeen, OwnedSlot, Page, PageSlot, PullPass};
use std::sync::Arc;

/// The value is 0.
struct Zero;

impl Clean<u32> for Zero {
    ghost meets = { λ value. value ≡ 0 };
}

/// A write through a slot changes the value alone.
fn write<K: Clean<u32>>(slot: &mut PageSlot<'_, u32, K>, value: u32)
    ensures { slot.new ≡ record slot.old { item = record slot.old.item { value = value } } }
{
    **slot = value;
}

fn write_owned<K: Clean<u32>>(slot: &mut OwnedSlot<u32, K>, value: u32)
    ensures { slot.new ≡ record slot.old { item = record slot.old.item { value = value } } }
{
    **slot = value;
}

/// What is read is what was written last, and the item is the same one.
fn read_back(mut slot: PageSlot<'_, u32, AnyValue>) -> (u8, u32)
    ensures id { result.0 ≡ slot.entry.item.id }
    ensures value { result.1 ≡ 9 }
{
    *slot = 8;
    *slot += 1;
    (slot.id(), *slot)
}

/// A value that a page gives meets its condition.
fn pulled(page: &Page<u32, Zero>) -> Option<u32>
    ensures { IfSome result (λ value. value ≡ 0) }
{
    match page.alloc() {
        Ok(Some(slot)) => Some(*slot),
        _ => None,
    }
}

/// An item may return where it meets the condition, after any write.
fn give_zero(mut slot: PageSlot<'_, u32, Zero>, value: u32) {
    *slot = value;
    *slot = 0;
    Page::free(slot);
}

fn give_zero_owned(mut slot: OwnedSlot<u32, Zero>, value: u32) {
    *slot = value;
    *slot = 0;
    slot.free();
}

/// A slot of the page that an `Arc` holds may own it.
fn own_first(page: Arc<Page<u32, Zero>>) -> Option<u32>
    ensures { IfSome result (λ value. value ≡ 0) }
{
    let owner = Arc::try_clone(&page).ok()?;
    let slot = page.alloc().ok()??;
    let owned = slot.into_owned(owner);
    let value = *owned;
    owned.free();
    Some(value)
}

/// What tells a pull that a page is full is of that page, and has all of its ids.
fn full_of<'p>(page: &Page<u32, Zero>, pass: &'p PullPass) -> Option<FullSeen<'p, u32>>
    ensures { IfSome result (λ seen. IsAllOut PAGE_ITEMS (page_view page.now).identity
        (new_user (page_view page.now).opening seen.known.user) seen) }
{
    match page.try_alloc(pass) {
        Ok(Allocated::Full(seen)) => Some(seen),
        _ => None,
    }
}

#[test]
fn a_written_value_comes_back(rt: HostRuntime) {
    let page = Page::<u32, AnyValue>::new(rt.alloc(), &zero).expect(&rt, "a page is made");
    let mut slot = item(&page).expect(&rt, "an item is free");
    write(&mut slot, 5);
    Page::free(slot);
    let slot = item(&page).expect(&rt, "an item is free");
    assert_equal(&rt, (slot.id(), *slot, read_back(slot)), (0, 5, (0, 9)));
}

#[test]
fn a_condition_is_kept(rt: HostRuntime) {
    let page = Page::<u32, Zero>::new(rt.alloc(), &zero).expect(&rt, "a page is made");
    let page = Arc::new(rt.alloc(), page).expect(&rt, "memory is left");
    give_zero(item(&page).expect(&rt, "an item is free"), 7);
    let mut owned = owned_item(&page).expect(&rt, "an item is free");
    write_owned(&mut owned, 3);
    give_zero_owned(owned, 8);
    assert_equal(&rt, (pulled(&page), page.get_mask()), (Some(0), 4294967294));
    let is_free = full_of(&page, &PullPass::new()).is_none();
    assert_equal(&rt, (is_free, own_first(page)), (true, Some(0)));
}
