//! Callers that need a page's history: what comes before what, and that two histories are of one
//! page.
ghost use Rattle.std.specs.Prelude.{◌≡◌, ◌⊎◌, ℕ, ◌∷◌, IfSome};
ghost use Rattle.pool_parts.specs.Page.{view_of};
ghost use Rattle.page_chain.specs.Page.{page_view};
ghost use Rattle.page_chain.specs.Ledger.{History, IsPrefixOf};
ghost use Rattle.pool_parts.specs.declared.page.history.Operation.TheVariants.{Return};

use super::sharing::{sent, threes};
use super::{item, owned_item};
use crate::assert_equal::assert_equal;
use pool_parts::clean::{AnyValue, Clean};
use pool_parts::page::{Allocated, OwnedSlot, Page, PageNote, PageSlot, PullPass, Witness};
use std::mem::size_of;
use std::sync::Arc;
use std::thread;
use std::thread::Threads;

type NumberPage = Page<u32, AnyValue>;

fn sent_notes<T: Send>(note: &PageNote<T>, witness: &Witness<T>) {
    sent(note);
    sent(witness);
}

/// A pull by a note stands after all that the note knew.
fn pulled_after<'s>(
    page: &'s NumberPage,
    note: PageNote<u32>,
) -> Option<PageSlot<'s, u32, AnyValue>>
    requires { note.seat.table_id ≡ (page_view page.now).identity }
    ensures page { IfSome result (λ slot. slot.item.page ≡ (page_view page.now).identity) }
    ensures after { IfSome result (λ slot.
        IsPrefixOf (view_of note.seat).operations slot.item.history) }
{
    let pass = PullPass::new();
    match page.try_alloc_from(&pass, note) {
        Ok(Allocated::Slot(slot)) => Some(slot),
        _ => None,
    }
}

/// Returns 5, and tells it by a note: the return is the last operation that the note knows.
fn returned_five(page: &NumberPage) -> Option<PageNote<u32>>
    ensures page { IfSome result (λ note. note.seat.table_id ≡ (page_view page.now).identity) }
    ensures last { IfSome result (λ note.
        (user id : ℕ) × (before : History ℕ) × ((view_of note.seat).operations ≡ Return user id 5 ∷
        before)) }
{
    let mut slot = page.alloc().ok()??;
    *slot = 5;
    Some(Page::free(slot))
}

/// Two threads return an item each, and hand their notes on. A pull by the first note stands after
/// the first return; what the two threads saw is of one history, so that of one is a prefix of the
/// other's.
fn handed_on<'s, R: Threads + Sync>(
    rt: &R,
    page: &'s NumberPage,
) -> Option<(PageSlot<'s, u32, AnyValue>, PageNote<u32>)>
    ensures after { IfSome result (λ seen. (user id : ℕ) × (before : History ℕ)
        × IsPrefixOf (Return user id 5 ∷ before) seen.0.item.history) }
    ensures slot_page { IfSome result (λ seen. seen.0.item.page ≡ (page_view page.now).identity) }
    ensures note_page { IfSome result (λ seen. seen.1.seat.table_id ≡ (page_view page.now).identity) }
{
    let (first, second) = thread::join(
        rt,
        || -> Option<PageNote<u32>>
            ensures page { IfSome result (λ note. note.seat.table_id ≡ (page_view page.entry.now).identity) }
            ensures last { IfSome result (λ note. (user id : ℕ) × (before : History ℕ)
                × ((view_of note.seat).operations ≡ Return user id 5 ∷ before)) }
        { returned_five(page) },
        || -> Option<PageNote<u32>>
            ensures page { IfSome result (λ note. note.seat.table_id ≡ (page_view page.entry.now).identity) }
        { returned_five(page) },
    );
    let slot = pulled_after(page, first?)?;
    Some((slot, second?))
}

/// What two users of one page know are prefixes of one history, so one of them is a prefix of the
/// other.
fn compared(page: &NumberPage, one: PageNote<u32>, other: PageNote<u32>) -> PageNote<u32>
    requires one { one.seat.table_id ≡ (page_view page.now).identity }
    requires other { other.seat.table_id ≡ (page_view page.now).identity }
    ensures page { result.seat.table_id ≡ (page_view page.now).identity }
    ensures compared { IsPrefixOf (view_of one.seat).operations (view_of other.seat).operations
        ⊎ IsPrefixOf (view_of other.seat).operations (view_of one.seat).operations }
{
    let mut both = one;
    page.tell(&mut both, other.into_witness());
    both
}

/// A holder leaves a witness of what it knows, and a note is told: the pull stands in the note's
/// history.
fn told_of_pull(page: &NumberPage, slot: &mut PageSlot<'_, u32, AnyValue>) -> PageNote<u32>
    requires { slot.old.item.page ≡ (page_view page.now).identity }
    ensures page { result.seat.table_id ≡ (page_view page.now).identity }
    ensures knows { IsPrefixOf slot.old.item.history (view_of result.seat).operations }
    ensures same_item { slot.new.item ≡ slot.old.item }
{
    let mut note = page.note();
    page.tell(&mut note, slot.witness());
    note
}

/// An owned slot's return is told alike.
fn owned_returned<K: Clean<u32>>(slot: OwnedSlot<u32, K>) -> PageNote<u32>
    requires { K.meets slot.item.value }
    ensures { IsPrefixOf slot.item.history (view_of result.seat).operations }
{
    slot.free()
}

#[test]
fn a_pull_stands_after_a_return_of_another_thread(rt: HostRuntime) {
    let page = threes(rt.alloc()).expect(&rt, "a page is made");
    let Some((mut slot, other)) = handed_on(&rt, &page) else {
        panic!(rt; "an item is free")
    };
    assert_equal(&rt, *slot, 5);
    let note = told_of_pull(&page, &mut slot);
    let both = compared(&page, note, other);
    let Some(second) = pulled_after(&page, both) else {
        panic!(rt; "an item is free")
    };
    assert_equal(&rt, page.get_mask().count_ones(), 30);
    Page::free(slot);
    Page::free(second);
    assert_equal(&rt, page.get_mask(), u32::MAX);
}

#[test]
fn an_owned_return_is_told_too(rt: HostRuntime) {
    let page = threes(rt.alloc()).expect(&rt, "a page is made");
    let page = Arc::new(rt.alloc(), page).expect(&rt, "memory is left");
    let mut owned = owned_item(&page).expect(&rt, "an item is free");
    *owned = 8;
    drop(owned_returned(owned));
    assert_equal(&rt, item(&page).map(|again| *again), Some(8));
}

/// What is known of a history costs nothing: a note, a witness and what a slot knows have no bytes.
#[test]
fn a_history_takes_no_bytes(rt: HostRuntime) {
    let sizes = [
        size_of::<PageNote<u32>>(),
        size_of::<Witness<u32>>(),
        size_of::<PageSlot<'static, u64, AnyValue>>(),
        size_of::<OwnedSlot<u64, AnyValue>>(),
    ];
    assert_equal(&rt, sizes, [0, 0, 24, 24]);
}
