//! A slot that owns its page with others, in place of a borrow.
ghost use Rattle.std.specs.Prelude.{◌≡◌, ◌≢◌, ◌<◌};
ghost use Rattle.pool_parts.specs.declared.page.word.TheConstants.{PAGE_ITEMS};

use super::holding::Holding;
use super::note::PageNote;
use super::shared_page::Page;
use super::word::PageId;
use crate::clean::Clean;
use std::marker::Model;
use std::ops::{Deref, DerefMut};
use std::sync::Arc;

/// An item in use, with its value and an owner of its page.
///
/// A slot that is dropped drops its value, and its item never becomes free again.
/// [`OwnedSlot::free`] returns it.
///
/// In a clause it is the item, and what its user knows.
///
/// # Examples
///
/// ```rust
/// let (slot, _) = chain.first().alloc_owned(&|| Some(0))?;
/// slot.free(); // from any thread: it owns its page with others
/// ```
#[derive(Drop)]
pub struct OwnedSlot<T, K: Clean<T>> {
    pub(super) page: Arc<Page<T, K>>,
    pub(super) holding: Holding<T>,
    pub(super) value: T,
}

impl<T, K: Clean<T>> Model for OwnedSlot<T, K> {
    ghost use Rattle.std.specs.Prelude.{◌≡◌, ◌<◌};
    ghost use Rattle.std.specs.Arc.{arc_value};
    ghost use Rattle.pool_parts.specs.Item.{SlotView};
    ghost use Rattle.pool_parts.specs.Page.{held_item, view_of, page_view};
    ghost use Rattle.pool_parts.specs.declared.page.word.TheConstants.{PAGE_ITEMS};

    ghost Value = { SlotView T };

    ghost view = { λ slot.
        record {
          item = held_item slot.holding slot.value;
          known = view_of slot.holding.seat;
          opening = (page_view (arc_value slot.page)).opening;
        } };

    ghost invariant = { λ slot.
        (slot.holding.seat.table_id ≡ (page_view (arc_value slot.page)).identity)
        × (slot.holding.number < PAGE_ITEMS) };
}

impl<T, K: Clean<T>> OwnedSlot<T, K> {
    ghost use Rattle.pool_parts.specs.Ledger.{EachReturned};
    ghost use Rattle.pool_parts.specs.Page.{IsReturned, view_of};

    /// Returns the number of the item in its page.
    pub fn id(&self) -> PageId
        ensures value { result ≡ self.now.item.id }
        ensures in_page { result < PAGE_ITEMS }
    {
        self.holding.number as PageId
    }

    /// Ensures that this item and another that is held of the page are two: their numbers differ.
    ///
    /// It costs seven loads, and changes neither item.
    pub fn differs_from(&mut self, other: &mut OwnedSlot<T, K>)
        requires page { other.old.item.page ≡ self.old.item.page }
        ensures differ { self.old.item.id ≢ other.old.item.id }
        ensures same_item { self.new.item ≡ self.old.item }
        ensures same_other { other.new.item ≡ other.old.item }
    {
        self.page.are_two(&mut self.holding, &mut other.holding);
    }

    /// Moves the value home, and the id is free again. The note knows the page's history up to the
    /// return.
    pub fn free(self) -> PageNote<T>
    where
        T: Drop,
        requires { K.meets self.item.value }
        ensures returned { IsReturned self.item result }
        ensures each_returned { EachReturned K.meets (view_of result.seat).operations }
    {
        let OwnedSlot {
            page,
            holding,
            value,
        } = self;
        page.give(holding, value).note
    }
}

impl<T, K: Clean<T>> Deref for OwnedSlot<T, K> {
    type Target = T;

    ghost deref_gives = { λ slot value. value ≡ slot.item.value };

    fn deref(&self) -> &T {
        &self.value
    }
}

impl<T, K: Clean<T>> DerefMut for OwnedSlot<T, K> {
    ghost use Rattle.std.specs.Borrow.{Lends, sem};
    ghost use Rattle.pool_parts.specs.contracts.page.owned_slot.OwnedSlot.{the_row};

    ghost deref_mut_gives = { λ slot value. value ≡ slot.item.value };

    fn deref_mut(&mut self) -> &mut T
        ensures* writes_back { sem 𝓛 (Lends (the_row T.row K.row K.Clean) T.row self.entry result
            (λ value. record self.old { item = record self.old.item { value = value } })) }
        ensures shows { result.now ≡ self.old.item.value }
    {
        &mut self.value
    }
}
