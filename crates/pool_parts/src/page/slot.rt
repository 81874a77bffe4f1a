//! A slot: an item in use, with a borrow of its page.
ghost use Rattle.std.specs.Prelude.{◌≡◌, ◌≢◌, ◌<◌};
ghost use Rattle.std.specs.Arc.{arc_value};
ghost use Rattle.pool_parts.specs.Page.{page_view};
ghost use Rattle.pool_parts.specs.declared.page.word.TheConstants.{PAGE_ITEMS};

use super::holding::{Holding, PulledItem};
use super::note::Witness;
use super::owned_slot::OwnedSlot;
use super::shared_page::Page;
use super::word::PageId;
use crate::clean::Clean;
use std::marker::Model;
use std::ops::{Deref, DerefMut};
use std::sync::Arc;

/// An item in use, with its value.
///
/// A slot that is dropped drops its value, and its item never becomes free again. [`Page::free`]
/// returns it.
///
/// In a clause it is the item, and what its user knows.
///
/// # Examples
///
/// ```rust
/// if let Some(slot) = page.alloc()? {
///     Page::free(slot);
/// }
/// ```
#[derive(Drop)]
pub struct PageSlot<'s, T, K: Clean<T>> {
    pub(super) page: &'s Page<T, K>,
    pub(super) holding: Holding<T>,
    /// The item's value.
    pub value: T,
}

impl<'s, T, K: Clean<T>> Model for PageSlot<'s, T, K> {
    ghost use Rattle.std.specs.Prelude.{◌≡◌, ◌<◌};
    ghost use Rattle.pool_parts.specs.Item.{SlotView};
    ghost use Rattle.pool_parts.specs.Page.{held_item, view_of, page_view};
    ghost use Rattle.pool_parts.specs.declared.page.word.TheConstants.{PAGE_ITEMS};

    ghost Value = { SlotView T };

    ghost view = { λ slot.
        record {
          item = held_item slot.holding slot.value;
          known = view_of slot.holding.seat;
          opening = (page_view slot.page.now).opening;
        } };

    ghost invariant = { λ slot.
        (slot.holding.seat.table_id ≡ (page_view slot.page.now).identity)
        × (slot.holding.number < PAGE_ITEMS) };
}

impl<'s, T, K: Clean<T>> PageSlot<'s, T, K> {
    ghost use Rattle.pool_parts.specs.Page.{held_item, held_page, view_of, page_view};

    /// Returns the number of the item in its page.
    pub fn id(&self) -> PageId
        ensures value { result ≡ self.now.item.id }
        ensures in_page { result < PAGE_ITEMS }
    {
        self.holding.number as PageId
    }

    /// Returns the item's page.
    pub fn page(&self) -> &'s Page<T, K>
        ensures page { (page_view result.now).identity ≡ self.now.item.page }
        ensures opening { (page_view result.now).opening ≡ self.now.opening }
    {
        self.page
    }

    /// Returns what the holder of the item has.
    pub fn holding(&self) -> &Holding<T>
        ensures page { (held_page result.now).identity ≡ self.now.item.page }
        ensures opening { (held_page result.now).opening ≡ self.now.item.opening }
    {
        &self.holding
    }

    /// Returns what the holder knows of the page, for another user. It costs one load.
    pub fn witness(&mut self) -> Witness<T>
        ensures page { result.seat.table_id ≡ self.old.item.page }
        ensures history { (view_of result.seat).operations ≡ self.old.item.history }
        ensures same_item { self.new.item ≡ self.old.item }
        ensures same_page { self.new.opening ≡ self.old.opening }
    {
        self.page.witness(&mut self.holding)
    }

    /// Ensures that this item and another that is held of the page are two: their numbers differ.
    ///
    /// It costs seven loads, and changes neither item.
    pub fn differs_from(&mut self, other: &mut PageSlot<'_, T, K>)
        requires page { other.old.item.page ≡ self.old.item.page }
        ensures differ { self.old.item.id ≢ other.old.item.id }
        ensures same_item { self.new.item ≡ self.old.item }
        ensures same_page { self.new.opening ≡ self.old.opening }
        ensures same_other { other.new.item ≡ other.old.item }
        ensures same_other_page { other.new.opening ≡ other.old.opening }
    {
        self.page.are_two(&mut self.holding, &mut other.holding);
    }

    /// Ensures the same of this item and one that owns the page.
    pub fn differs_from_owned(&mut self, other: &mut OwnedSlot<T, K>)
        requires page { other.old.item.page ≡ self.old.item.page }
        ensures differ { self.old.item.id ≢ other.old.item.id }
        ensures same_item { self.new.item ≡ self.old.item }
        ensures same_other { other.new.item ≡ other.old.item }
    {
        self.page.are_two(&mut self.holding, &mut other.holding);
    }

    /// Returns the item without the borrow of its page.
    pub fn into_item(self) -> PulledItem<T>
        ensures item { held_item result.holding result.value ≡ self.entry.item }
        ensures in_page { result.holding.number < PAGE_ITEMS }
    {
        let PageSlot {
            page: _,
            holding,
            value,
        } = self;
        PulledItem { holding, value }
    }

    /// Returns the same item with an owner of the page in place of the borrow.
    pub fn into_owned(self, page: Arc<Page<T, K>>) -> OwnedSlot<T, K>
        requires page { self.item.page ≡ (page_view (arc_value page)).identity }
        requires opening { self.opening ≡ (page_view (arc_value page)).opening }
        ensures { result ≡ self.entry }
    {
        let PageSlot {
            page: _,
            holding,
            value,
        } = self;
        OwnedSlot {
            page,
            holding,
            value,
        }
    }
}

impl<T, K: Clean<T>> Deref for PageSlot<'_, T, K> {
    type Target = T;

    ghost deref_gives = { λ slot value. value ≡ slot.item.value };

    fn deref(&self) -> &T {
        &self.value
    }
}

impl<T, K: Clean<T>> DerefMut for PageSlot<'_, T, K> {
    ghost use mir.Syntax.{named};
    ghost use Rattle.std.specs.Prelude.{[]};
    ghost use Rattle.std.specs.Borrow.{Lends, sem};
    ghost use Rattle.pool_parts.specs.contracts.page.slot.PageSlot.{the_row};

    ghost deref_mut_gives = { λ slot value. value ≡ slot.item.value };

    fn deref_mut(&mut self) -> &mut T
        ensures* writes_back { sem 𝓛
            (Lends (the_row (record { mir = named 1; lft = [] }) T.row K.row K.Clean) T.row
            self.entry result
            (λ value. record self.old { item = record self.old.item { value = value } })) }
        ensures shows { result.now ≡ self.old.item.value }
    {
        &mut self.value
    }
}
