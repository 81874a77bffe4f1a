//! The items of a sequential linear pool, by their numbers.
ghost use Rattle.std.specs.Prelude.{◌≡◌, ◌≢◌, ◌≤◌, ◌↔◌, ◌*◌, ◌+◌, ◌-◌, ◌/◌, min, [], Some, None, Err, ⊤};
ghost use Rattle.std.specs.Prelude.{OnOk, OnErr, IfSome, IfNone, IsTrue, IfOk, IfErr, ℕ, nat_lt};
ghost use Rattle.std.specs.Prelude.{length, slice_get, is_some, if◌then◌else◌};
ghost use Rattle.object_pool_cores.specs.Item.{item_value, item_number};
ghost use Rattle.object_pool_cores.specs.PageProbes.{ProbesEach};
ghost use Rattle.object_pool_cores.specs.OnePage.{IsMadePage, HasNoFreeId};
ghost use Rattle.object_pool_cores.specs.Inside.Numbered.{AreWhole, HasNoneBelow, laid_out};
ghost use Rattle.pool_parts.specs.Answers.{Refuses};
ghost use Rattle.pool_world.specs.Pool.{Free, Out, IsPool, IsSame, with_place};

use crate::sequential::{CorePage, Item};
use pool_parts::PullError;
use pool_parts::clean::Clean;
use pool_parts::closures::Init;
use pool_parts::page::PAGE_ITEMS;
use pool_world::numbers::{number, page_and_id};
use std::alloc::Global;
use std::marker::Model;

/// Pages in order. No page before `start` has a free number.
#[derive(Drop)]
pub(crate) struct NumberedItems<T, K: Clean<T>> {
    pages: Vec<CorePage<T, K>>,
    limit: Option<usize>,
    start: usize,
    looked: u64,
}

impl<T, K: Clean<T>> Model for NumberedItems<T, K> {
    ghost use Rattle.object_pool_cores.specs.Inside.Numbered.{AreWhole, Numbered, IsWellNumbered};
    ghost use Rattle.object_pool_cores.specs.Inside.Numbered.{laid_out};

    ghost Value = { Numbered T };

    ghost view = { λ items. record {
      places = laid_out items.pages.items;
      limit = items.limit;
      start = items.start;
      looked = items.looked;
    } };

    ghost invariant = { λ items. AreWhole items.pages.items × IsWellNumbered K.meets
        (record {
          places = laid_out items.pages.items;
          limit = items.limit;
          start = items.start;
          looked = items.looked;
        }) };
}

impl<T: Drop, K: Clean<T>> NumberedItems<T, K> {
    ghost use Rattle.object_pool_cores.specs.Inside.Numbered.{listed_pool, FindsNone, Grows};
    ghost use Rattle.object_pool_cores.specs.Inside.Numbered.{ProbesPages, TakesLeastOf};

    /// Creates a table of no items.
    pub(crate) fn new(alloc: Global, limit: Option<usize>) -> NumberedItems<T, K>
        ensures places { result.places ≡ [] }
        ensures limit { result.limit ≡ limit }
        ensures start { result.start ≡ 0 }
        ensures looked { result.looked ≡ 0 }
    {
        NumberedItems {
            pages: Vec::new(alloc),
            limit,
            start: 0,
            looked: 0,
        }
    }

    /// Returns how many pages there may be, if there is a limit.
    pub(crate) fn limit(&self) -> Option<usize>
        ensures { result ≡ self.now.limit }
    {
        self.limit
    }

    /// Returns how many pages there are.
    pub(crate) fn pages(&self) -> usize
        ensures { result ≡ (listed_pool self.now).pages }
    {
        self.pages.len()
    }

    /// Returns how many pages were probed.
    pub(crate) fn pages_looked(&self) -> u64
        ensures { result ≡ self.now.looked }
    {
        self.looked
    }

    /// Takes the item at the least free number, which is in use from then on, or returns `None` if
    /// no number is free.
    pub(crate) fn take_least(&mut self) -> Option<Item<T>>
        ensures before { IsPool self.old.limit (listed_pool self.old) }
        ensures after { IsPool self.new.limit (listed_pool self.new) }
        ensures limit { self.new.limit ≡ self.old.limit }
        ensures least { IfSome result (λ item. (n : ℕ) × (item_number item ≡ Some n)
            × TakesLeastOf self.old n (item_value item) self.new) }
        ensures meets { IfSome result (λ item. K.meets (item_value item)) }
        ensures none { IfNone result (FindsNone self.old self.new) }
        ensures probes { ProbesPages self.old (if is_some result then 1 else 0) self.new }
    {
        (self.start, self.looked) = first_open(&self.pages, self.start, self.looked);
        if self.start == self.pages.len() {
            return None;
        }
        match self.pages[self.start].alloc() {
            Some((id, value)) => Some(Item::numbered(value, number(self.start, id))),
            None => unreachable!(),
        }
    }

    /// Returns whether the item at a number is in use.
    pub(crate) fn is_out(&self, number: u128) -> bool
        ensures { IsTrue result ↔ ((listed_pool self.now).at number ≡ Out) }
    {
        match page_and_id(number, self.pages.len()) {
            Some((page, id)) => self.pages[page].is_out(id),
            None => false,
        }
    }

    /// Puts a value at a number that is in use, which is free from then on.
    pub(crate) fn give(&mut self, number: u128, value: T)
        requires out { (listed_pool self.old).at number ≡ Out }
        requires meets { K.meets value }
        ensures returned { IsSame (listed_pool self.new)
            (with_place (listed_pool self.old) number (Free value)) }
        ensures limit { self.new.limit ≡ self.old.limit }
        ensures start { self.new.start ≡ min self.old.start (number / PAGE_ITEMS) }
        ensures looked { self.new.looked ≡ self.old.looked }
        ensures before { IsPool self.old.limit (listed_pool self.old) }
        ensures after { IsPool self.new.limit (listed_pool self.new) }
    {
        let Some((page, id)) = page_and_id(number, self.pages.len()) else {
            unreachable!()
        };
        self.pages[page].free(id, value);
        self.start = self.start.min(page);
    }

    /// Adds a page of values that `init` makes. The room in the table is made first.
    ///
    /// # Errors
    ///
    /// `Memory`, `Init`, or `Limit` if there may be no more pages. Nothing changes.
    pub(crate) fn grow<I: Init<T, K>>(&mut self, init: &I) -> Result<(), PullError>
        ensures ok { OnOk result (Grows self.old.limit (I.answers init.now) (listed_pool self.old)
            (listed_pool self.new)) }
        ensures kept { self.new.limit ≡ self.old.limit }
        ensures start { self.new.start ≡ self.old.start }
        ensures looked { self.new.looked ≡ self.old.looked }
        ensures err { OnErr result (self.new ≡ self.old) }
        ensures limit { result ≡ Err PullError.Limit
            ↔ (self.old.limit ≡ Some (listed_pool self.old).pages) }
        ensures init { result ≡ Err PullError.Init → I.answers init.now None }
        ensures open { result ≢ Err PullError.Closed }
    {
        if self.limit == Some(self.pages()) {
            return Err(PullError::Limit);
        }
        self.pages.reserve(1)?;
        let page = made_page(*self.pages.allocator(), init)?;
        if self.pages.push(page).is_err() {
            unreachable!()
        }
        Ok(())
    }
}

/// Makes a page of values by `init`.
fn made_page<T: Drop, I: Init<T, K>, K: Clean<T>>(
    alloc: Global,
    init: &I,
) -> Result<CorePage<T, K>, PullError>
    ensures ok { IfOk result (IsMadePage (I.answers init.now) K.meets) }
    ensures refused { IfErr result (Refuses ⊤ (I.answers init.now None) ⊥) }
{
    CorePage::new(alloc, &|| init.make())
}

/// Returns the first page from `start` on that isn't full, or the count of pages. Each probe of a
/// page is counted, from `looked` on.
fn first_open<T: Drop, K: Clean<T>>(
    pages: &[CorePage<T, K>],
    start: usize,
    looked: u64,
) -> (usize, u64)
    requires start { start ≤ length pages.now }
    requires whole { AreWhole pages.now }
    requires passed { HasNoneBelow (laid_out pages.now) (PAGE_ITEMS * start) }
    ensures pages { (start ≤ result.0) × (result.0 ≤ length pages.now) }
    ensures passed { HasNoneBelow (laid_out pages.now) (PAGE_ITEMS * result.0) }
    ensures open { (page : _) → slice_get pages.now result.0 ≡ Some page → HasNoFreeId page → ⊥ }
    ensures more { looked ≤ result.1 }
    ensures each { ProbesEach
        (result.0 - start + (if nat_lt result.0 (length pages.now) then 1 else 0)) looked result.1 }
{
    let mut at = start;
    let mut looked = looked;
    while at < pages.len() {
        looked = looked.saturating_add(1);
        if !pages[at].is_full() {
            return (at, looked);
        }
        at += 1;
    }
    (at, looked)
}
