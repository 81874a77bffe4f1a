//! A value that was pulled from a linear pool, with a borrow of the pool.
ghost use Rattle.std.specs.Prelude.{◌≡◌, ◌≢◌, ◌<◌};
ghost use Rattle.pool_parts.specs.declared.page.word.TheConstants.{PAGE_ITEMS};

use crate::linear_object_pool::{AnswerOf, LinearObjectPool};
use page_chain::linear_page::PageNumber;
use pool_parts::clean::{AnyValue, Clean};
use pool_parts::closures::{Init, Reset};
use pool_parts::made_or_reset::MadeOrReset;
use pool_parts::page::{PageId, PageNote, PageSlot, Witness};
use pool_parts::reusable::Reusable;
use std::fmt::{self, Debug, Formatter, Write};
use std::marker::Model;
use std::ops::{Deref, DerefMut};

/// A pulled value. Its drop resets it and returns it to its page.
///
/// In a clause it is the pool, the number of the item's page, the item, and the values that the
/// page opened with.
///
/// # Examples
///
/// ```rust
/// let mut item = pool.pull()?;
/// *item = 5;
/// drop(item); // the value is 0 again, and in the pool
/// ```
pub struct LinearReusable<'p, T: Drop, I: Init<T, K>, R: Reset<T, K>, K: Clean<T> = AnyValue> {
    pub(crate) pool: &'p LinearObjectPool<T, I, R, K>,
    pub(crate) slot: PageSlot<'p, T, MadeOrReset<I, R, K>>,
    /// The number of the slot's page, with what the pull learned of the link to it.
    pub(crate) number: PageNumber<T, MadeOrReset<I, R, K>, AnswerOf<I, K>>,
}

impl<'p, T: Drop, I: Init<T, K>, R: Reset<T, K>, K: Clean<T>> Model
    for LinearReusable<'p, T, I, R, K> {
    ghost use Rattle.pool_parts.specs.declared.made_or_reset.MadeOrReset.{MadeOrReset};
    ghost use Rattle.page_chain.specs.Walk.{ChainItem};
    ghost use Rattle.linear_pools.specs.declared.linear_object_pool.AnswerOf.{AnswerOf};
    ghost use Rattle.linear_pools.specs.declared.linear_object_pool.LinearObjectPool.{LinearObjectPool};

    ghost Value = { ChainItem (LinearObjectPool T I R K) T (MadeOrReset I R K) (AnswerOf I K) };

    ghost view = { λ reusable.
        record {
          pool = reusable.pool.now;
          number = reusable.number;
          item = reusable.slot.item;
          opening = reusable.slot.opening;
        } };
}

impl<'p, T: Drop, I: Init<T, K>, R: Reset<T, K>, K: Clean<T>> LinearReusable<'p, T, I, R, K> {
    ghost use Rattle.pool_parts.specs.Page.{IsGivenBack, IsNoteOf, HasLearned, view_of};
    ghost use Rattle.page_chain.specs.Walk.{IsWalkedTo, page_of_item};
    ghost use Rattle.pool_parts.specs.Answers.{IsMadeOrReset};
    ghost use Rattle.pool_parts.specs.Ledger.{EachReturned};
    ghost use Rattle.linear_pools.specs.LinearPool.{linear_view};

    /// Returns the number of the item's page in the pool, counted from 0.
    pub fn page_number(&self) -> usize
        ensures { result ≡ self.now.number.number }
    {
        self.number.get()
    }

    /// Returns what the holder knows of the item's page, for another user. It costs one load.
    pub fn witness(&mut self) -> Witness<T>
        ensures page { result.seat.table_id ≡ self.old.item.page }
        ensures history { (view_of result.seat).operations ≡ self.old.item.history }
        ensures same { self.new ≡ self.old }
    {
        self.slot.witness()
    }

    /// Ensures that this item and another that is held of its page are two: their numbers differ.
    ///
    /// It costs seven loads, and changes neither item.
    pub fn differs_from(&mut self, other: &mut LinearReusable<'_, T, I, R, K>)
        requires page { other.old.item.page ≡ self.old.item.page }
        ensures differ { self.old.item.id ≢ other.old.item.id }
        ensures same { self.new ≡ self.old }
        ensures same_other { other.new ≡ other.old }
    {
        self.slot.differs_from(&mut other.slot);
    }

    /// Ensures that this item and another of the pool are of one page, if their pages have one
    /// number. It makes no step on the page, and changes neither item.
    pub fn same_page(&mut self, other: &mut LinearReusable<'_, T, I, R, K>)
        requires pool { other.old.pool ≡ self.old.pool }
        requires number { other.old.number.number ≡ self.old.number.number }
        requires on_page { IsWalkedTo (linear_view self.old.pool).start self.old.number
            (page_of_item self.old.item) }
        requires other_on_page { IsWalkedTo (linear_view self.old.pool).start other.old.number
            (page_of_item other.old.item) }
        ensures page { other.old.item.page ≡ self.old.item.page }
        ensures same { self.new ≡ self.old }
        ensures same_other { other.new ≡ other.old }
    {
        self.pool.chain.are_of_one_page(
            &mut self.number,
            self.slot.holding(),
            &mut other.number,
            other.slot.holding(),
        );
    }

    /// Returns a note of the item's page, by a user that did nothing. It costs one load.
    ///
    /// It knows some prefix of the page's history; which one, no contract can say.
    pub fn note(&self) -> PageNote<T>
        ensures { IsNoteOf self.now.item.page self.now.opening result }
    {
        self.slot.page().note()
    }

    /// Adds what a witness knows of the item's page to what a note knows. Afterwards both their
    /// histories are prefixes of the note's.
    pub fn tell(&self, note: &mut PageNote<T>, other: Witness<T>)
        requires note { note.old.seat.table_id ≡ self.now.item.page }
        requires other { other.seat.table_id ≡ self.now.item.page }
        ensures { HasLearned note.old other note.new }
    {
        self.slot.page().tell(note, other);
    }

    /// Resets the value and returns it, as the drop does. The note knows the page's history up to
    /// this return.
    #[inline]
    pub fn give_back(self) -> PageNote<T>
        ensures given { IsGivenBack (R.leaves (linear_view self.entry.pool).reset)
            self.entry.item result }
        ensures each_returned { EachReturned
            (λ value. K.meets value × IsMadeOrReset I.answers R.leaves value)
            (view_of result.seat).operations }
    {
        let LinearReusable {
            pool,
            mut slot,
            number,
        } = self;
        pool.reset.reset(&mut slot.value);
        pool.chain.give_slot(slot, number.number)
    }

    /// Returns the number of the item in its page.
    pub fn page_id(&self) -> PageId
        ensures value { result ≡ self.now.item.id }
        ensures in_page { result < PAGE_ITEMS }
    {
        self.slot.id()
    }
}

impl<T: Drop, I: Init<T, K>, R: Reset<T, K>, K: Clean<T>> Deref for LinearReusable<'_, T, I, R, K> {
    type Target = T;

    ghost deref_gives = { λ reusable value. value ≡ reusable.item.value };

    fn deref(&self) -> &T {
        &self.slot.value
    }
}

impl<T: Drop, I: Init<T, K>, R: Reset<T, K>, K: Clean<T>> DerefMut
    for LinearReusable<'_, T, I, R, K> {
    ghost use mir.Syntax.{named};
    ghost use Rattle.std.specs.Prelude.{[]};
    ghost use Rattle.std.specs.Borrow.{Lends, sem};
    ghost use Rattle.linear_pools.specs.LinearPool.{with_value};
    ghost use Rattle.linear_pools.specs.contracts.linear_reusable.LinearReusable.{the_row};

    ghost deref_mut_gives = { λ reusable value. value ≡ reusable.item.value };

    fn deref_mut(&mut self) -> &mut T
        ensures* writes_back { sem 𝓛
            (Lends (the_row (record { mir = named 1; lft = [] }) T.row I.row R.row K.row I.Init
            R.Reset K.Clean) T.row self.entry result (with_value self.old)) }
        ensures shows { result.now ≡ self.old.item.value }
    {
        &mut self.slot.value
    }
}

impl<'p, T: Drop, I: Init<T, K>, R: Reset<T, K>, K: Clean<T>> Reusable<T>
    for LinearReusable<'p, T, I, R, K> {
    ghost use Rattle.linear_pools.specs.LinearPool.{linear_view, with_value as with_item_value};
    ghost use Rattle.pool_parts.specs.Answers.{IsMadeOrReset};
    ghost use Rattle.pool_parts.specs.Page.{IsReturned};

    type Note = PageNote<T>;

    ghost value_of = { λ reusable. reusable.item.value };

    ghost with_value = { with_item_value };

    ghost keeps = { λ value. K.meets value × IsMadeOrReset I.answers R.leaves value };

    ghost leaves = { λ reusable. R.leaves (linear_view reusable.pool).reset };

    ghost is_returned = { λ reusable. IsReturned reusable.item };

    #[inline(always)]
    fn value(&self) -> &T {
        &self.slot.value
    }

    #[inline(always)]
    fn value_mut(&mut self) -> &mut T {
        &mut self.slot.value
    }

    #[inline(always)]
    fn try_reset(self) -> Result<LinearReusable<'p, T, I, R, K>, PageNote<T>> {
        let LinearReusable { pool, slot, number } = self;
        let mut left = slot;
        pool.reset.reset(&mut left.value);
        Ok(LinearReusable {
            pool,
            slot: left,
            number,
        })
    }

    fn give_kept(self) -> PageNote<T> {
        let LinearReusable { pool, slot, number } = self;
        let number = number.number;
        pool.chain.give_slot(slot, number)
    }
}

impl<T: Drop, I: Init<T, K>, R: Reset<T, K>, K: Clean<T>> Drop for LinearReusable<'_, T, I, R, K> {
    #[inline]
    fn drop(self) {
        self.give_back();
    }
}

impl<T: Debug + Drop, I: Init<T, K>, R: Reset<T, K>, K: Clean<T>> Debug
    for LinearReusable<'_, T, I, R, K> {
    ghost debug_output = { λ reusable. T.debug_output reusable.item.value };

    fn fmt<W: Write>(&self, f: &mut Formatter<W>) -> fmt::Result {
        Debug::fmt(&self.slot.value, f)
    }
}
