//! A value that was pulled from a linear pool, with an owner of the pool.
ghost use Rattle.std.specs.Prelude.{◌≡◌, ◌<◌};
ghost use Rattle.std.specs.Arc.{arc_value};
ghost use Rattle.page_chain.specs.Walk.{IsWalkedTo, first_page, page_of_item};
ghost use Rattle.pool_parts.specs.declared.page.word.TheConstants.{PAGE_ITEMS};

use crate::linear_object_pool::{AnswerOf, LinearObjectPool};
use page_chain::linear_page::PageNumber;
use pool_parts::clean::{AnyValue, Clean};
use pool_parts::closures::{Init, Reset};
use pool_parts::made_or_reset::MadeOrReset;
use pool_parts::page::inside::{Holding, PulledItem};
use pool_parts::page::{PageId, PageNote, PageSlot, Witness};
use std::fmt::{self, Debug, Formatter, Write};
use std::marker::Model;
use std::ops::{Deref, DerefMut};
use std::sync::Arc;

/// A pulled value. Its drop resets it and returns it to its page, which is found by its number.
///
/// In a clause it is the pool, the number of the item's page, the item, and the values that the
/// page opened with.
///
/// # Examples
///
/// ```rust
/// let pool = Arc::new(alloc, pool)?;
/// let mut item = pool.pull_owned()?;
/// drop(pool); // the item keeps the pool alive
/// *item = 5;
/// ```
pub struct LinearOwnedReusable<T: Drop, I: Init<T, K>, R: Reset<T, K>, K: Clean<T> = AnyValue> {
    pool: Arc<LinearObjectPool<T, I, R, K>>,
    holding: Holding<T>,
    number: PageNumber<T, MadeOrReset<I, R, K>, AnswerOf<I, K>>,
    value: T,
}

impl<T: Drop, I: Init<T, K>, R: Reset<T, K>, K: Clean<T>> Model
    for LinearOwnedReusable<T, I, R, K> {
    ghost use Rattle.std.specs.Prelude.{◌<◌};
    ghost use Rattle.std.specs.Arc.{arc_value};
    ghost use Rattle.pool_parts.specs.Page.{held_item, held_page};
    ghost use Rattle.pool_parts.specs.declared.made_or_reset.MadeOrReset.{MadeOrReset};
    ghost use Rattle.pool_parts.specs.declared.page.word.TheConstants.{PAGE_ITEMS};
    ghost use Rattle.page_chain.specs.Walk.{ChainItem, IsWalkedTo, first_page};
    ghost use Rattle.linear_pools.specs.declared.linear_object_pool.AnswerOf.{AnswerOf};
    ghost use Rattle.linear_pools.specs.declared.linear_object_pool.LinearObjectPool.{LinearObjectPool};

    ghost Value = { ChainItem (LinearObjectPool T I R K) T (MadeOrReset I R K) (AnswerOf I K) };

    ghost view = { λ reusable.
        record {
          pool = arc_value reusable.pool;
          number = reusable.number;
          item = held_item reusable.holding reusable.value;
          opening = (held_page reusable.holding).opening;
        } };

    ghost invariant = { λ reusable.
        ∥ IsWalkedTo (first_page (arc_value reusable.pool).chain) reusable.number
        (held_page reusable.holding) ∥₁
        × (reusable.holding.number < PAGE_ITEMS) };
}

impl<T: Drop, I: Init<T, K>, R: Reset<T, K>, K: Clean<T>> LinearOwnedReusable<T, I, R, K> {
    ghost use Rattle.pool_parts.specs.Answers.{IsMadeOrReset};
    ghost use Rattle.pool_parts.specs.Ledger.{EachReturned};
    ghost use Rattle.pool_parts.specs.Page.{IsGivenBack, IsNoteOf, HasLearned, view_of};
    ghost use Rattle.linear_pools.specs.LinearPool.{linear_view};
    ghost use Rattle.page_chain.specs.Walk.{IsWalkedTo};

    pub(crate) fn new(
        pool: Arc<LinearObjectPool<T, I, R, K>>,
        slot: PageSlot<'_, T, MadeOrReset<I, R, K>>,
        number: PageNumber<T, MadeOrReset<I, R, K>, AnswerOf<I, K>>,
    ) -> LinearOwnedReusable<T, I, R, K>
        requires { IsWalkedTo (linear_view (arc_value pool)).start number (page_of_item slot.item) }
        ensures pool { result.pool ≡ arc_value pool }
        ensures item { result.item ≡ slot.entry.item }
        ensures page { result.number ≡ number }
    {
        let PulledItem { holding, value } = slot.into_item();
        LinearOwnedReusable {
            pool,
            holding,
            number,
            value,
        }
    }

    /// Returns the number of the item's page in the pool, counted from 0.
    pub fn page_number(&self) -> usize
        ensures { result ≡ self.now.number.number }
    {
        self.number.get()
    }

    /// Returns what the holder knows of the item's page, for another user. It costs one load.
    pub fn witness(&mut self) -> Witness<T>
        ensures page { result.seat.table_id ≡ self.old.item.page }
        ensures history { (view_of result.seat).operations ≡ self.old.item.history }
        ensures same { self.new ≡ self.old }
    {
        let page = self.pool.chain.page_at(&mut self.number, &self.holding);
        page.witness(&mut self.holding)
    }

    /// Returns a note of the item's page, by a user that did nothing. It costs one load.
    ///
    /// It knows some prefix of the page's history; which one, no contract can say.
    pub fn note(&mut self) -> PageNote<T>
        ensures note { IsNoteOf self.old.item.page self.old.opening result }
        ensures same { self.new ≡ self.old }
    {
        let page = self.pool.chain.page_at(&mut self.number, &self.holding);
        page.note()
    }

    /// Adds what a witness knows of the item's page to what a note knows. Afterwards both their
    /// histories are prefixes of the note's.
    pub fn tell(&mut self, note: &mut PageNote<T>, other: Witness<T>)
        requires note { note.old.seat.table_id ≡ self.old.item.page }
        requires other { other.seat.table_id ≡ self.old.item.page }
        ensures learned { HasLearned note.old other note.new }
        ensures same { self.new ≡ self.old }
    {
        let page = self.pool.chain.page_at(&mut self.number, &self.holding);
        page.tell(note, other);
    }

    /// Resets the value and returns it, as the drop does. The note knows the page's history up to
    /// this return.
    #[inline(always)]
    pub fn give_back(self) -> PageNote<T>
        ensures given { IsGivenBack (R.leaves (linear_view self.pool).reset) self.item result }
        ensures each_returned { EachReturned
            (λ value. K.meets value × IsMadeOrReset I.answers R.leaves value)
            (view_of result.seat).operations }
    {
        let LinearOwnedReusable {
            pool,
            holding,
            number,
            mut value,
        } = self;
        pool.reset.reset(&mut value);
        pool.chain.give(number, holding, value)
    }

    /// Returns the number of the item in its page.
    pub fn page_id(&self) -> PageId
        ensures value { result ≡ self.now.item.id }
        ensures in_page { result < PAGE_ITEMS }
    {
        self.holding.number as PageId
    }
}

impl<T: Drop, I: Init<T, K>, R: Reset<T, K>, K: Clean<T>> Deref
    for LinearOwnedReusable<T, I, R, K> {
    type Target = T;

    ghost deref_gives = { λ reusable value. value ≡ reusable.item.value };

    fn deref(&self) -> &T {
        &self.value
    }
}

impl<T: Drop, I: Init<T, K>, R: Reset<T, K>, K: Clean<T>> DerefMut
    for LinearOwnedReusable<T, I, R, K> {
    ghost use Rattle.std.specs.Borrow.{Lends, sem};
    ghost use Rattle.linear_pools.specs.LinearPool.{with_value};
    ghost use Rattle.linear_pools.specs.contracts.linear_owned_reusable.LinearOwnedReusable.{the_row};

    ghost deref_mut_gives = { λ reusable value. value ≡ reusable.item.value };

    fn deref_mut(&mut self) -> &mut T
        ensures* writes_back { sem 𝓛
            (Lends (the_row T.row I.row R.row K.row I.Init R.Reset K.Clean) T.row self.entry result
            (with_value self.old)) }
        ensures shows { result.now ≡ self.old.item.value }
    {
        &mut self.value
    }
}

impl<T: Drop, I: Init<T, K>, R: Reset<T, K>, K: Clean<T>> Drop for LinearOwnedReusable<T, I, R, K> {
    // Inlined, so that the item isn't handed on through memory.
    #[inline(always)]
    fn drop(self) {
        self.give_back();
    }
}

impl<T: Debug + Drop, I: Init<T, K>, R: Reset<T, K>, K: Clean<T>> Debug
    for LinearOwnedReusable<T, I, R, K> {
    ghost debug_output = { λ reusable. T.debug_output reusable.item.value };

    fn fmt<W: Write>(&self, f: &mut Formatter<W>) -> fmt::Result {
        Debug::fmt(&self.value, f)
    }
}
