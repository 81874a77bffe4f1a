//! The items of a page, or of a fixed pool: words with a bit for each item, and a place for each
//! item's value.
//!
//! Each bit that was read as set is tried once, lowest first: the evidence of a full page and the
//! bounds on steps rest on it, so the prover tells a change.
ghost use Rattle.std.specs.Prelude.{◌≡◌, ◌+◌, ◌*◌, ◌/◌, ◌^◌, ◌<◌, ◌≤◌, ℕ, [], None, Some, IfOk, IfErr, MatchOption, false, length, All, IsSomeAnd, ⊤};
ghost use Rattle.pool_parts.specs.declared.pull_error.PullError.TheVariants.{Memory};
ghost use Rattle.std.specs.Int.{bit_at};

use super::note::{PageNote, Witness};
use super::rule::{Opening, PageRule, Tells, Witnesses};
use super::user_view::{UserSeat, UserView};
use super::word::{PAGE_ITEMS, take_least};
use crate::PullError;
use crate::clean::Clean;
use atomic_table::Table;
use std::alloc::Global;
use std::snapshot::Snapshot;

/// An item that was taken out of its place.
#[derive(Drop)]
pub struct TakenValue<T> {
    pub number: usize,
    pub value: T,
    /// The bits of its word that were set after the step that took it. They decide nothing, and are
    /// a whole word, so that an item on its way up is moved by words.
    pub left: usize,
}

/// Items that threads share, 32 to a word. A page has one word, a fixed pool as many as its items
/// need.
#[derive(Drop)]
pub struct Items<T, K: Clean<T>> {
    pub(super) table: Table<Option<T>, UserView<T>, Opening<T>, PageRule<K>, Global>,
    ghost some_item: { 1 ≤ table.shared.table_id.slots },
    ghost covered: { table.shared.table_id.words ≡ (table.shared.table_id.slots + 31) / 32 },
    ghost small: { table.shared.table_id.slots + 31 < 2 ^ 64 },
}

impl<T, K: Clean<T>> Items<T, K> {
    ghost use Rattle.pool_parts.specs.Answers.{MayMake, Refuses};
    ghost use Rattle.pool_parts.specs.PageRule.{MayTake, MissesAll, TakesOne, IsOutNow, IsAllFree};
    ghost use Rattle.pool_parts.specs.PageItems.{items_view};
    ghost use Rattle.pool_parts.specs.Item.{IsFilled};
    ghost use Rattle.pool_parts.specs.Page.{IsNoteOf, HasLearned, view_of};

    /// Creates so many free items, as the words say: item `i` is the answer of call `i` of `init`,
    /// counted from 0. A return raises its word's count by `raise`.
    ///
    /// # Errors
    ///
    /// `Memory`, or `Init` at the first `None`. The items that were made are dropped.
    pub fn new<I: Fn() -> Option<T>>(
        alloc: Global,
        count: usize,
        words: &[u64],
        raise: u64,
        init: &I,
    ) -> Result<Items<T, K>, PullError>
    where
        T: Drop,
        requires some_item { 1 ≤ count }
        requires small { count + 31 < 2 ^ 64 }
        requires all_free { IsAllFree count words.now }
        requires may_make { MayMake I.pre I.post K.meets init.now }
        ensures refused { IfErr result (Refuses ⊤ (I.post init.now None) ⊥) }
        ensures count { IfOk result (λ items. (items_view items).identity.slots ≡ count) }
        ensures raise { IfOk result (λ items. (items_view items).raise ≡ raise) }
        ensures opened { IfOk result (λ items. IsFilled count (λ made. I.post init.now (Some made))
            (items_view items).opening) }
    {
        let items = Items::<T, K>::make_items(alloc, count, init)?;
        Items::open(alloc, words, raise, items)
    }

    /// Returns items that were made as threads share them. All are free, as the words say.
    ///
    /// # Errors
    ///
    /// `Memory`. The items that were made are dropped.
    fn open(
        alloc: Global,
        words: &[u64],
        raise: u64,
        items: Vec<Option<T>>,
    ) -> Result<Items<T, K>, PullError>
    where
        T: Drop,
        requires some_item { 1 ≤ length items.items }
        requires small { length items.items + 31 < 2 ^ 64 }
        requires all_free { IsAllFree (length items.items) words.now }
        requires meets { All (λ item. IsSomeAnd item K.meets) items.items }
        ensures refused { IfErr result (λ error. error ≡ Memory) }
        ensures count { IfOk result
            (λ opened. (items_view opened).identity.slots ≡ length items.items) }
        ensures raise { IfOk result (λ opened. (items_view opened).raise ≡ raise) }
        ensures opened { IfOk result (λ opened. (items_view opened).opening ≡ items.items) }
    {
        let opening = Opening {
            values: Snapshot::of(&items),
            raise: Snapshot::of(&raise),
        };
        match Table::new(alloc, words, items, &opening) {
            Ok((table, _)) => Ok(Items { table }),
            Err(_) => Err(PullError::Memory),
        }
    }

    fn make_items<I: Fn() -> Option<T>>(
        alloc: Global,
        count: usize,
        init: &I,
    ) -> Result<Vec<Option<T>>, PullError>
    where
        T: Drop,
        requires { MayMake I.pre I.post K.meets init.now }
        ensures all { IfOk result (λ items. IsFilled count K.meets items.items) }
        ensures answers { IfOk result
            (λ items. IsFilled count (λ made. I.post init.now (Some made)) items.items) }
        ensures refused { IfErr result (Refuses ⊤ (I.post init.now None) ⊥) }
    {
        let mut items = Vec::with_capacity(alloc, count)?;
        for _ in 0..count {
            let Some(item) = init() else {
                return Err(PullError::Init);
            };
            items.push(Some(item))?;
        }
        Ok(items)
    }

    /// Returns a note, by a user that did nothing, which knows some prefix of the history.
    pub fn note(&self) -> PageNote<T>
        ensures { IsNoteOf (items_view self.now).identity (items_view self.now).opening result }
    {
        PageNote {
            seat: self.look(0).1,
        }
    }

    /// Adds what a witness knows to what a note knows. The histories of both are prefixes of one.
    pub fn tell(&self, note: &mut PageNote<T>, other: Witness<T>)
        requires note { note.old.seat.table_id ≡ (items_view self.now).identity }
        requires other { other.seat.table_id ≡ (items_view self.now).identity }
        ensures { HasLearned note.old other note.new }
    {
        let Witness { seat: other } = other;
        self.table.shared.join_seat::<Tells>(&mut note.seat, other);
        self.look_again(&mut note.seat, 0);
    }

    /// Returns a witness of what a user knows.
    pub fn witness(&self, seat: &mut UserSeat<T>) -> Witness<T>
        requires { seat.old.table_id ≡ (items_view self.now).identity }
        ensures items { result.seat.table_id ≡ (items_view self.now).identity }
        ensures history { (view_of result.seat).operations ≡ seat.old.me.0.operations }
        ensures same_items { seat.new.table_id ≡ seat.old.table_id }
        ensures same_user { seat.new.me ≡ seat.old.me }
    {
        Witness {
            seat: self.table.shared.split_seat::<Witnesses>(seat),
        }
    }

    /// Clears the bits that were set in a word, lowest first, until one was still set.
    #[inline(always)]
    pub fn take_lowest(
        &self,
        seat: &mut UserSeat<T>,
        page: usize,
        word: u32,
    ) -> Option<TakenValue<T>>
        requires items { seat.old.table_id ≡ (items_view self.now).identity }
        requires in_items { page < (items_view self.now).identity.words }
        requires ready { MayTake seat.old.me }
        requires found { (bit : ℕ) → bit < 32 → bit_at word bit ≡ 0
            → IsOutNow seat.old.me.0 (32 * page + bit) }
        ensures items { seat.new.table_id ≡ seat.old.table_id }
        ensures steps { (seat.new.me.0.loads ≡ seat.old.me.0.loads)
            × (seat.new.me.0.tries ≤ seat.old.me.0.tries + 32) }
        ensures outcome { MatchOption result
            (MissesAll (32 * page) (32 * page + 32) seat.old.me seat.new.me) (λ taken.
            TakesOne K.meets (items_view self.now).identity.slots taken.number taken.value None
            seat.old.me seat.new.me) }
    {
        let mut untried = word;
        while let Some((rest, bit)) = take_least(untried) {
            if let Some((value, left)) = self.clear(seat, page, bit) {
                return Some(TakenValue {
                    number: PAGE_ITEMS * page + bit as usize,
                    value,
                    left,
                });
            }
            untried = rest;
        }
        None
    }
}
