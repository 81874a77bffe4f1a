//! A page and its calls.
ghost use Rattle.std.specs.Prelude.{◌≡◌, ◌≢◌, ◌+◌, ◌<◌, ◌≤◌, ℕ, [], false, Option, None, Some, IfSome, IsOk, IfOk, IfErr, ⊤, ◌*◌};
ghost use Rattle.std.specs.Int.{bit_at};
ghost use Rattle.pool_parts.specs.PageItems.{items_view};
ghost use Rattle.pool_parts.specs.declared.page.word.TheConstants.{PAGE_ITEMS};

use super::full_seen::{Allocated, FullSeen, PageAnswer, PullPass};
use super::holding::Holding;
use super::items::Items;
use super::note::{PageNote, Returned, Witness};
use super::slot::PageSlot;
use super::user_view::UserSeat;
use super::word::{PAGE_ITEMS, is_none_free};
use crate::PullError;
use crate::clean::Clean;
use std::alloc::Global;

/// 32 items that threads share.
///
/// # Examples
///
/// ```rust
/// let page: Page<u32, AnyValue> = Page::new(alloc, &|| Some(0))?;
/// if let Some(slot) = page.alloc()? {
///     Page::free(slot);
/// }
/// ```
pub struct Page<T, K: Clean<T>> {
    items: Items<T, K>,
    ghost sized: { (items_view items).identity.slots ≡ PAGE_ITEMS },
    ghost counts_nothing: { (items_view items).raise ≡ 0 },
}

impl<T: Drop, K: Clean<T>> Drop for Page<T, K> {
    fn drop(self) {
        let Page { items: _ } = self;
    }
}

impl<T, K: Clean<T>> Page<T, K> {
    ghost use Rattle.pool_parts.specs.Answers.{MayMake, Refuses};
    ghost use Rattle.pool_parts.specs.Slot.{IsAnswerOf, answer_view};
    ghost use Rattle.pool_parts.specs.Page.{held_item, HoldsSame, IsReturned, IsNoteOf, HasLearned, page_view, view_of};
    ghost use Rattle.pool_parts.specs.Item.{IsPageItem, IsPulled, IsFilled, new_user};
    ghost use Rattle.pool_parts.specs.PageRule.{MayTake, IsOutNow};
    ghost use Rattle.pool_parts.specs.Ledger.{EachReturned};

    /// Creates a page of 32 free items. Item `i` is the answer of call `i` of `init`, counted from
    /// 0.
    ///
    /// # Errors
    ///
    /// `Memory`, or `Init` at the first `None`. The items that were made are dropped.
    ///
    /// # Examples
    ///
    /// ```rust
    /// let page: Page<u32, AnyValue> = Page::new(alloc, &|| Some(0))?;
    /// ```
    pub fn new<I: Fn() -> Option<T>>(alloc: Global, init: &I) -> Result<Page<T, K>, PullError>
    where
        T: Drop,
        requires { MayMake I.pre I.post K.meets init.now }
        ensures refused { IfErr result (Refuses ⊤ (I.post init.now None) ⊥) }
        ensures opened { IfOk result
            (λ page. IsFilled PAGE_ITEMS (λ made. I.post init.now (Some made))
            (page_view page).opening) }
    {
        let items = Items::new(alloc, PAGE_ITEMS, &[u32::MAX as u64], 0, init)?;
        Ok(Page { items })
    }

    /// Pulls a free item, or returns `None` if each of the 32 items was seen in use during the
    /// call.
    ///
    /// It reads the word once. Then it clears the bits that were set in it, lowest first, until one
    /// was still set.
    ///
    /// # Errors
    ///
    /// There is none: a page counts no users, and the clause `succeeds` says so. `None` has no
    /// clause. [`Page::try_alloc`] gives the evidence.
    pub fn alloc(&self) -> Result<Option<PageSlot<'_, T, K>>, PullError>
        ensures succeeds { IsOk result }
        ensures item { IfOk result (λ found. IfSome found
            (λ slot. IsPageItem K.meets slot.item)) }
        ensures pulled { IfOk result (λ found. IfSome found
            (λ slot. IsPulled (page_view self.now).identity
            (new_user (page_view self.now).opening slot.item.holder) slot.item)) }
        ensures opening { IfOk result (λ found. IfSome found
            (λ slot. slot.opening ≡ (page_view self.now).opening)) }
        ensures one_look { IfOk result (λ found. IfSome found (λ slot. slot.known.loads ≡ 1)) }
        ensures tries { IfOk result
            (λ found. IfSome found (λ slot. slot.known.tries ≤ PAGE_ITEMS)) }
    {
        let pass = PullPass::new();
        match self.try_alloc(&pass)? {
            Allocated::Slot(slot) => Ok(Some(slot)),
            Allocated::Full(_) => Ok(None),
        }
    }

    /// Pulls a free item, or returns the evidence that each was seen in use. A pull may go on to
    /// another page with it.
    ///
    /// # Errors
    ///
    /// There is none, as of `alloc`.
    pub fn try_alloc<'s, 'p>(
        &'s self,
        pass: &'p PullPass,
    ) -> Result<Allocated<'s, 'p, T, K>, PullError>
        ensures succeeds { IsOk result }
        ensures answer { IfOk result (λ answer. IsAnswerOf K.meets (page_view self.now)
            (new_user (page_view self.now).opening (answer_view answer).user) answer) }
        ensures one_look { IfOk result (λ answer. (answer_view answer).loads ≡ 1) }
        ensures tries { IfOk result (λ answer. (answer_view answer).tries ≤ PAGE_ITEMS) }
    {
        Ok(self.take(pass).answer)
    }

    /// Pulls a free item, or finds that each is in use. It returns too whether the page was left
    /// full.
    pub fn take<'s, 'p>(&'s self, pass: &'p PullPass) -> PageAnswer<'s, 'p, T, K>
        ensures answer { IsAnswerOf K.meets (page_view self.now)
            (new_user (page_view self.now).opening (answer_view result.answer).user) result.answer }
        ensures one_look { (answer_view result.answer).loads ≡ 1 }
        ensures tries { (answer_view result.answer).tries ≤ PAGE_ITEMS }
    {
        let (word, seat) = self.items.look(0);
        self.take_by(pass, word, seat)
    }

    /// Pulls a free item, or returns the evidence that each was seen in use, by a user that knows
    /// something of the page. The pull comes after all that the note knew.
    ///
    /// # Errors
    ///
    /// There is none, as of `alloc`.
    pub fn try_alloc_from<'s, 'p>(
        &'s self,
        pass: &'p PullPass,
        note: PageNote<T>,
    ) -> Result<Allocated<'s, 'p, T, K>, PullError>
        requires page { note.seat.table_id ≡ (page_view self.now).identity }
        ensures succeeds { IsOk result }
        ensures answer { IfOk result
            (IsAnswerOf K.meets (page_view self.now) (view_of note.seat)) }
        ensures one_look { IfOk result
            (λ answer. (answer_view answer).loads ≡ (view_of note.seat).loads + 1) }
        ensures tries { IfOk result
            (λ answer. (answer_view answer).tries ≤ (view_of note.seat).tries + PAGE_ITEMS) }
    {
        Ok(self.take_from(pass, note))
    }

    /// Pulls a free item, or finds that each is in use, by a user that knows something of the page.
    pub fn take_from<'s, 'p>(
        &'s self,
        pass: &'p PullPass,
        note: PageNote<T>,
    ) -> Allocated<'s, 'p, T, K>
        requires page { note.seat.table_id ≡ (page_view self.now).identity }
        ensures answer { IsAnswerOf K.meets (page_view self.now) (view_of note.seat) result }
        ensures one_look { (answer_view result).loads ≡ (view_of note.seat).loads + 1 }
        ensures tries { (answer_view result).tries ≤ (view_of note.seat).tries + PAGE_ITEMS }
    {
        let PageNote { mut seat } = note;
        let word = self.items.look_again(&mut seat, 0);
        self.take_by(pass, word, seat).answer
    }

    /// Returns a note of this page, by a user that did nothing. It costs one load.
    ///
    /// It knows some prefix of the page's history; which one, no contract can say.
    pub fn note(&self) -> PageNote<T>
        ensures { IsNoteOf (page_view self.now).identity (page_view self.now).opening result }
    {
        self.items.note()
    }

    /// Adds what a witness knows of this page to what a note knows. Afterwards both their histories
    /// are prefixes of the note's.
    ///
    /// A witness comes from another thread's slot or note. So a thread that received it can
    /// conclude what happened before.
    pub fn tell(&self, note: &mut PageNote<T>, other: Witness<T>)
        requires note { note.old.seat.table_id ≡ (page_view self.now).identity }
        requires other { other.seat.table_id ≡ (page_view self.now).identity }
        ensures { HasLearned note.old other note.new }
    {
        self.items.tell(note, other);
    }

    /// Returns what the holder of an item of this page knows, for another user. It costs one load.
    pub fn witness(&self, holding: &mut Holding<T>) -> Witness<T>
        requires { holding.old.seat.table_id ≡ (page_view self.now).identity }
        ensures page { result.seat.table_id ≡ holding.old.seat.table_id }
        ensures history { (view_of result.seat).operations ≡ (view_of holding.old.seat).operations }
        ensures same_page { holding.new.seat.table_id ≡ holding.old.seat.table_id }
        ensures same_view { view_of holding.new.seat ≡ view_of holding.old.seat }
        ensures same_number { holding.new.number ≡ holding.old.number }
    {
        holding.witness(&self.items)
    }

    /// Ensures that two holders of items of this page have two items. It costs seven loads.
    pub fn are_two(&self, one: &mut Holding<T>, other: &mut Holding<T>)
        requires one { one.old.seat.table_id ≡ (page_view self.now).identity }
        requires other { other.old.seat.table_id ≡ (page_view self.now).identity }
        ensures differ { one.old.number ≢ other.old.number }
        ensures same_one { HoldsSame one.old one.new }
        ensures same_other { HoldsSame other.old other.new }
    {
        self.items.are_two(one, other);
    }

    /// Pulls by a user that has read the word, or finds that each item is in use.
    fn take_by<'s, 'p>(
        &'s self,
        pass: &'p PullPass,
        word: u32,
        mut seat: UserSeat<T>,
    ) -> PageAnswer<'s, 'p, T, K>
        requires page { seat.table_id ≡ (page_view self.now).identity }
        requires ready { MayTake seat.me }
        requires from_now { seat.me.0.at_load ≡ seat.me.0.operations }
        requires found { (id : ℕ) → id < PAGE_ITEMS → bit_at word id ≡ 0
            → IsOutNow seat.me.0 (32 * 0 + id) }
        ensures answer { IsAnswerOf K.meets (page_view self.now) seat.me.0 result.answer }
        ensures same_user { (answer_view result.answer).user ≡ seat.me.0.user }
        ensures loads { (answer_view result.answer).loads ≡ seat.me.0.loads }
        ensures tries { (answer_view result.answer).tries ≤ seat.me.0.tries + PAGE_ITEMS }
    {
        match self.items.take_lowest(&mut seat, 0, word) {
            Some(taken) => {
                let slot = PageSlot {
                    page: self,
                    holding: Holding {
                        seat,
                        number: taken.number,
                    },
                    value: taken.value,
                };
                PageAnswer {
                    answer: Allocated::Slot(slot),
                    left_full: taken.left == 0,
                }
            }
            None => PageAnswer {
                answer: Allocated::Full(FullSeen { seat, pass }),
                left_full: true,
            },
        }
    }

    /// Returns an item to its page, with its value. The note knows the page's history up to the
    /// return.
    pub fn free(slot: PageSlot<'_, T, K>) -> PageNote<T>
        requires { K.meets slot.item.value }
        ensures returned { IsReturned slot.entry.item result }
        ensures each_returned { EachReturned K.meets (view_of result.seat).operations }
    {
        Page::give_slot(slot).note
    }

    /// Returns an item to its page, with its value. It returns too whether the page was full.
    pub fn give_slot(slot: PageSlot<'_, T, K>) -> Returned<T>
        requires { K.meets slot.item.value }
        ensures returned { IsReturned slot.entry.item result.note }
        ensures each_returned { EachReturned K.meets (view_of result.note.seat).operations }
    {
        let PageSlot {
            page,
            holding,
            value,
        } = slot;
        let (seat, was_full) = page.items.give(holding, value, 0);
        Returned {
            note: PageNote { seat },
            was_full,
        }
    }

    /// Returns an item to this page by what its holder has, with a value.
    pub fn give(&self, holding: Holding<T>, value: T) -> Returned<T>
        requires of_page { holding.seat.table_id ≡ (page_view self.now).identity }
        requires in_page { holding.number < PAGE_ITEMS }
        requires meets { K.meets value }
        ensures returned { IsReturned (held_item holding value) result.note }
        ensures each_returned { EachReturned K.meets (view_of result.note.seat).operations }
    {
        let (seat, was_full) = self.items.give(holding, value, 0);
        Returned {
            note: PageNote { seat },
            was_full,
        }
    }

    /// Returns whether no item is free at this moment.
    pub fn is_full(&self) -> bool {
        is_none_free(self.get_mask())
    }

    /// Returns the word at this moment.
    pub fn get_mask(&self) -> u32 {
        self.items.look(0).0
    }
}
