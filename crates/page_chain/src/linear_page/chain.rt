//! A chain, with the pulls that begin at its first page and the returns by a page's number.
//!
//! A pull asks the first page, then a page that a hint names, and then walks along the links.
//!
//! A page's hint is set if the page may have a free item. The first page has no hint, since each
//! pull asks it first. A return to a page that was full sets the page's hint after the return, and
//! a call that links a page sets it too. A pull that takes the last item of a hinted page clears
//! the hint, looks at the page again, and sets the hint again if an item came back. So a return
//! before the clearing is seen by that look, and a return after it sets the hint itself. Once those
//! calls have ended, each page with a free item has its hint.
//!
//! Until then a hint may be missing, which costs a walk, or be left over, which costs a look.
//! Neither decides anything. Only the walk links a page or ends at a limit, with the evidence of
//! each page that it was full in this very pull.
ghost use Rattle.std.specs.Prelude.{◌≡◌, ◌≤◌, ◌<◌, None, IfSome, IfOk, IfErr, ⊤};
ghost use Rattle.std.specs.Arc.{arc_value};
ghost use Rattle.pool_parts.specs.Answers.{MayMake, Refuses};
ghost use Rattle.pool_parts.specs.Ledger.{EachReturned};
ghost use Rattle.pool_parts.specs.Page.{held_item, held_page, IsReturned, page_view, view_of};
ghost use Rattle.pool_parts.specs.Slot.{IsAnswerOf, IsFullPage};
ghost use Rattle.pool_parts.specs.declared.page.word.TheConstants.{PAGE_ITEMS};

use super::directory::{Directory, HintedLink};
use super::link_note::LinkNote;
use super::linked_page::LinearPage;
use super::opened_page::{OpenedPage, made_page};
use super::page_number::PageNumber;
use super::walk::{KnownFull, WalkEnd, WalkRefusal};
use pool_parts::PullError;
use pool_parts::clean::{AnyValue, Clean};
use pool_parts::page::inside::Holding;
use pool_parts::page::{Allocated, FullSeen, Page, PageNote, PageSlot, PullPass, Returned};
use std::alloc::Global;

/// A chain of pages: the first one, and the links to the others.
///
/// Each value with which one of its pages opens meets `O`. Each free item meets `K`.
///
/// # Examples
///
/// ```rust
/// let chain: Chain<u32, AnyValue> = Chain::new(alloc, &|| Some(0))?;
/// let (slot, page_number) = chain.first().alloc(&|| Some(0))?;
/// ```
pub struct Chain<T, K: Clean<T>, O: Clean<T> = AnyValue> {
    first: OpenedPage<T, K, O>,
    directory: Directory<T, K, O>,
}

impl<T: Drop, K: Clean<T>, O: Clean<T>> Drop for Chain<T, K, O> {
    fn drop(self) {
        let Chain {
            first: _,
            directory: _,
        } = self;
    }
}

impl<T: Drop, K: Clean<T>, O: Clean<T>> Chain<T, K, O> {
    ghost use Rattle.page_chain.specs.Walk.{shown_page, first_page, IsWalkEnd, IsRefusedBy, IsWalkedTo};
    ghost use Rattle.page_chain.specs.WalkSteps.{IsAnsweredBy, IsKnownAt};

    /// Creates a chain of one page, made as by [`Page::new`].
    ///
    /// # Errors
    ///
    /// `Memory`, or `Init` at the first `None`. The items that were made are dropped.
    ///
    /// # Examples
    ///
    /// ```rust
    /// let chain: Chain<u32, AnyValue> = Chain::new(alloc, &|| Some(0))?;
    /// ```
    pub fn new<I: Fn() -> Option<T>>(alloc: Global, init: &I) -> Result<Chain<T, K, O>, PullError>
        requires may_make { MayMake I.pre I.post K.meets init.now }
        requires opens { MayMake I.pre I.post O.meets init.now }
        ensures refused { IfErr result (Refuses ⊤ (I.post init.now None) ⊥) }
    {
        let first = made_page(alloc, init)?;
        let directory = Directory::new(alloc)?;
        Ok(Chain { first, directory })
    }

    /// Returns the page with number 0.
    pub fn first(&self) -> LinearPage<'_, T, K, O>
        ensures { shown_page result ≡ first_page self.now }
    {
        LinearPage::new(&self.directory, &self.first, 0)
    }

    /// Pulls from the first page.
    pub fn take_first<'s, 'p>(&'s self, pass: &'p PullPass) -> Allocated<'s, 'p, T, K>
        ensures { IsAnsweredBy K.meets O.meets (first_page self.now).page result }
    {
        self.first.page.take(pass).answer
    }

    /// Pulls from the first page, by a user that knows something of it. The pull comes after all
    /// that the note knew.
    pub fn take_first_from<'s, 'p>(
        &'s self,
        pass: &'p PullPass,
        note: PageNote<T>,
    ) -> Allocated<'s, 'p, T, K>
        requires { note.seat.table_id ≡ (first_page self.now).page.identity }
        ensures { IsAnswerOf K.meets (first_page self.now).page (view_of note.seat) result }
    {
        self.first.page.take_from(pass, note)
    }

    /// Returns the number of the first page.
    pub fn first_number(&self) -> PageNumber<T, K, O>
        ensures { result.number ≡ 0 }
    {
        PageNumber::of_start(self.directory.alloc, 0)
    }

    /// Pulls from a page that a hint names, or from the first page along the links that has an
    /// item. The chain's first page was found full in this pull.
    ///
    /// # Errors
    ///
    /// Why the walk took no item: see [`WalkRefusal`].
    pub fn pull_further<'s, 'p, I: Fn() -> Option<T>>(
        &'s self,
        seen: FullSeen<'p, T>,
        limit: Option<usize>,
        init: &I,
    ) -> Result<WalkEnd<'s, T, K, O>, WalkRefusal<'p, T, K, O>>
        requires of_first { IsFullPage (first_page self.now).page.identity seen }
        requires some_page { IfSome limit (λ pages. 1 ≤ pages) }
        requires may_make { MayMake I.pre I.post K.meets init.now }
        requires opens { MayMake I.pre I.post O.meets init.now }
        ensures taken { IfOk result
            (IsWalkEnd K.meets O.meets (first_page self.now) limit) }
        ensures past_first { IfOk result (λ reached. 0 < reached.number.number) }
        ensures refused { IfErr result
            (IsRefusedBy (first_page self.now) limit (I.post init.now None)) }
    {
        let mut known = None;
        if let Some((number, page, note)) = self.hinted_page(limit) {
            let taken = page.take(seen.pass());
            if taken.left_full {
                self.left_full(number, page.owner());
            }
            match taken.answer {
                Allocated::Slot(slot) => {
                    return Ok(WalkEnd {
                        slot,
                        page: page.owner(),
                        number: PageNumber::of_link(number, note),
                    });
                }
                Allocated::Full(full) => {
                    known = Some(KnownFull {
                        number,
                        note,
                        seen: full,
                    });
                }
            }
        }
        self.first().walk_on(seen, &mut known, limit, init)
    }

    /// Returns the first page that a hint names within the limit, its number, and a note of the
    /// link to it.
    fn hinted_page(
        &self,
        limit: Option<usize>,
    ) -> Option<(usize, &OpenedPage<T, K, O>, LinkNote<T, K, O>)>
        ensures known { IfSome result (λ hinted. IsKnownAt self.now.directory hinted.0 hinted.2
            (page_view (arc_value hinted.1.now))) }
        ensures past_first { IfSome result (λ hinted. 0 < hinted.0) }
        ensures within { IfSome result (λ hinted. IfSome limit (λ pages. hinted.0 < pages)) }
    {
        let HintedLink {
            number,
            mut note,
            link,
        } = self.directory.hinted()?;
        if let Some(pages) = limit
            && pages <= number
        {
            return None;
        }
        let page = link.get_as(&mut note.link)?;
        Some((number, page, note))
    }

    /// Clears the hint of a page that was left full, and sets it again if an item came back
    /// meanwhile.
    ///
    /// The look at the page's word is only for the hint. It decides nothing in this pull.
    fn left_full(&self, number: usize, page: &Page<T, K>)
        requires { 0 < number }
    {
        self.directory.clear_hint(number);
        if !page.is_full() {
            self.directory.set_hint(number);
        }
    }

    /// Returns an item to its page, which has this number, with its value. If the page was full, it
    /// sets the page's hint. The note knows the page's history up to the return.
    #[inline(always)]
    pub fn give_slot(&self, slot: PageSlot<'_, T, K>, number: usize) -> PageNote<T>
        requires { K.meets slot.item.value }
        ensures returned { IsReturned slot.entry.item result }
        ensures each_returned { EachReturned K.meets (view_of result.seat).operations }
    {
        let Returned { note, was_full } = Page::give_slot(slot);
        if was_full {
            self.no_longer_full(number);
        }
        note
    }

    /// Sets the hint of a page that has a free item now and may have been full before.
    ///
    /// It isn't inlined, so that a drop is short enough to be.
    #[inline(never)]
    fn no_longer_full(&self, number: usize) {
        if number > 0 {
            self.directory.set_hint(number);
        }
    }

    /// Returns an item to the page of this number, with its value. If the page was full, it sets
    /// the page's hint. The note knows the page's history up to the return.
    pub fn give(&self, number: PageNumber<T, K, O>, holding: Holding<T>, value: T) -> PageNote<T>
        requires on_page { ∥ IsWalkedTo (first_page self.now) number (held_page holding) ∥₁ }
        requires in_page { holding.number < PAGE_ITEMS }
        requires meets { K.meets value }
        ensures returned { IsReturned (held_item holding value) result }
        ensures each_returned { EachReturned K.meets (view_of result.seat).operations }
    {
        let page_number = number.get();
        let page = self.page_of(number, &holding);
        let Returned { note, was_full } = page.give(holding, value);
        if was_full {
            self.no_longer_full(page_number);
        }
        note
    }

    /// Returns the page of an item that stays in use, by the page's number.
    pub fn page_at<'s>(
        &'s self,
        number: &mut PageNumber<T, K, O>,
        holding: &Holding<T>,
    ) -> &'s Page<T, K>
        requires { ∥ IsWalkedTo (first_page self.now) number.old (held_page holding.now) ∥₁ }
        ensures page { page_view result.now ≡ held_page holding.now }
        ensures same_number { number.new ≡ number.old }
    {
        self.page_of(number.again(), holding)
    }

    /// Ensures that two items are of one page, whose pages have one number. It makes no step on a
    /// page or a link.
    pub fn are_of_one_page(
        &self,
        one: &mut PageNumber<T, K, O>,
        one_holding: &Holding<T>,
        other: &mut PageNumber<T, K, O>,
        other_holding: &Holding<T>,
    )
        requires one { ∥ IsWalkedTo (first_page self.now) one.old (held_page one_holding.now) ∥₁ }
        requires other { ∥ IsWalkedTo (first_page self.now) other.old
            (held_page other_holding.now) ∥₁ }
        requires same_number { other.old.number ≡ one.old.number }
        ensures page { held_page other_holding.now ≡ held_page one_holding.now }
        ensures same_one { one.new ≡ one.old }
        ensures same_other { other.new ≡ other.old }
    {
        if one.get() == 0 {
            return;
        }
        let (one, other) = (one.again(), other.again());
        self.directory
            .are_of_one_page(one, one_holding, other, other_holding);
    }

    /// Returns the page of an item, by the page's number. The first page needs no look at a link.
    fn page_of(&self, number: PageNumber<T, K, O>, holding: &Holding<T>) -> &Page<T, K>
        requires { ∥ IsWalkedTo (first_page self.now) number (held_page holding.now) ∥₁ }
        ensures { page_view result.now ≡ held_page holding.now }
    {
        if number.get() == 0 {
            self.first.owner()
        } else {
            self.directory.linked_page(number, holding).owner()
        }
    }
}
