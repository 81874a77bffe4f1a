//! A page of a chain, with the link to the next one.
//!
//! A link is set once, only in `get_or_create_next_as`, for a caller that has found its page full.
//!
//! The prover asks each caller for the evidence of that.
ghost use Rattle.std.specs.Prelude.{◌≡◌, ◌+◌, ◌^◌, ◌<◌, Option, None, IfSome, IfNone, IfOk, IfErr, ⊤};
ghost use Rattle.std.specs.Arc.{arc_value};
ghost use Rattle.once_cell.specs.Once.{cell_name};
ghost use Rattle.pool_parts.specs.Answers.{MayMake, Refuses};
ghost use Rattle.page_chain.specs.Links.{IsLinkTo};
ghost use Rattle.pool_parts.specs.Item.{IsFilled};
ghost use Rattle.pool_parts.specs.declared.page.word.TheConstants.{PAGE_ITEMS};
ghost use Rattle.pool_parts.specs.Page.{page_view};

use super::directory::{Directory, LinkPlace};
use super::link_note::LinkNote;
use super::opened_page::{OpenedPage, told_page};
use pool_parts::PullError;
use pool_parts::clean::{AnyValue, Clean};
use pool_parts::page::{FullSeen, Page};
use std::alloc::AllocError;
use std::cell::Cell;

/// One page of a chain.
///
/// # Examples
///
/// ```rust
/// let (slot, page_number) = chain.first().alloc(&|| Some(0))?;
/// assert_eq!(rt; (slot.id(), page_number), (0, 0));
/// ```
pub struct LinearPage<'c, T, K: Clean<T>, O: Clean<T> = AnyValue> {
    pub(super) directory: &'c Directory<T, K, O>,
    pub(super) page: &'c OpenedPage<T, K, O>,
    pub(super) number: usize,
    next: LinkPlace<'c, T, K, O>,
    ghost next_link: { ∥
        (number + 1 < 2 ^ 64 → IsLinkTo directory.now (number + 1) (
          cell_name next.row.now,
          next.offset,
        )) ∥₁ },
}

impl<T, K: Clean<T>, O: Clean<T>> Copy for LinearPage<'_, T, K, O> {}

impl<T, K: Clean<T>, O: Clean<T>> Clone for LinearPage<'_, T, K, O> {
    ghost use Rattle.std.specs.Prelude.{⊤};

    ghost is_clone = { λ page copy. copy ≡ page };

    ghost is_infallible = { λ _. ⊤ };

    fn clone(&self) -> Result<Self, AllocError> {
        Ok(*self)
    }
}

impl<'c, T: Drop, K: Clean<T>, O: Clean<T>> LinearPage<'c, T, K, O> {
    ghost use Rattle.page_chain.specs.Walk.{next_link, IsNext, shown_page, known_link, known_next};

    pub(super) fn new(
        directory: &'c Directory<T, K, O>,
        page: &'c OpenedPage<T, K, O>,
        number: usize,
    ) -> LinearPage<'c, T, K, O>
        ensures page { (shown_page result).page ≡ page_view (arc_value page.now) }
        ensures number { (shown_page result).number ≡ number }
        ensures links { (shown_page result).links ≡ directory.now }
        ensures next { number + 1 < 2 ^ 64
            → IsLinkTo directory.now (number + 1) (next_link result) }
    {
        LinearPage {
            directory,
            page,
            number,
            next: directory.place(number.saturating_add(1)),
        }
    }

    /// Returns the page with its items.
    pub fn page(&self) -> &'c Page<T, K>
        ensures page { page_view result.now ≡ (shown_page self.now).page }
        ensures opened { IsFilled PAGE_ITEMS O.meets (page_view result.now).opening }
    {
        self.page.owner()
    }

    /// Returns the page's number: how many links lead to it from the first page of its chain.
    pub fn number(&self) -> usize
        ensures { result ≡ (shown_page self.now).number }
    {
        self.number
    }

    /// Returns the page after this one, if one is linked, and a note of the link, which knows that
    /// page. It takes no memory.
    pub fn next(&self) -> Option<(LinearPage<'c, T, K, O>, LinkNote<T, K, O>)>
        ensures { IfSome result (λ answer. IsNext self.now answer.1 answer.0) }
    {
        let mut note = self.next.known_row()?;
        let next = self.next_as(&mut note)?;
        Some((next, note))
    }

    /// Returns a note of the link to the next page, which knows no page yet. It takes memory only
    /// if the link has no place yet.
    ///
    /// # Errors
    ///
    /// `Memory`, only if the link has no place yet.
    pub fn next_note(&self) -> Result<LinkNote<T, K, O>, PullError>
        ensures note { IfOk result (λ note. (known_link note ≡ (next_link self.now))
            × (known_next note ≡ None)) }
        ensures refused { IfErr result (Refuses ⊤ ⊥ ⊥) }
    {
        self.next.new_note()
    }

    /// Returns the page after this one, if one is linked, for a caller with a note of the link.
    ///
    /// If the note knows the page that is linked here, it is that page. Afterwards the note knows
    /// the page that was returned.
    pub fn next_as(&self, note: &mut LinkNote<T, K, O>) -> Option<LinearPage<'c, T, K, O>>
        requires { known_link note.old ≡ next_link self.now }
        ensures link { known_link note.new ≡ known_link note.old }
        ensures none { IfNone result
            ((shown_page self.now).number + 1 < 2 ^ 64 → known_next note.old ≡ None) }
        ensures unlearned { IfNone result (known_next note.new ≡ known_next note.old) }
        ensures next { IfSome result (IsNext self.now note.new) }
        ensures agrees { IfSome result
            (λ next. IfSome (known_next note.old) (λ known. known ≡ (shown_page next).page)) }
    {
        let number = self.number.checked_add(1)?;
        let page = self.next.get_as(note)?;
        Some(LinearPage::new(self.directory, page, number))
    }

    /// Returns the page after this one, and a note of the link, which knows that page. If none is
    /// linked, it makes one and links it, unless another thread was first.
    ///
    /// A page that was made too late is dropped, with its items.
    ///
    /// # Errors
    ///
    /// `Memory`, or `Init` at the first `None`. Then no page is linked.
    pub fn get_or_create_next<I: Fn() -> Option<T>>(
        &self,
        seen: FullSeen<'_, T>,
        init: &I,
    ) -> Result<(LinearPage<'c, T, K, O>, LinkNote<T, K, O>), PullError>
        requires of_page { seen.page ≡ (shown_page self.now).page.identity }
        requires may_make { MayMake I.pre I.post K.meets init.now }
        requires opens { MayMake I.pre I.post O.meets init.now }
        ensures next { IfOk result (λ answer. IsNext self.now answer.1 answer.0) }
        ensures refused { IfErr result (Refuses ⊤ (I.post init.now None) ⊥) }
    {
        let mut note = self.next_note()?;
        let next = self.get_or_create_next_as(seen, init, &mut note)?;
        Ok((next, note))
    }

    /// Returns the page after this one, for a caller with a note of the link. If none is linked, it
    /// makes one and links it, unless another thread was first.
    ///
    /// If the note knows the page that is linked here, it is that page. Afterwards the note knows
    /// the page that was returned. The link is read once, and one exchange sets it if a page was
    /// made.
    ///
    /// # Errors
    ///
    /// `Memory`, or `Init` at the first `None`. Then no page is linked.
    pub fn get_or_create_next_as<I: Fn() -> Option<T>>(
        &self,
        seen: FullSeen<'_, T>,
        init: &I,
        note: &mut LinkNote<T, K, O>,
    ) -> Result<LinearPage<'c, T, K, O>, PullError>
        requires of_page { seen.page ≡ (shown_page self.now).page.identity }
        requires may_make { MayMake I.pre I.post K.meets init.now }
        requires opens { MayMake I.pre I.post O.meets init.now }
        requires link { known_link note.old ≡ next_link self.now }
        ensures link { known_link note.new ≡ known_link note.old }
        ensures next { IfOk result (IsNext self.now note.new) }
        ensures agrees { IfOk result
            (λ next. IfSome (known_next note.old) (λ known. known ≡ (shown_page next).page)) }
        ensures refused { IfErr result (Refuses ⊤ (I.post init.now None) ⊥) }
    {
        let Some(number) = self.number.checked_add(1) else {
            return Err(PullError::Memory);
        };
        drop(seen);
        let alloc = self.directory.allocator();
        let link = self.next.link(note);
        let made = Cell::new(false);
        let page = link.get_or_try_init_as(
            || -> Result<_, PullError> { Ok(Box::new(alloc, told_page(alloc, init, &made)?)?) },
            &mut note.link,
        )?;
        if made.get() {
            self.directory.set_hint(number);
        }
        Ok(LinearPage::new(self.directory, page, number))
    }
}
