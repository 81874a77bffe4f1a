//! The walk from page to page for an item.
ghost use Rattle.std.specs.Prelude.{◌≡◌, ◌+◌, ◌-◌, ◌^◌, ◌≤◌, ◌<◌, ⊤, Option, None, Some, IfSome, IsSome, IsTrue, IsFalse, IfOk, IfErr};
ghost use Rattle.std.specs.Arc.{arc_value};
ghost use Rattle.pool_parts.specs.Answers.{MayMake, Refuses};
ghost use Rattle.page_chain.specs.Walk.{shown_page, page_of_item, PullsAlong, IsWalkEnd, IsRefusedBy, cause_of};
ghost use Rattle.pool_parts.specs.Page.{page_view};
ghost use Rattle.pool_parts.specs.Slot.{IsFullPage};
ghost use Rattle.page_chain.specs.WalkSteps.{IsAnsweredBy, IsFullAt, IsKnownAt};
ghost use Rattle.page_chain.specs.declared.linear_page.walk.WalkRefusal.TheVariants.{Making};
ghost use Rattle.pool_parts.specs.declared.page.word.TheConstants.{PAGE_ITEMS};

use super::link_note::LinkNote;
use super::linked_page::LinearPage;
use super::opened_page::OpenedPage;
use super::page_number::PageNumber;
use pool_parts::PullError;
use pool_parts::clean::Clean;
use pool_parts::page::{Allocated, FullSeen, OwnedSlot, Page, PageSlot, PullPass};
use std::sync::Arc;

/// The item that a walk took, and the page at which it stopped.
#[derive(Drop)]
pub struct WalkEnd<'c, T, K: Clean<T>, O: Clean<T>> {
    pub slot: PageSlot<'c, T, K>,
    /// The slot's page.
    pub page: &'c Arc<Page<T, K>>,
    /// The page's number, with what was learned of the link to it.
    pub number: PageNumber<T, K, O>,
}

/// The last page within a limit, which was found full in this pull, and its number. The walk comes
/// to it only after it has found each page before it full; it spends their evidence on the way.
#[derive(Drop)]
pub struct LimitSeen<'p, T, K: Clean<T>, O: Clean<T>> {
    /// The page's number, with what was learned of the link to it.
    pub number: PageNumber<T, K, O>,
    pub seen: FullSeen<'p, T>,
}

/// Why a walk took no item.
#[derive(Drop)]
pub enum WalkRefusal<'p, T, K: Clean<T>, O: Clean<T>> {
    /// Each page up to the limit was found full.
    Limit(LimitSeen<'p, T, K, O>),
    /// No further page could be made or linked: `Memory` or `Init`.
    Making(PullError),
}

/// A page that was found full in this pull, its number, and a note of the link to it.
pub(super) struct KnownFull<'p, T, K: Clean<T>, O: Clean<T>> {
    pub(super) number: usize,
    pub(super) note: LinkNote<T, K, O>,
    pub(super) seen: FullSeen<'p, T>,
}

impl<T, K: Clean<T>, O: Clean<T>> Drop for KnownFull<'_, T, K, O> {
    fn drop(self) {
        let KnownFull {
            number: _,
            note: _,
            seen: _,
        } = self;
    }
}

impl<'p, T, K: Clean<T>, O: Clean<T>> KnownFull<'p, T, K, O> {
    ghost use Rattle.page_chain.specs.Walk.{known_link, known_next};

    /// Returns the evidence that the page was full, and compares another note of its link.
    fn into_seen(self, note: &mut LinkNote<T, K, O>) -> FullSeen<'p, T>
        requires { known_link self.note ≡ known_link note.old }
        ensures link { known_link note.new ≡ known_link note.old }
        ensures next { known_next note.new ≡ known_next note.old }
        ensures agree { IfSome (known_next self.entry.note)
            (λ page. IfSome (known_next note.old) (λ known. known ≡ page)) }
        ensures seen { result ≡ self.entry.seen }
    {
        let KnownFull {
            number: _,
            note: known,
            seen,
        } = self;
        note.compare(known);
        seen
    }
}

impl<T, K: Clean<T>, O: Clean<T>> From<PullError> for WalkRefusal<'_, T, K, O> {
    ghost from_gives = { λ cause refusal. refusal ≡ Making cause };

    fn from(cause: PullError) -> Self {
        WalkRefusal::Making(cause)
    }
}

impl<T: Drop, K: Clean<T>, O: Clean<T>> WalkRefusal<'_, T, K, O> {
    /// Returns the refusal's name, without its evidence.
    pub fn cause(self) -> PullError
        ensures { result ≡ cause_of self.entry }
    {
        match self {
            WalkRefusal::Limit(_) => PullError::Limit,
            WalkRefusal::Making(cause) => cause,
        }
    }
}

impl<'c, T: Drop, K: Clean<T>, O: Clean<T>> LinearPage<'c, T, K, O> {
    /// Pulls from the first page that has an item, from this one on. It returns that page's number
    /// too, counted from this one.
    ///
    /// It goes on only from a page that it found full in this call: each of its items was seen in
    /// use. After the last page it links a new one.
    ///
    /// # Errors
    ///
    /// `Memory`, or `Init` at the first `None`, if it has to make a page. Then no page is linked.
    pub fn alloc<I: Fn() -> Option<T>>(
        &self,
        init: &I,
    ) -> Result<(PageSlot<'c, T, K>, usize), PullError>
        requires may_make { MayMake I.pre I.post K.meets init.now }
        requires opens { MayMake I.pre I.post O.meets init.now }
        ensures pulled { IfOk result (λ reached. PullsAlong K.meets O.meets (shown_page self.now)
            reached.1 reached.0.item) }
        ensures refused { IfErr result (Refuses ⊤ (I.post init.now None) ⊥) }
    {
        let reached = self.walk(None, init)?;
        let passed = reached.number.get() - self.number;
        Ok((reached.slot, passed))
    }

    /// Pulls from the first page that has an item, of the `pages` pages from this one on. It links
    /// no page past them, and returns the page's number too, counted from this one.
    ///
    /// # Errors
    ///
    /// As `alloc`, and `Limit` if each item of these pages was seen in use in this call.
    pub fn alloc_within<I: Fn() -> Option<T>>(
        &self,
        pages: usize,
        init: &I,
    ) -> Result<(PageSlot<'c, T, K>, usize), PullError>
        requires some_page { 1 ≤ pages }
        requires may_make { MayMake I.pre I.post K.meets init.now }
        requires opens { MayMake I.pre I.post O.meets init.now }
        ensures pulled { IfOk result (λ reached. PullsAlong K.meets O.meets (shown_page self.now)
            reached.1 reached.0.item) }
        ensures within { IfOk result (λ reached. reached.1 < pages) }
        ensures refused { IfErr result (Refuses ⊤ (I.post init.now None) ⊤) }
    {
        let reached = self.walk(Some(pages), init)?;
        let passed = reached.number.get() - self.number;
        Ok((reached.slot, passed))
    }

    /// Pulls from the first page that has an item, from this one on. The item owns its page with
    /// others: it becomes one more owner once the item is taken.
    ///
    /// # Errors
    ///
    /// As `alloc`, and `Memory` if the page can have no more owners. Then the item is free again.
    pub fn alloc_owned<I: Fn() -> Option<T>>(
        &self,
        init: &I,
    ) -> Result<(OwnedSlot<T, K>, usize), PullError>
        requires may_make { MayMake I.pre I.post K.meets init.now }
        requires opens { MayMake I.pre I.post O.meets init.now }
        ensures pulled { IfOk result (λ reached. PullsAlong K.meets O.meets (shown_page self.now)
            reached.1 reached.0.item) }
        ensures refused { IfErr result (Refuses ⊤ (I.post init.now None) ⊥) }
    {
        let (slot, number) = self.walk(None, init)?.into_owned()?;
        Ok((slot, number.get() - self.number))
    }

    /// Pulls an item that owns its page with others, from the first page that has one, of the
    /// `pages` pages from this one on. It links no page past them.
    ///
    /// # Errors
    ///
    /// As `alloc_owned`, and `Limit` if each item of these pages was seen in use in this call.
    pub fn alloc_owned_within<I: Fn() -> Option<T>>(
        &self,
        pages: usize,
        init: &I,
    ) -> Result<(OwnedSlot<T, K>, usize), PullError>
        requires some_page { 1 ≤ pages }
        requires may_make { MayMake I.pre I.post K.meets init.now }
        requires opens { MayMake I.pre I.post O.meets init.now }
        ensures pulled { IfOk result (λ reached. PullsAlong K.meets O.meets (shown_page self.now)
            reached.1 reached.0.item) }
        ensures within { IfOk result (λ reached. reached.1 < pages) }
        ensures refused { IfErr result (Refuses ⊤ (I.post init.now None) ⊤) }
    {
        let (slot, number) = self.walk(Some(pages), init)?.into_owned()?;
        Ok((slot, number.get() - self.number))
    }

    /// Goes from page to page, within the limit, until one has an item.
    ///
    /// # Errors
    ///
    /// `Memory`, `Init`, or `Limit` if each page within the limit was found full.
    pub fn walk<I: Fn() -> Option<T>>(
        &self,
        limit: Option<usize>,
        init: &I,
    ) -> Result<WalkEnd<'c, T, K, O>, PullError>
        requires some_page { IfSome limit (λ pages. 1 ≤ pages) }
        requires may_make { MayMake I.pre I.post K.meets init.now }
        requires opens { MayMake I.pre I.post O.meets init.now }
        ensures taken { IfOk result (IsWalkEnd K.meets O.meets (shown_page self.now) limit) }
        ensures refused { IfErr result (Refuses ⊤ (I.post init.now None) (IsSome limit)) }
    {
        let pass = PullPass::new();
        match self.page.take(&pass).answer {
            Allocated::Slot(slot) => {
                let number = PageNumber::of_start(self.directory.allocator(), self.number);
                Ok(WalkEnd {
                    slot,
                    page: self.page.owner(),
                    number,
                })
            }
            Allocated::Full(seen) => match self.walk_on(seen, &mut None, limit, init) {
                Ok(reached) => Ok(reached),
                Err(refusal) => Err(refusal.cause()),
            },
        }
    }

    /// Walks on from this page, which was found full in this pull. A hinted page that was found
    /// full too isn't asked again.
    ///
    /// Each link from this page on is read once, and each other page is asked once.
    ///
    /// # Errors
    ///
    /// Why it took no item: see [`WalkRefusal`].
    pub(super) fn walk_on<'p, I: Fn() -> Option<T>>(
        &self,
        seen: FullSeen<'p, T>,
        hinted: &mut Option<KnownFull<'p, T, K, O>>,
        limit: Option<usize>,
        init: &I,
    ) -> Result<WalkEnd<'c, T, K, O>, WalkRefusal<'p, T, K, O>>
        requires of_page { IsFullPage (shown_page self.now).page.identity seen }
        requires hinted { IfSome hinted.old (IsFullAt self.now.directory.now) }
        requires some_page { IfSome limit (λ pages. 1 ≤ pages) }
        requires may_make { MayMake I.pre I.post K.meets init.now }
        requires opens { MayMake I.pre I.post O.meets init.now }
        ensures taken { IfOk result
            (IsWalkEnd K.meets O.meets (shown_page self.now) limit) }
        ensures further { IfOk result (λ reached. (shown_page self.now).number
            < reached.number.number) }
        ensures refused { IfErr result (IsRefusedBy (shown_page self.now) limit
            (I.post init.now None)) }
    {
        let pass = seen.pass();
        let mut page: &'c OpenedPage<T, K, O> = self.page;
        let mut at = PageNumber::of_start(self.directory.allocator(), self.number);
        let mut full = seen;
        loop {
            let number = at.get();
            if is_last(limit, number - self.number) {
                return Err(WalkRefusal::Limit(LimitSeen {
                    number: at,
                    seen: full,
                }));
            }
            let (linked, mut note) = self.behind(number, page, full, init)?;
            let answer = self.take_at(linked, number + 1, &mut note, hinted, pass);
            at = PageNumber::of_link(number + 1, note);
            match answer {
                Allocated::Slot(slot) => {
                    return Ok(WalkEnd {
                        slot,
                        page: linked.owner(),
                        number: at,
                    });
                }
                Allocated::Full(seen) => {
                    full = seen;
                }
            }
            page = linked;
        }
    }

    /// Returns the page after the one with this number, and a note of the link to it. If there is
    /// none yet, it makes the page and links it.
    fn behind<I: Fn() -> Option<T>>(
        &self,
        number: usize,
        before: &'c OpenedPage<T, K, O>,
        seen: FullSeen<'_, T>,
        init: &I,
    ) -> Result<(&'c OpenedPage<T, K, O>, LinkNote<T, K, O>), PullError>
        requires of_page { seen.page ≡ (page_view (arc_value before.now)).identity }
        requires may_make { MayMake I.pre I.post K.meets init.now }
        requires opens { MayMake I.pre I.post O.meets init.now }
        ensures fits { IfOk result (λ _. number + 1 < 2 ^ 64) }
        ensures known { IfOk result (λ next. IsKnownAt self.now.directory.now (number + 1) next.1
            (page_view (arc_value next.0.now))) }
        ensures refused { IfErr result (Refuses ⊤ (I.post init.now None) ⊥) }
    {
        let before = LinearPage::new(self.directory, before, number);
        let (next, note) = before.get_or_create_next(seen, init)?;
        Ok((next.page, note))
    }

    /// Pulls from a page that the walk came to. If it is the one that was asked by a hint, it
    /// returns what that page answered in this pull.
    fn take_at<'p>(
        &self,
        page: &'c OpenedPage<T, K, O>,
        number: usize,
        note: &mut LinkNote<T, K, O>,
        hinted: &mut Option<KnownFull<'p, T, K, O>>,
        pass: &'p PullPass,
    ) -> Allocated<'c, 'p, T, K>
        requires linked { IsKnownAt self.now.directory.now number note.old
            (page_view (arc_value page.now)) }
        requires full { IfSome hinted.old (IsFullAt self.now.directory.now) }
        ensures full { IfSome hinted.new (IsFullAt self.now.directory.now) }
        ensures linked { IsKnownAt self.now.directory.now number note.new
            (page_view (arc_value page.now)) }
        ensures answer { IsAnsweredBy K.meets O.meets (page_view (arc_value page.now)) result }
    {
        match known_at(hinted, number) {
            Some(known) => Allocated::Full(known.into_seen(note)),
            None => page.take(pass).answer,
        }
    }
}

/// Takes what was found of the hinted page, if it has this number.
fn known_at<'p, T, K: Clean<T>, O: Clean<T>>(
    hinted: &mut Option<KnownFull<'p, T, K, O>>,
    number: usize,
) -> Option<KnownFull<'p, T, K, O>>
    ensures same { IfSome result (λ known. hinted.old ≡ Some known) }
    ensures here { IfSome result (λ known. known.number ≡ number) }
    ensures rest { IfSome hinted.new (λ rest. hinted.old ≡ Some rest) }
{
    let is_here = match hinted {
        Some(known) => known.number == number,
        None => false,
    };
    if is_here { hinted.take() } else { None }
}

/// Returns whether the page after so many links is the last that the limit allows.
fn is_last(limit: Option<usize>, passed: usize) -> bool
    requires within { IfSome limit (λ pages. passed < pages) }
    ensures last { IsTrue result → limit ≡ Some (passed + 1) }
    ensures not_last { IsFalse result → IfSome limit (λ pages. passed + 1 < pages) }
{
    match limit {
        Some(pages) => pages - passed == 1,
        None => false,
    }
}

impl<T: Drop, K: Clean<T>, O: Clean<T>> WalkEnd<'_, T, K, O> {
    /// Returns the same item with an owner of its page in place of the borrow, and its page's
    /// number.
    ///
    /// # Errors
    ///
    /// `Memory` if the page can have no more owners. Then the item is returned to its page.
    pub fn into_owned(self) -> Result<(OwnedSlot<T, K>, PageNumber<T, K, O>), PullError>
        requires of_page { page_of_item self.slot.item ≡ page_view (arc_value self.page.now) }
        requires same_opening { self.slot.opening ≡ self.slot.item.opening }
        requires meets { K.meets self.slot.item.value }
        ensures item { IfOk result (λ reached. reached.0.item ≡ self.entry.slot.item) }
        ensures number { IfOk result (λ reached. reached.1 ≡ self.entry.number) }
        ensures refused { IfErr result (Refuses ⊤ ⊥ ⊥) }
    {
        let WalkEnd { slot, page, number } = self;
        match Arc::try_clone(page) {
            Ok(owner) => Ok((slot.into_owned(owner), number)),
            Err(_) => {
                Page::free(slot);
                Err(PullError::Memory)
            }
        }
    }
}
