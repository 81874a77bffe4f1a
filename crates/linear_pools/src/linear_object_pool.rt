//! A pool over a chain of pages: threads pull and return without a lock.
//!
//! A pull takes a free item of the first page, or of a page that a hint names, or of the first page
//! along the links that has one. If each page was full it makes a further page. No pull and no
//! return waits for another thread.
ghost use Rattle.std.specs.Prelude.{◌≡◌, ◌≤◌, ◌<◌, Option, None, Some, IsSome, IfOk, IfErr, ⊤};
ghost use Rattle.std.specs.Arc.{arc_value};
ghost use Rattle.std.specs.Option.{option_map};

use crate::linear_owned_reusable::LinearOwnedReusable;
use crate::linear_reusable::LinearReusable;
use page_chain::linear_page::{Chain, PageNumber, WalkEnd, WalkRefusal};
use pool_parts::PullError;
use pool_parts::clean::{AnyValue, Clean};
use pool_parts::closures::{Init, Reset};
use pool_parts::made_or_reset::MadeOrReset;
use pool_parts::page::{Allocated, FullSeen, PageNote, PageSlot, PullPass};
use std::alloc::Global;
use std::fmt::{self, Debug, Formatter, Write};
use std::marker::PhantomData;
use std::sync::Arc;

/// Why [`LinearObjectPool::try_pull`] took no item: the pages up to the pool's limit were found
/// full, of which it has the evidence of the last one, or no further page could be made.
///
/// # Examples
///
/// ```rust
/// match pool.try_pull(&pass) {
///     Ok(item) => Ok(item.page_id()),
///     Err(refusal) => Err(refusal.cause()), // `Limit`, `Memory` or `Init`
/// }
/// ```
pub type LinearRefusal<'p, T, I, R, K = AnyValue> = WalkRefusal<
    'p,
    T,
    MadeOrReset<I, R, K>,
    AnswerOf<I, K>,
>;

/// The result of [`LinearObjectPool::try_pull`].
///
/// # Examples
///
/// ```rust
/// match pool.try_pull(&pass) {
///     Ok(item) => Ok(item.page_id()),
///     Err(refusal) => Err(refusal.cause()), // `Limit`, `Memory` or `Init`
/// }
/// ```
pub type LinearPulled<'s, 'p, T, I, R, K = AnyValue> = Result<
    LinearReusable<'s, T, I, R, K>,
    LinearRefusal<'p, T, I, R, K>,
>;

/// The condition of the values with which a pool's pages open: an initializer of its type may
/// answer them. Only contracts name it.
pub struct AnswerOf<I, K> {
    init: PhantomData<I>,
    condition: PhantomData<K>,
}

impl<T, I: Init<T, K>, K: Clean<T>> Clean<T> for AnswerOf<I, K> {
    ghost meets = { λ value. (initializer : I) × I.answers initializer (Some value) };
}

/// A number of pages, at least 1.
#[derive(Drop)]
struct PageLimit {
    pages: usize,
    ghost some_page: { 1 ≤ pages },
}

/// A pool whose items lie in pages of 32. It opens with one page, and makes a further one if each
/// page is full.
///
/// # Examples
///
/// ```rust
/// let pool = LinearObjectPool::<u32, _, _>::new(alloc, Copied::new(0), Copied::new(0))?;
/// let mut item = pool.pull()?;
/// *item = 5;
/// drop(item); // the value is 0 again, and in the pool
/// ```
pub struct LinearObjectPool<T, I: Init<T, K>, R: Reset<T, K>, K: Clean<T> = AnyValue> {
    init: I,
    pub(crate) reset: R,
    pub(crate) chain: Chain<T, MadeOrReset<I, R, K>, AnswerOf<I, K>>,
    limit: Option<PageLimit>,
}

impl<T: Drop, I: Init<T, K>, R: Reset<T, K>, K: Clean<T>> Drop for LinearObjectPool<T, I, R, K> {
    fn drop(self) {
        let LinearObjectPool {
            init: _,
            reset: _,
            chain: _,
            limit: _,
        } = self;
    }
}

impl<T: Drop, I: Init<T, K>, R: Reset<T, K>, K: Clean<T>> LinearObjectPool<T, I, R, K> {
    ghost use Rattle.pool_parts.specs.Answers.{IsMadeOrReset, Refuses};
    ghost use Rattle.linear_pools.specs.LinearPool.{linear_view, Pulls};
    ghost use Rattle.pool_parts.specs.Item.{IsPageItem, IsPulled};
    ghost use Rattle.pool_parts.specs.Slot.{IsFullPage};
    ghost use Rattle.pool_parts.specs.Page.{view_of};
    ghost use Rattle.page_chain.specs.Walk.{IsRefusedBy};

    /// Creates a pool of one page, which grows by a page if each is full.
    ///
    /// # Errors
    ///
    /// `Memory`, or `Init` at the first `None`. The items that were made are dropped.
    ///
    /// # Examples
    ///
    /// ```rust
    /// let pool = LinearObjectPool::<u32, _, _>::new(alloc, Copied::new(0), Copied::new(0))?;
    /// ```
    pub fn new(alloc: Global, init: I, reset: R) -> Result<LinearObjectPool<T, I, R, K>, PullError>
        ensures init { IfOk result (λ pool. (linear_view pool).init ≡ init) }
        ensures reset { IfOk result (λ pool. (linear_view pool).reset ≡ reset) }
        ensures limit { IfOk result (λ pool. (linear_view pool).limit ≡ None) }
        ensures refused { IfErr result (Refuses ⊤ (I.answers init None) ⊥) }
    {
        LinearObjectPool::with_page_limit(alloc, init, reset, None)
    }

    /// Creates a pool of one page, which grows to at most `pages` pages.
    ///
    /// # Errors
    ///
    /// `Memory`, or `Init` at the first `None`. The items that were made are dropped.
    ///
    /// # Examples
    ///
    /// ```rust
    /// // at most 64 items
    /// let pool = LinearObjectPool::<u32, _, _>::with_limit(alloc, Copied::new(0), Keep, 2)?;
    /// ```
    pub fn with_limit(
        alloc: Global,
        init: I,
        reset: R,
        pages: usize,
    ) -> Result<LinearObjectPool<T, I, R, K>, PullError>
        requires some_page { 1 ≤ pages }
        ensures init { IfOk result (λ pool. (linear_view pool).init ≡ init) }
        ensures reset { IfOk result (λ pool. (linear_view pool).reset ≡ reset) }
        ensures limit { IfOk result (λ pool. (linear_view pool).limit ≡ Some pages) }
        ensures refused { IfErr result (Refuses ⊤ (I.answers init None) ⊥) }
    {
        LinearObjectPool::with_page_limit(alloc, init, reset, Some(PageLimit { pages }))
    }

    fn with_page_limit(
        alloc: Global,
        init: I,
        reset: R,
        limit: Option<PageLimit>,
    ) -> Result<LinearObjectPool<T, I, R, K>, PullError>
        ensures init { IfOk result (λ pool. (linear_view pool).init ≡ init) }
        ensures reset { IfOk result (λ pool. (linear_view pool).reset ≡ reset) }
        ensures limit { IfOk result (λ pool. (linear_view pool).limit ≡ option_map
            (λ limit. limit.pages) limit) }
        ensures refused { IfErr result (Refuses ⊤ (I.answers init None) ⊥) }
    {
        let maker = &init;
        let chain = Chain::new(alloc, &|| maker.make())?;
        Ok(LinearObjectPool {
            init,
            reset,
            chain,
            limit,
        })
    }

    /// Returns how many pages the pool may have, if it has a limit.
    pub fn limit(&self) -> Option<usize>
        ensures { result ≡ (linear_view self.now).limit }
    {
        match &self.limit {
            Some(limit) => Some(limit.pages),
            None => None,
        }
    }

    /// Pulls a free item, which nobody else has until it is dropped. It waits for no other thread.
    ///
    /// It asks the first page, then one that a hint names, then each page in turn. Of a page it
    /// takes the lowest free item.
    ///
    /// A pull that finds no hint asks each linked page, so making many pages costs the square of
    /// their number. The call that links page `2^b` also makes the links of as many pages.
    ///
    /// # Errors
    ///
    /// - `Limit` if each item of as many pages as the limit allows was seen in use in this call.
    /// - `Memory`, or `Init` at the first `None`, if it has to make a page. Then no page is linked.
    #[inline(always)]
    pub fn pull(&self) -> Result<LinearReusable<'_, T, I, R, K>, PullError>
        ensures pool { IfOk result (λ item. item.pool ≡ self.now) }
        ensures opening { IfOk result (λ item. item.opening ≡ item.item.opening) }
        ensures pulled { IfOk result (λ item. Pulls K.meets I.answers R.leaves self.now item.number
            item.item) }
        ensures refused { IfErr result (Refuses ⊤ (I.answers (linear_view self.now).init None)
            (IsSome (linear_view self.now).limit)) }
    {
        let pass = PullPass::new();
        match self.chain.take_first(&pass) {
            Allocated::Slot(slot) => Ok(LinearReusable {
                pool: self,
                slot,
                number: self.chain.first_number(),
            }),
            Allocated::Full(seen) => match self.pull_further(seen) {
                Ok(WalkEnd { slot, number, .. }) => Ok(LinearReusable {
                    pool: self,
                    slot,
                    number,
                }),
                Err(refusal) => Err(refusal.cause()),
            },
        }
    }

    /// Pulls a free item, or returns what it found in place of one. It asks the pages in the order
    /// in which `pull` asks them.
    ///
    /// # Errors
    ///
    /// - `Limit`, with the evidence that each item of the last page up to the limit was seen in use
    ///   during this call. The pull comes to that page only past others that it found full.
    /// - `Making`, with the reason why no further page could be made.
    pub fn try_pull<'s, 'p>(&'s self, pass: &'p PullPass) -> LinearPulled<'s, 'p, T, I, R, K>
        ensures pool { IfOk result (λ item. item.pool ≡ self.now) }
        ensures opening { IfOk result (λ item. item.opening ≡ item.item.opening) }
        ensures pulled { IfOk result (λ item. Pulls K.meets I.answers R.leaves self.now item.number
            item.item) }
        ensures refused { IfErr result (IsRefusedBy (linear_view self.now).start
            (linear_view self.now).limit (I.answers (linear_view self.now).init None)) }
    {
        match self.chain.take_first(pass) {
            Allocated::Slot(slot) => Ok(LinearReusable {
                pool: self,
                slot,
                number: self.chain.first_number(),
            }),
            Allocated::Full(seen) => match self.pull_further(seen) {
                Ok(WalkEnd { slot, number, .. }) => Ok(LinearReusable {
                    pool: self,
                    slot,
                    number,
                }),
                Err(refusal) => Err(refusal),
            },
        }
    }

    /// Pulls a free item by a user that knows something of the first page, or returns what it found
    /// in place of one. If the item is of the first page, the pull comes after all that the note
    /// knew.
    ///
    /// # Errors
    ///
    /// - `Limit`, with the evidence that each item of the last page up to the limit was seen in use
    ///   during this call.
    /// - `Making`, with the reason why no further page could be made.
    pub fn try_pull_from<'s, 'p>(
        &'s self,
        pass: &'p PullPass,
        note: PageNote<T>,
    ) -> LinearPulled<'s, 'p, T, I, R, K>
        requires { note.seat.table_id ≡ (linear_view self.now).start.page.identity }
        ensures pool { IfOk result (λ item. item.pool ≡ self.now) }
        ensures opening { IfOk result (λ item. item.number.number ≡ 0
            → item.opening ≡ (linear_view self.now).start.page.opening) }
        ensures first { IfOk result (λ item. item.number.number ≡ 0
            → IsPageItem (λ value. K.meets value × IsMadeOrReset I.answers R.leaves value) item.item
            × IsPulled (linear_view self.now).start.page.identity (view_of note.seat) item.item) }
        ensures further { IfOk result (λ item. 0 < item.number.number
            → Pulls K.meets I.answers R.leaves self.now item.number item.item
            × (item.opening ≡ item.item.opening)) }
        ensures refused { IfErr result (IsRefusedBy (linear_view self.now).start
            (linear_view self.now).limit (I.answers (linear_view self.now).init None)) }
    {
        match self.chain.take_first_from(pass, note) {
            Allocated::Slot(slot) => Ok(LinearReusable {
                pool: self,
                slot,
                number: self.chain.first_number(),
            }),
            Allocated::Full(seen) => match self.pull_further(seen) {
                Ok(WalkEnd { slot, number, .. }) => Ok(LinearReusable {
                    pool: self,
                    slot,
                    number,
                }),
                Err(refusal) => Err(refusal),
            },
        }
    }

    /// Pulls a free item, whose reusable owns the pool with others: it becomes one more owner
    /// before an item is taken. It asks the pages in the order in which `pull` asks them.
    ///
    /// # Errors
    ///
    /// - `Limit` if each item of as many pages as the limit allows was seen in use in this call.
    /// - `Memory`, or `Init` at the first `None`, if it has to make a page. Then no page is linked.
    /// - `Memory` too if the pool can have no more owners.
    pub fn pull_owned(self: &Arc<Self>) -> Result<LinearOwnedReusable<T, I, R, K>, PullError>
        ensures pool { IfOk result (λ item. item.pool ≡ arc_value self.now) }
        ensures pulled { IfOk result (λ item.
            Pulls K.meets I.answers R.leaves (arc_value self.now) item.number item.item) }
        ensures refused { IfErr result (Refuses ⊤ (I.answers (linear_view (arc_value self.now)).init
            None) (IsSome (linear_view (arc_value self.now)).limit)) }
    {
        let owner = Arc::try_clone(self)?;
        let pass = PullPass::new();
        match self.take(&pass) {
            Ok((slot, number)) => Ok(LinearOwnedReusable::new(owner, slot, number)),
            Err(refusal) => Err(refusal.cause()),
        }
    }

    /// Takes an item of the first page, or of a later one if that was found full. It returns the
    /// item's slot with its page's number.
    ///
    /// A borrowed pull doesn't go through it: the pair would be handed on through memory.
    #[inline(always)]
    fn take<'s, 'p>(
        &'s self,
        pass: &'p PullPass,
    ) -> Result<
        (
            PageSlot<'s, T, MadeOrReset<I, R, K>>,
            PageNumber<T, MadeOrReset<I, R, K>, AnswerOf<I, K>>,
        ),
        LinearRefusal<'p, T, I, R, K>,
    >
        ensures pulled { IfOk result (λ taken.
            Pulls K.meets I.answers R.leaves self.now taken.1 taken.0.item) }
        ensures refused { IfErr result (IsRefusedBy (linear_view self.now).start
            (linear_view self.now).limit (I.answers (linear_view self.now).init None)) }
    {
        match self.chain.take_first(pass) {
            Allocated::Slot(slot) => Ok((slot, self.chain.first_number())),
            Allocated::Full(seen) => match self.pull_further(seen) {
                Ok(reached) => Ok((reached.slot, reached.number)),
                Err(refusal) => Err(refusal),
            },
        }
    }

    /// Takes an item of a later page, once the first one was found full. It returns the item's slot
    /// with its page's number.
    #[inline]
    fn pull_further<'s, 'p>(
        &'s self,
        seen: FullSeen<'p, T>,
    ) -> Result<WalkEnd<'s, T, MadeOrReset<I, R, K>, AnswerOf<I, K>>, LinearRefusal<'p, T, I, R, K>>
        requires { IsFullPage (linear_view self.now).start.page.identity seen }
        ensures pulled { IfOk result (λ reached.
            Pulls K.meets I.answers R.leaves self.now reached.number reached.slot.item) }
        ensures opening { IfOk result (λ reached.
            reached.slot.opening ≡ reached.slot.item.opening) }
        ensures past_first { IfOk result (λ reached. 0 < reached.number.number) }
        ensures refused { IfErr result (IsRefusedBy (linear_view self.now).start
            (linear_view self.now).limit (I.answers (linear_view self.now).init None)) }
    {
        let init = &self.init;
        self.chain.pull_further(seen, self.limit(), &|| init.make())
    }
}

impl<T: Drop, I: Init<T, K>, R: Reset<T, K>, K: Clean<T>> Debug for LinearObjectPool<T, I, R, K> {
    fn fmt<W: Write>(&self, f: &mut Formatter<W>) -> fmt::Result {
        f.debug_struct("LinearObjectPool")
            .field("limit", &self.limit())
            .finish_non_exhaustive()
    }
}
