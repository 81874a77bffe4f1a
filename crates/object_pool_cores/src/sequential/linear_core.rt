//! A sequential linear pool: the least free number first, and a page more if none is free.
ghost use Rattle.std.specs.Prelude.{◌≡◌, ◌≢◌, ◌≤◌, Some, None, Err, IfOk, OnErr, []};
ghost use Rattle.object_pool_cores.specs.Item.{item_value};
ghost use Rattle.object_pool_cores.specs.Attach.{RefusesAttach};
ghost use Rattle.object_pool_cores.specs.PageProbes.{ProbesFew};
ghost use Rattle.object_pool_cores.specs.Linear.{core_pool, limit_of, looked_of, start_page_of};
ghost use Rattle.object_pool_cores.specs.Linear.{linear_init, linear_reset, IsOpening, LinearPulls};
ghost use Rattle.object_pool_cores.specs.Linear.{LinearGives, ProbesUpTo, ProbesTheRest};
ghost use Rattle.object_pool_cores.specs.Linear.{StartsNoFurther, HeldTogether, IsOutOf};

use crate::sequential::numbered_items::NumberedItems;
use crate::sequential::{AttachError, Item, SequentialPool};
use pool_parts::PullError;
use pool_parts::clean::Clean;
use pool_parts::closures::{Init, Reset};
use std::alloc::Global;

/// A pool of pages of 32 items each, which are known by their numbers. A pull gives the least free
/// number.
///
/// # Examples
///
/// ```rust
/// let mut core = LinearCore::<u32, _, _, AnyValue>::new(alloc, Copied::new(0), Keep)?;
/// let item = core.pull()?;
/// assert_eq!(rt; item.number(), Some(0));
/// core.give(item); // a later pull gives it again
/// ```
pub struct LinearCore<T, I: Init<T, K>, R: Reset<T, K>, K: Clean<T>> {
    init: I,
    reset: R,
    items: NumberedItems<T, K>,
}

impl<T: Drop, I: Init<T, K>, R: Reset<T, K>, K: Clean<T>> Drop for LinearCore<T, I, R, K> {
    fn drop(self) {
        let LinearCore {
            init: _,
            reset: _,
            items: _,
        } = self;
    }
}

impl<T: Drop, I: Init<T, K>, R: Reset<T, K>, K: Clean<T>> LinearCore<T, I, R, K> {
    /// Creates a pool of one page. It may have any number of pages.
    ///
    /// # Errors
    ///
    /// `Memory`, or `Init` at the first `None` of `init`. The values that were made are dropped.
    ///
    /// # Examples
    ///
    /// ```rust
    /// let mut core = LinearCore::<u32, _, _, AnyValue>::new(alloc, Copied::new(0), Keep)?;
    /// ```
    pub fn new(alloc: Global, init: I, reset: R) -> Result<LinearCore<T, I, R, K>, PullError>
        ensures opening { IfOk result (λ core. IsOpening (I.answers init) None core) }
        ensures init { IfOk result (λ core. linear_init core ≡ init) }
        ensures reset { IfOk result (λ core. linear_reset core ≡ reset) }
        ensures start { IfOk result (λ core. start_page_of core ≡ 0) }
        ensures looked { IfOk result (λ core. looked_of core ≡ 0) }
        ensures refused { result ≡ Err PullError.Init → I.answers init None }
        ensures unlimited { result ≢ Err PullError.Limit }
    {
        LinearCore::with_first_page(alloc, None, init, reset)
    }

    /// Creates a pool of one page, which never has more than `pages` pages.
    ///
    /// # Errors
    ///
    /// `Memory`, or `Init` at the first `None` of `init`. The values that were made are dropped.
    ///
    /// # Examples
    ///
    /// ```rust
    /// let core = LinearCore::<u32, _, _, AnyValue>::with_limit(alloc, Copied::new(0), Keep, 2)?;
    /// assert_eq!(rt; core.limit(), Some(2));
    /// ```
    pub fn with_limit(
        alloc: Global,
        init: I,
        reset: R,
        pages: usize,
    ) -> Result<LinearCore<T, I, R, K>, PullError>
        requires { 1 ≤ pages }
        ensures opening { IfOk result (λ core. IsOpening (I.answers init) (Some pages) core) }
        ensures init { IfOk result (λ core. linear_init core ≡ init) }
        ensures reset { IfOk result (λ core. linear_reset core ≡ reset) }
        ensures start { IfOk result (λ core. start_page_of core ≡ 0) }
        ensures looked { IfOk result (λ core. looked_of core ≡ 0) }
        ensures refused { result ≡ Err PullError.Init → I.answers init None }
        ensures within { result ≢ Err PullError.Limit }
    {
        LinearCore::with_first_page(alloc, Some(pages), init, reset)
    }

    fn with_first_page(
        alloc: Global,
        limit: Option<usize>,
        init: I,
        reset: R,
    ) -> Result<LinearCore<T, I, R, K>, PullError>
        requires allowed { limit ≢ Some 0 }
        ensures opening { IfOk result (λ core. IsOpening (I.answers init) limit core) }
        ensures init { IfOk result (λ core. linear_init core ≡ init) }
        ensures reset { IfOk result (λ core. linear_reset core ≡ reset) }
        ensures start { IfOk result (λ core. start_page_of core ≡ 0) }
        ensures looked { IfOk result (λ core. looked_of core ≡ 0) }
        ensures refused { result ≡ Err PullError.Init → I.answers init None }
        ensures within { result ≢ Err PullError.Limit }
    {
        let mut items = NumberedItems::new(alloc, limit);
        items.grow(&init)?;
        Ok(LinearCore { init, reset, items })
    }

    /// Returns how many pages the pool may have, if there is a limit.
    pub fn limit(&self) -> Option<usize>
        ensures { result ≡ limit_of self.now }
    {
        self.items.limit()
    }

    /// Returns how many pages the pool has.
    pub fn pages(&self) -> usize
        ensures { result ≡ (core_pool self.now).pages }
    {
        self.items.pages()
    }

    /// Returns how many pages the pulls have probed. A pull probes each page once, from the one at
    /// which it starts up to the one that it takes from. At `u64::MAX` the count stays.
    pub fn pages_looked(&self) -> u64
        ensures { result ≡ looked_of self.now }
    {
        self.items.pages_looked()
    }
}

impl<T: Drop, I: Init<T, K>, R: Reset<T, K>, K: Clean<T>> SequentialPool<T>
    for LinearCore<T, I, R, K> {
    ghost use Rattle.object_pool_cores.specs.Inside.Numbered.{free_values};

    ghost pulls = { λ old answer new. LinearPulls (I.answers (linear_init old)) old answer new };

    ghost gives = { λ old item new. LinearGives (R.leaves (linear_reset old)) old item new };

    ghost attaches = { λ old value answer new. RefusesAttach old value answer new };

    ghost owns = { λ core item. IsOutOf core item };

    ghost together = { λ core held. HeldTogether core held };

    ghost kept = { λ core. free_values core.items.places };

    ghost answers = { λ core answer. I.answers (linear_init core) answer };

    ghost leaves = { λ core old new. R.leaves (linear_reset core) old new };

    fn pull(&mut self) -> Result<Item<T>, PullError>
        ensures step { LinearPulls (I.answers (linear_init self.old)) self.old result self.new }
        ensures meets { IfOk result (λ item. K.meets (item_value item)) }
        ensures probes { ProbesFew (core_pool self.old) (looked_of self.old) (looked_of self.new) }
        ensures probes_up_to { IfOk result (λ item. ProbesUpTo self.old item self.new) }
        ensures probes_the_rest { OnErr result (ProbesTheRest self.old self.new) }
    {
        if let Some(item) = self.items.take_least() {
            return Ok(item);
        }
        self.items.grow(&self.init)?;
        match self.items.take_least() {
            Some(item) => Ok(item),
            None => unreachable!(),
        }
    }

    fn give(&mut self, item: Item<T>)
        requires { IsOutOf self.old item }
        ensures step { LinearGives (R.leaves (linear_reset self.old)) self.old item self.new }
        ensures starts { StartsNoFurther self.old item self.new }
        ensures looked { looked_of self.new ≡ looked_of self.old }
    {
        let Some(number) = item.number() else {
            unreachable!()
        };
        let mut value = item.into_value();
        self.reset.reset(&mut value);
        self.items.give(number, value);
    }

    fn attach(&mut self, value: T) -> Result<Item<T>, AttachError<T>>
        ensures { RefusesAttach self.old value result self.new }
    {
        Err(AttachError::NotOffered(value))
    }

    fn is_mine(&self, item: &Item<T>) -> bool {
        match item.number() {
            Some(number) => self.items.is_out(number),
            None => false,
        }
    }

    ghost use Rattle.object_pool_cores.specs.Laws.LinearBag.{LinearPulls-from_bag};
    ghost use Rattle.object_pool_cores.specs.Laws.LinearBag.{LinearGives-to_bag};
    ghost use Rattle.object_pool_cores.specs.Laws.LinearTogether.{HeldTogether-none};
    ghost use Rattle.object_pool_cores.specs.Laws.LinearTogether.{HeldTogether-pulled};
    ghost use Rattle.object_pool_cores.specs.Laws.LinearTogether.{HeldTogether-refused};
    ghost use Rattle.object_pool_cores.specs.Laws.LinearTogether.{HeldTogether-attached};
    ghost use Rattle.object_pool_cores.specs.Laws.LinearTogether.{HeldTogether-given};
    ghost use Rattle.object_pool_cores.specs.Laws.LinearTogether.{HeldTogether-forgotten};
    ghost use Rattle.object_pool_cores.specs.Laws.LinearTogether.{HeldTogether-written};
    ghost use Rattle.std.proofs.Common.{ap};

    ghost pull_from_bag = { λ old new answer pulls.
        LinearPulls-from_bag (I.answers (linear_init old)) old new answer pulls };

    ghost return_to_bag = { λ old new item owned gives.
        LinearGives-to_bag (R.leaves (linear_reset old)) old new item gives };

    ghost attach_beside_bag = { λ old new value answer refused.
        ap (λ core. free_values core.items.places) refused.1 };

    ghost together_at_first = { λ core. HeldTogether-none core };

    ghost together_is_owned = { λ core held index item together here.
        together.out index item here };

    ghost together_after_pull = { λ old new held item together pulls.
        HeldTogether-pulled (I.answers (linear_init old)) old new held item together pulls };

    ghost together_after_refusal = { λ old new held cause together pulls.
        HeldTogether-refused (I.answers (linear_init old)) old new held cause together pulls };

    ghost together_after_attach = { λ old new held value item together refused.
        HeldTogether-attached old new held value item refused };

    ghost together_after_give = { λ old new held index item together here gives.
        HeldTogether-given (R.leaves (linear_reset old)) old new held index item together here
        gives };

    ghost together_after_forget = { λ core held index together.
        HeldTogether-forgotten core held index together };

    ghost together_after_write = { λ core held index item value together here.
        HeldTogether-written core held index item value together here };
}
