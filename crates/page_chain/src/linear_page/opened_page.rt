//! A page of a chain, and the condition that its first values met.
ghost use Rattle.std.specs.Prelude.{◌≡◌, None, IfErr, ⊤};
ghost use Rattle.std.specs.Arc.{arc_value};
ghost use Rattle.pool_parts.specs.Answers.{MayMake, Refuses};
ghost use Rattle.pool_parts.specs.Item.{IsFilled};
ghost use Rattle.pool_parts.specs.declared.page.word.TheConstants.{PAGE_ITEMS};
ghost use Rattle.pool_parts.specs.Page.{page_view};
ghost use Rattle.page_chain.specs.WalkSteps.{IsAnsweredBy};

use atomic_table::Badge;
use pool_parts::PullError;
use pool_parts::clean::Clean;
use pool_parts::page::{Page, PageAnswer, PullPass};
use std::alloc::Global;
use std::cell::Cell;
use std::marker::{Model, PhantomData};
use std::sync::{Arc, Mutex};

/// A page with its owners. Each value that it opened with meets the condition `O`.
///
/// Contracts see the page's owner. The marker may be sent and shared whatever `O` is.
#[derive(Drop)]
pub(super) struct OpenedPage<T, K: Clean<T>, O: Clean<T>> {
    pub(super) page: Arc<Page<T, K>>,
    marker: PhantomData<Mutex<Badge<O>>>,
}

impl<T, K: Clean<T>, O: Clean<T>> Model for OpenedPage<T, K, O> {
    ghost use Rattle.std.specs.Arc.{arc_value};
    ghost use Rattle.std.specs.declared.alloc.Global.{Global};
    ghost use Rattle.std.specs.declared.sync.Arc.{Arc};
    ghost use Rattle.pool_parts.specs.Page.{page_view};
    ghost use Rattle.pool_parts.specs.Item.{IsFilled};
    ghost use Rattle.pool_parts.specs.declared.page.shared_page.Page.{Page};
    ghost use Rattle.pool_parts.specs.declared.page.word.TheConstants.{PAGE_ITEMS};

    ghost Value = { Arc (Page T K) Global };

    ghost view = { λ opened. opened.page };

    ghost invariant = { λ opened. IsFilled PAGE_ITEMS O.meets
        (page_view (arc_value opened.page)).opening };
}

impl<T, K: Clean<T>, O: Clean<T>> OpenedPage<T, K, O> {
    /// Records that the page opened with values that meet the condition.
    pub(super) fn new(page: Arc<Page<T, K>>) -> OpenedPage<T, K, O>
        requires { IsFilled PAGE_ITEMS O.meets (page_view (arc_value page)).opening }
        ensures { result ≡ page }
    {
        OpenedPage {
            page,
            marker: PhantomData,
        }
    }

    /// Returns the page, with its owners.
    pub(super) fn owner(&self) -> &Arc<Page<T, K>>
        ensures page { result.now ≡ self.now }
        ensures opened { IsFilled PAGE_ITEMS O.meets (page_view (arc_value result.now)).opening }
    {
        &self.page
    }

    /// Pulls from the page.
    pub(super) fn take<'s, 'p>(&'s self, pass: &'p PullPass) -> PageAnswer<'s, 'p, T, K>
        ensures { IsAnsweredBy K.meets O.meets (page_view (arc_value self.now)) result.answer }
    {
        self.page.take(pass)
    }
}

/// Makes a page for a chain.
pub(super) fn made_page<T: Drop, K: Clean<T>, O: Clean<T>, I: Fn() -> Option<T>>(
    alloc: Global,
    init: &I,
) -> Result<OpenedPage<T, K, O>, PullError>
    requires may_make { MayMake I.pre I.post K.meets init.now }
    requires opens { MayMake I.pre I.post O.meets init.now }
    ensures refused { IfErr result (Refuses ⊤ (I.post init.now None) ⊥) }
{
    let page = Arc::new(alloc, Page::new(alloc, init)?)?;
    Ok(OpenedPage::new(page))
}

/// Makes a page for a chain, and records that it was made.
pub(super) fn told_page<T: Drop, K: Clean<T>, O: Clean<T>, I: Fn() -> Option<T>>(
    alloc: Global,
    init: &I,
    made: &Cell<bool>,
) -> Result<OpenedPage<T, K, O>, PullError>
    requires may_make { MayMake I.pre I.post K.meets init.now }
    requires opens { MayMake I.pre I.post O.meets init.now }
    ensures refused { IfErr result (Refuses ⊤ (I.post init.now None) ⊥) }
{
    let page = made_page(alloc, init)?;
    made.set(true);
    Ok(page)
}
