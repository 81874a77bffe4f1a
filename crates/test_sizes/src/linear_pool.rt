//! Linear pools of many pages.
ghost use Rattle.std.specs.Prelude.{◌≤◌};

use crate::numbers::{Numbers, PAGE_ITEMS};
use crate::pulls::Linear;
use crate::rounds::come_back;
use crate::wrong::Wrong;
use lockfree_object_pool::PullError;
use lockfree_object_pool::closures::Keep;
use std::alloc::Global;
use std::sync::Arc;

/// Pulls from a pool with a limit: the last item is given, and no more.
///
/// # Errors
///
/// `Wrong` names what was seen and may not be.
pub fn bounded<R>(rt: &R, alloc: Global, pages: u16) -> Result<(), Wrong>
    requires { 1 ≤ pages }
{
    let numbers = Numbers::new(alloc)?;
    let pool = Linear::with_limit(alloc, numbers.share()?, Keep, usize::from(pages))?;
    let items = u64::from(pages) * PAGE_ITEMS;
    come_back(rt, alloc, items, Some(PullError::Limit), &&pool)?;
    numbers.expect_made(items)
}

/// Pulls as `bounded` does, by owned items.
///
/// # Errors
///
/// `Wrong` names what was seen and may not be.
pub fn bounded_owned<R>(rt: &R, alloc: Global, pages: u16) -> Result<(), Wrong>
    requires { 1 ≤ pages }
{
    let numbers = Numbers::new(alloc)?;
    let pool = Linear::with_limit(alloc, numbers.share()?, Keep, usize::from(pages))?;
    let pool = Arc::new(alloc, pool)?;
    let items = u64::from(pages) * PAGE_ITEMS;
    come_back(rt, alloc, items, Some(PullError::Limit), &pool)?;
    numbers.expect_made(items)
}

/// Pulls from a pool without a limit, which makes no page beside those that its items need.
///
/// # Errors
///
/// `Wrong` names what was seen and may not be.
pub fn unbounded<R>(rt: &R, alloc: Global, pages: u16) -> Result<(), Wrong> {
    let numbers = Numbers::new(alloc)?;
    let pool = Linear::new(alloc, numbers.share()?, Keep)?;
    let items = u64::from(pages) * PAGE_ITEMS;
    come_back(rt, alloc, items, None, &&pool)?;
    numbers.expect_made(items)
}
