//! Lazy pools of many items.
ghost use Rattle.std.specs.Prelude.{◌≤◌};

use crate::numbers::{Numbers, PAGE_ITEMS};
use crate::pulls::Lazy;
use crate::rounds::come_back;
use crate::wrong::Wrong;
use lockfree_object_pool::PullError;
use lockfree_object_pool::closures::Keep;
use std::alloc::Global;

/// Pulls each item, which is made when it is first pulled, and no more.
///
/// # Errors
///
/// `Wrong` names what was seen and may not be.
pub fn borrowed<R>(rt: &R, alloc: Global, pages: u16) -> Result<(), Wrong>
    requires { 1 ≤ pages }
{
    let numbers = Numbers::new(alloc)?;
    let items = u64::from(pages) * PAGE_ITEMS;
    let pool = Lazy::new(alloc, numbers.share()?, Keep, items as usize)?;
    come_back(rt, alloc, items, Some(PullError::Limit), &&pool)?;
    numbers.expect_made(items)
}
