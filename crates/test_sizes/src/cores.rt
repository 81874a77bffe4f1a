//! Pools of one owner with many numbers.
ghost use Rattle.std.specs.Prelude.{◌≤◌};

use crate::numbers::{Numbers, PAGE_ITEMS, SeenNumbers};
use crate::wrong::Wrong;
use lockfree_object_pool::PullError;
use lockfree_object_pool::clean::AnyValue;
use lockfree_object_pool::closures::{Copied, Keep};
use object_pool_cores::sequential::{Item, LinearCore, SequentialPool, StackCore};
use std::alloc::Global;

pub type Linear = LinearCore<u64, Numbers, Keep, AnyValue>;

type Stack = StackCore<u64, Numbers, Keep, AnyValue>;

/// Its values have no bytes.
type Bare = LinearCore<(), Copied<(), AnyValue>, Keep, AnyValue>;

/// Plays a linear core with a limit: the last number is given, and no more.
///
/// # Errors
///
/// `Wrong` names what was seen and may not be.
pub fn bounded_linear(alloc: Global, pages: u16) -> Result<(), Wrong>
    requires { 1 ≤ pages }
{
    let numbers = Numbers::new(alloc)?;
    let core: Linear = LinearCore::with_limit(alloc, numbers.share()?, Keep, usize::from(pages))?;
    let items = u64::from(pages) * PAGE_ITEMS;
    come_back(alloc, items, Some(PullError::Limit), core)?;
    numbers.expect_made(items)
}

/// Plays a linear core without a limit, which makes no page beside those that its items need.
///
/// # Errors
///
/// `Wrong` names what was seen and may not be.
pub fn linear(alloc: Global, pages: u16) -> Result<(), Wrong> {
    let numbers = Numbers::new(alloc)?;
    let core: Linear = LinearCore::new(alloc, numbers.share()?, Keep)?;
    let items = u64::from(pages) * PAGE_ITEMS;
    come_back(alloc, items, None, core)?;
    numbers.expect_made(items)
}

/// Plays a stack core, which keeps each value.
///
/// # Errors
///
/// `Wrong` names what was seen and may not be.
pub fn stack(alloc: Global, pages: u16) -> Result<(), Wrong> {
    let numbers = Numbers::new(alloc)?;
    let core: Stack = StackCore::new(alloc, numbers.share()?, Keep);
    let items = u64::from(pages) * PAGE_ITEMS;
    come_back(alloc, items, None, core)?;
    numbers.expect_made(items)
}

/// Pulls so many numbers of a linear core, the least first, each of which stays out.
///
/// # Errors
///
/// `Wrong` names what was seen and may not be.
pub fn hand_out(alloc: Global, numbers: u64) -> Result<(), Wrong> {
    let mut core: Bare = LinearCore::new(alloc, Copied::new(()), Keep)?;
    for number in 0..numbers {
        let item = core.pull()?;
        if item.number() != Some(u128::from(number)) {
            return Err(Wrong::Number(number));
        }
    }
    Ok(())
}

/// In two rounds so many items are pulled, held together and given back. Each comes once a round. A
/// pool that has no more refuses a further pull so.
fn come_back<P: SequentialPool<u64> + Drop>(
    alloc: Global,
    items: u64,
    refusal: Option<PullError>,
    mut core: P,
) -> Result<(), Wrong> {
    for _ in 0..2 {
        let held = hold(alloc, items, &mut core)?;
        if refusal.is_some() && core.pull().err() != refusal {
            return Err(Wrong::NotRefused);
        }
        for item in held {
            if !core.is_mine(&item) {
                return Err(Wrong::NotOwn);
            }
            core.give(item);
        }
    }
    Ok(())
}

/// So many items, each with another number.
fn hold<P: SequentialPool<u64>>(
    alloc: Global,
    items: u64,
    core: &mut P,
) -> Result<Vec<Item<u64>>, Wrong> {
    let mut seen = SeenNumbers::none(alloc, items)?;
    let mut held = Vec::with_capacity(alloc, items as usize)?;
    for _ in 0..items {
        let item = core.pull()?;
        seen.see(*item)?;
        held.push(item)?;
    }
    Ok(held)
}
