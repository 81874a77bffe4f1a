//! The pages of a chain, each asked by itself, beside proved pages of one owner in a list.
use crate::answer::{Call, Stopped};
use crate::comparison::{Ended, compare_ends, compare_openings, play};
use crate::dice::Dice;
use crate::figures::Figures;
use crate::maker::Maker;
use crate::pools::refuse_opening;
use crate::session::Session;
use crate::side::{Ask, Pulled, Side, Walk, number_of};
use crate::tallies::Tallies;
use crate::tally::SideTally;
use crate::value::Value;
use lockfree_object_pool::PullError;
use lockfree_object_pool::clean::{AnyValue, Clean};
use lockfree_object_pool::linear_page::{Chain, LinearPage};
use lockfree_object_pool::page::{OwnedSlot, Page, PageId, PageSlot};
use object_pool_cores::sequential::CorePage;
use std::alloc::Global;
use std::sync::Arc;

/// Does the session's calls.
///
/// # Errors
///
/// `Stopped` if the two sides differ, or memory is refused.
pub fn compare_pages<T: Value>(alloc: Global, session: Session) -> Result<Figures, Stopped> {
    let tallies = Tallies::new(alloc)?;
    refuse_opening(&tallies, session);
    let init = Maker::new(&tallies.running)?;
    let chain = new_chain::<T>(alloc, &init);
    let core = new_core::<T>(alloc, Maker::new(&tallies.core)?);
    let Some((chain, core)) = compare_openings(&tallies, chain, core)? else {
        return Ok(Figures::default());
    };
    let ended = played(alloc, &chain, core, init, session, tallies)?;
    drop(chain);
    compare_ends(ended)
}

fn new_chain<T: Value>(alloc: Global, init: &Maker) -> Result<Chain<T, AnyValue>, PullError> {
    Chain::new(alloc, &|| init.value())
}

fn new_core<T: Value>(alloc: Global, init: Maker) -> Result<CorePages<T>, PullError> {
    let mut core = CorePages {
        alloc,
        init,
        pages: Vec::new(alloc),
    };
    core.add()?;
    Ok(core)
}

/// What is left behind the session's calls.
fn played<T: Value>(
    alloc: Global,
    chain: &Chain<T, AnyValue>,
    core: CorePages<T>,
    init: Maker,
    session: Session,
    tallies: Tallies,
) -> Result<Ended<CorePages<T>>, Stopped> {
    let pages = vec![in alloc; chain.first()]?;
    play(alloc, OnChain { init, pages }, core, session, tallies, 0)
}

/// A slot of a chain, under a borrow of its page or with an owner of it.
#[derive(Drop)]
enum Slot<'c, T> {
    Borrowed(PageSlot<'c, T, AnyValue>),
    Owned(OwnedSlot<T, AnyValue>),
}

/// An item of a chain, and the number of its page.
#[derive(Drop)]
struct ChainItem<'c, T> {
    page: usize,
    slot: Slot<'c, T>,
}

impl<T: Value> Pulled for ChainItem<'_, T> {
    fn shown(&self) -> u64 {
        match &self.slot {
            Slot::Borrowed(slot) => T::content(&**slot),
            Slot::Owned(slot) => T::content(&**slot),
        }
    }

    fn overwrite(&mut self, content: u64) {
        match &mut self.slot {
            Slot::Borrowed(slot) => T::write(&mut **slot, content),
            Slot::Owned(slot) => T::write(&mut **slot, content),
        }
    }

    fn number(&self) -> Option<u128> {
        let id = match &self.slot {
            Slot::Borrowed(slot) => slot.id(),
            Slot::Owned(slot) => slot.id(),
        };
        Some(number_of(self.page, id))
    }
}

/// The known pages of a chain.
#[derive(Drop)]
struct OnChain<'c, T>
where
    AnyValue: Clean<T>,
{
    init: Maker,
    pages: Vec<LinearPage<'c, T, AnyValue>>,
}

impl<'c, T: Value> Side for OnChain<'c, T> {
    type Item = ChainItem<'c, T>;

    fn give(&mut self, ask: Ask, _tally: &Arc<SideTally>) -> Result<ChainItem<'c, T>, PullError> {
        let Some(&page) = self.pages.get(ask.walk.page) else {
            return Err(PullError::Memory);
        };
        let (slot, passed) = slot_from(page, ask, &self.init)?;
        let page = ask.walk.page.saturating_add(passed);
        Ok(ChainItem { page, slot })
    }

    /// Puts the value home.
    fn take_back(&mut self, item: ChainItem<'c, T>) -> bool {
        match item.slot {
            Slot::Borrowed(slot) => drop(Page::free(slot)),
            Slot::Owned(slot) => drop(slot.free()),
        }
        true
    }

    /// Draws where the next walk begins, mostly at the first page, and its limit.
    fn draw_walk(&self, dice: &mut Dice) -> Walk {
        let page = if dice.one_in(2) {
            dice.below(self.pages.len())
        } else {
            0
        };
        let limit = match dice.below(8) {
            0 => Some(1),
            1 => Some(2),
            2 => Some(self.pages.len()),
            3 => Some(usize::MAX),
            _ => None,
        };
        Walk { page, limit }
    }

    /// Learns the page that was linked behind the last known one. Its number has to be the next.
    fn pages(&mut self) -> Result<usize, Stopped> {
        let Some(&last) = self.pages.last() else {
            return Ok(0);
        };
        let Some((next, _)) = last.next() else {
            return Ok(self.pages.len());
        };
        if next.number() != self.pages.len() {
            return Ok(next.number());
        }
        self.pages.push(next)?;
        Ok(self.pages.len())
    }
}

/// What a page of the chain gives, and how many links it lies behind this one.
fn slot_from<'c, T: Value>(
    page: LinearPage<'c, T, AnyValue>,
    ask: Ask,
    init: &Maker,
) -> Result<(Slot<'c, T>, usize), PullError> {
    let make = || init.value();
    match (ask.call, ask.walk.limit) {
        (Call::Pull, Some(pages)) if pages > 0 => {
            let (slot, passed) = page.alloc_within(pages, &make)?;
            Ok((Slot::Borrowed(slot), passed))
        }
        (Call::Pull, _) => {
            let (slot, passed) = page.alloc(&make)?;
            Ok((Slot::Borrowed(slot), passed))
        }
        (_, Some(pages)) if pages > 0 => {
            let (slot, passed) = page.alloc_owned_within(pages, &make)?;
            Ok((Slot::Owned(slot), passed))
        }
        _ => {
            let (slot, passed) = page.alloc_owned(&make)?;
            Ok((Slot::Owned(slot), passed))
        }
    }
}

/// An item of the list of pages.
#[derive(Drop)]
struct CoreItem<T> {
    page: usize,
    id: PageId,
    value: T,
}

impl<T: Value> Pulled for CoreItem<T> {
    fn shown(&self) -> u64 {
        self.value.content()
    }

    fn overwrite(&mut self, content: u64) {
        self.value.write(content);
    }

    fn number(&self) -> Option<u128> {
        Some(number_of(self.page, self.id))
    }
}

/// A list of pages that grows as a chain does.
#[derive(Drop)]
struct CorePages<T> {
    alloc: Global,
    init: Maker,
    pages: Vec<CorePage<T, AnyValue>>,
}

impl<T: Value> CorePages<T> {
    fn add(&mut self) -> Result<(), PullError> {
        let init = &self.init;
        let page = CorePage::new(self.alloc, &|| init.value())?;
        self.pages.push(page)?;
        Ok(())
    }
}

impl<T: Value> Side for CorePages<T> {
    type Item = CoreItem<T>;

    /// Gives the least free item from a page on, within the limit. Adds a page where there is none.
    fn give(&mut self, ask: Ask, _tally: &Arc<SideTally>) -> Result<CoreItem<T>, PullError> {
        let Walk { page: first, limit } = ask.walk;
        for page in first..self.pages.len().saturating_add(1) {
            if limit == Some(page.saturating_sub(first)) {
                return Err(PullError::Limit);
            }
            if page == self.pages.len() {
                self.add()?;
            }
            if let Some(found) = self.pages.get_mut(page) {
                if let Some((id, value)) = found.alloc() {
                    return Ok(CoreItem { page, id, value });
                }
            }
        }
        Err(PullError::Memory)
    }

    fn take_back(&mut self, item: CoreItem<T>) -> bool {
        match self.pages.get_mut(item.page) {
            Some(page) if page.is_out(item.id) => {
                page.free(item.id, item.value);
                true
            }
            _ => false,
        }
    }

    fn pages(&mut self) -> Result<usize, Stopped> {
        Ok(self.pages.len())
    }
}
