//! One who calls a chain of pages by commands: each public call of a page, of a page in a chain,
//! and of their slots.
//!
//! A command's first number is that of a page that it knows, or a held item's index (among those
//! that are held, oldest first). The answer to a pull is `pulled`, the item's number (32 times that
//! of its page, and that in the page) and its value.
ghost use Rattle.std.specs.Prelude.{◌≤◌};

use page_chain::linear_page::{Chain, LinearPage};
use pool_parts::PullError;
use pool_parts::clean::AnyValue;
use pool_parts::page::{Allocated, OwnedSlot, Page, PageSlot, PullPass};
use rows::row::{Command, Player};
use rows::said::Said;
use std::alloc::{AllocError, Global};
use std::mem;
use std::sync::Arc;
use std::sync::atomic::AtomicUsize;
use std::sync::atomic::Ordering::SeqCst;
use test_values::tallied::Tallied;
use test_values::tally::Tally;

/// What makes values, and counts them.
#[derive(Drop)]
pub struct Maker {
    pub tally: Arc<Tally>,
    /// The call that is refused, counted from 0.
    pub refused: AtomicUsize,
}

impl Maker {
    pub fn make(&self) -> Option<Tallied> {
        Tallied::new_but(&self.tally, self.refused.load(SeqCst))
    }
}

pub type Pages = Chain<Tallied, AnyValue>;

type LinkedPage<'c> = LinearPage<'c, Tallied, AnyValue>;

type Borrowed<'c> = PageSlot<'c, Tallied, AnyValue>;

pub type Owned = OwnedSlot<Tallied, AnyValue>;

/// An item's slot, however it was pulled.
#[derive(Drop)]
enum Slot<'c> {
    Borrowed(Borrowed<'c>),
    Owned(Owned),
}

/// An item that is held, and the number of its page.
#[derive(Drop)]
struct Held<'c> {
    page: usize,
    slot: Slot<'c>,
}

impl Held<'_> {
    fn number(&self) -> usize {
        let id = match &self.slot {
            Slot::Borrowed(slot) => slot.id(),
            Slot::Owned(slot) => slot.id(),
        };
        self.page.wrapping_mul(32).wrapping_add(id as usize)
    }

    fn value(&self) -> usize {
        match &self.slot {
            Slot::Borrowed(slot) => slot.number,
            Slot::Owned(slot) => slot.number,
        }
    }

    fn write(&mut self, value: usize) {
        match &mut self.slot {
            Slot::Borrowed(slot) => slot.number = value,
            Slot::Owned(slot) => slot.number = value,
        }
    }
}

/// What a pull answers: an item's slot, that the page is full, or a refusal.
type Pulled<'c> = Result<Option<Borrowed<'c>>, PullError>;

/// The answer of a page to a pull with evidence.
fn tried<'c>(page: &'c Page<Tallied, AnyValue>) -> Pulled<'c> {
    let pass = PullPass::new();
    match page.try_alloc(&pass)? {
        Allocated::Slot(slot) => Ok(Some(slot)),
        Allocated::Full(_) => Ok(None),
    }
}

/// Frees an item of a page, which is pulled again by the note of its return.
fn tried_again<'c>(slot: Borrowed<'c>) -> Pulled<'c> {
    let page = slot.page();
    let note = Page::free(slot);
    let pass = PullPass::new();
    match page.try_alloc_from(&pass, note)? {
        Allocated::Slot(slot) => Ok(Some(slot)),
        Allocated::Full(_) => Ok(None),
    }
}

/// A pull by a note that was told what the holder of an item knows.
fn tried_after<'c>(slot: &mut Borrowed<'c>) -> Pulled<'c> {
    let page = slot.page();
    let mut note = page.note();
    page.tell(&mut note, slot.witness());
    let pass = PullPass::new();
    match page.try_alloc_from(&pass, note)? {
        Allocated::Slot(slot) => Ok(Some(slot)),
        Allocated::Full(_) => Ok(None),
    }
}

/// Two items of a page that are told apart and come back in turn. Their numbers in the page.
fn pair(page: &Page<Tallied, AnyValue>) -> Option<(usize, usize)> {
    let mut one = page.alloc().ok()??;
    let Ok(Some(mut other)) = page.alloc() else {
        Page::free(one);
        return None;
    };
    one.differs_from(&mut other);
    let numbers = (one.id() as usize, other.id() as usize);
    Page::free(one);
    Page::free(other);
    Some(numbers)
}

/// The page behind one, which is full for the time: a call makes it if there is none.
fn grown<'c>(page: &LinkedPage<'c>, maker: &Maker) -> Result<LinkedPage<'c>, PullError> {
    let pass = PullPass::new();
    match page.page().try_alloc(&pass)? {
        Allocated::Full(seen) => {
            let (next, _) = page.get_or_create_next(seen, &|| maker.make())?;
            Ok(next)
        }
        Allocated::Slot(slot) => {
            Page::free(slot);
            Err(PullError::Limit)
        }
    }
}

fn borrowed<'c>(
    walked: Result<(Borrowed<'c>, usize), PullError>,
) -> Result<(Slot<'c>, usize), PullError> {
    let (slot, passed) = walked?;
    Ok((Slot::Borrowed(slot), passed))
}

fn owned<'c>(walked: Result<(Owned, usize), PullError>) -> Result<(Slot<'c>, usize), PullError> {
    let (slot, passed) = walked?;
    Ok((Slot::Owned(slot), passed))
}

/// Returns so many, or 1 in place of 0.
fn at_least_one(count: usize) -> usize
    ensures { 1 ≤ result }
{
    if count == 0 { 1 } else { count }
}

fn refused(cause: PullError) -> Said {
    match cause {
        PullError::Limit => Said::of("refused limit"),
        PullError::Init => Said::of("refused init"),
        PullError::Memory => Said::of("refused memory"),
        PullError::Closed => Said::of("closed"),
    }
}

/// A chain, the pages that are known of it, and what is held.
#[derive(Drop)]
pub struct PagePlayer<'c> {
    alloc: Global,
    maker: &'c Maker,
    pages: Vec<LinkedPage<'c>>,
    held: Vec<Held<'c>>,
}

impl<'c> PagePlayer<'c> {
    /// Creates one that knows a chain's first page.
    pub fn new(
        alloc: Global,
        chain: &'c Pages,
        maker: &'c Maker,
    ) -> Result<PagePlayer<'c>, AllocError> {
        let mut pages = Vec::new(alloc);
        pages.push(chain.first())?;
        Ok(PagePlayer {
            alloc,
            maker,
            pages,
            held: Vec::new(alloc),
        })
    }

    /// Holds a slot of a page.
    fn hold(&mut self, page: usize, slot: Slot<'c>) -> Said {
        let held = Held { page, slot };
        let said = Said::of("pulled").and(held.number()).and(held.value());
        match self.held.push(held) {
            Ok(()) => said,
            Err(_) => Said::of("no room"),
        }
    }

    /// Holds what a page gave.
    fn hold_of(&mut self, page: usize, pulled: Pulled<'c>) -> Said {
        match pulled {
            Ok(Some(slot)) => self.hold(page, Slot::Borrowed(slot)),
            Ok(None) => Said::of("full"),
            Err(cause) => refused(cause),
        }
    }

    /// Holds what a walk from a page came to.
    fn hold_walked(&mut self, page: usize, walked: Result<(Slot<'c>, usize), PullError>) -> Said {
        match walked {
            Ok((slot, passed)) => self.hold(page.wrapping_add(passed), slot),
            Err(cause) => refused(cause),
        }
    }

    /// Knows the page behind one.
    fn know(&mut self, next: LinkedPage<'c>) -> Said {
        let number = next.number();
        if number == self.pages.len() && self.pages.push(next).is_err() {
            return Said::of("no room");
        }
        Said::of("at").and(number)
    }

    /// Takes all free items of a page for the time, and makes the page behind it.
    fn grow(&mut self, page: LinkedPage<'c>) -> Said {
        let mut taken = Vec::new(self.alloc);
        for _ in 0..32 {
            if let Ok(Some(slot)) = page.page().alloc()
                && taken.push(slot).is_err()
            {
                return Said::of("no room");
            }
        }
        let said = match grown(&page, self.maker) {
            Ok(next) => self.know(next),
            Err(cause) => refused(cause),
        };
        for slot in taken {
            Page::free(slot);
        }
        said
    }

    /// Does a command with a page.
    fn use_page(&mut self, command: Command) -> Said {
        let [number, within, _] = command.numbers;
        let Some(page) = self.pages.get(number).copied() else {
            return Said::of("no such page");
        };
        let maker = self.maker;
        let make = || maker.make();
        match command.word {
            "take" => self.hold_of(number, page.page().alloc()),
            "try" => self.hold_of(number, tried(page.page())),
            "walk" => {
                let walked = borrowed(page.alloc(&make));
                self.hold_walked(number, walked)
            }
            "walk_within" => {
                let walked = borrowed(page.alloc_within(at_least_one(within), &make));
                self.hold_walked(number, walked)
            }
            "owned" => {
                let walked = owned(page.alloc_owned(&make));
                self.hold_walked(number, walked)
            }
            "owned_within" => {
                let walked = owned(page.alloc_owned_within(at_least_one(within), &make));
                self.hold_walked(number, walked)
            }
            "next" => match page.next() {
                Some((next, _)) => self.know(next),
                None => Said::of("none"),
            },
            "pair" => match pair(page.page()) {
                Some((one, other)) => Said::of("two").and(one).and(other),
                None => Said::of("full"),
            },
            "grow" => self.grow(page),
            _ => Said::of("mask full")
                .and(page.page().get_mask() as usize)
                .and(usize::from(page.page().is_full())),
        }
    }

    /// Does a command with a held item.
    fn use_held(&mut self, command: Command) -> Said {
        let [index, value, _] = command.numbers;
        let Some(held) = self.held.get_mut(index) else {
            return Said::of("not held");
        };
        if command.word == "write" {
            held.write(value);
            return Said::of("written");
        }
        let page = held.page;
        match &mut held.slot {
            Slot::Borrowed(slot) => {
                let pulled = tried_after(slot);
                self.hold_of(page, pulled)
            }
            Slot::Owned(_) => Said::of("not borrowed"),
        }
    }

    /// Does a command by which a held item leaves.
    fn leave(&mut self, command: Command) -> Said {
        let [index, _, _] = command.numbers;
        if self.held.len() <= index {
            return Said::of("not held");
        }
        let Held { page, slot } = self.held.remove(index);
        match (command.word, slot) {
            ("free", Slot::Borrowed(slot)) => {
                drop(Page::free(slot));
                Said::of("freed")
            }
            ("free", Slot::Owned(slot)) => {
                drop(slot.free());
                Said::of("freed")
            }
            ("again", Slot::Borrowed(slot)) => self.hold_of(page, tried_again(slot)),
            ("forget", slot) => {
                mem::forget(slot);
                Said::of("forgotten")
            }
            (_, slot) => {
                drop(slot);
                Said::of("dropped")
            }
        }
    }

    /// Sets the call that is refused.
    fn refuse(&self, calls: usize) -> Said {
        let call = self.maker.tally.calls().wrapping_add(calls);
        self.maker.refused.store(call, SeqCst);
        Said::of("set")
    }

    /// How many calls for a value there were, and how many values were dropped.
    fn counts(&self) -> Said {
        let (calls, drops) = self.maker.tally.now();
        Said::of("calls drops").and(calls).and(drops)
    }
}

impl<'c> Player for PagePlayer<'c> {
    fn play(&mut self, command: Command) -> Said {
        match command.word {
            "counts" => self.counts(),
            "refuse" => self.refuse(command.numbers[0]),
            "write" | "after" => self.use_held(command),
            "free" | "again" | "drop" | "forget" => self.leave(command),
            _ => self.use_page(command),
        }
    }
}

impl<'c> PagePlayer<'c> {
    /// The owned slots that are held. The borrowed ones are dropped with their values.
    pub fn into_owned(self, alloc: Global) -> Result<Vec<Owned>, AllocError> {
        let mut owned = Vec::with_capacity(alloc, self.held.len())?;
        for held in self.held {
            let Held { page: _, slot } = held;
            if let Slot::Owned(slot) = slot {
                owned.push(slot)?;
            }
        }
        Ok(owned)
    }
}
