//! The items of a replay. They tell which call of `init` made them, and count what is done with
//! them.
use lockfree_object_pool::clean::AnyValue;
use lockfree_object_pool::closures::{Init, Reset};
use std::fmt;
use std::sync::Arc;
use test_values::tally::Tally;

/// The figures of a tally, as a line of the replay shows them.
#[derive(Clone, Copy)]
pub struct Totals<'t> {
    pub tally: &'t Tally,
}

impl fmt::Display for Totals<'_> {
    fn fmt<W: fmt::Write>(&self, f: &mut fmt::Formatter<W>) -> fmt::Result {
        let (made, reset) = (self.tally.made(), self.tally.resets());
        let dropped = self.tally.drops();
        write!(f, "{made} made, {reset} reset, {dropped} dropped")
    }
}

/// What is read of an item.
#[derive(Clone, Copy)]
pub struct Shown {
    pub number: u64,
    pub content: u64,
}

/// An item, which counts its drop.
pub struct Item {
    tally: Arc<Tally>,
    /// Which item it is; of those that `init` makes, its place in the order of making.
    pub number: u64,
    /// What was written to it.
    pub content: u64,
}

impl Item {
    /// Makes an item with this number.
    pub fn new(tally: &Arc<Tally>, number: u64) -> Option<Item> {
        let tally = Arc::try_clone(tally).ok()?;
        Some(Item {
            tally,
            number,
            content: 0,
        })
    }

    /// Returns what the item shows.
    pub fn shown(&self) -> Shown {
        Shown {
            number: self.number,
            content: self.content,
        }
    }
}

impl Drop for Item {
    fn drop(self) {
        let Item {
            tally,
            number: _,
            content: _,
        } = self;
        tally.count_drop();
    }
}

/// Makes items, and numbers them from 0.
#[derive(Drop)]
pub struct Numbered {
    pub tally: Arc<Tally>,
}

impl Init<Item, AnyValue> for Numbered {
    fn make(&self) -> Option<Item> {
        let number = self.tally.next_call();
        self.tally.count_made();
        Item::new(&self.tally, number as u64)
    }
}

/// Counts the resets, and clears what was written, or keeps it.
#[derive(Drop)]
pub struct Restore {
    pub tally: Arc<Tally>,
    pub clears: bool,
}

impl Reset<Item, AnyValue> for Restore {
    fn reset(&self, item: &mut Item) {
        self.tally.count_reset();
        if self.clears {
            item.content = 0;
        }
    }
}
