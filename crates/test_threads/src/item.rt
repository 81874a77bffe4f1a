//! The kinds of item: a number, a list of numbers, and a number that counts its drop.
use crate::tally::Tally;
use lockfree_object_pool::clean::AnyValue;
use lockfree_object_pool::closures::{Init, Reset};
use std::alloc::Global;
use std::sync::Arc;

/// An item that shows the number that was written to it last.
pub trait Item: Drop {
    /// What a report calls such items.
    const NAME: &'static str;

    /// Whether the tally has its makings and drops.
    const COUNTS_DROPS: bool;

    fn new(maker: &Maker) -> Option<Self>;

    /// Whether there was memory for it.
    fn write(&mut self, number: u32) -> bool;

    fn shows(&self, number: u32) -> bool;

    fn clear(&mut self);

    /// Whether it is as `clear` leaves it.
    fn is_clear(&self) -> bool;
}

/// A number alone.
#[derive(Drop)]
pub struct Number {
    number: u32,
}

impl Item for Number {
    const NAME: &'static str = "numbers";

    const COUNTS_DROPS: bool = false;

    fn new(_maker: &Maker) -> Option<Number> {
        Some(Number { number: 0 })
    }

    fn write(&mut self, number: u32) -> bool {
        self.number = number;
        true
    }

    fn shows(&self, number: u32) -> bool {
        self.number == number
    }

    fn clear(&mut self) {
        self.number = 0;
    }

    fn is_clear(&self) -> bool {
        self.number == 0
    }
}

/// A list that has its number twice, and takes memory when it is written first.
#[derive(Drop)]
pub struct Numbers {
    list: Vec<u32>,
}

impl Item for Numbers {
    const NAME: &'static str = "lists";

    const COUNTS_DROPS: bool = false;

    fn new(maker: &Maker) -> Option<Numbers> {
        let list = Vec::new(maker.alloc);
        Some(Numbers { list })
    }

    fn write(&mut self, number: u32) -> bool {
        self.list.clear();
        self.list.push(number).is_ok() && self.list.push(number).is_ok()
    }

    fn shows(&self, number: u32) -> bool {
        self.list.as_slice() == [number, number].as_slice()
    }

    fn clear(&mut self) {
        self.list.clear();
    }

    fn is_clear(&self) -> bool {
        self.list.is_empty()
    }
}

/// A number that counts its drop.
pub struct Tallied {
    tally: Arc<Tally>,
    number: u32,
}

impl Drop for Tallied {
    fn drop(self) {
        let Tallied { tally, number: _ } = self;
        tally.count_dropped();
    }
}

impl Item for Tallied {
    const NAME: &'static str = "counted";

    const COUNTS_DROPS: bool = true;

    fn new(maker: &Maker) -> Option<Tallied> {
        let tally = Arc::try_clone(&maker.tally).ok()?;
        tally.count_made();
        Some(Tallied { tally, number: 0 })
    }

    fn write(&mut self, number: u32) -> bool {
        self.number = number;
        true
    }

    fn shows(&self, number: u32) -> bool {
        self.number == number
    }

    fn clear(&mut self) {
        self.number = 0;
    }

    fn is_clear(&self) -> bool {
        self.number == 0
    }
}

/// How many calls there are to each that is refused. The first page of a pool is made by fewer, and
/// so is a fixed pool.
const CALLS_TO_A_REFUSAL: usize = 50;

/// Makes items, and refuses now and then.
#[derive(Drop)]
pub struct Maker {
    pub alloc: Global,
    pub tally: Arc<Tally>,
}

impl<T: Item> Init<T, AnyValue> for Maker {
    fn make(&self) -> Option<T> {
        if self.tally.call() % CALLS_TO_A_REFUSAL == CALLS_TO_A_REFUSAL - 1 {
            self.tally.count_refused();
            return None;
        }
        T::new(self)
    }
}

/// Clears an item.
#[derive(Clone, Copy, Drop)]
pub struct Clears;

impl<T: Item> Reset<T, AnyValue> for Clears {
    fn reset(&self, value: &mut T) {
        value.clear();
    }
}
