//! The kinds of item: of no bytes, of 8 bytes and of 4 KiB, with a drop that is counted and
//! without.
use crate::tally::SideTally;
use std::sync::Arc;

/// An item that shows what was written to it last.
pub trait Value: Drop {
    /// A new item, whose content is the number of the call that makes it.
    fn new(tally: &Arc<SideTally>, number: u64) -> Option<Self>;

    fn content(&self) -> u64;

    fn write(&mut self, content: u64);
}

/// An item of no bytes.
#[derive(Drop)]
pub struct Nothing;

impl Value for Nothing {
    fn new(_tally: &Arc<SideTally>, _number: u64) -> Option<Nothing> {
        Some(Nothing)
    }

    fn content(&self) -> u64 {
        0
    }

    fn write(&mut self, _content: u64) {}
}

/// An item of 8 bytes.
#[derive(Drop)]
pub struct Number {
    number: u64,
}

impl Value for Number {
    fn new(_tally: &Arc<SideTally>, number: u64) -> Option<Number> {
        Some(Number { number })
    }

    fn content(&self) -> u64 {
        self.number
    }

    fn write(&mut self, content: u64) {
        self.number = content;
    }
}

/// How many words an item of 4 KiB has.
const BLOCK_WORDS: usize = 512;

/// An item of 4 KiB.
#[derive(Drop)]
pub struct Block {
    words: [u64; BLOCK_WORDS],
}

impl Value for Block {
    fn new(_tally: &Arc<SideTally>, number: u64) -> Option<Block> {
        Some(Block {
            words: [number; BLOCK_WORDS],
        })
    }

    /// What each of its words is. Where they differ, it is no number that is ever written.
    fn content(&self) -> u64 {
        let first = self.words[0];
        for &word in self.words.iter() {
            if word != first {
                return u64::MAX;
            }
        }
        first
    }

    fn write(&mut self, content: u64) {
        self.words = [content; BLOCK_WORDS];
    }
}

/// Any item, which counts its drop.
pub struct Counted<V> {
    tally: Arc<SideTally>,
    value: V,
}

impl<V: Drop> Drop for Counted<V> {
    fn drop(self) {
        let Counted { tally, value: _ } = self;
        tally.count_drop();
    }
}

impl<V: Value> Value for Counted<V> {
    fn new(tally: &Arc<SideTally>, number: u64) -> Option<Counted<V>> {
        Some(Counted {
            tally: Arc::try_clone(tally).ok()?,
            value: V::new(tally, number)?,
        })
    }

    fn content(&self) -> u64 {
        self.value.content()
    }

    fn write(&mut self, content: u64) {
        self.value.write(content);
    }
}
