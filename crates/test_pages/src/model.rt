//! The plain model of a chain of pages.
use rows::row::{Command, Player};
use rows::said::Said;
use std::alloc::{AllocError, Global};

/// An item that is held.
#[derive(Clone, Copy)]
struct Held {
    number: usize,
    is_owned: bool,
}

/// What a chain of pages is to answer.
#[derive(Drop)]
pub struct Model {
    /// The free items of each page, item 0 as the lowest bit.
    words: Vec<u32>,
    /// How many pages are known to the player.
    known: usize,
    values: Vec<usize>,
    held: Vec<Held>,
    calls: usize,
    drops: usize,
    /// The call that is refused.
    refused: usize,
}

impl Model {
    /// Creates the model of a chain of one page.
    pub fn new(alloc: Global) -> Result<Model, AllocError> {
        let mut model = Model {
            words: Vec::new(alloc),
            known: 1,
            values: Vec::new(alloc),
            held: Vec::new(alloc),
            calls: 0,
            drops: 0,
            refused: usize::MAX,
        };
        drop(model.grow());
        Ok(model)
    }

    /// How many items are held.
    pub fn held(&self) -> usize {
        self.held.len()
    }

    /// How many pages are known.
    pub fn known(&self) -> usize {
        self.known
    }

    /// Makes a page. If a call is refused, what was made is dropped.
    fn grow(&mut self) -> Result<(), Said> {
        let first = self.calls;
        let most = first.saturating_add(32);
        if first <= self.refused && self.refused < most {
            self.calls = self.refused.saturating_add(1);
            self.drops = self.drops.wrapping_add(self.refused.wrapping_sub(first));
            return Err(Said::of("refused init"));
        }
        self.calls = most;
        for call in first..most {
            self.values.push(call).map_err(|_| Said::of("no room"))?;
        }
        self.words.push(u32::MAX).map_err(|_| Said::of("no room"))
    }

    /// Takes the lowest free item of a page.
    fn take_of(&mut self, page: usize) -> Option<usize> {
        let word = self.words.get_mut(page)?;
        if *word == 0 {
            return None;
        }
        let id = word.trailing_zeros() as usize;
        *word &= word.wrapping_sub(1);
        Some(page.wrapping_mul(32).wrapping_add(id))
    }

    /// Takes an item of the first page that has one, of so many from this one on.
    fn walk(&mut self, first: usize, within: usize) -> Result<usize, Said> {
        let end = first.saturating_add(within);
        for page in first..self.words.len().min(end) {
            if let Some(number) = self.take_of(page) {
                return Ok(number);
            }
        }
        if self.words.len() >= end {
            return Err(Said::of("refused limit"));
        }
        self.grow()?;
        let last = self.words.len().wrapping_sub(1);
        self.take_of(last).ok_or(Said::of("full"))
    }

    fn free(&mut self, number: usize) {
        if let Some(word) = self.words.get_mut(number / 32) {
            *word |= 1u32.wrapping_shl((number % 32) as u32);
        }
    }

    /// Holds what was taken.
    fn hold(&mut self, taken: Result<usize, Said>, is_owned: bool) -> Said {
        let number = match taken {
            Ok(number) => number,
            Err(said) => return said,
        };
        let value = self.values.get(number).copied().unwrap_or(0);
        match self.held.push(Held { number, is_owned }) {
            Ok(()) => Said::of("pulled").and(number).and(value),
            Err(_) => Said::of("no room"),
        }
    }

    fn take(&mut self, page: usize) -> Said {
        let taken = self.take_of(page).ok_or(Said::of("full"));
        self.hold(taken, false)
    }

    /// Knows the page behind one, which is there.
    fn know(&mut self, page: usize) -> Said {
        let next = page.wrapping_add(1);
        self.known = self.known.max(next.wrapping_add(1));
        Said::of("at").and(next)
    }

    fn next(&mut self, page: usize, makes: bool) -> Said {
        if page.wrapping_add(1) < self.words.len() {
            return self.know(page);
        }
        if !makes {
            return Said::of("none");
        }
        match self.grow() {
            Ok(()) => self.know(page),
            Err(said) => said,
        }
    }

    /// Two items of a page, which come back.
    fn pair(&self, page: usize) -> Said {
        let word = self.words.get(page).copied().unwrap_or(0);
        let rest = word & word.wrapping_sub(1);
        if rest == 0 {
            return Said::of("full");
        }
        Said::of("two")
            .and(word.trailing_zeros() as usize)
            .and(rest.trailing_zeros() as usize)
    }

    fn use_page(&mut self, command: Command) -> Said {
        let [page, within, _] = command.numbers;
        if page >= self.known {
            return Said::of("no such page");
        }
        let is_owned = command.word == "owned" || command.word == "owned_within";
        match command.word {
            "take" | "try" => self.take(page),
            "walk" | "owned" => {
                let taken = self.walk(page, usize::MAX);
                self.hold(taken, is_owned)
            }
            "walk_within" | "owned_within" => {
                let taken = self.walk(page, within.max(1));
                self.hold(taken, is_owned)
            }
            "next" => self.next(page, false),
            "pair" => self.pair(page),
            "grow" => self.next(page, true),
            _ => {
                let word = self.words.get(page).copied().unwrap_or(0);
                Said::of("mask full")
                    .and(word as usize)
                    .and(usize::from(word == 0))
            }
        }
    }

    fn use_held(&mut self, command: Command) -> Said {
        let [index, value, _] = command.numbers;
        let Some(held) = self.held.get(index).copied() else {
            return Said::of("not held");
        };
        if command.word == "write" {
            if let Some(place) = self.values.get_mut(held.number) {
                *place = value;
            }
            return Said::of("written");
        }
        if held.is_owned {
            return Said::of("not borrowed");
        }
        self.take(held.number / 32)
    }

    fn leave(&mut self, command: Command) -> Said {
        let [index, _, _] = command.numbers;
        if self.held.len() <= index {
            return Said::of("not held");
        }
        let held = self.held.remove(index);
        match command.word {
            "free" => {
                self.free(held.number);
                Said::of("freed")
            }
            "again" if !held.is_owned => {
                self.free(held.number);
                self.take(held.number / 32)
            }
            _ => {
                self.drops = self.drops.wrapping_add(1);
                Said::of("dropped")
            }
        }
    }
}

impl Player for Model {
    fn play(&mut self, command: Command) -> Said {
        match command.word {
            "counts" => Said::of("calls drops").and(self.calls).and(self.drops),
            "refuse" => {
                self.refused = self.calls.wrapping_add(command.numbers[0]);
                Said::of("set")
            }
            "write" | "after" => self.use_held(command),
            "free" | "again" | "drop" => self.leave(command),
            _ => self.use_page(command),
        }
    }
}
