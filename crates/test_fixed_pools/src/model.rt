//! The plain model of a fixed pool: words of free items, values, and what is held.
use rows::dice::Dice;
use rows::game::PlainModel;
use rows::row::{Command, Player};
use rows::said::Said;
use std::alloc::{AllocError, Global};

/// An item that is held.
#[derive(Clone, Copy)]
struct Held {
    number: usize,
    is_owned: bool,
}

/// What a fixed pool is to answer.
#[derive(Drop)]
pub struct FixedModel {
    /// The free items of each page, item 0 as the lowest bit.
    words: Vec<u32>,
    values: Vec<usize>,
    /// The page at which the next pull begins.
    hint: usize,
    /// The page of the place, and how many places there were.
    near: usize,
    places: usize,
    held: Vec<Held>,
    resets: usize,
    /// Whether more items are pulled than come back.
    is_rising: bool,
}

/// How a pull goes on past its first page.
#[derive(Clone, Copy)]
enum Order {
    Round,
    Hinted,
}

impl FixedModel {
    /// Creates the model of a new pool of so many items.
    pub fn new(alloc: Global, items: usize) -> Result<FixedModel, AllocError> {
        let pages = items.div_ceil(32);
        let mut words = Vec::with_capacity(alloc, pages)?;
        let mut values = Vec::with_capacity(alloc, items)?;
        for page in 0..pages {
            let count = items.saturating_sub(page.saturating_mul(32)).min(32) as u32;
            words.push(u32::MAX >> 32u32.saturating_sub(count))?;
        }
        for number in 0..items {
            values.push(number)?;
        }
        Ok(FixedModel {
            words,
            values,
            hint: 0,
            near: 0,
            places: 1,
            held: Vec::new(alloc),
            resets: 0,
            is_rising: true,
        })
    }
}

impl FixedModel {
    /// The page of this number, counted round and round.
    fn page_round(&self, page: usize) -> usize {
        page.checked_rem(self.words.len()).unwrap_or(0)
    }

    fn word(&self, page: usize) -> u32 {
        self.words.get(page).copied().unwrap_or(0)
    }

    fn value(&self, number: usize) -> usize {
        self.values.get(number).copied().unwrap_or(0)
    }

    fn set_value(&mut self, number: usize, value: usize) {
        if let Some(place) = self.values.get_mut(number) {
            *place = value;
        }
    }

    /// Takes the lowest free item of a page.
    fn take_of(&mut self, page: usize) -> Option<usize> {
        let word = self.words.get_mut(page)?;
        if *word == 0 {
            return None;
        }
        let number = page
            .wrapping_mul(32)
            .wrapping_add(word.trailing_zeros() as usize);
        *word &= word.wrapping_sub(1);
        Some(number)
    }

    /// Takes the item that a pull finds which begins at this page. Past it the pull sets the hint.
    fn take(&mut self, page: usize, order: Order) -> Option<usize> {
        let start = self.page_round(page);
        if let Some(number) = self.take_of(start) {
            return Some(number);
        }
        let next = match order {
            Order::Round => start.wrapping_add(1),
            Order::Hinted => self.hint,
        };
        for page in (next..self.words.len()).chain(0..next) {
            if let Some(number) = self.take_of(page) {
                self.hint = page;
                return Some(number);
            }
        }
        None
    }

    /// Frees an item. If its page had no other free item, the next pull begins there.
    fn bring(&mut self, number: usize) {
        let page = number / 32;
        if self.word(page) == 0 {
            self.hint = page;
        }
        if let Some(word) = self.words.get_mut(page) {
            *word |= 1u32.wrapping_shl((number % 32) as u32);
        }
    }

    /// Frees an item that is reset.
    fn give(&mut self, number: usize) {
        self.resets = self.resets.wrapping_add(1);
        self.bring(number);
    }

    fn pull(&mut self, page: usize, order: Order, is_owned: bool) -> Said {
        let taken = self.take(page, order);
        self.hold(taken, is_owned)
    }

    /// A pull at the place. If its page was full, the next one begins a page further.
    fn pull_here(&mut self) -> Said {
        let begun = self.near;
        let taken = self.take(begun, Order::Hinted);
        if taken.is_some_and(|number| number / 32 != begun) {
            self.near = self.page_round(begun.wrapping_add(1));
        }
        self.hold(taken, false)
    }

    /// Holds what was taken.
    fn hold(&mut self, taken: Option<usize>, is_owned: bool) -> Said {
        let Some(number) = taken else {
            return Said::of("refused limit");
        };
        let held = Held { number, is_owned };
        match self.held.push(held) {
            Ok(()) => Said::of("pulled").and(number).and(self.value(number)),
            Err(_) => Said::of("no room"),
        }
    }

    /// An item that is pulled, written and returned.
    fn apart(&mut self, page: usize, value: usize) -> Said {
        let Some(number) = self.take(page, Order::Hinted) else {
            return Said::of("refused limit");
        };
        let said = Said::of("apart").and(number).and(self.value(number));
        self.set_value(number, value);
        self.give(number);
        said
    }

    /// Two items that are pulled, and come back in turn.
    fn two(&mut self, page: usize, order: Order) -> Said {
        let Some(one) = self.take(page, order) else {
            return Said::of("refused limit");
        };
        let page = match order {
            Order::Round => self.hint,
            Order::Hinted => page,
        };
        let other = self.take(page, order);
        self.give(one);
        let Some(other) = other else {
            return Said::of("refused limit");
        };
        self.give(other);
        Said::of("two").and(one).and(other)
    }

    /// The page of a new place: each is eight pages further, and once round one page further.
    fn place(&mut self) -> Said {
        let lines = self.words.len().div_ceil(8);
        let line = self.places.checked_rem(lines).unwrap_or(0);
        let round = self.places.checked_div(lines).unwrap_or(0);
        self.places = self.places.wrapping_add(1);
        self.near = self.page_round(line.wrapping_mul(8).wrapping_add(round % 8));
        Said::of("at page").and(self.near)
    }

    fn use_held(&mut self, command: Command) -> Said {
        let [index, value, _] = command.numbers;
        let Some(held) = self.held.get(index).copied() else {
            return Said::of("not held");
        };
        let number = held.number;
        match command.word {
            "look" => Said::of("lies")
                .and(number / 32)
                .and(number % 32)
                .and(self.value(number)),
            "write" => {
                self.set_value(number, value);
                Said::of("written")
            }
            _ if held.is_owned => Said::of("not borrowed"),
            _ => self.pull(self.hint, Order::Round, false),
        }
    }

    fn leave(&mut self, command: Command) -> Said {
        let [index, page, _] = command.numbers;
        if self.held.len() <= index {
            return Said::of("not held");
        }
        let held = self.held.remove(index);
        if command.word == "forget" && !held.is_owned {
            return Said::of("forgotten");
        }
        if command.word == "owner_after" {
            let taken = self.take(page, Order::Hinted);
            self.give(held.number);
            let taken = taken.or_else(|| self.take(page, Order::Hinted));
            return self.hold(taken, true);
        }
        self.give(held.number);
        match (command.word, held.is_owned) {
            ("again", true) => self.pull(page, Order::Hinted, true),
            ("again", false) => self.pull(self.hint, Order::Round, false),
            _ => Said::of("returned"),
        }
    }

    /// How many own the pool, and how many own the tally of its values.
    fn owners(&self) -> Said {
        let owned = self.held.iter().filter(|held| held.is_owned).count();
        Said::of("owners")
            .and(owned.wrapping_add(1))
            .and(self.values.len().wrapping_add(1))
    }
}

impl Player for FixedModel {
    fn play(&mut self, command: Command) -> Said {
        let [first, second, _] = command.numbers;
        match command.word {
            "pull" | "try" => self.pull(self.hint, Order::Round, false),
            "owned" => self.pull(self.hint, Order::Round, true),
            "near" => self.pull(first, Order::Hinted, false),
            "here" => self.pull_here(),
            "owner" => self.pull(first, Order::Hinted, true),
            "place" => self.place(),
            "apart" | "reset_first" => self.apart(first, second),
            "two_near" => self.two(first, Order::Hinted),
            "pair" => self.two(self.hint, Order::Round),
            "items" => Said::of("items").and(self.values.len()),
            "counts" => Said::of("calls resets drops")
                .and(self.values.len())
                .and(self.resets)
                .and(0),
            "owners" => self.owners(),
            "look" | "write" | "after" => self.use_held(command),
            "return" | "give" | "again" | "owner_after" | "forget" => self.leave(command),
            _ => Said::of("no such command"),
        }
    }
}

/// Pulls of one item that is held then.
const PULLS: [&str; 6] = ["pull", "near", "here", "try", "owned", "owner"];

/// Calls after which as many items are held as before.
const CALLS: [&str; 8] = [
    "place",
    "apart",
    "reset_first",
    "two_near",
    "pair",
    "items",
    "look",
    "write",
];

/// Calls with an item that is held, which mostly leaves.
const LEAVES: [&str; 9] = [
    "return",
    "return",
    "return",
    "give",
    "give",
    "again",
    "after",
    "owner_after",
    "return",
];

impl FixedModel {
    /// Draws a page: one of the pool, or seldom one far past it.
    fn draw_page(&self, dice: &mut Dice) -> usize {
        let page = dice.below(self.words.len().wrapping_add(2));
        if dice.one_in(8) {
            usize::MAX.wrapping_sub(page)
        } else {
            page
        }
    }

    /// Draws a command's word, and its first two numbers: a page, or an item that is held, and a
    /// value or a page.
    fn draw_word(&self, dice: &mut Dice) -> (&'static str, usize, usize) {
        let (page, held) = (self.draw_page(dice), dice.below(self.held.len()));
        if dice.one_in(8) {
            let word = dice.word_of(&CALLS);
            let is_of_held = word == "look" || word == "write";
            let first = if is_of_held { held } else { page };
            return (word, first, dice.below(1_000_000));
        }
        if dice.one_in(8) != self.is_rising {
            return (dice.word_of(&PULLS), page, 0);
        }
        if dice.one_in(100) {
            return ("forget", held, 0);
        }
        (dice.word_of(&LEAVES), held, page)
    }
}

impl PlainModel for FixedModel {
    fn draw(&mut self, dice: &mut Dice) -> Command {
        if self.held.is_empty() {
            self.is_rising = true;
        } else if self.words.iter().all(|word| *word == 0) && dice.one_in(16) {
            self.is_rising = false;
        }
        let (word, first, second) = self.draw_word(dice);
        Command {
            word,
            numbers: [first, second, 0],
        }
    }
}
