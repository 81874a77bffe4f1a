//! The plain model of a linear pool: the items of each page, and what is held.
use rows::dice::Dice;
use rows::game::PlainModel;
use rows::row::{Command, Player};
use rows::said::Said;
use std::alloc::{AllocError, Global};

/// An item that is held.
#[derive(Clone, Copy)]
struct Held {
    number: usize,
    is_owned: bool,
}

/// What a linear pool is to answer.
#[derive(Drop)]
pub struct LinearModel {
    /// The free items of each page, item 0 as the lowest bit.
    words: Vec<u32>,
    /// How many pages there may be, 0 without a limit.
    limit: usize,
    values: Vec<usize>,
    held: Vec<Held>,
    calls: usize,
    resets: usize,
    drops: usize,
    /// The call that `init` refuses.
    refused: usize,
    zeroes: bool,
    /// How many items are held at most.
    most: usize,
    /// Whether more items are pulled than come back.
    is_rising: bool,
}

/// What a pull takes, or why it takes nothing.
type Taken = Result<usize, Said>;

impl LinearModel {
    /// Creates the model of a new pool that may have so many pages, and of which so many items are
    /// held at most.
    pub fn new(alloc: Global, limit: usize, most: usize) -> Result<LinearModel, AllocError> {
        let mut model = LinearModel {
            words: Vec::new(alloc),
            limit,
            values: Vec::new(alloc),
            held: Vec::new(alloc),
            calls: 0,
            resets: 0,
            drops: 0,
            refused: usize::MAX,
            zeroes: false,
            most,
            is_rising: true,
        };
        drop(model.grow());
        Ok(model)
    }

    /// Makes a page. If `init` refuses, what was made is dropped.
    fn grow(&mut self) -> Result<(), Said> {
        let first = self.calls;
        let most = first.saturating_add(32);
        if first <= self.refused && self.refused < most {
            self.calls = self.refused.saturating_add(1);
            self.drops = self.drops.wrapping_add(self.refused.wrapping_sub(first));
            return Err(Said::of("refused init"));
        }
        self.calls = most;
        for call in first..most {
            self.values.push(call).map_err(|_| Said::of("no room"))?;
        }
        self.words.push(u32::MAX).map_err(|_| Said::of("no room"))
    }

    fn value(&self, number: usize) -> usize {
        self.values.get(number).copied().unwrap_or(0)
    }

    fn set_value(&mut self, number: usize, value: usize) {
        if let Some(place) = self.values.get_mut(number) {
            *place = value;
        }
    }

    /// Takes the lowest free item of the first page that has one. If none has, it makes a page.
    ///
    /// A pull asks a hinted page before others. By one thread that is the first that has an item:
    /// but for the last page, each that has one was full when its first item came back, so a hint
    /// names it.
    fn take(&mut self) -> Taken {
        let page = match self.words.iter().position(|word| *word != 0) {
            Some(page) => page,
            None if self.words.len() == self.limit => return Err(Said::of("refused limit")),
            None => {
                self.grow()?;
                self.words.len().wrapping_sub(1)
            }
        };
        let Some(word) = self.words.get_mut(page) else {
            return Err(Said::of("no page"));
        };
        let id = word.trailing_zeros() as usize;
        *word &= word.wrapping_sub(1);
        Ok(page.wrapping_mul(32).wrapping_add(id))
    }

    /// Frees an item that is reset.
    fn give(&mut self, number: usize) {
        self.resets = self.resets.wrapping_add(1);
        if self.zeroes {
            self.set_value(number, 0);
        }
        if let Some(word) = self.words.get_mut(number / 32) {
            *word |= 1u32.wrapping_shl((number % 32) as u32);
        }
    }

    /// Holds what was taken.
    fn hold(&mut self, taken: Taken, is_owned: bool) -> Said {
        let number = match taken {
            Ok(number) => number,
            Err(refusal) => return refusal,
        };
        match self.held.push(Held { number, is_owned }) {
            Ok(()) => Said::of("pulled").and(number).and(self.value(number)),
            Err(_) => Said::of("no room"),
        }
    }

    fn pull(&mut self, is_owned: bool) -> Said {
        let taken = self.take();
        self.hold(taken, is_owned)
    }

    /// An item of the first page comes back, and is pulled again.
    fn again(&mut self) -> Said {
        let taken = self.take();
        let Ok(number) = taken else {
            return self.hold(taken, false);
        };
        if number < 32 {
            self.give(number);
            return self.pull(false);
        }
        self.hold(taken, false)
    }

    /// An item that is pulled, written, reset and returned.
    fn reset_first(&mut self, value: usize) -> Said {
        let number = match self.take() {
            Ok(number) => number,
            Err(refusal) => return refusal,
        };
        let said = Said::of("reset").and(number).and(self.value(number));
        self.set_value(number, value);
        self.give(number);
        said
    }

    /// Two items that are pulled, and come back in turn.
    fn pair(&mut self) -> Said {
        let one = match self.take() {
            Ok(number) => number,
            Err(refusal) => return refusal,
        };
        let other = self.take();
        self.give(one);
        match other {
            Ok(other) => {
                self.give(other);
                Said::of("two").and(one).and(other)
            }
            Err(refusal) => refusal,
        }
    }

    fn use_held(&mut self, command: Command) -> Said {
        let [index, value, _] = command.numbers;
        let Some(held) = self.held.get(index).copied() else {
            return Said::of("not held");
        };
        match command.word {
            "look" => Said::of("lies")
                .and(held.number)
                .and(self.value(held.number)),
            "write" => {
                self.set_value(held.number, value);
                Said::of("written")
            }
            _ => Said::of("told"),
        }
    }

    fn leave(&mut self, command: Command) -> Said {
        let [index, _, _] = command.numbers;
        if self.held.len() <= index {
            return Said::of("not held");
        }
        let held = self.held.remove(index);
        if command.word == "forget" && !held.is_owned {
            return Said::of("forgotten");
        }
        self.give(held.number);
        Said::of("returned")
    }

    fn set(&mut self, command: Command) -> Said {
        if command.word == "refuse" {
            self.refused = self.calls.wrapping_add(command.numbers[0]);
        } else {
            self.zeroes = true;
        }
        Said::of("set")
    }

    /// How many own the pool, and how many own the tally.
    fn owners(&self) -> Said {
        let owned = self.held.iter().filter(|held| held.is_owned).count();
        Said::of("owners")
            .and(owned.wrapping_add(1))
            .and(self.values.len().wrapping_add(1))
    }

    fn limit(&self) -> Said {
        match self.limit {
            0 => Said::of("no limit"),
            pages => Said::of("limit").and(pages),
        }
    }
}

impl Player for LinearModel {
    fn play(&mut self, command: Command) -> Said {
        match command.word {
            "pull" | "try" => self.pull(false),
            "again" => self.again(),
            "owned" => self.pull(true),
            "reset_first" => self.reset_first(command.numbers[0]),
            "pair" => self.pair(),
            "limit" => self.limit(),
            "counts" => Said::of("calls resets drops")
                .and(self.calls)
                .and(self.resets)
                .and(self.drops),
            "owners" => self.owners(),
            "look" | "write" | "tell" => self.use_held(command),
            "return" | "give" | "forget" => self.leave(command),
            "refuse" | "zero" => self.set(command),
            _ => Said::of("no such command"),
        }
    }
}

/// Pulls of one item that is held then.
const PULLS: [&str; 5] = ["pull", "pull", "try", "again", "owned"];

/// Calls after which as many items are held as before.
const CALLS: [&str; 8] = [
    "reset_first",
    "pair",
    "reset_first",
    "pair",
    "limit",
    "look",
    "write",
    "tell",
];

/// Calls by which a held item comes back.
const RETURNS: [&str; 3] = ["return", "return", "give"];

impl LinearModel {
    /// Draws a command's word, and its first number.
    fn draw_word(&mut self, dice: &mut Dice) -> (&'static str, usize) {
        let held = dice.below(self.held.len());
        if dice.one_in(200) {
            return ("zero", 0);
        }
        if dice.one_in(40) {
            return ("refuse", dice.below(70));
        }
        if dice.one_in(8) {
            return (dice.word_of(&CALLS), held);
        }
        if dice.one_in(8) != self.is_rising {
            return (dice.word_of(&PULLS), 0);
        }
        if dice.one_in(200) {
            return ("forget", held);
        }
        (dice.word_of(&RETURNS), held)
    }
}

impl PlainModel for LinearModel {
    fn draw(&mut self, dice: &mut Dice) -> Command {
        if self.held.is_empty() {
            self.is_rising = true;
        } else if self.held.len() >= self.most && dice.one_in(16) {
            self.is_rising = false;
        }
        let (word, first) = self.draw_word(dice);
        Command {
            word,
            numbers: [first, dice.below(1_000_000), 0],
        }
    }
}
