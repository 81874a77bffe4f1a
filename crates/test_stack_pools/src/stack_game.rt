//! Random commands to the mutex pool and the spin lock pool, beside their model.
use crate::stack_player::{Kind, Opened, StackPlayer, UnderMutex, UnderSpinLock};
use crate::values::{Book, Part, Value};
use pool_parts::PullError;
use pool_parts::closures::{Init, Reset};
use rows::dice::Dice;
use rows::game::{Trial, shrunk};
use rows::refusals::Refusals;
use rows::row::Command;
use rows::said::Said;
use std::alloc::{AllocError, Global};
use std::marker::PhantomData;
use std::process::Abort;
use std::sync::{Arc, Wait};

/// What a pool is to be: the values that it keeps, the last one last, and those that left it. They
/// have a book of their own.
#[derive(Drop)]
struct Model {
    kept: Vec<Value>,
    /// Each with whether its item owns the pool.
    held: Vec<Option<(Value, bool)>>,
    book: Arc<Book>,
    owners: usize,
    part: Part,
}

impl Model {
    /// Creates the model of a new pool.
    fn new(alloc: Global) -> Result<Model, PullError> {
        let book = Arc::new(alloc, Book::new(None))?;
        Ok(Model {
            kept: Vec::new(alloc),
            held: Vec::new(alloc),
            owners: 1,
            part: Part {
                book: Arc::try_clone(&book)?,
            },
            book,
        })
    }

    fn take(&mut self) -> Option<Value> {
        match self.kept.pop() {
            Some(value) => Some(value),
            None => self.part.make(),
        }
    }

    /// A value comes back.
    fn give(&mut self, value: Value) -> Result<Said, AllocError> {
        if let Some(value) = self.part.try_reset(value) {
            self.kept.push(value)?;
        }
        Ok(Said::of("done"))
    }

    fn hold(
        &mut self,
        words: &'static str,
        value: Option<Value>,
        is_owned: bool,
    ) -> Result<Said, AllocError> {
        let Some(value) = value else {
            return Ok(Said::of("refused init"));
        };
        let said = value.says(words);
        self.owners = self.owners.saturating_add(usize::from(is_owned));
        self.held.push(Some((value, is_owned)))?;
        Ok(said)
    }

    /// A pull, its return, and a pull.
    fn renew(&mut self) -> Result<Said, AllocError> {
        if let Some(value) = self.take() {
            self.give(value)?;
            let value = self.take();
            return self.hold("pulled", value, false);
        }
        Ok(Said::of("refused init"))
    }

    /// An item is used, or let go.
    fn use_held(&mut self, command: Command) -> Result<Said, AllocError> {
        let Command {
            word,
            numbers: [index, number, _],
        } = command;
        let Some(place) = self.held.get_mut(index) else {
            return Ok(Said::of("no such item"));
        };
        let Some((mut value, is_owned)) = place.take() else {
            return Ok(Said::of("no such item"));
        };
        if word == "write" {
            value.written = number;
        }
        if word == "write" || word == "read" {
            let said = value.says("reads");
            *place = Some((value, is_owned));
            return Ok(said);
        }
        self.owners = self.owners.saturating_sub(usize::from(is_owned));
        if word == "detach" {
            return Ok(value.says("detached"));
        }
        self.give(value)
    }

    fn fill(&mut self, count: usize) -> Result<Said, AllocError> {
        for _ in 0..count {
            let Some(value) = self.part.make() else {
                return Ok(Said::of("refused init"));
            };
            self.kept.push(value)?;
        }
        Ok(Said::of("done"))
    }

    /// Returns what is to be said to a command.
    fn answer(&mut self, command: Command) -> Result<Said, AllocError> {
        let Command {
            word,
            numbers: [number, _, _],
        } = command;
        match word {
            "pull" | "pull_after" | "pull_owned" => {
                let value = self.take();
                self.hold("pulled", value, word == "pull_owned")
            }
            "renew" => self.renew(),
            "attach" | "attach_owned" => {
                let value = Value::new(&self.book, number);
                self.hold("attached", value, word == "attach_owned")
            }
            "read" | "write" | "return" | "give_back" | "detach" => self.use_held(command),
            "fill" => self.fill(number),
            "clear" => {
                self.kept.clear();
                Ok(Said::of("done"))
            }
            _ => Ok(self.book.play(word, number)),
        }
    }

    /// All is let go, and the pool ends. Returns what is told of it.
    fn end(mut self) -> Result<Arc<Book>, AllocError> {
        for _ in 0..self.held.len() {
            if let Some(Some((value, _))) = self.held.pop() {
                self.give(value)?;
            }
        }
        let Model { book, .. } = self;
        Ok(book)
    }
}

/// A pool's player and its model.
#[derive(Drop)]
struct StackGame<'p, F: Kind<Value, Part, Part>, W: Wait + Copy> {
    player: StackPlayer<'p, F, W>,
    model: Model,
    /// The most values that are made by one command.
    size: usize,
}

fn command(word: &'static str, first: usize, second: usize) -> Command {
    Command {
        word,
        numbers: [first, second, 0],
    }
}

impl<F: Kind<Value, Part, Part>, W: Wait + Copy> StackGame<'_, F, W> {
    /// Draws an item that is held, among the last ones.
    fn drawn_item(&self, dice: &mut Dice) -> usize {
        let held = self.model.held.len();
        for _ in 0..8 {
            let index = held.saturating_sub(dice.below(held.min(self.size.saturating_add(8))));
            if let Some(Some(_)) = self.model.held.get(index) {
                return index;
            }
        }
        held.saturating_sub(1)
    }

    /// Draws what is done with an item.
    fn drawn_use(&self, dice: &mut Dice) -> Command {
        let word = match dice.below(32) {
            0..=3 => "write",
            4 => "read",
            5..=8 => "give_back",
            9 | 10 => "detach",
            _ => "return",
        };
        command(word, self.drawn_item(dice), dice.below(100))
    }

    fn draw(&self, dice: &mut Dice) -> Command {
        let switch = usize::from(dice.one_in(3));
        let calls = self.model.book.tally.calls();
        match dice.below(64) {
            0 => command("fill", dice.below(self.size.saturating_add(1)), 0),
            1 if dice.one_in(4) => command("clear", 0, 0),
            2..=5 => command("refuse", calls.saturating_add(dice.below(3)), 0),
            6..=8 => command("reject", switch, 0),
            9..=11 => command("zero", switch, 0),
            12 | 13 => command("attach", dice.below(100), 0),
            14 | 15 => command("attach_owned", dice.below(100), 0),
            16..=18 => command("renew", 0, 0),
            19..=23 => command("pull_after", 0, 0),
            24..=29 => command("pull_owned", 0, 0),
            30..=37 => command("pull", 0, 0),
            _ => self.drawn_use(dice),
        }
    }

    /// Plays a command. What was said to it if the model says another, or if what can be counted
    /// isn't as the model's.
    fn unfair(&mut self, command: Command) -> Option<Said> {
        let said = self.player.play(command);
        let Opened { pool, book } = self.player.opened;
        let is_fair = self.model.answer(command).ok() == Some(said)
            && book.counts() == self.model.book.counts()
            && pool.kept(&self.player.rt) == self.model.kept.len()
            && Arc::strong_count(pool) == self.model.owners;
        (!is_fair).then_some(said)
    }
}

/// Begins a game on a pool.
fn begun<'p, F: Kind<Value, Part, Part>, W: Wait + Copy>(
    rt: W,
    alloc: Global,
    (opened, refusals): (&'p Opened<F>, &'p Refusals),
    size: usize,
) -> Result<StackGame<'p, F, W>, PullError> {
    Ok(StackGame {
        player: StackPlayer::new(rt, alloc, opened, refusals, false),
        model: Model::new(alloc)?,
        size,
    })
}

/// Plays lists on new pools of a kind.
struct StackTrial<F, W> {
    rt: W,
    alloc: Global,
    list: PhantomData<F>,
}

impl<F: Kind<Value, Part, Part>, W: Wait + Copy> StackTrial<F, W> {
    /// Whether a list has an answer that isn't the model's.
    fn is_unfair(&self, list: &[Command]) -> Result<bool, PullError> {
        let (opened, refusals) = (Opened::<F>::new(self.alloc, None)?, Refusals::new());
        let mut game = begun(self.rt, self.alloc, (&opened, &refusals), 0)?;
        Ok(list.iter().any(|command| game.unfair(*command).is_some()))
    }
}

impl<F: Kind<Value, Part, Part>, W: Wait + Copy> Trial for StackTrial<F, W> {
    fn fails(&self, list: &[Command]) -> bool {
        matches!(self.is_unfair(list), Ok(true))
    }
}

/// Plays a game on a pool, and lets all items go. Returns the book of the model, which then ends,
/// or the list that failed.
fn played_on<F: Kind<Value, Part, Part>, W: Abort + Wait + Copy>(
    rt: W,
    alloc: Global,
    opened: &Opened<F>,
    (seed, size): (u64, usize),
) -> Result<Arc<Book>, Vec<Command>> {
    let refusals = Refusals::new();
    let mut game = begun(rt, alloc, (opened, &refusals), size).expect(&rt, "memory is left");
    let mut dice = Dice::new(seed);
    let mut list = Vec::new(alloc);
    for _ in 0..size.saturating_mul(2).saturating_add(300) {
        let command = game.draw(&mut dice);
        list.push(command).expect(&rt, "memory is left");
        if game.unfair(command).is_some() {
            return Err(list);
        }
    }
    let StackGame { model, .. } = game;
    Ok(model.end().expect(&rt, "memory is left"))
}

/// Plays a game on a new pool, which then ends: what is left is dropped.
fn plays<F: Kind<Value, Part, Part>, W: Abort + AllocGlobal + Wait + Copy>(
    rt: W,
    seed: u64,
    size: usize,
) {
    let alloc = rt.alloc();
    let opened = Opened::<F>::new(alloc, None).expect(&rt, "memory is left");
    let model = match played_on(rt, alloc, &opened, (seed, size)) {
        Ok(model) => model,
        Err(list) => {
            let trial = StackTrial::<F, W> {
                rt,
                alloc,
                list: PhantomData,
            };
            let list = shrunk(alloc, list, &trial).expect(&rt, "memory is left");
            panic!(rt; "size {size}, seed {seed}: {list:?}");
        }
    };
    let Opened { pool, book } = opened;
    drop(pool);
    assert_eq!(rt;
        (book.counts(), Arc::strong_count(&book)),
        (model.counts(), 1)
    );
}

/// Sizes round the ends of words, of a byte and of a page's worth.
const SIZES: [usize; 14] = [
    1, 2, 31, 32, 33, 63, 64, 65, 127, 128, 129, 1_023, 1_025, 2_049,
];

#[test]
fn a_mutex_pool_is_as_its_model(rt: HostRuntime) {
    for size in SIZES {
        plays::<UnderMutex, _>(rt, 3, size);
    }
}

#[test]
fn a_spin_lock_pool_is_as_its_model(rt: HostRuntime) {
    for size in SIZES {
        plays::<UnderSpinLock, _>(rt, 4, size);
    }
}
