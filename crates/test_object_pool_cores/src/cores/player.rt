//! One who plays on a core by commands: by the core's own calls, or by a `Player`.
//!
//! A command's numbers are a holder and a value. Holders are counted from 0 in the order in which
//! their items came. The answer to a pull is `pulled`, the holder, the item's number if it has one,
//! and its value. By `gather` steps are only gathered from then on, until `run` does them in one run.
use super::opening::Opens;
use crate::values::{counts, number_or_none, numbered};
use object_pool_cores::sequential::{
    AttachError, Command as Step, Item, Player, Reply, RunError, SequentialPool,
};
use pool_parts::PullError;
use rows::row::{self, Command};
use rows::said::Said;
use std::alloc::Global;
use std::mem;
use std::sync::Arc;
use test_values::tallied::Tallied;
use test_values::tally::Tally;

/// A core with what is held of it.
pub trait Holds {
    /// Does a step.
    fn step(&mut self, step: Step<Tallied>) -> Result<Reply<Tallied>, RunError>;

    /// Does steps, and puts their replies behind the others.
    fn run(
        &mut self,
        steps: Vec<Step<Tallied>>,
        replies: &mut Vec<Reply<Tallied>>,
    ) -> Result<(), RunError> {
        for step in steps {
            replies.push(self.step(step)?)?;
        }
        Ok(())
    }

    /// Returns the value that a holder has.
    fn value(&self, holder: usize) -> Option<usize>;

    /// Says what the core tells of itself, or of a holder's item.
    fn tell(&self, _command: Command) -> Said {
        Said::of("no such command")
    }
}

impl<P: SequentialPool<Tallied>> Holds for Player<Tallied, P> {
    fn step(&mut self, step: Step<Tallied>) -> Result<Reply<Tallied>, RunError> {
        self.play(step)
    }

    fn run(
        &mut self,
        steps: Vec<Step<Tallied>>,
        replies: &mut Vec<Reply<Tallied>>,
    ) -> Result<(), RunError> {
        Player::run(self, steps, replies)
    }

    fn value(&self, holder: usize) -> Option<usize> {
        Some(self.held(holder)?.number)
    }
}

/// A core, and its items by their holders.
#[derive(Drop)]
pub struct Held<P> {
    core: P,
    items: Vec<Option<Item<Tallied>>>,
}

impl<P: SequentialPool<Tallied>> Held<P> {
    /// Creates one of a core of which nothing is held.
    pub fn new(alloc: Global, core: P) -> Held<P> {
        let items = Vec::new(alloc);
        Held { core, items }
    }

    /// Holds an item. The reply names its number.
    fn hold(&mut self, item: Item<Tallied>) -> Result<Reply<Tallied>, RunError> {
        let reply = Reply::Pulled(self.items.len(), item.number());
        self.items.push(Some(item))?;
        Ok(reply)
    }

    /// Lets an item go: back to the core where it is the core's own, or not.
    fn let_go(&mut self, holder: usize, comes_back: bool) -> Reply<Tallied> {
        let Some(item) = self.items.get_mut(holder).and_then(|item| item.take()) else {
            return Reply::NoSuchHolder;
        };
        if !comes_back || !self.core.is_mine(&item) {
            return Reply::Forgotten;
        }
        self.core.give(item);
        Reply::Returned
    }
}

impl<P: SequentialPool<Tallied> + Opens> Holds for Held<P> {
    fn step(&mut self, step: Step<Tallied>) -> Result<Reply<Tallied>, RunError> {
        Ok(match step {
            Step::Pull => match self.core.pull() {
                Ok(item) => return self.hold(item),
                Err(cause) => Reply::Refused(cause),
            },
            Step::Attach(value) => match self.core.attach(value) {
                Ok(item) => return self.hold(item),
                Err(error) => Reply::AttachRefused(error),
            },
            Step::Write(holder, value) => match self.items.get_mut(holder) {
                Some(Some(item)) => {
                    **item = value;
                    Reply::Written
                }
                _ => Reply::NoSuchHolder,
            },
            Step::Return(holder) => self.let_go(holder, true),
            Step::Forget(holder) => self.let_go(holder, false),
        })
    }

    fn value(&self, holder: usize) -> Option<usize> {
        match self.items.get(holder) {
            Some(Some(item)) => Some(item.number),
            _ => None,
        }
    }

    fn tell(&self, command: Command) -> Said {
        let [holder, ..] = command.numbers;
        match (command.word, self.items.get(holder)) {
            ("mine", Some(Some(item))) if self.core.is_mine(item) => Said::of("mine"),
            ("mine", _) => Said::of("not mine"),
            _ => self.core.tell(command.word),
        }
    }
}

/// Returns the step that a command asks for. Values are made by one more call of the tally.
fn step_of(tally: &Arc<Tally>, command: Command) -> Option<Step<Tallied>> {
    let [first, second, _] = command.numbers;
    Some(match command.word {
        "pull" => Step::Pull,
        "attach" => Step::Attach(numbered(tally, first)?),
        "write" => Step::Write(first, numbered(tally, second)?),
        "return" => Step::Return(first),
        "forget" => Step::Forget(first),
        _ => return None,
    })
}

/// Says what the reply to a step is.
fn said_of(reply: &Reply<Tallied>) -> Said {
    match reply {
        Reply::Pulled(holder, Some(number)) => {
            let number = usize::try_from(*number).unwrap_or(usize::MAX);
            Said::of("pulled").and(*holder).and(number)
        }
        Reply::Pulled(holder, None) | Reply::Attached(holder) => Said::of("pulled").and(*holder),
        Reply::Refused(PullError::Init) => Said::of("refused init"),
        Reply::Refused(PullError::Limit) => Said::of("refused limit"),
        Reply::AttachRefused(AttachError::NotOffered(value)) => {
            Said::of("not offered").and(value.number)
        }
        Reply::Refused(_) | Reply::AttachRefused(_) => Said::of("refused memory"),
        Reply::Written => Said::of("written"),
        Reply::Returned => Said::of("returned"),
        Reply::Forgotten => Said::of("forgotten"),
        Reply::NoSuchHolder => Said::of("no such holder"),
    }
}

/// One who plays on a core, the steps that wait for a run, and the replies of all runs.
#[derive(Drop)]
pub struct CorePlayer<H> {
    alloc: Global,
    pub pool: H,
    pub tally: Arc<Tally>,
    gathers: bool,
    steps: Vec<Step<Tallied>>,
    replies: Vec<Reply<Tallied>>,
}

impl<H: Holds> CorePlayer<H> {
    /// Creates one who does each step at once.
    pub fn new(alloc: Global, tally: Arc<Tally>, pool: H) -> CorePlayer<H> {
        CorePlayer {
            alloc,
            pool,
            tally,
            gathers: false,
            steps: Vec::new(alloc),
            replies: Vec::new(alloc),
        }
    }

    /// Does a step, and says the value of an item that came. Or gathers it.
    fn step(&mut self, command: Command) -> Result<Said, RunError> {
        let Some(step) = step_of(&self.tally, command) else {
            return Ok(self.pool.tell(command));
        };
        if self.gathers {
            self.steps.push(step)?;
            return Ok(Said::of("gathered"));
        }
        let reply = self.pool.step(step)?;
        let said = said_of(&reply);
        let (Reply::Pulled(holder, _) | Reply::Attached(holder)) = reply else {
            return Ok(said);
        };
        Ok(
            self.pool
                .value(holder)
                .map_or(said, |value| said.and(value)),
        )
    }

    /// Gathers so many returns by one who holds nothing.
    fn gather_idle(&mut self, times: usize) -> Result<Said, RunError> {
        for _ in 0..times {
            self.steps.push(Step::Return(usize::MAX))?;
        }
        Ok(Said::of("gathered"))
    }

    /// Does what was gathered, and says how many replies there are.
    fn run(&mut self) -> Result<Said, RunError> {
        let steps = mem::replace(&mut self.steps, Vec::new(self.alloc));
        self.pool.run(steps, &mut self.replies)?;
        Ok(Said::of("replies").and(self.replies.len()))
    }
}

impl<H: Holds> row::Player for CorePlayer<H> {
    fn play(&mut self, command: Command) -> Said {
        let [first, ..] = command.numbers;
        let said = match command.word {
            "gather" => {
                self.gathers = true;
                Ok(Said::of("gathers"))
            }
            "idle" => self.gather_idle(first),
            "run" => self.run(),
            "reply" => Ok(self.replies.get(first).map_or(Said::of("none"), said_of)),
            "held" => Ok(number_or_none("has", self.pool.value(first))),
            "counts" => Ok(counts(&self.tally)),
            _ => self.step(command),
        };
        said.unwrap_or(Said::of("out of memory"))
    }
}
