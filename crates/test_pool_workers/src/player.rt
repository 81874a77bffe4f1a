//! One who does with workers of a pool what commands say.
//!
//! - `pull WORKER` says `pulled NUMBER SERIAL`: the item's number in the pool, and how many values
//!   were made before its value; or why it was refused. `return INDEX` is of what is held, the
//!   oldest first.
//! - `turn WORKER` pulls an item and drops it, and says how many resets there were then too.
//! - `visit` is a pull and return by another user of the pool.
//! - `counts` says how often `init` was called, and how many values were reset and dropped.
//!   `stands` says how many items there were at most and are in use, if the pool counts them.
//! - `close` closes the pool. `refuse`, `allow`, `reject` and `accept` say what closures do then.
use crate::plays::Hired;
use crate::pools::{Seen, Shared};
use pool_model::book::Book;
use pool_model::value::Value;
use pool_parts::PullError;
use pool_workers::{Worker, WorkerPlace, WorkerReusable};
use rows::row::{Command, Difference, Row};
use rows::said::Said;
use std::alloc::{AllocError, Global};
use std::sync::Arc;

/// Workers of a pool, and what is held of them.
#[derive(Drop)]
pub struct WorkerPlayer<'w, P: WorkerPlace<Value>, S> {
    pub pool: S,
    pub book: &'w Arc<Book>,
    workers: &'w [Hired<P>],
    held: Vec<WorkerReusable<'w, Value, P>>,
}

/// Says what was seen, or why nothing was.
fn said_of(words: &'static str, seen: Result<Seen, PullError>) -> Said {
    match seen {
        Ok((number, serial)) => Said::of(words).and(number).and(serial),
        Err(PullError::Memory) => Said::of("refused memory"),
        Err(PullError::Init) => Said::of("refused init"),
        Err(PullError::Limit) => Said::of("refused limit"),
        Err(PullError::Closed) => Said::of("refused closed"),
    }
}

impl<'w, P: WorkerPlace<Value>, S: Shared<P, P::Item>> WorkerPlayer<'w, P, S> {
    /// Creates one who holds nothing.
    ///
    /// # Errors
    ///
    /// If memory is refused.
    pub fn new(
        alloc: Global,
        pool: S,
        book: &'w Arc<Book>,
        workers: &'w [Hired<P>],
    ) -> Result<WorkerPlayer<'w, P, S>, AllocError> {
        Ok(WorkerPlayer {
            pool,
            book,
            workers,
            held: Vec::with_capacity(alloc, 64)?,
        })
    }

    /// Plays a row. Returns the first difference, or `None` if each answer is as the row says.
    pub fn first_difference(
        &mut self,
        commands: &'static str,
        answers: &'static str,
    ) -> Option<Difference> {
        let mut row = Row::new(commands, answers);
        for _ in 0..u64::MAX {
            let Some(command) = row.next_command() else {
                break;
            };
            let said = self.play(command);
            row.hear(said);
        }
        row.difference()
    }

    /// Does a command.
    pub fn play(&mut self, command: Command) -> Said {
        let [index, _, _] = command.numbers;
        match command.word {
            "pull" => self.pull(index),
            "return" => self.give(index),
            "turn" => self.turn(index),
            "visit" => said_of("visited", self.pool.visit()),
            "counts" | "stands" => self.asked(command.word),
            word => self.done(word),
        }
    }

    /// What is seen of an item.
    fn seen_of(item: &WorkerReusable<'w, Value, P>) -> Seen {
        (S::number_of(item.item()), item.serial)
    }

    /// Pulls an item and drops it.
    fn turned(worker: &'w Worker<Value, P>) -> Result<Seen, PullError> {
        let item = worker.pull()?;
        Ok(Self::seen_of(&item))
    }

    fn pull(&mut self, index: usize) -> Said {
        let workers: &'w [Hired<P>] = self.workers;
        let Some(hired) = workers.get(index) else {
            return Said::of("no such worker");
        };
        match hired.worker.pull() {
            Ok(item) => self.hold(item),
            Err(cause) => said_of("pulled", Err(cause)),
        }
    }

    fn hold(&mut self, item: WorkerReusable<'w, Value, P>) -> Said {
        let said = said_of("pulled", Ok(Self::seen_of(&item)));
        match self.held.push(item) {
            Ok(()) => said,
            Err(_) => Said::of("no room"),
        }
    }

    fn give(&mut self, index: usize) -> Said {
        if self.held.len() <= index {
            return Said::of("not held");
        }
        drop(self.held.remove(index));
        Said::of("returned")
    }

    fn turn(&self, index: usize) -> Said {
        let workers: &'w [Hired<P>] = self.workers;
        match workers.get(index) {
            Some(hired) => {
                let said = said_of("turned", Self::turned(&hired.worker));
                said.and(self.book.counts().resets)
            }
            None => Said::of("no such worker"),
        }
    }

    fn asked(&self, word: &'static str) -> Said {
        if word == "stands" {
            return match self.pool.counted() {
                Some((made, used)) => Said::of("made uses").and(made).and(used),
                None => Said::of("counts nothing"),
            };
        }
        let counts = self.book.counts();
        Said::of("calls resets drops")
            .and(counts.calls)
            .and(counts.resets)
            .and(counts.drops)
    }

    fn done(&self, word: &'static str) -> Said {
        match word {
            "close" => self.pool.close(),
            "refuse" => self.book.refuse(true),
            "allow" => self.book.refuse(false),
            "reject" => self.book.reject(true),
            "accept" => self.book.reject(false),
            _ => return Said::of("no such command"),
        }
        Said::of("done")
    }
}
