//! What one of the threads does: it pulls, writes, checks, drops and forgets items, and sends owned
//! ones to the others.
use crate::item::Item;
use crate::report::Report;
use crossbeam_channel::{Receiver, Sender};
use lockfree_object_pool::PullError;
use rand_core::Rng;
use rand_pcg::Pcg32;
use std::alloc::Global;
use std::ops::DerefMut;
use std::sync::Wait;
use std::{mem, thread};

/// An owned item, and the number that its holder wrote to it.
#[derive(Drop)]
pub struct Marked<A> {
    item: A,
    mark: u32,
}

/// How many owned items a thread holds at most.
const MOST_HELD: usize = 12;

/// How many items a thread forgets at most.
const MOST_FORGOTTEN: usize = 2;

/// What a worker does in a round.
#[derive(Clone, Copy)]
pub enum Turn {
    UseBorrowed,
    UseOwned,
    LetGo,
    Receive,
}

/// The channel of the threads, by both its ends.
#[derive(Drop)]
pub struct Post<A: Drop> {
    pub sender: Sender<Marked<A>>,
    pub receiver: Receiver<Marked<A>>,
}

/// A thread, with the owned items that it holds.
#[derive(Drop)]
pub struct Worker<A: Drop> {
    random: Pcg32,
    /// What it writes next. No other worker writes it.
    mark: u32,
    held: Vec<Marked<A>>,
    post: Post<A>,
    report: Report,
}

impl<A: Drop> Worker<A> {
    /// Creates a worker that holds nothing, of a number of its own from 1 on.
    pub fn new(alloc: Global, number: u32, post: Post<A>) -> Worker<A> {
        Worker {
            random: Pcg32::new(u64::from(number), 54),
            mark: number.wrapping_shl(24),
            held: Vec::new(alloc),
            post,
            report: Report::new(),
        }
    }
}

impl<T: Item, A: DerefMut<Target = T> + Drop> Worker<A> {
    /// Returns what it does next, with a number of its own that it writes.
    pub fn next_turn(&mut self) -> Turn {
        self.mark = self.mark.wrapping_add(1);
        match self.random.next_u32() % 4 {
            0 => Turn::UseBorrowed,
            1 => Turn::UseOwned,
            2 => Turn::LetGo,
            _ => Turn::Receive,
        }
    }

    /// Looks at what it holds, and drops it.
    pub fn end(mut self) -> Report {
        for _ in 0..MOST_HELD {
            if let Some(marked) = self.held.pop() {
                self.check(&marked);
            }
        }
        self.report
    }

    /// The item, where it wasn't refused by `init` or for the limit.
    pub fn pulled<B: Drop>(&mut self, pulled: Result<B, PullError>) -> Option<B> {
        match pulled {
            Ok(item) => return Some(item),
            Err(PullError::Memory) => self.report.count_without_memory(),
            Err(PullError::Init) => self.report.count_refused(),
            Err(PullError::Limit | PullError::Closed) => {}
        }
        None
    }

    /// Writes to an item that was pulled now, and lets other threads run before it looks again.
    pub fn mark(&mut self, item: &mut T) {
        if !item.is_clear() {
            self.report.count_unclear();
        }
        if !item.write(self.mark) {
            self.report.count_without_memory();
            return;
        }
        thread::yield_now();
        if !item.shows(self.mark) {
            self.report.count_shared();
        }
    }

    /// Looks at an item that was marked before, here or on another thread.
    fn check(&mut self, marked: &Marked<A>) {
        if !marked.item.shows(marked.mark) {
            self.report.count_shared();
        }
    }

    /// Uses a borrowed item, and drops or forgets it.
    pub fn use_borrowed<B: DerefMut<Target = T> + Drop>(&mut self, pulled: Result<B, PullError>) {
        let Some(mut item) = self.pulled(pulled) else {
            return;
        };
        self.mark(&mut *item);
        if self.report.forgotten < MOST_FORGOTTEN && self.random.next_u32() % 64 == 0 {
            self.report.forgotten = self.report.forgotten.saturating_add(1);
            mem::forget(item);
        }
    }

    /// Uses an item and drops it.
    pub fn use_once<B: DerefMut<Target = T> + Drop>(&mut self, pulled: Result<B, PullError>) {
        if let Some(mut item) = self.pulled(pulled) {
            self.mark(&mut *item);
        }
    }

    /// Uses an owned item, and holds it.
    pub fn use_owned(&mut self, pulled: Result<A, PullError>) {
        if let Some(mut item) = self.pulled(pulled) {
            self.mark(&mut *item);
            let mark = self.mark;
            self.hold(Marked { item, mark });
        }
    }

    /// Holds the item where it may hold one more, and drops it else.
    fn hold(&mut self, marked: Marked<A>) {
        if self.held.len() < MOST_HELD && self.held.push(marked).is_err() {
            self.report.count_without_memory();
        }
    }

    /// Drops one of the held items, or sends it to whichever thread receives it.
    pub fn let_go<W: Wait>(&mut self, rt: &W) {
        if self.held.is_empty() {
            return;
        }
        let index = self.random.next_u32() as usize % self.held.len();
        let marked = self.held.swap_remove(index);
        self.check(&marked);
        if self.random.next_u32() % 2 == 0 && self.post.sender.send(rt, marked).is_err() {
            self.report.count_without_memory();
        }
    }

    /// Receives an item, if one waits.
    pub fn receive<W: Wait>(&mut self, rt: &W) {
        if let Ok(marked) = self.post.receiver.try_recv(rt) {
            self.check(&marked);
            self.hold(marked);
        }
    }
}
