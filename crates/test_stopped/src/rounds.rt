//! What each round begins with, and what it tells.
use crate::calls::{Call, Gives, Told, look};
use crate::pools::pulled;
use std::alloc::Global;
use std::ops::DerefMut;
use std::thread::Threads;
use std::{io, thread};

/// The state of a pool before the calls.
#[derive(Clone, Copy)]
pub struct State {
    /// How many items it has.
    pub items: usize,
    /// How many are free, but for those that a thread holds before its call.
    free: usize,
    /// The numbers of those that are free, as many as there have to be.
    numbers: [usize; 4],
}

impl State {
    pub fn new(items: usize, free: usize, numbers: [usize; 4]) -> State {
        State {
            items,
            free,
            numbers,
        }
    }

    /// The numbers that are free before the threads begin.
    pub fn free_before(&self, task: Task) -> &[usize] {
        let held = task.first.held().saturating_add(task.second.held());
        let free = self.free.saturating_add(held);
        self.numbers.get(..free).unwrap_or(&self.numbers)
    }
}

/// The calls of both threads, and how many rounds there are.
#[derive(Clone, Copy)]
pub struct Task {
    pub first: Call,
    pub second: Call,
    pub rounds: u32,
}

/// Prints what the threads tell, the one that was started for its call first, and then what the
/// items show that are free behind them.
pub fn tell_round<A: DerefMut<Target = u32> + Drop, P: Gives<A, R>, R: Print>(
    rt: &R,
    alloc: Global,
    pool: P,
    told: (Told, Told),
    free: usize,
) -> io::Result<()> {
    let (first, second) = told;
    print!(rt; "{first} {second} rest")?;
    for item in pulled::<A, P, R>(rt, alloc, pool, free)? {
        print!(rt; " {}", look::<A, P, R>(&item))?;
    }
    println!(rt; "")
}
