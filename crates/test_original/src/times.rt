//! Pools at work: a little of each work on each pool, and what it gave; or one task alone, and how
//! long it took too.

mod measure;
mod pulls;
pub mod task;
mod turns;
mod workers;

use anyhow::{Context, Result};
use measure::measure;
use std::alloc::Global;
use std::rt::{Clock, Files};
use std::sync::Wait;
use std::thread::Threads;
use task::{Kind, Task, Work, task_of};
use test_values::peak_memory::peak_kilobytes;

/// How often each work is done where no task is asked for.
const FEW_TURNS: u64 = 100;

const KINDS: [Kind; 7] = [
    Kind::Linear,
    Kind::SpinLock,
    Kind::Mutex,
    Kind::Fixed,
    Kind::FixedNear,
    Kind::Lazy,
    Kind::LazyWait,
];

/// A little of each work. 70 items held fill two pages of a linear pool and a part of a third.
const WORKS: [Work; 7] = [
    Work::Pull { held: 0 },
    Work::Pull { held: 70 },
    Work::PullOwned { held: 0 },
    Work::PullOwned { held: 70 },
    Work::Share {
        threads: 2,
        held: 0,
    },
    Work::Share {
        threads: 4,
        held: 70,
    },
    Work::Hold,
];

/// What is asked of one kind of pool alone.
const OF_ONE_KIND: [(Kind, Work); 5] = [
    (Kind::Linear, Work::Worker { threads: 1 }),
    (Kind::Fixed, Work::Worker { threads: 2 }),
    (Kind::Lazy, Work::Worker { threads: 4 }),
    (Kind::Fixed, Work::Refuse),
    (
        Kind::LazyWait,
        Work::Wait {
            threads: 4,
            items: 1,
        },
    ),
];

/// Words that ask for no task.
const OTHER_WORDS: [&str; 9] = [
    "",
    "linear",
    "linear hold",
    "none hold 7",
    "linear drop 0 7",
    "mutex pull 7",
    "mutex pull 0 -1",
    "linear refuse 7",
    "lazy wait 4 1 7",
];

/// Does a little of each work on each pool, then of what is asked of one kind alone, and prints
/// what each gave. Then prints what other words ask for.
///
/// # Errors
///
/// If a work is refused what it needs, or a task's own words ask for none.
pub fn show_each<R: Clock + Threads + Wait + AllocGlobal + Print + Copy + Send + Sync>(
    rt: &R,
) -> Result<()> {
    for kind in KINDS {
        for work in WORKS {
            let task = Task {
                kind,
                work,
                turns: FEW_TURNS,
            };
            show_sum(rt, task)?;
        }
    }
    for (kind, work) in OF_ONE_KIND {
        let task = Task {
            kind,
            work,
            turns: FEW_TURNS,
        };
        show_sum(rt, task)?;
    }
    for line in OTHER_WORDS {
        let asked = asked_for(rt.alloc(), line)?;
        println!(rt; "{line:?}: {asked:?}")?;
    }
    Ok(())
}

/// The task that a line's words ask for.
fn asked_for(alloc: Global, line: &str) -> Result<Option<Task>> {
    let words: Vec<&str> = line.split_whitespace().collect(alloc)?;
    Ok(task_of(&words))
}

/// Does the task that a task's own words ask for, and prints what it gave.
fn show_sum<R: Clock + Threads + Wait + AllocGlobal + Print + Copy + Send + Sync>(
    rt: &R,
    task: Task,
) -> Result<()> {
    let line = format!(in rt.alloc(); "{task}")?;
    let asked = asked_for(rt.alloc(), line.as_str())?.context("its words ask for no task")?;
    let sum = measure(rt, asked)?.sum;
    println!(rt; "{asked}: {sum}")?;
    Ok(())
}

/// Does a task, and prints what it gave, how many nanoseconds its turns took, and how much memory
/// the process had at most.
///
/// # Errors
///
/// If the task is refused what it needs.
pub fn show_time<R: Clock + Files + Threads + Wait + AllocGlobal + Print + Copy + Send + Sync>(
    rt: &R,
    task: Task,
) -> Result<()> {
    let measured = measure(rt, task)?;
    let nanoseconds = measured.time.as_nanos();
    let kilobytes = peak_kilobytes(rt)?;
    println!(rt;
        "{task}: {} in {nanoseconds} ns, {kilobytes} kB",
        measured.sum
    )?;
    Ok(())
}
