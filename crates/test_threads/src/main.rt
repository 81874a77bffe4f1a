//! Hostile use of the pools: eight threads pull, write, check, drop and forget items and send owned
//! ones to each other, on pools whose `init` refuses now and then and, where there is a limit, of
//! fewer items than are asked for.
//!
//! On lazy pools of 1 item and of 3 the threads wait for an item, in a tenth of the rounds. A wait
//! that doesn't end is ended after half a minute, and told.
//!
//! The argument is how many rounds each thread has. A line for each pool and kind of item tells
//! what was seen that may not be, which is the same in each schedule: nothing. Else the status is
//! 1.
//!
//! Where each of as many threads as a fixed pool has items has one at a time, no pull may be
//! refused: a line tells. Another one tells how often the closure of a pull was called though a
//! value was kept: never. The last one tells whether a thread that waits for the only item of a
//! lazy pool has it once it is returned, also where nothing is returned later.
//!
//! Behind the threads each pool is asked for all its items: those that were not forgotten come, and
//! of a pool that has a limit no more.
#![tactic(auto)]

mod handed;
mod item;
mod lazy;
mod made_once;
mod one_each;
mod pools;
mod report;
mod stacks;
mod tally;
mod worker;

use item::{Item, Number, Numbers, Tallied};
use lockfree_object_pool::PullError;
use report::Report;
use std::process::ExitCode;
use std::rt::Env;
use std::sync::Wait;
use std::thread::Threads;
use std::time::Clock;
use std::{env, io};

fn main(rt: HostRuntime) -> io::Result<ExitCode> {
    match rounds(&rt) {
        Some(rounds) => use_all(&rt, rounds),
        None => {
            eprintln!(rt; "usage: test_threads ROUNDS")?;
            Ok(ExitCode::from(2))
        }
    }
}

/// The argument.
fn rounds<R: Env + AllocGlobal>(rt: &R) -> Option<u32> {
    let mut arguments = env::args(rt).ok()?;
    let _name = arguments.next();
    arguments.next()?.parse().ok()
}

/// How many rounds there are for one in which a thread waits.
const WAITS: u32 = 10;

/// The pools that are used with each kind of item.
#[derive(Clone, Copy)]
enum Kind {
    Linear,
    Fixed,
    SpinLock,
}

/// Each pool with each kind of item.
fn use_all<R: Print + AllocGlobal + Threads + Wait + Clock + Copy + Send + Sync + 'static>(
    rt: &R,
    rounds: u32,
) -> io::Result<ExitCode> {
    let mut is_good = true;
    for kind in [Kind::Linear, Kind::Fixed, Kind::SpinLock] {
        is_good &= use_kind::<Number, R>(rt, kind, rounds)?;
        is_good &= use_kind::<Numbers, R>(rt, kind, rounds)?;
        is_good &= use_kind::<Tallied, R>(rt, kind, rounds)?;
    }
    is_good &= use_lazy(rt, rounds)?;
    let refused = one_each::refused(rt, rt.alloc(), rounds);
    is_good &= tell_count(
        rt,
        "fixed, an item for each thread",
        "pulls refused",
        &refused,
    )?;
    let again = made_once::made_again(rt, rt.alloc(), rounds);
    is_good &= tell_count(
        rt,
        "lazy, made by the closure of a pull",
        "made again",
        &again,
    )?;
    let lost = handed::lost(rt, rt.alloc(), rounds / WAITS);
    is_good &= tell_count(
        rt,
        "lazy of 1 item, returned once to one that waits",
        "lost",
        &lost,
    )?;
    Ok(if is_good {
        ExitCode::SUCCESS
    } else {
        ExitCode::from(1)
    })
}

/// Uses a pool with one kind of item. Whether nothing was seen that may not be.
fn use_kind<
    T: Item + Send + 'static,
    R: Print + AllocGlobal + Threads + Wait + Copy + Send + 'static,
>(rt: &R, kind: Kind, rounds: u32) -> io::Result<bool> {
    let alloc = rt.alloc();
    let (name, report) = match kind {
        Kind::Linear => ("linear", pools::linear::<T, R>(rt, alloc, rounds)),
        Kind::Fixed => ("fixed", pools::fixed::<T, R>(rt, alloc, rounds)),
        Kind::SpinLock => ("spin lock", stacks::spin_lock::<T, R>(rt, alloc, rounds)),
    };
    tell(rt, name, T::NAME, &report)
}

/// Uses lazy pools. Whether nothing was seen that may not be.
fn use_lazy<R: Print + AllocGlobal + Threads + Wait + Clock + Copy + Send + 'static>(
    rt: &R,
    rounds: u32,
) -> io::Result<bool> {
    let (alloc, waits) = (rt.alloc(), rounds / WAITS);
    let mut is_good = tell(rt, "lazy", "counted", &lazy::lazy(rt, alloc, rounds))?;
    let report = lazy::waited_for(rt, alloc, 1, waits);
    is_good &= tell(rt, "lazy of 1 item", "which is waited for", &report)?;
    let report = lazy::waited_for(rt, alloc, 3, waits);
    is_good &= tell(rt, "lazy of 3 items", "which are waited for", &report)?;
    Ok(is_good)
}

/// Prints how often something was seen that may not be. Whether it wasn't.
fn tell_count<R: Print>(
    rt: &R,
    pool: &str,
    what: &str,
    count: &Result<usize, PullError>,
) -> io::Result<bool> {
    match count {
        Ok(count) => {
            println!(rt; "{pool}: {count} {what}")?;
            Ok(*count == 0)
        }
        Err(refusal) => {
            println!(rt; "{pool}: {refusal}")?;
            Ok(false)
        }
    }
}

/// Prints what was seen on a pool with some items. Whether it was nothing that may not be.
fn tell<R: Print>(
    rt: &R,
    pool: &str,
    items: &str,
    report: &Result<Report, PullError>,
) -> io::Result<bool> {
    match report {
        Ok(report) => {
            println!(rt; "{pool}, {items}: {report}")?;
            Ok(report.is_good())
        }
        Err(refusal) => {
            println!(rt; "{pool}, {items}: {refusal}")?;
            Ok(false)
        }
    }
}
