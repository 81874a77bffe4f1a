//! Random calls of one thread, each done on a running pool and on the proved core of its kind,
//! whose answers are compared. Then random schedules on the world of agents, compared and judged.
//!
//! The arguments are a seed and how many calls are done at least, and then a seed and how many
//! schedules are played, all below 2^64. It prints a line of figures of the calls and one of the
//! schedules. Where an answer differs it prints the seed, the session or the schedule, the call or
//! the step and both answers, and ends with status 1.
#![tactic(auto)]

mod answer;
mod asked;
mod comparison;
mod dice;
mod draws;
mod figures;
mod fresh;
mod maker;
mod pages;
mod pools;
mod recycled;
mod schedules;
mod session;
mod side;
mod tallies;
mod tally;
mod value;

use answer::Stopped;
use asked::{Asked, arguments};
use figures::Figures;
use fresh::compare_fresh;
use pages::compare_pages;
use pools::{compare_fixed, compare_linear, compare_mutex, compare_spin_lock};
use recycled::{compare_buffers, compare_recycled};
use schedules::play_all;
use session::{Element, Kind, Session, drawn, many_held, many_pages};
use std::alloc::Global;
use std::io;
use std::process::ExitCode;
use std::sync::Wait;
use value::{Block, Counted, Nothing, Number, Value};

fn main(rt: HostRuntime) -> io::Result<ExitCode> {
    let Some((calls, schedules)) = arguments(&rt) else {
        eprintln!(rt; "usage: test_cores SEED CALLS SEED SCHEDULES")?;
        return Ok(ExitCode::from(2));
    };
    if compare_all(&rt, rt.alloc(), calls)? && play_all(&rt, rt.alloc(), schedules)? {
        Ok(ExitCode::SUCCESS)
    } else {
        Ok(ExitCode::from(1))
    }
}

/// Does the sessions, until as many calls are done as are asked for, and prints their figures.
/// Whether each answer was the same on both sides.
fn compare_all<R: Print + Eprint + Wait + Copy>(
    rt: &R,
    alloc: Global,
    asked: Asked,
) -> io::Result<bool> {
    let Asked { seed, count: calls } = asked;
    let mut figures = Figures::default();
    for number in 0..u64::MAX {
        if figures.calls >= calls && number > 2 {
            break;
        }
        let session = match number {
            0 => many_held(seed, number, calls),
            1 => many_pages(seed, number, calls),
            _ => drawn(seed, number),
        };
        match compare_items(rt, alloc, session) {
            Ok(seen) => figures.add_session(seen),
            Err(stopped) => {
                eprintln!(rt; "session {number} of seed {seed}, {session:?}: {stopped}")?;
                return Ok(false);
            }
        }
    }
    println!(rt; "{figures}")?;
    Ok(true)
}

/// A session with its items.
fn compare_items<W: Wait + Copy>(
    rt: &W,
    alloc: Global,
    session: Session,
) -> Result<Figures, Stopped> {
    match session.element {
        Element::Nothing => compare_pools::<Nothing, W>(rt, alloc, session),
        Element::Number => compare_pools::<Number, W>(rt, alloc, session),
        Element::Block => compare_pools::<Block, W>(rt, alloc, session),
        Element::CountedNumber => compare_pools::<Counted<Number>, W>(rt, alloc, session),
        Element::CountedBlock => compare_pools::<Counted<Block>, W>(rt, alloc, session),
    }
}

/// A session on its pool.
fn compare_pools<T: Value, W: Wait + Copy>(
    rt: &W,
    alloc: Global,
    session: Session,
) -> Result<Figures, Stopped> {
    match session.kind {
        Kind::Linear => compare_linear::<T>(alloc, session),
        Kind::Mutex => compare_mutex::<T, W>(rt, alloc, session),
        Kind::SpinLock => compare_spin_lock::<T, W>(rt, alloc, session),
        Kind::None => compare_fresh::<T>(alloc, session),
        Kind::Recycling => compare_recycled(alloc, session),
        Kind::Buffers => compare_buffers(alloc, session),
        Kind::Pages => compare_pages::<T>(alloc, session),
        Kind::Fixed => compare_fixed::<T>(alloc, session),
    }
}
