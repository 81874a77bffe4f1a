//! Pools at sizes for which a test has no time: each item is out at one moment, comes back, and is
//! pulled again.
//!
//! The argument is how many pages of 32 items a pool has, 65,535 at most; a fixed pool has four
//! times as many, a buffer pool a quarter. A line for each pool says that each item came back, or
//! what was seen that may not be; then the status is 1.
//!
//! `player` and a number of turns let one player pull and return so often. Its indexes are never
//! used again, so 2^32 turns and more show them past 32 bits: that takes minutes, and is run by
//! hand. `core` and a number let a linear core hand out so many numbers, each of which stays out.
//! It takes some 90 bytes for each 32 of them.
#![tactic(auto)]

ghost use Rattle.std.specs.Prelude.{◌≤◌};

mod buffers;
mod cores;
mod fixed_pool;
mod lazy;
mod linear_pool;
mod numbers;
mod players;
mod pools_behind_a_lock;
mod pulls;
mod rounds;
mod wrong;

use std::alloc::Global;
use std::process::ExitCode;
use std::rt::Env;
use std::sync::Wait;
use std::{env, io};
use wrong::Wrong;

fn main(rt: HostRuntime) -> io::Result<ExitCode> {
    match arguments(&rt) {
        Some(Task::Pages(pages)) if pages > 0 => show_pools(&rt, rt.alloc(), pages),
        Some(Task::Turns(turns)) => {
            let outcome = players::take_turns(rt.alloc(), turns);
            show(&rt, "player", CAME_BACK, &outcome)
        }
        Some(Task::Numbers(numbers)) => {
            let outcome = cores::hand_out(rt.alloc(), numbers);
            show(&rt, "linear core", "each number came at its turn", &outcome)
        }
        _ => {
            eprintln!(rt; "usage: test_sizes PAGES | player TURNS | core NUMBERS")?;
            Ok(ExitCode::from(2))
        }
    }
}

/// What is said of a pool that shows its items.
const CAME_BACK: &str = "each item came back";

/// What is asked for.
#[derive(Clone, Copy)]
enum Task {
    /// Each pool, of so many pages.
    Pages(u16),
    /// One player, for so many turns.
    Turns(u64),
    /// One linear core, for so many numbers.
    Numbers(u64),
}

/// The arguments.
fn arguments<R: Env + AllocGlobal>(rt: &R) -> Option<Task> {
    let mut arguments = env::args(rt).ok()?;
    let _name = arguments.next();
    let first = arguments.next()?;
    match first.as_str() {
        "player" => Some(Task::Turns(arguments.next()?.parse().ok()?)),
        "core" => Some(Task::Numbers(arguments.next()?.parse().ok()?)),
        pages => Some(Task::Pages(pages.parse().ok()?)),
    }
}

/// A pool that shows its items.
#[derive(Clone, Copy)]
enum Kind {
    BoundedLinear,
    BoundedLinearOwned,
    Linear,
    Buffers,
    Fixed,
    FixedOwned,
    Lazy,
    Mutex,
    SpinLock,
    BoundedLinearCore,
    LinearCore,
    StackCore,
    Player,
}

/// Each kind of pool, with its name.
const KINDS: [(&str, Kind); 13] = [
    ("linear pool with a limit", Kind::BoundedLinear),
    (
        "linear pool with a limit, owned items",
        Kind::BoundedLinearOwned,
    ),
    ("linear pool", Kind::Linear),
    ("buffer pool", Kind::Buffers),
    ("fixed pool", Kind::Fixed),
    ("fixed pool, owned items", Kind::FixedOwned),
    ("lazy pool", Kind::Lazy),
    ("mutex pool", Kind::Mutex),
    ("spin lock pool, owned items", Kind::SpinLock),
    ("linear core with a limit", Kind::BoundedLinearCore),
    ("linear core", Kind::LinearCore),
    ("stack core", Kind::StackCore),
    ("player", Kind::Player),
];

/// Each pool, and what was seen.
fn show_pools<R: Print + Wait + Copy>(rt: &R, alloc: Global, pages: u16) -> io::Result<ExitCode>
    requires { 1 ≤ pages }
{
    let mut status = ExitCode::SUCCESS;
    for (name, kind) in KINDS {
        let outcome = outcome_of(rt, alloc, kind, pages);
        if !tell(rt, name, CAME_BACK, &outcome)? {
            status = ExitCode::from(1);
        }
    }
    Ok(status)
}

/// What was seen of a pool.
fn outcome_of<W: Wait + Copy>(rt: &W, alloc: Global, kind: Kind, pages: u16) -> Result<(), Wrong>
    requires { 1 ≤ pages }
{
    match kind {
        Kind::BoundedLinear => linear_pool::bounded(rt, alloc, pages),
        Kind::BoundedLinearOwned => linear_pool::bounded_owned(rt, alloc, pages),
        Kind::Linear => linear_pool::unbounded(rt, alloc, pages),
        Kind::Buffers => buffers::bounded(alloc, pages),
        Kind::Fixed => fixed_pool::borrowed(rt, alloc, pages),
        Kind::FixedOwned => fixed_pool::owned(rt, alloc, pages),
        Kind::Lazy => lazy::borrowed(rt, alloc, pages),
        Kind::Mutex => pools_behind_a_lock::mutex(rt, alloc, pages),
        Kind::SpinLock => pools_behind_a_lock::spin_lock(rt, alloc, pages),
        Kind::BoundedLinearCore => cores::bounded_linear(alloc, pages),
        Kind::LinearCore => cores::linear(alloc, pages),
        Kind::StackCore => cores::stack(alloc, pages),
        Kind::Player => players::hold(alloc, pages),
    }
}

/// What was seen of one pool.
fn show<R: Print>(
    rt: &R,
    name: &str,
    well: &str,
    outcome: &Result<(), Wrong>,
) -> io::Result<ExitCode> {
    if tell(rt, name, well, outcome)? {
        Ok(ExitCode::SUCCESS)
    } else {
        Ok(ExitCode::from(1))
    }
}

/// Prints what was seen. Whether it was nothing that may not be.
fn tell<R: Print>(rt: &R, name: &str, well: &str, outcome: &Result<(), Wrong>) -> io::Result<bool> {
    match outcome {
        Ok(()) => {
            println!(rt; "{name}: {well}")?;
            Ok(true)
        }
        Err(wrong) => {
            println!(rt; "{name}: {wrong}")?;
            Ok(false)
        }
    }
}
