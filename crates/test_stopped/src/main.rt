//! Two threads on one pool, each with one call. `ci/stopped` runs it, stops a thread after an
//! instruction of its call, and lets the other go on.
//!
//!     test_stopped KIND FIRST SECOND ROUNDS
//!
//! The calls are `pull`, `return`, `turn` or `turns`. The first line tells the numbers of the items
//! that are free, and the number of the first item that isn't made yet, if the pool grows. A line
//! for each round tells what both threads held and pulled, an item as `NUMBER:VALUE`. With no word
//! it prints the kinds.
#![tactic(auto)]

mod calls;
mod kinds;
mod pools;
mod rounds;

use calls::Call;
use kinds::Kind;
use rounds::Task;
use std::process::ExitCode;
use std::rt::Env;
use std::{env, io};

fn main(rt: HostRuntime) -> io::Result<ExitCode> {
    match read_words(&rt) {
        Some(Asked::Kinds) => list_kinds(&rt)?,
        Some(Asked::Rounds(kind, task)) => kinds::run(&rt, kind, task)?,
        None => {
            eprintln!(rt; "usage: test_stopped [KIND FIRST SECOND ROUNDS]")?;
            return Ok(ExitCode::from(2));
        }
    }
    Ok(ExitCode::SUCCESS)
}

/// What the words ask for.
enum Asked {
    Kinds,
    Rounds(Kind, Task),
}

fn list_kinds<R: Print>(rt: &R) -> io::Result<()> {
    for kind in Kind::ALL {
        println!(rt; "{}", kind.name())?;
    }
    Ok(())
}

/// Reads the words of the command line.
fn read_words<R: Env + AllocGlobal>(rt: &R) -> Option<Asked> {
    let mut words = env::args(rt).ok()?;
    let _name = words.next();
    let Some(kind) = words.next() else {
        return Some(Asked::Kinds);
    };
    let task = Task {
        first: Call::named(&words.next()?)?,
        second: Call::named(&words.next()?)?,
        rounds: words.next()?.parse().ok()?,
    };
    Some(Asked::Rounds(Kind::named(&kind)?, task))
}
