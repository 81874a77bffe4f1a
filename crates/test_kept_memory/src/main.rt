//! Pools and their parts at work for long, and whether the process has more memory then.
//!
//! No clause tells of a box that is forgotten, and no test sees one. Here one that is forgotten in
//! each turn adds up to megabytes. A line for each kind of turn says that nothing is kept, or how
//! much is; then the status is 1. The argument is how many turns there are.
//!
//! Before the turns it looks at what openings and pages take, while the process has little: memory
//! that is taken at an opening and let go again, or never written to, counts too.
//!
//! At last it opens pools beside blocks of memory, and sees that each block can be had again. With
//! the argument `filled` it does this alone, and takes all other memory first.
#![tactic(auto)]

mod blocks;
mod cores;
mod fixed_pool;
mod linear_pool;
mod observer;
mod openings;
mod others;
mod pages;
mod pools_behind_a_lock;
mod refused_openings;
mod supply;
mod worlds;

use anyhow::{Context, Result};
use observer::Observer;
use std::env;
use std::process::ExitCode;
use std::rt::{Env, Files};
use std::sync::Wait;

/// The argument.
fn argument<R: Env + AllocGlobal>(rt: &R) -> Option<String> {
    let mut arguments = env::args(rt).ok()?;
    let _name = arguments.next();
    arguments.next()
}

/// Observes each kind, by so many turns. Whether nothing was kept.
fn observe_all<R: Files + AllocGlobal + Print + Wait + Copy>(rt: R, turns: usize) -> Result<bool> {
    let mut observer = Observer::new(rt, turns);
    openings::observe(rt.alloc(), &mut observer)?;
    pages::observe(rt.alloc(), &mut observer)?;
    observer.observe_each(rt.alloc(), &linear_pool::KINDS)?;
    observer.observe_each(rt.alloc(), &fixed_pool::KINDS)?;
    observer.observe_each(rt.alloc(), &pools_behind_a_lock::KINDS)?;
    observer.observe_each(rt.alloc(), &others::KINDS)?;
    observer.observe_each(rt.alloc(), &cores::KINDS)?;
    observer.observe_each(rt.alloc(), &worlds::KINDS)?;
    Ok(observer.saw_nothing_kept())
}

fn main(rt: HostRuntime) -> Result<ExitCode> {
    let argument = argument(&rt).context("usage: test_kept_memory TURNS | filled")?;
    if argument.as_str() == "filled" {
        return Ok(status(refused_openings::observe(&rt, true)?));
    }
    let turns = argument
        .parse()
        .ok()
        .context("the argument is no number of turns")?;
    let nothing_is_kept = observe_all(rt, turns)?;
    let openings_are_good = refused_openings::observe(&rt, false)?;
    Ok(status(openings_are_good && nothing_is_kept))
}

fn status(is_good: bool) -> ExitCode {
    if is_good {
        ExitCode::SUCCESS
    } else {
        ExitCode::from(1)
    }
}
