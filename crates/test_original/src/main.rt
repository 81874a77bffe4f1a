//! What is compared with the original: answers to the calls of one thread, and times of pools at
//! work.
//!
//! With a pool and a reset as arguments it answers the calls of standard input. With a task it does
//! that task, and tells how long it took too. Without arguments it does a little of each work on
//! each pool, and then answers the calls of standard input on the mutex pool, whose reset clears.
#![tactic(auto)]

mod answers;
mod shared;
mod times;

use answers::answer_calls;
use answers::arguments::{Arguments, Kind, arguments_of};
use anyhow::{Context, Result};
use std::env;
use times::task::task_of;
use times::{show_each, show_time};

/// What answers the calls where no arguments are given.
const ANSWERS: Arguments = Arguments {
    kind: Kind::Mutex,
    clears: true,
};

fn main(rt: HostRuntime) -> Result<()> {
    let mut arguments = env::args(&rt)?;
    let _name = arguments.next();
    let arguments: Vec<String> = arguments.collect(rt.alloc())?;
    let words: Vec<&str> = arguments.iter().map(String::as_str).collect(rt.alloc())?;
    if words.is_empty() {
        show_each(&rt)?;
        return answer_calls(&rt, ANSWERS);
    }
    if let Some(arguments) = arguments_of(&words) {
        return answer_calls(&rt, arguments);
    }
    let task = task_of(&words).context(
        "usage: test_original [POOL keep|clear], or test_original POOL WORK TURNS",
    )?;
    show_time(&rt, task)
}
