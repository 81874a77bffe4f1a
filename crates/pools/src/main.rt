//! Commands by lines from standard input, played on a pool of numbers; replies by lines to standard
//! output.
#![tactic(auto)]

mod arguments;
mod ending;
mod program;

use ending::{Ending, report_of};
use object_pool_cores::engine::EngineError;
use program::play;
use std::alloc::AllocError;
use std::io::ErrorKind;
use std::process::ExitCode;
use std::rt::Env;
use std::sync::Wait;
use std::{env, io};

fn main(rt: HostRuntime) -> ExitCode {
    run_program(&rt)
}

/// Plays standard input, says on standard error why that ended, and returns the exit status.
fn run_program<R: Env + Input + Print + Eprint + AllocGlobal + Wait>(rt: &R) -> ExitCode {
    let ending = play_standard_input(rt).unwrap_or(Ending::Stopped(EngineError::Memory));
    let report = report_of(ending);
    let _ = eprint!(rt; "{}", report.message);
    ExitCode::from(report.status)
}

/// Plays standard input by the arguments after the program's name.
///
/// # Errors
///
/// `AllocError` if there is no memory for the arguments. It has read nothing then.
fn play_standard_input<R: Env + Input + Print + AllocGlobal + Wait>(
    rt: &R,
) -> Result<Ending, AllocError> {
    let mut arguments = match env::args(rt) {
        Ok(arguments) => arguments,
        Err(error) if error.kind() == ErrorKind::OutOfMemory => return Err(AllocError),
        Err(_) => return Ok(Ending::OtherArguments),
    };
    let _name = arguments.next();
    let arguments: Vec<String> = arguments.collect(rt.alloc())?;
    let words: Vec<&str> = arguments.iter().map(String::as_str).collect(rt.alloc())?;
    let mut input = rt.reader();
    let mut output = io::writer(rt);
    Ok(play(rt, rt.alloc(), &words, &mut input, &mut output))
}

#[cfg(test)]
mod tests {
    use super::*;

    #[test]
    fn without_arguments_the_program_ends_with_status_2(rt: HostRuntime) {
        // The process of a test has no arguments that ask for a pool.
        assert_eq!(rt; run_program(&rt), ExitCode::from(2));
    }
}
