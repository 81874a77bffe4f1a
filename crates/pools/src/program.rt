//! The program over any input and output.
ghost use Rattle.std.specs.Prelude.{map};
ghost use Rattle.pools.specs.Ending.{Plays};

use crate::arguments::{Arguments, arguments_of};
use crate::ending::Ending;
use object_pool_cores::engine;
use std::alloc::Global;
use std::io::{Read, Write};
use std::sync::Wait;

/// Plays the lines of `input` on the pool that the words ask for, and writes their replies to
/// `output`.
pub fn play<H: Wait, R: Read, W: Write>(
    rt: &H,
    alloc: Global,
    words: &[&str],
    input: &mut R,
    output: &mut W,
) -> Ending
    ensures { Plays (map (λ word. word.now) words.now)
        (R.remaining input.old) (R.remaining input.new)
        (W.contents output.old) (W.contents output.new) result }
{
    let Some(Arguments { kind, reset }) = arguments_of(words) else {
        return Ending::OtherArguments;
    };
    match engine::run(rt, alloc, kind, reset, input, output) {
        Ok(()) => Ending::EndOfInput,
        Err(error) => Ending::Stopped(error),
    }
}

#[cfg(test)]
mod tests;
