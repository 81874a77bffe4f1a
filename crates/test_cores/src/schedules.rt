//! Random schedules on the world of agents: each is compared with the table of its steps, and
//! judged as a run of one pool.

mod adds;
mod figures;
mod judge;
mod schedule;
mod step;
mod table;

use crate::asked::Asked;
use figures::Figures;
use rand_pcg::Pcg32;
use schedule::play;
use std::alloc::Global;
use std::io;

/// The generator's second number.
const STREAM: u64 = 54;

/// Plays the schedules that are asked for, and prints their figures. Returns whether each is as it
/// has to be.
///
/// # Errors
///
/// If the figures can't be printed.
pub fn play_all<R: Print + Eprint>(rt: &R, alloc: Global, asked: Asked) -> io::Result<bool> {
    let mut random = Pcg32::new(asked.seed, STREAM);
    let mut figures = Figures::default();
    for _ in 0..asked.count {
        if let Err(stopped) = play(alloc, &mut figures, &mut random) {
            let (schedule, seed) = (figures.schedules, asked.seed);
            eprintln!(rt; "{figures}")?;
            eprintln!(rt; "schedule {schedule} of seed {seed}: {stopped}")?;
            return Ok(false);
        }
    }
    println!(rt; "{figures}")?;
    Ok(true)
}
