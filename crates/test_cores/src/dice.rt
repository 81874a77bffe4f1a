//! What is drawn at random.
ghost use Rattle.std.specs.Prelude.{◌<◌};

use rand_core::Rng;
use rand_pcg::Pcg32;

/// The random choices of one session.
#[derive(Drop)]
pub struct Dice {
    random: Pcg32,
}

impl Dice {
    /// Creates the choices of a session of a seed.
    pub fn new(seed: u64, session: u64) -> Dice {
        Dice {
            random: Pcg32::new(seed, session),
        }
    }

    /// Draws a number below this one. Below 0 it is 0.
    pub fn below(&mut self, end: usize) -> usize
        ensures below { 0 < end → result < end }
    {
        let drawn = self.random.next_u32() as usize;
        if end == 0 { 0 } else { drawn % end }
    }

    /// Draws whether something comes that comes once in so many times.
    pub fn one_in(&mut self, times: usize) -> bool {
        self.below(times) == 0
    }

    /// Draws a content that is written to an item.
    pub fn content(&mut self) -> u64 {
        u64::from(self.random.next_u32())
    }
}
