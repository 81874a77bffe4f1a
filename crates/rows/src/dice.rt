//! The random choices of a game.
use rand_core::Rng;
use rand_pcg::Pcg32;

/// Draws numbers, the same ones for a seed.
#[derive(Drop)]
pub struct Dice {
    random: Pcg32,
}

impl Dice {
    /// Creates what draws by a seed.
    pub fn new(seed: u64) -> Dice {
        Dice {
            random: Pcg32::new(seed, 0),
        }
    }

    /// Draws a number below this one; 0 if there is none.
    pub fn below(&mut self, end: usize) -> usize {
        let drawn = self.random.next_u32() as usize;
        drawn.checked_rem(end).unwrap_or(0)
    }

    /// Draws whether something comes that comes once in so many times.
    pub fn one_in(&mut self, times: usize) -> bool {
        self.below(times) == 0
    }

    /// Draws one of these words.
    pub fn word_of(&mut self, words: &[&'static str]) -> &'static str {
        let place = self.below(words.len());
        words.get(place).copied().unwrap_or("")
    }
}
