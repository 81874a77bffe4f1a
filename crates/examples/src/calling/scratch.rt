ghost use Rattle.std.specs.Prelude.{◌≡◌, [], IfSome};

use lockfree_object_pool::recycling::{Pool, Recyclable};
use std::alloc::Global;

/// Words and their sum, as a thread gathers them.
#[derive(Debug, Drop)]
struct Scratch {
    words: Vec<u32>,
    sum: u64,
}

impl Recyclable for Scratch {
    ghost is_clean = { λ scratch. (scratch.words.items ≡ []) × (scratch.sum ≡ 0) };

    fn make(alloc: Global) -> Option<Scratch> {
        Some(Scratch {
            words: Vec::with_capacity(alloc, 4).ok()?,
            sum: 0,
        })
    }

    fn reset(&mut self) {
        self.words.clear();
        self.sum = 0;
    }
}

/// One who gathers words, and keeps its pool.
#[derive(Debug, Drop)]
struct Gatherer {
    pool: Pool<Scratch>,
}

impl Gatherer {
    /// Returns what a pulled value holds, which is then written.
    fn use_once(&self) -> Option<(usize, u64)>
        ensures { IfSome result (λ found. (found.0 ≡ 0) × (found.1 ≡ 0)) }
    {
        let mut scratch = self.pool.pull().ok()?;
        let found = (scratch.words.len(), scratch.sum);
        scratch.words.push(5).ok()?;
        scratch.sum = 5;
        Some(found)
    }
}

#[cfg(test)]
mod tests;
