//! Turns by workers, each in a thread of its own.
use super::pulls::{Fixed, Lazy, Linear};
use super::turns::Sum;
use lockfree_object_pool::{Worker, WorkerPlace};

/// A pool that has workers.
pub trait HasWorkers {
    /// Does so many turns by one more worker.
    fn work(&self, turns: u64) -> Sum;
}

impl HasWorkers for Linear {
    fn work(&self, turns: u64) -> Sum {
        let worker = Worker::new(self);
        work(&worker, turns)
    }
}

impl HasWorkers for Fixed {
    fn work(&self, turns: u64) -> Sum {
        let worker = Worker::new(self.near());
        work(&worker, turns)
    }
}

impl HasWorkers for Lazy {
    fn work(&self, turns: u64) -> Sum {
        let worker = Worker::new(self.near());
        work(&worker, turns)
    }
}

/// Pulls an item in each turn, adds the turn's number to it, and drops it. Returns the sum of what
/// the items were then.
fn work<P: WorkerPlace<u64>>(worker: &Worker<u64, P>, turns: u64) -> Sum {
    let mut sum = 0u64;
    for turn in 0..turns {
        let mut item = worker.pull()?;
        *item = item.wrapping_add(turn);
        sum = sum.wrapping_add(*item);
    }
    Ok(sum)
}
