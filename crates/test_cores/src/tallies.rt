//! The tallies of both sides.
use crate::answer::{Answer, Call, Stopped};
use crate::figures::Figures;
use crate::tally::SideTally;
use std::alloc::{AllocError, Global};
use std::sync::Arc;

/// The tally of the running pool's items and that of the core's, and what was seen of both.
#[derive(Drop)]
pub struct Tallies {
    pub running: Arc<SideTally>,
    pub core: Arc<SideTally>,
    pub figures: Figures,
}

impl Tallies {
    /// Creates the tallies of both sides.
    ///
    /// # Errors
    ///
    /// If memory is refused.
    pub fn new(alloc: Global) -> Result<Tallies, AllocError> {
        Ok(Tallies {
            running: SideTally::new(alloc)?,
            core: SideTally::new(alloc)?,
            figures: Figures::default(),
        })
    }

    /// Refuses from now on, on both sides, the call of `init` after so many others.
    pub fn refuse_after(&self, calls: usize) {
        self.running.refuse_after(calls);
        self.core.refuse_after(calls);
    }

    /// Counts a call with what was answered on both sides, and stops where their tallies differ.
    ///
    /// # Errors
    ///
    /// `Stopped` if the two tallies differ.
    pub fn count(&mut self, call: Call, answer: Answer) -> Result<(), Stopped> {
        self.figures.count(call, answer);
        self.compare(call)
    }

    /// Stops where the tallies of both sides differ.
    ///
    /// # Errors
    ///
    /// `Stopped` if the two tallies differ.
    pub fn compare(&self, call: Call) -> Result<(), Stopped> {
        let (running, core) = (self.running.counts(), self.core.counts());
        if running == core {
            Ok(())
        } else {
            Err(Stopped::OtherCounts(call, running, core))
        }
    }
}
