//! What threads saw.
use std::fmt;
use std::fmt::{Display, Formatter, Write};

/// What a thread saw that may not be, and what it forgot.
#[derive(Drop)]
pub struct Report {
    /// Items that another holder wrote to.
    shared: u32,
    /// Pulled items that weren't as a reset leaves them.
    unclear: u32,
    /// Calls for which there was no memory.
    without_memory: u32,
    /// Pulls that `init` refused, as it was meant.
    refused: usize,
    /// Refusals of `init` that no pull told, or that were told twice.
    untold: usize,
    /// Items that were forgotten, as it was meant.
    pub forgotten: usize,
    /// Items that neither were forgotten nor dropped, or that were dropped twice.
    lost: usize,
    /// Items that neither were forgotten nor could be pulled behind the threads, or that there were
    /// too many of.
    missing: usize,
    /// Whether a thread waited for an item for longer than it may.
    late: bool,
}

impl Report {
    /// Creates a report of nothing.
    pub fn new() -> Report {
        Report {
            shared: 0,
            unclear: 0,
            without_memory: 0,
            refused: 0,
            untold: 0,
            forgotten: 0,
            lost: 0,
            missing: 0,
            late: false,
        }
    }

    /// Counts an item that two holders had.
    pub fn count_shared(&mut self) {
        self.shared = self.shared.saturating_add(1);
    }

    /// Counts an item that came otherwise than reset.
    pub fn count_unclear(&mut self) {
        self.unclear = self.unclear.saturating_add(1);
    }

    /// Counts a refusal for memory.
    pub fn count_without_memory(&mut self) {
        self.without_memory = self.without_memory.saturating_add(1);
    }

    /// Counts a refusal by `init`.
    pub fn count_refused(&mut self) {
        self.refused = self.refused.saturating_add(1);
    }

    /// Adds what another thread saw, before either is ended.
    pub fn add(&mut self, other: &Report) {
        self.shared = self.shared.saturating_add(other.shared);
        self.unclear = self.unclear.saturating_add(other.unclear);
        self.without_memory = self.without_memory.saturating_add(other.without_memory);
        self.refused = self.refused.saturating_add(other.refused);
        self.forgotten = self.forgotten.saturating_add(other.forgotten);
    }

    /// Ends it, when so many counted items live.
    pub fn end_living(&mut self, living: usize) {
        self.lost = living.abs_diff(self.forgotten);
    }

    /// Ends it, when a pool has so many items, and so many could be pulled.
    pub fn end_pulled(&mut self, items: usize, pulled: usize) {
        self.missing = items.abs_diff(pulled.saturating_add(self.forgotten));
    }

    /// Ends it, when `init` refused so often.
    pub fn end_refused(&mut self, refusals: usize) {
        self.untold = refusals.abs_diff(self.refused);
    }

    /// Ends it, where the threads came to their end in time or not.
    pub fn end_late(&mut self, late: bool) {
        self.late = late;
    }

    /// Whether nothing was seen that may not be.
    pub fn is_good(&self) -> bool {
        self.shared == 0
            && self.unclear == 0
            && self.without_memory == 0
            && self.untold == 0
            && self.lost == 0
            && self.missing == 0
            && !self.late
    }
}

impl Display for Report {
    fn fmt<W: Write>(&self, f: &mut Formatter<W>) -> fmt::Result {
        write!(
            f,
            "{} items shared, {} unclear, {} lost, {} missing, {} calls without memory, {} refusals untold",
            self.shared, self.unclear, self.lost, self.missing, self.without_memory, self.untold
        )?;
        if self.late {
            f.write_str(", a thread waited too long")?;
        }
        Ok(())
    }
}
