//! What was seen of the schedules, in figures.
use super::step::Step;
use object_pool_cores::interleave::Seen;
use std::fmt;
use std::fmt::{Display, Formatter, Write};

/// How often each kind of answer came.
#[derive(Clone, Copy, Default)]
pub struct Figures {
    pub schedules: u64,
    events: u64,
    not_enabled: u64,
    pulled: u64,
    hinted: u64,
    lost_clearings: u64,
    returned: u64,
    linked: u64,
    lost_links: u64,
    refused: u64,
}

impl Figures {
    /// Counts an answer.
    pub fn count(&mut self, step: Step, seen: Seen) {
        add_one(&mut self.events);
        if matches!((step, seen), (Step::ReadHinted(_), Seen::Word(_, _))) {
            add_one(&mut self.hinted);
        }
        match seen {
            Seen::NotEnabled => add_one(&mut self.not_enabled),
            Seen::Pulled(_, _) => add_one(&mut self.pulled),
            Seen::Found(_, _) => add_one(&mut self.lost_clearings),
            Seen::Returned(_, _) => add_one(&mut self.returned),
            Seen::Linked(_) => add_one(&mut self.linked),
            Seen::Lost(_) => add_one(&mut self.lost_links),
            Seen::Refused(_, _) => add_one(&mut self.refused),
            _ => {}
        }
    }

    /// Counts a schedule.
    pub fn count_schedule(&mut self) {
        add_one(&mut self.schedules);
    }
}

fn add_one(count: &mut u64) {
    *count = count.saturating_add(1);
}

impl Display for Figures {
    fn fmt<W: Write>(&self, f: &mut Formatter<W>) -> fmt::Result {
        write!(f, "{} schedules, {} events", self.schedules, self.events)?;
        write!(f, ": {} pulled, {} returned", self.pulled, self.returned)?;
        write!(
            f,
            ", {} pages linked, {} links lost",
            self.linked, self.lost_links
        )?;
        write!(
            f,
            ", {} clearings lost, {} refused",
            self.lost_clearings, self.refused
        )?;
        write!(f, ", {} pages asked by a hint", self.hinted)?;
        write!(f, ", {} not enabled", self.not_enabled)
    }
}
