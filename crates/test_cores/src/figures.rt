//! What was seen, in figures.
use crate::answer::{Answer, Call};
use lockfree_object_pool::PullError;
use std::fmt::{self, Display, Formatter, Write};

/// How often each kind of call was done and each kind of answer came.
#[derive(Clone, Copy, Default)]
pub struct Figures {
    pub calls: u64,
    pub sessions: u64,
    pulled: u64,
    attached: u64,
    dropped: u64,
    forgotten: u64,
    refused_by_init: u64,
    refused_by_limit: u64,
    /// The greatest number that came.
    greatest: u128,
}

impl Figures {
    /// Counts a call with what was answered on both sides.
    pub fn count(&mut self, call: Call, answer: Answer) {
        add(&mut self.calls, 1);
        match (call, answer) {
            (Call::Attach | Call::AttachOwned, Answer::Came { .. }) => add(&mut self.attached, 1),
            (_, Answer::Came { number, .. }) => {
                add(&mut self.pulled, 1);
                self.greatest = self.greatest.max(number.unwrap_or(0));
            }
            (_, Answer::Refused(PullError::Init)) => add(&mut self.refused_by_init, 1),
            (_, Answer::Refused(PullError::Limit)) => add(&mut self.refused_by_limit, 1),
            (Call::Drop, _) => add(&mut self.dropped, 1),
            (Call::Forget, _) => add(&mut self.forgotten, 1),
            _ => {}
        }
    }

    /// Adds what a session saw.
    pub fn add_session(&mut self, session: Figures) {
        add(&mut self.sessions, 1);
        add(&mut self.calls, session.calls);
        add(&mut self.pulled, session.pulled);
        add(&mut self.attached, session.attached);
        add(&mut self.dropped, session.dropped);
        add(&mut self.forgotten, session.forgotten);
        add(&mut self.refused_by_init, session.refused_by_init);
        add(&mut self.refused_by_limit, session.refused_by_limit);
        self.greatest = self.greatest.max(session.greatest);
    }
}

fn add(count: &mut u64, more: u64) {
    *count = count.saturating_add(more);
}

impl Display for Figures {
    fn fmt<W: Write>(&self, f: &mut Formatter<W>) -> fmt::Result {
        write!(f, "{} calls in {} sessions", self.calls, self.sessions)?;
        write!(f, ": {} pulled, {} attached", self.pulled, self.attached)?;
        write!(
            f,
            ", {} dropped, {} forgotten",
            self.dropped, self.forgotten
        )?;
        write!(
            f,
            ", {} refused by init, {} by a limit",
            self.refused_by_init, self.refused_by_limit
        )?;
        write!(f, ", greatest number {}", self.greatest)
    }
}
