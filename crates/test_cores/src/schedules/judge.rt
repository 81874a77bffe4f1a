//! A judge of runs: what agents do with one pool, told by the visible answers alone.
//!
//! An agent opens once. While it looks for an item it may link a page, be refused, or pull a free
//! number, whose holder it then is. The holder may write its value, and returns it once, with what
//! `reset` leaves. Nobody else holds the number in between. Before a link its agent saw each number
//! of the pages taken since it opened, and before a refusal those of the pages that there were at
//! some moment since then. It asks each page once at most, so it reads no more words than there are
//! pages.
use super::adds::Adds;
use super::step::Step;
use lockfree_object_pool::PullError;
use lockfree_object_pool::page::PageId;
use object_pool_cores::interleave::{Seen, World};
use std::alloc::{AllocError, Global};
use thiserror::Error;

/// What a run may not have.
#[derive(Clone, Copy, Debug, Error)]
pub enum Unlawful {
    #[error("an agent opens out of turn")]
    Opening,
    #[error("an agent does what it may not do at its stage")]
    Stage,
    #[error("a number is pulled that isn't free")]
    NotFree,
    #[error("a page is linked past the limit")]
    PastLimit,
    #[error("a number wasn't seen taken since the agent opened")]
    NotSeenTaken,
    #[error("the limit is told where fewer pages are linked")]
    EarlyLimit,
    #[error("an agent is neither served nor refused within its steps")]
    TooManySteps,
    #[error("an agent reads more words than there are pages")]
    AskedAgain,
    #[error("a holder has another value")]
    OtherValue,
    #[error("the world at the end isn't the pool at the end")]
    OtherPool,
}

/// How far an agent is.
#[derive(Clone, Copy, PartialEq, Eq)]
enum Stage {
    Looking,
    /// The number and the value.
    Holds(usize, u32),
    Done,
}

#[derive(Clone, Copy)]
struct Agent {
    stage: Stage,
    /// The act with which it opened, and how many pages there were.
    opened: usize,
    pages_then: usize,
    /// The first value of the page that it made last.
    made: u32,
    /// How many steps it took, and how many words it read.
    steps: usize,
    asked: usize,
}

/// What lies at a number.
#[derive(Clone, Copy, PartialEq, Eq)]
enum Place {
    Free(u32),
    Out,
}

/// A number, with the last act that returned it.
#[derive(Clone, Copy)]
struct Numbered {
    place: Place,
    returned: Option<usize>,
}

/// One pool and its agents, after the acts until now.
#[derive(Drop)]
pub struct Judge {
    numbers: Vec<Numbered>,
    agents: Vec<Agent>,
    acts: usize,
    limit: Option<usize>,
    reset: Adds,
}

/// Items of a page.
const ITEMS: usize = 32;

impl Judge {
    /// Creates a pool of one page, whose first value is given.
    ///
    /// # Errors
    ///
    /// If memory is refused.
    pub fn new(
        alloc: Global,
        limit: Option<usize>,
        reset: Adds,
        first: u32,
    ) -> Result<Judge, AllocError> {
        let mut judge = Judge {
            numbers: Vec::new(alloc),
            agents: Vec::new(alloc),
            acts: 0,
            limit,
            reset,
        };
        judge.grow(first)?;
        Ok(judge)
    }

    /// A page more.
    fn grow(&mut self, first: u32) -> Result<(), AllocError> {
        let mut value = first;
        for _ in 0..ITEMS {
            self.numbers.push(Numbered {
                place: Place::Free(value),
                returned: None,
            })?;
            value = value.wrapping_add(1);
        }
        Ok(())
    }

    fn pages(&self) -> usize {
        self.numbers.len() / ITEMS
    }

    /// Takes the answer to an agent's step into account, and what it holds behind it.
    ///
    /// # Errors
    ///
    /// If memory is refused.
    pub fn judge(
        &mut self,
        agent: usize,
        step: Step,
        seen: Seen,
        held: Option<u32>,
    ) -> Result<Result<(), Unlawful>, AllocError> {
        let mut judged = self.hear(step, seen)?;
        if judged.is_ok() && seen != Seen::NotEnabled && step != Step::Begin {
            judged = self.count(agent);
        }
        if judged.is_ok() {
            judged = self.agrees(agent, held);
        }
        Ok(judged)
    }

    /// What the answer to a step changes.
    fn hear(&mut self, step: Step, seen: Seen) -> Result<Result<(), Unlawful>, AllocError> {
        let judged = match (seen, step) {
            (Seen::NotEnabled, _) => return Ok(Ok(())),
            (Seen::Began(agent), _) => return self.open(agent),
            (Seen::Word(agent, _), _) => self.ask(agent),
            (Seen::Made(agent), Step::MakePage(first)) => self.make(agent, first),
            (Seen::Pulled(agent, number), _) => self.pull(agent, number),
            (Seen::Wrote(agent), Step::Write(value)) => self.write(agent, value),
            (Seen::Returned(agent, number), _) => self.give(agent, number),
            (Seen::Linked(agent), _) => return self.link(agent),
            (Seen::Refused(agent, cause), _) => self.refuse(agent, cause),
            _ => Ok(()),
        };
        Ok(judged)
    }

    /// Counts a step that an agent took.
    fn count(&mut self, agent: usize) -> Result<(), Unlawful> {
        let limit = self.limit;
        let Some(agent) = self.agents.get_mut(agent) else {
            return Ok(());
        };
        agent.steps = agent.steps.saturating_add(1);
        match limit {
            Some(pages) if agent.stage == Stage::Looking => {
                let most = pages.saturating_mul(36).saturating_sub(2);
                if agent.steps < most {
                    Ok(())
                } else {
                    Err(Unlawful::TooManySteps)
                }
            }
            _ => Ok(()),
        }
    }

    fn open(&mut self, agent: usize) -> Result<Result<(), Unlawful>, AllocError> {
        if agent != self.agents.len() {
            return Ok(Err(Unlawful::Opening));
        }
        self.acts = self.acts.saturating_add(1);
        let opened = Agent {
            stage: Stage::Looking,
            opened: self.acts,
            pages_then: self.pages(),
            made: 0,
            steps: 0,
            asked: 0,
        };
        self.agents.push(opened)?;
        Ok(Ok(()))
    }

    /// The agent, where it looks for an item.
    fn looking(&self, agent: usize) -> Result<Agent, Unlawful> {
        match self.agents.get(agent) {
            Some(agent) if agent.stage == Stage::Looking => Ok(*agent),
            _ => Err(Unlawful::Stage),
        }
    }

    /// What an agent holds.
    fn holding(&self, agent: usize) -> Result<(usize, u32), Unlawful> {
        match self.agents.get(agent) {
            Some(
                Agent {
                    stage: Stage::Holds(number, value),
                    ..
                },
            ) => Ok((*number, *value)),
            _ => Err(Unlawful::Stage),
        }
    }

    fn to_stage(&mut self, agent: usize, stage: Stage) {
        self.acts = self.acts.saturating_add(1);
        if let Some(agent) = self.agents.get_mut(agent) {
            agent.stage = stage;
        }
    }

    /// Each page is asked once, whether a hint named it or not.
    fn ask(&mut self, agent: usize) -> Result<(), Unlawful> {
        let asked = self.looking(agent)?.asked.saturating_add(1);
        if let Some(agent) = self.agents.get_mut(agent) {
            agent.asked = asked;
        }
        if asked <= self.pages() {
            Ok(())
        } else {
            Err(Unlawful::AskedAgain)
        }
    }

    fn make(&mut self, agent: usize, first: u32) -> Result<(), Unlawful> {
        self.looking(agent)?;
        if let Some(agent) = self.agents.get_mut(agent) {
            agent.made = first;
        }
        Ok(())
    }

    fn pull(&mut self, agent: usize, number: u128) -> Result<(), Unlawful> {
        self.looking(agent)?;
        let Ok(number) = usize::try_from(number) else {
            return Err(Unlawful::NotFree);
        };
        let Some(here) = self.numbers.get_mut(number) else {
            return Err(Unlawful::NotFree);
        };
        let Place::Free(value) = here.place else {
            return Err(Unlawful::NotFree);
        };
        here.place = Place::Out;
        self.to_stage(agent, Stage::Holds(number, value));
        Ok(())
    }

    fn write(&mut self, agent: usize, value: u32) -> Result<(), Unlawful> {
        let (number, _) = self.holding(agent)?;
        self.to_stage(agent, Stage::Holds(number, value));
        Ok(())
    }

    fn give(&mut self, agent: usize, number: u128) -> Result<(), Unlawful> {
        let (held, value) = self.holding(agent)?;
        if held as u128 != number {
            return Err(Unlawful::Stage);
        }
        self.to_stage(agent, Stage::Done);
        let kept = self.reset.sum(value);
        if let Some(here) = self.numbers.get_mut(held) {
            here.place = Place::Free(kept);
            here.returned = Some(self.acts);
        }
        Ok(())
    }

    fn link(&mut self, agent: usize) -> Result<Result<(), Unlawful>, AllocError> {
        let agent_then = match self.looking(agent) {
            Ok(agent) => agent,
            Err(unlawful) => return Ok(Err(unlawful)),
        };
        if self.limit == Some(self.pages()) {
            return Ok(Err(Unlawful::PastLimit));
        }
        if !self.saw_taken(&agent_then, self.pages()) {
            return Ok(Err(Unlawful::NotSeenTaken));
        }
        self.to_stage(agent, Stage::Looking);
        self.grow(agent_then.made)?;
        Ok(Ok(()))
    }

    fn refuse(&mut self, agent: usize, cause: PullError) -> Result<(), Unlawful> {
        let agent_then = self.looking(agent)?;
        let pages = if cause == PullError::Limit {
            self.pages()
        } else {
            agent_then.pages_then
        };
        if cause == PullError::Limit && self.limit != Some(pages) {
            return Err(Unlawful::EarlyLimit);
        }
        if !self.saw_taken(&agent_then, pages) {
            return Err(Unlawful::NotSeenTaken);
        }
        self.to_stage(agent, Stage::Done);
        Ok(())
    }

    /// Whether each number of the first pages was out at some moment since the agent opened. One
    /// that is free now was out before its last return.
    fn saw_taken(&self, agent: &Agent, pages: usize) -> bool {
        let first = self.numbers.iter().take(pages.saturating_mul(ITEMS));
        for number in first {
            let found = match number.place {
                Place::Out => true,
                Place::Free(_) => matches!(number.returned, Some(act) if agent.opened < act),
            };
            if !found {
                return false;
            }
        }
        true
    }

    /// Whether an agent that has its item has the value of the run.
    fn agrees(&self, agent: usize, held: Option<u32>) -> Result<(), Unlawful> {
        match held {
            Some(shown) if self.holding(agent)?.1 != shown => Err(Unlawful::OtherValue),
            _ => Ok(()),
        }
    }

    /// Returns whether the world reads as the pool in which the run ends, where each number that is
    /// out has one holder.
    ///
    /// # Errors
    ///
    /// The rule that is broken.
    pub fn ends_as(&self, world: &World<u32, Adds>) -> Result<(), Unlawful> {
        if world.pages() != self.pages() {
            return Err(Unlawful::OtherPool);
        }
        for (number, numbered) in self.numbers.iter().enumerate() {
            if read(world, number) != Some(numbered.place) {
                return Err(Unlawful::OtherPool);
            }
        }
        if self.out() == self.holders() {
            Ok(())
        } else {
            Err(Unlawful::OtherPool)
        }
    }

    /// How many numbers are out.
    fn out(&self) -> usize {
        let mut out = 0usize;
        for number in self.numbers.iter() {
            if number.place == Place::Out {
                out = out.saturating_add(1);
            }
        }
        out
    }

    /// How many agents hold a number.
    fn holders(&self) -> usize {
        let mut holders = 0usize;
        for agent in self.agents.iter() {
            if matches!(agent.stage, Stage::Holds(_, _)) {
                holders = holders.saturating_add(1);
            }
        }
        holders
    }
}

/// What lies at a number of the world.
fn read(world: &World<u32, Adds>, number: usize) -> Option<Place> {
    let page = number / ITEMS;
    let id = PageId::try_from(number % ITEMS).ok()?;
    if world.word(page)? & 1u32.wrapping_shl(u32::from(id)) == 0 {
        return Some(Place::Out);
    }
    Some(Place::Free(*world.place(page, id)?))
}
