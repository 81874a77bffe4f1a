//! A random schedule: any number of agents, some of which stop for good, on a world that is
//! compared with the table and judged as a run after each event.
use super::adds::Adds;
use super::figures::Figures;
use super::judge::{Judge, Unlawful};
use super::step::{Step, event_of, values_from};
use super::table::{Point, Table};
use lockfree_object_pool::PullError;
use object_pool_cores::interleave::{Seen, World};
use rand_core::Rng;
use rand_pcg::Pcg32;
use std::alloc::{AllocError, AllocFailed, Global};
use thiserror::Error;

/// Why a schedule stopped.
#[derive(Clone, Copy, Debug, Error)]
pub enum Stopped {
    #[error("out of memory")]
    Memory,
    #[error("agent {0}: {1:?} answers {2:?} where the table has {3:?}")]
    OtherAnswer(usize, Step, Seen, Seen),
    #[error("agent {0}: {1:?} leaves other words, or another value in its hand")]
    OtherState(usize, Step),
    #[error("agent {0}: {1:?}, and {2}")]
    Unlawful(usize, Step, Unlawful),
}

impl From<AllocError> for Stopped {
    fn from(_error: AllocError) -> Stopped {
        Stopped::Memory
    }
}

impl<X: Drop> From<AllocFailed<X>> for Stopped {
    fn from(_error: AllocFailed<X>) -> Stopped {
        Stopped::Memory
    }
}

impl From<PullError> for Stopped {
    fn from(_error: PullError) -> Stopped {
        Stopped::Memory
    }
}

/// How many steps are random, behind those of the agents that hold an item from the first on.
const STEPS: u32 = 300;

/// How many steps an agent alone may need for its item, on so few pages.
const STEPS_ALONE: u32 = 20;

/// A world and what it is compared with.
#[derive(Drop)]
struct Schedule {
    alloc: Global,
    world: World<u32, Adds>,
    table: Table,
    judge: Judge,
    /// Whether an agent has stopped for good, by its number.
    stopped: Vec<bool>,
}

impl Schedule {
    fn new(alloc: Global, random: &mut Pcg32) -> Result<Schedule, Stopped> {
        let limit = match random.next_u32() % 4 {
            0 => None,
            pages => Some(pages as usize),
        };
        let reset = Adds {
            number: random.next_u32() % 2 * random.next_u32() % 1_000,
        };
        let first = random.next_u32();
        let values = values_from(alloc, first)?;
        let world = match limit {
            Some(pages) if pages > 0 => World::with_limit(alloc, values, reset, pages)?,
            _ => World::new(alloc, values, reset)?,
        };
        Ok(Schedule {
            alloc,
            world,
            table: Table::new(alloc, limit, reset, first)?,
            judge: Judge::new(alloc, limit, reset, first)?,
            stopped: Vec::new(alloc),
        })
    }

    /// One step of the world, which has to answer and change as the table does, and to be legal in
    /// a run.
    fn step(&mut self, figures: &mut Figures, agent: usize, step: Step) -> Result<(), Stopped> {
        let seen = self.world.step(event_of(self.alloc, agent, step)?);
        figures.count(step, seen);
        let wanted = self.table.step(agent, step)?;
        if seen != wanted {
            return Err(Stopped::OtherAnswer(agent, step, seen, wanted));
        }
        if !self.is_as_the_table(agent) {
            return Err(Stopped::OtherState(agent, step));
        }
        let held = self.world.held(agent).copied();
        match self.judge.judge(agent, step, seen, held)? {
            Ok(()) => Ok(()),
            Err(unlawful) => Err(Stopped::Unlawful(agent, step, unlawful)),
        }
    }

    /// Whether the world's words and the agent's value are those of the table.
    fn is_as_the_table(&self, agent: usize) -> bool {
        for page in 0..self.table.pages() {
            if self.world.word(page) != Some(self.table.word(page)) {
                return false;
            }
        }
        self.world.pages() == self.table.pages()
            && self.world.held(agent).copied() == self.table.held(agent)
    }

    /// A new agent, by its number.
    fn begin(&mut self, figures: &mut Figures) -> Result<usize, Stopped> {
        let agent = self.table.agents();
        self.stopped.push(false)?;
        self.step(figures, agent, Step::Begin)?;
        Ok(agent)
    }

    /// A new agent that alone steps until it holds an item, or is refused.
    fn hold_one(&mut self, figures: &mut Figures, random: &mut Pcg32) -> Result<(), Stopped> {
        let agent = self.begin(figures)?;
        for _ in 0..STEPS_ALONE {
            match self.table.point(agent) {
                Some(Point::Holding(_, _, _) | Point::Ended) | None => return Ok(()),
                Some(point) => self.step(figures, agent, self.enabled_step(point, random))?,
            }
        }
        Ok(())
    }

    /// A step of an agent that hasn't stopped, or one more agent.
    fn random_step(&mut self, figures: &mut Figures, random: &mut Pcg32) -> Result<(), Stopped> {
        if random.next_u32() % 12 == 0 {
            self.begin(figures)?;
            return Ok(());
        }
        let agent = self.random_agent(random);
        if self.stopped.get(agent).copied().unwrap_or(false) {
            return Ok(());
        }
        if random.next_u32() % 50 == 0 {
            if let Some(stopped) = self.stopped.get_mut(agent) {
                *stopped = true;
            }
            return Ok(());
        }
        let step = match self.table.point(agent) {
            Some(point) if random.next_u32() % 8 != 0 => self.enabled_step(point, random),
            _ => self.any_step(random),
        };
        self.step(figures, agent, step)
    }

    /// A step that the table has at a point.
    fn enabled_step(&self, point: Point, random: &mut Pcg32) -> Step {
        match point {
            Point::Reading(_, _) => Step::ReadMask,
            Point::Clearing(_, _, _) | Point::ClearingHinted(_, _) => Step::ClearBit,
            Point::AtLink(0, None) if self.table.pages() > 1 && random.next_u32() % 2 == 0 => {
                self.hint(random)
            }
            Point::AtLink(_, _) => Step::ReadNext,
            Point::Making(_) => made_or_refused(random),
            Point::Linking(_, _) => Step::ExchangeNext,
            Point::Taken(_, _) => Step::MoveOut,
            Point::Holding(_, _, _) if random.next_u32() % 3 == 0 => {
                Step::Write(random.next_u32())
            }
            Point::Holding(_, _, _) => Step::MoveHome,
            Point::Home(_, _) => Step::OrMask,
            Point::Ended => self.any_step(random),
        }
    }

    /// A hint at a linked page but the first, where there is one.
    fn hint(&self, random: &mut Pcg32) -> Step {
        let further = self.table.pages().saturating_sub(1).max(1);
        let hint = random.next_u32() as usize % further;
        Step::ReadHinted(hint.saturating_add(1))
    }

    /// A hint at any page, and now and then at one that isn't linked.
    fn any_hint(&self, random: &mut Pcg32) -> Step {
        let pages = self.table.pages().saturating_add(2);
        Step::ReadHinted(random.next_u32() as usize % pages)
    }

    fn any_step(&self, random: &mut Pcg32) -> Step {
        match random.next_u32() % 10 {
            0 => Step::ReadMask,
            1 => Step::ClearBit,
            2 => Step::ReadNext,
            3 => made_or_refused(random),
            4 => Step::ExchangeNext,
            5 => Step::MoveOut,
            6 => Step::Write(random.next_u32()),
            7 => Step::MoveHome,
            8 => self.any_hint(random),
            _ => Step::OrMask,
        }
    }

    /// Mostly one of those that began last, and now and then one that doesn't exist.
    fn random_agent(&self, random: &mut Pcg32) -> usize {
        let agents = self.table.agents();
        let pick = random.next_u32() as usize;
        if random.next_u32() % 4 == 0 {
            return pick % agents.saturating_add(1);
        }
        let last = pick % 8;
        agents.saturating_sub(last.saturating_add(1))
    }
}

fn made_or_refused(random: &mut Pcg32) -> Step {
    match random.next_u32() % 8 {
        0 => Step::BeRefused(PullError::Init),
        1 => Step::BeRefused(PullError::Memory),
        2 => Step::BeRefused(PullError::Limit),
        _ => Step::MakePage(random.next_u32()),
    }
}

/// Plays one schedule. First so many agents take an item that one page, or a few, is nearly used
/// up.
///
/// # Errors
///
/// `Stopped` if the world differs from the table, or memory is refused.
pub fn play(alloc: Global, figures: &mut Figures, random: &mut Pcg32) -> Result<(), Stopped> {
    let mut schedule = Schedule::new(alloc, random)?;
    let more_pages = random.next_u32() % 6 / 3 * (random.next_u32() % 2 + 1);
    let holders = 26 + random.next_u32() % 8 + 32 * more_pages;
    for _ in 0..holders {
        schedule.hold_one(figures, random)?;
    }
    for _ in 0..STEPS {
        schedule.random_step(figures, random)?;
    }
    figures.count_schedule();
    let last = schedule.table.agents();
    match schedule.judge.ends_as(&schedule.world) {
        Ok(()) => Ok(()),
        Err(unlawful) => Err(Stopped::Unlawful(last, Step::OrMask, unlawful)),
    }
}
