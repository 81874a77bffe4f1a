//! One who steps a world of agents by commands.
//!
//! A command's numbers are an agent, and a page or a value. Each event has a command, and is
//! answered by what was seen, the agent and what it saw. By `gather` events are only gathered from
//! then on, until `run` does them in one run. Value `i` of all that are made is `i`.
use crate::values::{Resets, counts, number_or_none, numbered};
use object_pool_cores::interleave::{Event, Prepared, Seen, World};
use pool_parts::PullError;
use pool_parts::page::PageId;
use rows::row::{Command, Player};
use rows::said::Said;
use std::alloc::Global;
use std::mem;
use std::sync::Arc;
use test_values::tallied::Tallied;
use test_values::tally::Tally;

pub type TalliedWorld = World<Tallied, Resets>;

/// Makes the values of a page, by as many calls more.
///
/// # Errors
///
/// `Memory`.
pub fn made_page(alloc: Global, tally: &Arc<Tally>) -> Result<Prepared<Tallied>, PullError> {
    Prepared::make(alloc, &|| Tallied::new(tally))
}

/// A world, the events that wait for a run, and what was seen in all runs.
#[derive(Drop)]
pub struct WorldPlayer {
    alloc: Global,
    pub tally: Arc<Tally>,
    pub world: TalliedWorld,
    gathers: bool,
    events: Vec<Event<Tallied>>,
    seen: Vec<Seen>,
}

impl WorldPlayer {
    /// Creates one that steps this world.
    pub fn new(alloc: Global, tally: Arc<Tally>, world: TalliedWorld) -> WorldPlayer {
        WorldPlayer {
            alloc,
            tally,
            world,
            gathers: false,
            events: Vec::new(alloc),
            seen: Vec::new(alloc),
        }
    }

    /// The event that a command stands for.
    fn event_of(&self, command: Command) -> Option<Event<Tallied>> {
        let [agent, number, _] = command.numbers;
        Some(match command.word {
            "begin" => Event::Begin,
            "read" => Event::ReadMask(agent),
            "clear" => Event::ClearBit(agent),
            "next" => Event::ReadNext(agent),
            "make" => Event::MakePage(agent, made_page(self.alloc, &self.tally)),
            "refuse_init" => Event::MakePage(agent, Err(PullError::Init)),
            "refuse_limit" => Event::MakePage(agent, Err(PullError::Limit)),
            "link" => Event::ExchangeNext(agent),
            "move_out" => Event::MoveOut(agent),
            "write" => Event::Write(agent, numbered(&self.tally, number)?),
            "move_home" => Event::MoveHome(agent),
            "or" => Event::OrMask(agent),
            _ => return None,
        })
    }

    /// Does an event, or gathers it.
    fn step(&mut self, command: Command) -> Said {
        let Some(event) = self.event_of(command) else {
            return Said::of("no such command");
        };
        if !self.gathers {
            return said_of(self.world.step(event));
        }
        match self.events.push(event) {
            Ok(()) => Said::of("gathered"),
            Err(_) => Said::of("out of memory"),
        }
    }

    /// Does what was gathered, and says how often something was seen in all runs.
    fn run(&mut self) -> Said {
        let events = mem::replace(&mut self.events, Vec::new(self.alloc));
        match self.world.run(events, &mut self.seen) {
            Ok(()) => Said::of("seen").and(self.seen.len()),
            Err(_) => Said::of("out of memory"),
        }
    }

    /// One more agent steps alone until it has its item, or is refused. It links a page where each
    /// one is full.
    fn take(&mut self) -> Seen {
        let begun = self.world.step(Event::Begin);
        let Seen::Began(agent) = begun else {
            return begun;
        };
        for _ in 0..u64::MAX {
            if self.world.step(Event::ReadMask(agent)) != Seen::Word(agent, 0) {
                break;
            }
            match self.world.step(Event::ReadNext(agent)) {
                Seen::Next(_, true) => {}
                Seen::Next(_, false) => {
                    let page = made_page(self.alloc, &self.tally);
                    let _ = self.world.step(Event::MakePage(agent, page));
                    let _ = self.world.step(Event::ExchangeNext(agent));
                }
                seen => return seen,
            }
        }
        let pulled = self.world.step(Event::ClearBit(agent));
        match self.world.step(Event::MoveOut(agent)) {
            Seen::MovedOut(_) => pulled,
            seen => seen,
        }
    }
}

impl Player for WorldPlayer {
    fn play(&mut self, command: Command) -> Said {
        let [first, second, _] = command.numbers;
        let id = PageId::try_from(second).unwrap_or(PageId::MAX);
        match command.word {
            "gather" => {
                self.gathers = true;
                Said::of("gathers")
            }
            "run" => self.run(),
            "take" => said_of(self.take()),
            "give" => {
                let _ = self.world.step(Event::MoveHome(first));
                said_of(self.world.step(Event::OrMask(first)))
            }
            "counts" => counts(&self.tally),
            "word" => number_or_none("is", self.world.word(first).map(|word| word as usize)),
            "held" => number_or_none("has", self.world.held(first).map(|value| value.number)),
            "place" => {
                number_or_none("has", self.world.place(first, id).map(|value| value.number))
            }
            "seen" => self
                .seen
                .get(first)
                .map_or(Said::of("none"), |seen| said_of(*seen)),
            "limit" => number_or_none("at most", self.world.limit()),
            "pages" => Said::of("pages").and(self.world.pages()),
            _ => self.step(command),
        }
    }
}

/// Returns an item's number, as a row writes it.
fn place_of(number: u128) -> usize {
    usize::try_from(number).unwrap_or(usize::MAX)
}

/// Says what an agent saw.
fn said_of(seen: Seen) -> Said {
    match seen {
        Seen::Began(agent) => Said::of("began").and(agent),
        Seen::Word(agent, word) => Said::of("word").and(agent).and(word as usize),
        Seen::Found(agent, word) => Said::of("found").and(agent).and(word as usize),
        Seen::Pulled(agent, number) => Said::of("pulled").and(agent).and(place_of(number)),
        Seen::Next(agent, true) => Said::of("next").and(agent),
        Seen::Next(agent, false) => Said::of("no next").and(agent),
        Seen::Made(agent) => Said::of("made").and(agent),
        Seen::Linked(agent) => Said::of("linked").and(agent),
        Seen::Lost(agent) => Said::of("lost").and(agent),
        Seen::Refused(agent, PullError::Limit) => Said::of("refused limit").and(agent),
        Seen::Refused(agent, PullError::Init) => Said::of("refused init").and(agent),
        Seen::Refused(agent, _) => Said::of("refused").and(agent),
        Seen::MovedOut(agent) => Said::of("moved out").and(agent),
        Seen::Wrote(agent) => Said::of("wrote").and(agent),
        Seen::MovedHome(agent) => Said::of("moved home").and(agent),
        Seen::Returned(agent, number) => Said::of("returned").and(agent).and(place_of(number)),
        Seen::NotEnabled => Said::of("not enabled"),
        Seen::NoMemory => Said::of("no memory"),
    }
}
