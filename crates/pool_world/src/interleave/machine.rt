//! A world's pages and agents, and what each event does to them.
ghost use Rattle.std.specs.Prelude.{slice_set, vec_len, vec_capacity, ◌++◌, ◌∷◌, [], ◌≡◌, ◌≢◌, ◌<◌};
ghost use Rattle.std.specs.Prelude.{◌≤◌, ◌⊎◌, Some, None, option_map, option_copied, slice_get};
ghost use Rattle.std.specs.Prelude.{length, IfOk, OnOk};
ghost use Rattle.pool_world.specs.World.Inside.LinkCapacity.{LinksNoPage, prepared_by};
ghost use Rattle.pool_world.specs.World.Machine.{at_point, linked_page, word_of, page_value};
ghost use Rattle.pool_world.specs.World.Machine.{with_word, with_page_value, opening_world};
ghost use Rattle.pool_world.specs.World.Machine.{may_name, read_mask, read_hinted, clears};
ghost use Rattle.pool_world.specs.World.Machine.{clear_hinted, clear_bit, held_by, read_next};
ghost use Rattle.pool_world.specs.World.Machine.{make_page, exchange_next, move_out, write};
ghost use Rattle.pool_world.specs.World.Machine.{or_mask, begin, IsOutcome, MayGrow, LinksWhole};
ghost use Rattle.pool_world.specs.World.Machine.{MovesHome, Steps};
ghost use Rattle.pool_world.specs.World.Capacity.{HasCapacityFor, HasCapacityForMade};
ghost use Rattle.pool_world.specs.World.Capacity.{KeepsCapacity};
ghost use Rattle.pool_world.specs.declared.interleave.point.Point.TheVariants.{Reading};
ghost use Rattle.pool_world.specs.declared.interleave.event.Seen.TheVariants.{NoMemory};
ghost use Rattle.pool_world.specs.declared.interleave.event.Event.TheVariants.{MakePage};

use crate::interleave::moves::{
    comes_to, is_last, is_last_allowed, split_lowest, tries, tries_hinted,
};
use crate::interleave::point::Point;
use crate::interleave::world_page::WorldPage;
use crate::interleave::{Event, Prepared, Seen};
use crate::numbers::number;
use pool_parts::PullError;
use pool_parts::clean::AnyValue;
use pool_parts::closures::Reset;
use pool_parts::page::{PAGE_ITEMS, PageId, has_bit, with_bit, without_bit};
use std::alloc::{AllocError, Global};
use std::marker::Model;
use std::mem;

/// The pages in order, the agents by their numbers, and the limit.
#[derive(Drop)]
pub struct Machine<T> {
    pages: Vec<WorldPage<T>>,
    agents: Vec<Point<T>>,
    limit: Option<usize>,
}

impl<T> Model for Machine<T> {
    ghost use Rattle.std.specs.Prelude.{All, vec_capacity};
    ghost use Rattle.pool_world.specs.World.Inside.Tables.{Tables};
    ghost use Rattle.pool_world.specs.World.Inside.LinkCapacity.{HasLinkCapacity};

    ghost Value = { Tables T };

    ghost view = { λ machine. record {
      state = record {
        pages = machine.pages.items;
        agents = machine.agents.items;
        limit = machine.limit;
      };
      capacity = record {
        agents = vec_capacity machine.agents;
        pages = vec_capacity machine.pages;
      };
    } };

    ghost invariant = { λ machine. All (HasLinkCapacity (vec_capacity machine.pages))
        machine.agents.items };
}

/// Returns the word of a page, or 0 if there is no such page.
fn word_of<T: Drop>(pages: &Vec<WorldPage<T>>, page: usize) -> u32
    ensures { result ≡ word_of pages.now.items page }
{
    match pages.get(page) {
        Some(page) => page.word(),
        None => 0,
    }
}

/// Sets a page's word, if there is such a page.
fn set_word<T: Drop>(pages: &mut Vec<WorldPage<T>>, page: usize, word: u32)
    ensures pages { pages.new.items ≡ with_word pages.old.items page word }
    ensures room { vec_capacity pages.new ≡ vec_capacity pages.old }
{
    if let Some(page) = pages.get_mut(page) {
        page.set_word(word);
    }
}

/// Returns the value at a place, if one lies there.
fn page_value<T: Drop>(pages: &Vec<WorldPage<T>>, page: usize, id: PageId) -> Option<&T>
    ensures { option_copied result ≡ page_value pages.now.items page id }
{
    match pages.get(page) {
        Some(page) => page.value(id),
        None => None,
    }
}

/// Takes the value out of a place, if one lies there.
fn take_value<T: Drop>(pages: &mut Vec<WorldPage<T>>, page: usize, id: PageId) -> Option<T>
    ensures value { result ≡ page_value pages.old.items page id }
    ensures pages { pages.new.items ≡ with_page_value pages.old.items page id None }
    ensures room { vec_capacity pages.new ≡ vec_capacity pages.old }
{
    match pages.get_mut(page) {
        Some(page) => page.take(id),
        None => None,
    }
}

/// Puts a value into a place, if there is such a page.
fn put_value<T: Drop>(pages: &mut Vec<WorldPage<T>>, page: usize, id: PageId, value: T)
    ensures pages { pages.new.items ≡ with_page_value pages.old.items page id (Some value) }
    ensures room { vec_capacity pages.new ≡ vec_capacity pages.old }
{
    if let Some(page) = pages.get_mut(page) {
        page.put(id, value);
    }
}

/// Moves an agent to the next page, and returns the values that it had for a page of its own.
fn pass_link<T: Drop>(agents: &mut Vec<Point<T>>, agent: usize, next: usize) -> Option<Prepared<T>>
    requires { agent < vec_len agents.old }
    ensures values { result ≡ prepared_by (slice_get agents.old.items agent) }
    ensures agents { agents.new.items ≡ slice_set agents.old.items agent (Reading next None) }
    ensures room { vec_capacity agents.new ≡ vec_capacity agents.old }
{
    match mem::replace(&mut agents[agent], Point::Reading(next, None)) {
        Point::Linking(_, values) => Some(values),
        _ => None,
    }
}

/// Links a page of these values after the last, in the room that was made for it.
fn link_last<T: Drop>(pages: &mut Vec<WorldPage<T>>, values: Prepared<T>)
    requires { vec_len pages.old < vec_capacity pages.old }
    ensures pages { pages.new.items ≡ pages.old.items ++ linked_page values ∷ [] }
    ensures room { vec_capacity pages.old ≤ vec_capacity pages.new }
    ensures whole { length values ≡ PAGE_ITEMS }
{
    let _ = pages.push(WorldPage::new(values));
}

/// Resets a value, and returns what `reset` left.
fn reset_of<T: Drop, R: Reset<T, AnyValue>>(reset: &R, mut value: T) -> T
    ensures { R.leaves reset.now value result }
{
    reset.reset(&mut value);
    value
}

impl<T: Drop> Machine<T> {
    /// Creates one page of these values, and no agent. It fails if memory is refused.
    pub fn new(
        alloc: Global,
        first: Prepared<T>,
        limit: Option<usize>,
    ) -> Result<Machine<T>, AllocError>
        ensures opening { IfOk result (λ table. table.state ≡ opening_world first limit) }
        ensures whole { OnOk result (length first ≡ PAGE_ITEMS) }
    {
        let mut pages = Vec::new(alloc);
        pages.push(WorldPage::new(first))?;
        Ok(Machine {
            pages,
            agents: Vec::new(alloc),
            limit,
        })
    }

    /// Returns the number of pages.
    pub fn pages(&self) -> usize
        ensures { result ≡ length self.now.state.pages }
    {
        self.pages.len()
    }

    /// Returns how many pages may be linked, if there is a limit.
    pub fn limit(&self) -> Option<usize>
        ensures { result ≡ self.now.state.limit }
    {
        self.limit
    }

    /// Returns the word of a page, if there is such a page.
    pub fn word(&self, page: usize) -> Option<u32>
        ensures { result ≡ option_map (λ page. page.word) (slice_get self.now.state.pages page) }
    {
        match self.pages.get(page) {
            Some(page) => Some(page.word()),
            None => None,
        }
    }

    /// Returns the value at a place, if one lies there.
    pub fn place(&self, page: usize, id: PageId) -> Option<&T>
        ensures { option_copied result ≡ page_value self.now.state.pages page id }
    {
        page_value(&self.pages, page, id)
    }

    /// Returns the value of an agent, from its `MoveOut` until its `MoveHome`.
    pub fn held(&self, agent: usize) -> Option<&T>
        ensures { option_copied result ≡ held_by (slice_get self.now.state.agents agent) }
    {
        match self.agents.get(agent) {
            Some(Point::Holding(_, _, value)) => Some(value),
            _ => None,
        }
    }

    /// Does one step. Only `MoveHome` uses `reset`.
    pub fn step<R: Reset<T, AnyValue>>(&mut self, reset: &R, event: Event<T>) -> Seen
        ensures step { Steps (R.leaves reset.now) self.old.state event result self.new.state }
        ensures room_is_there { HasCapacityFor self.old.capacity self.old.state event
            → result ≢ NoMemory }
        ensures room_is_made { HasCapacityForMade self.new.capacity self.new.state result }
        ensures room_stays { KeepsCapacity self.old.capacity self.new.capacity }
    {
        match event {
            Event::Begin => self.begin(),
            Event::ReadMask(agent) => self.read_mask(agent),
            Event::ReadHinted(agent, hint) => self.read_hinted(agent, hint),
            Event::ClearBit(agent) => self.clear_bit(agent),
            Event::ReadNext(agent) => self.read_next(agent),
            Event::MakePage(agent, prepared) => self.make_page(agent, prepared),
            Event::ExchangeNext(agent) => self.exchange_next(agent),
            Event::MoveOut(agent) => self.move_out(agent),
            Event::Write(agent, value) => self.write(agent, value),
            Event::MoveHome(agent) => self.move_home(agent, reset),
            Event::OrMask(agent) => self.or_mask(agent),
        }
    }

    /// Moves an agent to another point, which needs no room for a link.
    fn go(&mut self, agent: usize, point: Point<T>)
        requires begun { agent < length self.old.state.agents }
        requires room { LinksNoPage point }
        ensures state { self.new.state ≡ at_point self.old.state agent point }
        ensures room_stays { KeepsCapacity self.old.capacity self.new.capacity }
    {
        self.agents[agent] = point;
    }

    fn begin(&mut self) -> Seen
        ensures step { IsOutcome (begin self.old.state) result self.new.state
            ⊎ ((result ≡ NoMemory) × (self.new.state ≡ self.old.state)) }
        ensures room_is_there { length self.old.state.agents < self.old.capacity.agents
            → result ≢ NoMemory }
        ensures room_stays { KeepsCapacity self.old.capacity self.new.capacity }
    {
        let agent = self.agents.len();
        match self.agents.push(Point::Reading(0, None)) {
            Ok(()) => Seen::Began(agent),
            Err(_) => Seen::NoMemory,
        }
    }

    fn read_mask(&mut self, agent: usize) -> Seen
        ensures step { IsOutcome (read_mask self.old.state agent
            (slice_get self.old.state.agents agent)) result self.new.state }
        ensures room_stays { KeepsCapacity self.old.capacity self.new.capacity }
    {
        let (page, asked) = match self.agents.get(agent) {
            Some(Point::Reading(page, asked)) => (*page, *asked),
            _ => return Seen::NotEnabled,
        };
        let word = word_of(&self.pages, page);
        self.go(agent, tries(page, word, asked));
        Seen::Word(agent, word)
    }

    /// Returns whether a hint may name this page to an agent: any linked page but the first, if the
    /// agent is at the first page.
    fn may_name(&self, page: usize, hint: usize) -> bool
        ensures { result ≡ may_name self.now.state page hint }
    {
        page == 0 && 0 < hint && hint < self.pages.len()
    }

    fn read_hinted(&mut self, agent: usize, hint: usize) -> Seen
        ensures step { IsOutcome (read_hinted self.old.state agent hint
            (slice_get self.old.state.agents agent)) result self.new.state }
        ensures room_stays { KeepsCapacity self.old.capacity self.new.capacity }
    {
        let page = match self.agents.get(agent) {
            Some(Point::AtLink(page, None)) => *page,
            _ => return Seen::NotEnabled,
        };
        if !self.may_name(page, hint) {
            return Seen::NotEnabled;
        }
        let word = word_of(&self.pages, hint);
        self.go(agent, tries_hinted(hint, word));
        Seen::Word(agent, word)
    }

    fn clear_bit(&mut self, agent: usize) -> Seen
        ensures step { IsOutcome (clear_bit self.old.state agent
            (slice_get self.old.state.agents agent)) result self.new.state }
        ensures room_stays { KeepsCapacity self.old.capacity self.new.capacity }
    {
        let (page, mask, asked) = match self.agents.get(agent) {
            Some(Point::Clearing(page, mask, asked)) => (*page, *mask, *asked),
            _ => return self.clear_hinted(agent),
        };
        if mask == 0 {
            return Seen::NotEnabled;
        }
        let (rest, id) = split_lowest(mask);
        self.clear(agent, page, id, tries(page, rest, asked))
    }

    fn clear_hinted(&mut self, agent: usize) -> Seen
        ensures step { IsOutcome (clear_hinted self.old.state agent
            (slice_get self.old.state.agents agent)) result self.new.state }
        ensures room_stays { KeepsCapacity self.old.capacity self.new.capacity }
    {
        let (hint, mask) = match self.agents.get(agent) {
            Some(Point::ClearingHinted(hint, mask)) => (*hint, *mask),
            _ => return Seen::NotEnabled,
        };
        if mask == 0 {
            return Seen::NotEnabled;
        }
        let (rest, id) = split_lowest(mask);
        self.clear(agent, hint, id, tries_hinted(hint, rest))
    }

    /// Clears a bit that is set in the word. If it isn't, the agent goes on to `next`.
    fn clear(&mut self, agent: usize, page: usize, id: PageId, next: Point<T>) -> Seen
        requires begun { agent < length self.old.state.agents }
        requires in_page { id < PAGE_ITEMS }
        requires room { LinksNoPage next }
        ensures step { IsOutcome (clears self.old.state agent page id
            (word_of self.old.state.pages page) next) result self.new.state }
        ensures room_stays { KeepsCapacity self.old.capacity self.new.capacity }
    {
        let word = word_of(&self.pages, page);
        if has_bit(word, id) {
            set_word(&mut self.pages, page, without_bit(word, id));
            self.go(agent, Point::Taken(page, id));
            return Seen::Pulled(agent, number(page, id));
        }
        self.go(agent, next);
        Seen::Found(agent, word)
    }

    fn read_next(&mut self, agent: usize) -> Seen
        ensures step { IsOutcome (read_next self.old.state agent
            (slice_get self.old.state.agents agent)) result self.new.state }
        ensures room_stays { KeepsCapacity self.old.capacity self.new.capacity }
    {
        let (page, asked) = match self.agents.get(agent) {
            Some(Point::AtLink(page, asked)) => (*page, *asked),
            _ => return Seen::NotEnabled,
        };
        let pages = self.pages.len();
        if page >= pages {
            return Seen::NotEnabled;
        }
        if is_last_allowed(self.limit, page) {
            self.go(agent, Point::Ended);
            return Seen::Refused(agent, PullError::Limit);
        }
        if is_last(pages, page) {
            self.go(agent, Point::Making(page));
            return Seen::Next(agent, false);
        }
        self.go(agent, comes_to(page + 1, asked));
        Seen::Next(agent, true)
    }

    fn make_page(&mut self, agent: usize, prepared: Result<Prepared<T>, PullError>) -> Seen
        ensures step { IsOutcome (make_page self.old.state agent prepared
            (slice_get self.old.state.agents agent)) result self.new.state
            ⊎ (MayGrow (MakePage agent prepared) (slice_get self.old.state.agents agent)
            × (result ≡ NoMemory) × (self.new.state ≡ self.old.state)) }
        ensures room_is_there { HasCapacityFor self.old.capacity self.old.state
            (MakePage agent prepared) → result ≢ NoMemory }
        ensures room_is_made { HasCapacityForMade self.new.capacity self.new.state result }
        ensures room_stays { KeepsCapacity self.old.capacity self.new.capacity }
    {
        let page = match self.agents.get(agent) {
            Some(Point::Making(page)) => *page,
            _ => return Seen::NotEnabled,
        };
        match prepared {
            Ok(values) => {
                if page >= self.pages.len() {
                    return Seen::NotEnabled;
                }
                if self.pages.reserve(1).is_err() {
                    return Seen::NoMemory;
                }
                self.agents[agent] = Point::Linking(page, values);
                Seen::Made(agent)
            }
            Err(PullError::Limit | PullError::Closed) => Seen::NotEnabled,
            Err(cause) => {
                self.go(agent, Point::Ended);
                Seen::Refused(agent, cause)
            }
        }
    }

    fn exchange_next(&mut self, agent: usize) -> Seen
        ensures step { IsOutcome (exchange_next self.old.state agent
            (slice_get self.old.state.agents agent)) result self.new.state }
        ensures whole { LinksWhole result (slice_get self.old.state.agents agent) }
        ensures room_stays { KeepsCapacity self.old.capacity self.new.capacity }
    {
        let page = match self.agents.get(agent) {
            Some(Point::Linking(page, _)) => *page,
            _ => return Seen::NotEnabled,
        };
        if page >= self.pages.len() {
            return Seen::NotEnabled;
        }
        let next = page + 1;
        if !is_last(self.pages.len(), page) {
            self.go(agent, Point::Reading(next, None));
            return Seen::Lost(agent);
        }
        match pass_link(&mut self.agents, agent, next) {
            Some(values) => {
                link_last(&mut self.pages, values);
                Seen::Linked(agent)
            }
            None => Seen::NotEnabled,
        }
    }

    fn move_out(&mut self, agent: usize) -> Seen
        ensures step { IsOutcome (move_out self.old.state agent
            (slice_get self.old.state.agents agent)) result self.new.state }
        ensures room_stays { KeepsCapacity self.old.capacity self.new.capacity }
    {
        let (page, id) = match self.agents.get(agent) {
            Some(Point::Taken(page, id)) => (*page, *id),
            _ => return Seen::NotEnabled,
        };
        if page_value(&self.pages, page, id).is_none() {
            return Seen::NotEnabled;
        }
        match take_value(&mut self.pages, page, id) {
            Some(value) => {
                self.go(agent, Point::Holding(page, id, value));
                Seen::MovedOut(agent)
            }
            None => Seen::NotEnabled,
        }
    }

    fn write(&mut self, agent: usize, value: T) -> Seen
        ensures step { IsOutcome (write self.old.state agent value
            (slice_get self.old.state.agents agent)) result self.new.state }
        ensures room_stays { KeepsCapacity self.old.capacity self.new.capacity }
    {
        let (page, id) = match self.agents.get(agent) {
            Some(Point::Holding(page, id, _)) => (*page, *id),
            _ => return Seen::NotEnabled,
        };
        self.go(agent, Point::Holding(page, id, value));
        Seen::Wrote(agent)
    }

    fn move_home<R: Reset<T, AnyValue>>(&mut self, agent: usize, reset: &R) -> Seen
        ensures step { MovesHome (R.leaves reset.now) self.old.state agent
            (slice_get self.old.state.agents agent) result self.new.state }
        ensures room_stays { KeepsCapacity self.old.capacity self.new.capacity }
    {
        let (page, id) = match self.agents.get(agent) {
            Some(Point::Holding(page, id, _)) => (*page, *id),
            _ => return Seen::NotEnabled,
        };
        let value = match mem::replace(&mut self.agents[agent], Point::Home(page, id)) {
            Point::Holding(_, _, value) => value,
            _ => return Seen::NotEnabled,
        };
        let kept = reset_of(reset, value);
        put_value(&mut self.pages, page, id, kept);
        Seen::MovedHome(agent)
    }

    fn or_mask(&mut self, agent: usize) -> Seen
        ensures step { IsOutcome (or_mask self.old.state agent
            (slice_get self.old.state.agents agent)) result self.new.state }
        ensures room_stays { KeepsCapacity self.old.capacity self.new.capacity }
    {
        let (page, id) = match self.agents.get(agent) {
            Some(Point::Home(page, id)) => (*page, *id),
            _ => return Seen::NotEnabled,
        };
        if usize::from(id) >= PAGE_ITEMS {
            return Seen::NotEnabled;
        }
        let word = word_of(&self.pages, page);
        set_word(&mut self.pages, page, with_bit(word, id));
        self.go(agent, Point::Ended);
        Seen::Returned(agent, number(page, id))
    }
}
