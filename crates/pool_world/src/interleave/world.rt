//! The world of agents.
ghost use Rattle.std.specs.Prelude.{◌≡◌, ◌≢◌, ◌≤◌, ◌+◌, Some, None, option_map, option_copied};
ghost use Rattle.std.specs.Prelude.{slice_get, IfOk, IfErr, IsOk, vec_len, vec_capacity};
ghost use Rattle.pool_parts.specs.declared.pull_error.PullError.TheVariants.{Memory};
ghost use Rattle.pool_world.specs.Pool.{AllowsPages};
ghost use Rattle.pool_world.specs.World.Headline.{IsNew, Past, RunsEvents};
ghost use Rattle.pool_world.specs.World.Machine.{held_by, opening_world, page_value, Steps};
ghost use Rattle.pool_world.specs.World.StepBounds.{BoundsOwnSteps};
ghost use Rattle.pool_world.specs.World.Enabled.{IsExact};
ghost use Rattle.pool_world.specs.World.AbstractPool.{abstract_pool};
ghost use Rattle.pool_world.specs.World.Capacity.{HasCapacityFor, HasCapacityForMade};
ghost use Rattle.pool_world.specs.World.Capacity.{KeepsCapacity};
ghost use Rattle.pool_world.specs.declared.interleave.event.Seen.TheVariants.{NoMemory};

use crate::interleave::machine::Machine;
use crate::interleave::{Event, Prepared, RunError, Seen};
use pool_parts::PullError;
use pool_parts::clean::AnyValue;
use pool_parts::closures::Reset;
use pool_parts::page::PageId;
use std::alloc::Global;
use std::marker::Model;

/// The linear core with any number of agents. What an agent returns is reset by `R`.
///
/// # Examples
///
/// ```rust
/// let first = Prepared::make(alloc, &|| Some(0u32))?;
/// let mut world = World::new(alloc, first, Keep)?;
/// world.step(Event::Begin); // agent 0
/// world.step(Event::ReadMask(0));
/// let seen = world.step(Event::ClearBit(0)); // it has pulled the item with number 0
/// assert_eq!(rt; seen, Seen::Pulled(0, 0));
/// ```
pub struct World<T, R: Reset<T, AnyValue>> {
    machine: Machine<T>,
    reset: R,
}

impl<T: Drop, R: Reset<T, AnyValue>> Drop for World<T, R> {
    fn drop(self) {
        let World {
            machine: _,
            reset: _,
        } = self;
    }
}

impl<T, R: Reset<T, AnyValue>> Model for World<T, R> {
    ghost use Rattle.pool_world.specs.World.Inside.Shown.{WorldView};
    ghost use Rattle.pool_world.specs.World.Headline.{Past};

    ghost Value = { WorldView T R };

    ghost view = { λ world.
        record {
          state = world.machine.state;
          capacity = world.machine.capacity;
          reset = world.reset;
        } };

    ghost invariant = { λ world. Past (R.leaves world.reset) world.machine.state };
}

impl<T: Drop, R: Reset<T, AnyValue>> World<T, R> {
    /// Creates a world of one page, in which no agent has begun.
    ///
    /// # Errors
    ///
    /// `Memory` if there is none for the page. The values are dropped.
    ///
    /// # Examples
    ///
    /// ```rust
    /// let mut world = World::new(alloc, first, Keep)?;
    /// ```
    pub fn new(alloc: Global, first: Prepared<T>, reset: R) -> Result<World<T, R>, PullError>
        ensures world { IfOk result (λ world. world.state ≡ opening_world first None) }
        ensures is_new { IfOk result (λ world. IsNew world.state) }
        ensures reset { IfOk result (λ world. world.reset ≡ reset) }
        ensures refused { IfErr result (λ cause. cause ≡ Memory) }
    {
        World::open(alloc, first, reset, None)
    }

    /// Creates a world of one page, which never has more than `pages` pages, and in which no agent
    /// has begun.
    ///
    /// # Errors
    ///
    /// `Memory` if there is none for the page. The values are dropped.
    ///
    /// # Examples
    ///
    /// ```rust
    /// let mut world = World::with_limit(alloc, first, Keep, 1)?;
    /// ```
    pub fn with_limit(
        alloc: Global,
        first: Prepared<T>,
        reset: R,
        pages: usize,
    ) -> Result<World<T, R>, PullError>
        requires { 1 ≤ pages }
        ensures world { IfOk result
            (λ world. world.state ≡ opening_world first (Some pages)) }
        ensures is_new { IfOk result (λ world. IsNew world.state) }
        ensures reset { IfOk result (λ world. world.reset ≡ reset) }
        ensures refused { IfErr result (λ cause. cause ≡ Memory) }
    {
        World::open(alloc, first, reset, Some(pages))
    }

    fn open(
        alloc: Global,
        first: Prepared<T>,
        reset: R,
        limit: Option<usize>,
    ) -> Result<World<T, R>, PullError>
        requires { AllowsPages limit 1 }
        ensures world { IfOk result (λ world. world.state ≡ opening_world first limit) }
        ensures is_new { IfOk result (λ world. IsNew world.state) }
        ensures reset { IfOk result (λ world. world.reset ≡ reset) }
        ensures refused { IfErr result (λ cause. cause ≡ Memory) }
    {
        match Machine::new(alloc, first, limit) {
            Ok(machine) => Ok(World { machine, reset }),
            Err(_) => Err(PullError::Memory),
        }
    }

    /// Returns how many pages may be linked, if there is a limit.
    pub fn limit(&self) -> Option<usize>
        ensures { result ≡ self.now.state.limit }
    {
        self.machine.limit()
    }

    /// Returns how many pages are linked.
    pub fn pages(&self) -> usize
        ensures { result ≡ (abstract_pool self.now.state).pages }
    {
        self.machine.pages()
    }

    /// Returns the word of a page, if there is such a page.
    pub fn word(&self, page: usize) -> Option<u32>
        ensures { result ≡ option_map (λ page. page.word)
            (slice_get self.now.state.pages page) }
    {
        self.machine.word(page)
    }

    /// Returns the value that lies at a place, if one does.
    pub fn place(&self, page: usize, id: PageId) -> Option<&T>
        ensures { option_copied result ≡ page_value self.now.state.pages page id }
    {
        self.machine.place(page, id)
    }

    /// Returns the value of an agent, from its `MoveOut` until its `MoveHome`.
    pub fn held(&self, agent: usize) -> Option<&T>
        ensures { option_copied result ≡ held_by (slice_get self.now.state.agents agent) }
    {
        self.machine.held(agent)
    }

    /// Does one atomic step of the agent that the event names.
    ///
    /// # Errors
    ///
    /// `NotEnabled` if the agent's point doesn't allow the event. `NoMemory` if the world's tables
    /// can't grow. Then nothing changes, and the event's values are dropped.
    pub fn step(&mut self, event: Event<T>) -> Seen
        ensures step { Steps (R.leaves self.old.reset)
            self.old.state event result self.new.state }
        ensures exact { IsExact self.old.state event result self.new.state }
        ensures past { Past (R.leaves self.old.reset) self.old.state }
        ensures reset { self.new.reset ≡ self.old.reset }
        // A step is refused for memory only if the room is missing. A page that is made has its
        // room before it is linked, and no room is given up.
        ensures room_is_there { HasCapacityFor self.old.capacity self.old.state
            event → result ≢ NoMemory }
        ensures room_is_made { HasCapacityForMade self.new.capacity
            self.new.state result }
        ensures room_stays { KeepsCapacity self.old.capacity self.new.capacity }
    {
        self.machine.step(&self.reset, event)
    }

    /// Does the events, one after another, and puts each answer at the end of `seen`.
    ///
    /// What was done before, by other runs or by steps, and these events together are one run. In
    /// all of it an agent's own steps are bounded, whatever the others do.
    ///
    /// # Errors
    ///
    /// `Memory` if `seen` can't grow. The events that were done stay done, with their answers, and
    /// the others are dropped. A later run goes on from there.
    ///
    /// # Examples
    ///
    /// ```rust
    /// let events = Vec::from_array(alloc, [Event::Begin, Event::ReadMask(0)])?;
    /// let mut seen = Vec::new(alloc);
    /// world.run(events, &mut seen)?;
    /// ```
    pub fn run(&mut self, mut events: Vec<Event<T>>, seen: &mut Vec<Seen>) -> Result<(), RunError>
        ensures run { RunsEvents (R.leaves self.old.reset)
            (record { world = self.old.state; events = events.items; seen = seen.old.items })
            (record { world = self.new.state; seen = seen.new.items; result = result }) }
        ensures past { Past (R.leaves self.old.reset) self.old.state }
        ensures reset { self.new.reset ≡ self.old.reset }
        ensures room_is_there { vec_len seen.old + vec_len events ≤ vec_capacity seen.old
            → IsOk result }
        ensures room_stays { KeepsCapacity self.old.capacity self.new.capacity }
    {
        let _ = &self.machine; // a look at a field tells that the world can be reached
        events.reverse();
        while let Some(event) = events.pop() {
            seen.reserve(1)?;
            let answer = self.step(event);
            seen.push(answer)?;
        }
        Ok(())
    }

    /// Bounds how many steps of its own an agent needs, in all that leads to this world: on each
    /// page, under a limit, and running solo. Proofs call it; it does nothing.
    pub fn bound_own_steps(&self)
        ensures own_steps { BoundsOwnSteps (R.leaves self.now.reset) self.now.state }
    {}
}
