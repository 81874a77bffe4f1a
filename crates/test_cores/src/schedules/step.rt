//! One step of an agent, without the values of a page.
use lockfree_object_pool::PullError;
use object_pool_cores::interleave::{Event, Prepared};
use std::alloc::Global;
use std::cell::Cell;

/// What an agent may do.
#[derive(Clone, Copy, Debug, PartialEq, Eq)]
pub enum Step {
    Begin,
    ReadMask,
    /// The page that a hint names.
    ReadHinted(usize),
    ClearBit,
    ReadNext,
    /// The first of the page's 32 values. Each later one is greater by 1.
    MakePage(u32),
    BeRefused(PullError),
    ExchangeNext,
    MoveOut,
    Write(u32),
    MoveHome,
    OrMask,
}

/// Makes 32 values, of which each is greater by 1 than the one before.
///
/// # Errors
///
/// `Memory`.
pub fn values_from(alloc: Global, first: u32) -> Result<Prepared<u32>, PullError> {
    let next = Cell::new(first);
    Prepared::make(
        alloc,
        &|| {
            let value = next.get();
            next.set(value.wrapping_add(1));
            Some(value)
        },
    )
}

/// Returns the step as an event of the world.
///
/// # Errors
///
/// `Memory`.
pub fn event_of(alloc: Global, agent: usize, step: Step) -> Result<Event<u32>, PullError> {
    Ok(match step {
        Step::Begin => Event::Begin,
        Step::ReadMask => Event::ReadMask(agent),
        Step::ReadHinted(hint) => Event::ReadHinted(agent, hint),
        Step::ClearBit => Event::ClearBit(agent),
        Step::ReadNext => Event::ReadNext(agent),
        Step::MakePage(first) => Event::MakePage(agent, Ok(values_from(alloc, first)?)),
        Step::BeRefused(cause) => Event::MakePage(agent, Err(cause)),
        Step::ExchangeNext => Event::ExchangeNext(agent),
        Step::MoveOut => Event::MoveOut(agent),
        Step::Write(value) => Event::Write(agent, value),
        Step::MoveHome => Event::MoveHome(agent),
        Step::OrMask => Event::OrMask(agent),
    })
}
