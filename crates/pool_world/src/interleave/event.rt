//! One step of an agent, and what it answers.
use crate::interleave::Prepared;
use pool_parts::PullError;

/// One atomic step of an agent. All but `Begin` name their agent.
///
/// # Examples
///
/// ```rust
/// world.step(Event::Begin); // agent 0
/// world.step(Event::ReadMask(0));
/// ```
#[derive(Drop)]
pub enum Event<T> {
    /// A new agent begins its pull.
    Begin,
    /// The agent reads its page's word.
    ReadMask(usize),
    /// The agent, which found the first page full, reads the word of a page that a hint names.
    ReadHinted(usize, usize),
    /// The agent clears in the word the lowest bit that it hasn't tried yet.
    ClearBit(usize),
    /// The agent reads its page's link. It doesn't ask the next page if its hint led there in vain.
    ReadNext(usize),
    /// The agent makes the 32 values of a new page, or is refused.
    MakePage(usize, Result<Prepared<T>, PullError>),
    /// The agent links the page that it made, if no other page is linked there.
    ExchangeNext(usize),
    /// The agent takes its value out of the place.
    MoveOut(usize),
    /// The agent writes its value.
    Write(usize, T),
    /// The agent resets its value and puts it back into the place.
    MoveHome(usize),
    /// The agent sets the bit of its number.
    OrMask(usize),
}

/// The answer to a step. The first number is the agent's.
///
/// # Examples
///
/// ```rust
/// let seen = world.step(Event::ClearBit(0)); // it has pulled the item with number 0
/// assert_eq!(rt; seen, Seen::Pulled(0, 0));
/// ```
#[derive(Clone, Copy, Debug, PartialEq, Eq)]
pub enum Seen {
    Began(usize),
    /// The word that was read.
    Word(usize, u32),
    /// The bit was clear in this word.
    Found(usize, u32),
    /// The bit was set and is cleared; the item's number.
    Pulled(usize, u128),
    /// Whether a next page is linked.
    Next(usize, bool),
    Made(usize),
    Linked(usize),
    /// Another page is linked there, and the agent's own was dropped.
    Lost(usize),
    Refused(usize, PullError),
    MovedOut(usize),
    Wrote(usize),
    MovedHome(usize),
    /// The bit is set; the item's number.
    Returned(usize, u128),
    /// The agent's point doesn't allow the event, and nothing changed; the event's values are
    /// dropped.
    NotEnabled,
    /// The world's tables couldn't grow, and nothing changed; the event's values are dropped.
    NoMemory,
}
