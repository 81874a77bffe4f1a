//! How far an agent is.
use crate::interleave::Prepared;
use pool_parts::page::PageId;

/// The point of an agent, between two of its steps. The first number is a page's.
///
/// An optional number is the page that a hint named and that the agent asked in vain. An agent that
/// makes a page has passed each page that was linked, and so that one.
#[derive(Drop)]
pub enum Point<T> {
    /// It reads the page's word next.
    Reading(usize, Option<usize>),
    /// It clears next; the set bits that it hasn't tried yet.
    Clearing(usize, u32, Option<usize>),
    /// It has seen each number of the page taken, and reads the link next.
    AtLink(usize, Option<usize>),
    /// It clears next, on a page that a hint named; the set bits that it hasn't tried yet.
    ClearingHinted(usize, u32),
    /// It makes the values of a page after this one.
    Making(usize),
    /// It links a page with these values after this one.
    Linking(usize, Prepared<T>),
    /// It has cleared the bit; the value is at its place.
    Taken(usize, PageId),
    /// It has the value; the place is empty.
    Holding(usize, PageId, T),
    /// It has put the value back; the bit is clear.
    Home(usize, PageId),
    /// It has returned its item, or was refused.
    Ended,
}
