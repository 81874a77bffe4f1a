//! A plain reading of the table: what each step of an agent answers at its point, and what it
//! changes.
use super::adds::Adds;
use super::step::Step;
use lockfree_object_pool::PullError;
use object_pool_cores::interleave::Seen;
use std::alloc::{AllocError, Global};

/// The word of a page all of whose items are free.
const FULL: u32 = 4294967295;

/// The page that an agent asked by a hint and found full.
type Asked = Option<usize>;

/// Where an agent is: the page, and what it knows there.
#[derive(Clone, Copy)]
pub enum Point {
    Reading(usize, Asked),
    /// The bits that it hasn't tried yet.
    Clearing(usize, u32, Asked),
    AtLink(usize, Asked),
    /// The bits of a page that a hint named.
    ClearingHinted(usize, u32),
    Making(usize),
    /// The first of the values that it made.
    Linking(usize, u32),
    /// The id that it took.
    Taken(usize, u32),
    /// The id and the value.
    Holding(usize, u32, u32),
    Home(usize, u32),
    Ended,
}

/// The words of the pages, the values at their places, and the agents.
#[derive(Drop)]
pub struct Table {
    words: Vec<u32>,
    values: Vec<[u32; 32]>,
    agents: Vec<Point>,
    limit: Option<usize>,
    reset: Adds,
}

impl Table {
    /// Creates one page, whose first value is given.
    ///
    /// # Errors
    ///
    /// If memory is refused.
    pub fn new(
        alloc: Global,
        limit: Option<usize>,
        reset: Adds,
        first: u32,
    ) -> Result<Table, AllocError> {
        Ok(Table {
            words: Vec::from_array(alloc, [FULL])?,
            values: Vec::from_array(alloc, [row_from(first)])?,
            agents: Vec::new(alloc),
            limit,
            reset,
        })
    }

    /// Returns how many agents have begun.
    pub fn agents(&self) -> usize {
        self.agents.len()
    }

    /// Returns how many pages are linked.
    pub fn pages(&self) -> usize {
        self.words.len()
    }

    /// Returns the point of an agent.
    pub fn point(&self, agent: usize) -> Option<Point> {
        self.agents.get(agent).copied()
    }

    /// Returns the word of a page.
    pub fn word(&self, page: usize) -> u32 {
        self.words.get(page).copied().unwrap_or(0)
    }

    fn value(&self, page: usize, id: u32) -> u32 {
        match self.values.get(page) {
            Some(values) => values.get(id as usize).copied().unwrap_or(0),
            None => 0,
        }
    }

    /// Returns the value that an agent holds.
    pub fn held(&self, agent: usize) -> Option<u32> {
        match self.point(agent) {
            Some(Point::Holding(_, _, value)) => Some(value),
            _ => None,
        }
    }

    /// Does a step, and returns its answer.
    ///
    /// # Errors
    ///
    /// If memory is refused.
    pub fn step(&mut self, agent: usize, step: Step) -> Result<Seen, AllocError> {
        if step == Step::Begin {
            let begun = self.agents.len();
            self.agents.push(Point::Reading(0, None))?;
            return Ok(Seen::Began(begun));
        }
        let Some(point) = self.point(agent) else {
            return Ok(Seen::NotEnabled);
        };
        let Some((seen, next)) = self.row(agent, point, step) else {
            return Ok(Seen::NotEnabled);
        };
        self.change(seen, point)?;
        if let Some(here) = self.agents.get_mut(agent) {
            *here = next;
        }
        Ok(seen)
    }

    /// What a step answers at a point, and the next point.
    fn row(&self, agent: usize, point: Point, step: Step) -> Option<(Seen, Point)> {
        match (step, point) {
            (Step::ReadMask, Point::Reading(page, asked)) => {
                let word = self.word(page);
                Some((Seen::Word(agent, word), after_word(page, word, asked)))
            }
            (Step::ReadHinted(hint), Point::AtLink(0, None)) => self.hinted(agent, hint),
            (Step::ClearBit, Point::Clearing(page, mask, asked)) => {
                let next = after_word(page, without_lowest(mask), asked);
                Some(self.cleared(agent, page, mask, next))
            }
            (Step::ClearBit, Point::ClearingHinted(hint, mask)) => {
                let next = after_hinted_word(hint, without_lowest(mask));
                Some(self.cleared(agent, hint, mask, next))
            }
            (Step::ReadNext, Point::AtLink(page, asked)) => Some(self.followed(agent, page, asked)),
            (Step::MakePage(first), Point::Making(page)) => {
                Some((Seen::Made(agent), Point::Linking(page, first)))
            }
            (Step::BeRefused(cause), Point::Making(_)) if cause != PullError::Limit => {
                Some((Seen::Refused(agent, cause), Point::Ended))
            }
            (Step::ExchangeNext, Point::Linking(page, _)) => Some(self.linked(agent, page)),
            (Step::MoveOut, Point::Taken(page, id)) => {
                let value = self.value(page, id);
                Some((Seen::MovedOut(agent), Point::Holding(page, id, value)))
            }
            (Step::Write(value), Point::Holding(page, id, _)) => {
                Some((Seen::Wrote(agent), Point::Holding(page, id, value)))
            }
            (Step::MoveHome, Point::Holding(page, id, _)) => {
                Some((Seen::MovedHome(agent), Point::Home(page, id)))
            }
            (Step::OrMask, Point::Home(page, id)) => {
                Some((Seen::Returned(agent, number(page, id)), Point::Ended))
            }
            _ => None,
        }
    }

    /// A hint names a linked page, and not the first.
    fn hinted(&self, agent: usize, hint: usize) -> Option<(Seen, Point)> {
        if hint == 0 || hint >= self.words.len() {
            return None;
        }
        let word = self.word(hint);
        Some((Seen::Word(agent, word), after_hinted_word(hint, word)))
    }

    /// Where the lowest bit is lost, the agent goes to the next point.
    fn cleared(&self, agent: usize, page: usize, mask: u32, next: Point) -> (Seen, Point) {
        let word = self.word(page);
        let id = mask.trailing_zeros();
        let bit = 1u32.wrapping_shl(id);
        if word & bit != 0 {
            (
                Seen::Pulled(agent, number(page, id)),
                Point::Taken(page, id),
            )
        } else {
            (Seen::Found(agent, word), next)
        }
    }

    /// A page that was asked by a hint is passed.
    fn followed(&self, agent: usize, page: usize, asked: Asked) -> (Seen, Point) {
        let next = page.saturating_add(1);
        if self.limit == Some(next) {
            (Seen::Refused(agent, PullError::Limit), Point::Ended)
        } else if asked == Some(next) {
            (Seen::Next(agent, true), Point::AtLink(next, asked))
        } else if next < self.words.len() {
            (Seen::Next(agent, true), Point::Reading(next, asked))
        } else {
            (Seen::Next(agent, false), Point::Making(page))
        }
    }

    fn linked(&self, agent: usize, page: usize) -> (Seen, Point) {
        let next = page.saturating_add(1);
        if next < self.words.len() {
            (Seen::Lost(agent), Point::Reading(next, None))
        } else {
            (Seen::Linked(agent), Point::Reading(next, None))
        }
    }

    /// What a step leaves in the pages, by its answer.
    fn change(&mut self, seen: Seen, point: Point) -> Result<(), AllocError> {
        match (seen, point) {
            (
                Seen::Pulled(_, _),
                Point::Clearing(page, mask, _) | Point::ClearingHinted(page, mask),
            ) => {
                if let Some(word) = self.words.get_mut(page) {
                    *word &= !1u32.wrapping_shl(mask.trailing_zeros());
                }
            }
            (Seen::Returned(_, _), Point::Home(page, id)) => {
                if let Some(word) = self.words.get_mut(page) {
                    *word |= 1u32.wrapping_shl(id);
                }
            }
            (Seen::MovedHome(_), Point::Holding(page, id, value)) => {
                let kept = self.reset.sum(value);
                if let Some(values) = self.values.get_mut(page) {
                    if let Some(place) = values.get_mut(id as usize) {
                        *place = kept;
                    }
                }
            }
            (Seen::Linked(_), Point::Linking(_, first)) => {
                self.words.push(FULL)?;
                self.values.push(row_from(first))?;
            }
            _ => {}
        }
        Ok(())
    }
}

/// The bits without the lowest one.
fn without_lowest(mask: u32) -> u32 {
    mask & !1u32.wrapping_shl(mask.trailing_zeros())
}

fn after_word(page: usize, mask: u32, asked: Asked) -> Point {
    if mask == 0 {
        Point::AtLink(page, asked)
    } else {
        Point::Clearing(page, mask, asked)
    }
}

fn after_hinted_word(hint: usize, mask: u32) -> Point {
    if mask == 0 {
        Point::AtLink(0, Some(hint))
    } else {
        Point::ClearingHinted(hint, mask)
    }
}

fn number(page: usize, id: u32) -> u128 {
    32 * page as u128 + u128::from(id)
}

/// 32 values, of which each is greater by 1 than the one before.
fn row_from(first: u32) -> [u32; 32] {
    let mut row = [0; 32];
    let mut value = first;
    for place in row.iter_mut() {
        *place = value;
        value = value.wrapping_add(1);
    }
    row
}
