//! What is drawn for a session: on which pool of which items how many calls are done.
use crate::dice::Dice;

/// The running pool, and with it the core that it is compared with.
#[derive(Clone, Copy, Debug)]
pub enum Kind {
    Linear,
    Mutex,
    SpinLock,
    None,
    Recycling,
    Buffers,
    /// The pages of a chain, each of which is asked by itself.
    Pages,
    Fixed,
}

/// The items.
#[derive(Clone, Copy, Debug)]
pub enum Element {
    Nothing,
    Number,
    Block,
    CountedNumber,
    CountedBlock,
}

/// A session: random calls on a new pool and a new core.
#[derive(Clone, Copy, Debug)]
pub struct Session {
    pub seed: u64,
    pub number: u64,
    pub kind: Kind,
    pub element: Element,
    /// How many pages there may be.
    pub limit: Option<usize>,
    pub calls: u64,
    /// How many items are held at most.
    pub most_held: usize,
    /// Whether `init` refuses now and then.
    pub refuses: bool,
    /// Whether an owner of the pool may be forgotten with its item, so that the pool never ends.
    pub forgets_owners: bool,
    /// Whether each item that comes is soon forgotten, so that the pool grows without end.
    pub grows: bool,
}

/// Draws the session with this number.
pub fn drawn(seed: u64, number: u64) -> Session {
    let mut dice = Dice::new(seed, number);
    let kind = drawn_kind(&mut dice);
    let element = drawn_element(&mut dice);
    let limit = drawn_limit(&mut dice);
    let most_held = drawn_most(&mut dice, element).min(most_asked(kind, limit));
    let refuses = dice.one_in(2);
    let forgets_owners = dice.one_in(16);
    Session {
        seed,
        number,
        kind,
        element,
        limit,
        calls: (most_held as u64).saturating_mul(4).saturating_add(500),
        most_held,
        refuses,
        forgets_owners: forgets_owners && !matches!(kind, Kind::Pages),
        grows: false,
    }
}

fn drawn_kind(dice: &mut Dice) -> Kind {
    match dice.below(18) {
        0..=4 => Kind::Linear,
        5..=6 => Kind::Mutex,
        7..=8 => Kind::SpinLock,
        9 => Kind::None,
        10 => Kind::Recycling,
        11..=12 => Kind::Buffers,
        13..=15 => Kind::Pages,
        _ => Kind::Fixed,
    }
}

fn drawn_element(dice: &mut Dice) -> Element {
    match dice.below(8) {
        0 => Element::Nothing,
        1..=2 => Element::Number,
        3 => Element::Block,
        4..=6 => Element::CountedNumber,
        _ => Element::CountedBlock,
    }
}

fn drawn_limit(dice: &mut Dice) -> Option<usize> {
    match dice.below(8) {
        0 => Some(1),
        1 => Some(2),
        2 => Some(3),
        3 => Some(70),
        4 => Some(usize::MAX),
        _ => None,
    }
}

/// How many items are held at most: mostly a page or two, now and then hundreds of pages.
fn drawn_most(dice: &mut Dice, element: Element) -> usize {
    match dice.below(16) {
        0..=9 => dice.below(100).saturating_add(1),
        10..=13 => dice.below(2_000).saturating_add(100),
        _ => match element {
            Element::Block | Element::CountedBlock => 3_000,
            _ => dice.below(9_000).saturating_add(3_000),
        },
    }
}

/// How many items are asked for at most: a few more than there may be.
fn most_asked(kind: Kind, limit: Option<usize>) -> usize {
    match (kind, limit) {
        (Kind::Linear | Kind::Buffers, Some(pages)) => pages.saturating_mul(32).saturating_add(8),
        _ => usize::MAX,
    }
}

/// Returns a session in which more pages are held than a row of links has. If 1,120,000 calls are
/// wanted, it comes to the twelfth row.
pub fn many_held(seed: u64, number: u64, calls: u64) -> Session {
    let most_held = (calls / 16).min(MOST_HELD);
    Session {
        kind: Kind::Linear,
        element: Element::CountedNumber,
        limit: None,
        calls: most_held.saturating_mul(18) / 7,
        most_held: most_held as usize,
        refuses: true,
        forgets_owners: false,
        ..drawn(seed, number)
    }
}

/// Returns a session in which a pool grows by half of so many calls, up to more than 65,536 pages.
pub fn many_pages(seed: u64, number: u64, calls: u64) -> Session {
    Session {
        kind: Kind::Linear,
        element: Element::Nothing,
        limit: Some(usize::MAX),
        calls: (calls / 2).min(MOST_CALLS_TO_GROW),
        most_held: 3,
        refuses: false,
        forgets_owners: false,
        grows: true,
        ..drawn(seed, number)
    }
}

/// The items of somewhat more than 2,048 pages.
const MOST_HELD: u64 = 70_000;

/// Calls of which half pull the items of somewhat more than 65,536 pages.
const MOST_CALLS_TO_GROW: u64 = 4_200_000;
