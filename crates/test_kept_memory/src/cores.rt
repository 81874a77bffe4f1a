//! Turns on pools of one owner, and on players of commands on them.
use crate::observer::Turns;
use crate::supply::{Buffer, Supply, refused};
use lockfree_object_pool::PullError;
use lockfree_object_pool::clean::AnyValue;
use lockfree_object_pool::closures::Keep;
use lockfree_object_pool::page::PAGE_ITEMS;
use object_pool_cores::sequential::{
    Command, LinearCore, NoneCore, Player, SequentialPool, StackCore,
};
use std::alloc::Global;
use std::sync::Wait;

type Linear = LinearCore<Buffer, Supply, Keep, AnyValue>;

type Stack = StackCore<Buffer, Supply, Keep, AnyValue>;

type Fresh = NoneCore<Buffer, Supply>;

/// What is done in a turn.
#[derive(Drop)]
pub enum Kind {
    LinearRefuses,
    StackRefuses,
    LinearPlayerEnds,
    StackPlayerEnds,
    FreshPlayerEnds,
}

/// Each kind, and how its line begins.
pub const KINDS: [(&str, Kind); 5] = [
    ("refused pulls of a linear core", Kind::LinearRefuses),
    ("refused pulls of a stack core", Kind::StackRefuses),
    ("players on linear cores", Kind::LinearPlayerEnds),
    ("players on stack cores", Kind::StackPlayerEnds),
    ("players on cores that keep nothing", Kind::FreshPlayerEnds),
];

impl Turns for Kind {
    fn take<W: Wait + Copy>(&self, _rt: &W, alloc: Global, turns: usize) -> Option<()> {
        match self {
            Kind::LinearRefuses => linear_refuses(alloc, turns),
            Kind::StackRefuses => stack_refuses(alloc, turns),
            Kind::LinearPlayerEnds => linear_player_ends(alloc, turns),
            Kind::StackPlayerEnds => stack_player_ends(alloc, turns),
            Kind::FreshPlayerEnds => fresh_player_ends(alloc, turns),
        }
    }
}

/// A linear core refuses each pull while its page is full.
fn linear_refuses(alloc: Global, turns: usize) -> Option<()> {
    let supply = Supply::endless(alloc)?;
    let mut core: Linear = LinearCore::new(alloc, supply.share()?, Keep).ok()?;
    let mut held = Vec::with_capacity(alloc, PAGE_ITEMS).ok()?;
    for _ in 0..PAGE_ITEMS {
        held.push(core.pull().ok()?).ok()?;
    }
    pages_are_refused(&mut core, &supply, turns)
}

/// A core refuses each pull, after it has made any number of a page's items.
fn pages_are_refused(core: &mut Linear, supply: &Supply, turns: usize) -> Option<()> {
    for turn in 0..turns {
        supply.end_after(turn % PAGE_ITEMS);
        refused(core.pull(), PullError::Init)?;
    }
    Some(())
}

/// A stack core refuses each pull, after it has made a room.
fn stack_refuses(alloc: Global, turns: usize) -> Option<()> {
    let supply = Supply::endless(alloc)?;
    let mut core: Stack = StackCore::new(alloc, supply.share()?, Keep);
    supply.end_after(0);
    for _ in 0..turns {
        refused(core.pull(), PullError::Init)?;
    }
    Some(())
}

/// A player ends, on a linear core.
fn linear_player_ends(alloc: Global, turns: usize) -> Option<()> {
    let supply = Supply::endless(alloc)?;
    for _ in 0..turns {
        let core: Linear = LinearCore::new(alloc, supply.share()?, Keep).ok()?;
        play(Player::new(alloc, core), &supply)?;
    }
    Some(())
}

/// A player ends, on a stack core.
fn stack_player_ends(alloc: Global, turns: usize) -> Option<()> {
    let supply = Supply::endless(alloc)?;
    for _ in 0..turns {
        let core: Stack = StackCore::new(alloc, supply.share()?, Keep);
        play(Player::new(alloc, core), &supply)?;
    }
    Some(())
}

/// A player ends, on a core that keeps nothing.
fn fresh_player_ends(alloc: Global, turns: usize) -> Option<()> {
    let supply = Supply::endless(alloc)?;
    for _ in 0..turns {
        let core: Fresh = NoneCore::new(supply.share()?);
        play(Player::new(alloc, core), &supply)?;
    }
    Some(())
}

/// Items are pulled, written, forgotten, attached, returned, and held at the player's end.
fn play<P: SequentialPool<Buffer> + Drop>(
    mut player: Player<Buffer, P>,
    supply: &Supply,
) -> Option<()> {
    for _ in 0..4 {
        player.play(Command::Pull).ok()?;
    }
    player.play(Command::Write(0, supply.buffer()?)).ok()?;
    player.play(Command::Forget(1)).ok()?;
    player.play(Command::Attach(supply.buffer()?)).ok()?;
    player.play(Command::Return(2)).ok()?;
    Some(())
}
