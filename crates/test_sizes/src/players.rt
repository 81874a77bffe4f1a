//! Players that hold many items, and that take many turns.
use crate::cores::Linear;
use crate::numbers::{Numbers, PAGE_ITEMS};
use crate::wrong::Wrong;
use lockfree_object_pool::closures::Keep;
use object_pool_cores::sequential::{Command, LinearCore, Player, Reply};
use std::alloc::Global;

/// A player over a linear core.
type LinearPlayer = Player<u64, Linear>;

fn new_player(alloc: Global, numbers: &Numbers) -> Result<LinearPlayer, Wrong> {
    let core: Linear = LinearCore::new(alloc, numbers.share()?, Keep)?;
    Ok(Player::new(alloc, core))
}

/// Pulls so many items by a player in two rounds, each at the next index, and returns them.
///
/// # Errors
///
/// `Wrong` names what was seen and may not be.
pub fn hold(alloc: Global, pages: u16) -> Result<(), Wrong> {
    let numbers = Numbers::new(alloc)?;
    let mut player = new_player(alloc, &numbers)?;
    let items = u64::from(pages) * PAGE_ITEMS;
    for round in 0..2u64 {
        let first = round * items;
        for place in 0..items {
            pull(&mut player, first + place)?;
        }
        for place in 0..items {
            give(&mut player, first + place)?;
        }
    }
    numbers.expect_made(items)
}

/// Pulls an item by a player in each turn, at the turn's number, and returns it.
///
/// # Errors
///
/// `Wrong` names what was seen and may not be.
pub fn take_turns(alloc: Global, turns: u64) -> Result<(), Wrong> {
    let numbers = Numbers::new(alloc)?;
    let mut player = new_player(alloc, &numbers)?;
    for turn in 0..turns {
        pull(&mut player, turn)?;
        give(&mut player, turn)?;
    }
    numbers.expect_made(PAGE_ITEMS)
}

/// Pulls an item, which is held at this index.
fn pull(player: &mut LinearPlayer, index: u64) -> Result<(), Wrong> {
    match player.play(Command::Pull) {
        Ok(Reply::Pulled(at, _number)) if at == index as usize => Ok(()),
        _ => Err(Wrong::Reply(index)),
    }
}

/// Returns the item that is held at this index.
fn give(player: &mut LinearPlayer, index: u64) -> Result<(), Wrong> {
    match player.play(Command::Return(index as usize)) {
        Ok(Reply::Returned) => Ok(()),
        _ => Err(Wrong::Reply(index)),
    }
}
