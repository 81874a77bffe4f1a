//! Rows of events to a world of agents, and what no row can say of one.
mod cases;
mod drops;
mod player;
mod room;

use crate::assert_equal::assert_equal;
use crate::values::{Leaves, Resets, ends, made_tally, parted};
use object_pool_cores::interleave::World;
use player::{TalliedWorld, WorldPlayer, made_page};
use pool_parts::PullError;
use rows::row::first_difference;
use std::alloc::Global;
use std::process::Abort;
use std::sync::Arc;
use test_values::tally::Tally;

/// Creates a world of counted values, of at most so many pages where there is a limit. Its reset
/// makes each number one more.
fn new_world(
    alloc: Global,
    tally: &Arc<Tally>,
    limit: Option<usize>,
) -> Result<TalliedWorld, PullError> {
    let first = made_page(alloc, tally)?;
    let reset = Resets::new(tally, Leaves::OneMore)?;
    match limit {
        Some(pages) if pages > 0 => World::with_limit(alloc, first, reset, pages),
        _ => World::new(alloc, first, reset),
    }
}

/// Plays a row with a new world of at most so many pages, if there is a limit, and ends the world.
fn plays_in(rt: &(impl Abort + AllocGlobal), limit: Option<usize>, row: &'static str) {
    let (alloc, tally) = (rt.alloc(), made_tally(rt));
    let world = new_world(alloc, &tally, limit).expect(rt, "a world is made");
    let mut player = WorldPlayer::new(alloc, tally, world);
    let (commands, answers) = parted(row);
    let difference = first_difference(&mut player, commands, answers);
    assert_equal(rt, difference, None);
    let tally = player.tally;
    ends(rt, player.world, &tally);
}

/// Plays a row with a new world that has no limit, and ends the world.
fn plays(rt: &(impl Abort + AllocGlobal), row: &'static str) {
    plays_in(rt, None, row);
}
