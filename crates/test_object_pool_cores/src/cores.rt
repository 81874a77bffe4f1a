//! Rows of commands to cores with one owner, and to players on them.
mod linear;
mod made_whole;
mod opening;
mod pages;
mod player;
mod stack_and_fresh;

use crate::assert_equal::assert_equal;
use crate::values::{ends, made_tally, parted};
use object_pool_cores::sequential::{Player, SequentialPool};
use opening::{Opening, Opens};
use player::{CorePlayer, Held, Holds};
use rows::row::first_difference;
use std::process::Abort;
use std::sync::Arc;
use test_values::tallied::Tallied;
use test_values::tally::Tally;

/// Plays a row on a pool, and ends the pool with what is held of it.
fn plays<H: Holds + Drop>(
    rt: &(impl Abort + AllocGlobal),
    tally: Arc<Tally>,
    pool: H,
    row: &'static str,
) {
    let mut player = CorePlayer::new(rt.alloc(), tally, pool);
    let (commands, answers) = parted(row);
    let difference = first_difference(&mut player, commands, answers);
    assert_equal(rt, difference, None);
    let CorePlayer { pool, tally, .. } = player;
    ends(rt, pool, &tally);
}

/// Plays a row by the own calls of a new core.
fn on_core<C: SequentialPool<Tallied> + Opens + Drop>(
    rt: &(impl Abort + AllocGlobal),
    opening: Opening,
    row: &'static str,
) {
    let (alloc, tally) = (rt.alloc(), made_tally(rt));
    let core = C::open(alloc, &tally, opening).expect(rt, "a core is made");
    plays(rt, tally, Held::new(alloc, core), row);
}

/// Plays a row by a player on a new core.
fn on_player<C: SequentialPool<Tallied> + Opens + Drop>(
    rt: &(impl Abort + AllocGlobal),
    opening: Opening,
    row: &'static str,
) {
    let (alloc, tally) = (rt.alloc(), made_tally(rt));
    let core = C::open(alloc, &tally, opening).expect(rt, "a core is made");
    plays(rt, tally, Player::new(alloc, core), row);
}

/// Plays a row in both ways.
fn on_both<C: SequentialPool<Tallied> + Opens + Drop>(
    rt: &(impl Abort + AllocGlobal),
    opening: Opening,
    row: &'static str,
) {
    on_core::<C>(rt, opening, row);
    on_player::<C>(rt, opening, row);
}
