//! Pools of counted values, and how a row is played with one.
use crate::player::{LinearPlayer, Owned, Pool};
use linear_pools::{LinearObjectPool, PullError};
use rows::row::first_difference;
use rows::setting::{Setting, function_objects};
use std::alloc::Global;
use std::process::Abort;
use std::sync::Arc;
use test_values::counted::NEVER;

/// Creates a pool that may have so many pages, or any number if it is 0.
///
/// # Errors
///
/// `Memory`, or `Init` if `init` refuses one of the first 32 calls.
pub fn opened(alloc: Global, setting: &Arc<Setting>, limit: usize) -> Result<Arc<Pool>, PullError> {
    let (init, reset) = function_objects(setting)?;
    let pool = if limit == 0 {
        LinearObjectPool::new(alloc, init, reset)?
    } else {
        LinearObjectPool::with_limit(alloc, init, reset, limit)?
    };
    Ok(Arc::new(alloc, pool)?)
}

/// The last owned items of a pool come back. Nothing more is dropped before the last of them, and
/// then all but what was forgotten, `init` and the reset too.
pub fn ends(rt: &impl Abort, owned: Vec<Owned>, setting: &Arc<Setting>, forgotten: usize) {
    let dropped = setting.tally.drops();
    for item in owned {
        assert_eq!(*rt; setting.tally.drops(), dropped);
        drop(item);
    }
    let left = (setting.tally.living(), Arc::strong_count(setting));
    assert_eq!(*rt; left, (forgotten, 1));
}

/// Plays a row with a new pool that may have so many pages, or any number if it is 0, and ends the
/// pool.
pub fn plays(
    rt: &(impl Abort + AllocGlobal),
    limit: usize,
    commands: &'static str,
    answers: &'static str,
) {
    plays_often(rt, limit, 1, commands, answers);
}

/// Plays a row so often with one pool.
pub fn plays_often(
    rt: &(impl Abort + AllocGlobal),
    limit: usize,
    rounds: usize,
    commands: &'static str,
    answers: &'static str,
) {
    let setting = Setting::new(rt.alloc(), NEVER).expect(rt, "memory is left");
    let pool = opened(rt.alloc(), &setting, limit).expect(rt, "a pool is made");
    let player = LinearPlayer::new(rt.alloc(), &pool, &setting, 0);
    let mut player = player.expect(rt, "memory is left");
    for _ in 0..rounds {
        assert_eq!(*rt; first_difference(&mut player, commands, answers), None);
    }
    let forgotten = player.forgotten;
    let owned = player.into_owned(rt.alloc()).expect(rt, "memory is left");
    drop(pool);
    ends(rt, owned, &setting, forgotten);
}
