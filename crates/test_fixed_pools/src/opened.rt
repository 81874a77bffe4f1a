//! Pools of counted values, and how a row is played with one.
ghost use Rattle.std.specs.Prelude.{◌≤◌};

use crate::player::{FixedPlayer, Owned, Pool};
use fixed_pools::{FixedObjectPool, PullError};
use rows::row::first_difference;
use rows::setting::{Setting, function_objects};
use std::alloc::Global;
use std::process::Abort;
use std::sync::Arc;
use test_values::counted::NEVER;

/// Creates a pool of so many items.
///
/// # Errors
///
/// `Memory`, or `Init` if the setting's `init` refuses one of them.
pub fn opened(alloc: Global, setting: &Arc<Setting>, items: usize) -> Result<Arc<Pool>, PullError>
    requires { 1 ≤ items }
{
    let (init, reset) = function_objects(setting)?;
    Ok(Arc::new(alloc, FixedObjectPool::new(alloc, init, reset, items)?)?)
}

/// The last owned items of a pool come back. Nothing is dropped before the last of them, and then
/// all but what was forgotten, `init` and the reset too.
pub fn ends(rt: &impl Abort, owned: Vec<Owned>, setting: &Arc<Setting>, forgotten: usize) {
    for item in owned {
        assert_eq!(*rt; setting.tally.drops(), 0);
        drop(item);
    }
    let left = (setting.tally.living(), Arc::strong_count(setting));
    assert_eq!(*rt; left, (forgotten, 1));
}

/// Plays a row with a new pool of so many items, and ends the pool.
pub fn plays(
    rt: &(impl Abort + AllocGlobal),
    items: usize,
    commands: &'static str,
    answers: &'static str,
)
    requires { 1 ≤ items }
{
    let setting = Setting::new(rt.alloc(), NEVER).expect(rt, "memory is left");
    let pool = opened(rt.alloc(), &setting, items).expect(rt, "a pool is made");
    let player = FixedPlayer::new(rt.alloc(), &pool, &setting, items);
    let mut player = player.expect(rt, "memory is left");
    assert_eq!(*rt; first_difference(&mut player, commands, answers), None);
    let forgotten = player.forgotten;
    let owned = player.into_owned(rt.alloc()).expect(rt, "memory is left");
    drop(pool);
    ends(rt, owned, &setting, forgotten);
}
