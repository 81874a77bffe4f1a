//! Games: random commands to a fixed pool and to its model, which have to answer the same.
ghost use Rattle.std.specs.Prelude.{◌≤◌};

use crate::model::FixedModel;
use crate::opened::{ends, opened};
use crate::player::{FixedPlayer, Pool};
use fixed_pools::PullError;
use rows::game::{Beside, Trial, failing_list, replayed};
use rows::row::Command;
use rows::setting::Setting;
use std::alloc::{AllocError, Global};
use std::process::Abort;
use std::sync::Arc;
use test_values::counted::NEVER;
use test_values::sizes::SIZES;

type FixedGame<'p> = Beside<FixedPlayer<'p>, FixedModel>;

/// Games with pools of so many items.
#[derive(Clone, Copy)]
struct FixedTrial {
    alloc: Global,
    items: usize,
}

impl FixedTrial {
    /// A pool of so many items, at least one, and its setting.
    fn open(&self) -> Result<(Arc<Pool>, Arc<Setting>), PullError> {
        let setting = Setting::new(self.alloc, NEVER)?;
        let pool = opened(self.alloc, &setting, at_least_one(self.items))?;
        Ok((pool, setting))
    }

    fn game<'p>(
        &self,
        pool: &'p Arc<Pool>,
        setting: &'p Arc<Setting>,
    ) -> Result<FixedGame<'p>, AllocError> {
        Ok(Beside {
            player: FixedPlayer::new(self.alloc, pool, setting, self.items)?,
            model: FixedModel::new(self.alloc, pool.items())?,
        })
    }

    fn is_unfair(&self, list: &[Command]) -> Result<bool, PullError> {
        let (pool, setting) = self.open()?;
        let mut game = self.game(&pool, &setting)?;
        Ok(replayed(&mut game, list).is_some())
    }
}

/// Returns so many, or 1 in place of 0.
fn at_least_one(count: usize) -> usize
    ensures { 1 ≤ result }
{
    if count == 0 { 1 } else { count }
}

impl Trial for FixedTrial {
    fn fails(&self, list: &[Command]) -> bool {
        matches!(self.is_unfair(list), Ok(true))
    }
}

/// Plays a game with a pool of so many items, and ends the pool.
fn plays_a_game(rt: &(impl Abort + AllocGlobal), seed: u64, items: usize) {
    let alloc = rt.alloc();
    let trial = FixedTrial { alloc, items };
    let (pool, setting) = trial.open().expect(rt, "a pool is made");
    let mut game = trial.game(&pool, &setting).expect(rt, "memory is left");
    let steps = items.saturating_mul(3).saturating_add(400);
    let failing = failing_list(alloc, &mut game, (seed, steps), &trial);
    let failing = failing.expect(rt, "memory is left");
    assert!(*rt;
        failing.is_none(),
        "seed {seed}, {items} items: {failing:?}"
    );
    let player = game.into_player();
    let forgotten = player.forgotten;
    let owned = player.into_owned(alloc).expect(rt, "memory is left");
    drop(pool);
    ends(rt, owned, &setting, forgotten);
}

/// Round the ends of words, of lines of words, and past what 64 words count.
const GAMES: [usize; 15] = [
    1, 2, 31, 32, 33, 63, 64, 65, 127, 128, 129, 1_023, 1_024, 1_025, 2_049,
];

#[test]
fn a_fixed_pool_answers_as_its_model(rt: HostRuntime) {
    for items in GAMES {
        plays_a_game(&rt, 0, items);
        plays_a_game(&rt, 1, items);
    }
}

/// The greatest number of items that a test has time to pull twice: a tried test has a minute.
const MOST_PULLED_TWICE: usize = 65_537;

/// A pool of so many items hands out each once, then none, then each once again.
fn hands_out_each_once(rt: &(impl Abort + AllocGlobal), items: usize) {
    let trial = FixedTrial {
        alloc: rt.alloc(),
        items,
    };
    let (pool, setting) = trial.open().expect(rt, "a pool is made");
    let mut game = trial.game(&pool, &setting).expect(rt, "memory is left");
    let returned = if items > MOST_PULLED_TWICE { 0 } else { items };
    for (word, turns) in [
        ("pull", items.saturating_add(1)),
        ("return", returned),
        ("owned", returned.saturating_add(1)),
        ("counts", 1),
        ("owners", 1),
    ] {
        assert_eq!(*rt; game.first_unfair(word, 0, turns), None);
    }
}

#[test]
fn pools_of_many_sizes_hand_out_each_item_once(rt: HostRuntime) {
    for items in SIZES {
        if items > 0 {
            hands_out_each_once(&rt, items);
        }
    }
}

/// The pool that `init` refuses at this call, counted from 0, isn't made. What was made is dropped,
/// with `init` and the reset.
fn is_not_made(rt: &impl Abort, alloc: Global, made: usize) {
    let setting = Setting::new(alloc, made).expect(rt, "memory is left");
    let refusal = opened(alloc, &setting, 100).err();
    assert_eq!(*rt; refusal, Some(PullError::Init));
    let tally = &setting.tally;
    let seen = (tally.calls(), tally.living(), Arc::strong_count(&setting));
    assert_eq!(*rt; seen, (made.wrapping_add(1), 0, 1));
}

#[test]
fn init_that_refuses_stops_a_new_pool(rt: HostRuntime) {
    for made in 0..100usize {
        is_not_made(&rt, rt.alloc(), made);
    }
}

/// Holds with each request for memory refused in turn too.
#[test]
fn what_a_fixed_pool_owns_is_dropped_where_memory_was_refused(rt: HostRuntime) {
    let Ok(setting) = Setting::new(rt.alloc(), NEVER) else {
        return;
    };
    let refusal = opened(rt.alloc(), &setting, 34).err();
    assert!(rt; matches!(refusal, None | Some(PullError::Memory)));
    assert_eq!(rt;
        (setting.tally.living(), Arc::strong_count(&setting)),
        (0, 1)
    );
}
