//! Games: random commands to a linear pool and to its model, which have to answer the same.
use crate::model::LinearModel;
use crate::opened::{ends, opened};
use crate::player::{LinearPlayer, Pool};
use linear_pools::PullError;
use rows::game::{Beside, Trial, failing_list, replayed};
use rows::row::Command;
use rows::setting::Setting;
use std::alloc::{AllocError, Global};
use std::process::Abort;
use std::sync::Arc;
use test_values::counted::NEVER;

type LinearGame<'p> = Beside<LinearPlayer<'p>, LinearModel>;

/// Games with pools that may have so many pages and of which so many items are held at most.
#[derive(Clone, Copy)]
struct LinearTrial {
    alloc: Global,
    limit: usize,
    most: usize,
}

impl LinearTrial {
    fn open(&self) -> Result<(Arc<Pool>, Arc<Setting>), PullError> {
        let setting = Setting::new(self.alloc, NEVER)?;
        Ok((opened(self.alloc, &setting, self.limit)?, setting))
    }

    fn game<'p>(
        &self,
        pool: &'p Arc<Pool>,
        setting: &'p Arc<Setting>,
    ) -> Result<LinearGame<'p>, AllocError> {
        Ok(Beside {
            player: LinearPlayer::new(self.alloc, pool, setting, self.most)?,
            model: LinearModel::new(self.alloc, self.limit, self.most)?,
        })
    }

    fn is_unfair(&self, list: &[Command]) -> Result<bool, PullError> {
        let (pool, setting) = self.open()?;
        let mut game = self.game(&pool, &setting)?;
        Ok(replayed(&mut game, list).is_some())
    }
}

impl Trial for LinearTrial {
    fn fails(&self, list: &[Command]) -> bool {
        matches!(self.is_unfair(list), Ok(true))
    }
}

/// Plays a game with a pool that may have so many pages and of which so many items are held at
/// most, and ends the pool.
fn plays_a_game(rt: &(impl Abort + AllocGlobal), seed: u64, limit: usize, most: usize) {
    let alloc = rt.alloc();
    let trial = LinearTrial { alloc, limit, most };
    let (pool, setting) = trial.open().expect(rt, "a pool is made");
    let mut game = trial.game(&pool, &setting).expect(rt, "memory is left");
    let steps = most.saturating_mul(3).saturating_add(400);
    let failing = failing_list(alloc, &mut game, (seed, steps), &trial);
    let failing = failing.expect(rt, "memory is left");
    assert!(*rt;
        failing.is_none(),
        "seed {seed}, {limit} pages, {most} items: {failing:?}"
    );
    let player = game.into_player();
    let forgotten = player.forgotten;
    let owned = player.into_owned(alloc).expect(rt, "memory is left");
    drop(pool);
    ends(rt, owned, &setting, forgotten);
}

/// How many items are held: round the ends of pages, of rows of links and of words of hints.
const SIZES: [usize; 15] = [
    1, 2, 31, 32, 33, 63, 64, 65, 127, 128, 129, 1_023, 1_024, 1_025, 2_049,
];

#[test]
fn a_linear_pool_answers_as_its_model(rt: HostRuntime) {
    for most in SIZES {
        plays_a_game(&rt, 0, 0, most);
        plays_a_game(&rt, 1, 0, most);
    }
}

#[test]
fn a_linear_pool_with_a_limit_answers_as_its_model(rt: HostRuntime) {
    for pages in [1usize, 2, 3, 4, 5, 33, 64, 65] {
        plays_a_game(&rt, 2, pages, pages.saturating_mul(32));
        plays_a_game(&rt, 3, pages, pages.saturating_mul(32));
    }
}

/// A pull past the first page, where `init` refuses the call of this number for the page. What was
/// made is dropped, what is held is as before, and the next pull makes the page.
fn growth_is_met(rt: &(impl Abort + AllocGlobal), made: usize) {
    let trial = LinearTrial {
        alloc: rt.alloc(),
        limit: 0,
        most: 34,
    };
    let (pool, setting) = trial.open().expect(rt, "a pool is made");
    let mut game = trial.game(&pool, &setting).expect(rt, "memory is left");
    for (word, first, turns) in [
        ("pull", 0, 32),
        ("refuse", made, 1),
        ("pull", 0, 1),
        ("counts", 0, 1),
        ("look", 0, 32),
        ("pull", 0, 1),
    ] {
        assert_eq!(*rt; game.first_unfair(word, first, turns), None);
    }
    assert_eq!(*rt; setting.tally.now(), (made.wrapping_add(65), made));
}

#[test]
fn a_growth_that_init_refuses_at_any_call_is_met_by_the_next_pull(rt: HostRuntime) {
    for made in 0..32usize {
        growth_is_met(&rt, made);
    }
}

/// The pool that `init` refuses at this call, counted from 0, isn't made. What was made is dropped,
/// with `init` and the reset.
fn is_not_made(rt: &impl Abort, alloc: Global, made: usize) {
    let setting = Setting::new(alloc, made).expect(rt, "memory is left");
    let refusal = opened(alloc, &setting, 0).err();
    assert_eq!(*rt; refusal, Some(PullError::Init));
    let tally = &setting.tally;
    let seen = (tally.calls(), tally.living(), Arc::strong_count(&setting));
    assert_eq!(*rt; seen, (made.wrapping_add(1), 0, 1));
}

#[test]
fn a_linear_pool_that_init_refuses_at_any_call_is_not_made(rt: HostRuntime) {
    for made in 0..32usize {
        is_not_made(&rt, rt.alloc(), made);
    }
}
