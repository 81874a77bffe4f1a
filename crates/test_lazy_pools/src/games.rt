//! Games with lazy pools of many sizes.
use crate::game::{LazyGame, Standing};
use crate::hand::Hand;
use crate::plan::Plan;
use crate::plays::{ends, player_of, pool_of};
use pool_model::book::new_book;
use pool_model::model::Model;
use rows::dice::Dice;
use rows::game::{Trial, Unfair, played, replayed, shrunk};
use rows::row::Command;
use std::cell::Cell;
use std::process::Abort;
use std::sync::Wait;
use std::time::Clock;

/// Round the ends of words, of rows of words, and past what 64 words count.
const SIZES: [usize; 16] = [
    1, 2, 3, 31, 32, 33, 63, 64, 65, 127, 128, 129, 1_023, 1_024, 1_025, 2_049,
];

/// Which game it is: how many items the pool has, and the seed. Each second one is lean, and of four
/// two close their pool.
#[derive(Clone, Copy, Debug, PartialEq, Eq)]
struct Setting {
    items: usize,
    seed: u64,
}

/// How a game ended: what wasn't fair, how the pool stood then, and how it was to stand.
#[derive(Clone, Copy, Debug, PartialEq, Eq)]
struct Outcome {
    unfair: Option<Unfair>,
    stands: Standing,
    wanted: Standing,
}

/// Plays so many commands that are drawn, or if that is none, this list, on a new pool. Looks at what
/// the pool leaves at its end.
fn outcome_of<R: Abort + Wait + Clock + AllocGlobal>(
    rt: &R,
    setting: Setting,
    steps: usize,
    list: &mut Vec<Command>,
) -> Outcome {
    let (alloc, items) = (rt.alloc(), setting.items.max(1));
    let book = new_book(alloc).expect(rt, "memory is left");
    let pool = pool_of(alloc, &book, items).expect(rt, "a pool is made");
    let model = Model::new(alloc, items, 1).expect(rt, "memory is left");
    let hand = Hand::new(alloc, items).expect(rt, "memory is left");
    let closes = if setting.seed % 4 < 2 {
        steps
    } else {
        steps / 4 * 3
    };
    let plan = Plan::new(alloc, setting.seed % 2 == 0, closes);
    let seen = Cell::new(0);
    let player = player_of(rt, alloc, &pool, &book, &seen).expect(rt, "memory is left");
    let mut game = LazyGame::new(player, model, hand, plan);
    let unfair = if steps == 0 {
        replayed(&mut game, list)
    } else {
        let mut dice = Dice::new(setting.seed);
        played(&mut game, &mut dice, steps, list).expect(rt, "memory is left")
    };
    let (stands, wanted) = (game.standing(), game.expected());
    let last = game.player.last_owned();
    drop(game);
    assert!(*rt;
        ends(pool, &book, last, 0) || unfair.is_some(),
        "{setting:?}"
    );
    Outcome {
        unfair,
        stands,
        wanted,
    }
}

/// A game that may be played again.
#[derive(Drop)]
struct Again<'r, R: Abort + Wait + Clock + AllocGlobal> {
    rt: &'r R,
    setting: Setting,
}

impl<'r, R: Abort + Wait + Clock + AllocGlobal> Trial for Again<'r, R> {
    fn fails(&self, list: &[Command]) -> bool {
        let mut again = Vec::new(self.rt.alloc());
        let copied = again.extend_from_slice(list).is_ok();
        copied
            && outcome_of(self.rt, self.setting, 0, &mut again)
                .unfair
                .is_some()
    }
}

/// Returns as short a list as fails.
fn shortest<R: Abort + Wait + Clock + AllocGlobal>(
    rt: &R,
    setting: Setting,
    list: Vec<Command>,
) -> Vec<Command> {
    let again = Again { rt, setting };
    shrunk(rt.alloc(), list, &again).expect(rt, "memory is left")
}

/// Ends the test, and shows this list, which fails, and how it ends.
fn show<R: Abort + Wait + Clock + AllocGlobal>(rt: &R, setting: Setting, list: Vec<Command>) {
    let mut list = shortest(rt, setting, list);
    let Outcome {
        unfair,
        stands,
        wanted,
    } = outcome_of(rt, setting, 0, &mut list);
    assert!(*rt;
        false,
        "{setting:?} {list:?} {unfair:?} {stands:?} {wanted:?}"
    );
}

/// Plays a game. A list that fails is shown as short as can be.
fn plays_a_game<R: Abort + Wait + Clock + AllocGlobal>(rt: &R, items: usize, seed: u64) {
    let setting = Setting { items, seed };
    let mut list = Vec::new(rt.alloc());
    let steps = items.saturating_mul(3).saturating_add(400);
    if outcome_of(rt, setting, steps, &mut list).unfair.is_some() {
        show(rt, setting, list);
    }
}

#[test]
fn a_lazy_pool_is_as_its_model(rt: HostRuntime) {
    for items in SIZES {
        for seed in 0..4u64 {
            plays_a_game(&rt, items, seed);
        }
    }
}
