//! Games: random commands to workers of a pool, each answer judged by their model.
use crate::assert_equal::assert_equal;
use crate::model::{Standing, Workers};
use crate::player::WorkerPlayer;
use crate::plays::{Hired, Kind, Room, is_left, workers_of};
use crate::pools::{Shared, fixed_of, lazy_of, linear_of};
use pool_model::book::{Book, Counts, new_book};
use pool_model::value::Value;
use pool_workers::WorkerPlace;
use rows::dice::Dice;
use rows::game::{Trial, Unfair, shrunk};
use rows::row::Command;
use std::process::Abort;
use std::sync::Arc;

/// Which game it is: the kind of pool, what workers have room for, and the seed. By an odd one a
/// pool that can be closed is closed.
#[derive(Clone, Copy, Debug, PartialEq, Eq)]
struct Setting {
    kind: Kind,
    rooms: &'static [Room],
    seed: u64,
}

/// An answer that no pool may give, or after which the pool doesn't stand as it is to.
#[derive(Clone, Copy, Debug, PartialEq, Eq)]
struct Wrong {
    unfair: Unfair,
    stands: Standing,
    wanted: Standing,
}

/// Workers of a pool beside their model.
#[derive(Drop)]
struct WorkerGame<'w, P: WorkerPlace<Value>, S> {
    player: WorkerPlayer<'w, P, S>,
    model: Workers,
    setting: Setting,
    /// Whether more is pulled than comes back.
    is_rising: bool,
}

impl<'w, P: WorkerPlace<Value>, S: Shared<P, P::Item>> WorkerGame<'w, P, S> {
    /// Draws the next command, of which this is the number.
    fn draw(&mut self, dice: &mut Dice, turn: usize) -> Command {
        let (held, items) = (self.model.held(), self.setting.kind.items());
        if held == 0 || dice.one_in(items.saturating_mul(4)) {
            self.is_rising = true;
        } else if held >= items && dice.one_in(8) {
            self.is_rising = false;
        }
        let closes = self.setting.seed % 2 == 1 && turn == items;
        let word = match dice.below(64) {
            _ if closes && self.model.is_lazy() => "close",
            0..=3 => "visit",
            4 => "refuse",
            5 | 6 => "allow",
            7 if self.model.is_lazy() => "reject",
            7..=9 => "accept",
            _ if dice.one_in(12) != self.is_rising => "pull",
            _ => "return",
        };
        let index = match word {
            "pull" => dice.below(self.setting.rooms.len()),
            _ if dice.one_in(16) => dice.below(held),
            _ => held.saturating_sub(dice.below(held.min(64)).saturating_add(1)),
        };
        Command {
            word,
            numbers: [index, 0, 0],
        }
    }

    /// Returns how the pool stands.
    fn standing(&self) -> Standing {
        let WorkerPlayer { pool, book, .. } = &self.player;
        Standing {
            counts: Counts {
                order: 0,
                ..book.counts()
            },
            owners: Arc::strong_count(book),
            counted: pool.counted(),
        }
    }

    /// Plays a command, and returns its answer if it is wrong.
    fn wrong(&mut self, command: Command) -> Option<Wrong> {
        let said = self.player.play(command);
        let is_fair = self.model.is_fair(command, said);
        let (stands, wanted) = (self.standing(), self.model.standing());
        if is_fair && stands == wanted {
            return None;
        }
        Some(Wrong {
            unfair: Unfair { command, said },
            stands,
            wanted,
        })
    }

    /// Plays so many commands: those of the list, and then drawn ones, which are added to it.
    fn first_wrong(&mut self, steps: usize, list: &mut Vec<Command>) -> Option<Wrong> {
        let mut dice = Dice::new(self.setting.seed);
        for turn in 0..steps {
            let command = match list.get(turn) {
                Some(command) => *command,
                None => self.draw(&mut dice, turn),
            };
            if turn == list.len() && list.push(command).is_err() {
                return None;
            }
            let wrong = self.wrong(command);
            if wrong.is_some() {
                return wrong;
            }
        }
        None
    }
}

/// Creates the game with new workers of a new pool.
fn game_of<'w, P: WorkerPlace<Value>, S: Shared<P, P::Item>>(
    rt: &(impl Abort + AllocGlobal),
    setting: Setting,
    pool: S,
    book: &'w Arc<Book>,
    workers: &'w [Hired<P>],
) -> WorkerGame<'w, P, S> {
    let player = WorkerPlayer::new(rt.alloc(), pool, book, workers);
    let mut model = Workers::new(rt.alloc(), setting.kind).expect(rt, "memory is left");
    for Hired { room, page, .. } in workers {
        let added = model.add(rt.alloc(), *room, *page);
        added.expect(rt, "memory is left");
    }
    WorkerGame {
        player: player.expect(rt, "memory is left"),
        model,
        setting,
        is_rising: true,
    }
}

/// Plays a game with new workers of a pool. If each answer was fair, it looks at what is left.
fn wrong_at<P: WorkerPlace<Value>, S: Shared<P, P::Item>>(
    rt: &(impl Abort + AllocGlobal),
    setting: Setting,
    pool: S,
    book: &Arc<Book>,
    steps: usize,
    list: &mut Vec<Command>,
) -> Option<Wrong> {
    let workers = workers_of(rt.alloc(), pool, setting.rooms).expect(rt, "memory is left");
    let mut game = game_of(rt, setting, pool, book, &workers);
    let wrong = game.first_wrong(steps, list);
    drop(game);
    drop(workers);
    if wrong.is_none() {
        is_left(rt, pool, book, setting.kind.items());
    }
    wrong
}

/// Plays a game on a new pool, and ends the pool.
fn played<R: Abort + AllocGlobal>(
    rt: &R,
    setting: Setting,
    steps: usize,
    list: &mut Vec<Command>,
) -> Option<Wrong> {
    let book = new_book(rt.alloc()).expect(rt, "memory is left");
    let found = match setting.kind {
        Kind::Fixed(items) => {
            let pool = fixed_of(rt.alloc(), &book, items.max(1)).expect(rt, "a pool is made");
            wrong_at(rt, setting, &pool, &book, steps, list)
        }
        Kind::Lazy(items) => {
            let pool = lazy_of(rt.alloc(), &book, items.max(1)).expect(rt, "a pool is made");
            wrong_at(rt, setting, &pool, &book, steps, list)
        }
        Kind::Linear(pages) => {
            let pool = linear_of(rt.alloc(), &book, pages.max(1)).expect(rt, "a pool is made");
            wrong_at(rt, setting, &pool, &book, steps, list)
        }
    };
    let owners = Arc::strong_count(&book);
    assert_equal(rt, found.is_some() || owners == 1, true);
    found
}

/// A game that may be played again.
#[derive(Drop)]
struct Again<'r, R: Abort + AllocGlobal> {
    rt: &'r R,
    setting: Setting,
}

impl<'r, R: Abort + AllocGlobal> Trial for Again<'r, R> {
    fn fails(&self, list: &[Command]) -> bool {
        let mut again = Vec::new(self.rt.alloc());
        let copied = again.extend_from_slice(list).is_ok();
        copied && played(self.rt, self.setting, list.len(), &mut again).is_some()
    }
}

/// Plays a game. Where an answer isn't fair, the test ends with as short a list as was found.
fn plays_a_game<R: Abort + AllocGlobal>(rt: &R, setting: Setting) {
    let mut list = Vec::new(rt.alloc());
    let steps = setting.kind.items().saturating_mul(2).saturating_add(200);
    let found = played(rt, setting, steps, &mut list);
    if found.is_some() {
        let list = shrunk(rt.alloc(), list, &Again { rt, setting });
        panic!(*rt; "{setting:?} {found:?} {list:?}");
    }
}

/// A worker that was made by `new`, and three with room for two items, for none and for many.
const ROOMS: [&'static [Room]; 2] = [&[None], &[Some(2), Some(0), Some(40)]];

/// Plays a game with one worker and a game with three. One of them closes the pool.
fn plays_games<R: Abort + AllocGlobal>(rt: &R, kind: Kind) {
    let mut seed = kind.items() as u64;
    for rooms in ROOMS {
        plays_a_game(rt, Setting { kind, rooms, seed });
        seed = seed.wrapping_add(1);
    }
}

/// Round the ends of pages, of rows of links and of words of hints.
const SIZES: [usize; 15] = [
    1, 2, 31, 32, 33, 63, 64, 65, 127, 128, 129, 1_023, 1_024, 1_025, 2_049,
];

#[test]
fn workers_of_a_fixed_pool_are_as_their_model(rt: HostRuntime) {
    for items in SIZES {
        plays_games(&rt, Kind::Fixed(items));
    }
}

#[test]
fn workers_of_a_lazy_pool_are_as_their_model(rt: HostRuntime) {
    for items in SIZES {
        plays_games(&rt, Kind::Lazy(items));
    }
}

#[test]
fn workers_of_a_linear_pool_are_as_their_model(rt: HostRuntime) {
    for pages in [1usize, 2, 3, 4, 5, 32, 33, 64, 65] {
        plays_games(&rt, Kind::Linear(pages));
    }
}
