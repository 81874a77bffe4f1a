//! Games: random commands to a chain of pages and to its model, which have to answer the same.
use crate::assert_equal::assert_equal;
use crate::model::Model;
use crate::player::{Maker, Owned, PagePlayer, Pages};
use page_chain::linear_page::Chain;
use pool_parts::PullError;
use pool_parts::clean::AnyValue;
use pool_parts::page::Page;
use rows::dice::Dice;
use rows::game::{Game, Trial, Unfair, played, replayed, shrunk};
use rows::row::{Command, Player, first_difference};
use rows::said::Said;
use std::alloc::{AllocError, Global};
use std::process::Abort;
use std::sync::Arc;
use std::sync::atomic::AtomicUsize;
use test_values::counted::NEVER;
use test_values::tallied::Tallied;
use test_values::tally::new_tally;

/// Creates what makes values, and refuses one call, counted from 0.
fn maker(alloc: Global, refused: usize) -> Result<Maker, PullError> {
    Ok(Maker {
        tally: new_tally(alloc)?,
        refused: AtomicUsize::new(refused),
    })
}

fn opened(alloc: Global, maker: &Maker) -> Result<Pages, PullError> {
    Chain::new(alloc, &|| maker.make())
}

/// A chain ended but for the owned slots of its pages, which drop their values.
fn ends(rt: &impl Abort, maker: &Maker, owned: Vec<Owned>) {
    assert_equal(rt, maker.tally.living() >= owned.len(), true);
    drop(owned);
    let left = (maker.tally.living(), Arc::strong_count(&maker.tally));
    assert_equal(rt, left, (0, 1));
}

/// Plays a row with a new chain, which ends then. Returns what made its values, and the owned slots
/// that are left of it.
pub fn left_by(
    rt: &(impl Abort + AllocGlobal),
    commands: &'static str,
    answers: &'static str,
) -> (Maker, Vec<Owned>) {
    let maker = maker(rt.alloc(), NEVER).expect(rt, "memory is left");
    let chain = opened(rt.alloc(), &maker).expect(rt, "a chain is made");
    let player = PagePlayer::new(rt.alloc(), &chain, &maker);
    let mut player = player.expect(rt, "memory is left");
    assert_equal(rt, first_difference(&mut player, commands, answers), None);
    let owned = player.into_owned(rt.alloc()).expect(rt, "memory is left");
    drop(chain);
    (maker, owned)
}

/// Plays a row with a new chain, which ends then.
pub fn plays(rt: &(impl Abort + AllocGlobal), commands: &'static str, answers: &'static str) {
    let (maker, owned) = left_by(rt, commands, answers);
    ends(rt, &maker, owned);
}

/// A chain and its model.
#[derive(Drop)]
struct PageGame<'c> {
    player: PagePlayer<'c>,
    model: Model,
    /// How many pages are known at most.
    most: usize,
}

/// Commands with a page. The last two may make one.
const OF_PAGES: [&str; 12] = [
    "take",
    "try",
    "take",
    "walk_within",
    "owned_within",
    "next",
    "pair",
    "mask",
    "take",
    "walk",
    "owned",
    "grow",
];

/// Commands with a held item.
const OF_ITEMS: [&str; 8] = [
    "free", "free", "free", "free", "again", "after", "write", "drop",
];

/// Draws one of these words.
fn word_of(dice: &mut Dice, words: &[&'static str]) -> &'static str {
    let place = dice.below(words.len());
    words.get(place).copied().unwrap_or("mask")
}

impl<'c> PageGame<'c> {
    fn into_player(self) -> PagePlayer<'c> {
        self.player
    }
}

impl<'c> Player for PageGame<'c> {
    fn play(&mut self, command: Command) -> Said {
        self.player.play(command)
    }
}

impl<'c> Game for PageGame<'c> {
    fn draw(&mut self, dice: &mut Dice) -> Command {
        let known = self.model.known();
        if dice.one_in(40) {
            return Command {
                word: "refuse",
                numbers: [dice.below(70), 0, 0],
            };
        }
        if dice.one_in(3) {
            let word = word_of(dice, &OF_ITEMS);
            return Command {
                word,
                numbers: [dice.below(self.model.held()), dice.below(1_000_000), 0],
            };
        }
        // mostly the last pages, which have free items
        let page = if dice.one_in(2) {
            dice.below(known)
        } else {
            known.saturating_sub(dice.below(3).saturating_add(1))
        };
        let word = word_of(dice, &OF_PAGES);
        let is_enough = known >= self.most && (word == "grow" || word == "walk" || word == "owned");
        Command {
            word: if is_enough { "mask" } else { word },
            numbers: [page, dice.below(4), 0],
        }
    }

    fn is_fair(&mut self, command: Command, said: Said) -> bool {
        if said != self.model.play(command) {
            return false;
        }
        for word in ["counts", "mask"] {
            let asked = Command {
                word,
                numbers: [command.numbers[0], 0, 0],
            };
            if self.player.play(asked) != self.model.play(asked) {
                return false;
            }
        }
        true
    }
}

/// A game with chains of so many pages, which is played anew for each list.
#[derive(Drop)]
struct PageTrial {
    alloc: Global,
    most: usize,
}

impl PageTrial {
    fn game<'c>(&self, chain: &'c Pages, maker: &'c Maker) -> Result<PageGame<'c>, AllocError> {
        Ok(PageGame {
            player: PagePlayer::new(self.alloc, chain, maker)?,
            model: Model::new(self.alloc)?,
            most: self.most,
        })
    }

    fn difference(&self, list: &[Command]) -> Result<Option<Unfair>, PullError> {
        let maker = maker(self.alloc, NEVER)?;
        let chain = opened(self.alloc, &maker)?;
        let mut game = self.game(&chain, &maker)?;
        Ok(replayed(&mut game, list))
    }
}

impl Trial for PageTrial {
    fn fails(&self, list: &[Command]) -> bool {
        matches!(self.difference(list), Ok(Some(_)))
    }
}

/// Plays a game with a chain of so many pages, which ends then. Where an answer isn't fair, the
/// test ends with the shortest list that was found.
fn plays_a_game(rt: &(impl Abort + AllocGlobal), seed: u64, most: usize) {
    let alloc = rt.alloc();
    let trial = PageTrial { alloc, most };
    let maker = maker(alloc, NEVER).expect(rt, "memory is left");
    let chain = opened(alloc, &maker).expect(rt, "a chain is made");
    let mut game = trial.game(&chain, &maker).expect(rt, "memory is left");
    let mut list = Vec::new(alloc);
    let mut dice = Dice::new(seed);
    let steps = most.saturating_mul(20).saturating_add(1_000);
    let unfair = played(&mut game, &mut dice, steps, &mut list).expect(rt, "memory is left");
    if unfair.is_some() {
        let list = shrunk(alloc, list, &trial).expect(rt, "memory is left");
        let found = trial.difference(&list).expect(rt, "memory is left");
        panic!(*rt; "seed {seed}, {most} pages: {found:?} at the end of {list:?}");
    }
    let player = game.into_player();
    let owned = player.into_owned(alloc).expect(rt, "memory is left");
    drop(chain);
    ends(rt, &maker, owned);
}

#[test]
fn a_chain_answers_as_its_model(rt: HostRuntime) {
    for most in [1usize, 2, 3, 4, 5, 33, 65, 130] {
        plays_a_game(&rt, 0, most);
        plays_a_game(&rt, 1, most);
    }
}

/// A chain or a page of which a call is refused, counted from 0, isn't made. What was made is
/// dropped.
fn is_not_made(rt: &(impl Abort + AllocGlobal), is_chain: bool, call: usize) {
    let maker = maker(rt.alloc(), call).expect(rt, "memory is left");
    let refusal = if is_chain {
        opened(rt.alloc(), &maker).err()
    } else {
        Page::<Tallied, AnyValue>::new(rt.alloc(), &|| maker.make()).err()
    };
    let seen = (refusal, maker.tally.now());
    assert_equal(
        rt,
        seen,
        (Some(PullError::Init), (call.wrapping_add(1), call)),
    );
}

#[test]
fn a_chain_that_init_refuses_at_any_call_is_not_made(rt: HostRuntime) {
    for call in 0..32usize {
        is_not_made(&rt, true, call);
    }
}

#[test]
fn init_that_refuses_stops_a_new_page(rt: HostRuntime) {
    for call in 0..32usize {
        is_not_made(&rt, false, call);
    }
}
