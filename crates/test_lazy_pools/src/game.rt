//! A game with a lazy pool: a player, and a plain model that judges each of its answers. After each
//! command all that can be asked is compared.
use crate::hand::{Hand, Held};
use crate::plan::Plan;
use crate::player::LazyPlayer;
use crate::timed::{Event, Expected, Looks, NO_TIME_LEFT};
use lazy_pools::PullError;
use pool_model::book::Counts;
use pool_model::model::Model;
use rows::dice::Dice;
use rows::game::Game;
use rows::row::{Command, Player};
use rows::said::Said;
use std::sync::{Arc, Wait};
use std::time::Clock;

/// All that can be asked of a pool between two calls.
#[derive(Clone, Copy, Debug, PartialEq, Eq)]
pub struct Standing {
    items: usize,
    made: usize,
    in_use: usize,
    waiting: usize,
    is_closed: bool,
    owners: usize,
    counts: Counts,
    /// How many own the book: the game, the pool's closures, and the values.
    books: usize,
}

/// A player with its model.
#[derive(Drop)]
pub struct LazyGame<'p, R: Wait + Clock> {
    pub player: LazyPlayer<'p, R>,
    pub model: Model,
    pub hand: Hand,
    /// How often a place near a page was asked for.
    nears: usize,
    /// The page at which the next pull near one begins.
    near_page: usize,
    pub event: Event,
    /// The clock of the next timed pull that waits.
    pub clock: Looks,
    pub plan: Plan,
}

impl<'p, R: Wait + Clock> LazyGame<'p, R> {
    /// Creates the game of a player of a new pool, who holds nothing yet.
    pub fn new(player: LazyPlayer<'p, R>, model: Model, hand: Hand, plan: Plan) -> LazyGame<'p, R> {
        LazyGame {
            player,
            model,
            hand,
            nears: 0,
            near_page: 0,
            event: Event::Nothing,
            clock: NO_TIME_LEFT,
            plan,
        }
    }

    /// Returns how the pool stands.
    pub fn standing(&self) -> Standing {
        let LazyPlayer { pool, book, .. } = &self.player;
        Standing {
            items: pool.items(),
            made: pool.made(),
            in_use: pool.in_use(),
            waiting: pool.waiting(),
            is_closed: pool.is_closed(),
            owners: Arc::strong_count(pool),
            counts: book.counts(),
            books: Arc::strong_count(book),
        }
    }

    /// Returns how it is to stand.
    pub fn expected(&self) -> Standing {
        let model = &self.model;
        Standing {
            items: model.items(),
            made: if self.plan.is_lean {
                self.hand.most()
            } else {
                model.most()
            },
            in_use: model.held(),
            waiting: 0,
            is_closed: model.is_closed(),
            owners: self
                .hand
                .owned()
                .saturating_add(self.event.owners())
                .saturating_add(1),
            counts: model.counts,
            books: model.existing().saturating_add(3),
        }
    }

    /// Notes an item that was pulled. Returns whether it wasn't held.
    pub fn hold(&mut self, number: usize, serial: usize, is_owned: bool) -> bool {
        let held = Held {
            number,
            serial,
            is_owned,
        };
        self.hand.hold(held, self.model.held())
    }

    /// An item leaves by this word.
    pub fn leaves(&mut self, word: &str, held: Held) {
        match word {
            "return" | "give_back" | "reset_first" => {
                let rejects = self.player.book.rejects();
                self.model.give_back(held.number, rejects);
            }
            _ => self.model.discard(held.number),
        }
    }

    /// Whether a pull may come to this.
    fn is_fair_pull(&mut self, word: &'static str, said: Said) -> bool {
        let by_init = !word.contains("with");
        let is_timed = word.contains("timed");
        let mut expected = Expected::at_once(self.model.refusal());
        if is_timed && expected.refusal == Some(PullError::Limit) {
            expected = self.waits();
            self.clock = Looks {
                at: self.clock.at,
                ..NO_TIME_LEFT
            };
        }
        let watch = &self.player.watch;
        if expected.sleeps {
            return said.words() == "slept";
        }
        if is_timed && (watch.looks(), watch.waiting()) != (expected.looks, expected.waiting) {
            return false;
        }
        let made = self.model.counts.made;
        let fits = self.comes_to(word, by_init, said, expected.refusal);
        let is_called = !by_init && made != self.model.counts.made;
        fits && (!is_called || self.player.seen.get() == self.model.held())
    }

    fn comes_to(
        &mut self,
        word: &str,
        by_init: bool,
        said: Said,
        refusal: Option<PullError>,
    ) -> bool {
        let begun = self.near_page;
        if word == "near" && refusal.is_none() {
            self.go_on();
        }
        match (said.words(), said.number(0), said.number(1)) {
            ("pulled", Some(number), Some(serial)) => {
                let is_near = self.is_near(word, begun, number);
                let fits = self.model.take(number, serial, by_init);
                self.hold(number, serial, word.contains("owned"))
                    && fits
                    && is_near
                    && refusal.is_none()
            }
            ("refused init", None, None) => {
                self.player.book.refuses() && self.model.is_refused(by_init) && refusal.is_none()
            }
            ("refused limit", None, None) => refusal == Some(PullError::Limit),
            ("refused closed", None, None) => refusal == Some(PullError::Closed),
            _ => false,
        }
    }

    /// A pull near a page, which finds a place. If the page has none, the next such pull begins a
    /// page further.
    fn go_on(&mut self) {
        let page = self.near_page;
        if !self.model.has_free(page.wrapping_mul(32), 32) {
            let pages = self.model.items().div_ceil(32);
            self.near_page = page.wrapping_add(1).checked_rem(pages).unwrap_or(0);
        }
    }

    /// Whether a pull by this word may find this item, if pulls near a page began at this one.
    fn is_near(&self, word: &str, begun: usize, number: usize) -> bool {
        word != "near" || begun != self.near_page || number / 32 == begun
    }

    /// Whether what an item leaves by is answered so.
    fn is_fair_leave(&mut self, word: &str, number: usize, said: Said) -> bool {
        match self.hand.taken(number) {
            Some(held) => {
                self.leaves(word, held);
                said.words() == "left"
            }
            None => said.words() == "nothing is held",
        }
    }

    /// Notes what is to happen at a look. Whether that is answered so.
    fn is_fair_event(&mut self, word: &str, numbers: [usize; 3], said: Said) -> bool {
        let [number, step, at] = numbers;
        let event = match (word, self.taken(word, number)) {
            ("then_close", _) => Event::Close,
            ("then_return", Some(held)) => Event::Return(held),
            ("then_discard", Some(held)) => Event::Discard(held),
            ("then_swap", Some(held)) => Event::Swap(held),
            _ => return said.words() == "nothing is held",
        };
        if let Some(before) = self.event.held() {
            self.leaves("return", before);
        }
        self.event = event;
        self.clock = Looks { step, fails: 0, at };
        said.words() == "set"
    }

    /// Takes the item that leaves at a look.
    fn taken(&mut self, word: &str, number: usize) -> Option<Held> {
        if word == "then_close" {
            None
        } else {
            self.hand.taken(number)
        }
    }

    fn cleared(&mut self, word: &str) {
        match word {
            "clear" => self.model.clear(),
            _ => self.model.close(),
        }
    }

    /// Whether a place near a page may be at this page: each time it is eight pages further.
    fn is_fair_page(&mut self, said: Said) -> bool {
        self.nears = self.nears.wrapping_add(1);
        let pages = self.model.items().div_ceil(32);
        let lines = pages.div_ceil(8);
        let line = self.nears.checked_rem(lines).unwrap_or(0);
        let turn = self.nears.checked_div(lines).unwrap_or(0) % 8;
        let page = line.wrapping_mul(8).wrapping_add(turn).checked_rem(pages);
        self.near_page = page.unwrap_or(0);
        said.number(0) == page
    }

    /// Whether a filling may come to this.
    fn is_fair_filling(&mut self, items: usize, said: Said) -> bool {
        let refuses = self.player.book.refuses();
        match self.model.fill(items, refuses) {
            Ok(()) => said.words() == "filled",
            Err(PullError::Init) => said.words() == "refused init",
            Err(_) => said.words() == "refused closed",
        }
    }
}

impl<'p, R: Wait + Clock> Player for LazyGame<'p, R> {
    fn play(&mut self, command: Command) -> Said {
        self.player.play(command)
    }
}

impl<'p, R: Wait + Clock> Game for LazyGame<'p, R> {
    fn draw(&mut self, dice: &mut Dice) -> Command {
        self.plan.steps = self.plan.steps.wrapping_add(1);
        if let Some(command) = self.plan.next_command() {
            return command;
        }
        self.plan_next(dice);
        self.plan.next_command().unwrap_or(Command {
            word: "stands",
            numbers: [0; 3],
        })
    }

    fn is_fair(&mut self, command: Command, said: Said) -> bool {
        let Command {
            word,
            numbers: [first, second, _],
        } = command;
        let fits = match word {
            "return" | "give_back" | "reset_first" | "discard" | "detach" => {
                self.is_fair_leave(word, first, said)
            }
            "then_close" | "then_return" | "then_discard" | "then_swap" => {
                self.is_fair_event(word, command.numbers, said)
            }
            "clock" => {
                self.clock.step = first;
                self.clock.fails = second;
                said.words() == "set"
            }
            "fill" => self.is_fair_filling(first, said),
            "near_page" => self.is_fair_page(said),
            "clear" | "close" => {
                self.cleared(word);
                said.words() == "done"
            }
            "stands" | "refuse" | "allow" | "reject" | "accept" => true,
            _ => self.is_fair_pull(word, said),
        };
        fits && self.standing() == self.expected()
            && self.player.near.page_number() == self.near_page
    }
}
