//! The commands of a game with a lazy pool, as they are drawn.
use crate::game::LazyGame;
use crate::timed::TIME;
use lazy_pools::PullError;
use rows::dice::Dice;
use rows::row::Command;
use std::alloc::Global;
use std::sync::Wait;
use std::time::Clock;

/// Each way to pull.
const WAYS: [&str; 14] = [
    "pull",
    "near",
    "try",
    "owned",
    "with",
    "owned_with",
    "wait",
    "owned_wait",
    "wait_with",
    "owned_wait_with",
    "timed",
    "owned_timed",
    "timed_with",
    "owned_timed_with",
];

/// More than half of a limit of time, and less than half, in milliseconds.
const LATE: usize = TIME / 5 * 3;

const IN_TIME: usize = TIME / 2 - 1;

/// What the next commands are.
#[derive(Drop)]
pub struct Plan {
    /// No pull is near a page, nothing is filled, and no maker refuses: then no more is made than
    /// was in use at once.
    pub is_lean: bool,
    /// The step from which on the pool may be closed, and the steps until now.
    pub closes: usize,
    pub steps: usize,
    /// Whether more is pulled than returned.
    pub is_rising: bool,
    commands: Vec<Command>,
    played: usize,
}

impl Plan {
    /// Creates a plan of a game that may close its pool from this step on.
    pub fn new(alloc: Global, is_lean: bool, closes: usize) -> Plan {
        Plan {
            is_lean,
            closes,
            steps: 0,
            is_rising: true,
            commands: Vec::new(alloc),
            played: 0,
        }
    }

    /// Adds a command.
    pub fn then(&mut self, word: &'static str, first: usize, second: usize, third: usize) {
        let numbers = [first, second, third];
        let _ = self.commands.push(Command { word, numbers });
    }

    /// Takes the next command. Behind the last one the plan begins anew.
    pub fn next_command(&mut self) -> Option<Command> {
        let command = self.commands.get(self.played).copied();
        self.played = self.played.wrapping_add(1);
        if command.is_none() {
            self.commands.clear();
            self.played = 0;
        }
        command
    }
}

impl<'p, R: Wait + Clock> LazyGame<'p, R> {
    /// Draws an item that is held, if one is.
    fn one_held(&self, dice: &mut Dice) -> usize {
        self.hand.next_held(dice.below(self.model.items()))
    }

    /// Plans a timed pull of a full pool.
    fn plan_timed(&mut self, way: &'static str, dice: &mut Dice) {
        let held = self.one_held(dice);
        let at = dice.below(2).wrapping_add(1);
        match dice.below(16) {
            0..=2 => self.plan.then("clock", TIME, 0, 0),
            3 => self.plan.then("clock", 0, 1, 0),
            4 => self.plan.then("clock", 0, 2, 0),
            5..=7 if self.plan.steps >= self.plan.closes => {
                self.plan.then("then_close", 0, 1_000, at);
            }
            5..=8 => self.plan.then("then_swap", held, LATE, 2),
            9 => {
                self.plan.then("then_discard", held, 0, 2);
                self.plan.then("clock", 0, 3, 0);
            }
            10 | 11 => self.plan.then("then_return", held, LATE, 2),
            12 => self.plan.then("then_discard", held, IN_TIME, at),
            _ => self.plan.then("then_return", held, 1_000, at),
        }
        self.plan.then(way, 0, 0, 0);
    }

    /// Plans a pull.
    fn plan_pull(&mut self, dice: &mut Dice) {
        let is_full = self.model.refusal() == Some(PullError::Limit);
        let drawn = WAYS.get(dice.below(WAYS.len())).copied().unwrap_or("pull");
        let way = match drawn {
            "near" if self.plan.is_lean => "pull",
            // these would wait for ever
            "wait" | "owned_wait" | "wait_with" | "owned_wait_with" if is_full => "owned_with",
            drawn => drawn,
        };
        if is_full && way.contains("timed") {
            self.plan_timed(way, dice);
        } else {
            self.plan.then(way, 0, 0, 0);
        }
    }

    /// Plans a command that has nothing to do with one item.
    fn plan_for_all(&mut self, dice: &mut Dice) {
        let items = self.model.items();
        match dice.below(4) {
            0 if !self.plan.is_lean => {
                let count = if dice.one_in(4) {
                    items
                } else {
                    dice.below(items)
                };
                self.plan.then("fill", count, 0, 0);
            }
            // seldom in a large pool, which else keeps little
            1 if dice.one_in(items / 32 + 1) => self.plan.then("clear", 0, 0, 0),
            2 => self.plan.then("near_page", 0, 0, 0),
            _ => self.plan.then("stands", 0, 0, 0),
        }
    }

    /// Plans that an item leaves.
    fn plan_leave(&mut self, dice: &mut Dice) {
        let number = self.one_held(dice);
        let way = match dice.below(8) {
            0 => "discard",
            1 => "detach",
            2 => "give_back",
            3 => "reset_first",
            _ => "return",
        };
        self.plan.then(way, number, 0, 0);
    }

    /// Plans some commands.
    pub fn plan_next(&mut self, dice: &mut Dice) {
        let is_full = self.model.refusal() == Some(PullError::Limit);
        if self.model.held() == 0 {
            self.plan.is_rising = true;
        } else if is_full && dice.one_in(16) {
            self.plan.is_rising = false;
        }
        let flag = dice.below(8);
        match flag {
            0 if !self.plan.is_lean => self.plan.then("refuse", 0, 0, 0),
            1 | 2 => self.plan.then("reject", 0, 0, 0),
            _ => {}
        }
        let is_open = !self.model.is_closed();
        if is_open && self.plan.steps >= self.plan.closes && dice.one_in(16) {
            self.plan.then("close", 0, 0, 0);
        } else if dice.one_in(32) {
            self.plan_for_all(dice);
        } else if dice.below(8) < if self.plan.is_rising { 7 } else { 1 } {
            self.plan_pull(dice);
        } else {
            self.plan_leave(dice);
        }
        match flag {
            0 => self.plan.then("allow", 0, 0, 0),
            1 | 2 => self.plan.then("accept", 0, 0, 0),
            _ => {}
        }
    }
}
