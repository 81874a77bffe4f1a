//! Games: random commands to a player, each answer judged by a plain model.
use crate::dice::Dice;
use crate::row::{Command, Player};
use crate::said::Said;
use std::alloc::{AllocError, Global};

/// A player beside the model of what it plays on.
pub trait Game: Player {
    /// Draws the next command. It may rest on what the model knows.
    fn draw(&mut self, dice: &mut Dice) -> Command;

    /// Whether this answer may be given, by the model, which goes on as the answer says.
    fn is_fair(&mut self, command: Command, said: Said) -> bool;
}

/// A command, and the answer that no pool may give to it.
#[derive(Clone, Copy, Debug, PartialEq, Eq)]
pub struct Unfair {
    pub command: Command,
    pub said: Said,
}

/// Plays so many commands that are drawn, each of which is added to the list. Returns the first
/// answer that isn't fair.
///
/// # Errors
///
/// If memory for the list is refused.
pub fn played<G: Game>(
    game: &mut G,
    dice: &mut Dice,
    steps: usize,
    list: &mut Vec<Command>,
) -> Result<Option<Unfair>, AllocError> {
    for _ in 0..steps {
        let command = game.draw(dice);
        list.push(command)?;
        let unfair = step(game, command);
        if unfair.is_some() {
            return Ok(unfair);
        }
    }
    Ok(None)
}

/// Plays a list again. Returns the first answer that isn't fair.
pub fn replayed<G: Game>(game: &mut G, list: &[Command]) -> Option<Unfair> {
    list.iter().find_map(|command| step(game, *command))
}

fn step<G: Game>(game: &mut G, command: Command) -> Option<Unfair> {
    let said = game.play(command);
    if game.is_fair(command, said) {
        None
    } else {
        Some(Unfair { command, said })
    }
}

/// Plays lists again, each from the start.
pub trait Trial {
    /// Whether a list fails.
    fn fails(&self, list: &[Command]) -> bool;
}

/// Leaves out of a list that fails what it fails without: halves at first, then smaller parts.
///
/// # Errors
///
/// If memory for a shorter list is refused.
pub fn shrunk(
    alloc: Global,
    mut list: Vec<Command>,
    trial: &impl Trial,
) -> Result<Vec<Command>, AllocError> {
    let whole = list.len();
    for halvings in 1..usize::BITS {
        let part = whole >> halvings;
        if part == 0 {
            break;
        }
        list = without_parts(alloc, list, part, trial)?;
    }
    Ok(list)
}

/// Leaves out each part of this length without which the list still fails.
fn without_parts(
    alloc: Global,
    mut list: Vec<Command>,
    part: usize,
    trial: &impl Trial,
) -> Result<Vec<Command>, AllocError> {
    let Some(last) = list.len().checked_div(part) else {
        return Ok(list);
    };
    for turn in 0..=last {
        let start = last.saturating_sub(turn).saturating_mul(part);
        let mut shorter = Vec::with_capacity(alloc, list.len())?;
        for (index, command) in list.iter().enumerate() {
            if index < start || start.saturating_add(part) <= index {
                shorter.push(*command)?;
            }
        }
        if trial.fails(&shorter) {
            list = shorter;
        }
    }
    Ok(list)
}

/// Plays so many commands that are drawn by a seed. If an answer isn't fair, returns the shortest
/// list that was found to fail.
///
/// # Errors
///
/// If memory for the list is refused.
pub fn failing_list<G: Game>(
    alloc: Global,
    game: &mut G,
    (seed, steps): (u64, usize),
    trial: &impl Trial,
) -> Result<Option<Vec<Command>>, AllocError> {
    let mut list = Vec::new(alloc);
    if played(game, &mut Dice::new(seed), steps, &mut list)?.is_none() {
        return Ok(None);
    }
    Ok(Some(shrunk(alloc, list, trial)?))
}

/// A plain model of what a player plays on.
pub trait PlainModel: Player {
    /// Draws the next command.
    fn draw(&mut self, dice: &mut Dice) -> Command;
}

/// A player beside a model: both have to say the same to each command, and then to `counts` and to
/// `owners`.
#[derive(Drop)]
pub struct Beside<P, M> {
    pub player: P,
    pub model: M,
}

impl<P: Drop, M: Drop> Beside<P, M> {
    /// Returns the player.
    pub fn into_player(self) -> P {
        self.player
    }
}

impl<P: Player, M: Player> Beside<P, M> {
    /// Plays commands of one word, so many turns, with numbers that go down to the first. Returns
    /// the first answer that isn't the model's.
    pub fn first_unfair(
        &mut self,
        word: &'static str,
        first: usize,
        turns: usize,
    ) -> Option<Unfair> {
        for turn in 0..turns {
            let left = turns.wrapping_sub(turn).wrapping_sub(1);
            let unfair = self.unfair(word, first.wrapping_add(left));
            if unfair.is_some() {
                return unfair;
            }
        }
        None
    }

    fn unfair(&mut self, word: &'static str, number: usize) -> Option<Unfair> {
        let command = Command {
            word,
            numbers: [number, 0, 0],
        };
        let said = self.player.play(command);
        (said != self.model.play(command)).then_some(Unfair { command, said })
    }
}

impl<P: Player, M: Player> Player for Beside<P, M> {
    fn play(&mut self, command: Command) -> Said {
        self.player.play(command)
    }
}

impl<P: Player, M: PlainModel> Game for Beside<P, M> {
    fn draw(&mut self, dice: &mut Dice) -> Command {
        self.model.draw(dice)
    }

    fn is_fair(&mut self, command: Command, said: Said) -> bool {
        said == self.model.play(command)
            && self.unfair("counts", 0).is_none()
            && self.unfair("owners", 0).is_none()
    }
}
