//! Rows: commands in a line, and what a player answers to each.
//!
//! Commands and answers are parted by `;`. `pull*32` is the command `pull`, 32 times; its answer is
//! that of each of them. A number with `+` behind it, in a command or an answer, grows by one at each
//! of these turns. In an answer `_` stands for any number, and `..` for any answer.
use crate::said::{Said, number_at};

/// One who does what commands say.
pub trait Player {
    fn play(&mut self, command: Command) -> Said;
}

/// A word, and up to three numbers behind it. Numbers that aren't there are 0.
#[derive(Clone, Copy, Debug, PartialEq, Eq)]
pub struct Command {
    pub word: &'static str,
    pub numbers: [usize; 3],
}

impl Command {
    /// Reads a command of this turn. `None` if there is no word, or what is behind it is no number.
    fn read(text: &'static str, turn: usize) -> Option<Command> {
        let mut words = text.split_whitespace();
        let word = words.next()?;
        let mut numbers = [0; 3];
        for number in numbers.iter_mut() {
            let Some(told) = words.next() else { break };
            *number = number_at(told, turn)?;
        }
        words.next().is_none().then_some(Command { word, numbers })
    }
}

/// Where a row says something else than its player.
#[derive(Clone, Copy, Debug, PartialEq, Eq)]
pub enum Difference {
    /// A command isn't one, or has no answer.
    BadRow(&'static str),
    /// What was said to a command at this turn, and what was to be said.
    Said {
        command: &'static str,
        turn: usize,
        said: Said,
        wanted: &'static str,
    },
}

/// A row that is played turn by turn, by one whose type `first_difference` can't take: a function
/// that is generic in its player isn't proved at a player that borrows a pool of type parameters.
#[derive(Drop)]
pub struct Row {
    /// What is left of the commands, and of their answers.
    commands: Option<&'static str>,
    answers: Option<&'static str>,
    /// The command that is played, how often, at which turn, and what is to be said.
    command: &'static str,
    turns: usize,
    turn: usize,
    wanted: &'static str,
    found: Option<Difference>,
}

impl Row {
    /// Begins a row.
    pub fn new(commands: &'static str, answers: &'static str) -> Row {
        Row {
            commands: Some(commands),
            answers: Some(answers),
            command: "",
            turns: 0,
            turn: 0,
            wanted: "",
            found: None,
        }
    }

    /// Reads the next command. `None` at the end of the row, and after a difference.
    pub fn next_command(&mut self) -> Option<Command> {
        if self.found.is_some() {
            return None;
        }
        if self.turn == self.turns {
            self.begin_command()?;
        }
        let words = match self.command.split_once('*') {
            Some((words, _)) => words,
            None => self.command,
        };
        let read = Command::read(words, self.turn);
        if read.is_none() {
            self.found = Some(Difference::BadRow(self.command));
        }
        read
    }

    /// Hears what was said to that command.
    pub fn hear(&mut self, said: Said) {
        if !said.is_as(self.wanted, self.turn) {
            self.found = Some(Difference::Said {
                command: self.command,
                turn: self.turn,
                said,
                wanted: self.wanted,
            });
        }
        self.turn = self.turn.saturating_add(1);
    }

    /// Returns the first difference, or `None` if each answer was as the row says.
    pub fn difference(&self) -> Option<Difference> {
        self.found
    }

    /// Goes on to the first turn of a further command.
    fn begin_command(&mut self) -> Option<()> {
        let Some(commands) = self.commands else {
            self.found = self.answers.map(Difference::BadRow);
            return None;
        };
        let Some(answers) = self.answers else {
            self.found = Some(Difference::BadRow(commands));
            return None;
        };
        (self.command, self.commands) = first_of(commands);
        (self.wanted, self.answers) = first_of(answers);
        self.turn = 0;
        self.turns = match self.command.split_once('*') {
            Some((_, turns)) => turns.parse::<usize>().unwrap_or(0),
            None => 1,
        };
        if self.turns == 0 {
            self.found = Some(Difference::BadRow(self.command));
            return None;
        }
        Some(())
    }
}

/// What stands before the first `;` of a text, and what is left behind it.
fn first_of(text: &'static str) -> (&'static str, Option<&'static str>) {
    match text.split_once(';') {
        Some((first, rest)) => (first.trim(), Some(rest)),
        None => (text.trim(), None),
    }
}

/// Plays a row. Returns the first difference, or `None` if each answer is as the row says.
pub fn first_difference<P: Player>(
    player: &mut P,
    commands: &'static str,
    answers: &'static str,
) -> Option<Difference> {
    let mut row = Row::new(commands, answers);
    for _ in 0..u64::MAX {
        let Some(command) = row.next_command() else {
            break;
        };
        let said = player.play(command);
        row.hear(said);
    }
    row.difference()
}
