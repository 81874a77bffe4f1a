//! A player that counts, by which rows and games are tried themselves.
use crate::dice::Dice;
use crate::game::{Game, Trial, played, replayed, shrunk};
use crate::row::{Command, Difference, Player, first_difference};
use crate::said::Said;
use std::process::Abort;

/// Counts by commands. It is refused to come to 5.
#[derive(Clone, Copy)]
struct Count {
    is: usize,
}

impl Player for Count {
    fn play(&mut self, command: Command) -> Said {
        match command.word {
            "add" => {
                self.is = self.is.wrapping_add(command.numbers[0]);
                Said::of("is now").and(self.is)
            }
            "none" => Said::of("nothing"),
            _ => Said::of("no such command"),
        }
    }
}

impl Game for Count {
    fn draw(&mut self, dice: &mut Dice) -> Command {
        let word = if dice.one_in(2) { "add" } else { "none" };
        Command {
            word,
            numbers: [1, 0, 0],
        }
    }

    fn is_fair(&mut self, _command: Command, said: Said) -> bool {
        said != Said::of("is now").and(5)
    }
}

fn plays(rt: &impl Abort, commands: &'static str, answers: &'static str) {
    assert_eq!(*rt;
        first_difference(&mut Count { is: 0 }, commands, answers),
        None
    );
}

#[test]
fn a_number_of_a_row_grows_with_the_turns(rt: HostRuntime) {
    plays(&rt, "add 1*3; add 2+*2; none*2", "is now 1+; .. ; nothing");
    plays(&rt, "add 1*3; add 2+*2; add 0", "is now _; ..; is now 8");
    plays(&rt, "add 1*2", "is now 1|is now 2");
}

fn differs(commands: &'static str, answers: &'static str) -> Option<(usize, Said)> {
    match first_difference(&mut Count { is: 0 }, commands, answers) {
        Some(Difference::Said { turn, said, .. }) => Some((turn, said)),
        _ => None,
    }
}

#[test]
fn a_row_tells_where_it_differs(rt: HostRuntime) {
    let said = Said::of("is now").and(2);
    assert_eq!(rt; differs("add 1*3", "is now 1"), Some((1, said)));
    assert_eq!(rt; differs("add 2", "is now"), Some((0, said)));
    assert_eq!(rt; differs("add 2", "is now 2 2"), Some((0, said)));
    assert_eq!(rt; differs("add 2", "is 2"), Some((0, said)));
    assert_eq!(rt; differs("add 2", "is now 2 really"), Some((0, said)));
    assert_eq!(rt; differs("add 2", "is now 1|is now 3"), Some((0, said)));
}

fn is_bad(commands: &'static str, answers: &'static str) -> bool {
    let found = first_difference(&mut Count { is: 0 }, commands, answers);
    matches!(found, Some(Difference::BadRow(_)))
}

#[test]
fn a_bad_row_is_told(rt: HostRuntime) {
    assert!(rt; is_bad("add 1; add 1", "is now 1"));
    assert!(rt; is_bad("add 1", "is now 1; is now 2"));
    assert!(rt; is_bad("add one", "is now 1"));
    assert!(rt; is_bad("add 1*0", ".."));
    assert!(rt; is_bad("add 1 2 3 4", ".."));
    assert!(rt; is_bad("", ".."));
}

/// Plays lists from 0 on.
struct FromZero;

impl Trial for FromZero {
    fn fails(&self, list: &[Command]) -> bool {
        replayed(&mut Count { is: 0 }, list).is_some()
    }
}

#[test]
fn a_list_that_fails_becomes_as_short_as_can_be(rt: HostRuntime) {
    let mut list = Vec::new(rt.alloc());
    let mut dice = Dice::new(7);
    let found = played(&mut Count { is: 0 }, &mut dice, 1_000, &mut list).expect(&rt, "memory");
    assert_eq!(rt;
        found.map(|unfair| unfair.said),
        Some(Said::of("is now").and(5))
    );
    let list = shrunk(rt.alloc(), list, &FromZero).expect(&rt, "memory");
    assert_eq!(rt; list.len(), 5);
    assert!(rt; list.iter().all(|command| command.word == "add"));
}
