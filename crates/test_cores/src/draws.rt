//! The calls of a session, drawn one after the other.
use crate::answer::Call;
use crate::dice::Dice;
use crate::session::{Kind, Session};
use crate::tallies::Tallies;

/// What draws the calls of a session.
#[derive(Drop)]
pub struct Draws {
    pub session: Session,
    pub dice: Dice,
    /// Whether most calls give an item, since not as many are held yet as may be.
    is_rising: bool,
}

impl Draws {
    /// Creates what draws the calls of this session.
    pub fn new(session: Session) -> Draws {
        Draws {
            session,
            dice: Dice::new(session.seed.wrapping_add(1), session.number),
            is_rising: true,
        }
    }

    /// Draws the next call while so many items are held: mostly one that gives an item until as
    /// many are held as may be, then mostly one that takes it back.
    pub fn call(&mut self, held: usize, tallies: &Tallies) -> Call {
        if held == 0 {
            self.is_rising = true;
        } else if held >= self.session.most_held {
            self.is_rising = false;
        }
        if self.session.grows {
            return if self.is_rising {
                Call::Pull
            } else {
                Call::Forget
            };
        }
        if self.session.refuses && self.dice.one_in(40) {
            tallies.refuse_after(self.dice.below(64));
        }
        let most_calls_give = if self.is_rising { 7 } else { 1 };
        if self.dice.below(8) < most_calls_give {
            self.gift()
        } else {
            self.usage()
        }
    }

    /// A call that gives an item. Stack pools attach values too.
    fn gift(&mut self) -> Call {
        if matches!(self.session.kind, Kind::Pages) {
            return if self.dice.one_in(2) {
                Call::Pull
            } else {
                Call::PullOwned
            };
        }
        let attaches = matches!(self.session.kind, Kind::Mutex | Kind::SpinLock);
        match self.dice.below(6) {
            0 if attaches => Call::Attach,
            1 if attaches => Call::AttachOwned,
            0..=3 => Call::Pull,
            _ => Call::PullOwned,
        }
    }

    /// A call on an item that is held.
    fn usage(&mut self) -> Call {
        match self.dice.below(16) {
            0 => Call::Look,
            1..=3 => Call::Write,
            4 if self.dice.one_in(8) => Call::Forget,
            _ => Call::Drop,
        }
    }
}
