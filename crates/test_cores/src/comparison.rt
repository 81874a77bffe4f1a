//! Random calls on a running pool and on the core of its kind, whose answers are compared one by
//! one.
use crate::answer::{Answer, Call, Stopped, compare};
use crate::draws::Draws;
use crate::figures::Figures;
use crate::session::Session;
use crate::side::{Ask, Pulled, Side};
use crate::tallies::Tallies;
use lockfree_object_pool::PullError;
use std::alloc::Global;
use std::mem;

/// The items that one call gave on both sides.
#[derive(Drop)]
struct Pair<A, B> {
    running: A,
    core: B,
    is_owned: bool,
}

/// Both sides, and what is held of them.
#[derive(Drop)]
struct Comparison<A, B, R, C> {
    running: R,
    core: C,
    draws: Draws,
    tallies: Tallies,
    held: Vec<Pair<A, B>>,
    forgot_owner: bool,
}

/// What is left when all items went.
#[derive(Drop)]
pub struct Ended<C> {
    pub core: C,
    pub tallies: Tallies,
    /// Whether an item was forgotten that owned the pool, which never ends then.
    pub forgot_owner: bool,
}

/// Pulls so many items of both sides. Then does the session's calls on both, and drops what is held
/// behind the last.
///
/// # Errors
///
/// `Stopped` if the two sides differ, or memory is refused.
pub fn play<A: Pulled, B: Pulled, R: Side<Item = A> + Drop, C: Side<Item = B> + Drop>(
    alloc: Global,
    running: R,
    core: C,
    session: Session,
    tallies: Tallies,
    first: usize,
) -> Result<Ended<C>, Stopped> {
    let mut comparison = Comparison {
        running,
        core,
        draws: Draws::new(session),
        tallies,
        held: Vec::new(alloc),
        forgot_owner: false,
    };
    comparison.pull_first(first)?;
    comparison.play()
}

/// Returns the answer that an item, or a refusal, is.
pub fn answer_of<A: Pulled>(given: &Result<A, PullError>) -> Answer {
    match given {
        Ok(item) => Answer::Came {
            number: item.number(),
            shown: item.shown(),
        },
        Err(cause) => Answer::Refused(*cause),
    }
}

impl<A: Pulled, B: Pulled, R: Side<Item = A> + Drop, C: Side<Item = B> + Drop> Comparison<
    A,
    B,
    R,
    C,
> {
    /// Pulls so many items on both sides, and compares the tallies behind the last.
    fn pull_first(&mut self, items: usize) -> Result<(), Stopped> {
        for _ in 0..items {
            let answer = self.give(Call::Pull)?;
            self.tallies.figures.count(Call::Pull, answer);
        }
        self.tallies.compare(Call::Pull)
    }

    /// Does the session's calls, and drops what is held then.
    fn play(mut self) -> Result<Ended<C>, Stopped> {
        for _ in 0..self.draws.session.calls {
            let held = self.held.len();
            let call = self.draws.call(held, &self.tallies);
            self.call(call)?;
        }
        for _ in 0..self.held.len() {
            self.call(Call::Drop)?;
        }
        Ok(Ended {
            core: self.core,
            tallies: self.tallies,
            forgot_owner: self.forgot_owner,
        })
    }

    /// Does a call on both sides.
    fn call(&mut self, call: Call) -> Result<(), Stopped> {
        let answer = match call {
            Call::Look | Call::Write => self.write(call)?,
            Call::Drop | Call::Forget => self.let_go(call)?,
            _ => self.give(call)?,
        };
        self.tallies.count(call, answer)
    }

    /// Holds what both sides give, where it is the same. The core is asked first, since a fixed pool
    /// is asked for an item near the core's.
    fn give(&mut self, call: Call) -> Result<Answer, Stopped> {
        let mut ask = Ask {
            call,
            walk: self.running.draw_walk(&mut self.draws.dice),
            number: self.tallies.figures.calls,
            page: 0,
        };
        let core = self.core.give(ask, &self.tallies.core);
        let answer = answer_of(&core);
        ask.page = answer.page();
        let running = self.running.give(ask, &self.tallies.running);
        self.hold(call, answer, running, core)?;
        let pages = (self.running.pages()? as u64, self.core.pages()? as u64);
        compare(call, Answer::Shown(pages.0), Answer::Shown(pages.1))?;
        Ok(answer)
    }

    /// Holds what both sides gave, where it is the same.
    fn hold(
        &mut self,
        call: Call,
        answer: Answer,
        running: Result<A, PullError>,
        core: Result<B, PullError>,
    ) -> Result<(), Stopped> {
        compare(call, answer_of(&running), answer)?;
        if let (Ok(running), Ok(core)) = (running, core) {
            self.held.push(Pair {
                running,
                core,
                is_owned: call.owns(),
            })?;
        }
        Ok(())
    }

    /// Looks at one of the held items, and writes to it, or not.
    fn write(&mut self, call: Call) -> Result<Answer, Stopped> {
        let index = self.draws.dice.below(self.held.len());
        let content = self.draws.dice.content();
        let Some(pair) = self.held.get_mut(index) else {
            return Ok(Answer::Opened);
        };
        let answer = Answer::Shown(pair.running.shown());
        compare(call, answer, Answer::Shown(pair.core.shown()))?;
        if call == Call::Write {
            pair.running.overwrite(content);
            pair.core.overwrite(content);
        }
        Ok(answer)
    }

    /// Drops one of the held items, or forgets it.
    fn let_go(&mut self, call: Call) -> Result<Answer, Stopped> {
        if self.held.is_empty() {
            return Ok(Answer::Opened);
        }
        let index = self.draws.dice.below(self.held.len());
        let Pair {
            running,
            core,
            is_owned,
        } = self.held.swap_remove(index);
        let answer = Answer::Shown(running.shown());
        compare(call, answer, Answer::Shown(core.shown()))?;
        if call == Call::Forget && (self.draws.session.forgets_owners || !is_owned) {
            self.forgot_owner |= is_owned;
            mem::forget(running);
            mem::forget(core);
            return Ok(answer);
        }
        if self.running.take_back(running) && self.core.take_back(core) {
            Ok(answer)
        } else {
            Err(Stopped::OtherAnswer(call, answer, Answer::NotOut))
        }
    }
}

/// Drops the core and looks whether both sides are alike. The running pool has ended before, unless
/// an owner of it was forgotten.
///
/// # Errors
///
/// `Stopped` if the two sides differ.
pub fn compare_ends<C: Drop>(ended: Ended<C>) -> Result<Figures, Stopped> {
    let Ended {
        core,
        tallies,
        forgot_owner,
    } = ended;
    if forgot_owner {
        mem::forget(core);
    } else {
        drop(core);
    }
    tallies.compare(Call::End)?;
    Ok(tallies.figures)
}

/// Returns both pools if both opened, or `None` if both were refused for the same cause.
///
/// # Errors
///
/// `Stopped` if the two sides differ.
pub fn compare_openings<P: Drop, C: Drop>(
    tallies: &Tallies,
    running: Result<P, PullError>,
    core: Result<C, PullError>,
) -> Result<Option<(P, C)>, Stopped> {
    compare(Call::Open, opened(&running), opened(&core))?;
    tallies.compare(Call::Open)?;
    match (running, core) {
        (Ok(running), Ok(core)) => Ok(Some((running, core))),
        _ => Ok(None),
    }
}

fn opened<P>(opening: &Result<P, PullError>) -> Answer {
    match opening {
        Ok(_) => Answer::Opened,
        Err(cause) => Answer::Refused(*cause),
    }
}
