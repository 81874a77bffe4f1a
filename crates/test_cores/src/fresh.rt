//! The pool that keeps nothing beside the core that keeps nothing.
use crate::answer::{Answer, Call, Stopped, compare};
use crate::comparison::{Ended, answer_of, compare_ends};
use crate::dice::Dice;
use crate::figures::Figures;
use crate::maker::Maker;
use crate::session::Session;
use crate::side::{Held, Pulled};
use crate::tallies::Tallies;
use crate::value::Value;
use lockfree_object_pool::{NoneObjectPool, NoneReusable, PullError};
use object_pool_cores::sequential::{Item, NoneCore, SequentialPool};
use std::alloc::Global;
use std::sync::Arc;

/// An item of the pool, whichever call gave it.
type FreshItem<T> = Held<NoneReusable<T>, NoneReusable<T>>;

/// The items that one call gave on both sides.
#[derive(Drop)]
struct Pair<T> {
    running: FreshItem<T>,
    core: Item<T>,
}

/// The core, and what is held of it and of the running pool beside it.
#[derive(Drop)]
struct Fresh<T: Value> {
    core: NoneCore<T, Maker>,
    tallies: Tallies,
    held: Vec<Pair<T>>,
    dice: Dice,
}

/// Does the session's calls. Each item is new.
///
/// # Errors
///
/// `Stopped` if the two sides differ, or memory is refused.
pub fn compare_fresh<T: Value>(alloc: Global, session: Session) -> Result<Figures, Stopped> {
    let tallies = Tallies::new(alloc)?;
    let init = Maker::new(&tallies.running)?;
    let core = NoneCore::new(Maker::new(&tallies.core)?);
    let pool = Arc::new(alloc, NoneObjectPool::new(|| init.value::<T>()))?;
    let mut fresh = Fresh {
        core,
        tallies,
        held: Vec::new(alloc),
        dice: Dice::new(session.seed.wrapping_add(1), session.number),
    };
    for _ in 0..session.calls {
        match fresh.drawn_call(session) {
            Call::Pull => fresh.hold(Call::Pull, pool.pull())?,
            Call::PullOwned => fresh.hold(Call::PullOwned, pool.pull_owned())?,
            call => fresh.let_go(call)?,
        }
    }
    fresh.end()
}

impl<T: Value> Fresh<T> {
    /// The next call.
    fn drawn_call(&mut self, session: Session) -> Call {
        if session.refuses && self.dice.one_in(40) {
            self.tallies.refuse_after(self.dice.below(64));
        }
        let is_full = self.held.len() >= session.most_held;
        match self.dice.below(8) {
            0..=2 if !is_full => Call::Pull,
            3..=4 if !is_full => Call::PullOwned,
            5 => Call::Write,
            _ => Call::Drop,
        }
    }

    /// Holds what both sides give, where it is the same.
    fn hold(
        &mut self,
        call: Call,
        running: Result<NoneReusable<T>, PullError>,
    ) -> Result<(), Stopped> {
        let running: Result<FreshItem<T>, PullError> = running.map(|item| Held::Borrowed(
            item, None,
        ));
        let core = self.core.pull();
        let answer = answer_of(&running);
        compare(call, answer, answer_of(&core))?;
        if let (Ok(running), Ok(core)) = (running, core) {
            self.held.push(Pair { running, core })?;
        }
        self.tallies.count(call, answer)
    }

    /// Drops one of the held items, or writes to it before it is dropped.
    fn let_go(&mut self, call: Call) -> Result<(), Stopped> {
        if self.held.is_empty() {
            return Ok(());
        }
        let index = self.dice.below(self.held.len());
        let Pair {
            mut running,
            mut core,
        } = self.held.swap_remove(index);
        if call == Call::Write {
            let content = self.dice.content();
            running.overwrite(content);
            core.overwrite(content);
        }
        let answer = Answer::Shown(running.shown());
        compare(call, answer, Answer::Shown(core.shown()))?;
        drop(running);
        self.core.give(core);
        self.tallies.figures.count(Call::Drop, answer);
        self.tallies.compare(call)
    }

    /// Drops what is held, and the core.
    fn end(mut self) -> Result<Figures, Stopped> {
        for _ in 0..self.held.len() {
            self.let_go(Call::Drop)?;
        }
        compare_ends(Ended {
            core: self.core,
            tallies: self.tallies,
            forgot_owner: false,
        })
    }
}
