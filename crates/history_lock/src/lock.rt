//! A spin lock that knows which operations left its value.
//!
//! Its word changes in two ways: an exchange takes it, and a store frees it. Who took it has the
//! value itself and a [`Turn`], which ends with the value's return and one operation more.
ghost use Rattle.std.specs.Prelude.{◌≡◌, ◌⊎◌, [], ◌∷◌, Some, IfErr, IfOk, IfSome, true};
ghost use Rattle.history_lock.specs.History.{IsPrefixOf};

use crate::law::{Law, Section};
use crate::rule::{Free, Look, Merges, OneHistory, Take, Visitor};
use crate::seen::Seen;
use atomic_table::{Refused, Seat, Table};
use std::alloc::{AllocFailed, Global};
use std::marker::Model;
use std::sync::Wait;
use std::thread;

// The lock's one word and its one place, by their numbers in the table.
const WORD: usize = 0;

const PLACE: usize = 0;

// The word's two values.
const FREE: u64 = 0;

const TAKEN: u64 = 1;

/// A lock round a value, which operations of type `E` leave by the law `L`. They exist in proofs
/// only.
///
/// In a clause it is the table in which the value lies.
pub struct HistoryLock<T, E, L: Law<T, E>> {
    table: Table<Option<T>, Visitor<E>, (), OneHistory<L>, Global>,
}

impl<T, E, L: Law<T, E>> Model for HistoryLock<T, E, L> {
    ghost use Rattle.std.specs.Prelude.{◌≡◌};
    ghost use Rattle.atomic_table.specs.Seated.{TableId};

    ghost Value = { TableId };

    ghost view = { λ lock. lock.table.shared.table_id };

    ghost invariant = { λ lock.
        (lock.table.shared.table_id.words ≡ 1) × (lock.table.shared.table_id.slots ≡ 1) };
}

impl<T: Drop, E, L: Law<T, E>> Drop for HistoryLock<T, E, L> {
    fn drop(self) {
        let HistoryLock { table: _ } = self;
    }
}

/// The right to bring a lock's value back, by [`Turn::release`]. It can't be dropped.
///
/// In a clause it is what its holder knows: the lock, and all its operations so far.
pub struct Turn<'s, T, E, L: Law<T, E>> {
    lock: &'s HistoryLock<T, E, L>,
    seat: Seat<Option<T>, Visitor<E>>,
}

impl<'s, T, E, L: Law<T, E>> Model for Turn<'s, T, E, L> {
    ghost use Rattle.std.specs.Prelude.{◌≡◌, [], ◌∷◌, None, true};
    ghost use Rattle.history_lock.specs.History.{Known};

    ghost Value = { Known E };

    ghost view = { λ turn.
        record { table = turn.seat.table_id; history = turn.seat.me.0.history } };

    ghost invariant = { λ turn.
        (turn.seat.table_id ≡ turn.lock.now) × (turn.seat.me.0.holds ≡ true)
        × (turn.seat.me.1 ≡ (0, None) ∷ []) };
}

impl<T: Drop, E, L: Law<T, E>> HistoryLock<T, E, L> {
    /// Creates a free lock with this value in it.
    ///
    /// # Errors
    ///
    /// The value, if there is no memory for the lock.
    pub fn new(alloc: Global, value: T) -> Result<HistoryLock<T, E, L>, T>
        requires opens { L.leaves [] value }
        ensures refused { IfErr result (λ back. back ≡ value) }
    {
        let places = one_place(alloc, value)?;
        match Table::new(alloc, &[FREE], places, &()) {
            Ok((table, _seat)) => Ok(HistoryLock { table }),
            Err(Refused { slots: mut places }) => match places.pop() {
                Some(Some(value)) => Err(value),
                _ => unreachable!(),
            },
        }
    }

    /// Takes the lock, and waits while another has it. A turn that leaks keeps the lock taken for
    /// good.
    pub fn lock<W: Wait>(&self, rt: &W) -> (T, Turn<'_, T, E, L>)
        ensures of { result.1.table ≡ self.now }
        ensures left { L.leaves result.1.history result.0 }
    {
        for _ in rt.forever() {
            if let Some(taken) = self.try_lock() {
                return taken;
            }
            thread::yield_now();
        }
        unreachable!()
    }

    /// Takes the lock if it is free at this moment.
    pub fn try_lock(&self) -> Option<(T, Turn<'_, T, E, L>)>
        ensures of { IfSome result (λ taken. taken.1.table ≡ self.now) }
        ensures left { IfSome result (λ taken. L.leaves taken.1.history taken.0) }
    {
        let shared = &self.table.shared;
        let (found, mut seat) = shared.swap_new_seat::<Take<L>>(WORD, TAKEN);
        if found != FREE {
            return None;
        }
        match shared.exchange(&mut seat, PLACE, None) {
            Some(value) => Some((value, Turn { lock: self, seat })),
            None => unreachable!(),
        }
    }

    /// Takes the lock by somebody who knows something of it, and waits while another has it.
    pub fn lock_after<W: Wait>(&self, rt: &W, mut seen: Seen<E>) -> (T, Turn<'_, T, E, L>)
        requires { seen.table ≡ self.now }
        ensures of { result.1.table ≡ self.now }
        ensures left { L.leaves result.1.history result.0 }
        ensures after { IsPrefixOf seen.history result.1.history }
    {
        for _ in rt.forever() {
            match self.try_lock_after(seen) {
                Ok(taken) => return taken,
                Err(back) => seen = back,
            }
            thread::yield_now();
        }
        unreachable!()
    }

    /// Takes the lock if it is free at this moment, by somebody who knows something of it.
    ///
    /// # Errors
    ///
    /// What was known, if the lock isn't free.
    pub fn try_lock_after(&self, seen: Seen<E>) -> Result<(T, Turn<'_, T, E, L>), Seen<E>>
        requires { seen.table ≡ self.now }
        ensures of { IfOk result (λ taken. taken.1.table ≡ self.now) }
        ensures left { IfOk result (λ taken. L.leaves taken.1.history taken.0) }
        ensures after { IfOk result (λ taken. IsPrefixOf seen.history taken.1.history) }
        ensures same { IfErr result (λ back. back ≡ seen) }
    {
        let mut seat = seen.into_seat();
        let shared = &self.table.shared;
        let found = shared.swap::<Take<L>>(&mut seat, WORD, TAKEN);
        if found != FREE {
            return Err(Seen {
                badge: seat.into_badge(),
            });
        }
        match shared.exchange(&mut seat, PLACE, None) {
            Some(value) => Ok((value, Turn { lock: self, seat })),
            None => unreachable!(),
        }
    }
}

impl<T, E, L: Law<T, E>> HistoryLock<T, E, L> {
    /// Returns what the lock's operations are at a moment of this call. It costs a load.
    pub fn see(&self) -> Seen<E>
        ensures of { result.table ≡ self.now }
        ensures left { (value : T) × L.leaves result.history value }
    {
        let (_, seat) = self.table.shared.load_new_seat::<Look<L>>(WORD);
        Seen {
            badge: seat.into_badge(),
        }
    }

    /// Adds to what somebody knows of the lock what somebody else knows: of the two histories one
    /// is a prefix of the other. It costs two loads.
    pub fn learn(&self, seen: Seen<E>, other: Seen<E>) -> Seen<E>
        requires of { seen.table ≡ self.now }
        requires other_of { other.table ≡ self.now }
        ensures of { result.table ≡ self.now }
        ensures left { (value : T) × L.leaves result.history value }
        ensures after { IsPrefixOf seen.history result.history }
        ensures after_other { IsPrefixOf other.history result.history }
        ensures one { IsPrefixOf seen.history other.history ⊎ IsPrefixOf other.history seen.history }
    {
        let mut seat = seen.into_seat();
        let shared = &self.table.shared;
        shared.join_seat::<Merges>(&mut seat, other.into_seat());
        shared.load::<Look<L>>(&mut seat, WORD);
        Seen {
            badge: seat.into_badge(),
        }
    }
}

/// Returns a row of one place, with the value in it.
fn one_place<X: Drop>(alloc: Global, value: X) -> Result<Vec<Option<X>>, X>
    ensures row { IfOk result (λ places. places.items ≡ Some value ∷ []) }
    ensures refused { IfErr result (λ back. back ≡ value) }
{
    let mut places = Vec::new(alloc);
    match places.push(Some(value)) {
        Ok(()) => Ok(places),
        Err(AllocFailed { value: Some(value) }) => Err(value),
        Err(AllocFailed { value: None }) => unreachable!(),
    }
}

impl<'s, T, E, L: Law<T, E>> Turn<'s, T, E, L> {
    /// Puts the value back and frees the lock, by which the section's operation is added to the
    /// history.
    pub fn release<S: Section<T, E>>(self, value: T) -> Seen<E>
        requires { L.leaves (S.adds self.history value ∷ self.history) value }
        ensures { result ≡ record {
          table = self.entry.table;
          history = S.adds self.entry.history value ∷ self.entry.history;
        } }
    {
        let Turn { lock, mut seat } = self;
        let shared = &lock.table.shared;
        match shared.exchange(&mut seat, PLACE, Some(value)) {
            None => {}
            Some(_) => unreachable!(),
        }
        shared.store::<Free<S>>(&mut seat, WORD, FREE);
        Seen {
            badge: seat.into_badge(),
        }
    }
}
