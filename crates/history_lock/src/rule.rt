//! The rule of a lock's table, and what each kind of step tells. No value of these types is made.
use crate::law::{Law, Section};
use atomic_table::{Join, Play, TableRule};
use std::collections::LinkedList;
use std::marker::PhantomData;

/// What one visitor of a lock knows.
pub struct Visitor<E> {
    /// Whether it has the value.
    pub holds: bool,
    /// The operations up to this visitor's last step, of which the last stands first.
    pub history: LinkedList<E>,
    /// The operations that another visitor knew, when the two met.
    pub merged: LinkedList<E>,
}

/// At most one visitor holds the value, and what lies at home is what one history leaves.
pub struct OneHistory<L> {
    law: PhantomData<L>,
}

impl<T, E, L: Law<T, E>> TableRule<Option<T>, Visitor<E>, ()> for OneHistory<L> {
    ghost use Rattle.history_lock.specs.LockRule.{IsLocked, newcomer};

    ghost holds = { λ _. IsLocked L.leaves };

    ghost first = { λ _. newcomer };
}

/// An exchange by which the word is taken.
pub struct Take<L> {
    law: PhantomData<L>,
}

impl<T, E, L: Law<T, E>> Play<Option<T>, Visitor<E>> for Take<L> {
    ghost use Rattle.history_lock.specs.LockRule.{Takes};

    ghost then = { λ _ old word new. Takes L.leaves old word new };
}

/// A load, which finds out all operations so far.
pub struct Look<L> {
    law: PhantomData<L>,
}

impl<T, E, L: Law<T, E>> Play<Option<T>, Visitor<E>> for Look<L> {
    ghost use Rattle.history_lock.specs.LockRule.{Looks};

    ghost then = { λ _ old _ new. Looks L.leaves old new };
}

/// A store of free, which adds the section's operation.
pub struct Free<S> {
    section: PhantomData<S>,
}

impl<T, E, S: Section<T, E>> Play<Option<T>, Visitor<E>> for Free<S> {
    ghost use Rattle.history_lock.specs.LockRule.{Frees};

    ghost then = { λ _ old _ new. Frees S.adds old new };
}

/// A visitor shares what it knows with another, and is gone.
pub struct Merges;

impl<E> Join<Visitor<E>> for Merges {
    ghost use Rattle.history_lock.specs.LockRule.{newcomer};

    ghost both = { λ known other. record known { merged = other.history } };

    ghost spent = { newcomer };
}
