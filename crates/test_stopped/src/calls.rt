//! The calls that another process stops: each is a function that isn't inlined, so that the process
//! finds where it begins and ends.
use lockfree_object_pool::PullError;
use std::fmt::{self, Display, Formatter, Write};
use std::ops::DerefMut;

/// A pool of numbers. It is a borrow, and hands out items.
pub trait Gives<A: DerefMut<Target = u32> + Drop, R>: Copy {
    fn pull_one(self, rt: &R) -> Result<A, PullError>;

    /// The number of an item in its pool.
    fn number(item: &A) -> usize;
}

/// What a thread calls once. Before a return it pulls, and before turns it does too.
#[derive(Clone, Copy, PartialEq, Eq)]
pub enum Call {
    Pull,
    Return,
    /// A pull, and the return of its item.
    Turn,
    /// Many returns and pulls.
    Turns,
}

impl Call {
    /// The call of this name.
    pub fn named(name: &str) -> Option<Call> {
        match name {
            "pull" => Some(Call::Pull),
            "return" => Some(Call::Return),
            "turn" => Some(Call::Turn),
            "turns" => Some(Call::Turns),
            _ => None,
        }
    }

    /// How many items its thread holds when it begins.
    pub fn held(self) -> usize {
        match self {
            Call::Pull | Call::Turn => 0,
            Call::Return | Call::Turns => 1,
        }
    }
}

/// An item: its number, and the value that it has.
#[derive(Clone, Copy)]
pub struct Shown {
    number: usize,
    value: u32,
}

/// What a thread tells of its call: the item that it held before, and the one that it pulled.
#[derive(Clone, Copy)]
pub struct Told {
    held: Option<Shown>,
    pulled: Option<Shown>,
}

impl Display for Shown {
    fn fmt<W: Write>(&self, f: &mut Formatter<W>) -> fmt::Result {
        write!(f, "{}:{}", self.number, self.value)
    }
}

impl Display for Told {
    fn fmt<W: Write>(&self, f: &mut Formatter<W>) -> fmt::Result {
        f.write_str("held ")?;
        tell(f, self.held)?;
        f.write_str(" pulled ")?;
        tell(f, self.pulled)
    }
}

/// Writes an item, or that there is none.
fn tell<W: Write>(f: &mut Formatter<W>, shown: Option<Shown>) -> fmt::Result {
    match shown {
        Some(shown) => write!(f, "{shown}"),
        None => f.write_str("none"),
    }
}

/// What an item shows.
pub fn look<A: DerefMut<Target = u32> + Drop, P: Gives<A, R>, R>(item: &A) -> Shown {
    Shown {
        number: P::number(item),
        value: **item,
    }
}

/// What is added to an item's number where a thread writes its value.
const WRITTEN: u32 = 100;

/// Writes to an item.
fn mark<A: DerefMut<Target = u32> + Drop, P: Gives<A, R>, R>(item: &mut A) -> Shown {
    let number = P::number(item);
    **item = WRITTEN.wrapping_add((number & 0xffff_ffff) as u32);
    look::<A, P, R>(item)
}

#[inline(never)]
fn called_pull<A: DerefMut<Target = u32> + Drop, P: Gives<A, R>, R>(
    rt: &R,
    pool: P,
) -> Result<A, PullError> {
    pool.pull_one(rt)
}

#[inline(never)]
fn called_return<A: Drop>(item: A) {
    drop(item);
}

#[inline(never)]
fn called_turn<A: DerefMut<Target = u32> + Drop, P: Gives<A, R>, R>(
    rt: &R,
    pool: P,
) -> Option<Shown> {
    let mut item = pool.pull_one(rt).ok()?;
    let pulled = look::<A, P, R>(&item);
    mark::<A, P, R>(&mut item);
    drop(item);
    Some(pulled)
}

/// How many turns the other thread makes while one is stopped.
const TURNS: u32 = 200;

#[inline(never)]
fn called_turns<A: DerefMut<Target = u32> + Drop, P: Gives<A, R>, R>(rt: &R, pool: P, item: A) {
    let mut held = Some(item);
    for _ in 0..TURNS {
        drop(held.take());
        held = pool.pull_one(rt).ok();
    }
}

/// Makes a call, and tells what it did.
pub fn made<A: DerefMut<Target = u32> + Drop, P: Gives<A, R>, R>(
    rt: &R,
    pool: P,
    call: Call,
) -> Told {
    match call {
        Call::Pull => {
            let item = called_pull::<A, P, R>(rt, pool).ok();
            let pulled = item.as_ref().map(|item| look::<A, P, R>(item));
            Told { held: None, pulled }
        }
        Call::Turn => Told {
            held: None,
            pulled: called_turn::<A, P, R>(rt, pool),
        },
        Call::Return | Call::Turns => ended::<A, P, R>(rt, pool, call),
    }
}

/// Pulls an item, which the call then has.
fn ended<A: DerefMut<Target = u32> + Drop, P: Gives<A, R>, R>(rt: &R, pool: P, call: Call) -> Told {
    let mut held = None;
    if let Ok(mut item) = pool.pull_one(rt) {
        held = Some(mark::<A, P, R>(&mut item));
        if call == Call::Return {
            called_return(item);
        } else {
            called_turns::<A, P, R>(rt, pool, item);
        }
    }
    Told { held, pulled: None }
}
