//! Calls are read and done one after another, and each is answered.
use super::call::{Call, Origin, call_of};
use super::held::{Given, Held, Place, Source};
use super::item::{Item, Shown, Totals};
use super::pools::Gives;
use anyhow::{Context, Result, ensure};
use std::alloc::Global;
use std::io::{BufRead, BufReader, BufWriter, Write};
use std::ops::DerefMut;
use std::sync::Arc;
use std::{fmt, io, mem};
use test_values::tally::Tally;

/// What a call gave.
#[derive(Clone, Copy)]
enum Answer {
    /// An item came.
    Came(Shown, Option<Place>),
    /// The pool has no item to give, or attaches none.
    Refused,
    /// What was written to the item before.
    Was(u64),
    /// The item went.
    Went,
}

impl fmt::Display for Answer {
    fn fmt<W: fmt::Write>(&self, f: &mut fmt::Formatter<W>) -> fmt::Result {
        match self {
            Answer::Came(Shown { number, content }, None) => write!(
                f,
                "item {number} has {content}"
            ),
            Answer::Came(Shown { number, content }, Some(Place { page, id })) => {
                write!(f, "item {number} at {page} {id} has {content}")
            }
            Answer::Refused => f.write_str("refused"),
            Answer::Was(content) => write!(f, "had {content}"),
            Answer::Went => f.write_str("went"),
        }
    }
}

/// Does the calls of standard input, and answers each by a line, with the counts. At the end the
/// held items are dropped.
pub fn replay<R: Input + Print + AllocGlobal, P: Gives<R>, Q: Gives<R>>(
    rt: &R,
    tally: &Arc<Tally>,
    borrowed: &P,
    owned: &Q,
) -> Result<()>
    requires borrowed { P.may_give borrowed.now }
    requires owned { Q.may_give owned.now }
{
    let mut held = Vec::new(rt.alloc());
    let mut output = BufWriter::new(rt.alloc(), io::writer(rt))?;
    for line in BufReader::new(rt.alloc(), rt.reader())?.lines(rt.alloc()) {
        let call = call_in(rt.alloc(), line)?;
        let answer = answer_to(rt, tally, borrowed, owned, &mut held, call)?;
        show(&mut output, &answer, tally)?;
    }
    output.flush()?;
    Ok(())
}

/// Writes an answer, and the counts.
fn show<W: Write>(output: &mut W, answer: &Answer, tally: &Tally) -> Result<()> {
    writeln!(output, "{answer}: {}", Totals { tally })?;
    Ok(())
}

/// The call that a line writes.
fn call_in(alloc: Global, line: io::Result<String>) -> Result<Call> {
    let line = line?;
    let words: Vec<&str> = line.split_whitespace().collect(alloc)?;
    call_of(&words).context("a line is no call")
}

/// Does a call, and returns its answer.
fn answer_to<R, P: Gives<R>, Q: Gives<R>>(
    rt: &R,
    tally: &Arc<Tally>,
    borrowed: &P,
    owned: &Q,
    held: &mut Vec<Held<P::Came, Q::Came>>,
    call: Call,
) -> Result<Answer>
    requires borrowed { P.may_give borrowed.now }
    requires owned { Q.may_give owned.now }
{
    match call {
        Call::Borrow(origin) => {
            let source = source_of(tally, origin)?;
            hold_borrowed(held, borrowed.give(rt, source))
        }
        Call::Own(origin) => {
            let source = source_of(tally, origin)?;
            hold_owned(held, owned.give(rt, source))
        }
        Call::Write { place, content } => write(held, place, content),
        Call::Drop(place) => let_go(held, place, false),
        Call::Forget(place) => let_go(held, place, true),
    }
}

/// What a pool is asked for.
fn source_of(tally: &Arc<Tally>, origin: Origin) -> Result<Source> {
    match origin {
        Origin::Pool => Ok(Source::Pool),
        Origin::Caller(number) => {
            let item = Item::new(tally, number).context("the counts have no more owners")?;
            Ok(Source::Caller(item))
        }
    }
}

/// Holds an item that came under a borrow.
fn hold_borrowed<A: DerefMut<Target = Item> + Drop, B: Drop>(
    held: &mut Vec<Held<A, B>>,
    given: Option<Given<A>>,
) -> Result<Answer> {
    let Some(Given { item, place }) = given else {
        return Ok(Answer::Refused);
    };
    let shown = item.shown();
    held.push(Held::Borrowed(item))?;
    Ok(Answer::Came(shown, place))
}

/// Holds an item that came with an owner.
fn hold_owned<A: Drop, B: DerefMut<Target = Item> + Drop>(
    held: &mut Vec<Held<A, B>>,
    given: Option<Given<B>>,
) -> Result<Answer> {
    let Some(Given { item, place }) = given else {
        return Ok(Answer::Refused);
    };
    let shown = item.shown();
    held.push(Held::Owned(item))?;
    Ok(Answer::Came(shown, place))
}

/// Writes to the item at a place.
fn write<A: DerefMut<Target = Item>, B: DerefMut<Target = Item>>(
    held: &mut Vec<Held<A, B>>,
    place: usize,
    content: u64,
) -> Result<Answer> {
    let item = held.get_mut(place).context("no such item")?;
    Ok(Answer::Was(item.write(content)))
}

/// Drops or forgets the item at a place, which the last one takes.
fn let_go<H: Drop>(held: &mut Vec<H>, place: usize, is_forgotten: bool) -> Result<Answer> {
    ensure!(place < held.len(), "no such item");
    let item = held.swap_remove(place);
    if is_forgotten {
        mem::forget(item);
    } else {
        drop(item);
    }
    Ok(Answer::Went)
}
