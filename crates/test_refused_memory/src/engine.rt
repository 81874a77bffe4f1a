//! The engine over devices that never fail: its replies are those of ample memory, but for one
//! refusal.
ghost use Rattle.object_pool_cores.specs.Engine.{IsPlayable};

use crate::assert_equal::assert_equal;
use crate::refusals::Refusals;
use arrayvec::ArrayString;
use object_pool_cores::engine;
use object_pool_cores::engine::{EngineError, Kind, Reset};
use std::alloc::Global;
use std::fmt::Write as _;
use std::process::Abort;
use std::sync::Wait;

/// The most pulls that are played: one past the first page.
const MOST_PULLS: usize = 33;

const PULL: &[u8] = b"pull\n";

/// How many pulls are played on a pool. Where it has no pages, a few show the same.
fn pulls_on(kind: Kind) -> usize {
    match kind {
        Kind::Linear | Kind::Bounded(_) => MOST_PULLS,
        Kind::Stack | Kind::None => 5,
    }
}

/// Where no pull is refused for memory.
const NOWHERE: usize = usize::MAX;

/// The replies to the pulls, of which the one at an index was refused for memory.
fn replies(kind: Kind, refused: usize) -> ArrayString<1024> {
    let mut text = ArrayString::new();
    let mut pulled = 0usize;
    for index in 0..pulls_on(kind) {
        if index == refused {
            let _ = text.try_push_str("refused memory\n");
            continue;
        }
        let _ = match kind {
            Kind::Linear | Kind::Bounded(_) => {
                write!(text, "pulled {pulled} number {pulled} value 0\n")
            }
            Kind::Stack | Kind::None => write!(text, "pulled {pulled} value 0\n"),
        };
        pulled = pulled.saturating_add(1);
    }
    text
}

/// Whether a text is the replies to the pulls, of which one was refused for memory.
fn tells_of_one_refusal(kind: Kind, text: &[u8]) -> bool {
    for refused in 0..pulls_on(kind) {
        if replies(kind, refused).as_str().as_bytes() == text {
            return true;
        }
    }
    false
}

/// The most lines of input.
fn pulls() -> [u8; 165] {
    let mut input = [0; 165];
    for line in input.chunks_mut(PULL.len()) {
        if line.len() == PULL.len() {
            line.copy_from_slice(PULL);
        }
    }
    input
}

/// Plays the input. How many bytes were written, and how it ended.
fn played(
    rt: &impl Wait,
    alloc: Global,
    kind: Kind,
    mut input: &[u8],
    room: &mut [u8],
) -> (usize, Result<(), EngineError>)
    requires { IsPlayable kind }
{
    let size = room.len();
    let mut output = room;
    let result = engine::run(rt, alloc, kind, Reset::Keep, &mut input, &mut output);
    (size.saturating_sub(output.len()), result)
}

/// Plays the pulls.
fn plays(rt: &(impl Wait + Abort), refusals: &Refusals, alloc: Global, kind: Kind)
    requires { IsPlayable kind }
{
    let lines = pulls();
    let (input, _) = lines.split_at(lines.len().min(PULL.len().saturating_mul(pulls_on(kind))));
    let mut room = [0; 1024];
    let (written, result) = played(rt, alloc, kind, input, room.as_mut_slice());
    let (text, _) = room.split_at(written.min(room.len()));
    judges(rt, refusals, kind, text, result);
}

/// Sees that a text is the replies with ample memory, or that it tells of a refusal.
fn judges(
    rt: &impl Abort,
    refusals: &Refusals,
    kind: Kind,
    text: &[u8],
    outcome: Result<(), EngineError>,
) {
    let whole = replies(kind, NOWHERE);
    let whole = whole.as_str().as_bytes();
    match outcome {
        Ok(()) => {
            if text != whole {
                refusals.note();
                assert_equal(rt, tells_of_one_refusal(kind, text), true);
            }
        }
        Err(error) => {
            refusals.note();
            assert_equal(rt, error, EngineError::Memory);
            assert_equal(rt, whole.starts_with(text), true);
            assert_equal(rt, text.is_empty() || text.ends_with(b"\n"), true);
        }
    }
}

#[test]
fn a_linear_pool_tells_of_refused_memory(rt: HostRuntime) {
    let refusals = Refusals::new();
    plays(&rt, &refusals, rt.alloc(), Kind::Linear);
    refusals.tell(&rt);
}

#[test]
fn a_bounded_pool_tells_of_refused_memory(rt: HostRuntime) {
    let refusals = Refusals::new();
    plays(&rt, &refusals, rt.alloc(), Kind::Bounded(2));
    refusals.tell(&rt);
}

#[test]
fn a_stack_tells_of_refused_memory(rt: HostRuntime) {
    let refusals = Refusals::new();
    plays(&rt, &refusals, rt.alloc(), Kind::Stack);
    refusals.tell(&rt);
}

#[test]
fn fresh_items_tell_of_refused_memory(rt: HostRuntime) {
    let refusals = Refusals::new();
    plays(&rt, &refusals, rt.alloc(), Kind::None);
    refusals.tell(&rt);
}

/// A line that takes no memory, and pulls behind it in the same read.
const BAD_LINE_AND_PULLS: &[u8] = b"?\npull\npull\n";

/// The replies to these lines, with ample memory, where no items have numbers.
const REPLIES: &[u8] = b"bad line\npulled 0 value 0\npulled 1 value 0\n";

/// Plays these lines on a pool whose opening takes no memory. So whichever request is refused, it
/// is one of a pull, and the reply to the line before goes out.
fn answers_the_first_line(rt: &(impl Wait + Abort), refusals: &Refusals, alloc: Global, kind: Kind)
    requires { IsPlayable kind }
{
    let mut room = [0; 64];
    let (written, result) = played(rt, alloc, kind, BAD_LINE_AND_PULLS, room.as_mut_slice());
    let (text, _) = room.split_at(written.min(room.len()));
    assert_equal(rt, (kind, text.starts_with(b"bad line\n")), (kind, true));
    if text != REPLIES || result.is_err() {
        refusals.note();
    }
    if let Err(error) = result {
        assert_equal(rt, (kind, error), (kind, EngineError::Memory));
    }
}

#[test]
fn a_line_before_a_refusal_is_answered(rt: HostRuntime) {
    let refusals = Refusals::new();
    answers_the_first_line(&rt, &refusals, rt.alloc(), Kind::Stack);
    answers_the_first_line(&rt, &refusals, rt.alloc(), Kind::None);
    refusals.tell(&rt);
}
