//! Lines of commands in, lines of replies out, on a pool of numbers.
ghost use Rattle.std.specs.Prelude.{◌≡◌, ◌≤◌, [], IfSome};
ghost use Rattle.object_pool_cores.specs.Engine.{Ends, IsPlayable, leaves_of, linear_kind};
ghost use Rattle.object_pool_cores.specs.Inside.EngineCore.{IsEngineCore};

mod command_text;
mod engine_error;
mod kind;
mod line_buffer;
mod output;
mod reply_text;
mod session;

use crate::sequential::{LinearCore, NoneCore, Player, StackCore};
pub use command_text::number_of;
pub use engine_error::EngineError;
pub use kind::{Kind, Reset};
use pool_parts::clean::AnyValue;
use pool_parts::closures::{self, Copied, Keep};
use session::serve;
use std::alloc::Global;
use std::io::{Read, Write};
use std::sync::Wait;

/// Plays the lines of `input` on a new pool whose items are made as 0, and writes a reply for each
/// line to `output`.
///
/// The replies to the lines of one read are written before the next read. It reads until there is
/// no more, so it may wait.
///
/// # Errors
///
/// `Read` if a read fails. `Write` if a write fails or takes nothing. One that is interrupted has
/// failed. `Memory` if there is none for the pool or for its player. The replies that were written
/// until then stand.
///
/// # Examples
///
/// ```rust
/// let mut input = "pull\n".as_bytes();
/// let mut output = Vec::new(alloc);
/// let (kind, reset) = (Kind::Linear, Reset::Keep);
/// engine::run(&rt, alloc, kind, reset, &mut input, &mut output)?;
/// ```
pub fn run<H: Wait, R: Read, W: Write>(
    rt: &H,
    alloc: Global,
    kind: Kind,
    reset: Reset,
    input: &mut R,
    output: &mut W,
) -> Result<(), EngineError>
    requires { IsPlayable kind }
    ensures { Ends kind (leaves_of reset) result (R.remaining input.old) (R.remaining input.new)
        (W.contents output.old) (W.contents output.new) }
{
    match reset {
        Reset::Zero => run_on(rt, alloc, kind, Copied::new(0), input, output),
        Reset::Keep => run_on(rt, alloc, kind, Keep, input, output),
    }
}

/// Plays on a pool whose items are reset so.
fn run_on<H: Wait, S: closures::Reset<u32, AnyValue>, R: Read, W: Write>(
    rt: &H,
    alloc: Global,
    kind: Kind,
    reset: S,
    input: &mut R,
    output: &mut W,
) -> Result<(), EngineError>
    requires { IsPlayable kind }
    ensures { Ends kind (S.leaves reset) result (R.remaining input.old) (R.remaining input.new)
        (W.contents output.old) (W.contents output.new) }
{
    match kind {
        Kind::Linear => run_linear(rt, alloc, None, reset, input, output),
        Kind::Bounded(pages) => run_linear(rt, alloc, Some(pages), reset, input, output),
        Kind::Stack => run_stack(rt, alloc, reset, input, output),
        Kind::None => run_none::<H, S, R, W>(rt, alloc, reset, input, output),
    }
}

/// Plays on a linear pool, of at most so many pages if there is a limit.
fn run_linear<H: Wait, S: closures::Reset<u32, AnyValue>, R: Read, W: Write>(
    rt: &H,
    alloc: Global,
    limit: Option<usize>,
    reset: S,
    input: &mut R,
    output: &mut W,
) -> Result<(), EngineError>
    requires { IfSome limit (λ pages. 1 ≤ pages) }
    ensures { Ends (linear_kind limit) (S.leaves reset) result (R.remaining input.old)
        (R.remaining input.new) (W.contents output.old) (W.contents output.new) }
{
    let Some(mut player) = player_of(alloc, limit, reset) else {
        return Err(EngineError::Memory);
    };
    serve(rt, &mut player, input, output)
}

/// Creates a player on a new linear pool, or returns `None` if there is no memory for its first
/// page. That alone refuses it: a copy is always made.
fn player_of<S: closures::Reset<u32, AnyValue>>(
    alloc: Global,
    limit: Option<usize>,
    reset: S,
) -> Option<Player<u32, LinearCore<u32, Copied<u32, AnyValue>, S, AnyValue>>>
    requires { IfSome limit (λ pages. 1 ≤ pages) }
    ensures opens { IfSome result (λ player. IsEngineCore limit reset player.pool) }
    ensures held { IfSome result (λ player. player.held ≡ []) }
{
    let init = Copied::new(0);
    let core = match limit {
        Some(pages) => LinearCore::with_limit(alloc, init, reset, pages),
        None => LinearCore::new(alloc, init, reset),
    };
    Some(Player::new(alloc, core.ok()?))
}

/// Plays on a stack of kept items.
fn run_stack<H: Wait, S: closures::Reset<u32, AnyValue>, R: Read, W: Write>(
    rt: &H,
    alloc: Global,
    reset: S,
    input: &mut R,
    output: &mut W,
) -> Result<(), EngineError>
    ensures { Ends Kind.Stack (S.leaves reset) result (R.remaining input.old)
        (R.remaining input.new) (W.contents output.old) (W.contents output.new) }
{
    let core = StackCore::<u32, _, _, AnyValue>::new(alloc, Copied::new(0), reset);
    serve(rt, &mut Player::new(alloc, core), input, output)
}

/// Plays on fresh items, which nothing resets.
fn run_none<H: Wait, S: closures::Reset<u32, AnyValue>, R: Read, W: Write>(
    rt: &H,
    alloc: Global,
    reset: S,
    input: &mut R,
    output: &mut W,
) -> Result<(), EngineError>
    ensures { Ends Kind.None (S.leaves reset) result (R.remaining input.old) (R.remaining input.new)
        (W.contents output.old) (W.contents output.new) }
{
    drop(reset);
    let core = NoneCore::new(Copied::new(0));
    serve(rt, &mut Player::new(alloc, core), input, output)
}
