//! The engine on any sequential pool: it reads lines, plays their commands and writes the replies.
ghost use Rattle.std.specs.Prelude.{◌≡◌, ◌≢◌, ◌≤◌, ◌++◌, ℕ, List, [], Some, Err, IfOk, OnOk, OnErr};
ghost use Rattle.std.specs.Prelude.{length};
ghost use Rattle.std.specs.Io.KnownBytes.{Appends, Consumes, IsAtEnd, Keeps};
ghost use Rattle.object_pool_cores.specs.declared.engine.session.TheConstants.{CHUNK};
ghost use Rattle.object_pool_cores.specs.Inside.Buffered.{IsBuffered, IsOpenLine};
ghost use Rattle.object_pool_cores.specs.Inside.LastLine.{AnswersLastLine};
ghost use Rattle.object_pool_cores.specs.Transcript.{AnswersCommand, AnswersLine};
ghost use Rattle.object_pool_cores.specs.Served.{AppendsPart, ServesLines, ServesAllLines};
ghost use Rattle.object_pool_cores.specs.Served.{ServesFrontLines, StopsWriting};

use crate::engine::EngineError;
use crate::engine::line_buffer::LineBuffer;
use crate::engine::output::write_whole;
use crate::engine::reply_text::{
    LONGEST_REPLY, ReplyText, attach_refusal, held_line, indexed_line, plain_line, pulled_line,
    refusal,
};
use crate::sequential::{Command, Player, RunError, SequentialPool};
use arrayvec::ArrayString;
use std::io::{Read, Write};
use std::sync::Wait;

/// The most bytes that are read at a time.
const CHUNK: usize = 1024;

/// The most bytes of the replies to the lines of one read: a longest reply for each byte.
const GATHERED: usize = CHUNK * LONGEST_REPLY;

/// The replies to the lines of one read.
type Replies = ArrayString<GATHERED>;

const LINE_FEED: u8 = b'\n';

/// Plays the lines of all that there is to read, and writes a reply for each.
///
/// # Errors
///
/// `Read`, `Write` or `Memory`, as of [`run`](crate::engine::run).
pub(super) fn serve<H: Wait, P: SequentialPool<u32>, R: Read, W: Write>(
    rt: &H,
    player: &mut Player<u32, P>,
    input: &mut R,
    output: &mut W,
) -> Result<(), EngineError>
    ensures ok { OnOk result ((bytes : List ℕ)
        × Consumes (R.remaining input.old) (R.remaining input.new) bytes
        × IsAtEnd (R.remaining input.new)
        × ServesAllLines P.pulls P.gives P.attaches Appends player.old (W.contents output.old) bytes
        (W.contents output.new)) }
    ensures read { result ≡ Err EngineError.Read → (bytes rest : List ℕ) × (last : _)
        × Consumes (R.remaining input.old) (R.remaining input.new) bytes
        × ServesLines P.pulls P.gives P.attaches Appends player.old (W.contents output.old) bytes
        rest last (W.contents output.new) }
    ensures write { result ≡ Err EngineError.Write
        → (bytes : List ℕ) × Consumes (R.remaining input.old) (R.remaining input.new) bytes
        × StopsWriting P.pulls P.gives P.attaches (IsAtEnd (R.remaining input.new)) player.old
        (W.contents output.old) bytes (W.contents output.new) }
    ensures memory { result ≡ Err EngineError.Memory
        → (bytes : List ℕ) × Consumes (R.remaining input.old) (R.remaining input.new) bytes
        × ServesFrontLines P.pulls P.gives P.attaches Appends player.old (W.contents output.old)
        bytes (W.contents output.new) }
{
    let mut line = LineBuffer::new();
    let mut chunk = [0u8; CHUNK];
    let mut replies = Replies::new();
    'reads: for _ in rt.forever() {
        let count = match input.read(&mut chunk) {
            Ok(count) => count,
            Err(_) => return Err(EngineError::Read),
        };
        if count == 0 {
            break;
        }
        serve_chunk(player, &mut line, &chunk[..count], &mut replies, output)?;
    }
    serve_last(player, &line, output)
}

/// Takes more bytes, and answers the lines that they end. The replies are gathered, and written as
/// one.
///
/// # Errors
///
/// `Memory` if a command finds none, after the replies before it are written. `Write`.
fn serve_chunk<P: SequentialPool<u32>, W: Write>(
    player: &mut Player<u32, P>,
    line: &mut LineBuffer,
    bytes: &[u8],
    replies: &mut Replies,
    output: &mut W,
) -> Result<(), EngineError>
    requires { length bytes.now ≤ CHUNK }
    ensures ok { OnOk result ((rest : List ℕ) → IsOpenLine rest line.old
        → (more : List ℕ) × IsOpenLine more line.new
        × ServesLines P.pulls P.gives P.attaches Appends player.old (W.contents output.old)
        (rest ++ bytes.now) more player.new (W.contents output.new)) }
    ensures write { result ≡ Err EngineError.Write → (rest : List ℕ) → IsOpenLine rest line.old
        → ServesFrontLines P.pulls P.gives P.attaches AppendsPart player.old (W.contents output.old)
        (rest ++ bytes.now) (W.contents output.new) }
    ensures memory { result ≡ Err EngineError.Memory → (rest : List ℕ) → IsOpenLine rest line.old
        → ServesFrontLines P.pulls P.gives P.attaches Appends player.old (W.contents output.old)
        (rest ++ bytes.now) (W.contents output.new) }
    ensures read { result ≢ Err EngineError.Read }
{
    replies.clear();
    let fed = feed(player, line, bytes, replies);
    let Ok(()) = write_whole(output, replies.as_str().as_bytes()) else {
        return Err(EngineError::Write);
    };
    match fed {
        Ok(()) => Ok(()),
        Err(RunError::Memory) => Err(EngineError::Memory),
    }
}

/// Takes more bytes, and gathers the replies to the lines that they end.
///
/// # Errors
///
/// `Memory` if a command finds none. The replies before it are gathered.
fn feed<P: SequentialPool<u32>>(
    player: &mut Player<u32, P>,
    line: &mut LineBuffer,
    bytes: &[u8],
    replies: &mut Replies,
) -> Result<(), RunError>
    requires bytes { length bytes.now ≤ CHUNK }
    requires replies { replies.old.bytes ≡ [] }
    ensures ok { OnOk result ((rest : List ℕ) → IsOpenLine rest line.old
        → (more : List ℕ) × IsOpenLine more line.new
        × ServesLines P.pulls P.gives P.attaches Appends player.old (Some [])
        (rest ++ bytes.now) more player.new (Some replies.new.bytes)) }
    ensures err { OnErr result ((rest : List ℕ) → IsOpenLine rest line.old
        → ServesFrontLines P.pulls P.gives P.attaches Appends player.old (Some [])
        (rest ++ bytes.now) (Some replies.new.bytes)) }
{
    for byte in bytes {
        if *byte == LINE_FEED {
            let text = answer(player, line)?;
            replies.push_str(text.as_str());
            *line = LineBuffer::new();
        } else {
            line.push(*byte);
        }
    }
    Ok(())
}

/// Answers what comes after the last line feed, if there is anything.
///
/// # Errors
///
/// `Write` or `Memory`.
fn serve_last<P: SequentialPool<u32>, W: Write>(
    player: &mut Player<u32, P>,
    line: &LineBuffer,
    output: &mut W,
) -> Result<(), EngineError>
    ensures ok { OnOk result ((rest : List ℕ) → IsBuffered rest line.now
        → AnswersLastLine P.pulls P.gives P.attaches Appends player.old (W.contents output.old) rest
        (W.contents output.new)) }
    ensures write { result ≡ Err EngineError.Write → (rest : List ℕ) → IsBuffered rest line.now
        → AnswersLastLine P.pulls P.gives P.attaches AppendsPart player.old (W.contents output.old)
        rest (W.contents output.new) }
    ensures memory { result ≡ Err EngineError.Memory
        → Keeps (W.contents output.old) (W.contents output.new) }
    ensures read { result ≢ Err EngineError.Read }
{
    if line.is_empty() {
        return Ok(());
    }
    serve_line(player, line, output)
}

/// Answers one line.
///
/// # Errors
///
/// `Write` or `Memory`. If it is `Memory`, nothing was written.
fn serve_line<P: SequentialPool<u32>, W: Write>(
    player: &mut Player<u32, P>,
    line: &LineBuffer,
    output: &mut W,
) -> Result<(), EngineError>
    ensures ok { OnOk result ((bytes : List ℕ) → IsBuffered bytes line.now
        → (text : List ℕ) × AnswersLine P.pulls P.gives P.attaches player.old bytes text player.new
        × Appends (W.contents output.old) (W.contents output.new) text) }
    ensures write { result ≡ Err EngineError.Write → (bytes : List ℕ) → IsBuffered bytes line.now
        → (text : List ℕ) × (last : _)
        × AnswersLine P.pulls P.gives P.attaches player.old bytes text last
        × AppendsPart (W.contents output.old) (W.contents output.new) text }
    ensures memory { result ≡ Err EngineError.Memory
        → Keeps (W.contents output.old) (W.contents output.new) }
    ensures read { result ≢ Err EngineError.Read }
{
    match answer(player, line) {
        Ok(text) => match write_whole(output, text.as_str().as_bytes()) {
            Ok(()) => Ok(()),
            Err(_) => Err(EngineError::Write),
        },
        Err(RunError::Memory) => Err(EngineError::Memory),
    }
}

/// Plays the command of a line, and makes its reply's text.
///
/// # Errors
///
/// `Memory`, which leaves the player as it was.
fn answer<P: SequentialPool<u32>>(
    player: &mut Player<u32, P>,
    line: &LineBuffer,
) -> Result<ReplyText, RunError>
    ensures ok { IfOk result (λ text. (bytes : List ℕ) → IsBuffered bytes line.now
        → AnswersLine P.pulls P.gives P.attaches player.old bytes text.bytes player.new) }
    ensures err { OnErr result (player.new ≡ player.old) }
{
    let Some(command) = line.command() else {
        return Ok(plain_line("bad line"));
    };
    answer_of(player, command)
}

/// Plays a command, and makes its reply's text. That of a pull shows the value of the item.
///
/// # Errors
///
/// `Memory`, which leaves the player as it was.
fn answer_of<P: SequentialPool<u32>>(
    player: &mut Player<u32, P>,
    command: Command<u32>,
) -> Result<ReplyText, RunError>
    ensures ok { IfOk result (λ text. AnswersCommand P.pulls P.gives P.attaches player.old command
        text.bytes player.new) }
    ensures err { OnErr result (player.new ≡ player.old) }
{
    match command {
        Command::Pull => match player.pull()? {
            Ok((index, number)) => Ok(pulled_line(index, number, *player.held(index).unwrap())),
            Err(cause) => Ok(plain_line(refusal(cause))),
        },
        Command::Write(index, value) => {
            Ok(held_line(player.write(index, value), "written ", index))
        }
        Command::Return(index) => Ok(held_line(player.give(index), "returned ", index)),
        Command::Forget(index) => Ok(held_line(player.forget(index), "forgotten ", index)),
        Command::Attach(value) => match player.attach(value)? {
            Ok(index) => Ok(indexed_line("attached ", index)),
            Err(error) => Ok(plain_line(attach_refusal(&error))),
        },
    }
}
