//! The engine's own loop over `write`.
ghost use Rattle.std.specs.Prelude.{OnOk, OnErr};
ghost use Rattle.std.specs.Io.KnownBytes.{Appends};
ghost use Rattle.object_pool_cores.specs.Served.{AppendsPart};

use std::io::Write;

/// The error of a write that failed or took nothing.
#[derive(Clone, Copy, Debug)]
pub(super) struct WriteFailed;

/// Writes all the bytes.
///
/// # Errors
///
/// `WriteFailed` if a write fails, also if it is interrupted, or takes nothing.
pub(super) fn write_whole<W: Write>(output: &mut W, bytes: &[u8]) -> Result<(), WriteFailed>
    ensures ok { OnOk result (Appends (W.contents output.old) (W.contents output.new) bytes.now) }
    ensures err { OnErr result
        (AppendsPart (W.contents output.old) (W.contents output.new) bytes.now) }
{
    let mut rest = bytes;
    while !rest.is_empty() {
        match output.write(rest) {
            Ok(0) | Err(_) => return Err(WriteFailed),
            Ok(count) => rest = rest.split_at(count).1,
        }
    }
    Ok(())
}
