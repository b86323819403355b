//! What goes to standard output.
ghost use Rattle.std.specs.Prelude.{◌≡◌, ◌<◌, ◌≤◌, IfOk, OnErr, is_err, length, take};
ghost use Rattle.std.specs.Io.KnownBytes.{Appends, Keeps};
ghost use Rattle.qa_check.specs.Failures.{failures_after};
ghost use Rattle.qa_commands.specs.Writes.{Writes};

use qa_check::Sink;
use std::io;

/// Writes all of the bytes, in as many pieces as the writer takes. A failed write is not tried
/// again.
pub fn write_text<W: Sink>(writer: &mut W, bytes: &[u8]) -> io::Result<()>
    ensures { Writes (is_err result) (W.held writer.old) (W.held writer.new)
        (W.write_failures writer.old) (W.write_failures writer.new) bytes.now }
{
    let mut at = 0;
    while at < bytes.len() {
        let count = write_some(writer, &bytes[at..])?;
        at += count;
    }
    Ok(())
}

/// Writes some of the bytes, from the first on, and returns how many. A writer that takes none
/// failed.
fn write_some<W: Sink>(writer: &mut W, bytes: &[u8]) -> io::Result<usize>
    requires { 0 < length bytes.now }
    ensures some { IfOk result (λ count. 0 < count) }
    ensures bound { IfOk result (λ count. count ≤ length bytes.now) }
    ensures written { IfOk result (λ count.
        Appends (W.held writer.old) (W.held writer.new) (take count bytes.now)) }
    ensures unwritten { OnErr result (Keeps (W.held writer.old) (W.held writer.new)) }
    ensures failures { W.write_failures writer.new
        ≡ failures_after (is_err result) (W.write_failures writer.old) }
{
    match writer.write_piece(bytes) {
        Ok(0) => Err(io::Error::from(io::ErrorKind::WriteZero)),
        Ok(count) => Ok(count),
        Err(error) => Err(error),
    }
}
