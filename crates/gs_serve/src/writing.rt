ghost use Rattle.std.specs.Prelude.{◌≤◌, ℕ, IfErr, OnErr, OnOk, length, take};
ghost use Rattle.std.specs.Io.KnownBytes.{Appends};
ghost use Rattle.gs_serve.specs.Served.{IsOfWriting};

use crate::fault::ServeFault;
use std::io::{Error, ErrorKind, Write};

/// Returns why a write failed: what reads the output may have ended.
fn failed(error: &Error) -> ServeFault
    ensures { IsOfWriting result }
{
    match error.kind() {
        ErrorKind::BrokenPipe => ServeFault::ReaderGone,
        _ => ServeFault::WriteFailed,
    }
}

/// Writes the bytes, and flushes.
pub(crate) fn write_through<W: Write>(writer: &mut W, bytes: &[u8]) -> Result<(), ServeFault>
    ensures ok { OnOk result (Appends (W.contents writer.old) (W.contents writer.new) bytes.now) }
    ensures err { OnErr result ((n : ℕ) × Appends (W.contents writer.old) (W.contents writer.new) (take n bytes.now)) }
    ensures why { IfErr result IsOfWriting }
{
    let mut written = 0;
    while written < bytes.len() {
        match writer.write(&bytes[written..]) {
            Ok(0) => return Err(ServeFault::WriteFailed),
            Ok(count) => written += count,
            Err(error) => return Err(failed(&error)),
        }
    }
    match writer.flush() {
        Ok(()) => Ok(()),
        Err(error) => Err(failed(&error)),
    }
}
