//! Bytes that go to a writer.

ghost use Rattle.std.specs.Prelude.{◌≡◌, ℕ, ◌<◌, length, take, OnOk, OnErr};
ghost use Rattle.std.specs.Io.KnownBytes.{Appends};

use std::alloc::AllocError;
use std::io::Write;

/// A writer took no more: a write failed, or took no byte, or memory ran out for what was to be written.
#[derive(Clone, Copy, PartialEq, Eq, Debug)]
pub struct WriteFailed;

impl From<AllocError> for WriteFailed {
    fn from(_failed: AllocError) -> WriteFailed {
        WriteFailed
    }
}

/// Writes the bytes.
///
/// # Errors
///
/// `WriteFailed` if a write fails or takes no byte: a beginning of the bytes was written, short of the whole.
pub fn write_out<W: Write>(writer: &mut W, bytes: &[u8]) -> Result<(), WriteFailed>
    ensures ok { OnOk result (Appends (W.contents writer.old) (W.contents writer.new) bytes.now) }
    ensures err { OnErr result ((n : ℕ) × (n < length bytes.now) × Appends (W.contents writer.old) (W.contents writer.new) (take n bytes.now)) }
{
    let mut written = 0;
    while written < bytes.len() {
        match writer.write(&bytes[written..]) {
            Ok(count) if count > 0 => written += count,
            _ => return Err(WriteFailed),
        }
    }
    Ok(())
}
