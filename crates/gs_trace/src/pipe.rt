ghost use Rattle.std.specs.Prelude.{IfOk};
ghost use Rattle.gs_trace.specs.Streams.{ConsumesAtMost, IsRead};

use gs_script::MOST_BYTES;
use std::alloc::Global;
use std::io::Read;

/// How many bytes a read asks for at most.
const BUFFER_BYTES: usize = 4096;

/// The most bytes that are read of an input: as many as a script may have, and a buffer more.
pub const MOST_READ_BYTES: usize = MOST_BYTES + BUFFER_BYTES;

/// The most reads of an input. A reader that gives single bytes and has no end is given up on.
const MOST_READS: usize = MOST_BYTES + 2;

/// Why there is no input.
#[derive(Clone, Copy, PartialEq, Eq, Debug)]
pub enum InputError {
    /// A read failed.
    Failed,
    /// Out of memory.
    OutOfMemory,
}

/// Reads all bytes that a reader has, or more than a script may have, but then at most [`MOST_READ_BYTES`].
///
/// The reads end at the first that gives no byte, and are at most 1,048,578.
///
/// # Errors
///
/// `Failed` if a read fails, and `OutOfMemory` if out of memory. What was read until then is lost.
pub fn read_all<R: Read>(alloc: Global, reader: &mut R) -> Result<Vec<u8>, InputError>
    ensures read { IfOk result (λ bytes. IsRead (R.remaining reader.old) (R.remaining reader.new) bytes.items) }
    ensures bounded { ConsumesAtMost MOST_READ_BYTES (R.remaining reader.old) (R.remaining reader.new) }
{
    let mut bytes = Vec::new(alloc);
    let mut buffer = [0; BUFFER_BYTES];
    for _read in 0..MOST_READS {
        if bytes.len() > MOST_BYTES {
            break;
        }
        let Ok(count) = reader.read(&mut buffer) else {
            return Err(InputError::Failed);
        };
        if count == 0 {
            break;
        }
        if bytes.extend_from_slice(&buffer[..count]).is_err() {
            return Err(InputError::OutOfMemory);
        }
    }
    Ok(bytes)
}
