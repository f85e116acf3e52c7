ghost use Rattle.std.specs.Prelude.{◌≡◌, IfOk, map};
ghost use Rattle.gs_report.specs.Report.{last_lines};

use circular_buffer::HeapCircularBuffer;
use std::alloc::{AllocError, Global};

/// Returns the last lines of a text, in order and without their newlines: all of them if there are fewer.
///
/// It fails only if out of memory.
pub(crate) fn last_lines<'a>(
    alloc: Global,
    text: &'a str,
    last: usize,
) -> Result<HeapCircularBuffer<&'a str>, AllocError>
    ensures { IfOk result (λ kept. map (λ line. line.now) kept.items ≡ last_lines last text.now) }
{
    // No text has more lines than bytes.
    let most = last.min(text.len());
    let mut kept = HeapCircularBuffer::with_capacity(alloc, most)?;
    for line in text.lines() {
        kept.push_back(line);
    }
    Ok(kept)
}
