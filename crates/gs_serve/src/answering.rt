//! The answer to one line.

ghost use Rattle.std.specs.Prelude.{◌≡◌, IfErr, OnOk};
ghost use Rattle.std.specs.Io.KnownBytes.{Keeps};
ghost use Rattle.gs_serve.specs.Answered.{StartsLine, WritesLine};
ghost use Rattle.gs_serve.specs.Served.{IsOfWriting};

use crate::answers::Answers;
use crate::fault::ServeFault;
use crate::writing::write_through;
use gs_script::NamedPolicy;
use gs_session::Session;
use std::alloc::Global;
use std::io::Write;

/// Lets a session hear a line, and writes the answer: the lines that say what came of it, and an empty one. The writer is
/// flushed.
///
/// # Errors
///
/// `OutOfMemory` if out of memory, also if the reply to an event tells of that: then nothing was written.
/// `WriteFailed` if a write fails or takes no byte, and `ReaderGone` if that is so because nobody reads what is written.
/// Then the line was heard, and a beginning of its answer was written.
pub(crate) fn answer_by<P: NamedPolicy, A: Answers<P>, W: Write>(
    alloc: Global,
    answers: &mut A,
    session: &mut Session<P>,
    line: &[u8],
    writer: &mut W,
) -> Result<(), ServeFault>
    requires { A.follows answers.old session.old }
    ensures answered { OnOk result (WritesLine A.way (A.noted answers.old) session.old line.now (A.noted answers.new) session.new (W.contents writer.old) (W.contents writer.new)) }
    ensures unwritten { IfErr result (λ e. (IsOfWriting e → ⊥) → Keeps (W.contents writer.old) (W.contents writer.new)) }
    ensures begun { IfErr result (λ e. IsOfWriting e → StartsLine A.way (A.noted answers.old) session.old line.now (A.noted answers.new) session.new (W.contents writer.old) (W.contents writer.new)) }
    ensures follows { OnOk result (A.follows answers.new session.new) }
{
    let mut text = answers.hear(alloc, session, line)?;
    text.end_line()?;
    write_through(writer, text.as_bytes())
}
