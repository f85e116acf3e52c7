ghost use Rattle.std.specs.Prelude.{◌≡◌, [], OnErr, OnOk};
ghost use Rattle.gs_session.specs.Session.{unheard};
ghost use Rattle.gs_serve.specs.Answered.{BeginsServingBy, BeginsServingExplained, IsServedBy, IsServedExplained};
ghost use Rattle.gs_serve.specs.Served.{BeginsServing, IsServed};

use crate::answering::answer_by;
use crate::answers::Answers;
use crate::explained::Explained;
use crate::fault::ServeFault;
use crate::plain::Plain;
use crate::prompt::Prompt;
use crate::source::{Came, Source};
use gs_script::NamedPolicy;
use gs_session::Session;
use std::alloc::Global;
use std::io::{Read, Write};

/// Answers the lines that a source gives, each before the reader is asked for more. A line is kept in the place of the one before.
fn serve_from<P: NamedPolicy, A: Answers<P>, T: Prompt, R: Read, W: Write>(
    alloc: Global,
    answers: &mut A,
    prompt: &T,
    session: &mut Session<P>,
    source: &mut Source,
    line: &mut Vec<u8>,
    reader: &mut R,
    writer: &mut W,
) -> Result<(), ServeFault>
    requires unheard { session.old ≡ unheard }
    requires unread { source.old ≡ [] }
    requires follows { A.follows answers.old session.old }
    ensures served { OnOk result (IsServedBy A.way (A.noted answers.old) (R.remaining reader.old) (R.remaining reader.new) (W.contents writer.old) (W.contents writer.new)) }
    ensures begun { OnErr result (BeginsServingBy A.way (A.noted answers.old) (R.remaining reader.old) (W.contents writer.old) (W.contents writer.new)) }
{
    for _round in 0..usize::MAX {
        match source.next(prompt, reader, line)? {
            Came::Nothing => return Ok(()),
            Came::Last => return answer_by(alloc, answers, session, line, writer),
            Came::Line => answer_by(alloc, answers, session, line, writer)?,
        }
    }
    Err(ServeFault::ReadFailed)
}

/// Answers the lines that a reader gives, one way or another.
fn serve_by<P: NamedPolicy, A: Answers<P>, T: Prompt, R: Read, W: Write>(
    alloc: Global,
    answers: &mut A,
    prompt: &T,
    reader: &mut R,
    writer: &mut W,
) -> Result<(), ServeFault>
    requires { A.follows answers.old unheard }
    ensures served { OnOk result (IsServedBy A.way (A.noted answers.old) (R.remaining reader.old) (R.remaining reader.new) (W.contents writer.old) (W.contents writer.new)) }
    ensures begun { OnErr result (BeginsServingBy A.way (A.noted answers.old) (R.remaining reader.old) (W.contents writer.old) (W.contents writer.new)) }
{
    let mut session = Session::<P>::new(alloc);
    let mut source = Source::new();
    let mut line = Vec::new(alloc);
    serve_from(
        alloc,
        answers,
        prompt,
        &mut session,
        &mut source,
        &mut line,
        reader,
        writer,
    )
}

/// Answers the lines that a reader gives, each before the reader is asked for more: the prompt comes before each read. The answer to a line is the lines of
/// its reply, or that of its fault, and an empty line; then the writer is flushed. A line with a fault changes nothing,
/// and the next one is heard.
///
/// A line is kept up to one byte more than a script may have, and with more it has the fault `TooLong`. What stands
/// behind the last newline is a line too, unless it is empty. No more is kept of what was read, so that memory grows
/// by the machine's alone.
///
/// # Errors
///
/// `ReadFailed` if a read fails, and after 2^64 - 1 lines. `OutOfMemory` if out of memory, also if the reply to an
/// event tells of that. `WriteFailed` if a write fails or takes no byte, and `ReaderGone` if that is so because nobody
/// reads what is written. See [`ServeFault`] for what was written then.
///
/// # Examples
///
/// What the program does with standard input, where the prompt writes only if a terminal is to give lines:
///
/// ```
/// match explained {
///     false => serve::<P, Q, R, W>(alloc, prompt, reader, writer),
///     true => serve_explained::<P, Q, R, W>(alloc, prompt, reader, writer),
/// }
/// ```
#[tactic(auto, using(crate::proofs::Plainly::all_served, crate::proofs::Plainly::serving_begun))]
pub fn serve<P: NamedPolicy, T: Prompt, R: Read, W: Write>(
    alloc: Global,
    prompt: &T,
    reader: &mut R,
    writer: &mut W,
) -> Result<(), ServeFault>
    ensures served { OnOk result (IsServed P.naming P.chosen (R.remaining reader.old) (R.remaining reader.new) (W.contents writer.old) (W.contents writer.new)) }
    ensures begun { OnErr result (BeginsServing P.naming P.chosen (R.remaining reader.old) (W.contents writer.old) (W.contents writer.new)) }
{
    serve_by::<P, Plain, T, R, W>(alloc, &mut Plain, prompt, reader, writer)
}

/// Answers the lines that a reader gives as [`serve`] does, with the reasons. Behind each landing that was not placed, each
/// refusal, each stop and each tear-down stands an indented line that says why, as `ghost explain` says it. Sentences name
/// lines by their numbers. The first line that is read is line 1, and blank lines and lines with a fault are counted too.
///
/// Beside the machine what is needed for the reasons is kept. It grows with the journal and the transactions.
///
/// # Errors
///
/// As of [`serve`].
///
/// # Examples
///
/// If reasons are asked for:
///
/// ```
/// true => serve_explained::<P, Q, R, W>(alloc, prompt, reader, writer),
/// ```
pub fn serve_explained<P: NamedPolicy, T: Prompt, R: Read, W: Write>(
    alloc: Global,
    prompt: &T,
    reader: &mut R,
    writer: &mut W,
) -> Result<(), ServeFault>
    ensures served { OnOk result (IsServedExplained P.naming P.chosen (R.remaining reader.old) (R.remaining reader.new) (W.contents writer.old) (W.contents writer.new)) }
    ensures begun { OnErr result (BeginsServingExplained P.naming P.chosen (R.remaining reader.old) (W.contents writer.old) (W.contents writer.new)) }
{
    let mut answers = Explained::<P>::new(alloc);
    serve_by(alloc, &mut answers, prompt, reader, writer)
}
