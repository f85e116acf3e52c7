ghost use Rattle.std.specs.Prelude.{◌≡◌, ◌≢◌, IfOk, IfErr, IsErrOf, OnOk, string_bytes};
ghost use Rattle.std.specs.Io.KnownBytes.{Keeps};
ghost use Rattle.gs_trace.specs.declared.run.Ended.TheVariants.{Ran};
ghost use Rattle.gs_trace.specs.declared.run.TraceFault.TheVariants.{OutOfMemory};
ghost use Rattle.gs_trace.specs.Output.{Answers, IsOutput, IsReport, IsShown, fault_line, reason_text, shown_as};
ghost use Rattle.gs_script.specs.Script.{script_of};
ghost use Rattle.gs_trace.specs.Streams.{AnswersAll, AnswersOf, AnswersRead, BeginsAnswer, ConsumesAtMost, Leaves, Writes};

use crate::answering::{Answering, Unanswered, answer_script};
use crate::form::{Form, show};
use crate::pipe::MOST_READ_BYTES;
use gs_core::Machine;
use gs_script::{NamedPolicy, Opened, Reason, ScriptError, ScriptFault, open_script};
use std::alloc::{AllocError, Global};
use std::io::{Read, Write};
use thiserror::Error;

/// How a script ended.
#[derive(Clone, Copy, PartialEq, Eq, Debug)]
pub enum Ended {
    /// Its events were run, and each had its reply.
    Ran,
    /// It has a fault, and nothing of its events was shown.
    Faulted,
}

/// Why a script didn't end.
#[derive(Clone, Copy, PartialEq, Eq, Debug, Error)]
pub enum TraceFault {
    /// A read failed. Nothing was written.
    #[error("the script could not be read")]
    ReadFailed,
    /// Out of memory, at an event too. Nothing was written.
    #[error("out of memory")]
    OutOfMemory,
    /// A write failed, or took no byte. So counts a picture or a trace that needs more memory while it is drawn than was made
    /// room for. A beginning of the output was written, short of the whole.
    #[error("the output could not be written")]
    WriteFailed,
}

impl From<AllocError> for TraceFault {
    ghost from_gives = { λ _ fault. fault ≡ OutOfMemory };

    fn from(_failed: AllocError) -> TraceFault {
        TraceFault::OutOfMemory
    }
}

/// How a script ended, and the bytes that were read of it.
#[derive(Drop)]
pub struct Kept {
    pub ended: Ended,
    pub input: Vec<u8>,
}

/// The name of a reason.
fn reason_name(reason: Reason) -> &'static str
    ensures { result.now ≡ reason_text reason }
{
    match reason {
        Reason::TooLong => "TooLong",
        Reason::BadByte => "BadByte",
        Reason::NoHeader => "NoHeader",
        Reason::BadWord => "BadWord",
        Reason::BadCount => "BadCount",
        Reason::BadNumber => "BadNumber",
        Reason::BadName => "BadName",
    }
}

/// Returns the line of a fault, with its newline. It fails only if out of memory.
pub fn fault_text(alloc: Global, fault: ScriptFault) -> Result<String, AllocError>
    ensures { IfOk result (λ text. string_bytes text ≡ fault_line fault) }
{
    let ScriptFault { line, reason } = fault;
    let name = reason_name(reason);
    let mut text = format!(in alloc; "fault line {line} {name}")?;
    text.push('\n')?;
    Ok(text)
}

/// Runs the script that an input says, and writes what came of it in this form. It fails with the script's first
/// fault, or out of memory, and nothing was written then, or if a write fails.
fn run_input<P: NamedPolicy, W: Write>(
    alloc: Global,
    input: &[u8],
    form: Form,
    writer: &mut W,
) -> Result<(), Unanswered>
    ensures shown { OnOk result (Writes (IsShown P.naming P.chosen (shown_as form) input.now Ran) (W.contents writer.old) (W.contents writer.new)) }
    ensures left { IfErr result (Leaves (script_of P.naming input.now) (IsShown P.naming P.chosen (shown_as form) input.now Ran) (W.contents writer.old) (W.contents writer.new)) }
{
    let Opened {
        config,
        header,
        reading,
    } = open_script::<P>(alloc, input)?;
    // (a configuration that was read can be opened, unless out of memory)
    let Ok(mut machine) = Machine::new(alloc, config) else {
        return Err(Unanswered::Script(ScriptError::OutOfMemory));
    };
    show(alloc, form, &mut machine, header, reading, writer)
}

/// What came of a script, shown in a form.
impl<P: NamedPolicy> Answering<P> for Form {
    ghost shows = { λ form input. Answers P.chosen (shown_as form) };

    fn answer<W: Write>(
        &self,
        alloc: Global,
        input: &[u8],
        writer: &mut W,
    ) -> Result<(), Unanswered> {
        run_input::<P, W>(alloc, input, *self, writer)
    }
}

/// Reads a script to its end, or until it is too long, runs it, and writes the lines of its replies.
///
/// As [`run_as`] with [`Form::Lines`]. [`answer_script`] says how much is read and what an error leaves.
///
/// # Errors
///
/// As of [`answer_script`].
///
/// # Examples
///
/// Whether a run ends so, and writes these lines:
///
/// ```
/// let mut written = Vec::new(alloc);
/// let ended = run_script::<AnyPolicy, _, _>(alloc, &mut reader, &mut written);
/// ended == wanted && written.as_slice() == lines.as_bytes()
/// ```
pub fn run_script<P: NamedPolicy, R: Read, W: Write>(
    alloc: Global,
    reader: &mut R,
    writer: &mut W,
) -> Result<Ended, TraceFault>
    ensures ended { IfOk result (λ ended. AnswersAll (IsOutput P.naming P.chosen) ended (R.remaining reader.old) (W.contents writer.old) (W.contents writer.new)) }
    ensures read { IfOk result (λ ended. AnswersRead (IsOutput P.naming P.chosen) ended (R.remaining reader.old) (R.remaining reader.new) (W.contents writer.old) (W.contents writer.new)) }
    ensures bounded { ConsumesAtMost MOST_READ_BYTES (R.remaining reader.old) (R.remaining reader.new) }
    ensures unwritten { IfErr result (λ e. e ≢ TraceFault.WriteFailed → Keeps (W.contents writer.old) (W.contents writer.new)) }
    ensures begun { IsErrOf result TraceFault.WriteFailed → BeginsAnswer (IsOutput P.naming P.chosen) (R.remaining reader.old) (W.contents writer.old) (W.contents writer.new) }
{
    run_as::<P, R, W>(alloc, reader, writer, Form::Lines)
}

/// Reads and runs a script as [`run_script`] does, and writes a report in place of the lines, with the last
/// `last` of these. As [`run_as`] with [`Form::Report`].
///
/// # Errors
///
/// As of [`answer_script`].
///
/// # Examples
///
/// A report with the last five lines, or all of the lines:
///
/// ```
/// let ended = if reports {
///     run_report::<AnyPolicy, _, _>(alloc, &mut reader, &mut written, 5)
/// } else {
///     run_script::<AnyPolicy, _, _>(alloc, &mut reader, &mut written)
/// };
/// ```
pub fn run_report<P: NamedPolicy, R: Read, W: Write>(
    alloc: Global,
    reader: &mut R,
    writer: &mut W,
    last: usize,
) -> Result<Ended, TraceFault>
    ensures ended { IfOk result (λ ended. AnswersAll (IsReport P.naming P.chosen last) ended (R.remaining reader.old) (W.contents writer.old) (W.contents writer.new)) }
    ensures read { IfOk result (λ ended. AnswersRead (IsReport P.naming P.chosen last) ended (R.remaining reader.old) (R.remaining reader.new) (W.contents writer.old) (W.contents writer.new)) }
    ensures bounded { ConsumesAtMost MOST_READ_BYTES (R.remaining reader.old) (R.remaining reader.new) }
    ensures unwritten { IfErr result (λ e. e ≢ TraceFault.WriteFailed → Keeps (W.contents writer.old) (W.contents writer.new)) }
    ensures begun { IsErrOf result TraceFault.WriteFailed → BeginsAnswer (IsReport P.naming P.chosen last) (R.remaining reader.old) (W.contents writer.old) (W.contents writer.new) }
{
    run_as::<P, R, W>(alloc, reader, writer, Form::Report { last })
}

/// Reads and runs a script as [`run_and_keep`] does, and keeps nothing of what was read.
///
/// # Errors
///
/// As of [`answer_script`].
pub fn run_as<P: NamedPolicy, R: Read, W: Write>(
    alloc: Global,
    reader: &mut R,
    writer: &mut W,
    form: Form,
) -> Result<Ended, TraceFault>
    ensures ended { IfOk result (λ ended. AnswersAll (IsShown P.naming P.chosen (shown_as form)) ended (R.remaining reader.old) (W.contents writer.old) (W.contents writer.new)) }
    ensures read { IfOk result (λ ended. AnswersRead (IsShown P.naming P.chosen (shown_as form)) ended (R.remaining reader.old) (R.remaining reader.new) (W.contents writer.old) (W.contents writer.new)) }
    ensures bounded { ConsumesAtMost MOST_READ_BYTES (R.remaining reader.old) (R.remaining reader.new) }
    ensures unwritten { IfErr result (λ e. e ≢ TraceFault.WriteFailed → Keeps (W.contents writer.old) (W.contents writer.new)) }
    ensures begun { IsErrOf result TraceFault.WriteFailed → BeginsAnswer (IsShown P.naming P.chosen (shown_as form)) (R.remaining reader.old) (W.contents writer.old) (W.contents writer.new) }
{
    match run_and_keep::<P, R, W>(alloc, reader, writer, form) {
        Ok(kept) => Ok(kept.ended),
        Err(fault) => Err(fault),
    }
}

/// Reads a script to its end, or until it is too long, runs it, and writes what came of it in this form. A script's
/// fault is written as one line, whatever the form. Returns what was read too, for whoever tells more of that fault.
///
/// [`answer_script`] says how much is read and what an error leaves.
///
/// # Errors
///
/// As of [`answer_script`].
///
/// # Examples
///
/// What the program writes of a script, as a form of it, an explanation or a table:
///
/// ```
/// match wanted {
///     Wanted::Shown { form } => run_and_keep::<P, R, W>(alloc, reader, writer, form),
///     Wanted::Explained { how } => explain_script::<P, R, W>(alloc, reader, writer, how),
///     Wanted::Tabled { table } => write_table::<P, R, W>(alloc, reader, writer, table),
/// }
/// ```
pub fn run_and_keep<P: NamedPolicy, R: Read, W: Write>(
    alloc: Global,
    reader: &mut R,
    writer: &mut W,
    form: Form,
) -> Result<Kept, TraceFault>
    ensures ended { IfOk result (λ kept. AnswersAll (IsShown P.naming P.chosen (shown_as form)) kept.ended (R.remaining reader.old) (W.contents writer.old) (W.contents writer.new)) }
    ensures read { IfOk result (λ kept. AnswersOf (IsShown P.naming P.chosen (shown_as form)) kept.input.items kept.ended (R.remaining reader.old) (R.remaining reader.new) (W.contents writer.old) (W.contents writer.new)) }
    ensures bounded { ConsumesAtMost MOST_READ_BYTES (R.remaining reader.old) (R.remaining reader.new) }
    ensures unwritten { IfErr result (λ e. e ≢ TraceFault.WriteFailed → Keeps (W.contents writer.old) (W.contents writer.new)) }
    ensures begun { IsErrOf result TraceFault.WriteFailed → BeginsAnswer (IsShown P.naming P.chosen (shown_as form)) (R.remaining reader.old) (W.contents writer.old) (W.contents writer.new) }
{
    answer_script::<P, R, W, Form>(alloc, reader, writer, &form)
}
