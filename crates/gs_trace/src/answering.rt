//! What is to be written for an input, from a reader to a writer.

ghost use Rattle.std.specs.Prelude.{◌≡◌, ◌≢◌, ℕ, List, IfOk, IfErr, IsErrOf, OnOk};
ghost use Rattle.std.specs.Io.KnownBytes.{Appends, Keeps};
ghost use Rattle.gs_script.specs.Script.{Script, script_of};
ghost use Rattle.gs_script.specs.declared.script.ScriptError.TheVariants as errors;
ghost use Rattle.gs_trace.specs.declared.answering.Unanswered.TheVariants as unanswered;
ghost use Rattle.gs_trace.specs.declared.run.Ended.{Ended};
ghost use Rattle.gs_trace.specs.declared.run.Ended.TheVariants.{Ran};
ghost use Rattle.gs_trace.specs.Output.{IsAnswer, fault_line};
ghost use Rattle.gs_trace.specs.Streams.{AnswersAll, AnswersOf, Begins, BeginsAnswer, ConsumesAtMost, Leaves, Writes};

use crate::pipe::{InputError, MOST_READ_BYTES, read_all};
use crate::run::{Ended, Kept, TraceFault, fault_text};
use gs_script::{NamedPolicy, ScriptError, ScriptFault};
use gs_text::{WriteFailed, write_out};
use std::alloc::{AllocError, Global};
use std::io::{Read, Write};

/// Why a script has no answer, or not the whole of it.
#[derive(Clone, Copy, PartialEq, Eq, Debug)]
pub enum Unanswered {
    /// The script has a fault, or memory ran out. Nothing was written.
    Script(ScriptError),
    /// A write failed, or took no byte, or memory ran out for what is written piece by piece. A beginning of the answer was
    /// written, short of the whole.
    WriteFailed,
}

impl From<ScriptError> for Unanswered {
    ghost from_gives = { λ error why. why ≡ unanswered.Script error };

    fn from(error: ScriptError) -> Unanswered {
        Unanswered::Script(error)
    }
}

impl From<AllocError> for Unanswered {
    ghost from_gives = { λ _ why. why ≡ unanswered.Script errors.OutOfMemory };

    fn from(_failed: AllocError) -> Unanswered {
        Unanswered::Script(ScriptError::OutOfMemory)
    }
}

impl From<WriteFailed> for Unanswered {
    ghost from_gives = { λ _ why. why ≡ unanswered.WriteFailed };

    fn from(_failed: WriteFailed) -> Unanswered {
        Unanswered::WriteFailed
    }
}

/// What answers a script: it runs it, and shows what came of it.
pub trait Answering<P: NamedPolicy> {
    /// These bytes show the script that an input says.
    ghost shows: { Self → List ℕ → Script P → List ℕ → Type 0 };

    /// Writes the bytes that show the script that an input says.
    ///
    /// # Errors
    ///
    /// The script's first fault, or out of memory: nothing was written then. Or a write failed, and a beginning was written.
    fn answer<W: Write>(
        &self,
        alloc: Global,
        input: &[u8],
        writer: &mut W,
    ) -> Result<(), Unanswered>
        ensures shown { OnOk result (Writes (IsAnswer P.naming (shows self.now) input.now Ran) (W.contents writer.old) (W.contents writer.new)) }
        ensures left { IfErr result (Leaves (script_of P.naming input.now) (IsAnswer P.naming (shows self.now) input.now Ran) (W.contents writer.old) (W.contents writer.new)) };
}

/// Writes the line of a script's fault.
fn write_fault<W: Write>(
    alloc: Global,
    fault: ScriptFault,
    writer: &mut W,
) -> Result<(), TraceFault>
    ensures written { OnOk result (Appends (W.contents writer.old) (W.contents writer.new) (fault_line fault)) }
    ensures unwritten { IfErr result (λ e. e ≢ TraceFault.WriteFailed → Keeps (W.contents writer.old) (W.contents writer.new)) }
    ensures begun { IsErrOf result TraceFault.WriteFailed → Begins (λ out. out ≡ fault_line fault) (W.contents writer.old) (W.contents writer.new) }
{
    let line = fault_text(alloc, fault)?;
    match write_out(writer, line.as_bytes()) {
        Ok(()) => Ok(()),
        Err(_) => Err(TraceFault::WriteFailed),
    }
}

/// Writes what is to be written for an input, of which a script's fault is one line, and returns how it ended.
fn write_answer<P: NamedPolicy, W: Write, A: Answering<P>>(
    alloc: Global,
    how: &A,
    input: &[u8],
    writer: &mut W,
) -> Result<Ended, TraceFault>
    ensures written { IfOk result (λ ended. Writes (IsAnswer P.naming (A.shows how.now) input.now ended) (W.contents writer.old) (W.contents writer.new)) }
    ensures unwritten { IfErr result (λ e. e ≢ TraceFault.WriteFailed → Keeps (W.contents writer.old) (W.contents writer.new)) }
    ensures begun { IsErrOf result TraceFault.WriteFailed → (ended : Ended) × Begins (IsAnswer P.naming (A.shows how.now) input.now ended) (W.contents writer.old) (W.contents writer.new) }
{
    match how.answer(alloc, input, writer) {
        Ok(()) => Ok(Ended::Ran),
        Err(Unanswered::Script(ScriptError::OutOfMemory)) => Err(TraceFault::OutOfMemory),
        Err(Unanswered::Script(ScriptError::Fault(fault))) => {
            match write_fault(alloc, fault, writer) {
                Ok(()) => Ok(Ended::Faulted),
                Err(failed) => Err(failed),
            }
        }
        Err(Unanswered::WriteFailed) => Err(TraceFault::WriteFailed),
    }
}

/// Reads a script to its end, or until it is too long, and writes what is to be written for it. A script's fault is
/// written as one line. Returns what was read too, for whoever tells more of that fault.
///
/// The reads end at the first that gives no byte, and are at most 1,048,578. At most
/// [`MOST_READ_BYTES`] are read.
///
/// # Errors
///
/// `ReadFailed` if a read fails. `OutOfMemory` if out of memory, at an event too. In both cases nothing was
/// written. No clause tells these two apart, since a reader's contract does not say when it fails.
/// `WriteFailed` if a write fails or takes no byte: a beginning of the output was written, short of the
/// whole.
pub fn answer_script<P: NamedPolicy, R: Read, W: Write, A: Answering<P>>(
    alloc: Global,
    reader: &mut R,
    writer: &mut W,
    how: &A,
) -> Result<Kept, TraceFault>
    ensures ended { IfOk result (λ kept. AnswersAll (IsAnswer P.naming (A.shows how.now)) kept.ended (R.remaining reader.old) (W.contents writer.old) (W.contents writer.new)) }
    ensures read { IfOk result (λ kept. AnswersOf (IsAnswer P.naming (A.shows how.now)) kept.input.items kept.ended (R.remaining reader.old) (R.remaining reader.new) (W.contents writer.old) (W.contents writer.new)) }
    ensures bounded { ConsumesAtMost MOST_READ_BYTES (R.remaining reader.old) (R.remaining reader.new) }
    ensures unwritten { IfErr result (λ e. e ≢ TraceFault.WriteFailed → Keeps (W.contents writer.old) (W.contents writer.new)) }
    ensures begun { IsErrOf result TraceFault.WriteFailed → BeginsAnswer (IsAnswer P.naming (A.shows how.now)) (R.remaining reader.old) (W.contents writer.old) (W.contents writer.new) }
{
    let input = match read_all(alloc, reader) {
        Ok(input) => input,
        Err(InputError::Failed) => return Err(TraceFault::ReadFailed),
        Err(InputError::OutOfMemory) => return Err(TraceFault::OutOfMemory),
    };
    let ended = write_answer::<P, W, A>(alloc, how, &input, writer)?;
    Ok(Kept { ended, input })
}
