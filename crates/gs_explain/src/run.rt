ghost use Rattle.std.specs.Prelude.{◌≡◌, ◌≢◌, [], IfOk, IfErr, IsErrOf};
ghost use Rattle.std.specs.Io.KnownBytes.{Keeps};
ghost use Rattle.gs_trace.specs.declared.run.Ended.TheVariants.{Ran};
ghost use Rattle.gs_trace.specs.Output.{IsAnswerOf};
ghost use Rattle.gs_trace.specs.Streams.{AnswersAll, AnswersOf, BeginsAnswer, ConsumesAtMost};
ghost use Rattle.gs_explain.specs.Explained.{IsExplained, TellsOf, Told};
ghost use Rattle.gs_script.specs.Held.{Faults};
ghost use Rattle.gs_script.specs.Said.{said_in};
ghost use Rattle.gs_script.specs.Script.{script_of};

use crate::objects::{self, Objects};
use crate::pieces::new_block;
use crate::rows::Rows;
use crate::teller::Teller;
use crate::telling::explain_all;
use gs_core::Machine;
use gs_script::{NamedPolicy, Opened, ScriptError, open_script};
use gs_trace::{Answering, Kept, MOST_READ_BYTES, TraceFault, Unanswered, answer_script};
use std::alloc::Global;
use std::io::{Read, Write};

/// How what explains a script is written.
#[derive(Clone, Copy, PartialEq, Eq, Debug)]
pub enum Explanation {
    /// Lines of text.
    Lines,
    /// A JSON object for each event, one a line, its keys sorted.
    Json,
}

/// Has what explains the script told that an input says. It fails with the script's first fault, or out of memory.
fn told<'a, P: NamedPolicy, T: Teller<'a>>(
    alloc: Global,
    input: &'a [u8],
    teller: T,
) -> Result<T, ScriptError>
    requires { T.bytes teller ≡ [] }
    ensures told { IfOk result (λ told. IsAnswerOf (TellsOf P.chosen T.show (said_in input.now)) (script_of P.naming input.now) Ran (T.bytes told)) }
    ensures fault { IfErr result (λ e. Faults e (script_of P.naming input.now)) }
{
    let Opened {
        config,
        header,
        reading,
    } = open_script::<P>(alloc, input)?;
    // (a configuration that was read can be opened, unless out of memory)
    let Ok(mut machine) = Machine::new(alloc, config) else {
        return Err(ScriptError::OutOfMemory);
    };
    explain_all(alloc, &mut machine, header, reading, teller)
}

/// What explains a script, written so.
impl<P: NamedPolicy> Answering<P> for Explanation {
    ghost shows = { Told P.chosen };

    fn answer<W: Write>(
        &self,
        alloc: Global,
        input: &[u8],
        writer: &mut W,
    ) -> Result<(), Unanswered> {
        match self {
            Explanation::Lines => {
                let rows = told::<P, _>(alloc, input, Rows::new(alloc))?;
                let block = new_block(alloc)?;
                rows.write(block, writer)?;
                Ok(())
            }
            Explanation::Json => {
                let objects = told::<P, _>(alloc, input, Objects::new(alloc))?;
                let block = objects::new_block(alloc)?;
                objects.write(block, writer)?;
                Ok(())
            }
        }
    }
}

/// Reads a script to its end, or until it is too long, runs it, and writes for each event what explains it. That is the
/// script's line with its number, the lines of its reply, and the entries of the journal that it added. Behind each
/// refusal, each landing that was not placed and each tear-down stands a line, indented, that says why. Or it writes all that
/// of an event as one object of JSON. A script's fault is written as one line. Returns what was read too, for whoever
/// tells more of that fault.
///
/// [`answer_script`] says how much is read and what an error leaves.
///
/// # Errors
///
/// As of [`answer_script`].
pub fn explain_script<P: NamedPolicy, R: Read, W: Write>(
    alloc: Global,
    reader: &mut R,
    writer: &mut W,
    how: Explanation,
) -> Result<Kept, TraceFault>
    ensures ended { IfOk result (λ kept. AnswersAll (IsExplained P.naming P.chosen how) kept.ended (R.remaining reader.old) (W.contents writer.old) (W.contents writer.new)) }
    ensures read { IfOk result (λ kept. AnswersOf (IsExplained P.naming P.chosen how) kept.input.items kept.ended (R.remaining reader.old) (R.remaining reader.new) (W.contents writer.old) (W.contents writer.new)) }
    ensures bounded { ConsumesAtMost MOST_READ_BYTES (R.remaining reader.old) (R.remaining reader.new) }
    ensures unwritten { IfErr result (λ e. e ≢ TraceFault.WriteFailed → Keeps (W.contents writer.old) (W.contents writer.new)) }
    ensures begun { IsErrOf result TraceFault.WriteFailed → BeginsAnswer (IsExplained P.naming P.chosen how) (R.remaining reader.old) (W.contents writer.old) (W.contents writer.new) }
{
    answer_script::<P, R, W, Explanation>(alloc, reader, writer, &how)
}
