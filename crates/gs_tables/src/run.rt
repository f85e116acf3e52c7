ghost use Rattle.std.specs.Prelude.{◌≡◌, ◌≢◌, IfOk, IfErr, IsErrOf};
ghost use Rattle.std.specs.Io.KnownBytes.{Keeps};
ghost use Rattle.gs_trace.specs.declared.run.Ended.TheVariants.{Ran};
ghost use Rattle.gs_trace.specs.Streams.{AnswersAll, AnswersOf, BeginsAnswer, ConsumesAtMost};
ghost use Rattle.gs_script.specs.Held.{Faults};
ghost use Rattle.gs_script.specs.Script.{script_of};
ghost use Rattle.gs_script.specs.Unread.{events_unread, said_unread};
ghost use Rattle.gs_core.specs.Machine.{planning};
ghost use Rattle.gs_trace.specs.Noted.{noted_first};
ghost use Rattle.gs_tables.specs.Tables.{IsTable, Shows, ShowsRun, Tabulated};

use crate::latency::latency;
use crate::notes::{Notes, note_all};
use crate::timehist::timehist;
use gs_core::Machine;
use gs_policy::Counted;
use gs_script::{NamedPolicy, Opened, Reading, ScriptError, open_script};
use gs_trace::{
    Answering, Kept, MOST_READ_BYTES, Notation, TraceFault, Unanswered, answer_script, write_out,
};
use gs_turns::turns;
use gs_usage::usages;
use std::alloc::{AllocError, Global};
use std::io::{Read, Write};

/// A table of what happened in a script.
#[derive(Clone, Copy, PartialEq, Eq, Debug)]
pub enum Table {
    /// A line for each turn: a stay of a thread on a CPU, with the wait before it.
    Timehist(Notation),
    /// What the turns and the landings of each class come to, and what each CPU was used for.
    Latency {
        notation: Notation,
        /// Each thread has lines of its own, too.
        threads: bool,
    },
}

/// Returns the table of what happened, by the machine that it left and what was noted of it.
fn shown<P: Counted + Copy>(
    alloc: Global,
    table: Table,
    machine: &Machine<P>,
    notes: &Notes,
) -> Result<Vec<u8>, AllocError>
    ensures { IfOk result (λ bytes. Shows table notes.now.landings.items notes.now.lines.entries.items machine.now.settings.cpus machine.now.history bytes.items) }
{
    let journal = machine.kernel().journal();
    let cpus = machine.kernel().settings().cpus;
    let told = turns(alloc, journal, cpus)?;
    match table {
        Table::Timehist(notation) => timehist(alloc, notation, &notes.lines.entries, &told.turns),
        Table::Latency { notation, threads } => {
            let usages = usages(alloc, journal, cpus)?;
            latency(alloc, notation, threads, &told, &notes.landings, &usages)
        }
    }
}

/// Lets the events of a script happen, and returns the table of them. The header's line is given. It fails with the
/// first fault of their lines, or out of memory, also if a reply tells of that.
fn table_of_events<P: NamedPolicy>(
    alloc: Global,
    table: Table,
    machine: &mut Machine<P>,
    header: usize,
    script: Reading<'_, P>,
) -> Result<Vec<u8>, ScriptError>
    ensures shown { IfOk result (λ bytes. ShowsRun P.chosen table (noted_first header) (planning P.chosen machine.old) (events_unread P.naming script.entry) (said_unread script.entry) (planning P.chosen machine.new) bytes.items) }
    ensures fault { IfErr result (λ e. Faults e (events_unread P.naming script.entry)) }
{
    let notes = note_all(alloc, machine, header, script)?;
    match shown(alloc, table, machine, &notes) {
        Ok(bytes) => Ok(bytes),
        Err(_) => Err(ScriptError::OutOfMemory),
    }
}

/// Runs the script that an input says, and returns the table of what happened. It fails with the script's first fault,
/// or out of memory.
fn tabulated<P: NamedPolicy>(
    alloc: Global,
    table: Table,
    input: &[u8],
) -> Result<Vec<u8>, ScriptError>
    ensures shown { IfOk result (λ bytes. IsTable P.naming P.chosen table input.now Ran bytes.items) }
    ensures fault { IfErr result (λ e. Faults e (script_of P.naming input.now)) }
{
    let Opened {
        config,
        header,
        reading,
    } = open_script::<P>(alloc, input)?;
    // (a configuration that was read can be opened, unless out of memory)
    let Ok(mut machine) = Machine::new(alloc, config) else {
        return Err(ScriptError::OutOfMemory);
    };
    table_of_events(alloc, table, &mut machine, header, reading)
}

/// A table of what happened in a script, which is run.
impl<P: NamedPolicy> Answering<P> for Table {
    ghost shows = { Tabulated P.chosen };

    fn answer<W: Write>(
        &self,
        alloc: Global,
        input: &[u8],
        writer: &mut W,
    ) -> Result<(), Unanswered> {
        let bytes = tabulated::<P>(alloc, *self, input)?;
        write_out(writer, bytes.as_slice())?;
        Ok(())
    }
}

/// Reads a script to its end, or until it is too long, runs it, and writes a table of what happened. A script's fault
/// is written as one line. Returns what was read too, for whoever tells more of that fault.
///
/// [`answer_script`] says how much is read and what an error leaves.
///
/// # Errors
///
/// As of [`answer_script`].
pub fn write_table<P: NamedPolicy, R: Read, W: Write>(
    alloc: Global,
    reader: &mut R,
    writer: &mut W,
    table: Table,
) -> Result<Kept, TraceFault>
    ensures ended { IfOk result (λ kept. AnswersAll (IsTable P.naming P.chosen table) kept.ended (R.remaining reader.old) (W.contents writer.old) (W.contents writer.new)) }
    ensures read { IfOk result (λ kept. AnswersOf (IsTable P.naming P.chosen table) kept.input.items kept.ended (R.remaining reader.old) (R.remaining reader.new) (W.contents writer.old) (W.contents writer.new)) }
    ensures bounded { ConsumesAtMost MOST_READ_BYTES (R.remaining reader.old) (R.remaining reader.new) }
    ensures unwritten { IfErr result (λ e. e ≢ TraceFault.WriteFailed → Keeps (W.contents writer.old) (W.contents writer.new)) }
    ensures begun { IsErrOf result TraceFault.WriteFailed → BeginsAnswer (IsTable P.naming P.chosen table) (R.remaining reader.old) (W.contents writer.old) (W.contents writer.new) }
{
    answer_script::<P, R, W, Table>(alloc, reader, writer, &table)
}
