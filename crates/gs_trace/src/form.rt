ghost use Rattle.std.specs.Prelude.{◌≡◌, IfOk, IfErr, OnOk};
ghost use Rattle.gs_core.specs.Machine.{planning};
ghost use Rattle.gs_script.specs.Unread.{events_unread};
ghost use Rattle.gs_trace.specs.Output.{history_shown, shown_as};
ghost use Rattle.gs_trace.specs.Adding.{ShowsRun};
ghost use Rattle.gs_trace.specs.Streams.{Leaves, Writes};

use crate::answering::Unanswered;
use crate::noting::Noting;
use crate::running::{Nothing, run_into};
use gs_core::Machine;
use gs_history::{journal_text, json_text};
use gs_journal::Journal;
use gs_lines::Text;
use gs_perfetto::Trace;
use gs_report::Report;
use gs_script::{NamedPolicy, Reading};
use gs_text::write_out;
use gs_timeline::{Listed, Picture};
use std::alloc::{AllocError, Global};
use std::io::Write;

/// How a journal is written.
#[derive(Clone, Copy, PartialEq, Eq, Debug)]
pub enum Notation {
    /// A line for each entry, which begins with its place, counted from 0.
    Lines,
    /// A JSON object for each entry, one a line, its keys sorted.
    Json,
}

/// How what came of a script is shown.
#[derive(Clone, Copy, PartialEq, Eq, Debug)]
pub enum Form {
    /// The lines of its replies.
    Lines,
    /// A report: one line of JSON with the counts of the script's events, refusals and landings, whether
    /// the enclave was torn down, and the last of the lines.
    Report {
        /// So many of the last lines, or all if there are fewer.
        last: usize,
    },
    /// The journal of all that happened.
    Journal(Notation),
    /// A picture of who ran where, as SVG.
    Timeline {
        /// The place in the journal of the first entry that is shown, counted from 0.
        from: usize,
        /// That of the last one.
        to: usize,
        /// Which threads have a line of their own below the rows.
        listed: Listed,
    },
    /// A trace in the Chrome trace event format, which is JSON.
    Trace,
}

/// Returns the journal in this notation.
fn show_journal(alloc: Global, notation: Notation, journal: &Journal) -> Result<Vec<u8>, AllocError>
    ensures { IfOk result (λ bytes. bytes.items ≡ history_shown notation journal.now.entries) }
{
    match notation {
        Notation::Lines => Ok(journal_text(alloc, journal)?.into_bytes()),
        Notation::Json => json_text(alloc, journal),
    }
}

/// Runs a script's events, and writes the lines of their replies.
fn show_lines<P: NamedPolicy, W: Write>(
    alloc: Global,
    machine: &mut Machine<P>,
    script: Reading<'_, P>,
    writer: &mut W,
) -> Result<(), Unanswered>
    ensures shown { OnOk result (Writes (ShowsRun P.chosen (shown_as Form.Lines) (planning P.chosen machine.old) (events_unread P.naming script.entry) (planning P.chosen machine.new)) (W.contents writer.old) (W.contents writer.new)) }
    ensures left { IfErr result (Leaves (events_unread P.naming script.entry) (ShowsRun P.chosen (shown_as Form.Lines) (planning P.chosen machine.old) (events_unread P.naming script.entry) (planning P.chosen machine.new)) (W.contents writer.old) (W.contents writer.new)) }
{
    let text = run_into(alloc, machine, script, Text::new(alloc))?;
    write_out(writer, text.as_bytes())?;
    Ok(())
}

/// Runs a script's events, and writes a report of their replies, with so many of the last lines.
fn show_report<P: NamedPolicy, W: Write>(
    alloc: Global,
    last: usize,
    machine: &mut Machine<P>,
    script: Reading<'_, P>,
    writer: &mut W,
) -> Result<(), Unanswered>
    ensures shown { OnOk result (Writes (ShowsRun P.chosen (shown_as (Form.Report last)) (planning P.chosen machine.old) (events_unread P.naming script.entry) (planning P.chosen machine.new)) (W.contents writer.old) (W.contents writer.new)) }
    ensures left { IfErr result (Leaves (events_unread P.naming script.entry) (ShowsRun P.chosen (shown_as (Form.Report last)) (planning P.chosen machine.old) (events_unread P.naming script.entry) (planning P.chosen machine.new)) (W.contents writer.old) (W.contents writer.new)) }
{
    let report = run_into(alloc, machine, script, Report::new(alloc))?;
    let line = report.to_line(alloc, last)?;
    write_out(writer, line.as_bytes())?;
    Ok(())
}

/// Runs a script's events, and writes the journal of all that happened, in this notation.
fn show_history<P: NamedPolicy, W: Write>(
    alloc: Global,
    notation: Notation,
    machine: &mut Machine<P>,
    script: Reading<'_, P>,
    writer: &mut W,
) -> Result<(), Unanswered>
    ensures shown { OnOk result (Writes (ShowsRun P.chosen (shown_as (Form.Journal notation)) (planning P.chosen machine.old) (events_unread P.naming script.entry) (planning P.chosen machine.new)) (W.contents writer.old) (W.contents writer.new)) }
    ensures left { IfErr result (Leaves (events_unread P.naming script.entry) (ShowsRun P.chosen (shown_as (Form.Journal notation)) (planning P.chosen machine.old) (events_unread P.naming script.entry) (planning P.chosen machine.new)) (W.contents writer.old) (W.contents writer.new)) }
{
    run_into(alloc, machine, script, Nothing)?;
    let bytes = show_journal(alloc, notation, machine.kernel().journal())?;
    write_out(writer, bytes.as_slice())?;
    Ok(())
}

/// Runs a script's events, and writes a picture of the entries from one place in the journal on to another, which lists
/// these threads. The header's line is given.
fn show_picture<P: NamedPolicy, W: Write>(
    alloc: Global,
    from: usize,
    to: usize,
    listed: Listed,
    machine: &mut Machine<P>,
    header: usize,
    script: Reading<'_, P>,
    writer: &mut W,
) -> Result<(), Unanswered>
    ensures shown { OnOk result (Writes (ShowsRun P.chosen (shown_as (Form.Timeline from to listed)) (planning P.chosen machine.old) (events_unread P.naming script.entry) (planning P.chosen machine.new)) (W.contents writer.old) (W.contents writer.new)) }
    ensures left { IfErr result (Leaves (events_unread P.naming script.entry) (ShowsRun P.chosen (shown_as (Form.Timeline from to listed)) (planning P.chosen machine.old) (events_unread P.naming script.entry) (planning P.chosen machine.new)) (W.contents writer.old) (W.contents writer.new)) }
{
    let noting = run_into(alloc, machine, script, Noting::new(alloc, header)?)?;
    let kernel = machine.kernel();
    let cpus = kernel.settings().cpus;
    let notes = noting.notes(kernel.poster().capacity());
    let picture = Picture::new(alloc, cpus, kernel.journal(), notes, from, to, listed)?;
    picture.write(writer)?;
    Ok(())
}

/// Runs a script's events, and writes a trace of all that happened. The header's line is given.
fn show_trace<P: NamedPolicy, W: Write>(
    alloc: Global,
    machine: &mut Machine<P>,
    header: usize,
    script: Reading<'_, P>,
    writer: &mut W,
) -> Result<(), Unanswered>
    ensures shown { OnOk result (Writes (ShowsRun P.chosen (shown_as Form.Trace) (planning P.chosen machine.old) (events_unread P.naming script.entry) (planning P.chosen machine.new)) (W.contents writer.old) (W.contents writer.new)) }
    ensures left { IfErr result (Leaves (events_unread P.naming script.entry) (ShowsRun P.chosen (shown_as Form.Trace) (planning P.chosen machine.old) (events_unread P.naming script.entry) (planning P.chosen machine.new)) (W.contents writer.old) (W.contents writer.new)) }
{
    let noting = run_into(alloc, machine, script, Noting::new(alloc, header)?)?;
    let kernel = machine.kernel();
    let cpus = kernel.settings().cpus;
    let notes = noting.notes(kernel.poster().capacity());
    let trace = Trace::new(alloc, cpus, kernel.journal(), notes)?;
    trace.write(writer)?;
    Ok(())
}

/// Runs a script's events, and shows what came of them in this form: their replies, and the machine that they leave. It
/// fails with the first fault of their lines, or out of memory, also if a reply tells of that. The header's line is
/// given.
pub(crate) fn show<P: NamedPolicy, W: Write>(
    alloc: Global,
    form: Form,
    machine: &mut Machine<P>,
    header: usize,
    script: Reading<'_, P>,
    writer: &mut W,
) -> Result<(), Unanswered>
    ensures shown { OnOk result (Writes (ShowsRun P.chosen (shown_as form) (planning P.chosen machine.old) (events_unread P.naming script.entry) (planning P.chosen machine.new)) (W.contents writer.old) (W.contents writer.new)) }
    ensures left { IfErr result (Leaves (events_unread P.naming script.entry) (ShowsRun P.chosen (shown_as form) (planning P.chosen machine.old) (events_unread P.naming script.entry) (planning P.chosen machine.new)) (W.contents writer.old) (W.contents writer.new)) }
{
    match form {
        Form::Lines => show_lines(alloc, machine, script, writer),
        Form::Report { last } => show_report(alloc, last, machine, script, writer),
        Form::Journal(notation) => show_history(alloc, notation, machine, script, writer),
        Form::Timeline { from, to, listed } => {
            show_picture(alloc, from, to, listed, machine, header, script, writer)
        }
        Form::Trace => show_trace(alloc, machine, header, script, writer),
    }
}
