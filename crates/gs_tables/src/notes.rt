//! A run of events, of each of which is noted what a table tells beside the journal.

ghost use Rattle.std.specs.Prelude.{◌≡◌, ◌++◌, [], IfOk, IfErr, OnOk};
ghost use Rattle.gs_report.specs.Counts.{landings_of};
ghost use Rattle.gs_core.specs.Machine.{planned, planning};
ghost use Rattle.gs_script.specs.Held.{Faults};
ghost use Rattle.gs_script.specs.Unread.{events_unread, said_unread};
ghost use Rattle.gs_trace.specs.Came.{reply_in};
ghost use Rattle.gs_trace.specs.Noted.{noted_first};
ghost use Rattle.gs_trace.specs.NotedLines.{noted_of};
ghost use Rattle.gs_tables.specs.Notes.{IsNoted, NotesCame, NotesOne};

use gs_agent::Drained;
use gs_core::{Event, Machine, Reply};
use gs_kernel::{Command, Landing};
use gs_policy::Counted;
use gs_report::landings_of;
use gs_script::{NamedPolicy, Reading, ScriptError};
use gs_slots::Flags;
use gs_status::Mask;
use gs_trace::{Came, Lines};
use std::alloc::{AllocError, Global};

/// What is noted of a script's events.
#[derive(Drop)]
pub(crate) struct Notes {
    /// The lines that added the entries of the journal.
    pub(crate) lines: Lines,
    /// What became of each slot, in order.
    pub(crate) landings: Vec<Landing>,
}

/// Adds what a reply says became of slots.
fn add_landings(all: &mut Vec<Landing>, reply: &Reply) -> Result<(), AllocError>
    ensures { OnOk result (all.new.items ≡ all.old.items ++ landings_of reply.now) }
{
    all.extend_from_slice(landings_of(reply))
}

/// Adds what became of slots, by what came of an event.
#[inline(always)]
#[tactic(auto, using(crate::proofs::Noting::lands_nothing))]
fn add_landed(all: &mut Vec<Landing>, came: Came<'_>) -> Result<(), AllocError>
    ensures { OnOk result (all.new.items ≡ all.old.items ++ landings_of (reply_in came.entry)) }
{
    match came {
        Came::Landed(landings, _) => all.extend_from_slice(landings),
        Came::Replied(reply) => add_landings(all, reply),
        Came::Executed(..)
        | Came::Refused(_)
        | Came::Drained(_)
        | Came::Stamped { .. }
        | Came::Decided(..) => Ok(()),
    }
}

/// Notes what came of an event of a line, by the machine that it left. It fails only if out of memory, or if that tells of it.
#[inline(always)]
fn note_came<P: Counted + Copy>(
    machine: &Machine<P>,
    notes: &mut Notes,
    line: usize,
    came: Came<'_>,
) -> Result<(), AllocError>
    ensures { OnOk result (NotesCame (noted_of notes.old.lines) notes.old.landings.items line (reply_in came.entry) (planning P.chosen machine.now) (noted_of notes.new.lines) notes.new.landings.items) }
{
    if came.is_short() {
        return Err(AllocError);
    }
    let journal = machine.kernel().journal();
    let transactions = machine.transactions();
    notes
        .lines
        .note_came(line, came, journal.len(), transactions.len())?;
    add_landed(&mut notes.landings, came)
}

/// Lets a command of a line be executed, and notes it, as [`note_one`] does. So do the others below.
#[inline(always)]
fn note_command<P: Counted + Copy>(
    machine: &mut Machine<P>,
    notes: &mut Notes,
    line: usize,
    command: &Command,
) -> Result<(), AllocError>
    ensures { OnOk result (NotesOne P.chosen (noted_of notes.old.lines) notes.old.landings.items (planning P.chosen machine.old) line (Event.Kernel command.now) (planning P.chosen machine.new) (noted_of notes.new.lines) notes.new.landings.items) }
{
    let came = machine.command(command);
    note_came(
        machine,
        notes,
        line,
        Came::Executed(came, machine.kernel().last()),
    )
}

/// Lets messages be drained.
#[inline(never)]
fn note_drain<P: Counted + Copy>(
    machine: &mut Machine<P>,
    notes: &mut Notes,
    line: usize,
    max: u32,
) -> Result<(), AllocError>
    ensures { OnOk result (NotesOne P.chosen (noted_of notes.old.lines) notes.old.landings.items (planning P.chosen machine.old) line (Event.Drain max) (planning P.chosen machine.new) (noted_of notes.new.lines) notes.new.landings.items) }
{
    let mut drained = Drained::NOTHING;
    match machine.drain(max, &mut drained) {
        Ok(()) => note_came(machine, notes, line, Came::Drained(&drained)),
        Err(refusal) => note_came(machine, notes, line, Came::Refused(refusal)),
    }
}

/// Lets a thread be stamped.
#[inline(never)]
fn note_stamp<P: Counted + Copy>(
    machine: &mut Machine<P>,
    notes: &mut Notes,
    line: usize,
    cpu: u16,
    tid: u32,
    flags: Flags,
) -> Result<(), AllocError>
    ensures { OnOk result (NotesOne P.chosen (noted_of notes.old.lines) notes.old.landings.items (planning P.chosen machine.old) line (Event.Stamp cpu tid flags) (planning P.chosen machine.new) (noted_of notes.new.lines) notes.new.landings.items) }
{
    match machine.stamp(cpu, tid, flags) {
        Ok(number) => {
            let came = Came::Stamped {
                cpu,
                tid,
                flags,
                number,
            };
            note_came(machine, notes, line, came)
        }
        Err(refusal) => note_came(machine, notes, line, Came::Refused(refusal)),
    }
}

/// Lets slots be committed. What became of each is put in the place of what a list has.
#[inline(never)]
fn note_commit<P: Counted + Copy>(
    machine: &mut Machine<P>,
    notes: &mut Notes,
    line: usize,
    mask: Mask,
    landings: &mut Vec<Landing>,
) -> Result<(), AllocError>
    ensures { OnOk result (NotesOne P.chosen (noted_of notes.old.lines) notes.old.landings.items (planning P.chosen machine.old) line (Event.Commit mask) (planning P.chosen machine.new) (noted_of notes.new.lines) notes.new.landings.items) }
{
    match machine.commit(mask, landings) {
        Ok(torn) => note_came(
            machine,
            notes,
            line,
            Came::Landed(landings.as_slice(), torn),
        ),
        Err(refusal) => note_came(machine, notes, line, Came::Refused(refusal)),
    }
}

/// Lets any event happen.
#[inline(never)]
fn note_step<P: Counted + Copy>(
    machine: &mut Machine<P>,
    notes: &mut Notes,
    line: usize,
    event: &Event<P>,
) -> Result<(), AllocError>
    ensures { OnOk result (NotesOne P.chosen (noted_of notes.old.lines) notes.old.landings.items (planning P.chosen machine.old) line event.now (planning P.chosen machine.new) (noted_of notes.new.lines) notes.new.landings.items) }
{
    let reply = machine.step(event);
    note_came(machine, notes, line, Came::Replied(&reply))
}

/// Lets an event of a line happen, and notes it. It fails only if out of memory, or if what came of it tells of that. A list serves each
/// commit.
#[inline(always)]
fn note_one<P: Counted + Copy>(
    machine: &mut Machine<P>,
    notes: &mut Notes,
    line: usize,
    event: &Event<P>,
    landings: &mut Vec<Landing>,
) -> Result<(), AllocError>
    ensures { OnOk result (NotesOne P.chosen (noted_of notes.old.lines) notes.old.landings.items (planning P.chosen machine.old) line event.now (planning P.chosen machine.new) (noted_of notes.new.lines) notes.new.landings.items) }
{
    match event {
        Event::Kernel { command } => note_command(machine, notes, line, command),
        Event::Drain { max } => note_drain(machine, notes, line, *max),
        Event::Stamp { cpu, tid, flags } => note_stamp(machine, notes, line, *cpu, *tid, *flags),
        Event::Commit { mask } => note_commit(machine, notes, line, *mask, landings),
        _ => note_step(machine, notes, line, event),
    }
}

/// Lets the events of a script happen as they are read, each before the next is read, and returns what is noted of them.
/// The header's line is given. It fails with the first fault of their lines, or out of memory, also if a reply tells of
/// that.
pub(crate) fn note_all<P: NamedPolicy>(
    alloc: Global,
    machine: &mut Machine<P>,
    header: usize,
    script: Reading<'_, P>,
) -> Result<Notes, ScriptError>
    ensures noted { IfOk result (λ notes. IsNoted P.chosen (noted_first header) (planning P.chosen machine.old) (events_unread P.naming script.entry) (said_unread script.entry) (planning P.chosen machine.new) (noted_of notes.lines) notes.landings.items) }
    ensures fault { IfErr result (λ e. Faults e (events_unread P.naming script.entry)) }
{
    let mut notes = Notes {
        lines: Lines::new(alloc, header)?,
        landings: Vec::new(alloc),
    };
    let mut script = script;
    let mut event = Vec::new(alloc);
    let mut landings = Vec::new(alloc);
    'events: while let Some(said) = script.next(&mut event)? {
        note_one(machine, &mut notes, said.number, &event[0], &mut landings)?;
        event.clear();
    }
    Ok(notes)
}
