ghost use Rattle.std.specs.Prelude.{◌≡◌, ◌≤◌, ◌++◌, OnOk, codes, decimal, length};
ghost use Rattle.gs_journal.specs.Last.{entry_lent};
ghost use Rattle.gs_lines.specs.Lines.{begin_text, change_text, cpu_text, entry_text, kind_text, line, message_lines, message_text, off_text, posted_text, role_text};

use crate::thread::{push_thread, push_thread_line};
use gs_journal::{Entry, LastEntry};
use gs_layout::{Change, Kind, Message};
use gs_text::Sheet as Text;
use std::alloc::AllocError;

/// The name of a kind.
fn kind_name(kind: Kind) -> &'static str
    ensures name { result.now ≡ kind_text kind }
    ensures short { length result.now ≤ 9 }
{
    match kind {
        Kind::Created => "created",
        Kind::Blocked => "blocked",
        Kind::Wakeup => "wakeup",
        Kind::Preempted => "preempted",
        Kind::Yield => "yield",
        Kind::Dead => "dead",
        Kind::Affinity => "affinity",
        Kind::TimerTick => "tick",
    }
}

/// Adds a CPU, or `-` for none. It fails only if out of memory.
pub fn write_cpu(out: &mut Text, cpu: Option<u16>) -> Result<(), AllocError>
    ensures { OnOk result (out.new ≡ out.old ++ cpu_text cpu) }
{
    match cpu {
        Some(cpu) => out.push_number("", cpu as u64),
        None => out.push_str("-"),
    }
}

/// Ends a line with a CPU, or with `-` for none.
#[inline(always)]
pub(crate) fn end_with_cpu(out: &mut Text, cpu: Option<u16>) -> Result<(), AllocError>
    ensures { OnOk result (out.new ≡ out.old ++ line (codes " cpu " ++ cpu_text cpu)) }
{
    match cpu {
        Some(cpu) => out.push_between(" cpu ", cpu as u64, "\n"),
        None => out.push_str(" cpu -\n"),
    }
}

/// Adds the line of a message that waits.
fn write_message(out: &mut Text, message: &Message) -> Result<(), AllocError>
    ensures { OnOk result (out.new ≡ out.old ++ line (message_text message.now)) }
{
    let kind = kind_name(message.kind());
    out.push_str("unread ")?;
    push_thread(out, kind, message.tid(), message.tseq())?;
    end_with_cpu(out, message.cpu())
}

/// Adds the lines of messages that wait, in order.
pub(crate) fn write_messages(out: &mut Text, messages: &[Message]) -> Result<(), AllocError>
    ensures { OnOk result (out.new ≡ out.old ++ message_lines messages.now) }
{
    for message in messages {
        write_message(out, message)?;
    }
    Ok(())
}

/// The words for what happened to a thread.
const CREATED: &str = "created";

const BLOCKED: &str = "blocked";

const WOKEN: &str = "woken";

const PREEMPTED: &str = "preempted";

const YIELDED: &str = "yielded";

const DEAD: &str = "dead";

const AFFINITY: &str = "affinity";

/// Returns what is said to have happened to a thread: one word, as `created` or `woken`.
pub fn change_name(change: &Change) -> &'static str
    ensures name { result.now ≡ change_text change.now }
    ensures short { length result.now ≤ 9 }
{
    match change {
        Change::Created { .. } => CREATED,
        Change::Blocked { .. } => BLOCKED,
        Change::Wakeup => WOKEN,
        Change::Preempted { .. } => PREEMPTED,
        Change::Yield { .. } => YIELDED,
        Change::Dead { .. } => DEAD,
        Change::Affinity { .. } => AFFINITY,
    }
}

/// Adds the line of what a message says that an event posted.
#[inline(always)]
fn write_posted(out: &mut Text, message: &Message) -> Result<(), AllocError>
    ensures { OnOk result (out.new ≡ out.old ++ line (posted_text message.now)) }
{
    match message {
        Message::Thread { tid, tseq, change } => write_change(out, *tid, *tseq, change),
        Message::TimerTick { cpu } => write_tick(out, *cpu),
    }
}

/// Adds the line of what happened to a thread, and the CPU that a new mask took it off.
#[inline(always)]
fn write_change(out: &mut Text, tid: u32, tseq: u32, change: &Change) -> Result<(), AllocError>
    ensures { OnOk result (out.new ≡ out.old ++ line (posted_text (Message.Thread tid tseq change.now))) }
{
    match change {
        Change::Affinity {
            cpu: Some(cpu),
            off: true,
            ..
        } => write_off(out, tid, tseq, *cpu),
        Change::Created { .. } => write_created(out, tid, tseq),
        Change::Blocked { .. } => write_blocked(out, tid, tseq),
        Change::Wakeup => write_woken(out, tid, tseq),
        Change::Preempted { .. } => write_preempted(out, tid, tseq),
        Change::Yield { .. } => write_yielded(out, tid, tseq),
        Change::Dead { .. } => write_dead(out, tid, tseq),
        Change::Affinity { .. } => write_affinity(out, tid, tseq),
    }
}

// A function for each word: one that is known where it is compiled is written without a call.

/// Adds the line of a thread that was created.
#[inline(never)]
fn write_created(out: &mut Text, tid: u32, tseq: u32) -> Result<(), AllocError>
    ensures { OnOk result (out.new ≡ out.old ++ line (codes "created" ++ codes " " ++ decimal tid ++ codes " seq " ++ decimal tseq)) }
{
    push_thread_line(out, CREATED, tid, tseq)
}

/// Adds the line of a thread that blocked.
#[inline(never)]
fn write_blocked(out: &mut Text, tid: u32, tseq: u32) -> Result<(), AllocError>
    ensures { OnOk result (out.new ≡ out.old ++ line (codes "blocked" ++ codes " " ++ decimal tid ++ codes " seq " ++ decimal tseq)) }
{
    push_thread_line(out, BLOCKED, tid, tseq)
}

/// Adds the line of a thread that woke.
#[inline(never)]
fn write_woken(out: &mut Text, tid: u32, tseq: u32) -> Result<(), AllocError>
    ensures { OnOk result (out.new ≡ out.old ++ line (codes "woken" ++ codes " " ++ decimal tid ++ codes " seq " ++ decimal tseq)) }
{
    push_thread_line(out, WOKEN, tid, tseq)
}

/// Adds the line of a thread that was taken off its CPU.
#[inline(never)]
fn write_preempted(out: &mut Text, tid: u32, tseq: u32) -> Result<(), AllocError>
    ensures { OnOk result (out.new ≡ out.old ++ line (codes "preempted" ++ codes " " ++ decimal tid ++ codes " seq " ++ decimal tseq)) }
{
    push_thread_line(out, PREEMPTED, tid, tseq)
}

/// Adds the line of a thread that gave its CPU up.
#[inline(never)]
fn write_yielded(out: &mut Text, tid: u32, tseq: u32) -> Result<(), AllocError>
    ensures { OnOk result (out.new ≡ out.old ++ line (codes "yielded" ++ codes " " ++ decimal tid ++ codes " seq " ++ decimal tseq)) }
{
    push_thread_line(out, YIELDED, tid, tseq)
}

/// Adds the line of a thread that ended.
#[inline(never)]
fn write_dead(out: &mut Text, tid: u32, tseq: u32) -> Result<(), AllocError>
    ensures { OnOk result (out.new ≡ out.old ++ line (codes "dead" ++ codes " " ++ decimal tid ++ codes " seq " ++ decimal tseq)) }
{
    push_thread_line(out, DEAD, tid, tseq)
}

/// Adds the line of a thread that has a new mask.
#[inline(never)]
fn write_affinity(out: &mut Text, tid: u32, tseq: u32) -> Result<(), AllocError>
    ensures { OnOk result (out.new ≡ out.old ++ line (codes "affinity" ++ codes " " ++ decimal tid ++ codes " seq " ++ decimal tseq)) }
{
    push_thread_line(out, AFFINITY, tid, tseq)
}

/// Adds the line of a new mask that took a thread off a CPU.
#[inline(never)]
fn write_off(out: &mut Text, tid: u32, tseq: u32, cpu: u16) -> Result<(), AllocError>
    ensures { OnOk result (out.new ≡ out.old ++ line (codes "affinity" ++ codes " " ++ decimal tid ++ codes " seq " ++ decimal tseq ++ codes " off " ++ decimal cpu)) }
{
    push_thread(out, AFFINITY, tid, tseq)?;
    out.push_between(" off ", cpu as u64, "\n")
}

/// Adds a placing.
/// It fails only if out of memory.
pub fn write_placed(
    out: &mut Text,
    tid: u32,
    tseq: u32,
    cpu: u16,
    generation: u32,
) -> Result<(), AllocError>
    ensures { OnOk result (out.new ≡ out.old ++ entry_text (Entry.Placed tid tseq cpu generation)) }
{
    push_thread(out, "placed", tid, tseq)?;
    out.push_number(" cpu ", cpu as u64)?;
    out.push_number(" generation ", generation as u64)
}

/// Adds the line of a placing.
#[inline(never)]
fn write_placed_line(
    out: &mut Text,
    tid: u32,
    tseq: u32,
    cpu: u16,
    generation: u32,
) -> Result<(), AllocError>
    ensures { OnOk result (out.new ≡ out.old ++ line (entry_text (Entry.Placed tid tseq cpu generation))) }
{
    write_placed(out, tid, tseq, cpu, generation)?;
    out.end_line()
}

/// Adds what is said of an agent that became active.
fn write_role(out: &mut Text, generation: u32, cpu: u16) -> Result<(), AllocError>
    ensures { OnOk result (out.new ≡ out.old ++ role_text generation cpu) }
{
    out.push_number("agent ", cpu as u64)?;
    out.push_number(" generation ", generation as u64)
}

/// Adds what is said of an agent that began to attach.
fn write_begin(out: &mut Text, generation: u32) -> Result<(), AllocError>
    ensures { OnOk result (out.new ≡ out.old ++ begin_text generation) }
{
    out.push_number("begun generation ", generation as u64)
}

/// Adds the line of a tick.
#[inline(never)]
fn write_tick(out: &mut Text, cpu: u16) -> Result<(), AllocError>
    ensures { OnOk result (out.new ≡ out.old ++ line (posted_text (Message.TimerTick cpu))) }
{
    out.push_between("tick ", cpu as u64, "\n")
}

/// Adds the line of a CPU that the other class took.
#[inline(never)]
fn write_taken(out: &mut Text, cpu: u16) -> Result<(), AllocError>
    ensures { OnOk result (out.new ≡ out.old ++ line (entry_text (Entry.Taken cpu))) }
{
    out.push_between("taken ", cpu as u64, "\n")
}

/// Adds the line of a CPU that the other class gave back.
#[inline(never)]
fn write_given(out: &mut Text, cpu: u16) -> Result<(), AllocError>
    ensures { OnOk result (out.new ≡ out.old ++ line (entry_text (Entry.Given cpu))) }
{
    out.push_between("given ", cpu as u64, "\n")
}

/// Adds the line of an agent that became active.
#[inline(never)]
fn write_role_line(out: &mut Text, generation: u32, cpu: u16) -> Result<(), AllocError>
    ensures { OnOk result (out.new ≡ out.old ++ line (role_text generation cpu)) }
{
    write_role(out, generation, cpu)?;
    out.end_line()
}

/// Adds the line of an agent that began to attach.
#[inline(never)]
fn write_begin_line(out: &mut Text, generation: u32) -> Result<(), AllocError>
    ensures { OnOk result (out.new ≡ out.old ++ line (begin_text generation)) }
{
    write_begin(out, generation)?;
    out.end_line()
}

/// Adds the line of an entry of the journal.
#[inline(always)]
pub(crate) fn write_entry(out: &mut Text, entry: &Entry) -> Result<(), AllocError>
    ensures { OnOk result (out.new ≡ out.old ++ line (entry_text entry.now)) }
{
    match entry {
        Entry::Posted { message } => write_posted(out, message),
        Entry::Placed {
            tid,
            tseq,
            cpu,
            generation,
        } => write_placed_line(out, *tid, *tseq, *cpu, *generation),
        Entry::Role { generation, cpu } => write_role_line(out, *generation, *cpu),
        Entry::Begin { generation } => write_begin_line(out, *generation),
        Entry::Left => out.push_str("left\n"),
        Entry::Taken { cpu } => write_taken(out, *cpu),
        Entry::Given { cpu } => write_given(out, *cpu),
        Entry::Torn => out.push_str("torn\n"),
    }
}

/// Adds the line of the last entry of a journal, which is matched as it is unpacked.
#[inline(always)]
pub(crate) fn write_last(out: &mut Text, last: LastEntry<'_>) -> Result<(), AllocError>
    ensures { OnOk result (out.new ≡ out.old ++ line (entry_text (entry_lent last.entry))) }
{
    write_entry(out, &last.entry())
}
