ghost use Rattle.std.specs.Prelude.{◌≡◌, ◌++◌, IfOk, OnOk};
ghost use Rattle.gs_lines.specs.Lines.{line};
ghost use Rattle.gs_history.specs.Journal.{entry_words, fields_text, journal_lines, mask_text, numbered, off_text, posted_words};

use gs_journal::{Entry, Journal};
use gs_layout::{Change, Message};
use gs_lines::{Text, change_name, push_thread, write_cpu, write_facts, write_placed};
use std::alloc::{AllocError, Global};

/// Returns the word that says that a new mask took a thread off its CPU, behind a space, or nothing if it did not.
fn off_name(off: bool) -> &'static str
    ensures { result.now ≡ off_text off }
{
    if off { " off" } else { "" }
}

/// Adds a new mask, the CPU that the thread was on, and whether it was taken off it.
fn write_mask(out: &mut Text, cpu: Option<u16>, off: bool, mask: u128) -> Result<(), AllocError>
    ensures { OnOk result (out.new ≡ out.old ++ mask_text cpu off mask) }
{
    out.push_mask(" mask ", mask, "")?;
    out.push_str(" cpu ")?;
    write_cpu(out, cpu)?;
    out.push_str(off_name(off))
}

/// Adds what a change tells beside the thread and its number.
fn write_fields(out: &mut Text, change: &Change) -> Result<(), AllocError>
    ensures { OnOk result (out.new ≡ out.old ++ fields_text change.now) }
{
    match change {
        Change::Created { facts } => {
            out.push_str(" ")?;
            write_facts(out, facts)
        }
        Change::Wakeup => Ok(()),
        Change::Blocked { cpu } | Change::Preempted { cpu } | Change::Yield { cpu } => {
            out.push_number(" cpu ", *cpu as u64)
        }
        Change::Dead { cpu } => {
            out.push_str(" cpu ")?;
            write_cpu(out, *cpu)
        }
        Change::Affinity { cpu, off, mask } => write_mask(out, *cpu, *off, mask.bits()),
    }
}

/// Adds what a message tells.
fn write_posted(out: &mut Text, message: &Message) -> Result<(), AllocError>
    ensures { OnOk result (out.new ≡ out.old ++ posted_words message.now) }
{
    match message {
        Message::Thread { tid, tseq, change } => {
            push_thread(out, change_name(change), *tid, *tseq)?;
            write_fields(out, change)
        }
        Message::TimerTick { cpu } => out.push_number("tick cpu ", *cpu as u64),
    }
}

/// Adds an agent that began to attach.
fn write_begin(out: &mut Text, generation: u32) -> Result<(), AllocError>
    ensures { OnOk result (out.new ≡ out.old ++ entry_words (Entry.Begin generation)) }
{
    out.push_number("begin generation ", generation as u64)
}

/// Adds what an entry says.
fn write_entry(out: &mut Text, entry: &Entry) -> Result<(), AllocError>
    ensures { OnOk result (out.new ≡ out.old ++ entry_words entry.now) }
{
    match entry {
        Entry::Posted { message } => {
            out.push_str("posted ")?;
            write_posted(out, message)
        }
        Entry::Placed {
            tid,
            tseq,
            cpu,
            generation,
        } => write_placed(out, *tid, *tseq, *cpu, *generation),
        Entry::Role { generation, cpu } => {
            out.push_number("role cpu ", *cpu as u64)?;
            out.push_number(" generation ", *generation as u64)
        }
        Entry::Begin { generation } => write_begin(out, *generation),
        Entry::Left => out.push_str("left"),
        Entry::Taken { cpu } => out.push_number("taken ", *cpu as u64),
        Entry::Given { cpu } => out.push_number("given ", *cpu as u64),
        Entry::Torn => out.push_str("torn"),
    }
}

/// Adds the line of an entry, by its place in the journal.
fn write_line(out: &mut Text, place: usize, entry: &Entry) -> Result<(), AllocError>
    ensures { OnOk result (out.new ≡ out.old ++ line (numbered place entry.now)) }
{
    out.push_number("", place as u64)?;
    out.push_str(" ")?;
    write_entry(out, entry)?;
    out.end_line()
}

/// Returns a journal as text: a line for each entry, in order, which begins with the entry's place, counted
/// from 0.
///
/// # Errors
///
/// `AllocError` if out of memory.
pub fn journal_text(alloc: Global, journal: &Journal) -> Result<Text, AllocError>
    ensures { IfOk result (λ text. text ≡ journal_lines journal.now.entries) }
{
    let mut out = Text::new(alloc);
    for place in 0..journal.len() {
        write_line(&mut out, place, &journal.entry(place))?;
    }
    Ok(out)
}
