ghost use Rattle.std.specs.Prelude.{◌≡◌, ◌≤◌, ◌++◌, IfOk, OnOk, codes, decimal, length};
ghost use Rattle.gs_journal.specs.Last.{entry_lent};
ghost use Rattle.gs_replies.specs.Replies.{reply_of};
ghost use Rattle.gs_lines.specs.Lines.{refusal_text, outcome_text, drained_text, unless_zero, stop_text, line, landed_text, landing_text, landing_lines, late_text, next_text, page_text, torn_line, reply_lines, lines};

use crate::choice_line::write_decided;
use crate::message_line::{write_entry, write_last, write_messages};
use crate::thread::push_thread_line;
use crate::thread_line::{write_threads, write_view};
use gs_agent::{Drained, Stop};
use gs_core::Reply;
use gs_journal::LastEntry;
use gs_kernel::{Executed, Landing};
use gs_layout::{Outcome, Refusal};
use gs_text::Sheet as Text;
use std::alloc::{AllocError, Global};

/// The number and the name of a refusal.
fn refusal_name(refusal: Refusal) -> &'static str
    ensures { result.now ≡ refusal_text refusal }
{
    match refusal {
        Refusal::NoThread => "1 NoThread",
        Refusal::NotRunning => "2 NotRunning",
        Refusal::NotBlocked => "3 NotBlocked",
        Refusal::EmptyMask => "4 EmptyMask",
        Refusal::BadCpu => "5 BadCpu",
        Refusal::AgentThere => "6 AgentThere",
        Refusal::CpuTaken => "7 CpuTaken",
        Refusal::NotTaken => "8 NotTaken",
        Refusal::NotActive => "9 NotActive",
        Refusal::StillAttached => "10 StillAttached",
        Refusal::NotAttaching => "11 NotAttaching",
        Refusal::SeqSpent => "12 SeqSpent",
        Refusal::GenSpent => "13 GenSpent",
        Refusal::TidsSpent => "14 TidsSpent",
        Refusal::HistoryFull => "15 HistoryFull",
        Refusal::SlotOpen => "16 SlotOpen",
        Refusal::NoSuchTransaction => "17 NoSuchTransaction",
        Refusal::Gone => "18 Gone",
        Refusal::OutOfMemory => "19 OutOfMemory",
    }
}

/// Returns the name of an outcome: one word, as `stale`.
pub fn outcome_name(outcome: Outcome) -> &'static str
    ensures name { result.now ≡ outcome_text outcome }
    ensures short { length result.now ≤ 13 }
{
    match outcome {
        Outcome::Placed => "placed",
        Outcome::Gone => "gone",
        Outcome::Displaced => "displaced",
        Outcome::NoThread => "nothread",
        Outcome::Stale => "stale",
        Outcome::NotRunnable => "notrunnable",
        Outcome::AlreadyPlaced => "alreadyplaced",
        Outcome::NotAllowed => "notallowed",
        Outcome::CpuIsAgent => "cpuisagent",
        Outcome::CpuTaken => "cputaken",
        Outcome::CpuBusy => "cpubusy",
        Outcome::SeqSpent => "seqspent",
        Outcome::HistoryFull => "historyfull",
        Outcome::Malformed => "malformed",
        Outcome::GroupFailed => "groupfailed",
    }
}

/// Adds the line of what became of a transaction, with a word and a number before it.
#[inline(always)]
#[tactic(auto, unfolding(crate::specs::Lines::thread_text))]
fn write_landed(
    out: &mut Text,
    head: &str,
    number: u64,
    landing: &Landing,
) -> Result<(), AllocError>
    ensures { OnOk result (out.new ≡ out.old ++ line (head.now ++ decimal number ++ codes " " ++ landed_text landing.now)) }
{
    out.push_between(head, number, " ")?;
    let name = outcome_name(landing.outcome);
    push_thread_line(out, name, landing.tid, landing.seen)
}

/// Adds the line of a landing. It fails only if out of memory.
pub fn write_landing(out: &mut Text, landing: &Landing) -> Result<(), AllocError>
    ensures { OnOk result (out.new ≡ out.old ++ line (landing_text landing.now)) }
{
    write_landed(out, "cpu ", landing.cpu as u64, landing)
}

/// Adds the lines of landings.
fn write_landings(out: &mut Text, landings: &[Landing]) -> Result<(), AllocError>
    ensures { OnOk result (out.new ≡ out.old ++ landing_lines landings.now) }
{
    for landing in landings {
        write_landing(out, landing)?;
    }
    Ok(())
}

/// Adds the line of a late landing, by the number of its transaction. It fails only if out of memory.
pub fn write_late(out: &mut Text, number: u32, landing: &Landing) -> Result<(), AllocError>
    ensures { OnOk result (out.new ≡ out.old ++ line (late_text number landing.now)) }
{
    write_landed(out, "late ", number as u64, landing)
}

/// Adds the line behind landings that tore the enclave down, if they did. It fails only if out of memory.
pub fn write_torn(out: &mut Text, torn: bool) -> Result<(), AllocError>
    ensures { OnOk result (out.new ≡ out.old ++ torn_line torn) }
{
    if torn { out.push_str("torn\n") } else { Ok(()) }
}

/// Adds the lines of a commit: of its landings, and behind them that they tore the enclave down, if they did. It fails
/// only if out of memory.
pub fn write_committed(out: &mut Text, landings: &[Landing], torn: bool) -> Result<(), AllocError>
    ensures { OnOk result (out.new ≡ out.old ++ landing_lines landings.now ++ torn_line torn) }
{
    write_landings(out, landings)?;
    write_torn(out, torn)
}

/// Adds a word and a number, if the number isn't 0.
fn write_part(out: &mut Text, word: &str, number: usize) -> Result<(), AllocError>
    ensures { OnOk result (out.new ≡ out.old ++ unless_zero word.now number) }
{
    if number == 0 {
        return Ok(());
    }
    out.push_number(word, number as u64)
}

/// Returns why a drain stopped, if its line says so.
fn stop_name(stop: Option<Stop>) -> &'static str
    ensures { result.now ≡ stop_text stop }
{
    match stop {
        Some(Stop::Gap) => " stopped gap",
        Some(Stop::Memory) | None => "",
    }
}

/// Adds the line of a drain. It fails only if out of memory.
pub fn write_drained(out: &mut Text, drained: &Drained) -> Result<(), AllocError>
    ensures { OnOk result (out.new ≡ out.old ++ line (drained_text drained.now)) }
{
    let Drained {
        count,
        skipped,
        orphans,
        stop,
    } = *drained;
    if let (0, 0, None) = (skipped, orphans, stop) {
        return out.push_between("drained ", count as u64, "\n");
    }
    out.push_number("drained ", count as u64)?;
    write_part(out, " skipped ", skipped)?;
    write_part(out, " orphans ", orphans)?;
    out.push_str(stop_name(stop))?;
    out.end_line()
}

/// Adds where the next page begins, or that there is none.
fn write_next(out: &mut Text, next: Option<u32>) -> Result<(), AllocError>
    ensures { OnOk result (out.new ≡ out.old ++ next_text next) }
{
    match next {
        Some(next) => out.push_number(" next ", next as u64),
        None => out.push_str(" end"),
    }
}

/// Adds the line of a page.
fn write_page(out: &mut Text, count: u16, next: Option<u32>) -> Result<(), AllocError>
    ensures { OnOk result (out.new ≡ out.old ++ line (page_text count next)) }
{
    out.push_number("page ", count as u64)?;
    write_next(out, next)?;
    out.end_line()
}

/// Adds the line of a refusal. It fails only if out of memory.
pub fn write_refused(out: &mut Text, refusal: Refusal) -> Result<(), AllocError>
    ensures { OnOk result (out.new ≡ out.old ++ line (codes "refused " ++ refusal_text refusal)) }
{
    out.push_str("refused ")?;
    out.push_str(refusal_name(refusal))?;
    out.end_line()
}

/// Adds the line of a stamp, by its transaction's number. It fails only if out of memory.
pub fn write_stamped(out: &mut Text, number: u32) -> Result<(), AllocError>
    ensures { OnOk result (out.new ≡ out.old ++ line (codes "stamped " ++ decimal number)) }
{
    out.push_between("stamped ", number as u64, "\n")
}

/// Adds the lines of a reply, each ended by a newline. A commit has a line for each landing, and a look one
/// for each thread or message that it shows. A decision has one and one for each choice, and any other reply
/// has one. It fails only if out of memory.
pub fn write_reply(out: &mut Text, reply: &Reply) -> Result<(), AllocError>
    ensures { OnOk result (out.new ≡ out.old ++ reply_lines reply.now) }
{
    match reply {
        Reply::Refused(refusal) => write_refused(out, *refusal),
        Reply::Torn => out.push_str("torn\n"),
        Reply::Done(entry) => write_entry(out, entry),
        Reply::Crashed => out.push_str("crashed\n"),
        Reply::Page { count, next, .. } => write_page(out, *count, *next),
        Reply::Drained(drained) => write_drained(out, drained),
        Reply::Stamped { number } => write_stamped(out, *number),
        Reply::Decided { first, choices } => write_decided(out, *first, choices.as_slice()),
        Reply::Landed { landings, torn } => write_committed(out, landings.as_slice(), *torn),
        Reply::Late {
            number,
            landing,
            torn,
        } => {
            write_late(out, *number, landing)?;
            write_torn(out, *torn)
        }
        Reply::View(known) => write_view(out, known.as_slice()),
        Reply::State(threads) => write_threads(out, threads.as_slice()),
        Reply::Unread(messages) => write_messages(out, messages.as_slice()),
    }
}

/// Adds the line of the reply to a command by what came of it and the kernel's last entry. It fails only if out of memory.
#[inline(always)]
pub fn write_executed(
    out: &mut Text,
    came: Result<Executed, Refusal>,
    last: LastEntry<'_>,
) -> Result<(), AllocError>
    ensures { OnOk result (out.new ≡ out.old ++ reply_lines (reply_of came (entry_lent last.entry))) }
{
    match came {
        Ok(Executed::Done) => write_last(out, last),
        Ok(Executed::Torn) => out.push_str("torn\n"),
        Err(refusal) => write_refused(out, refusal),
    }
}

/// Returns the lines of replies, in order, as [`write_reply`] adds them. It fails only if out of memory.
pub fn text_of(alloc: Global, replies: &[Reply]) -> Result<Text, AllocError>
    ensures { IfOk result (λ text. text ≡ lines replies.now) }
{
    let mut out = Text::new(alloc);
    for reply in replies {
        write_reply(&mut out, reply)?;
    }
    Ok(out)
}
