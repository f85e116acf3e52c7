//! What is shown of an event.

ghost use Rattle.std.specs.Prelude.{◌≡◌, ◌≤◌, ◌++◌, Some, OnOk, length, take, true};
ghost use Rattle.gs_reasons.specs.Kept.{HasHeard};
ghost use Rattle.gs_script.specs.Words.{is_text};
ghost use Rattle.gs_script.specs.Unread.{said_line};
ghost use Rattle.gs_journal.specs.Last.{entry_lent};
ghost use Rattle.gs_replies.specs.Replies.{reply_of};
ghost use Rattle.gs_replies.specs.declared.reply.Reply.TheVariants as replies;
ghost use Rattle.gs_trace.specs.Came.{reply_in};
ghost use Rattle.gs_explain.specs.Marked.{IsMarked};
ghost use Rattle.gs_explain.specs.Moment.{moment_of};
ghost use Rattle.gs_explain.specs.Landings.{because};
ghost use Rattle.gs_explain.specs.Quiet.{quiet_row};
ghost use Rattle.gs_explain.specs.Refusals.{why_refused};
ghost use Rattle.gs_explain.specs.Rows.{done_row, drained_shown, plain_shown, reply_shown, row};
ghost use Rattle.gs_sentences.specs.Reason as reasons;

use crate::hearing::hear_all;
use crate::landed::group_fault;
use crate::landings::{write_landings, write_late_landing};
use crate::moment::Scene;
use crate::overflow::overflow_of;
use crate::page::Page;
use crate::quiet::Quiet;
use crate::refused::why_refused;
use gs_agent::Drained;
use gs_core::Reply;
use gs_journal::{Journal, LastEntry};
use gs_kernel::{Executed, Landing};
use gs_layout::Refusal;
use gs_reasons::Index;
use gs_script::SaidLine;
use gs_sentences::Reason;
use gs_trace::Came;
use std::alloc::AllocError;

/// Adds what was special about the messages of a drain.
fn write_drained(out: &mut Page, drained: &Drained) -> Result<(), AllocError>
    ensures { OnOk result (out.new ≡ out.old ++ drained_shown drained.now) }
{
    if drained.skipped != 0 {
        out.reason(&Reason::Skipped(drained.skipped))?;
    }
    if drained.orphans != 0 {
        out.reason(&Reason::Orphans(drained.orphans))?;
    }
    match drained.stop {
        Some(stop) => out.reason(&Reason::Stopped(stop)),
        None => Ok(()),
    }
}

/// Adds why an event was refused. An index has heard all entries.
#[inline(never)]
fn write_refused(
    out: &mut Page,
    scene: &Scene<'_>,
    index: &Index,
    refusal: Refusal,
) -> Result<(), AllocError>
    requires heard { HasHeard index.now scene.now.journal.now.entries }
    requires marked { IsMarked scene.now.last.now.places.items scene.now.transactions.now }
    ensures { OnOk result (out.new ≡ out.old ++ because (Some (reasons.Refused (why_refused (moment_of scene.now) refusal)))) }
{
    out.refused(&why_refused(scene, index, refusal))
}

/// Adds what did not fit as an event tore the enclave down.
#[inline(never)]
fn write_torn(out: &mut Page, scene: &Scene<'_>) -> Result<(), AllocError>
    ensures { OnOk result (out.new ≡ out.old ++ because (Some (reasons.Torn (moment_of scene.now).overflow))) }
{
    out.reason(&Reason::Torn(overflow_of(scene.event, scene.kernel)))
}

/// Adds a reply that is of no landing, and what explains it. An index has heard all entries.
fn write_plain(
    out: &mut Page,
    scene: &Scene<'_>,
    index: &Index,
    reply: &Reply,
) -> Result<(), AllocError>
    requires heard { HasHeard index.now scene.now.journal.now.entries }
    requires marked { IsMarked scene.now.last.now.places.items scene.now.transactions.now }
    ensures { OnOk result (out.new ≡ out.old ++ plain_shown (moment_of scene.now) reply.now) }
{
    out.reply(reply)?;
    match reply {
        Reply::Refused(refusal) => write_refused(out, scene, index, *refusal),
        Reply::Torn => write_torn(out, scene),
        Reply::Drained(drained) => write_drained(out, drained),
        _ => Ok(()),
    }
}

/// Adds what became of the slots of a commit, with reasons. An index has heard the entries before the commit, so many, and
/// hears those of it.
#[inline(always)]
fn write_committed(
    out: &mut Page,
    scene: &Scene<'_>,
    index: &mut Index,
    first: usize,
    landings: &[Landing],
    torn: bool,
) -> Result<(), AllocError>
    requires within { first ≤ length scene.now.journal.now.entries }
    requires heard { HasHeard index.old (take first scene.now.journal.now.entries) }
    requires marked { IsMarked scene.now.last.now.places.items scene.now.transactions.now }
    ensures shown { OnOk result (out.new ≡ out.old ++ reply_shown (moment_of scene.now) first (replies.Landed landings.now torn)) }
    ensures heard { OnOk result (HasHeard index.new scene.now.journal.now.entries) }
{
    if landings.is_empty() {
        out.nothing()?;
        hear_all(index, scene.journal, first)?;
        return out.torn(torn);
    }
    let fault = group_fault(scene, landings);
    let heard = write_landings(out, scene, index, &fault, first, landings)?;
    hear_all(index, scene.journal, heard)?;
    out.torn(torn)
}

/// Adds a reply, line by line, and what explains it. An index has heard the entries before the event, so many, and
/// hears those of the event.
pub(crate) fn write_shown(
    out: &mut Page,
    scene: &Scene<'_>,
    index: &mut Index,
    first: usize,
    reply: &Reply,
) -> Result<(), AllocError>
    requires within { first ≤ length scene.now.journal.now.entries }
    requires heard { HasHeard index.old (take first scene.now.journal.now.entries) }
    requires marked { IsMarked scene.now.last.now.places.items scene.now.transactions.now }
    ensures shown { OnOk result (out.new ≡ out.old ++ reply_shown (moment_of scene.now) first reply.now) }
    ensures heard { OnOk result (HasHeard index.new scene.now.journal.now.entries) }
{
    match reply {
        Reply::Landed { landings, torn } => {
            write_committed(out, scene, index, first, landings.as_slice(), *torn)
        }
        Reply::Late {
            number,
            landing,
            torn,
        } => {
            let heard = write_late_landing(out, scene, index, first, *number, landing)?;
            hear_all(index, scene.journal, heard)?;
            out.torn(*torn)
        }
        _ => {
            hear_all(index, scene.journal, first)?;
            write_plain(out, scene, index, reply)
        }
    }
}

/// Adds what came of a command, and what explains that. An index has heard all entries.
#[inline(always)]
fn write_executed(
    out: &mut Page,
    scene: &Scene<'_>,
    index: &Index,
    came: Result<Executed, Refusal>,
    last: LastEntry<'_>,
) -> Result<(), AllocError>
    requires heard { HasHeard index.now scene.now.journal.now.entries }
    requires marked { IsMarked scene.now.last.now.places.items scene.now.transactions.now }
    ensures { OnOk result (out.new ≡ out.old ++ plain_shown (moment_of scene.now) (reply_of came (entry_lent last.entry))) }
{
    out.executed(came, last)?;
    match came {
        Ok(Executed::Done) => Ok(()),
        Ok(Executed::Torn) => write_torn(out, scene),
        Err(refusal) => write_refused(out, scene, index, refusal),
    }
}

/// Adds what came of an event, line by line, and what explains it. An index has heard the entries before the event, so many,
/// and hears those of the event.
#[inline(always)]
fn write_came(
    out: &mut Page,
    scene: &Scene<'_>,
    index: &mut Index,
    first: usize,
    came: Came<'_>,
) -> Result<(), AllocError>
    requires within { first ≤ length scene.now.journal.now.entries }
    requires heard { HasHeard index.old (take first scene.now.journal.now.entries) }
    requires marked { IsMarked scene.now.last.now.places.items scene.now.transactions.now }
    ensures shown { OnOk result (out.new ≡ out.old ++ reply_shown (moment_of scene.now) first (reply_in came.entry)) }
    ensures heard { OnOk result (HasHeard index.new scene.now.journal.now.entries) }
{
    match came {
        Came::Executed(came, last) => {
            hear_all(index, scene.journal, first)?;
            write_executed(out, scene, index, came, last)
        }
        Came::Refused(refusal) => {
            hear_all(index, scene.journal, first)?;
            out.refusal(refusal)?;
            write_refused(out, scene, index, refusal)
        }
        Came::Drained(drained) => {
            hear_all(index, scene.journal, first)?;
            out.drained(drained)?;
            write_drained(out, drained)
        }
        Came::Stamped { number, .. } => {
            hear_all(index, scene.journal, first)?;
            out.stamped(number)
        }
        Came::Landed(landings, torn) => {
            write_committed(out, scene, index, first, landings, torn)
        }
        Came::Decided(number, choices) => {
            hear_all(index, scene.journal, first)?;
            out.decided(number, choices)
        }
        Came::Replied(reply) => write_shown(out, scene, index, first, reply),
    }
}

/// Adds the line of an event, what came of it with what explains that, and the entries that it added. An index has heard
/// the entries before the event, so many, and hears those of the event. It fails only if out of memory.
#[inline(always)]
pub(crate) fn write_row(
    out: &mut Page,
    said: &SaidLine<'_>,
    scene: &Scene<'_>,
    index: &mut Index,
    first: usize,
    came: Came<'_>,
) -> Result<(), AllocError>
    requires text { is_text said.now.bytes.now ≡ true }
    requires within { first ≤ length scene.now.journal.now.entries }
    requires heard { HasHeard index.old (take first scene.now.journal.now.entries) }
    requires marked { IsMarked scene.now.last.now.places.items scene.now.transactions.now }
    ensures shown { OnOk result (out.new ≡ out.old ++ row (said_line said.now) (moment_of scene.now) first (reply_in came.entry)) }
    ensures heard { OnOk result (HasHeard index.new scene.now.journal.now.entries) }
{
    out.heading(said)?;
    write_came(out, scene, index, first, came)?;
    out.added(first, scene.journal.len())
}

/// Adds the line of an event that added no entry, and what came of it.
#[inline(always)]
pub(crate) fn write_quiet(
    out: &mut Page,
    said: &SaidLine<'_>,
    quiet: &Quiet,
) -> Result<(), AllocError>
    requires { is_text said.now.bytes.now ≡ true }
    ensures { OnOk result (out.new ≡ out.old ++ quiet_row (said_line said.now) quiet.now) }
{
    out.heading(said)?;
    match quiet {
        Quiet::Nothing => out.nothing(),
        Quiet::Stamped { number, .. } => out.stamped(*number),
        Quiet::Drained(drained) => {
            out.drained(drained)?;
            write_drained(out, drained)
        }
    }
}

/// Adds the line of a command that was done, its reply, and the entries that it added, as [`write_row`] does.
#[inline(always)]
pub(crate) fn write_done(
    out: &mut Page,
    said: &SaidLine<'_>,
    journal: &Journal,
    index: &mut Index,
    first: usize,
    last: LastEntry<'_>,
) -> Result<(), AllocError>
    requires text { is_text said.now.bytes.now ≡ true }
    requires within { first ≤ length journal.now.entries }
    requires heard { HasHeard index.old (take first journal.now.entries) }
    ensures shown { OnOk result (out.new ≡ out.old ++ done_row (said_line said.now) first (length journal.now.entries) (entry_lent last.entry)) }
    ensures heard { OnOk result (HasHeard index.new journal.now.entries) }
{
    out.heading(said)?;
    hear_all(index, journal, first)?;
    out.executed(Ok(Executed::Done), last)?;
    out.added(first, journal.len())
}
