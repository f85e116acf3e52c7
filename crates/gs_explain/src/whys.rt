//! The reasons of an event, as JSON.

ghost use Rattle.std.specs.Prelude.{◌≡◌, ◌≤◌, ◌++◌, Some, IfOk, OnOk, length, take, true};
ghost use Rattle.gs_reasons.specs.Kept.{HasHeard};
ghost use Rattle.gs_journal.specs.Last.{entry_lent};
ghost use Rattle.gs_replies.specs.Replies.{reply_of};
ghost use Rattle.gs_sentences.specs.Reason as reasons;
ghost use Rattle.gs_trace.specs.Came.{reply_in};
ghost use Rattle.gs_explain.specs.Composed.{behind_commas};
ghost use Rattle.gs_explain.specs.Landings.{group_fault, why_landed};
ghost use Rattle.gs_explain.specs.Marked.{IsMarked};
ghost use Rattle.gs_explain.specs.Moment.{moment_of};
ghost use Rattle.gs_explain.specs.Objects.{drained_why, landings_why, listed, none_why, plain_whys, whys};
ghost use Rattle.gs_explain.specs.Quiet.{quiet_why};
ghost use Rattle.gs_explain.specs.Refusals.{why_refused};
ghost use Rattle.gs_explain.specs.Rows.{stopped, unless_none};

use crate::draft::Draft;
use crate::hearing::{hear_all, hear_landing};
use crate::landed::{group_fault, is_gone, landed};
use crate::moment::Scene;
use crate::overflow::overflow_of;
use crate::quiet::Quiet;
use crate::refused::why_refused;
use gs_agent::{Drained, Stop};
use gs_core::Reply;
use gs_journal::LastEntry;
use gs_kernel::{Executed, Landing};
use gs_layout::{Outcome, Refusal};
use gs_reasons::{GroupFault, Index};
use gs_sentences::Reason;
use gs_trace::Came;
use std::alloc::AllocError;

/// Adds why a transaction was not placed, if it was not. An index has heard the first entries, so many.
fn push_landed(
    out: &mut Draft,
    scene: &Scene<'_>,
    index: &Index,
    fault: &Option<GroupFault>,
    stood: bool,
    heard: usize,
    landing: &Landing,
) -> Result<(), AllocError>
    requires heard { HasHeard index.now (take heard scene.now.journal.now.entries) }
    requires marked { IsMarked scene.now.last.now.places.items scene.now.transactions.now }
    ensures { OnOk result (out.new ≡ out.old ++ behind_commas (listed (why_landed (moment_of scene.now) fault.now stood heard landing.now))) }
{
    if matches!(landing.outcome, Outcome::Placed) {
        return Ok(());
    }
    let landed = landed(scene, index, fault, stood, heard, landing);
    out.reason(&Reason::Landed(landed))
}

/// Adds why landings were not placed, and returns how many entries the index has heard then.
#[tactic(auto, using(crate::proofs::Composing::commas_more))]
fn push_landings(
    out: &mut Draft,
    scene: &Scene<'_>,
    index: &mut Index,
    fault: &Option<GroupFault>,
    heard: usize,
    landings: &[Landing],
) -> Result<usize, AllocError>
    requires within { heard ≤ length scene.now.journal.now.entries }
    requires heard { HasHeard index.old (take heard scene.now.journal.now.entries) }
    requires marked { IsMarked scene.now.last.now.places.items scene.now.transactions.now }
    ensures shown { OnOk result (out.new ≡ out.old ++ behind_commas (landings_why (moment_of scene.now) fault.now true heard landings.now)) }
    ensures within { IfOk result (λ n. n ≤ length scene.now.journal.now.entries) }
    ensures heard { IfOk result (λ n. HasHeard index.new (take n scene.now.journal.now.entries)) }
{
    let mut n = heard;
    let mut stood = true;
    let mut rest = landings;
    'landings: while let Some((landing, behind)) = rest.split_first() {
        n = hear_landing(index, scene.journal, n, landing.outcome)?;
        push_landed(out, scene, index, fault, stood, n, landing)?;
        stood = stood && !is_gone(landing.outcome);
        rest = behind;
    }
    Ok(n)
}

/// Adds that no transaction landed, if that is so.
fn push_none(out: &mut Draft, landings: &[Landing]) -> Result<(), AllocError>
    ensures { OnOk result (out.new ≡ out.old ++ behind_commas (none_why landings.now)) }
{
    if landings.is_empty() {
        return out.nothing();
    }
    Ok(())
}

/// Adds why messages of a drain were skipped, if so many were and that is not 0.
fn push_skipped(out: &mut Draft, count: usize) -> Result<(), AllocError>
    ensures { OnOk result (out.new ≡ out.old ++ behind_commas (listed (unless_none reasons.Skipped count))) }
{
    if count == 0 {
        return Ok(());
    }
    out.reason(&Reason::Skipped(count))
}

/// Adds why messages of a drain were orphans, if so many were and that is not 0.
fn push_orphans(out: &mut Draft, count: usize) -> Result<(), AllocError>
    ensures { OnOk result (out.new ≡ out.old ++ behind_commas (listed (unless_none reasons.Orphans count))) }
{
    if count == 0 {
        return Ok(());
    }
    out.reason(&Reason::Orphans(count))
}

/// Adds why a drain stopped, if it did.
fn push_stopped(out: &mut Draft, stop: Option<Stop>) -> Result<(), AllocError>
    ensures { OnOk result (out.new ≡ out.old ++ behind_commas (listed (stopped stop))) }
{
    match stop {
        Some(stop) => out.reason(&Reason::Stopped(stop)),
        None => Ok(()),
    }
}

/// Adds what was special about the messages of a drain.
fn push_drained(out: &mut Draft, drained: &Drained) -> Result<(), AllocError>
    ensures { OnOk result (out.new ≡ out.old ++ behind_commas (drained_why drained.now)) }
{
    push_skipped(out, drained.skipped)?;
    push_orphans(out, drained.orphans)?;
    push_stopped(out, drained.stop)
}

/// Adds the reasons of an event that added no entry, by what came of it.
#[inline(always)]
pub(crate) fn push_quiet(out: &mut Draft, quiet: &Quiet) -> Result<(), AllocError>
    ensures { OnOk result (out.new ≡ out.old ++ behind_commas (quiet_why quiet.now)) }
{
    match quiet {
        Quiet::Nothing => out.nothing(),
        Quiet::Stamped { .. } => Ok(()),
        Quiet::Drained(drained) => push_drained(out, drained),
    }
}

/// Adds why an event was refused. An index has heard all entries.
#[inline(never)]
fn push_refused(
    out: &mut Draft,
    scene: &Scene<'_>,
    index: &Index,
    refusal: Refusal,
) -> Result<(), AllocError>
    requires heard { HasHeard index.now scene.now.journal.now.entries }
    requires marked { IsMarked scene.now.last.now.places.items scene.now.transactions.now }
    ensures { OnOk result (out.new ≡ out.old ++ behind_commas (listed (Some (reasons.Refused (why_refused (moment_of scene.now) refusal))))) }
{
    let refused = why_refused(scene, index, refusal);
    out.reason(&Reason::Refused(refused))
}

/// Adds what did not fit as an event tore the enclave down.
#[inline(never)]
fn push_torn(out: &mut Draft, scene: &Scene<'_>) -> Result<(), AllocError>
    ensures { OnOk result (out.new ≡ out.old ++ behind_commas (listed (Some (reasons.Torn (moment_of scene.now).overflow)))) }
{
    let overflow = overflow_of(scene.event, scene.kernel);
    out.reason(&Reason::Torn(overflow))
}

/// Adds the reasons of a reply that is of no landing. An index has heard all entries.
fn push_plain(
    out: &mut Draft,
    scene: &Scene<'_>,
    index: &Index,
    reply: &Reply,
) -> Result<(), AllocError>
    requires heard { HasHeard index.now scene.now.journal.now.entries }
    requires marked { IsMarked scene.now.last.now.places.items scene.now.transactions.now }
    ensures { OnOk result (out.new ≡ out.old ++ behind_commas (plain_whys (moment_of scene.now) reply.now)) }
{
    match reply {
        Reply::Refused(refusal) => push_refused(out, scene, index, *refusal),
        Reply::Torn => push_torn(out, scene),
        Reply::Drained(drained) => push_drained(out, drained),
        _ => Ok(()),
    }
}

/// Adds the reasons of a commit. An index has heard the entries before the commit, so many, and hears those of it.
#[inline(always)]
#[tactic(auto, using(crate::proofs::Composing::commas_more))]
fn push_committed(
    out: &mut Draft,
    scene: &Scene<'_>,
    index: &mut Index,
    first: usize,
    landings: &[Landing],
) -> Result<(), AllocError>
    requires within { first ≤ length scene.now.journal.now.entries }
    requires heard { HasHeard index.old (take first scene.now.journal.now.entries) }
    requires marked { IsMarked scene.now.last.now.places.items scene.now.transactions.now }
    ensures shown { OnOk result (out.new ≡ out.old ++ behind_commas (none_why landings.now ++ landings_why (moment_of scene.now) (group_fault (moment_of scene.now) landings.now) true first landings.now)) }
    ensures heard { OnOk result (HasHeard index.new scene.now.journal.now.entries) }
{
    push_none(out, landings)?;
    let fault = group_fault(scene, landings);
    let heard = push_landings(out, scene, index, &fault, first, landings)?;
    hear_all(index, scene.journal, heard)
}

/// Adds the reasons of a reply. An index has heard the entries before the event, so many, and hears those of the event.
fn push_replied(
    out: &mut Draft,
    scene: &Scene<'_>,
    index: &mut Index,
    first: usize,
    reply: &Reply,
) -> Result<(), AllocError>
    requires within { first ≤ length scene.now.journal.now.entries }
    requires heard { HasHeard index.old (take first scene.now.journal.now.entries) }
    requires marked { IsMarked scene.now.last.now.places.items scene.now.transactions.now }
    ensures shown { OnOk result (out.new ≡ out.old ++ behind_commas (whys (moment_of scene.now) first reply.now)) }
    ensures heard { OnOk result (HasHeard index.new scene.now.journal.now.entries) }
{
    match reply {
        Reply::Landed { landings, .. } => {
            push_committed(out, scene, index, first, landings.as_slice())
        }
        Reply::Late { landing, .. } => {
            let heard = hear_landing(index, scene.journal, first, landing.outcome)?;
            push_landed(out, scene, index, &None, true, heard, landing)?;
            hear_all(index, scene.journal, heard)
        }
        _ => {
            hear_all(index, scene.journal, first)?;
            push_plain(out, scene, index, reply)
        }
    }
}

/// Adds the reasons of what came of a command. An index has heard all entries.
#[inline(always)]
fn push_executed(
    out: &mut Draft,
    scene: &Scene<'_>,
    index: &Index,
    came: Result<Executed, Refusal>,
    last: LastEntry<'_>,
) -> Result<(), AllocError>
    requires heard { HasHeard index.now scene.now.journal.now.entries }
    requires marked { IsMarked scene.now.last.now.places.items scene.now.transactions.now }
    ensures { OnOk result (out.new ≡ out.old ++ behind_commas (plain_whys (moment_of scene.now) (reply_of came (entry_lent last.entry)))) }
{
    match came {
        Ok(Executed::Done) => Ok(()),
        Ok(Executed::Torn) => push_torn(out, scene),
        Err(refusal) => push_refused(out, scene, index, refusal),
    }
}

/// Adds the reasons of what came of an event, each behind a comma. An index has heard the entries before the event, so many,
/// and hears those of the event. It fails only if out of memory.
#[inline(always)]
pub(crate) fn push_whys(
    out: &mut Draft,
    scene: &Scene<'_>,
    index: &mut Index,
    first: usize,
    came: Came<'_>,
) -> Result<(), AllocError>
    requires within { first ≤ length scene.now.journal.now.entries }
    requires heard { HasHeard index.old (take first scene.now.journal.now.entries) }
    requires marked { IsMarked scene.now.last.now.places.items scene.now.transactions.now }
    ensures shown { OnOk result (out.new ≡ out.old ++ behind_commas (whys (moment_of scene.now) first (reply_in came.entry))) }
    ensures heard { OnOk result (HasHeard index.new scene.now.journal.now.entries) }
{
    match came {
        Came::Executed(came, last) => {
            hear_all(index, scene.journal, first)?;
            push_executed(out, scene, index, came, last)
        }
        Came::Refused(refusal) => {
            hear_all(index, scene.journal, first)?;
            push_refused(out, scene, index, refusal)
        }
        Came::Drained(drained) => {
            hear_all(index, scene.journal, first)?;
            push_drained(out, drained)
        }
        Came::Stamped { .. } | Came::Decided(..) => hear_all(index, scene.journal, first),
        Came::Landed(landings, _) => push_committed(out, scene, index, first, landings),
        Came::Replied(reply) => push_replied(out, scene, index, first, reply),
    }
}
