//! What is told once, for all events that tell the same.

ghost use Rattle.std.specs.Prelude.{◌≡◌, [], None, IfOk, OnOk, length, true};
ghost use Rattle.std.specs.List.{All};
ghost use Rattle.gs_reasons.specs.Kept.{HasHeard};
ghost use Rattle.gs_explain.specs.Landings.{landed};
ghost use Rattle.gs_explain.specs.Marked.{IsMarked};
ghost use Rattle.gs_explain.specs.Moment.{moment_of};
ghost use Rattle.gs_explain.specs.Outlined.{AreOutlined, Grows, Tells, TellsLate, TellsNothing, late_object, outlines_text};
ghost use Rattle.gs_explain.specs.Quiet.{quiet_object};
ghost use Rattle.gs_explain.specs.ToldAgain.{is_kept_out, late_told};

use crate::content::late_told;
use crate::draft::Draft;
use crate::kept::{Kept, Late, kept_for, settle};
use crate::landed::landed_late;
use crate::moment::Scene;
use crate::outline::{Told, told_nothing};
use crate::outlines::Outlines;
use crate::quiet::Quiet;
use crate::slots::Slot;
use crate::whys::push_quiet;
use gs_kernel::Landing;
use gs_reasons::Index;
use gs_sentences::Reason;
use std::alloc::AllocError;

/// Takes away the events, and what is kept: for when memory ran out, and what the text has is not known.
#[cold]
#[inline(never)]
pub(crate) fn forget(outlines: &mut Outlines<'_>, nothing: &mut Option<Told>, kepts: &mut Vec<Kept>)
    ensures outlines { outlines.new ≡ [] }
    ensures nothing { nothing.new ≡ None }
    ensures kepts { kepts.new.items ≡ [] }
{
    outlines.clear();
    *nothing = None;
    kepts.clear();
}

/// Returns what is told of a commit that stamped nothing, and adds that first if there was none before. If that failed, what the text
/// has is not known, and nothing is kept.
#[inline(always)]
pub(crate) fn tell_nothing(
    draft: &mut Draft,
    outlines: &mut Outlines<'_>,
    nothing: &mut Option<Told>,
    kepts: &mut Vec<Kept>,
) -> Result<Told, AllocError>
    requires outlined { AreOutlined draft.old outlines.old nothing.old kepts.old.items }
    ensures same { OnOk result (outlines_text draft.new outlines.new ≡ outlines_text draft.old outlines.old) }
    ensures told { IfOk result (λ told. TellsNothing draft.new told) }
    ensures outlined { AreOutlined draft.new outlines.new nothing.new kepts.new.items }
{
    if let Some(told) = *nothing {
        return Ok(told);
    }
    match told_nothing(draft) {
        Ok(told) => {
            *nothing = Some(told);
            Ok(told)
        }
        Err(error) => {
            forget(outlines, nothing, kepts);
            Err(error)
        }
    }
}

/// Adds the lines and the reasons of what came of an event that added no entry, and returns what is told. It fails only if out of memory.
#[inline(always)]
fn told_quiet(draft: &mut Draft, quiet: &Quiet) -> Result<Told, AllocError>
    ensures grown { OnOk result (Grows draft.old draft.new) }
    ensures told { IfOk result (λ told. Tells draft.new (quiet_object quiet.now) told) }
{
    let from = draft.len();
    draft.reply(quiet.came())?;
    let mid = draft.len();
    push_quiet(draft, quiet)?;
    let to = draft.len();
    Told::parts(0, from, mid, to)
}

/// Adds what came of an event that added no entry, and returns what is told. If that failed, what the text has is not known, and nothing
/// is kept.
#[inline(always)]
pub(crate) fn tell_quiet(
    draft: &mut Draft,
    outlines: &mut Outlines<'_>,
    nothing: &mut Option<Told>,
    kepts: &mut Vec<Kept>,
    quiet: &Quiet,
) -> Result<Told, AllocError>
    requires outlined { AreOutlined draft.old outlines.old nothing.old kepts.old.items }
    ensures same { OnOk result (outlines_text draft.new outlines.new ≡ outlines_text draft.old outlines.old) }
    ensures told { IfOk result (λ told. Tells draft.new (quiet_object quiet.now) told) }
    ensures outlined { AreOutlined draft.new outlines.new nothing.new kepts.new.items }
{
    match told_quiet(draft, quiet) {
        Ok(told) => Ok(told),
        Err(error) => {
            forget(outlines, nothing, kepts);
            Err(error)
        }
    }
}

/// Adds the line and the reason of a late landing that was not placed and tore nothing down, and returns what is told. Keeps them for the
/// lines that have a mark. An index has heard all entries. It fails only if out of memory.
#[inline(never)]
#[tactic(auto, using(crate::proofs::Keeping::none_overflowed))]
fn tell_anew(
    draft: &mut Draft,
    kepts: &mut Vec<Kept>,
    slots: &mut [Slot],
    mark: u32,
    scene: &Scene<'_>,
    index: &Index,
    number: u32,
    landing: &Landing,
) -> Result<Told, AllocError>
    requires out { is_kept_out landing.now.outcome ≡ true }
    requires heard { HasHeard index.now scene.now.journal.now.entries }
    requires marked { IsMarked scene.now.last.now.places.items scene.now.transactions.now }
    requires kept { All (TellsLate draft.old) kepts.old.items }
    ensures grown { OnOk result (Grows draft.old draft.new) }
    ensures kept { OnOk result (All (TellsLate draft.new) kepts.new.items) }
    ensures told { IfOk result (λ told. Tells draft.new (late_object (late_told number (landed (moment_of scene.now) None true (length scene.now.journal.now.entries) landing.now))) told) }
{
    let landed = landed_late(scene, index, landing);
    let from = draft.len();
    draft.late(number, landed.landing)?;
    let mid = draft.len();
    draft.reason(&Reason::Landed(landed))?;
    let to = draft.len();
    let kept = Kept {
        told: late_told(number, &landed),
        from,
        mid,
        to,
    };
    settle(kepts, slots, mark, &kept)?;
    Told::parts(0, from, mid, to)
}

/// Returns what is told of a late landing that was not placed and tore nothing down, of a line that has a mark. Adds that first if the same
/// is not kept. An index has heard all entries. If that failed, what the text has is not known, and nothing is kept.
#[inline(always)]
pub(crate) fn tell_again(
    draft: &mut Draft,
    outlines: &mut Outlines<'_>,
    nothing: &mut Option<Told>,
    kepts: &mut Vec<Kept>,
    slots: &mut [Slot],
    scene: &Scene<'_>,
    index: &Index,
    late: &Late<'_>,
) -> Result<Told, AllocError>
    requires out { is_kept_out late.now.landing.now.outcome ≡ true }
    requires heard { HasHeard index.now scene.now.journal.now.entries }
    requires marked { IsMarked scene.now.last.now.places.items scene.now.transactions.now }
    requires outlined { AreOutlined draft.old outlines.old nothing.old kepts.old.items }
    ensures same { OnOk result (outlines_text draft.new outlines.new ≡ outlines_text draft.old outlines.old) }
    ensures told { IfOk result (λ told. Tells draft.new (late_object (late_told late.now.number (landed (moment_of scene.now) None true (length scene.now.journal.now.entries) late.now.landing.now))) told) }
    ensures outlined { AreOutlined draft.new outlines.new nothing.new kepts.new.items }
{
    let Late {
        mark,
        number,
        landing,
    } = *late;
    if let Some(kept) = kept_for(kepts, slots, mark, scene, index, number, landing) {
        return Told::parts(0, kept.from, kept.mid, kept.to);
    }
    match tell_anew(draft, kepts, slots, mark, scene, index, number, landing) {
        Ok(told) => Ok(told),
        Err(error) => {
            forget(outlines, nothing, kepts);
            Err(error)
        }
    }
}
