//! The lines of landings, each with its reason.

ghost use Rattle.std.specs.Prelude.{◌≡◌, ◌≤◌, ◌++◌, None, IfOk, OnOk, length, take, true};
ghost use Rattle.gs_lines.specs.Lines.{landing_text, line};
ghost use Rattle.gs_reasons.specs.Kept.{HasHeard};
ghost use Rattle.gs_explain.specs.Marked.{IsMarked};
ghost use Rattle.gs_explain.specs.Moment.{moment_of};
ghost use Rattle.gs_explain.specs.Rows.{late_shown};
ghost use Rattle.gs_explain.specs.Landings.{after_landing, because, landings_shown, why_landed};

use crate::hearing::hear_landing;
use crate::landed::{is_gone, landed};
use crate::moment::Scene;
use crate::page::Page;
use gs_kernel::Landing;
use gs_layout::Outcome;
use gs_reasons::{GroupFault, Index};
use std::alloc::AllocError;

/// Adds why a transaction was not placed, if it was not. An index has heard the first entries, so many.
fn write_why(
    out: &mut Page,
    scene: &Scene<'_>,
    index: &Index,
    fault: &Option<GroupFault>,
    stood: bool,
    heard: usize,
    landing: &Landing,
) -> Result<(), AllocError>
    requires heard { HasHeard index.now (take heard scene.now.journal.now.entries) }
    requires marked { IsMarked scene.now.last.now.places.items scene.now.transactions.now }
    ensures { OnOk result (out.new ≡ out.old ++ because (why_landed (moment_of scene.now) fault.now stood heard landing.now)) }
{
    if matches!(landing.outcome, Outcome::Placed) {
        return Ok(());
    }
    out.landed(&landed(scene, index, fault, stood, heard, landing))
}

/// Adds a landing, and its reason if it was not placed. An index has heard all that there is then.
fn write_landed(
    out: &mut Page,
    scene: &Scene<'_>,
    index: &Index,
    fault: &Option<GroupFault>,
    stood: bool,
    heard: usize,
    landing: &Landing,
) -> Result<(), AllocError>
    requires heard { HasHeard index.now (take heard scene.now.journal.now.entries) }
    requires marked { IsMarked scene.now.last.now.places.items scene.now.transactions.now }
    ensures { OnOk result (out.new ≡ out.old ++ line (landing_text landing.now) ++ because (why_landed (moment_of scene.now) fault.now stood heard landing.now)) }
{
    out.landing(landing)?;
    write_why(out, scene, index, fault, stood, heard, landing)
}

/// Adds landings, each with its reason if it was not placed, and returns how many entries the index has heard then.
pub(crate) fn write_landings(
    out: &mut Page,
    scene: &Scene<'_>,
    index: &mut Index,
    fault: &Option<GroupFault>,
    heard: usize,
    landings: &[Landing],
) -> Result<usize, AllocError>
    requires within { heard ≤ length scene.now.journal.now.entries }
    requires heard { HasHeard index.old (take heard scene.now.journal.now.entries) }
    requires marked { IsMarked scene.now.last.now.places.items scene.now.transactions.now }
    ensures shown { OnOk result (out.new ≡ out.old ++ landings_shown (moment_of scene.now) fault.now true heard landings.now) }
    ensures within { IfOk result (λ n. n ≤ length scene.now.journal.now.entries) }
    ensures heard { IfOk result (λ n. HasHeard index.new (take n scene.now.journal.now.entries)) }
{
    let mut n = heard;
    let mut stood = true;
    let mut rest = landings;
    'landings: while let Some((landing, behind)) = rest.split_first() {
        n = hear_landing(index, scene.journal, n, landing.outcome)?;
        write_landed(out, scene, index, fault, stood, n, landing)?;
        stood = stood && !is_gone(landing.outcome);
        rest = behind;
    }
    Ok(n)
}

/// Adds a late landing, and its reason if it was not placed, and returns how many entries the index has heard then.
pub(crate) fn write_late_landing(
    out: &mut Page,
    scene: &Scene<'_>,
    index: &mut Index,
    heard: usize,
    number: u32,
    landing: &Landing,
) -> Result<usize, AllocError>
    requires within { heard ≤ length scene.now.journal.now.entries }
    requires heard { HasHeard index.old (take heard scene.now.journal.now.entries) }
    requires marked { IsMarked scene.now.last.now.places.items scene.now.transactions.now }
    ensures shown { OnOk result (out.new ≡ out.old ++ late_shown (moment_of scene.now) heard number landing.now) }
    ensures within { IfOk result (λ n. n ≤ length scene.now.journal.now.entries) }
    ensures heard { IfOk result (λ n. HasHeard index.new (take n scene.now.journal.now.entries)) }
{
    let n = hear_landing(index, scene.journal, heard, landing.outcome)?;
    out.late(number, landing)?;
    write_why(out, scene, index, &None, true, n, landing)?;
    Ok(n)
}
