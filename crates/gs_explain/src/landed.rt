//! Why a transaction landed as it did.

ghost use Rattle.std.specs.Prelude.{◌≡◌, ◌≤◌, None, length, option_copied, take, true};
ghost use Rattle.gs_reasons.specs.Kept.{HasHeard};
ghost use Rattle.gs_reasons.specs.Group.{fault_of_group};
ghost use Rattle.gs_sentences.specs.Given.{landed_given};
ghost use Rattle.gs_explain.specs.Marked.{IsMarked};
ghost use Rattle.gs_explain.specs.Moment.{moment_of};
ghost use Rattle.gs_explain.specs.Landings.{group_fault, is_gone, is_grouped, is_of_group, landed, landed_place, leading, line_at, overflow_if, place_numbered, stamped_at, stamped_by, transaction_at};

use crate::cause::cause_at;
use crate::moment::Scene;
use crate::overflow::overflow_of;
use gs_core::{Event, Transaction};
use gs_kernel::Landing;
use gs_layout::Outcome;
use gs_reasons::{GroupFault, Index, fault_of_group};
use gs_sentences::{Landed, Overflow, Stamped};

/// Returns the place of the transaction of this number.
#[inline(always)]
fn place_numbered(number: u32) -> Option<usize>
    ensures { result ≡ place_numbered number }
{
    if number == 0 {
        return None;
    }
    Some(number as usize - 1)
}

/// Returns the place of the transaction that a landing is of.
#[inline(always)]
fn landed_place(scene: &Scene<'_>, landing: &Landing) -> Option<usize>
    requires { IsMarked scene.now.last.now.places.items scene.now.transactions.now }
    ensures { result ≡ landed_place scene.now.event.now scene.now.transactions.now landing.now }
{
    match scene.event {
        Event::Late { number } => place_numbered(*number),
        _ => scene.last.get(landing.cpu as usize),
    }
}

/// Returns the transaction at a place.
#[inline(always)]
fn transaction_at(transactions: &[Transaction], place: Option<usize>) -> Option<&Transaction>
    ensures { option_copied result ≡ transaction_at transactions.now place }
{
    transactions.get(place?)
}

/// Returns the line at a place, 0 if there is none.
#[inline(always)]
pub(crate) fn line_at(lines: &[usize], place: Option<usize>) -> usize
    ensures { result ≡ line_at lines.now place }
{
    match place {
        Some(place) => lines.get(place).copied().unwrap_or(0),
        None => 0,
    }
}

/// Returns what was stamped, and on which line.
#[inline(always)]
fn stamped_by(transaction: Option<&Transaction>, line: usize) -> Stamped
    ensures { result ≡ stamped_by (option_copied transaction.entry) line }
{
    match transaction {
        Some(transaction) => Stamped {
            generation: transaction.slot.generation,
            tseq: transaction.slot.tseq,
            line,
        },
        None => Stamped {
            generation: 0,
            tseq: 0,
            line,
        },
    }
}

/// Returns what was stamped at a place of the list of transactions.
#[inline(always)]
fn stamped_at(scene: &Scene<'_>, place: Option<usize>) -> Stamped
    ensures { result ≡ stamped_at (moment_of scene.now) place }
{
    let transaction = transaction_at(scene.transactions, place);
    stamped_by(transaction, line_at(&scene.noted.stamped, place))
}

/// Returns whether a transaction was stamped as one of a group.
fn is_of_group(transaction: Option<&Transaction>) -> bool
    ensures { result ≡ is_of_group (option_copied transaction.entry) }
{
    match transaction {
        Some(transaction) => transaction.slot.flags.group,
        None => false,
    }
}

/// Returns whether a landing is of a transaction that was stamped as one of a group.
fn is_grouped(scene: &Scene<'_>, landing: &Landing) -> bool
    requires { IsMarked scene.now.last.now.places.items scene.now.transactions.now }
    ensures { result ≡ is_grouped (moment_of scene.now) landing.now }
{
    let place = landed_place(scene, landing);
    is_of_group(transaction_at(scene.transactions, place))
}

/// Returns how many of the first landings are of a group.
fn group_len(scene: &Scene<'_>, landings: &[Landing]) -> usize
    requires { IsMarked scene.now.last.now.places.items scene.now.transactions.now }
    ensures within { result ≤ length landings.now }
    ensures value { take result landings.now ≡ leading (is_grouped (moment_of scene.now)) landings.now }
{
    let mut n = 0;
    while n < landings.len() && is_grouped(scene, &landings[n]) {
        n += 1;
    }
    n
}

/// Returns what failed the group of these landings, if there is one and it failed.
pub(crate) fn group_fault(scene: &Scene<'_>, landings: &[Landing]) -> Option<GroupFault>
    requires { IsMarked scene.now.last.now.places.items scene.now.transactions.now }
    ensures { result ≡ group_fault (moment_of scene.now) landings.now }
{
    let count = group_len(scene, landings);
    fault_of_group(&landings[..count])
}

/// Returns whether an outcome is that it went with the enclave.
pub(crate) fn is_gone(outcome: Outcome) -> bool
    ensures { result ≡ is_gone outcome }
{
    matches!(outcome, Outcome::Gone)
}

/// Returns what did not fit, if a landing tore the enclave down.
#[inline(always)]
fn overflow_if(torn: bool, scene: &Scene<'_>) -> Option<Overflow>
    ensures { result ≡ overflow_if torn (moment_of scene.now).overflow }
{
    if torn {
        Some(overflow_of(scene.event, scene.kernel))
    } else {
        None
    }
}

/// Returns why a transaction landed so. An index has heard the first entries, so many.
#[inline(always)]
pub(crate) fn landed<'a>(
    scene: &Scene<'a>,
    index: &Index,
    fault: &'a Option<GroupFault>,
    stood: bool,
    heard: usize,
    landing: &'a Landing,
) -> Landed<'a>
    requires heard { HasHeard index.now (take heard scene.now.journal.now.entries) }
    requires marked { IsMarked scene.now.last.now.places.items scene.now.transactions.now }
    ensures { landed_given result ≡ landed (moment_of scene.now) fault.now stood heard landing.now }
{
    let place = landed_place(scene, landing);
    Landed {
        landing,
        stamped: stamped_at(scene, place),
        cause: cause_at(scene, index.cause(landing)),
        overflow: overflow_if(stood && is_gone(landing.outcome), scene),
        fault,
        entries: heard,
        limit: scene.kernel.settings().history,
    }
}

/// Returns why a late landing came out so, by itself. An index has heard all entries. It is folded with all that it calls: where it is only
/// compared with what is kept, nothing of it is put into memory then.
#[inline(always)]
pub(crate) fn landed_late<'a>(scene: &Scene<'a>, index: &Index, landing: &'a Landing) -> Landed<'a>
    requires heard { HasHeard index.now scene.now.journal.now.entries }
    requires marked { IsMarked scene.now.last.now.places.items scene.now.transactions.now }
    ensures { landed_given result ≡ landed (moment_of scene.now) None true (length scene.now.journal.now.entries) landing.now }
{
    landed(scene, index, &None, true, scene.journal.len(), landing)
}
