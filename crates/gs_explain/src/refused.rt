//! Why an event was refused.

ghost use Rattle.std.specs.Prelude.{◌≡◌, ◌<◌, IfSome, length};
ghost use Rattle.gs_reasons.specs.Cause.{place_of};
ghost use Rattle.gs_reasons.specs.Kept.{HasHeard};
ghost use Rattle.gs_sentences.specs.Given.{causes_given, refused_given};
ghost use Rattle.gs_explain.specs.Moment.{cause_at, moment_of};
ghost use Rattle.gs_explain.specs.Marked.{IsMarked};
ghost use Rattle.gs_explain.specs.Refusals.{least_stamped, no_thread_sign, numbers, refusal_sign, spent_sign, waiting, waiting_by, waits, waits_on, why_refused};
ghost use Rattle.gs_sentences.specs.Subject.{cpu_of, tid_of};
ghost use Rattle.gs_slots.specs.Reading.{states_in};
ghost use Rattle.gs_slots.specs.State.{has_stamp};

use crate::cause::cause_at;
use crate::landed::line_at;
use crate::moment::Scene;
use gs_core::Event;
use gs_kernel::Command;
use gs_layout::Refusal;
use gs_reasons::{Index, Sign};
use gs_sentences::{Cause, Numbers, Refused, Waiting, cpu_of, tid_of};
use gs_slots::{Malformed, Region, SlotState};

/// Returns what the reason is a sign of why there is no such thread.
#[inline(always)]
fn no_thread_sign(event: &Event<()>, tid: u32) -> Option<Sign>
    requires { tid ≡ tid_of event.now }
    ensures { result ≡ no_thread_sign event.now }
{
    match event {
        Event::Stamp { .. } => None,
        _ => Some(Sign::Death { tid }),
    }
}

/// Returns what the reason is a sign of why sequence numbers are spent.
#[inline(always)]
fn spent_sign(event: &Event<()>, tid: u32, cpu: u16) -> Sign
    requires tid { tid ≡ tid_of event.now }
    requires cpu { cpu ≡ cpu_of event.now }
    ensures { result ≡ spent_sign event.now }
{
    match event {
        Event::Kernel {
            command: Command::Thread { .. },
        } => Sign::About { tid },
        _ => Sign::Seat { cpu },
    }
}

/// Returns what the reason of a refusal is a sign of, by the thread and the CPU that the event names, or `None` if no one entry is the
/// reason.
#[inline(always)]
pub(crate) fn sign_by(event: &Event<()>, tid: u32, cpu: u16, refusal: Refusal) -> Option<Sign>
    requires tid { tid ≡ tid_of event.now }
    requires cpu { cpu ≡ cpu_of event.now }
    ensures { result ≡ refusal_sign event.now refusal }
{
    match refusal {
        Refusal::NoThread => no_thread_sign(event, tid),
        Refusal::NotRunning => Some(Sign::Off { tid }),
        Refusal::NotBlocked => Some(Sign::Runs { tid }),
        Refusal::AgentThere | Refusal::NotActive | Refusal::StillAttached | Refusal::NotAttaching =>
            Some(Sign::Agent),
        Refusal::CpuTaken | Refusal::NotTaken => Some(Sign::Held { cpu }),
        Refusal::SeqSpent => Some(spent_sign(event, tid, cpu)),
        Refusal::GenSpent => Some(Sign::Generation),
        Refusal::TidsSpent => Some(Sign::Created),
        Refusal::Gone => Some(Sign::TornDown),
        Refusal::EmptyMask
        | Refusal::BadCpu
        | Refusal::HistoryFull
        | Refusal::SlotOpen
        | Refusal::NoSuchTransaction
        | Refusal::OutOfMemory => None,
    }
}

/// Returns the place of the last entry that says something of this, if it is asked for.
#[inline(always)]
fn place_of(index: &Index, scene: &Scene<'_>, sign: Option<Sign>) -> Option<usize>
    requires { HasHeard index.now scene.now.journal.now.entries }
    ensures { result ≡ place_of sign scene.now.journal.now.entries }
{
    match sign {
        Some(sign) => index.last(&sign),
        None => None,
    }
}

/// Returns the last entry that says something of this, if it is asked for and there is one.
#[inline(always)]
pub(crate) fn cause_of<'a>(
    scene: &Scene<'a>,
    index: &Index,
    sign: Option<Sign>,
) -> Option<Cause<'a>>
    requires { HasHeard index.now scene.now.journal.now.entries }
    ensures { causes_given result ≡ cause_at (moment_of scene.now) (place_of sign scene.now.journal.now.entries) }
{
    cause_at(scene, place_of(index, scene, sign))
}

/// Returns the transaction that waits in the slot of a CPU, by its place.
fn waits(scene: &Scene<'_>, cpu: u16, place: Option<usize>) -> Option<Waiting>
    requires { IfSome place (λ i. i < length scene.now.transactions.now) }
    ensures { result ≡ waits (moment_of scene.now) cpu place }
{
    match place {
        Some(i) => Some(Waiting {
            cpu,
            number: i + 1,
            line: line_at(&scene.noted.stamped, place),
        }),
        None => None,
    }
}

/// Returns whether a transaction waits in a slot of which this is read.
fn is_stamped(state: Result<SlotState, Malformed>) -> bool
    ensures { result ≡ has_stamp state }
{
    matches!(state, Ok(SlotState::Stamped { .. }))
}

/// Returns the least CPU in whose slot a transaction waits.
#[tactic(auto, using(crate::proofs::Stamps::stamped_here, crate::proofs::Stamps::stamped_later, crate::proofs::Stamps::stamped_nowhere))]
fn least_stamped(region: &Region) -> Option<u16>
    ensures { result ≡ least_stamped 0 (states_in 0 region.now) }
{
    let cpus = region.cpus();
    let mut cpu = 0;
    while cpu < cpus {
        let state = region.state(cpu);
        if is_stamped(state) {
            return Some(cpu);
        }
        cpu += 1;
    }
    None
}

/// Returns what waits in the slot of a CPU, if there is one.
#[tactic(auto, using(crate::proofs::Lasting::marked_within))]
fn waits_on(scene: &Scene<'_>, cpu: Option<u16>) -> Option<Waiting>
    requires { IsMarked scene.now.last.now.places.items scene.now.transactions.now }
    ensures { result ≡ waits_on (moment_of scene.now) cpu }
{
    match cpu {
        Some(cpu) => waits(scene, cpu, scene.last.get(cpu as usize)),
        None => None,
    }
}

/// Returns what waits in the slot that an event would stamp, or in the first slot for which an agent does not leave.
fn waiting_by(scene: &Scene<'_>, event: &Event<()>) -> Option<Waiting>
    requires { IsMarked scene.now.last.now.places.items scene.now.transactions.now }
    ensures { result ≡ waiting_by (moment_of scene.now) event.now }
{
    match event {
        Event::Stamp { cpu, .. } => waits_on(scene, Some(*cpu)),
        Event::Kernel {
            command: Command::Leave,
        } => waits_on(scene, least_stamped(scene.region)),
        _ => None,
    }
}

/// Returns what waits in the slot that was not idle, if that refused the event.
#[inline(always)]
pub(crate) fn waiting(scene: &Scene<'_>, refusal: Refusal) -> Option<Waiting>
    requires { IsMarked scene.now.last.now.places.items scene.now.transactions.now }
    ensures { result ≡ waiting (moment_of scene.now) refusal }
{
    match refusal {
        Refusal::SlotOpen => waiting_by(scene, scene.event),
        _ => None,
    }
}

/// Returns what stands in no entry.
#[inline(always)]
fn numbers(scene: &Scene<'_>, refusal: Refusal) -> Numbers
    requires { IsMarked scene.now.last.now.places.items scene.now.transactions.now }
    ensures { result ≡ numbers (moment_of scene.now) refusal }
{
    let settings = scene.kernel.settings();
    Numbers {
        cpus: settings.cpus,
        entries: scene.journal.len(),
        transactions: scene.transactions.len(),
        limit: settings.history,
        page: scene.noted.page,
        waiting: waiting(scene, refusal),
    }
}

/// Returns why an event was refused.
#[inline(always)]
pub(crate) fn why_refused<'a>(scene: &Scene<'a>, index: &Index, refusal: Refusal) -> Refused<'a>
    requires heard { HasHeard index.now scene.now.journal.now.entries }
    requires marked { IsMarked scene.now.last.now.places.items scene.now.transactions.now }
    ensures { refused_given result ≡ why_refused (moment_of scene.now) refusal }
{
    let event = scene.event;
    let sign = sign_by(event, tid_of(event), cpu_of(event), refusal);
    Refused {
        refusal,
        event,
        cause: cause_of(scene, index, sign),
        numbers: numbers(scene, refusal),
    }
}
