//! What is told of an event that was refused, in few bytes.

ghost use Rattle.std.specs.Prelude.{◌≡◌, IfSome, None};
ghost use Rattle.gs_layout.specs.declared.refusal.Refusal.TheVariants as refusals;
ghost use Rattle.gs_reasons.specs.Kept.{HasHeard};
ghost use Rattle.gs_sentences.specs.Given.{causes_given};
ghost use Rattle.gs_sentences.specs.Refused.{attaching_text, bad_mask_text, full_by, given_text, no_thread_text, off_text, page_text, refused_text, stamps, transactions_text, waiting_text};
ghost use Rattle.gs_sentences.specs.Shared.{agent_text};
ghost use Rattle.gs_explain.specs.Marked.{IsMarked};
ghost use Rattle.gs_explain.specs.Moment.{moment_of};
ghost use Rattle.gs_explain.specs.Refusals.{numbers, waiting, why_refused};
ghost use Rattle.gs_sentences.specs.Subject.{cpu_of, tid_of};
ghost use Rattle.gs_sentences.specs.Tails.{IsTail, at, left_at, tail_refusal};
ghost use Rattle.gs_explain.specs.Tailed.{at_of};

use crate::moment::Scene;
use crate::refused::{cause_of, sign_by, waiting};
use gs_core::Event;
use gs_journal::Entry;
use gs_kernel::Command;
use gs_layout::Refusal;
use gs_reasons::Index;
use gs_sentences::{Cause, Tail, Waiting, cpu_of, mask_of, tid_of};
use gs_status::Mask;

/// Returns the line and the place of an entry that is a reason, if they are small.
#[inline(always)]
fn where_of(cause: &Cause<'_>) -> Option<(u32, u32)>
    ensures line { IfSome result (λ p. p.0 ≡ cause.now.line) }
    ensures place { IfSome result (λ p. p.1 ≡ cause.now.place) }
{
    match (u32::try_from(cause.line), u32::try_from(cause.place)) {
        (Ok(line), Ok(place)) => Some((line, place)),
        _ => None,
    }
}

/// Returns what is told of a thread that is no more, or never was.
#[inline(always)]
fn no_thread(event: &Event<()>, tid: u32, at: Option<(u32, u32)>) -> Tail
    requires { tid ≡ tid_of event.now }
    ensures told { IsTail result refusals.NoThread (no_thread_text event.now (left_at at)) }
    ensures refusal { tail_refusal result ≡ refusals.NoThread }
{
    if matches!(event, Event::Stamp { .. }) {
        return Tail::Unknown { tid };
    }
    match at {
        Some((line, place)) => Tail::Dead { tid, line, place },
        None => Tail::NoThread { tid },
    }
}

/// Returns what is told of a thread that is on no CPU.
#[inline(always)]
fn off(tid: u32, at: Option<(u32, u32)>) -> Tail
    ensures told { IsTail result refusals.NotRunning (off_text tid (left_at at)) }
    ensures refusal { tail_refusal result ≡ refusals.NotRunning }
{
    match at {
        Some((line, place)) => Tail::Off { tid, line, place },
        None => Tail::NeverPlaced { tid },
    }
}

/// Returns what is told of a wrong mask.
#[inline(always)]
fn bad_mask(mask: Mask, cpus: u16) -> Option<Tail>
    ensures told { IfSome result (λ t. IsTail t refusals.EmptyMask (bad_mask_text mask cpus)) }
    ensures refusal { IfSome result (λ t. tail_refusal t ≡ refusals.EmptyMask) }
{
    let mask = u64::try_from(mask.bits()).ok()?;
    Some(Tail::BadMask { cpus, mask })
}

/// Returns what is told of the agent that there is, by an entry that says so.
#[inline(always)]
fn agent_by(refusal: Refusal, entry: &Entry, line: u32, place: u32) -> Option<Tail>
    ensures told { IfSome result (λ t. IsTail t refusal (agent_text (at line place entry.now))) }
    ensures refusal { IfSome result (λ t. tail_refusal t ≡ refusal) }
{
    match entry {
        Entry::Role { generation, cpu } => Some(Tail::Active {
            refusal,
            cpu: *cpu,
            generation: *generation,
            line,
            place,
        }),
        Entry::Begin { generation } => Some(Tail::Attaches {
            refusal,
            generation: *generation,
            line,
            place,
        }),
        Entry::Left => Some(Tail::Left {
            refusal,
            line,
            place,
        }),
        _ => None,
    }
}

/// Returns what is told of the agent that there is.
#[inline(never)]
fn agent(refusal: Refusal, cause: Option<Cause<'_>>) -> Option<Tail>
    ensures told { IfSome result (λ t. IsTail t refusal (agent_text (causes_given cause.entry))) }
    ensures refusal { IfSome result (λ t. tail_refusal t ≡ refusal) }
{
    let cause = cause?;
    let (line, place) = where_of(&cause)?;
    agent_by(refusal, &cause.entry(), line, place)
}

/// Returns what is told of the last page of an agent that attaches.
#[inline(always)]
fn last_page(generation: u32, page: Option<usize>) -> Option<Tail>
    ensures told { IfSome result (λ t. IsTail t refusals.NotAttaching (page_text generation page)) }
    ensures refusal { IfSome result (λ t. tail_refusal t ≡ refusals.NotAttaching) }
{
    match page {
        Some(line) => Some(Tail::Page {
            generation,
            line: u32::try_from(line).ok()?,
        }),
        None => Some(Tail::NoPage { generation }),
    }
}

/// Returns what is told if no agent attaches at this point.
#[inline(never)]
fn attaching(cause: Option<Cause<'_>>, page: Option<usize>) -> Option<Tail>
    ensures told { IfSome result (λ t. IsTail t refusals.NotAttaching (attaching_text (causes_given cause.entry) page)) }
    ensures refusal { IfSome result (λ t. tail_refusal t ≡ refusals.NotAttaching) }
{
    let cause = cause?;
    let (line, place) = where_of(&cause)?;
    match cause.entry() {
        Entry::Begin { generation } => last_page(generation, page),
        entry => agent_by(Refusal::NotAttaching, &entry, line, place),
    }
}

/// Returns what is told of a CPU that the other class does not hold.
#[inline(always)]
fn given(cpu: u16, at: Option<(u32, u32)>) -> Tail
    ensures told { IsTail result refusals.NotTaken (given_text cpu (left_at at)) }
    ensures refusal { tail_refusal result ≡ refusals.NotTaken }
{
    match at {
        Some((line, place)) => Tail::Given { cpu, line, place },
        None => Tail::NeverTaken { cpu },
    }
}

/// Returns what is told by an entry that is the reason of a refusal, if that tells of no more than the thread or the CPU that is named.
#[inline(always)]
fn by_entry(
    scene: &Scene<'_>,
    tid: u32,
    cpu: u16,
    refusal: Refusal,
    cause: &Option<Cause<'_>>,
) -> Option<Tail>
    requires tid { tid ≡ tid_of scene.now.event.now }
    requires cpu { cpu ≡ cpu_of scene.now.event.now }
    ensures told { IfSome result (λ t. IsTail t refusal (refused_text (record { refusal = refusal; event = scene.now.event.now; cause = causes_given cause.now; numbers = numbers (moment_of scene.now) refusal }))) }
    ensures refusal { IfSome result (λ t. tail_refusal t ≡ refusal) }
{
    let Some(cause) = cause else {
        return None;
    };
    let (line, place) = where_of(cause)?;
    match refusal {
        Refusal::NotBlocked => Some(Tail::Runs { tid, line, place }),
        Refusal::CpuTaken => Some(Tail::Held { cpu, line, place }),
        Refusal::SeqSpent => match scene.event {
            Event::Kernel {
                command: Command::Thread { .. },
            } => Some(Tail::Spent { tid, line, place }),
            _ => None,
        },
        Refusal::GenSpent => Some(Tail::Generations { line, place }),
        Refusal::TidsSpent => Some(Tail::Tids { line, place }),
        Refusal::Gone => Some(Tail::Gone { line, place }),
        _ => None,
    }
}

/// Returns whether an event stamps.
#[inline(always)]
fn stamps(event: &Event<()>) -> bool
    ensures { result ≡ stamps event.now }
{
    matches!(event, Event::Stamp { .. } | Event::Decide)
}

/// Returns what is told of a list that is full, of entries or of transactions.
#[inline(always)]
fn full(scene: &Scene<'_>) -> Option<Tail>
    ensures told { IfSome result (λ t. IsTail t refusals.HistoryFull (full_by (stamps scene.now.event.now) (numbers (moment_of scene.now) refusals.HistoryFull))) }
    ensures refusal { IfSome result (λ t. tail_refusal t ≡ refusals.HistoryFull) }
{
    let limit = scene.kernel.settings().history;
    if stamps(scene.event) {
        let count = u32::try_from(scene.transactions.len()).ok()?;
        Some(Tail::Transactions { count, limit })
    } else {
        let count = u32::try_from(scene.journal.len()).ok()?;
        Some(Tail::Entries { count, limit })
    }
}

/// Returns what is told of a transaction that there is not, by how many there are.
#[inline(always)]
fn numbered(transactions: usize) -> Option<Tail>
    ensures told { IfSome result (λ t. IsTail t refusals.NoSuchTransaction (transactions_text transactions)) }
    ensures refusal { IfSome result (λ t. tail_refusal t ≡ refusals.NoSuchTransaction) }
{
    Some(Tail::Numbered {
        count: u32::try_from(transactions).ok()?,
    })
}

/// Returns what is told of a slot that is not idle.
#[inline(always)]
fn waits(waiting: &Option<Waiting>) -> Option<Tail>
    ensures told { IfSome result (λ t. IsTail t refusals.SlotOpen (waiting_text waiting.now)) }
    ensures refusal { IfSome result (λ t. tail_refusal t ≡ refusals.SlotOpen) }
{
    let Some(waiting) = waiting else {
        return None;
    };
    Some(Tail::Waits {
        cpu: waiting.cpu,
        number: u32::try_from(waiting.number).ok()?,
        line: u32::try_from(waiting.line).ok()?,
    })
}

/// Returns what is told of a slot that is not idle.
#[inline(never)]
fn slot_open(scene: &Scene<'_>) -> Option<Tail>
    requires { IsMarked scene.now.last.now.places.items scene.now.transactions.now }
    ensures told { IfSome result (λ t. IsTail t refusals.SlotOpen (waiting_text (waiting (moment_of scene.now) refusals.SlotOpen))) }
    ensures refusal { IfSome result (λ t. tail_refusal t ≡ refusals.SlotOpen) }
{
    waits(&waiting(scene, Refusal::SlotOpen))
}

/// Returns what is told of an event that was refused for a number: of entries or transactions, or that of a transaction that waits.
#[inline(never)]
fn by_numbers(scene: &Scene<'_>, refusal: Refusal) -> Option<Tail>
    requires { IsMarked scene.now.last.now.places.items scene.now.transactions.now }
    ensures told { IfSome result (λ t. IsTail t refusal (refused_text (record { refusal = refusal; event = scene.now.event.now; cause = None; numbers = numbers (moment_of scene.now) refusal }))) }
    ensures refusal { IfSome result (λ t. tail_refusal t ≡ refusal) }
{
    match refusal {
        Refusal::HistoryFull => full(scene),
        Refusal::SlotOpen => slot_open(scene),
        Refusal::NoSuchTransaction => numbered(scene.transactions.len()),
        _ => None,
    }
}

/// Returns what is told of an event that was refused, and the line and the place of the entry that is the reason, if one is. It is
/// `None` if that does not fit. An index has heard all entries.
#[inline(always)]
pub(crate) fn tail_of(
    scene: &Scene<'_>,
    index: &Index,
    refusal: Refusal,
) -> Option<(Tail, Option<(u32, u32)>)>
    requires heard { HasHeard index.now scene.now.journal.now.entries }
    requires marked { IsMarked scene.now.last.now.places.items scene.now.transactions.now }
    ensures told { IfSome result (λ p. IsTail p.0 refusal (refused_text (why_refused (moment_of scene.now) refusal))) }
    ensures refusal { IfSome result (λ p. tail_refusal p.0 ≡ refusal) }
    ensures at { IfSome result (λ p. p.1 ≡ at_of (why_refused (moment_of scene.now) refusal).cause) }
{
    let event = scene.event;
    let tid = tid_of(event);
    let cpu = cpu_of(event);
    let cause = cause_of(scene, index, sign_by(event, tid, cpu, refusal));
    let at = match &cause {
        Some(cause) => Some(where_of(cause)?),
        None => None,
    };
    match refusal {
        Refusal::NoThread => Some((no_thread(event, tid, at), at)),
        Refusal::NotRunning => Some((off(tid, at), at)),
        Refusal::EmptyMask => {
            let cpus = scene.kernel.settings().cpus;
            Some((bad_mask(mask_of(event), cpus)?, at))
        }
        Refusal::BadCpu => {
            let cpus = scene.kernel.settings().cpus;
            Some((Tail::BadCpu { cpu, cpus }, at))
        }
        Refusal::AgentThere | Refusal::NotActive | Refusal::StillAttached => {
            Some((agent(refusal, cause)?, at))
        }
        Refusal::NotTaken => Some((given(cpu, at), at)),
        Refusal::NotAttaching => Some((attaching(cause, scene.noted.page)?, at)),
        Refusal::HistoryFull | Refusal::SlotOpen | Refusal::NoSuchTransaction => {
            let event = *scene.event;
            let copy = Scene {
                event: &event,
                ..*scene
            };
            Some((by_numbers(&copy, refusal)?, at))
        }
        Refusal::OutOfMemory => None,
        _ => Some((by_entry(scene, tid, cpu, refusal, &cause)?, at)),
    }
}

/// Returns which refusal is told.
pub(crate) fn refusal_in(tail: &Tail) -> Refusal
    ensures { result ≡ tail_refusal tail.now }
{
    match tail {
        Tail::Part { .. } => Refusal::OutOfMemory,
        Tail::NoThread { .. } | Tail::Dead { .. } | Tail::Unknown { .. } => Refusal::NoThread,
        Tail::NeverPlaced { .. } | Tail::Off { .. } => Refusal::NotRunning,
        Tail::Runs { .. } => Refusal::NotBlocked,
        Tail::BadMask { .. } => Refusal::EmptyMask,
        Tail::BadCpu { .. } => Refusal::BadCpu,
        Tail::Active { refusal, .. }
        | Tail::Attaches { refusal, .. }
        | Tail::Left { refusal, .. } => *refusal,
        Tail::NoPage { .. } | Tail::Page { .. } => Refusal::NotAttaching,
        Tail::Held { .. } => Refusal::CpuTaken,
        Tail::NeverTaken { .. } | Tail::Given { .. } => Refusal::NotTaken,
        Tail::Spent { .. } => Refusal::SeqSpent,
        Tail::Generations { .. } => Refusal::GenSpent,
        Tail::Tids { .. } => Refusal::TidsSpent,
        Tail::Entries { .. } | Tail::Transactions { .. } => Refusal::HistoryFull,
        Tail::Waits { .. } => Refusal::SlotOpen,
        Tail::Numbered { .. } => Refusal::NoSuchTransaction,
        Tail::Gone { .. } => Refusal::Gone,
    }
}
