//! When entries and landings are the same, field by field.

ghost use Rattle.std.specs.Prelude.{◌≡◌, ◌↔◌, IsTrue};

use gs_journal::Entry;
use gs_kernel::Landing;
use gs_layout::{Change, Facts, Message};

/// Returns whether these are the same facts of a thread.
#[inline(never)]
fn same_facts(one: &Facts, other: &Facts) -> bool
    ensures { IsTrue result ↔ (one.now ≡ other.now) }
{
    one.mask.bits() == other.mask.bits()
        && one.runnable == other.runnable
        && one.class == other.class
        && one.name.as_bytes() == other.name.as_bytes()
}

/// Returns whether messages say the same of a thread.
#[inline(always)]
fn same_change(one: &Change, other: &Change) -> bool
    ensures { IsTrue result ↔ (one.now ≡ other.now) }
{
    match (one, other) {
        (Change::Created { facts }, Change::Created { facts: f }) => {
            // (a copy, so that the rest of the other entry need not stand in memory)
            let other = *f;
            same_facts(facts, &other)
        }
        (Change::Blocked { cpu }, Change::Blocked { cpu: c }) => cpu == c,
        (Change::Wakeup, Change::Wakeup) => true,
        (Change::Preempted { cpu }, Change::Preempted { cpu: c }) => cpu == c,
        (Change::Yield { cpu }, Change::Yield { cpu: c }) => cpu == c,
        (Change::Dead { cpu }, Change::Dead { cpu: c }) => cpu == c,
        (
            Change::Affinity { cpu, off, mask },
            Change::Affinity {
                cpu: c,
                off: o,
                mask: m,
            },
        ) => cpu == c && off == o && mask.bits() == m.bits(),
        _ => false,
    }
}

/// Returns whether these are the same messages.
#[inline(always)]
fn same_message(one: &Message, other: &Message) -> bool
    ensures { IsTrue result ↔ (one.now ≡ other.now) }
{
    match (one, other) {
        (
            Message::Thread { tid, tseq, change },
            Message::Thread {
                tid: t,
                tseq: n,
                change: c,
            },
        ) => tid == t && tseq == n && same_change(change, c),
        (Message::TimerTick { cpu }, Message::TimerTick { cpu: c }) => cpu == c,
        _ => false,
    }
}

/// Returns whether these are the same entries of a journal. It is folded where it is called. The comparison that [`Entry`] derives is a call,
/// and both entries stand in memory for it.
#[inline(always)]
pub(crate) fn same_entry(one: &Entry, other: &Entry) -> bool
    ensures { IsTrue result ↔ (one.now ≡ other.now) }
{
    match (one, other) {
        (Entry::Posted { message }, Entry::Posted { message: m }) => same_message(message, m),
        (
            Entry::Placed {
                tid,
                tseq,
                cpu,
                generation,
            },
            Entry::Placed {
                tid: t,
                tseq: n,
                cpu: c,
                generation: g,
            },
        ) => tid == t && tseq == n && cpu == c && generation == g,
        (
            Entry::Role { generation, cpu },
            Entry::Role {
                generation: g,
                cpu: c,
            },
        ) => generation == g && cpu == c,
        (Entry::Begin { generation }, Entry::Begin { generation: g }) => generation == g,
        (Entry::Left, Entry::Left) => true,
        (Entry::Taken { cpu }, Entry::Taken { cpu: c }) => cpu == c,
        (Entry::Given { cpu }, Entry::Given { cpu: c }) => cpu == c,
        (Entry::Torn, Entry::Torn) => true,
        _ => false,
    }
}

/// Returns whether the same became of two slots.
#[inline(always)]
pub(crate) fn same_landing(one: &Landing, other: &Landing) -> bool
    ensures { IsTrue result ↔ (one.now ≡ other.now) }
{
    one.cpu == other.cpu
        && one.tid == other.tid
        && one.outcome == other.outcome
        && one.seen == other.seen
        && one.at == other.at
}
