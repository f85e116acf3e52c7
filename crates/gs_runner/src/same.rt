//! When replies are the same, field by field.

ghost use Rattle.std.specs.Prelude.{◌≡◌, ◌↔◌, IsTrue, true};
ghost use Rattle.gs_runner.specs.Holds.{is_command_reply};

use gs_journal::Entry;
use gs_kernel::Landing;
use gs_layout::{Change, Facts, Message};
use gs_replies::Reply;

/// Returns whether these are the same facts of a thread.
pub(crate) fn same_facts(one: &Facts, other: &Facts) -> bool
    ensures { IsTrue result ↔ (one.now ≡ other.now) }
{
    one.mask.bits() == other.mask.bits()
        && one.runnable == other.runnable
        && one.class == other.class
        && one.name.as_bytes() == other.name.as_bytes()
}

/// Returns whether messages say the same of a thread.
fn same_change(one: &Change, other: &Change) -> bool
    ensures { IsTrue result ↔ (one.now ≡ other.now) }
{
    match (one, other) {
        (Change::Created { facts }, Change::Created { facts: f }) => same_facts(facts, f),
        (Change::Blocked { cpu }, Change::Blocked { cpu: c }) => cpu == c,
        (Change::Wakeup, Change::Wakeup) => true,
        (Change::Preempted { cpu }, Change::Preempted { cpu: c }) => cpu == c,
        (Change::Yield { cpu }, Change::Yield { cpu: c }) => cpu == c,
        (Change::Dead { cpu }, Change::Dead { cpu: c }) => cpu == c,
        (
            Change::Affinity { cpu, off, mask },
            Change::Affinity {
                cpu: c,
                off: o,
                mask: m,
            },
        ) => cpu == c && off == o && mask.bits() == m.bits(),
        _ => false,
    }
}

/// Returns whether these are the same messages.
fn same_message(one: &Message, other: &Message) -> bool
    ensures { IsTrue result ↔ (one.now ≡ other.now) }
{
    match (one, other) {
        (
            Message::Thread { tid, tseq, change },
            Message::Thread {
                tid: t,
                tseq: n,
                change: c,
            },
        ) => tid == t && tseq == n && same_change(change, c),
        (Message::TimerTick { cpu }, Message::TimerTick { cpu: c }) => cpu == c,
        _ => false,
    }
}

/// Returns whether these are the same entries of a journal.
pub(crate) fn same_entry(one: &Entry, other: &Entry) -> bool
    ensures { IsTrue result ↔ (one.now ≡ other.now) }
{
    match (one, other) {
        (Entry::Posted { message }, Entry::Posted { message: m }) => same_message(message, m),
        (Entry::Posted { .. }, _) => false,
        (_, Entry::Posted { .. }) => false,
        _ => one == other,
    }
}

/// Returns whether the same became of two slots.
fn same_landing(one: &Landing, other: &Landing) -> bool
    ensures { IsTrue result ↔ (one.now ≡ other.now) }
{
    one.cpu == other.cpu
        && one.tid == other.tid
        && one.outcome == other.outcome
        && one.seen == other.seen
        && one.at == other.at
}

/// Returns whether the same became of as many slots, in order.
fn same_landings(one: &[Landing], other: &[Landing]) -> bool
    ensures { IsTrue result ↔ (one.now ≡ other.now) }
{
    let Some((first, rest)) = one.split_first() else {
        return other.is_empty();
    };
    let Some((its, others)) = other.split_first() else {
        return false;
    };
    same_landing(first, its) && same_landings(rest, others)
}

/// Returns whether these are the same replies. The first is one that a command has.
pub(crate) fn same_reply(one: &Reply, other: &Reply) -> bool
    requires { is_command_reply one.now ≡ true }
    ensures { IsTrue result ↔ (one.now ≡ other.now) }
{
    match (one, other) {
        (Reply::Refused(refusal), Reply::Refused(r)) => refusal == r,
        (Reply::Torn, Reply::Torn) => true,
        (Reply::Done(entry), Reply::Done(e)) => same_entry(entry, e),
        (Reply::Crashed, Reply::Crashed) => true,
        (
            Reply::Page { count, next, bytes },
            Reply::Page {
                count: c,
                next: n,
                bytes: b,
            },
        ) => count == c && next == n && bytes.as_slice() == b.as_slice(),
        (
            Reply::Landed { landings, torn },
            Reply::Landed {
                landings: l,
                torn: t,
            },
        ) => torn == t && same_landings(landings.as_slice(), l.as_slice()),
        _ => false,
    }
}
