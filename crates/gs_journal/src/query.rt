ghost use Rattle.std.specs.Prelude.{◌≡◌, ◌↔◌, ◌+◌, ◌<◌, ◌≤◌, ◌||◌, if◌then◌else◌, IsTrue, length, take};
ghost use Rattle.gs_layout.specs.Message.{is_about, takes_off};
ghost use Rattle.gs_journal.specs.Standing.{then_latest, then_stands};
ghost use Rattle.gs_journal.specs.History.{active, at, ends_role, ends_run, is_torn, messages, on, placed_on, record_in, role_by, taken, taken_by, torn};
ghost use Rattle.gs_journal.specs.Walk.{posts_about, record_then};

use crate::entry::Entry;
use crate::journal::Journal;
use gs_layout::{Change, Message, Record};

/// Returns whether a message is about a thread. A tick is about none.
fn is_about(tid: u32, message: &Message) -> bool
    ensures { result ≡ is_about tid message.now }
{
    match message {
        Message::Thread { tid: other, .. } => *other == tid,
        Message::TimerTick { .. } => false,
    }
}

/// Returns a thread's record after one more entry.
fn record_then(tid: u32, before: Record, entry: &Entry) -> Record
    ensures { result ≡ record_then tid before entry.now }
{
    match entry {
        Entry::Posted { message } if is_about(tid, message) => before.after(message),
        _ => before,
    }
}

/// Returns a thread's record.
#[tactic(auto, using(crate::proofs::Steps::record_more, crate::proofs::Steps::record_nil))]
pub(crate) fn last_record(journal: &Journal, n: usize, tid: u32) -> Record
    ensures { result ≡ record_in (take n journal.now.entries) tid }
{
    let mut found = Record::Absent;
    for place in 0..n.min(journal.len()) {
        found = record_then(tid, found, &journal.entry(place));
    }
    found
}

/// Returns whether an entry is a message about a thread.
fn posts_about(tid: u32, entry: &Entry) -> bool
    ensures { result ≡ posts_about tid entry.now }
{
    match entry {
        Entry::Posted { message } => is_about(tid, message),
        _ => false,
    }
}

/// Returns how many messages about a thread were posted after one more entry, if there were so many before.
fn count_then(tid: u32, before: usize, entry: &Entry) -> usize
    requires { before < usize.MAX }
    ensures { result ≡ before + (if posts_about tid entry.now then 1 else 0) }
{
    if posts_about(tid, entry) {
        before + 1
    } else {
        before
    }
}

/// Returns how many messages about a thread were posted.
#[tactic(auto, using(crate::proofs::Steps::count_more, crate::proofs::Steps::count_nil))]
pub(crate) fn count_messages(journal: &Journal, n: usize, tid: u32) -> usize
    ensures value { result ≡ length (messages (take n journal.now.entries) tid) }
    ensures within { result ≤ journal.now.limit }
{
    let mut count = 0;
    for place in 0..n.min(journal.len()) {
        count = count_then(tid, count, &journal.entry(place));
    }
    count
}

/// Returns whether a message takes a thread off its CPU.
fn takes_off(tid: u32, message: &Message) -> bool
    ensures { result ≡ takes_off tid message.now }
{
    match message {
        Message::Thread {
            tid: other,
            change,
            ..
        } => change.takes_off_cpu() && *other == tid,
        Message::TimerTick { .. } => false,
    }
}

/// Returns who is on a CPU after one more entry, if `before` was on it until then. A placing on the CPU puts
/// its thread there, whoever was there. Nobody is left there by a message that takes the thread that is there
/// off, nor by the enclave's tear-down. All other entries leave it as it is.
///
/// For a caller that walks a history by itself, as for a picture of it.
pub fn thread_then(cpu: u16, before: Option<u32>, entry: &Entry) -> Option<u32>
    ensures { result ≡ then_stands (placed_on cpu entry.now) ends_run entry.now before }
{
    match entry {
        Entry::Placed {
            tid,
            cpu: there,
            ..
        } if *there == cpu => Some(*tid),
        Entry::Posted { message } => before.filter(|tid| !takes_off(*tid, message)),
        Entry::Torn => None,
        _ => before,
    }
}

/// Returns who is on a CPU.
#[tactic(auto, using(crate::proofs::Steps::on_more, crate::proofs::Steps::on_nil))]
pub(crate) fn thread_on(journal: &Journal, n: usize, cpu: u16) -> Option<u32>
    ensures { result ≡ on (take n journal.now.entries) cpu }
{
    let mut thread = None;
    for place in 0..n.min(journal.len()) {
        thread = thread_then(cpu, thread, &journal.entry(place));
    }
    thread
}

/// Returns whether a thread is on a CPU.
fn is_on(journal: &Journal, n: usize, tid: u32, cpu: u16) -> bool
    ensures { IsTrue result ↔ (on (take n journal.now.entries) cpu ≡ Some tid) }
{
    match thread_on(journal, n, cpu) {
        Some(other) => other == tid,
        None => false,
    }
}

/// Returns the least CPU below the count that a thread is on.
#[tactic(auto, using(crate::proofs::Steps::at_found, crate::proofs::Steps::at_not, crate::proofs::Steps::at_is))]
pub(crate) fn cpu_of(journal: &Journal, n: usize, tid: u32, cpus: u16) -> Option<u16>
    ensures { result ≡ at cpus (take n journal.now.entries) tid }
{
    for cpu in 0..cpus {
        if is_on(journal, n, tid, cpu) {
            return Some(cpu);
        }
    }
    None
}

/// Returns the active agent after one more entry.
fn role_then(before: Option<(u32, u16)>, entry: &Entry) -> Option<(u32, u16)>
    ensures { result ≡ then_stands (role_by entry.now) ends_role entry.now before }
{
    match entry {
        Entry::Role { generation, cpu } => Some((*generation, *cpu)),
        Entry::Begin { .. } | Entry::Left | Entry::Torn => None,
        _ => before,
    }
}

/// Returns the active agent: its generation and CPU.
#[tactic(auto, using(crate::proofs::Steps::active_more, crate::proofs::Steps::active_nil))]
pub(crate) fn active_agent(journal: &Journal, n: usize) -> Option<(u32, u16)>
    ensures { result ≡ active (take n journal.now.entries) }
{
    let mut role = None;
    for place in 0..n.min(journal.len()) {
        role = role_then(role, &journal.entry(place));
    }
    role
}

/// Returns what was last said of whether the other class holds a CPU, after one more entry.
fn taken_then(cpu: u16, before: Option<bool>, entry: &Entry) -> Option<bool>
    ensures { result ≡ then_latest (taken_by cpu entry.now) before }
{
    match entry {
        Entry::Taken { cpu: there } if *there == cpu => Some(true),
        Entry::Given { cpu: there } if *there == cpu => Some(false),
        _ => before,
    }
}

/// Returns whether the other class holds a CPU.
#[tactic(auto, using(crate::proofs::Steps::taken_more, crate::proofs::Steps::taken_nil), unfolding(crate::specs::History::taken))]
pub(crate) fn is_taken(journal: &Journal, n: usize, cpu: u16) -> bool
    ensures { result ≡ taken (take n journal.now.entries) cpu }
{
    let mut last = None;
    for place in 0..n.min(journal.len()) {
        last = taken_then(cpu, last, &journal.entry(place));
    }
    last.unwrap_or(false)
}

/// Returns whether the enclave is torn down after one more entry.
fn torn_then(before: bool, entry: &Entry) -> bool
    ensures { result ≡ (before || is_torn entry.now) }
{
    before || matches!(entry, Entry::Torn)
}

/// Returns whether the enclave was torn down.
#[tactic(auto, using(crate::proofs::Steps::torn_more, crate::proofs::Steps::torn_nil))]
pub(crate) fn was_torn(journal: &Journal, n: usize) -> bool
    ensures { result ≡ torn (take n journal.now.entries) }
{
    let mut before = false;
    for place in 0..n.min(journal.len()) {
        before = torn_then(before, &journal.entry(place));
    }
    before
}
