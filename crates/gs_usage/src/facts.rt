//! Who has each CPU, who is on it, and how many threads wait for it.

ghost use Rattle.std.specs.Prelude.{◌≡◌, ◌<◌, ◌≤◌, ◌+◌, ◌^◌, ℕ, Some, None, IfOk, OnOk, cond, length, nat_lt, unwrap_or};
ghost use Rattle.std.specs.Option.{is_some};
ghost use Rattle.gs_status.specs.Masks.{has};
ghost use Rattle.gs_status.specs.declared.mask.TheConstants.{MOST_CPUS};
ghost use Rattle.gs_journal.specs.History.{ends_run, placed_on, taken_by};
ghost use Rattle.gs_journal.specs.Standing.{then_stands};
ghost use Rattle.gs_usage.specs.Counting.{count_of};
ghost use Rattle.gs_usage.specs.Facts.{AreFactsThen, agent_then, use_now};
ghost use Rattle.gs_usage.specs.Seats.{IsKept, who};
ghost use Rattle.gs_usage.specs.Uses.{same_use};
ghost use Rattle.gs_usage.specs.Waiting.{waiting_then};
ghost use Rattle.gs_usage.specs.declared.usage.Use.TheVariants.{Other, Agent, Busy, Wanted, Idle};

use crate::counter::Counter;
use crate::row::WaitChange;
use crate::seats::Seats;
use crate::sets::{all, either, in_block, only, without};
use gs_journal::Entry;
use std::alloc::{AllocError, Global};

/// Who has each CPU of a block, who is on it, and how many threads wait for it.
#[derive(Drop)]
pub(crate) struct Facts {
    /// The CPUs that the other class has.
    taken: u128,
    /// The CPU that the active agent is on.
    agent: u128,
    seats: Seats,
    /// How many threads wait that may run on each.
    waiting: Counter,
    /// The CPUs of which this is not 0.
    wanted: u128,
}

/// The CPUs of a block by what they are used for.
#[derive(Clone, Copy)]
pub(crate) struct Sets {
    pub(crate) other: u128,
    pub(crate) agent: u128,
    pub(crate) busy: u128,
    pub(crate) wanted: u128,
    pub(crate) idle: u128,
}

/// Returns which CPUs the other class has behind an entry.
fn taken_then(first: u16, before: u128, entry: &Entry) -> u128
    ensures { (i : ℕ) → i < MOST_CPUS → has result i ≡ unwrap_or (taken_by (first + i) entry.now) (has before i) }
{
    match entry {
        Entry::Taken { cpu } => either(before, only(first, *cpu)),
        Entry::Given { cpu } => without(before, only(first, *cpu)),
        _ => before,
    }
}

/// Returns which CPU the active agent is on behind an entry.
fn agent_then(first: u16, before: u128, entry: &Entry) -> u128
    ensures { (i : ℕ) → i < MOST_CPUS → has result i ≡ agent_then (first + i) entry.now (has before i) }
{
    match entry {
        Entry::Role { cpu, .. } => only(first, *cpu),
        Entry::Begin { .. } | Entry::Left | Entry::Torn => 0,
        _ => before,
    }
}

/// Returns which CPUs the other class has behind an entry, and which one the active agent is on.
fn led_then(first: u16, taken: u128, agent: u128, entry: &Entry) -> (u128, u128)
    ensures taken { (i : ℕ) → i < MOST_CPUS → has result.0 i ≡ unwrap_or (taken_by (first + i) entry.now) (has taken i) }
    ensures agent { (i : ℕ) → i < MOST_CPUS → has result.1 i ≡ agent_then (first + i) entry.now (has agent i) }
{
    match entry {
        Entry::Posted { .. } | Entry::Placed { .. } => (taken, agent),
        _ => (
            taken_then(first, taken, entry),
            agent_then(first, agent, entry),
        ),
    }
}

/// Notes how many threads wait for each CPU behind an entry by which this changed of what one thread waits for.
fn note_waiting(
    waiting: &mut Counter,
    wanted: &mut u128,
    first: u16,
    entry: &Entry,
    change: &WaitChange,
)
    requires wanted { (i : ℕ) → i < MOST_CPUS → has wanted.old i ≡ nat_lt 0 (count_of waiting.old i) }
    requires room { (i : ℕ) → i < MOST_CPUS → count_of waiting.old i + 1 < 2 ^ length waiting.old.words }
    requires covers { (i : ℕ) → i < MOST_CPUS → cond (has change.now.before (first + i)) 1 0 ≤ count_of waiting.old i + cond (has change.now.after (first + i)) 1 0 }
    ensures counts { (i : ℕ) → i < MOST_CPUS → count_of waiting.new i ≡ waiting_then (first + i) entry.now change.now (count_of waiting.old i) }
    ensures room { length waiting.new.words ≡ length waiting.old.words }
    ensures wanted { (i : ℕ) → i < MOST_CPUS → has wanted.new i ≡ nat_lt 0 (count_of waiting.new i) }
{
    if let Entry::Torn = entry {
        waiting.clear();
        *wanted = 0;
        return;
    }
    if change.before == change.after {
        return;
    }
    let after = in_block(first, change.after);
    let before = in_block(first, change.before);
    let most = either(*wanted, after);
    waiting.add(after);
    if before == 0 {
        *wanted = most;
    } else {
        waiting.take(before);
        *wanted = waiting.marked(most);
    }
}

impl Facts {
    /// Those before the first entry, of a history of at most so many.
    ///
    /// # Errors
    ///
    /// `AllocError` if out of memory.
    pub(crate) fn new(alloc: Global, most: usize) -> Result<Facts, AllocError>
        ensures taken { IfOk result (λ facts. facts.taken ≡ 0) }
        ensures agent { IfOk result (λ facts. facts.agent ≡ 0) }
        ensures kept { IfOk result (λ facts. IsKept facts.seats.busy facts.seats.threads.items facts.seats.places.items) }
        ensures busy { IfOk result (λ facts. facts.seats.busy ≡ 0) }
        ensures waiting { IfOk result (λ facts. (i : ℕ) → count_of facts.waiting i ≡ 0) }
        ensures wanted { IfOk result (λ facts. facts.wanted ≡ 0) }
        ensures room { IfOk result (λ facts. most < 2 ^ length facts.waiting.words) }
    {
        let seats = Seats::new(alloc)?;
        let waiting = Counter::new(alloc, most)?;
        Ok(Facts {
            taken: 0,
            agent: 0,
            seats,
            waiting,
            wanted: 0,
        })
    }

    /// Notes what one more entry tells of the CPUs, by which this changed of what one thread waits for.
    ///
    /// # Errors
    ///
    /// `AllocError` if out of memory.
    pub(crate) fn hear(
        &mut self,
        first: u16,
        entry: &Entry,
        change: &WaitChange,
    ) -> Result<(), AllocError>
        requires kept { IsKept self.old.seats.busy self.old.seats.threads.items self.old.seats.places.items }
        requires room { (i : ℕ) → i < MOST_CPUS → count_of self.old.waiting i + 1 < 2 ^ length self.old.waiting.words }
        requires covers { (i : ℕ) → i < MOST_CPUS → cond (has change.now.before (first + i)) 1 0 ≤ count_of self.old.waiting i + cond (has change.now.after (first + i)) 1 0 }
        requires wanted { (i : ℕ) → i < MOST_CPUS → has self.old.wanted i ≡ nat_lt 0 (count_of self.old.waiting i) }
        ensures { OnOk result (AreFactsThen first entry.now change.now self.old self.new) }
    {
        (self.taken, self.agent) = led_then(first, self.taken, self.agent, entry);
        self.seats.hear(first, entry)?;
        note_waiting(&mut self.waiting, &mut self.wanted, first, entry, change);
        Ok(())
    }

    /// Returns the CPUs by what they are used for.
    pub(crate) fn sets(&self) -> Sets
        requires { (i : ℕ) → i < MOST_CPUS → has self.now.wanted i ≡ nat_lt 0 (count_of self.now.waiting i) }
        ensures other { (i : ℕ) → i < MOST_CPUS → has result.other i ≡ same_use Other (use_now self.now i) }
        ensures agent { (i : ℕ) → i < MOST_CPUS → has result.agent i ≡ same_use Agent (use_now self.now i) }
        ensures busy { (i : ℕ) → i < MOST_CPUS → has result.busy i ≡ same_use Busy (use_now self.now i) }
        ensures wanted { (i : ℕ) → i < MOST_CPUS → has result.wanted i ≡ same_use Wanted (use_now self.now i) }
        ensures idle { (i : ℕ) → i < MOST_CPUS → has result.idle i ≡ same_use Idle (use_now self.now i) }
    {
        let led = either(self.taken, self.agent);
        let used = either(led, self.seats.busy);
        Sets {
            other: self.taken,
            agent: without(self.agent, self.taken),
            busy: without(self.seats.busy, led),
            wanted: without(self.wanted, used),
            idle: without(all(), either(used, self.wanted)),
        }
    }
}
