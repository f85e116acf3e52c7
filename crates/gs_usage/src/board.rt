//! What the CPUs of a block are used for, as a history is walked.

ghost use Rattle.std.specs.Prelude.{◌≡◌, ◌<◌, ◌+◌, ℕ, IfOk, None, OnOk, Some, get_or, length};
ghost use Rattle.gs_status.specs.declared.mask.TheConstants.{MOST_CPUS};
ghost use Rattle.gs_turns.specs.Ticked.{tick_cpu};
ghost use Rattle.gs_usage.specs.Boards.{IsBoard};
ghost use Rattle.gs_usage.specs.Uses.{usage_of};

use crate::facts::Facts;
use crate::sets::{all, only};
use crate::tally::Tally;
use crate::threads::Threads;
use crate::usage::Usage;
use gs_journal::{Entry, Journal};
use gs_status::MOST_CPUS;
use gs_turns::tick_cpu;
use std::alloc::{AllocError, Global};

/// What the CPUs of a block are used for, and were up to an entry. A block has as many CPUs as a set of them may have.
#[derive(Drop)]
pub(crate) struct Board {
    /// The first CPU of the block.
    pub(crate) first: u16,
    threads: Threads,
    facts: Facts,
    other: Tally,
    agent: Tally,
    busy: Tally,
    wanted: Tally,
    idle: Tally,
}

impl Board {
    /// That of a block before the first entry of a journal.
    ///
    /// # Errors
    ///
    /// `AllocError` if out of memory.
    pub(crate) fn new(alloc: Global, journal: &Journal, first: u16) -> Result<Board, AllocError>
        ensures first { IfOk result (λ board. board.first ≡ first) }
        ensures board { IfOk result (λ board. IsBoard journal.now.entries 0 board) }
    {
        let most = journal.len();
        Ok(Board {
            first,
            threads: Threads::new(alloc),
            facts: Facts::new(alloc, most)?,
            other: Tally::new(alloc, 0, most)?,
            agent: Tally::new(alloc, 0, most)?,
            busy: Tally::new(alloc, 0, most)?,
            wanted: Tally::new(alloc, 0, most)?,
            idle: Tally::new(alloc, all(), most)?,
        })
    }

    /// Notes the entry of a place, which is a tick of a CPU. It changes nothing of what CPUs are used for.
    fn tick(&mut self, journal: &Journal, place: usize, entry: &Entry, cpu: u16)
        requires place { place < length journal.now.entries }
        requires board { IsBoard journal.now.entries place self.old }
        requires entry { entry.now ≡ get_or journal.now.entries place entry.now }
        requires tick { tick_cpu entry.now ≡ Some cpu }
        ensures first { self.new.first ≡ self.old.first }
        ensures board { IsBoard journal.now.entries (place + 1) self.new }
    {
        let ticked = only(self.first, cpu);
        self.other.stay(ticked);
        self.agent.stay(ticked);
        self.busy.stay(ticked);
        self.wanted.stay(ticked);
        self.idle.stay(ticked);
    }

    /// Notes the entry of a place, which is no tick.
    fn note(&mut self, journal: &Journal, place: usize, entry: &Entry) -> Result<(), AllocError>
        requires place { place < length journal.now.entries }
        requires few { place < usize.MAX }
        requires board { IsBoard journal.now.entries place self.old }
        requires entry { entry.now ≡ get_or journal.now.entries place entry.now }
        requires no_tick { tick_cpu entry.now ≡ None }
        ensures first { OnOk result (self.new.first ≡ self.old.first) }
        ensures board { OnOk result (IsBoard journal.now.entries (place + 1) self.new) }
    {
        let change = self.threads.hear(place, entry)?;
        self.facts.hear(self.first, entry, &change)?;
        let sets = self.facts.sets();
        self.other.hear(place, sets.other);
        self.agent.hear(place, sets.agent);
        self.busy.hear(place, sets.busy);
        self.wanted.hear(place, sets.wanted);
        self.idle.hear(place, sets.idle);
        Ok(())
    }

    /// Notes the entry of a place, behind those before it.
    ///
    /// # Errors
    ///
    /// `AllocError` if out of memory.
    pub(crate) fn hear(&mut self, journal: &Journal, place: usize) -> Result<(), AllocError>
        requires place { place < length journal.now.entries }
        requires few { place < usize.MAX }
        requires board { IsBoard journal.now.entries place self.old }
        ensures first { OnOk result (self.new.first ≡ self.old.first) }
        ensures board { OnOk result (IsBoard journal.now.entries (place + 1) self.new) }
    {
        let entry = journal.entry(place);
        match tick_cpu(&entry) {
            Some(cpu) => {
                self.tick(journal, place, &entry, cpu);
                Ok(())
            }
            None => self.note(journal, place, &entry),
        }
    }

    /// Returns what a CPU of the block was used for, behind all entries.
    pub(crate) fn usage(&self, journal: &Journal, cpu: u16) -> Usage
        requires cpu { cpu < MOST_CPUS }
        requires board { IsBoard journal.now.entries (length journal.now.entries) self.now }
        ensures { result ≡ usage_of journal.now.entries (self.now.first + cpu) }
    {
        let end = journal.len();
        Usage {
            busy: self.busy.time(end, cpu),
            agent: self.agent.time(end, cpu),
            other: self.other.time(end, cpu),
            wanted: self.wanted.time(end, cpu),
            idle: self.idle.time(end, cpu),
        }
    }
}
