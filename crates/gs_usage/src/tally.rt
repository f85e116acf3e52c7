//! How long each CPU had a use.

ghost use Rattle.std.specs.Prelude.{◌≡◌, ◌<◌, ◌≤◌, ◌+◌, ◌*◌, ◌^◌, ℕ, IfOk, length, min};
ghost use Rattle.std.specs.Int.{bit_at};
ghost use Rattle.gs_usage.specs.Tallies.{HasRoom, IsTallyThen, entries_to, ticks_in};
ghost use Rattle.gs_status.specs.declared.mask.TheConstants.{MOST_CPUS};

use crate::totals::Totals;
use gs_status::MOST_CPUS;
use gs_turns::Time;
use std::alloc::{AllocError, Global};

/// Which CPUs of a block have a use, and how long each had it.
#[derive(Drop)]
pub(crate) struct Tally {
    /// Those that have it.
    set: u128,
    /// The place of the entry from which on they have it and that is not yet in `entries`.
    since: usize,
    entries: Totals,
    ticks: Totals,
}

impl Tally {
    /// Makes that of a use that no CPU ever had. No count of it may go above a number.
    ///
    /// # Errors
    ///
    /// `AllocError` if out of memory.
    pub(crate) fn new(alloc: Global, set: u128, most: usize) -> Result<Tally, AllocError>
        ensures set { IfOk result (λ tally. tally.set ≡ set) }
        ensures entries { IfOk result (λ tally. (i : ℕ) → entries_to 0 tally i ≡ 0) }
        ensures ticks { IfOk result (λ tally. (i : ℕ) → ticks_in tally i ≡ 0) }
        ensures since { IfOk result (λ tally. tally.since ≡ 0) }
        ensures room { IfOk result (λ tally. HasRoom most tally) }
    {
        let entries = Totals::new(alloc, most)?;
        let ticks = Totals::new(alloc, most)?;
        Ok(Tally {
            set,
            since: 0,
            entries,
            ticks,
        })
    }

    /// Adds the entries that are not yet in `entries`, and notes that the entry of this place leaves the use to the CPUs of a set.
    #[inline(always)]
    fn settle(&mut self, place: usize, set: u128)
        requires since { self.old.since ≤ place }
        requires fits { (i : ℕ) → i < MOST_CPUS → entries_to place self.old i < 2 ^ length self.old.entries.digits.items }
        ensures set { self.new.set ≡ set }
        ensures since { self.new.since ≤ place }
        ensures entries { (i : ℕ) → i < MOST_CPUS → entries_to (place + 1) self.new i ≡ entries_to place self.old i + bit_at set i }
        ensures room { length self.new.entries.digits.items ≡ length self.old.entries.digits.items }
        ensures ticks { self.new.ticks ≡ self.old.ticks }
    {
        self.entries.add(self.set, place - self.since);
        self.set = set;
        self.since = place;
    }

    /// Notes that the entry of this place leaves the use to the CPUs of a set.
    #[inline(always)]
    fn turn(&mut self, place: usize, set: u128)
        requires since { self.old.since ≤ place }
        requires fits { (i : ℕ) → i < MOST_CPUS → entries_to place self.old i < 2 ^ length self.old.entries.digits.items }
        ensures set { self.new.set ≡ set }
        ensures since { self.new.since ≤ place }
        ensures entries { (i : ℕ) → i < MOST_CPUS → entries_to (place + 1) self.new i ≡ entries_to place self.old i + bit_at set i }
        ensures room { length self.new.entries.digits.items ≡ length self.old.entries.digits.items }
        ensures ticks { self.new.ticks ≡ self.old.ticks }
    {
        if set != self.set {
            self.settle(place, set);
        }
    }

    /// Notes a tick of the CPUs of a set, of those that have the use.
    #[inline(always)]
    fn tick(&mut self, ticked: u128)
        requires { (i : ℕ) → i < MOST_CPUS → ticks_in self.old i + 1 < 2 ^ length self.old.ticks.digits.items }
        ensures ticks { (i : ℕ) → i < MOST_CPUS → ticks_in self.new i ≡ ticks_in self.old i + min (bit_at self.old.set i) (bit_at ticked i) }
        ensures room { length self.new.ticks.digits.items ≡ length self.old.ticks.digits.items }
        ensures entries { self.new.entries ≡ self.old.entries }
        ensures set { self.new.set ≡ self.old.set }
        ensures since { self.new.since ≡ self.old.since }
    {
        let set = self.set & ticked;
        if set != 0 {
            self.ticks.add_once(set);
        }
    }

    /// Notes that the entry of this place, which is no tick, leaves the use to the CPUs of a set.
    #[inline(always)]
    #[tactic(auto, using(crate::proofs::Bits::none_ticked))]
    pub(crate) fn hear(&mut self, place: usize, set: u128)
        requires since { self.old.since ≤ place }
        requires fits { (i : ℕ) → i < MOST_CPUS → entries_to place self.old i < 2 ^ length self.old.entries.digits.items }
        ensures { IsTallyThen place set 0 self.old self.new }
    {
        self.turn(place, set);
    }

    /// Notes an entry that leaves the use to the same CPUs, and is a tick of the CPUs of a set.
    #[inline(always)]
    pub(crate) fn stay(&mut self, ticked: u128)
        requires { (i : ℕ) → i < MOST_CPUS → ticks_in self.old i + 1 < 2 ^ length self.old.ticks.digits.items }
        ensures { (n : ℕ) → self.old.since ≤ n → IsTallyThen n self.old.set ticked self.old self.new }
    {
        self.tick(ticked);
    }

    /// Returns behind how many of so many entries a CPU had the use.
    fn entries(&self, place: usize, cpu: u16) -> usize
        requires cpu { cpu < MOST_CPUS }
        requires since { self.now.since ≤ place }
        requires fits { entries_to place self.now cpu ≤ usize.MAX }
        ensures { result ≡ entries_to place self.now cpu }
    {
        let lasting = (self.set >> cpu & 1) as usize;
        self.entries.total(cpu) + (place - self.since) * lasting
    }

    /// Returns behind how many of so many entries a CPU had the use, and how many of these are ticks of the CPU.
    pub(crate) fn time(&self, place: usize, cpu: u16) -> Time
        requires cpu { cpu < MOST_CPUS }
        requires since { self.now.since ≤ place }
        requires fits { entries_to place self.now cpu ≤ usize.MAX }
        requires ticks { ticks_in self.now cpu ≤ usize.MAX }
        ensures entries { result.entries ≡ entries_to place self.now cpu }
        ensures ticks { result.ticks ≡ ticks_in self.now cpu }
    {
        Time {
            entries: self.entries(place, cpu),
            ticks: self.ticks.total(cpu),
        }
    }
}
