ghost use Rattle.std.specs.Prelude.{◌≡◌, ◌↔◌, ◌⊎◌, ◌+◌, ◌-◌, ◌<◌, ◌≤◌, ◌==◌, [], ◌∷◌, ◌++◌, Some, get_or, length, option_map, slice_get, take, OnOk, OnErr, IfErr, IsErrOf, IsOk};
ghost use Rattle.gs_journal.specs.Last.{entry_lent};
ghost use Rattle.gs_journal.specs.History.{active, at, on, record_in, seq, taken, torn};

use crate::entry::Entry;
use crate::last::LastEntry;
use crate::narrow::Narrow;
use crate::query;
use crate::room::{grow, more_room};
use crate::wide::{NewMask, push_copy, push_wide};
use gs_layout::{Facts, Record, Refusal};
use std::alloc::Global;
use std::marker::Model;

/// All that ever happened in an enclave, the oldest first.
///
/// A query says what the first `n` entries say, or what all of them say if there are no more than `n`. It
/// walks the entries: it is not meant to be fast.
///
/// An entry takes 16 bytes. The facts of a new thread, and a new mask, stand in lists of their own.
#[derive(Drop)]
pub struct Journal {
    narrow: Vec<Narrow>,
    /// The facts of new threads, in order. There is room for those of each entry that there is room for.
    facts: Vec<Facts>,
    /// New masks, in order, with as much room.
    masks: Vec<NewMask>,
    limit: u32,
    first_tseq: u32,
}

impl Model for Journal {
    ghost use Rattle.std.specs.Prelude.{◌-◌, ◌≤◌, length, min, vec_len, vec_capacity};
    ghost use Rattle.gs_journal.specs.JournalState.{JournalState};
    ghost use Rattle.gs_journal.specs.Narrow.{AllWithin, entries_of};

    ghost Value = { JournalState };

    ghost view = { λ j. record {
      entries = entries_of j.facts.items j.masks.items j.narrow.items;
      limit = j.limit;
      first_tseq = j.first_tseq;
      room = min (vec_capacity j.narrow - vec_len j.narrow) (j.limit - vec_len j.narrow);
    } };

    ghost invariant = { λ j. record {
      within : vec_len j.narrow ≤ j.limit;
      fewer_facts : vec_len j.facts ≤ vec_len j.narrow;
      fewer_masks : vec_len j.masks ≤ vec_len j.narrow;
      placed : AllWithin (length j.facts.items) (length j.masks.items) j.narrow.items;
      facts_room : vec_capacity j.narrow - vec_len j.narrow ≤ vec_capacity j.facts - vec_len j.facts;
      masks_room : vec_capacity j.narrow - vec_len j.narrow ≤ vec_capacity j.masks - vec_len j.masks;
    } };
}

impl Journal {
    /// Makes a journal in which nothing has happened, of at most `limit` entries. A thread's sequence numbers
    /// begin above `first_tseq`. It does not allocate.
    #[tactic(auto, using(crate::proofs::Lists::entries_none))]
    pub fn new(alloc: Global, first_tseq: u32, limit: u32) -> Journal
        ensures entries { result.entries ≡ [] }
        ensures limit { result.limit ≡ limit }
        ensures first_tseq { result.first_tseq ≡ first_tseq }
        ensures room { result.room ≡ 0 }
    {
        Journal {
            narrow: Vec::new(alloc),
            facts: Vec::new(alloc),
            masks: Vec::new(alloc),
            limit,
            first_tseq,
        }
    }

    /// Makes room for `additional` more entries, which `append` then takes without fail.
    ///
    /// # Errors
    ///
    /// `HistoryFull` if the limit leaves fewer, and else `OutOfMemory` if out of memory. Nothing changes
    /// then.
    #[inline(always)]
    #[tactic(auto, using(crate::proofs::Lists::length_entries))]
    pub fn reserve(&mut self, additional: usize) -> Result<(), Refusal>
        ensures room { OnOk result (additional ≤ self.new.room) }
        ensures full { IsErrOf result Refusal.HistoryFull ↔ (self.old.limit < length self.old.entries + additional) }
        ensures errors { IfErr result (λ e. (e ≡ Refusal.HistoryFull) ⊎ (e ≡ Refusal.OutOfMemory)) }
        ensures same { self.new ≡ record self.old { room = self.new.room } }
        ensures kept { self.old.room ≤ self.new.room }
        ensures enough { additional ≤ self.old.room → IsOk result }
        ensures refused { OnErr result (self.new ≡ self.old) }
    {
        let left = self.limit as usize - self.len();
        if left < additional {
            return Err(Refusal::HistoryFull);
        }
        if additional <= self.narrow.capacity() - self.narrow.len() {
            return Ok(());
        }
        let more = more_room(additional, self.narrow.len(), left);
        let (facts, masks) = (&mut self.facts, &mut self.masks);
        Ok(grow(&mut self.narrow, facts, masks, more)?)
    }

    /// Appends an entry, for which room was made before.
    #[inline(always)]
    #[tactic(auto, using(crate::proofs::Lists::length_entries, crate::proofs::Lists::entries_more, crate::proofs::Lists::all_within_more))]
    pub fn append(&mut self, entry: Entry)
        requires { 0 < self.old.room }
        ensures entries { self.new.entries ≡ self.old.entries ++ entry ∷ [] }
        ensures limit { self.new.limit ≡ self.old.limit }
        ensures first_tseq { self.new.first_tseq ≡ self.old.first_tseq }
        ensures room { self.old.room ≤ self.new.room + 1 }
    {
        let facts = self.facts.len() as u32;
        let masks = self.masks.len() as u32;
        let narrow = Narrow::of(facts, masks, &entry);
        push_wide(&mut self.facts, &mut self.masks, &entry);
        push_copy(&mut self.narrow, &narrow);
    }

    /// Returns the entry at a place, counted from 0.
    ///
    /// # Examples
    ///
    /// The last entry but one:
    ///
    /// ```
    /// match journal.len() {
    ///     0 | 1 => None,
    ///     len => Some(entry_of(&journal.entry(len - 2))),
    /// }
    /// ```
    #[inline(always)]
    #[tactic(auto, using(crate::proofs::Lists::length_entries, crate::proofs::Lists::within_at, crate::proofs::Lists::entry_at, crate::proofs::Lists::entry_is))]
    pub fn entry(&self, place: usize) -> Entry
        requires { place < length self.now.entries }
        ensures value { slice_get self.now.entries place ≡ Some result }
        ensures item { result ≡ get_or self.now.entries place result }
    {
        self.narrow[place].entry(&self.facts, &self.masks)
    }

    /// Returns the entry at a place, counted from 0, or `None` if there are no more entries.
    pub fn get(&self, place: usize) -> Option<Entry>
        ensures { result ≡ slice_get self.now.entries place }
    {
        if place < self.len() {
            Some(self.entry(place))
        } else {
            None
        }
    }

    /// Lends the last entry, or returns `None` if nothing has happened.
    #[inline(always)]
    pub fn last(&self) -> Option<LastEntry<'_>>
        ensures { option_map entry_lent result ≡ slice_get self.now.entries (length self.now.entries - 1) }
    {
        match self.len() {
            0 => None,
            _ => Some(LastEntry::of(self)),
        }
    }

    /// Returns how many entries there are.
    #[tactic(auto, using(crate::proofs::Lists::length_entries))]
    pub fn len(&self) -> usize
        ensures value { result ≡ length self.now.entries }
        ensures within { result ≤ self.now.limit }
    {
        self.narrow.len()
    }

    /// Returns whether nothing has happened.
    #[tactic(auto, using(crate::proofs::Lists::length_entries))]
    pub fn is_empty(&self) -> bool
        ensures { result ≡ (length self.now.entries == 0) }
    {
        self.narrow.is_empty()
    }

    /// Returns the most entries that there may be.
    pub fn limit(&self) -> u32
        ensures { result ≡ self.now.limit }
    {
        self.limit
    }

    /// Returns the number above which a thread's sequence numbers begin.
    pub fn first_tseq(&self) -> u32
        ensures { result ≡ self.now.first_tseq }
    {
        self.first_tseq
    }

    /// Returns a thread's record.
    pub fn facts_at(&self, n: usize, tid: u32) -> Record
        ensures { result ≡ record_in (take n self.now.entries) tid }
    {
        query::last_record(self, n, tid)
    }

    /// Returns a thread's sequence number: `first_tseq` and one more for each message about the thread, or 0
    /// if there is none.
    #[tactic(auto, using(crate::proofs::Steps::seq_is))]
    pub fn seq_at(&self, n: usize, tid: u32) -> u64
        ensures { result ≡ seq self.now.first_tseq (take n self.now.entries) tid }
    {
        // There are no more messages than the limit, which is of 32 bits, as a proof knows of a number once it is read.
        let _limit = self.limit;
        match query::count_messages(self, n, tid) {
            0 => 0,
            count => self.first_tseq as u64 + count as u64,
        }
    }

    /// Returns who is on a CPU, or `None` for nobody.
    pub fn on_cpu(&self, n: usize, cpu: u16) -> Option<u32>
        ensures { result ≡ on (take n self.now.entries) cpu }
    {
        query::thread_on(self, n, cpu)
    }

    /// Returns the CPU that a thread is on, the least of those below the count, or `None` if it is on none.
    pub fn at(&self, n: usize, tid: u32, cpus: u16) -> Option<u16>
        ensures { result ≡ at cpus (take n self.now.entries) tid }
    {
        query::cpu_of(self, n, tid, cpus)
    }

    /// Returns the active agent, its generation and CPU, or `None` if no agent is active.
    pub fn active(&self, n: usize) -> Option<(u32, u16)>
        ensures { result ≡ active (take n self.now.entries) }
    {
        query::active_agent(self, n)
    }

    /// Returns whether the other class holds a CPU.
    pub fn is_taken(&self, n: usize, cpu: u16) -> bool
        ensures { result ≡ taken (take n self.now.entries) cpu }
    {
        query::is_taken(self, n, cpu)
    }

    /// Returns whether the enclave was torn down.
    pub fn is_torn(&self, n: usize) -> bool
        ensures { result ≡ torn (take n self.now.entries) }
    {
        query::was_torn(self, n)
    }
}
