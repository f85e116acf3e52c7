ghost use Rattle.std.specs.Prelude.{◌≡◌, ◌+◌, ◌==◌, ◌<◌, ◌≤◌, ◌^◌, ℕ, [], true, false, None, Some, All, IfSome, MatchOption, OnOk, is_some, length, option_copied};
ghost use Rattle.std.specs.List.Sorted.{IsStrictlyIncreasing};
ghost use Rattle.gs_layout.specs.Message.{is_death};
ghost use Rattle.gs_layout.specs.Spelling.{kind_of};
ghost use Rattle.gs_layout.specs.View.{learnt, look_up};
ghost use Rattle.gs_view.specs.News.{ready_of};
ghost use Rattle.gs_view.specs.Records.{with_known};
ghost use Rattle.gs_sets.specs.Bits.{IsFirst, IsNone};
ghost use Rattle.gs_view.specs.Shown.{is_known, tids};

use crate::index::KeyIndex;
use crate::walk::ViewWalk;
use gs_layout::{Class, Facts, Kind, Known};
use gs_reader::MessageRef;
use slab::Slab;
use std::alloc::{AllocError, Global};
use std::marker::Model;

/// How many keys there are: the index keeps each in 32 bits.
const KEYS: usize = 1 << 32;

/// What is known of each thread, in a slab: an index has the key of each tid of which something is known.
/// Clauses see the records in increasing order of tid.
///
/// A look-up and a change take the same time for any number of threads.
#[derive(Drop)]
pub(crate) struct Records {
    index: KeyIndex,
    slab: Slab<Known>,
}

impl Model for Records {
    ghost use Rattle.gs_view.specs.Records.{Agree, RecordsState, state_of};

    ghost Value = { RecordsState };

    ghost view = { λ r. state_of r.index r.slab };

    ghost invariant = { λ r. Agree r.index r.slab };
}

impl Records {
    /// Makes the records of which nothing is known. It does not allocate.
    #[tactic(auto, using(crate::proofs::Agreed::agree_none, crate::proofs::Agreed::entries_none))]
    pub(crate) fn new(alloc: Global) -> Records
        ensures { result.entries ≡ [] }
    {
        Records {
            index: KeyIndex::new(alloc),
            slab: Slab::new(alloc),
        }
    }

    /// Forgets all that is known, and keeps the memory of the records. It does not allocate.
    #[tactic(auto, using(crate::proofs::Agreed::agree_none, crate::proofs::Agreed::entries_none))]
    pub(crate) fn clear(&mut self, alloc: Global)
        ensures { self.new.entries ≡ [] }
    {
        self.index.clear_all(alloc);
        self.slab.clear();
    }

    /// Returns of how many threads something is known.
    pub(crate) fn len(&self) -> usize
        ensures { result ≡ length self.now.entries }
    {
        self.slab.len()
    }

    /// Lends what is known of a thread.
    pub(crate) fn get(&self, tid: u32) -> Option<&Known>
        ensures { option_copied result ≡ look_up self.now.entries tid }
    {
        let key = self.index.get(tid as usize)?;
        self.slab.get(key)
    }

    /// Walks all that is known, in increasing order of tid.
    pub(crate) fn walk(&self) -> ViewWalk<'_>
        ensures whole { result ≡ self.now.entries }
        ensures rising { IsStrictlyIncreasing (tids self.now.entries) }
        ensures found { All (λ entry. look_up self.now.entries entry.0 ≡ Some entry.1) self.now.entries }
    {
        // Reads a field to expose the invariant.
        let _index = &self.index;
        ViewWalk::over(self)
    }

    /// Returns the first tid, not below `from`, of a thread of which something is known.
    #[tactic(auto, using(gs_sets::proofs::Laws::first_alike, crate::proofs::Showing::known_key))]
    #[inline(always)]
    pub(crate) fn next_from(&self, from: usize) -> Option<usize>
        ensures first { MatchOption result (IsNone (is_known self.now) from) (IsFirst (is_known self.now) from) }
        ensures within { IfSome result (λ t. (t < self.now.tids) × (t < 2 ^ 32)) }
    {
        self.index.next_from(from)
    }

    /// Returns how many more records fit without memory for them, each under a key of 32 bits.
    fn room(&self) -> usize
        ensures { result ≡ self.now.room }
    {
        let capacity = self.slab.capacity();
        if capacity > KEYS {
            return 0;
        }
        capacity.saturating_sub(self.len())
    }

    /// Makes room for so many records, of threads up to a tid.
    ///
    /// # Errors
    ///
    /// `AllocError` if out of memory, or of keys. Either way the records stay as they are.
    #[tactic(auto, using(crate::proofs::Agreed::agree_grown, crate::proofs::Agreed::entries_grown))]
    #[inline(always)]
    pub(crate) fn reserve(&mut self, tid: u32, records: usize) -> Result<(), AllocError>
        ensures place { OnOk result (tid < self.new.tids) }
        ensures room { OnOk result (records ≤ self.new.room) }
        ensures same { self.new.entries ≡ self.old.entries }
    {
        self.index.reserve(tid as usize)?;
        if self.room() >= records {
            return Ok(());
        }
        self.grow(records)
    }

    /// Makes room for so many records in the slab.
    ///
    /// # Errors
    ///
    /// `AllocError` if out of memory, or of keys. Either way the records stay as they are.
    #[tactic(auto, using(crate::proofs::Agreed::agree_grown, crate::proofs::Agreed::entries_grown))]
    #[inline(never)]
    fn grow(&mut self, records: usize) -> Result<(), AllocError>
        ensures places { self.new.tids ≡ self.old.tids }
        ensures room { OnOk result (records ≤ self.new.room) }
        ensures same { self.new.entries ≡ self.old.entries }
    {
        self.slab.reserve(records)?;
        // Keys never run out: there are at most 65,536 tids, and so never 2^31 records.
        if self.slab.capacity() > KEYS {
            return Err(AllocError);
        }
        Ok(())
    }

    /// Makes this known of a thread, whatever was known of it. There is room.
    #[inline(always)]
    pub(crate) fn put(&mut self, tid: u32, known: Known)
        requires place { tid < self.old.tids }
        requires room { 0 < self.old.room }
        ensures known { (t : ℕ) → look_up self.new.entries t ≡ with_known tid (Some known) (look_up self.old.entries) t }
        ensures places { self.new.tids ≡ self.old.tids }
        ensures room { self.old.room ≤ self.new.room + 1 }
    {
        if let Some(key) = self.index.get(tid as usize) {
            self.slab[key] = known;
        } else {
            self.insert(tid, known);
        }
    }

    /// Makes this known of a thread of which nothing is known. There is room.
    #[inline(always)]
    pub(crate) fn insert(&mut self, tid: u32, known: Known)
        requires unknown { look_up self.old.entries tid ≡ None }
        requires place { tid < self.old.tids }
        requires room { 0 < self.old.room }
        ensures known { (t : ℕ) → look_up self.new.entries t ≡ with_known tid (Some known) (look_up self.old.entries) t }
        ensures places { self.new.tids ≡ self.old.tids }
        ensures room { self.old.room ≤ self.new.room + 1 }
    {
        let key = self.slab.insert_reserved(known) as u32;
        self.index.set(tid as usize, key);
    }

    /// Changes what is known of a thread, in its place, as a message of this kind says that comes next and is no death.
    /// Returns the thread's class if it may run then.
    #[inline(always)]
    pub(crate) fn renew(&mut self, tid: u32, kind: Kind, message: &MessageRef<'_>) -> Option<Class>
        requires known { is_some (look_up self.old.entries tid) ≡ true }
        requires kind { kind ≡ kind_of message.now }
        requires lives { is_death message.now ≡ false }
        ensures known { (t : ℕ) → look_up self.new.entries t ≡ with_known tid (learnt (look_up self.old.entries tid) message.now) (look_up self.old.entries) t }
        ensures ready { result ≡ ready_of (learnt (look_up self.old.entries tid) message.now) }
    {
        let place = self.index.get(tid as usize)?;
        let known = &mut self.slab[place];
        renew(known, kind, message);
        ready(&known.facts)
    }

    /// Takes away what is known of a thread. Its key is free then.
    pub(crate) fn remove(&mut self, tid: u32)
        ensures { (t : ℕ) → look_up self.new.entries t ≡ with_known tid None (look_up self.old.entries) t }
    {
        let tid = tid as usize;
        if let Some(key) = self.index.get(tid) {
            self.index.clear(tid);
            self.slab.remove(key);
        }
    }
}

/// Returns the class of a thread that may run, and `None` of one that may not.
#[inline(always)]
pub(crate) fn ready(facts: &Facts) -> Option<Class>
    ensures { (tseq : ℕ) → result ≡ ready_of (Some (record { facts = facts.now; tseq = tseq })) }
{
    facts.runnable.then_some(facts.class)
}

/// Changes a live thread's record as a message of this kind says that comes next and is no death. A timer tick leaves it.
#[inline(always)]
fn renew(known: &mut Known, kind: Kind, message: &MessageRef<'_>)
    requires kind { kind ≡ kind_of message.now }
    requires lives { is_death message.now ≡ false }
    ensures { Some known.new ≡ learnt (Some known.old) message.now }
{
    if kind == Kind::TimerTick {
        return;
    }
    known.tseq = message.tseq();
    match kind {
        Kind::Created => known.facts = message.facts(),
        Kind::Blocked => known.facts.runnable = false,
        Kind::Wakeup => known.facts.runnable = true,
        Kind::Affinity => {
            if let Some(mask) = message.mask() {
                known.facts.mask = mask;
            }
        }
        _ => {}
    }
}
