ghost use Rattle.std.specs.Prelude.{◌≡◌, ◌⊎◌, ◌==◌, ◌+◌, ◌^◌, ◌<◌, ◌≤◌, [], ◌∷◌, ◌++◌, length, vec_len, vec_capacity, MatchBool, OnOk, OnErr, IsOk};
ghost use Rattle.std.specs.Option.{option_copied};
ghost use Rattle.gs_threads.specs.Rows.{new_row};
ghost use Rattle.gs_threads.specs.Table.{row_of, rows_after, rows_placed};
ghost use Rattle.gs_threads.specs.Live.{live_from};

use crate::live::LiveRows;
use crate::row::ThreadRow;
use gs_layout::{Facts, Message};
use gs_sets::NumberSet;
use std::alloc::{AllocError, Global};
use std::marker::Model;

/// One row for each thread that ever was, the dead too: thread 1 first.
///
/// Each call takes the same time for any number of threads, but for `reserve` when it grows the table
/// (twofold), and for the walk of `live_from`. A step of that walk looks at two words of the live tids, and
/// in between at one word for each 4,096 tids at most: 17 for [`MOST_TIDS`](gs_layout::MOST_TIDS) threads. It
/// passes over no row of a dead thread.
#[derive(Drop)]
pub struct ThreadTable {
    rows: Vec<ThreadRow>,
    /// The tids whose rows are of live threads.
    live: NumberSet,
    first_tseq: u32,
}

impl Model for ThreadTable {
    ghost use Rattle.std.specs.Prelude.{◌-◌, ◌*◌, ◌<◌, ◌^◌, length, min, vec_len, vec_capacity};
    ghost use Rattle.gs_sets.specs.declared.bits.TheConstants.{WORD};
    ghost use Rattle.gs_threads.specs.Live.{IsOfRows};
    ghost use Rattle.gs_threads.specs.Table.{TableState};

    ghost Value = { TableState };

    ghost view = { λ t. record {
      rows = t.rows.items;
      first_tseq = t.first_tseq;
      room = min (vec_capacity t.rows - vec_len t.rows) (min (2 ^ 32 - 1 - vec_len t.rows) (WORD * length t.live - 1 - vec_len t.rows));
    } };

    ghost invariant = { λ t. (vec_len t.rows < 2 ^ 32) × (t.first_tseq < 2 ^ 32 - 1) × IsOfRows t.live t.rows.items };
}

impl ThreadTable {
    /// Makes a table of no threads. The sequence number of a new thread is one above `first_tseq`. It does
    /// not allocate.
    pub fn new(alloc: Global, first_tseq: u32) -> ThreadTable
        requires { first_tseq < u32.MAX }
        ensures rows { result.rows ≡ [] }
        ensures first_tseq { result.first_tseq ≡ first_tseq }
        ensures room { result.room ≡ 0 }
    {
        ThreadTable {
            rows: Vec::new(alloc),
            live: NumberSet::new(alloc),
            first_tseq,
        }
    }

    /// Returns how many threads there ever were. The next one is one above that.
    pub fn len(&self) -> usize
        ensures value { result ≡ length self.now.rows }
        ensures within { result < 2 ^ 32 }
    {
        self.rows.len()
    }

    /// Returns whether there never was a thread.
    pub fn is_empty(&self) -> bool
        ensures { result ≡ (length self.now.rows == 0) }
    {
        self.rows.is_empty()
    }

    /// Makes room for one more row, which `create` then takes without fail.
    ///
    /// # Errors
    ///
    /// `AllocError` if out of memory. Nothing changes then.
    #[inline(always)]
    pub fn reserve(&mut self) -> Result<(), AllocError>
        requires { length self.old.rows < u32.MAX }
        ensures room { OnOk result (0 < self.new.room) }
        ensures same { self.new ≡ record self.old { room = self.new.room } }
        ensures kept { self.old.room ≤ self.new.room }
        ensures enough { 0 < self.old.room → IsOk result }
        ensures refused { OnErr result (self.new ≡ self.old) }
    {
        self.live.reserve(self.rows.len() + 1)?;
        self.rows.reserve(1)
    }

    /// Appends the row of the next thread, for which room was made before.
    #[tactic(auto, using(crate::proofs::Living::created))]
    #[inline(always)]
    pub fn create(&mut self, facts: &Facts)
        requires { 0 < self.old.room }
        ensures rows { self.new.rows ≡ self.old.rows ++ new_row self.old.first_tseq facts.now ∷ [] }
        ensures first_tseq { self.new.first_tseq ≡ self.old.first_tseq }
        ensures room { self.old.room ≤ self.new.room + 1 }
    {
        let row = ThreadRow::new(self.first_tseq, facts);
        push_copy(&mut self.rows, row);
        self.live.set(self.rows.len(), true);
    }

    /// Lends the row of a thread, or returns `None` for one that never was.
    #[tactic(auto, using(crate::proofs::Lookups::row_there, crate::proofs::Lookups::row_never))]
    pub fn get(&self, tid: u32) -> Option<&ThreadRow>
        ensures { option_copied result ≡ row_of self.now.rows tid }
    {
        if !self.has(tid) {
            return None;
        }
        Some(&self.rows[tid as usize - 1])
    }

    /// Takes in a message: the row of its thread becomes what the message makes of it. A timer tick changes
    /// nothing, nor does a message about a thread that never was.
    #[inline(always)]
    #[tactic(auto, using(crate::proofs::Lookups::after_is, crate::proofs::Lookups::after_none, crate::proofs::Lookups::after_tick))]
    pub fn apply(&mut self, message: &Message)
        ensures { self.new ≡ record self.old { rows = rows_after self.old.rows message.now } }
    {
        let Message::Thread { tid, .. } = message else {
            return;
        };
        if self.has(*tid) {
            let row = &mut self.rows[*tid as usize - 1];
            let was_live = row.is_live();
            row.take_in(message);
            let is_live = row.is_live();
            if is_live != was_live {
                self.live.set(*tid as usize, is_live);
            }
        }
    }

    /// Puts a thread on a CPU, or takes it off with `None`. Of a thread that never was it changes nothing.
    #[tactic(auto, using(crate::proofs::Lookups::placed_is, crate::proofs::Lookups::placed_none))]
    pub fn place(&mut self, tid: u32, cpu: Option<u16>)
        ensures { self.new ≡ record self.old { rows = rows_placed self.old.rows tid cpu } }
    {
        if self.has(tid) {
            self.rows[tid as usize - 1].cpu = cpu;
        }
    }

    /// Walks the live threads from `tid` on, in increasing order of tid, each with its row.
    pub fn live_from(&self, tid: u32) -> LiveRows<'_>
        ensures { result ≡ live_from self.now.rows tid }
    {
        LiveRows::new(&self.rows, &self.live, tid)
    }

    /// Returns whether a thread ever was.
    fn has(&self, tid: u32) -> bool
        ensures { MatchBool result (0 < tid × tid ≤ length self.now.rows) ((tid ≡ 0) ⊎ (length self.now.rows < tid)) }
    {
        0 < tid && tid as usize <= self.rows.len()
    }
}

/// Appends an item, for which there is room.
#[inline(always)]
fn push_copy<T: Copy>(items: &mut Vec<T>, item: T)
    requires { vec_len items.old < vec_capacity items.old }
    ensures items { items.new.items ≡ items.old.items ++ item ∷ [] }
    ensures len { vec_len items.new ≡ vec_len items.old + 1 }
    ensures capacity { vec_capacity items.new ≡ vec_capacity items.old }
{
    items.push_reserved(item);
}
