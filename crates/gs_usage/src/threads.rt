ghost use Rattle.std.specs.Prelude.{◌≡◌, ◌<◌, ◌≤◌, ◌+◌, ℕ, None, IfOk, OnOk, cond, length, unwrap_or};
ghost use Rattle.gs_status.specs.Masks.{has};
ghost use Rattle.gs_turns.specs.Knowing.{subject};
ghost use Rattle.gs_usage.specs.Uses.{mask_by};
ghost use Rattle.gs_usage.specs.Waiting.{ArePast, IsLonger, nobody, row_of, no_change, waiting, waiting_then, waits, waits_then};

use crate::row::{Row, WaitChange};
use gs_journal::Entry;
use gs_turns::subject;
use std::alloc::{AllocError, Global};
use std::marker::Model;

/// What is known of each thread, in the place of its tid.
#[derive(Drop)]
pub(crate) struct Threads {
    table: Vec<Row>,
    /// The place behind the last tear-down, or 0 if there was none. A thread that was left ready before that place waits
    /// no more.
    torn_before: usize,
}

impl Model for Threads {
    ghost use Rattle.gs_usage.specs.Waiting.{ThreadsOf};

    ghost Value = { ThreadsOf };

    ghost view = { λ threads. record { rows = threads.table.items; torn = threads.torn_before } };
}

/// Gives a table room for a place.
#[tactic(auto, using(crate::proofs::Hearing::longer_same, crate::proofs::Hearing::longer_push))]
fn make_room(table: &mut Vec<Row>, place: usize) -> Result<(), AllocError>
    ensures room { OnOk result (place < length table.new.items) }
    ensures same { OnOk result (IsLonger table.old.items table.new.items) }
{
    let missing = place.saturating_add(1).saturating_sub(table.len());
    for _ in 0..missing {
        table.push(Row::unseen())?;
    }
    Ok(())
}

impl Threads {
    /// Makes the table of threads that no entry was about. It does not allocate.
    pub(crate) fn new(alloc: Global) -> Threads
        ensures { result ≡ nobody }
    {
        Threads {
            table: Vec::new(alloc),
            torn_before: 0,
        }
    }

    /// Notes what the entry of this place tells of each thread. It returns what changed of what the thread waits for that
    /// the entry is about. After an error nothing is noted.
    pub(crate) fn hear(&mut self, place: usize, entry: &Entry) -> Result<WaitChange, AllocError>
        requires few { place < usize.MAX }
        requires past { ArePast place self.old }
        ensures ready { OnOk result ((t : ℕ) → waits self.new t ≡ waits_then t entry.now (waits self.old t)) }
        ensures masks { OnOk result ((t : ℕ) → (row_of self.new t).mask ≡ unwrap_or (mask_by t entry.now) (row_of self.old t).mask) }
        ensures counts { IfOk result (λ change. (c : ℕ) → waiting self.new c ≡ waiting_then c entry.now change (waiting self.old c)) }
        ensures covers { IfOk result (λ change. (c : ℕ) → cond (has change.before c) 1 0 ≤ waiting self.old c + cond (has change.after c) 1 0) }
        ensures past { OnOk result (ArePast (place + 1) self.new) }
    {
        if let Entry::Torn = entry {
            self.torn_before = place + 1;
            return Ok(WaitChange::none());
        }
        let Some(tid) = subject(entry) else {
            return Ok(WaitChange::none());
        };
        make_room(&mut self.table, tid as usize)?;
        let row = &mut self.table[tid as usize];
        let before = row.waits_for(self.torn_before);
        row.hear(place, tid, entry);
        Ok(WaitChange {
            before,
            after: row.waits_for(self.torn_before),
        })
    }
}
