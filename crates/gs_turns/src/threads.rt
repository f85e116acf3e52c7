ghost use Rattle.std.specs.Prelude.{◌≡◌, ◌<◌, ◌≤◌, ℕ, IfOk, OnOk, [], get_or, length, map};
ghost use Rattle.gs_turns.specs.Knowing.{ended, heard, known_in, subject, unseen};

use crate::stance::Known;
use gs_journal::Entry;
use gs_layout::Message;
use std::alloc::{AllocError, Global};
use std::marker::Model;

/// What is known of each thread, in the place of its tid.
#[derive(Drop)]
pub(crate) struct Threads {
    table: Vec<Known>,
}

impl Model for Threads {
    ghost use Rattle.std.specs.Prelude.{List};
    ghost use Rattle.gs_turns.specs.declared.stance.Known.{Known};

    ghost Value = { List Known };

    ghost view = { λ threads. threads.table.items };
}

/// Returns the thread that an entry is about, or `None` if it is about none.
pub fn subject(entry: &Entry) -> Option<u32>
    ensures { result ≡ subject entry.now }
{
    match entry {
        Entry::Posted {
            message: Message::Thread { tid, .. },
        }
        | Entry::Placed { tid, .. } => Some(*tid),
        _ => None,
    }
}

/// Gives a table room for a place.
fn make_room(table: &mut Vec<Known>, place: usize) -> Result<(), AllocError>
    ensures room { OnOk result (place < length table.new.items) }
    ensures same { OnOk result ((t : ℕ) → known_in table.new.items t ≡ known_in table.old.items t) }
{
    let missing = place.saturating_add(1).saturating_sub(table.len());
    for _ in 0..missing {
        table.push(Known::unseen())?;
    }
    Ok(())
}

/// Ends the wait of each thread.
fn end_all(table: &mut [Known])
    ensures { table.new ≡ map ended table.old }
{
    for known in table.iter_mut() {
        known.since = None;
    }
}

impl Threads {
    /// Makes the table of threads that no entry was about. It does not allocate.
    pub(crate) fn new(alloc: Global) -> Threads
        ensures { result ≡ [] }
    {
        Threads {
            table: Vec::new(alloc),
        }
    }

    /// Returns the table itself.
    pub(crate) fn into_table(self) -> Vec<Known>
        ensures { result.items ≡ self }
    {
        self.table
    }

    /// Returns what is known of a thread.
    pub(crate) fn known(&self, tid: u32) -> Known
        ensures { result ≡ known_in self.now tid }
    {
        match self.table.get(tid as usize) {
            Some(known) => *known,
            None => Known::unseen(),
        }
    }

    /// Notes what the entry of this place tells of each thread. After an error that is not noted.
    pub(crate) fn hear(&mut self, place: usize, entry: &Entry) -> Result<(), AllocError>
        ensures { OnOk result ((t : ℕ) → known_in self.new t ≡ heard place t entry.now (known_in self.old t)) }
    {
        if let Entry::Torn = entry {
            end_all(self.table.as_mut_slice());
            return Ok(());
        }
        let Some(tid) = subject(entry) else {
            return Ok(());
        };
        make_room(&mut self.table, tid as usize)?;
        let known = self.table[tid as usize];
        self.table[tid as usize] = known.heard(place, tid, entry);
        Ok(())
    }
}
