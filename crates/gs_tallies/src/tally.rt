ghost use Rattle.std.specs.Prelude.{◌≡◌, List, [], IfOk, OnOk, map};
ghost use Rattle.gs_turns.specs.declared.turn.Turn.{Turn};
ghost use Rattle.gs_tallies.specs.Drafts.{IsTurnDraft, entries_in, ticks_in, wait_of};
ghost use Rattle.gs_tallies.specs.Tallies.{IsTally, no_tally};

use crate::group::Draft;
use crate::spread::{Spread, spread_of};
use crate::sums::Sums;
use gs_turns::{Time, Turn};
use std::alloc::{AllocError, Global};

/// What turns come to, and how their waits are spread.
#[derive(Clone, Copy, PartialEq, Eq, Debug)]
pub struct Tally {
    pub sums: Sums,
    /// How the waits are spread that the turns begin with, in entries, if there are any.
    pub waits_in_entries: Option<Spread>,
    /// The same in ticks.
    pub waits_in_ticks: Option<Spread>,
}

/// What turns come to as far as they are gone through.
#[derive(Drop)]
pub(crate) struct TurnDraft {
    sums: Sums,
    /// How long the thread of each turn waited.
    waits: Vec<Time>,
}

/// Returns how long the thread of a turn waited.
fn wait_of(turn: &Turn) -> Time
    ensures { result ≡ wait_of turn.now }
{
    Time {
        entries: turn.waited(),
        ticks: turn.waited_ticks,
    }
}

/// Has a list hold how many entries each of some waits took, and nothing else.
fn put_entries(all: &mut Vec<usize>, waits: &[Time]) -> Result<(), AllocError>
    ensures { OnOk result (all.new.items ≡ map entries_in waits.now) }
{
    all.clear();
    all.reserve(waits.len())?;
    for wait in waits {
        all.push(wait.entries)?;
    }
    Ok(())
}

/// Has a list hold how many ticks each of some waits took, and nothing else.
fn put_ticks(all: &mut Vec<usize>, waits: &[Time]) -> Result<(), AllocError>
    ensures { OnOk result (all.new.items ≡ map ticks_in waits.now) }
{
    all.clear();
    all.reserve(waits.len())?;
    for wait in waits {
        all.push(wait.ticks)?;
    }
    Ok(())
}

impl Draft<Turn> for TurnDraft {
    ghost use Rattle.gs_tallies.specs.Drafts.{IsTurnDraft};

    ghost drafts = { IsTurnDraft };

    fn empty(alloc: Global) -> TurnDraft {
        TurnDraft {
            sums: Sums::none(),
            waits: Vec::new(alloc),
        }
    }

    fn add(&mut self, _alloc: Global, turn: &Turn) -> Result<(), AllocError> {
        self.waits.push(wait_of(turn))?;
        self.sums = self.sums.with(turn);
        Ok(())
    }
}

impl Tally {
    /// What no turns come to.
    pub(crate) fn none() -> Tally
        ensures { result ≡ no_tally }
    {
        Tally {
            sums: Sums::none(),
            waits_in_entries: None,
            waits_in_ticks: None,
        }
    }
}

impl TurnDraft {
    /// Is of no turns from now on. The memory is kept.
    pub(crate) fn clear(&mut self)
        ensures { IsTurnDraft [] self.new }
    {
        self.sums = Sums::none();
        self.waits.clear();
    }

    /// Returns what the turns come to. It sorts their waits in a list that is given, whatever that holds.
    ///
    /// # Errors
    ///
    /// `AllocError` if out of memory.
    pub(crate) fn tally(&self, numbers: &mut Vec<usize>) -> Result<Tally, AllocError>
        ensures { IfOk result (λ tally. (ts : List Turn) → IsTurnDraft ts self.now → IsTally ts tally) }
    {
        put_entries(numbers, &self.waits)?;
        let waits_in_entries = spread_of(numbers);
        put_ticks(numbers, &self.waits)?;
        let waits_in_ticks = spread_of(numbers);
        Ok(Tally {
            sums: self.sums,
            waits_in_entries,
            waits_in_ticks,
        })
    }
}
