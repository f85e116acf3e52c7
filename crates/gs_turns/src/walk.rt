ghost use Rattle.std.specs.Prelude.{◌≡◌, ◌++◌, ◌<◌, ◌≤◌, ℕ, IfOk, OnOk, Some, length, map, slice_get};
ghost use Rattle.std.specs.List.{All};
ghost use Rattle.std.specs.List.Sorted.{IsNonDecreasingBy};
ghost use Rattle.gs_timeline.specs.declared.stay.Stay.{Stay};
ghost use Rattle.gs_turns.specs.Knowing.{AreKnown, known};
ghost use Rattle.gs_turns.specs.Ticked.{tick_places};
ghost use Rattle.gs_turns.specs.Turns.{IsTurns, turn_of};

use crate::stance::Known;
use crate::threads::Threads;
use crate::ticks::{Ticks, ticks_of};
use crate::turn::Turn;
use gs_journal::Journal;
use gs_timeline::{Ending, Stay, stays_in_order};
use std::alloc::{AllocError, Global};

/// What a journal tells of its threads.
#[derive(Drop)]
pub struct Told {
    /// Each stay of a thread on a CPU, with the wait before it, in order of the entries that began them.
    pub turns: Vec<Turn>,
    /// What is known of each thread behind all entries, in the place of its tid. Nothing is known of others.
    pub threads: Vec<Known>,
}

/// Lets what is known of the threads hear the entries from one on and before another.
fn hear_up_to(
    threads: &mut Threads,
    journal: &Journal,
    from: usize,
    to: usize,
) -> Result<(), AllocError>
    requires order { from ≤ to }
    requires within { to ≤ length journal.now.entries }
    requires known { AreKnown journal.now.entries from threads.old }
    ensures { OnOk result (AreKnown journal.now.entries to threads.new) }
{
    for place in from..to {
        threads.hear(place, &journal.entry(place))?;
    }
    Ok(())
}

/// Returns the turn of a stay, by what is known of its thread behind the entries before it, and by the ticks of its CPU.
fn turn_of(journal: &Journal, ticks: &Ticks, stay: &Stay, thread: Known) -> Turn
    requires known { thread ≡ known journal.now.entries stay.now.from stay.now.tid }
    requires ticks { ticks.now ≡ tick_places journal.now.entries stay.now.cpu (length journal.now.entries) }
    ensures { result ≡ turn_of journal.now.entries stay.now }
{
    let since = thread.since.unwrap_or(stay.from);
    Turn {
        stay: *stay,
        since,
        class: thread.class,
        before: thread.cpu,
        waited_ticks: ticks.between(since, stay.from),
        ran_ticks: ticks.between(stay.from, stay.to),
        ending: Ending::of(journal.get(stay.to).as_ref()),
    }
}

/// Returns the turn of each of these stays, in their order, and what is known of each thread behind all entries. It walks
/// the entries once.
fn turns_of(
    alloc: Global,
    journal: &Journal,
    ticks: &[Ticks],
    order: &[Stay],
) -> Result<Told, AllocError>
    requires rising { IsNonDecreasingBy (λ (s : Stay). s.from) order.now }
    requires within { All (λ (s : Stay). (s.from ≤ length journal.now.entries) × (s.cpu < length ticks.now)) order.now }
    requires ticks { (c : ℕ) → c < length ticks.now → slice_get ticks.now c ≡ Some (tick_places journal.now.entries c (length journal.now.entries)) }
    ensures turns { IfOk result (λ told. told.turns.items ≡ map (turn_of journal.now.entries) order.now) }
    ensures known { IfOk result (λ told. AreKnown journal.now.entries (length journal.now.entries) told.threads.items) }
{
    let mut threads = Threads::new(alloc);
    let mut place = 0;
    let mut turns = Vec::with_capacity(alloc, order.len())?;
    for stay in order {
        hear_up_to(&mut threads, journal, place, stay.from)?;
        place = stay.from;
        let ticks = &ticks[stay.cpu as usize];
        turns.push(turn_of(journal, ticks, stay, threads.known(stay.tid)))?;
    }
    hear_up_to(&mut threads, journal, place, journal.len())?;
    Ok(Told {
        turns,
        threads: threads.into_table(),
    })
}

/// Returns the turns of all threads on so many CPUs, in order of the entries that began them, and what is known of each
/// thread behind all entries.
///
/// It walks the entries three times.
///
/// # Errors
///
/// `AllocError` if out of memory.
pub fn turns(alloc: Global, journal: &Journal, cpus: u16) -> Result<Told, AllocError>
    ensures turns { IfOk result (λ told. IsTurns cpus journal.now.entries told.turns.items) }
    ensures known { IfOk result (λ told. AreKnown journal.now.entries (length journal.now.entries) told.threads.items) }
{
    let ticks = ticks_of(alloc, journal, cpus)?;
    let order = stays_in_order(alloc, journal, cpus)?;
    turns_of(alloc, journal, &ticks, &order)
}
