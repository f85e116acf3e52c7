//! Letting an index hear the entries that an event added, up to where a landing is to be explained.

ghost use Rattle.std.specs.Prelude.{◌≡◌, ◌+◌, ◌<◌, ◌≤◌, IfOk, OnOk, drop, length, take};
ghost use Rattle.gs_reasons.specs.Kept.{HasHeard};
ghost use Rattle.gs_explain.specs.Landings.{after_landing, is_placing, steps_to_placing};

use gs_journal::{Entry, Journal};
use gs_layout::Outcome;
use gs_reasons::Index;
use std::alloc::AllocError;

/// Returns whether an entry places a thread.
fn is_placing(entry: &Entry) -> bool
    ensures { result ≡ is_placing entry.now }
{
    matches!(entry, Entry::Placed { .. })
}

/// Lets an index hear the next entry.
fn hear_next(index: &mut Index, journal: &Journal, heard: usize) -> Result<(), AllocError>
    requires within { heard < length journal.now.entries }
    requires heard { HasHeard index.old (take heard journal.now.entries) }
    ensures { OnOk result (HasHeard index.new (take (heard + 1) journal.now.entries)) }
{
    index.hear(heard, &journal.entry(heard))
}

/// Lets an index hear all entries, of which it heard so many.
pub(crate) fn hear_all(index: &mut Index, journal: &Journal, heard: usize) -> Result<(), AllocError>
    requires within { heard ≤ length journal.now.entries }
    requires heard { HasHeard index.old (take heard journal.now.entries) }
    ensures { OnOk result (HasHeard index.new journal.now.entries) }
{
    let mut n = heard;
    while n < journal.len() {
        hear_next(index, journal, n)?;
        n += 1;
    }
    Ok(())
}

/// Lets an index hear the entries up to the next placing, that one with them, or all if there is none. Returns how
/// many it has heard then.
#[tactic(auto, using(crate::proofs::Heard::placing_here, crate::proofs::Heard::placing_later, crate::proofs::Heard::placing_never))]
fn hear_placing(index: &mut Index, journal: &Journal, heard: usize) -> Result<usize, AllocError>
    requires within { heard ≤ length journal.now.entries }
    requires heard { HasHeard index.old (take heard journal.now.entries) }
    ensures count { IfOk result (λ n. n ≡ heard + steps_to_placing (drop heard journal.now.entries)) }
    ensures within { IfOk result (λ n. n ≤ length journal.now.entries) }
    ensures heard { IfOk result (λ n. HasHeard index.new (take n journal.now.entries)) }
{
    let mut n = heard;
    while n < journal.len() {
        hear_next(index, journal, n)?;
        if is_placing(&journal.entry(n)) {
            return Ok(n + 1);
        }
        n += 1;
    }
    Ok(n)
}

/// Lets an index hear what there is once a transaction has landed so, and returns how many entries that are.
pub(crate) fn hear_landing(
    index: &mut Index,
    journal: &Journal,
    heard: usize,
    outcome: Outcome,
) -> Result<usize, AllocError>
    requires within { heard ≤ length journal.now.entries }
    requires heard { HasHeard index.old (take heard journal.now.entries) }
    ensures count { IfOk result (λ n. n ≡ after_landing outcome journal.now.entries heard) }
    ensures within { IfOk result (λ n. n ≤ length journal.now.entries) }
    ensures heard { IfOk result (λ n. HasHeard index.new (take n journal.now.entries)) }
{
    match outcome {
        Outcome::Placed => hear_placing(index, journal, heard),
        Outcome::Gone => {
            hear_all(index, journal, heard)?;
            Ok(journal.len())
        }
        _ => Ok(heard),
    }
}
