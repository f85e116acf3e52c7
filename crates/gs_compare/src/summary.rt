//! What a measure came to over several runs.

ghost use Rattle.std.specs.Prelude.{◌≡◌, ◌<◌, IfOk, length};
ghost use Rattle.gs_compare.specs.Summaries.{IsSummary, IsSummaryIn, values_of};

use crate::measure::Key;
use crate::measured::Measured;
use std::alloc::{AllocError, Global};

/// What a measure came to over several runs.
#[derive(Clone, Copy, PartialEq, Eq, Debug)]
pub(crate) struct Summary {
    pub(crate) least: usize,
    /// The middle one, or the lower of two.
    pub(crate) median: usize,
    pub(crate) most: usize,
}

/// Returns the values of a measure, of those runs in which it has one.
fn values_of(alloc: Global, key: Key, runs: &[Measured]) -> Result<Vec<usize>, AllocError>
    ensures { IfOk result (λ values. values.items ≡ values_of key runs.now) }
{
    runs.iter().filter_map(|run| run.value(key)).collect(alloc)
}

/// Returns what numbers come to that rise.
fn summary_in(rising: &[usize]) -> Summary
    requires { 0 < length rising.now }
    ensures { IsSummaryIn rising.now result }
{
    let last = rising.len() - 1;
    Summary {
        least: rising[0],
        median: rising[last / 2],
        most: rising[last],
    }
}

/// Returns what a measure came to over runs, or none, if it has a value in none of them.
///
/// # Errors
///
/// `AllocError` if out of memory.
pub(crate) fn summary_of(
    alloc: Global,
    key: Key,
    runs: &[Measured],
) -> Result<Option<Summary>, AllocError>
    ensures { IfOk result (IsSummary (values_of key runs.now)) }
{
    let mut values = values_of(alloc, key, runs)?;
    if values.is_empty() {
        return Ok(None);
    }
    values.sort()?;
    Ok(Some(summary_in(&values)))
}
