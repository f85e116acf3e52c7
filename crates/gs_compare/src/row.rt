//! The rows of a table.

ghost use Rattle.std.specs.Prelude.{◌≡◌, ◌++◌, IfOk, OnOk, map};
ghost use Rattle.std.specs.List.{AllZip};
ghost use Rattle.gs_compare.specs.Columns.{least_of, median_of, most_of};
ghost use Rattle.gs_compare.specs.Rows.{AreRows, IsCell, IsRow, class_keys, has_threads, key_of, keys_of, part_is_some};

use crate::measure::{CLASS_MEASURES, Key, Measure};
use crate::measured::Measured;
use crate::summary::{Summary, summary_of};
use gs_layout::Class;
use gs_script::NamedPolicy;
use std::alloc::{AllocError, Global};

/// What was measured of a policy, a run for each seed.
#[derive(Drop)]
pub(crate) struct Column<P> {
    pub(crate) policy: P,
    pub(crate) runs: Vec<Measured>,
}

/// What a measure came to under a policy, over all seeds.
#[derive(Clone, Copy, PartialEq, Eq, Debug)]
pub(crate) struct Cell<P> {
    pub(crate) policy: P,
    /// Of the seeds by which the measure has a value, if there is one.
    pub(crate) summary: Option<Summary>,
}

impl<P> Cell<P> {
    /// Returns the least of the values.
    pub(crate) fn least(&self) -> Option<usize>
        ensures { result ≡ least_of self.now.summary }
    {
        Some(self.summary?.least)
    }

    /// Returns the median of the values.
    pub(crate) fn median(&self) -> Option<usize>
        ensures { result ≡ median_of self.now.summary }
    {
        Some(self.summary?.median)
    }

    /// Returns the greatest of the values.
    pub(crate) fn most(&self) -> Option<usize>
        ensures { result ≡ most_of self.now.summary }
    {
        Some(self.summary?.most)
    }
}

/// What a measure came to under each policy.
#[derive(Drop)]
pub(crate) struct Row<P> {
    pub(crate) key: Key,
    pub(crate) cells: Vec<Cell<P>>,
}

/// Returns whether a thread of a class was created in some of these runs.
fn part_is_some(class: Class, runs: &[Measured]) -> bool
    ensures { result ≡ part_is_some class runs.now }
{
    runs.iter().any(|run| run.part(class).is_some())
}

/// Returns whether a thread of a class was created in some run.
fn has_threads<P>(class: Class, columns: &[Column<P>]) -> bool
    ensures { result ≡ has_threads class columns.now }
{
    columns
        .iter()
        .any(|column| part_is_some(class, &column.runs))
}

/// Adds what the rows of these measures of a class tell of.
fn add_measures(keys: &mut Vec<Key>, class: Class, measures: &[Measure]) -> Result<(), AllocError>
    ensures { OnOk result (keys.new.items ≡ keys.old.items ++ map (key_of class) measures.now) }
{
    for measure in measures {
        keys.push(Key {
            class: Some(class),
            measure: *measure,
        })?;
    }
    Ok(())
}

/// Adds what the rows of a class tell of, if it has rows.
fn add_class<P>(keys: &mut Vec<Key>, class: Class, columns: &[Column<P>]) -> Result<(), AllocError>
    ensures { OnOk result (keys.new.items ≡ keys.old.items ++ class_keys class columns.now) }
{
    if !has_threads(class, columns) {
        return Ok(());
    }
    add_measures(keys, class, &CLASS_MEASURES)
}

/// Returns what the rows of a table tell of.
fn keys_of<P>(alloc: Global, columns: &[Column<P>]) -> Result<Vec<Key>, AllocError>
    ensures { IfOk result (λ keys. keys.items ≡ keys_of columns.now) }
{
    let mut keys = Vec::new(alloc);
    add_class(&mut keys, Class::Zero, columns)?;
    add_class(&mut keys, Class::One, columns)?;
    keys.push(Key {
        class: None,
        measure: Measure::IdleWanted,
    })?;
    Ok(keys)
}

/// Returns what a measure came to under the policy of a column.
fn cell_of<P: NamedPolicy>(
    alloc: Global,
    key: Key,
    column: &Column<P>,
) -> Result<Cell<P>, AllocError>
    ensures { IfOk result (λ cell. IsCell key column.now cell) }
{
    Ok(Cell {
        policy: column.policy,
        summary: summary_of(alloc, key, &column.runs)?,
    })
}

/// Returns what a measure came to under each policy.
fn cells_of<P: NamedPolicy>(
    alloc: Global,
    key: Key,
    columns: &[Column<P>],
) -> Result<Vec<Cell<P>>, AllocError>
    ensures { IfOk result (λ cells. AllZip (IsCell key) columns.now cells.items) }
{
    let mut cells = Vec::new(alloc);
    for column in columns {
        let cell = cell_of(alloc, key, column)?;
        cells.push(cell)?;
    }
    Ok(cells)
}

/// Returns a row of a table.
fn row_of<P: NamedPolicy>(
    alloc: Global,
    key: Key,
    columns: &[Column<P>],
) -> Result<Row<P>, AllocError>
    ensures { IfOk result (λ row. IsRow columns.now key row) }
{
    Ok(Row {
        key,
        cells: cells_of(alloc, key, columns)?,
    })
}

/// Returns the rows of these things to tell of.
fn rows_for<P: NamedPolicy>(
    alloc: Global,
    keys: &[Key],
    columns: &[Column<P>],
) -> Result<Vec<Row<P>>, AllocError>
    ensures { IfOk result (λ rows. AllZip (IsRow columns.now) keys.now rows.items) }
{
    let mut rows = Vec::new(alloc);
    for key in keys {
        let row = row_of(alloc, *key, columns)?;
        rows.push(row)?;
    }
    Ok(rows)
}

/// Returns the rows of a table: those of each class of which a thread was created, and behind them those of the machine.
///
/// # Errors
///
/// `AllocError` if out of memory.
pub(crate) fn rows_of<P: NamedPolicy>(
    alloc: Global,
    columns: &[Column<P>],
) -> Result<Vec<Row<P>>, AllocError>
    ensures { IfOk result (λ rows. AreRows columns.now rows.items) }
{
    let keys = keys_of(alloc, columns)?;
    rows_for(alloc, &keys, columns)
}
