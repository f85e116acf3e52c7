//! A table as JSON: an object for each measure and policy, one a line.

ghost use Rattle.std.specs.Prelude.{◌≡◌, ◌++◌, IfOk, OnOk};
ghost use Rattle.std.specs.List.{flat_map};
ghost use Rattle.serde_json.specs.Data.{string};
ghost use Rattle.serde_json.specs.View.{view};
ghost use Rattle.gs_compare.specs.Objects.{cell_data, cell_object, class_data, number_data, objects_text, row_objects};

use crate::measure::Key;
use crate::row::{Cell, Row};
use gs_layout::Class;
use gs_lines::Text;
use gs_script::NamedPolicy;
use serde_json::{Value, json};
use std::alloc::{AllocError, Global};

/// Returns a class as JSON: its number, or null for the whole machine.
fn class_value(class: Option<Class>) -> Value
    ensures { view result ≡ class_data class }
{
    match class {
        Some(Class::Zero) => Value::from(0_usize),
        Some(Class::One) => Value::from(1_usize),
        None => Value::Null,
    }
}

/// Returns a number as JSON, or null for none.
fn number_value(number: Option<usize>) -> Value
    ensures { view result ≡ number_data number }
{
    match number {
        Some(number) => Value::from(number),
        None => Value::Null,
    }
}

/// Returns the words of a policy as JSON.
fn policy_value<P: NamedPolicy>(alloc: Global, policy: &P) -> Result<Value, AllocError>
    ensures { IfOk result (λ value. view value ≡ string (P.naming.words policy.now)) }
{
    let words = policy.words(alloc)?;
    Value::try_from_str(alloc, words.as_str())
}

/// Returns what a measure came to under a policy as JSON.
fn cell_value<P: NamedPolicy>(
    alloc: Global,
    seeds: usize,
    key: Key,
    cell: &Cell<P>,
) -> Result<Value, AllocError>
    ensures { IfOk result (λ value. view value ≡ cell_data P.naming seeds key cell.now) }
{
    let measure = Value::try_from_str(alloc, key.measure.name())?;
    let policy = policy_value(alloc, &cell.policy)?;
    json!(in alloc; {
        "class": class_value(key.class),
        "least": number_value(cell.least()),
        "measure": measure,
        "median": number_value(cell.median()),
        "most": number_value(cell.most()),
        "policy": policy,
        "seeds": seeds,
    })
}

/// Adds what a measure came to under a policy as a line.
fn push_cell<P: NamedPolicy>(
    alloc: Global,
    out: &mut Text,
    seeds: usize,
    key: Key,
    cell: &Cell<P>,
) -> Result<(), AllocError>
    ensures { OnOk result (out.new ≡ out.old ++ cell_object P.naming seeds key cell.now) }
{
    let value = cell_value(alloc, seeds, key, cell)?;
    out.push_str(&value.to_string(alloc)?)?;
    out.end_line()
}

/// Adds what a measure came to under each policy.
fn push_cells<P: NamedPolicy>(
    alloc: Global,
    out: &mut Text,
    seeds: usize,
    key: Key,
    cells: &[Cell<P>],
) -> Result<(), AllocError>
    ensures { OnOk result (out.new ≡ out.old ++ flat_map (cell_object P.naming seeds key) cells.now) }
{
    for cell in cells {
        push_cell(alloc, out, seeds, key, cell)?;
    }
    Ok(())
}

/// Adds what the measure of a row came to under each policy.
fn push_row<P: NamedPolicy>(
    alloc: Global,
    out: &mut Text,
    seeds: usize,
    row: &Row<P>,
) -> Result<(), AllocError>
    ensures { OnOk result (out.new ≡ out.old ++ row_objects P.naming seeds row.now) }
{
    push_cells(alloc, out, seeds, row.key, &row.cells)
}

/// Returns a table as JSON, of so many seeds.
///
/// # Errors
///
/// `AllocError` if out of memory.
pub(crate) fn objects_of<P: NamedPolicy>(
    alloc: Global,
    seeds: usize,
    rows: &[Row<P>],
) -> Result<Vec<u8>, AllocError>
    ensures { IfOk result (λ bytes. bytes.items ≡ objects_text P.naming seeds rows.now) }
{
    let mut out = Text::new(alloc);
    for row in rows {
        push_row(alloc, &mut out, seeds, row)?;
    }
    Ok(out.into_bytes())
}
