//! A table as comma-separated fields: a record for each measure and policy.

ghost use Rattle.std.specs.Prelude.{◌≡◌, ◌++◌, IfOk, OnOk, map};
ghost use Rattle.std.specs.List.{flat_map};
ghost use Rattle.gs_compare.specs.Records.{cell_record, class_field, header_fields, number_field, record_text, records_text, row_records};

use crate::measure::Key;
use crate::row::{Cell, Row};
use csv::WriterBuilder;
use gs_layout::Class;
use gs_script::NamedPolicy;
use itoa::Buffer;
use std::alloc::{AllocError, Global};

/// Returns the text of a record.
fn record_of(alloc: Global, fields: &[&[u8]]) -> Result<Vec<u8>, AllocError>
    ensures { IfOk result (λ bytes. bytes.items ≡ record_text (map (λ f. f.now) fields.now)) }
{
    let mut writer = WriterBuilder::new().from_writer(Vec::new(alloc));
    if writer.write_fields(fields).is_err() {
        return Err(AllocError);
    }
    match writer.into_inner() {
        Ok(bytes) => Ok(bytes),
        Err(_) => Err(AllocError),
    }
}

/// Adds a record.
fn push_record(alloc: Global, out: &mut Vec<u8>, fields: &[&[u8]]) -> Result<(), AllocError>
    ensures { OnOk result (out.new.items ≡ out.old.items ++ record_text (map (λ f. f.now) fields.now)) }
{
    let bytes = record_of(alloc, fields)?;
    out.extend_from_slice(&bytes)
}

/// Adds the names of the fields.
fn push_header(alloc: Global, out: &mut Vec<u8>) -> Result<(), AllocError>
    ensures { OnOk result (out.new.items ≡ out.old.items ++ record_text header_fields) }
{
    push_record(
        alloc,
        out,
        &[
            b"policy", b"class", b"measure", b"seeds", b"median", b"least", b"most",
        ],
    )
}

/// Returns the number of a class, or nothing for the whole machine.
fn class_field(class: Option<Class>) -> &'static str
    ensures { result.now ≡ class_field class }
{
    match class {
        Some(Class::Zero) => "0",
        Some(Class::One) => "1",
        None => "",
    }
}

/// Returns a number, or nothing for none.
fn number_field(buffer: &mut Buffer, number: Option<usize>) -> &str
    ensures { result.now ≡ number_field number }
{
    match number {
        Some(number) => buffer.format(number),
        None => "",
    }
}

/// Adds what a measure came to under a policy, over so many seeds.
fn push_cell<P: NamedPolicy>(
    alloc: Global,
    out: &mut Vec<u8>,
    seeds: usize,
    key: Key,
    cell: &Cell<P>,
) -> Result<(), AllocError>
    ensures { OnOk result (out.new.items ≡ out.old.items ++ cell_record P.naming seeds key cell.now) }
{
    let words = cell.policy.words(alloc)?;
    let mut first = Buffer::new();
    let mut second = Buffer::new();
    let mut third = Buffer::new();
    let mut fourth = Buffer::new();
    let policy = words.as_bytes();
    let seeds = number_field(&mut first, Some(seeds)).as_bytes();
    let median = number_field(&mut second, cell.median()).as_bytes();
    let least = number_field(&mut third, cell.least()).as_bytes();
    let most = number_field(&mut fourth, cell.most()).as_bytes();
    push_record(
        alloc,
        out,
        &[
            policy,
            class_field(key.class).as_bytes(),
            key.measure.name().as_bytes(),
            seeds,
            median,
            least,
            most,
        ],
    )
}

/// Adds what a measure came to under each policy.
fn push_cells<P: NamedPolicy>(
    alloc: Global,
    out: &mut Vec<u8>,
    seeds: usize,
    key: Key,
    cells: &[Cell<P>],
) -> Result<(), AllocError>
    ensures { OnOk result (out.new.items ≡ out.old.items ++ flat_map (cell_record P.naming seeds key) cells.now) }
{
    for cell in cells {
        push_cell(alloc, out, seeds, key, cell)?;
    }
    Ok(())
}

/// Adds what the measure of a row came to under each policy.
fn push_row<P: NamedPolicy>(
    alloc: Global,
    out: &mut Vec<u8>,
    seeds: usize,
    row: &Row<P>,
) -> Result<(), AllocError>
    ensures { OnOk result (out.new.items ≡ out.old.items ++ row_records P.naming seeds row.now) }
{
    push_cells(alloc, out, seeds, row.key, &row.cells)
}

/// Returns a table as comma-separated fields, of so many seeds.
///
/// # Errors
///
/// `AllocError` if out of memory.
pub(crate) fn records_of<P: NamedPolicy>(
    alloc: Global,
    seeds: usize,
    rows: &[Row<P>],
) -> Result<Vec<u8>, AllocError>
    ensures { IfOk result (λ bytes. bytes.items ≡ records_text P.naming seeds rows.now) }
{
    let mut out = Vec::new(alloc);
    push_header(alloc, &mut out)?;
    for row in rows {
        push_row(alloc, &mut out, seeds, row)?;
    }
    Ok(out)
}
