//! A workload, read from the bytes of a text.
ghost use Rattle.std.specs.Prelude.{◌≡◌, Some, None, IfOk, IfErr, OnOk, IsUtf8};
ghost use Rattle.toml.specs.Data.{Members};
ghost use Rattle.toml.specs.Errors.{IsMemory};
ghost use Rattle.toml.specs.Parse.{parse_document};
ghost use Rattle.toml.specs.View.{table_view};
ghost use Rattle.gs_workload.specs.Read.{IsFailureOf, IsFaultOf, IsHint, IsSaid, IsTextFault, Says};
ghost use Rattle.gs_workload.specs.Unknown.{seen, stray_said};
ghost use Rattle.gs_workload.specs.Workload.{IsWorkload};

use crate::fault::{Failure, WorkloadFault};
use crate::machine::workload;
use crate::place::{line_at, line_of};
use crate::unknown::{Unknown, find_unknown, known};
use crate::workload::Workload;
use gs_hints::nearest;
use gs_script::{MOST_BYTES, NamedPolicy};
use std::alloc::{AllocError, Global};
use toml::Table;
use toml::de::Error;

/// The longest key that one is looked for that was meant.
const LONGEST: usize = 40;

/// Returns the key that was probably meant by an unknown one.
fn meant(alloc: Global, unknown: Unknown<'_>) -> Result<Option<&'static str>, AllocError>
    ensures { IfOk result (IsHint unknown.entry.part unknown.entry.key.now) }
{
    if unknown.key.len() > LONGEST {
        return Ok(None);
    }
    nearest(alloc, unknown.key, known(unknown.part))
}

/// The fault of a document with an unknown key.
fn unknown_key<P: NamedPolicy>(
    alloc: Global,
    text: &[u8],
    unknown: Unknown<'_>,
) -> Result<WorkloadFault, AllocError>
    ensures { (t : Members) → stray_said t ≡ Some (seen unknown.entry) → IfOk result (λ fault. IsFaultOf P.naming t fault) }
{
    let line = line_of(text, unknown.part, unknown.key);
    let key = String::from_str(alloc, unknown.key)?;
    let meant = meant(alloc, unknown)?;
    Ok(WorkloadFault::UnknownKey { line, key, meant })
}

/// Tests that a document has no unknown key.
fn check_keys<P: NamedPolicy>(
    alloc: Global,
    text: &[u8],
    table: &Table,
) -> Result<(), WorkloadFault>
    ensures known { OnOk result (stray_said (table_view table.now) ≡ None) }
    ensures fault { IfErr result (λ fault. IsFaultOf P.naming (table_view table.now) fault) }
{
    let Some(unknown) = find_unknown(table) else {
        return Ok(());
    };
    let fault = unknown_key::<P>(alloc, text, unknown)?;
    Err(fault)
}

/// The fault of a document whose values were not read.
fn unread<P: NamedPolicy>(text: &[u8], failure: Failure) -> WorkloadFault
    ensures { (t : Members) → stray_said t ≡ None → IsFailureOf P.naming t failure → IsFaultOf P.naming t result }
{
    match failure {
        Failure::Wrong(wrong) => WorkloadFault::Wrong {
            line: line_of(text, wrong.part, wrong.key.word()),
            wrong,
            policies: P::forms(),
        },
        Failure::OutOfMemory => WorkloadFault::OutOfMemory,
    }
}

/// Reads the workload that a document says.
fn read_table<P: NamedPolicy>(
    alloc: Global,
    text: &[u8],
    table: &Table,
) -> Result<Workload<P>, WorkloadFault>
    ensures said { IfOk result (λ workload. IsSaid P.naming (table_view table.now) workload) }
    ensures fits { IfOk result (λ workload. IsWorkload P.naming workload) }
    ensures fault { IfErr result (λ fault. IsFaultOf P.naming (table_view table.now) fault) }
{
    check_keys::<P>(alloc, text, table)?;
    match workload(alloc, table) {
        Ok(workload) => Ok(workload),
        Err(failure) => Err(unread::<P>(text, failure)),
    }
}

/// The fault of a text that is not one of TOML.
fn no_toml<P: NamedPolicy>(text: &[u8], error: Error) -> WorkloadFault
    requires { ¬ IsMemory error → IsUtf8 text.now → parse_document text.now ≡ None }
    ensures { IsTextFault P.naming text.now result }
{
    match error.span() {
        Some(span) => WorkloadFault::NotToml {
            line: line_at(text, span.start),
            error,
        },
        None => WorkloadFault::OutOfMemory,
    }
}

/// Reads the workload that the bytes of a text say, which are TOML.
///
/// # Errors
///
/// The first of these. `TooLong` if there are more bytes than a script may have, [`MOST_BYTES`]. `NotToml` if they are not TOML. `UnknownKey` if a
/// table has a key that is not one of its own. `Wrong` if a key is missing, or its value is of another kind or out of
/// its range: the first such key, in the order of specs/Machine.antt and specs/Rows.antt. Or out of memory.
pub fn read_workload<P: NamedPolicy>(
    alloc: Global,
    text: &[u8],
) -> Result<Workload<P>, WorkloadFault>
    ensures said { IfOk result (λ workload. Says P.naming text.now workload) }
    ensures fits { IfOk result (λ workload. IsWorkload P.naming workload) }
    ensures fault { IfErr result (λ fault. IsTextFault P.naming text.now fault) }
{
    if text.len() > MOST_BYTES {
        return Err(WorkloadFault::TooLong);
    }
    match toml::table_from_slice(alloc, text) {
        Ok(table) => read_table(alloc, text, &table),
        Err(error) => Err(no_toml::<P>(text, error)),
    }
}
