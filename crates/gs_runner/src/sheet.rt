//! What the threads of a run leave.

ghost use Rattle.std.specs.Prelude.{◌≡◌, IfOk, vec_len};

use crate::receipts::Receipts;
use std::alloc::{AllocError, Global};

/// What a list's or a shift's thread leaves.
#[derive(Drop)]
pub(crate) struct Sheet {
    /// A receipt for each of its calls, in order.
    pub receipts: Receipts,
    /// Whether it came to its end.
    pub done: bool,
}

/// Makes an empty sheet for each thread.
pub(crate) fn make_sheets(alloc: Global, count: usize) -> Result<Vec<Sheet>, AllocError>
    ensures { IfOk result (λ v. vec_len v ≡ count) }
{
    let mut sheets = Vec::with_capacity(alloc, count)?;
    for _ in 0..count {
        sheets.push_reserved(Sheet {
            receipts: Receipts::new(alloc),
            done: false,
        });
    }
    Ok(sheets)
}

/// Returns whether each thread came to its end.
pub(crate) fn all_done(sheets: &[Sheet]) -> bool {
    sheets.iter().all(|sheet| sheet.done)
}

/// Returns the receipts of all sheets, in order.
pub(crate) fn receipts_of(alloc: Global, sheets: Vec<Sheet>) -> Result<Vec<Receipts>, AllocError>
    ensures { IfOk result (λ v. vec_len v ≡ vec_len sheets) }
{
    let mut all = Vec::with_capacity(alloc, sheets.len())?;
    for Sheet { receipts, done: _ } in sheets {
        all.push(receipts)?;
    }
    Ok(all)
}
