ghost use Rattle.std.specs.Prelude.{◌≡◌, ◌≤◌, OnOk, length, take};
ghost use Rattle.gs_explain.specs.Marked.{IsMarked};

use gs_core::Transaction;
use gs_reasons::Marks;
use std::alloc::AllocError;

/// Marks for each CPU the last transaction, among those from a place on. Those before it are marked. Most events stamp nothing, and then
/// nothing is called.
#[inline(always)]
#[tactic(auto, using(crate::proofs::Lasting::all_marked))]
pub(crate) fn mark_last(
    last: &mut Marks,
    transactions: &[Transaction],
    from: usize,
) -> Result<(), AllocError>
    requires within { from ≤ length transactions.now }
    requires marked { IsMarked last.old.places.items (take from transactions.now) }
    ensures { OnOk result (IsMarked last.new.places.items transactions.now) }
{
    if from == transactions.len() {
        return Ok(());
    }
    mark_more(last, transactions, from)
}

/// Does the same, one transaction after another.
#[inline(never)]
#[tactic(auto, using(crate::proofs::Lasting::all_marked))]
fn mark_more(last: &mut Marks, transactions: &[Transaction], from: usize) -> Result<(), AllocError>
    requires within { from ≤ length transactions.now }
    requires marked { IsMarked last.old.places.items (take from transactions.now) }
    ensures { OnOk result (IsMarked last.new.places.items transactions.now) }
{
    let mut n = from;
    while n < transactions.len() {
        last.set_if(true, transactions[n].cpu as u32, n)?;
        n += 1;
    }
    Ok(())
}
