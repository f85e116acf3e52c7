ghost use Rattle.std.specs.Prelude.{◌≡◌, ℕ, IfOk, length, map};
ghost use Rattle.std.specs.List.{range_with_len};
ghost use Rattle.gs_usage.specs.Boards.{IsBoard};
ghost use Rattle.gs_usage.specs.Uses.{usage_of};

use crate::board::Board;
use crate::usage::Usage;
use gs_journal::Journal;
use gs_status::MOST_CPUS;
use std::alloc::{AllocError, Global};

/// Returns what is known of the block of CPUs that begins with this one, behind all entries of a journal.
fn walk(alloc: Global, journal: &Journal, first: u16) -> Result<Board, AllocError>
    ensures first { IfOk result (λ board. board.first ≡ first) }
    ensures board { IfOk result (λ board. IsBoard journal.now.entries (length journal.now.entries) board) }
{
    let mut board = Board::new(alloc, journal, first)?;
    for place in 0..journal.len() {
        board.hear(journal, place)?;
    }
    Ok(board)
}

/// Returns what each of so many CPUs was used for.
///
/// It walks the entries once for each [`MOST_CPUS`] of the CPUs. An entry costs about the same however many of these there
/// are: what it changes of all of them is changed at once.
///
/// # Errors
///
/// `AllocError` if out of memory.
pub fn usages(alloc: Global, journal: &Journal, cpus: u16) -> Result<Vec<Usage>, AllocError>
    ensures { IfOk result (λ all. all.items ≡ map (usage_of journal.now.entries) (range_with_len 0 cpus)) }
{
    let mut board = walk(alloc, journal, 0)?;
    let mut all = Vec::with_capacity(alloc, cpus as usize)?;
    for cpu in 0..cpus {
        if cpu - board.first == MOST_CPUS {
            board = walk(alloc, journal, cpu)?;
        }
        all.push(board.usage(journal, cpu - board.first))?;
    }
    Ok(all)
}
