//! A run of lists beside a shift that drains in batches.

use crate::lists::{Crowd, Size, Work, make_lists};
use crate::paced::{AHEAD, BATCH, Paced};
use crate::timed::Timed;
use gs_journal::Journal;
use gs_policy::FirstCome;
use gs_runner::{Command, Finished, ReceiptRef, Receipts, Shift, Step};
use std::alloc::{AllocError, Global};
use std::rt::Clock;
use std::sync::Wait;
use std::thread::Threads;
use std::time::Instant;

/// How many parcels the ring has: there is room for the messages of all batches that may be begun before one is taken in.
const PARCELS: u32 = AHEAD * BATCH;

/// Returns how many batches of calls the lists have.
fn batches(lists: &[Vec<Command>]) -> usize {
    let mut sum: usize = 0;
    for list in lists {
        sum = sum.wrapping_add(list.len() / BATCH as usize);
    }
    sum
}

/// A shift that drains so often, a batch at a time.
fn make_shift(alloc: Global, drains: usize) -> Result<Shift<FirstCome>, AllocError> {
    let mut steps = Vec::with_capacity(alloc, drains)?;
    for _ in 0..drains {
        steps.push(Step::Drain { max: BATCH })?;
    }
    Ok(Shift { steps })
}

fn prepare(alloc: Global, size: Size) -> Result<Work, AllocError> {
    let lists = make_lists(alloc, Crowd::All, size)?;
    let shift = make_shift(alloc, batches(lists.as_slice()))?;
    Work::new(alloc, lists, shift)
}

/// Returns how many of these commands were done.
fn done(journal: &Journal, receipts: &Receipts) -> u64 {
    let mut done: u64 = 0;
    for index in 0..receipts.len() {
        if let Some(ReceiptRef::Done { .. }) = receipts.get(journal, index) {
            done = done.wrapping_add(1);
        }
    }
    done
}

/// Returns how many commands of all threads were done.
fn all_done(finished: &Finished) -> u64 {
    let mut sum: u64 = 0;
    for receipts in &finished.receipts {
        sum = sum.wrapping_add(done(finished.closed.journal(), receipts));
    }
    sum
}

/// Runs the lists in threads of their own beside a shift that drains. `None` if out of memory, if the run did
/// not settle, if not all threads were created, or if there is no clock.
pub(crate) fn run_lists<R: Threads + Wait + Clock + Sync>(
    rt: &R,
    alloc: Global,
    size: Size,
) -> Option<Timed> {
    let work = prepare(alloc, size).ok()?;
    let gate = Paced::new(rt, size.lists as usize);
    let start = Instant::now(rt).ok()?;
    let finished = work.run(rt, alloc, PARCELS, &gate)?;
    Timed::since(rt, start, all_done(&finished))
}
