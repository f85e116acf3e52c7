//! Runs of workers, one after another in one process, so that what a run leaves in memory can be seen.

use gs_workers::{MOST_WORKERS, Shown, Work, run_workers};
use std::alloc::Global;
use std::sync::Wait;
use std::thread::Threads;

/// What each run does.
const WORK: Work = Work {
    workers: MOST_WORKERS,
    each: 100,
};

/// Runs the workers so often, and returns how many runs settled. `None` if one of them did not.
pub(crate) fn run_many<R: Threads + Wait + Sync>(rt: &R, alloc: Global, runs: u32) -> Option<u64> {
    for _ in 0..runs {
        let mut line = Vec::new(alloc);
        run_workers(rt, alloc, WORK, Shown::Line, &mut line).ok()?;
    }
    Some(runs as u64)
}
