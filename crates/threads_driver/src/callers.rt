//! Callers in threads of their own.

use crate::calls::serve_all;
use gs_runner::{Pass, Site, Station};
use std::alloc::Global;
use std::sync::Wait;
use std::thread;
use std::thread::Threads;

/// Lets each pass be used by a caller in a thread of its own, who calls so often. Returns how many calls were done,
/// `None` if out of memory or if a thread could not be started.
pub(crate) fn call_all<L: Site + Send + Sync, R: Threads + Wait + Sync>(
    rt: &R,
    alloc: Global,
    station: &Station<L>,
    passes: &mut [Pass<L>],
    calls: u32,
) -> Option<u64> {
    let mut counts = vec![in alloc; 0u64; passes.len()].ok()?;
    let begun = start_all(rt, station, passes, counts.as_mut_slice(), calls);
    let mut sum: u64 = 0;
    for count in &counts {
        sum = sum.wrapping_add(*count);
    }
    begun.then_some(sum)
}

/// Starts a thread for each pass and waits for all of them. Each counts its calls that were done. Returns whether all
/// threads began.
fn start_all<L: Site + Send + Sync, R: Threads + Wait + Sync>(
    rt: &R,
    station: &Station<L>,
    passes: &mut [Pass<L>],
    counts: &mut [u64],
    calls: u32,
) -> bool {
    thread::scope(thread::scope_env(), rt, |scope| {
        let mut all = true;
        for (pass, count) in passes.iter_mut().zip(counts.iter_mut()) {
            let begun = scope
                .spawn(move || *count = serve_all(rt, station, pass, calls))
                .is_ok();
            all = all && begun;
        }
        all
    })
}
