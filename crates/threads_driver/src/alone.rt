//! A kernel by itself: without lock, ledger, board and list of calls.

use crate::events::{CPUS, THREADS, creation, event, parcels};
use gs_kernel::{Executed, Kernel, LEAST_GENERATION, MOST_HISTORY, Settings};
use gs_link::{RtrbPoster, make_ring};
use std::alloc::Global;

/// Creates the threads.
fn create_all(kernel: &mut Kernel<RtrbPoster>) {
    for _ in 0..THREADS {
        let _ = kernel.execute(&creation());
    }
}

/// Tells the kernel so many events, and returns how many it did.
fn execute_all(kernel: &mut Kernel<RtrbPoster>, calls: u32) -> u64 {
    let mut done: u64 = 0;
    for turn in 0..calls {
        if let Ok(Executed::Done) = kernel.execute(&event(turn)) {
            done = done.wrapping_add(1);
        }
    }
    done
}

/// Tells a kernel by itself so many events, and returns how many it did. `None` if they are too many for a ring, or if out
/// of memory.
pub(crate) fn run_alone(alloc: Global, calls: u32) -> Option<u64> {
    let settings = Settings {
        cpus: CPUS,
        first_tseq: 0,
        first_generation: LEAST_GENERATION,
        history: MOST_HISTORY,
    };
    let (poster, _taker) = make_ring(alloc, parcels(1, calls)? as usize).ok()?;
    let mut kernel = Kernel::new(alloc, settings, poster).ok()?;
    create_all(&mut kernel);
    Some(execute_all(&mut kernel, calls))
}
