//! Calls of a locked enclave by one thread.

use crate::events::{THREADS, creation, event};
use gs_kernel::LEAST_GENERATION;
use gs_replies::Reply;
use gs_runner::{Command, Pass, Site, Station};
use std::sync::Wait;

/// Serves one command, and returns whether it was done.
fn serve<L: Site, R: Wait>(
    rt: &R,
    station: &Station<L>,
    pass: &mut Pass<L>,
    command: &Command,
) -> bool {
    let mut enclave = station.enclave().lock(rt);
    match &enclave.serve(station.board(), pass.share(), command).reply {
        Reply::Done(_) => true,
        _ => false,
    }
}

/// Creates the threads.
pub(crate) fn create_all<L: Site, R: Wait>(rt: &R, station: &Station<L>, pass: &mut Pass<L>) {
    for _ in 0..THREADS {
        let command = Command::Kernel {
            command: creation(),
        };
        serve(rt, station, pass, &command);
    }
}

/// Serves so many events, and returns how many were done.
pub(crate) fn serve_all<L: Site, R: Wait>(
    rt: &R,
    station: &Station<L>,
    pass: &mut Pass<L>,
    calls: u32,
) -> u64 {
    let mut done: u64 = 0;
    for turn in 0..calls {
        let command = Command::Kernel {
            command: event(turn),
        };
        if serve(rt, station, pass, &command) {
            done = done.wrapping_add(1);
        }
    }
    done
}

/// Reads the board so often, and returns how often it showed the first agent.
pub(crate) fn read_all<L: Site>(station: &Station<L>, pass: &mut Pass<L>, reads: u32) -> u64 {
    let mut seen: u64 = 0;
    for _ in 0..reads {
        if station.board().read(pass.seat()).generation == LEAST_GENERATION {
            seen = seen.wrapping_add(1);
        }
    }
    seen
}
