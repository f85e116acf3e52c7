//! What is said on standard error while a task is done.

use crate::asked::Task;
use gs_compare::Progress;
use gs_faults::explain;
use gs_script::NamedPolicy;
use gs_serve::Prompt;
use gs_trace::{Ended, Kept};
use std::alloc::Global;
use std::io::IsTerminal;
use std::time::CpuClock;

/// Says that a script or a workload is awaited, if a terminal is to give one.
pub(crate) fn await_input<P, H: Eprint>(rt: &H, task: &Task<'_, P>, is_terminal: bool) {
    let awaited = match task {
        Task::Script { .. } => "script",
        Task::Simulation { .. } | Task::Comparison { .. } => "workload",
        Task::Serve { .. } | Task::Workers { .. } => return,
    };
    if is_terminal {
        let _ = eprintln!(rt;
            "ghost: a {awaited} is awaited on standard input, which ends with Ctrl-D; `ghost help` says more"
        );
    }
}

/// What asks for lines on standard error, if a terminal is to give them.
#[derive(Drop)]
pub(crate) struct Asking<'a, H> {
    pub(crate) rt: &'a H,
    pub(crate) is_terminal: bool,
}

impl<H: Eprint> Prompt for Asking<'_, H> {
    fn ask(&self) {
        if self.is_terminal {
            let _ = eprint!(self.rt; "> ");
        }
    }
}

/// What is known of who reads standard error.
pub trait Watched {
    /// Returns whether a terminal shows it.
    fn is_watched(&self) -> bool;
}

impl Watched for HostRuntime {
    fn is_watched(&self) -> bool {
        self.stderr().is_terminal()
    }
}

/// So many seconds the program works before it says how far it is.
const SHOWN_AFTER: u64 = 1;

/// What says on standard error how far a comparison is, if a terminal shows it and the program has worked for a second.
#[derive(Drop)]
pub(crate) struct Counting<'a, H> {
    pub(crate) rt: &'a H,
}

impl<H: Eprint + CpuClock + Watched> Progress for Counting<'_, H> {
    fn tell(&self, done: usize, all: usize) {
        if !self.rt.is_watched() {
            return;
        }
        match self.rt.process_cpu_time() {
            Ok(time) if time.as_secs() >= SHOWN_AFTER => {
                let _ = if done < all {
                    eprint!(self.rt; "\r{done} of {all} simulations")
                } else {
                    eprint!(self.rt; "\r\x1b[K")
                };
            }
            _ => {}
        }
    }
}

/// Says what is wrong with a script, if it has a fault. Nothing is said if out of memory.
pub(crate) fn tell_fault<P: NamedPolicy, H: Eprint>(rt: &H, alloc: Global, kept: &Kept) {
    if kept.ended == Ended::Ran {
        return;
    }
    if let Ok(Some(text)) = explain::<P>(alloc, kept.input.as_slice()) {
        let _ = eprint!(rt; "{text}");
    }
}
