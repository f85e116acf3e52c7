//! The events: a thread is told its mask anew.

use gs_kernel::{Command, LEAST_GENERATION, MOST_HISTORY, ThreadEvent};
use gs_layout::{Class, Facts, Name};
use gs_policy::FirstCome;
use gs_replies::Config;
use gs_runner::MOST_PARCELS;
use gs_status::Mask;

/// How many CPUs there are.
pub(crate) const CPUS: u16 = 4;

/// How many threads there are.
pub(crate) const THREADS: u32 = 64;

/// A prime, so that its multiples pass through all threads.
const STRIDE: u32 = 2_654_435_761;

/// The CPUs of all threads: all but the first, which is the agent's.
fn others() -> Mask {
    Mask::new(14)
}

/// What an enclave is opened with. Only the machine has the ring of bytes, the largest one: between threads there are
/// parcels.
pub(crate) fn config() -> Config<FirstCome> {
    Config {
        cpus: CPUS,
        ring: 1_048_576,
        first_tseq: 0,
        first_generation: LEAST_GENERATION,
        history: MOST_HISTORY,
        policy: FirstCome,
    }
}

/// A thread is created.
pub(crate) fn creation() -> Command {
    Command::Create {
        facts: Facts {
            mask: others(),
            runnable: true,
            class: Class::Zero,
            name: Name::new(b"a").unwrap(),
        },
    }
}

/// A thread is told its mask anew.
pub(crate) fn told(tid: u32) -> Command {
    Command::Thread {
        tid,
        event: ThreadEvent::Affinity { mask: others() },
    }
}

/// The event of a turn: one of the threads is told its mask anew.
pub(crate) fn event(turn: u32) -> Command {
    told(turn.wrapping_mul(STRIDE) % THREADS + 1)
}

/// How many parcels there have to be for the messages of all creations and of so many events of so many callers, none of
/// which is taken. `None` if that is more than a ring may have.
pub(crate) fn parcels(callers: u32, calls: u32) -> Option<u32> {
    let parcels = callers.checked_mul(calls)?.checked_add(THREADS)?;
    (parcels <= MOST_PARCELS).then_some(parcels)
}
