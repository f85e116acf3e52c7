use gs_slots::Flags;
use gs_status::Mask;

/// What an agent's thread does. A step that role or slots refuse is passed over.
#[derive(Clone, Copy, PartialEq, Eq, Debug)]
pub enum Step<P> {
    /// It follows the messages that wait, at most `max`.
    Drain { max: u32 },
    /// It stamps what its policy plans. Which CPUs are taken it reads from the board.
    Decide,
    /// It stamps what it knows of a thread into the slot of a CPU, with these flags.
    Stamp { cpu: u16, tid: u32, flags: Flags },
    /// The slots of the mask land, and are collected.
    Commit { mask: Mask },
    /// It goes on as the next generation, on another CPU.
    HandOff { cpu: u16 },
    /// It crashes: its role is gone.
    Crash,
    /// It leaves, if no slot is stamped: its role is gone.
    Leave,
    /// The next one begins, by this policy or the one before.
    Begin { policy: Option<P> },
    /// It is told of the next threads that live, at most `max`.
    Page { max: u16 },
    /// It becomes active on a CPU, once it was told of all.
    Activate { cpu: u16 },
}

/// The steps of an agent's thread, in order.
#[derive(Drop)]
pub struct Shift<P> {
    pub steps: Vec<Step<P>>,
}

impl<P> Step<P> {
    /// Returns whether it needs no lock.
    pub(crate) fn is_alone(&self) -> bool {
        matches!(self, Step::Drain { .. } | Step::Decide | Step::Stamp { .. })
    }
}
