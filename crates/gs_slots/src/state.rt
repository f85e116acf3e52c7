use crate::flags::Flags;
use gs_layout::Outcome;
use thiserror::Error;

/// A transaction as an agent stamps it: a thread is to be placed on the CPU whose slot it is in.
#[derive(Clone, Copy, PartialEq, Eq, Debug)]
pub struct Stamp {
    /// The generation of the agent that stamped it.
    pub generation: u32,
    /// The thread that is to run.
    pub tid: u32,
    /// The thread's sequence number as the agent knew it.
    pub tseq: u32,
    /// What it asks for besides.
    pub flags: Flags,
}

impl Stamp {
    /// No transaction: what stands in a slot that was malformed when it landed.
    pub(crate) const NONE: Stamp = Stamp {
        generation: 0,
        tid: 0,
        tseq: 0,
        flags: Flags::NONE,
    };
}

/// What is in a slot.
#[derive(Clone, Copy, PartialEq, Eq, Debug)]
pub enum SlotState {
    /// Nothing: a transaction may be stamped into it.
    Idle,
    /// A transaction that has not landed.
    Stamped {
        stamp: Stamp,
    },
    /// A transaction that landed, and what became of it. With the outcome [`Malformed`](Outcome::Malformed),
    /// that the slot was malformed when it landed, and nothing else.
    Done {
        stamp: Stamp,
        outcome: Outcome,
        /// The CPU that the thread was on after the landing.
        at: Option<u16>,
        /// The thread's sequence number before the landing.
        seen: u32,
    },
}

/// The slot is not idle. It stays as it was.
#[derive(Clone, Copy, PartialEq, Eq, Debug, Error)]
#[error("the slot is not idle")]
pub struct SlotBusy;

/// The bytes of the slot are those of no state of a slot of its CPU.
#[derive(Clone, Copy, PartialEq, Eq, Debug, Error)]
#[error("the slot is malformed")]
pub struct Malformed;
