ghost use Rattle.std.specs.Prelude.{◌≡◌};
ghost use Rattle.gs_layout.specs.declared.refusal.Refusal.TheVariants.{OutOfMemory};

use std::alloc::AllocError;
use thiserror::Error;

/// Why an event is refused. A refused event changes nothing.
#[derive(Clone, Copy, PartialEq, Eq, Debug, Error)]
pub enum Refusal {
    #[error("the thread was never created, is dead, or is not in the view")]
    NoThread,
    #[error("the thread is on no CPU")]
    NotRunning,
    #[error("the thread is not blocked")]
    NotBlocked,
    #[error("the mask has no CPU, or one past the last")]
    EmptyMask,
    #[error("there is no such CPU")]
    BadCpu,
    #[error("the active agent is on the CPU")]
    AgentThere,
    #[error("the other class holds the CPU")]
    CpuTaken,
    #[error("the other class does not hold the CPU")]
    NotTaken,
    #[error("no agent is active, or, where one that attaches will do, none attaches")]
    NotActive,
    #[error("an agent is active or attaching")]
    StillAttached,
    #[error("no agent is attaching, or not at this point")]
    NotAttaching,
    #[error("the thread's sequence numbers are spent")]
    SeqSpent,
    #[error("the generations are spent")]
    GenSpent,
    #[error("the thread numbers are spent")]
    TidsSpent,
    #[error("the journal or the list of transactions is full")]
    HistoryFull,
    #[error("a slot is not idle")]
    SlotOpen,
    #[error("there is no such transaction")]
    NoSuchTransaction,
    #[error("the enclave was torn down")]
    Gone,
    #[error("out of memory")]
    OutOfMemory,
}

impl From<AllocError> for Refusal {
    ghost from_gives = { λ _ refusal. refusal ≡ OutOfMemory };

    fn from(_failed: AllocError) -> Refusal {
        Refusal::OutOfMemory
    }
}
