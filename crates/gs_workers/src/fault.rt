//! Why a run of workers is not told.

ghost use Rattle.std.specs.Prelude.{◌≡◌};
ghost use Rattle.gs_workers.specs.declared.fault.WorkFault.TheVariants.{OutOfMemory};

use gs_agent::Stop;
use gs_runner::Unsettled;
use std::alloc::AllocError;
use thiserror::Error;

/// Why nothing was written of a run, or not all.
#[derive(Clone, Copy, PartialEq, Eq, Debug, Error)]
pub enum WorkFault {
    /// Memory ran out, at a call too, or a thread could not be started. Nothing was written.
    #[error("out of memory, or a thread could not be started")]
    OutOfMemory,
    /// The receipts of a worker are not those of its commands. Nothing was written.
    #[error("Astray: the receipts of a worker are not those of its commands")]
    Astray,
    /// In the end the agent did not know what the kernel knows. Nothing was written.
    #[error("{}", meaning(*.0))]
    Unsettled(Unsettled),
    /// A write failed, or took no byte. A beginning of the output was written, short of the whole.
    #[error("the output could not be written")]
    WriteFailed,
}

/// Returns what it means that an agent did not settle, behind its name.
fn meaning(unsettled: Unsettled) -> &'static str {
    match unsettled {
        Unsettled::Torn => "Torn: a message found no room, so the enclave was torn down",
        Unsettled::NoAgent => "NoAgent: no agent was active at the end",
        Unsettled::Stopped(Stop::Gap) => "Stopped: the agent missed a message",
        Unsettled::Stopped(Stop::Memory) => "Stopped: out of memory as messages were taken in",
        Unsettled::Differs => "Differs: what the agent knows is not what the kernel knows",
    }
}

impl From<AllocError> for WorkFault {
    ghost from_gives = { λ _ fault. fault ≡ OutOfMemory };

    fn from(_failed: AllocError) -> WorkFault {
        WorkFault::OutOfMemory
    }
}
