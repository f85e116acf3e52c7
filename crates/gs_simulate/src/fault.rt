ghost use Rattle.std.specs.Prelude.{◌≡◌};
ghost use Rattle.gs_simulate.specs.declared.fault.SimulateFault.TheVariants.{OutOfMemory};

use gs_script::ScriptFault;
use std::alloc::AllocError;
use thiserror::Error;

/// Why no workload was simulated.
#[derive(Clone, Copy, PartialEq, Eq, Debug, Error)]
pub enum SimulateFault {
    /// Out of memory, at an event too.
    #[error("out of memory")]
    OutOfMemory,
    /// A line that was written has a fault as a line of a script: the workload has a number out of its range.
    #[error("the simulation wrote a line that is no line of a script")]
    Unreadable(ScriptFault),
}

impl From<AllocError> for SimulateFault {
    ghost from_gives = { λ _ fault. fault ≡ OutOfMemory };

    fn from(_failed: AllocError) -> SimulateFault {
        SimulateFault::OutOfMemory
    }
}
