//! The exit status of each ending.

ghost use Rattle.std.specs.Prelude.{◌≡◌};
ghost use Rattle.gs_commands.specs.Status.{ended_status, fault_status, serve_status, work_status, workbench_status};

use gs_serve::ServeFault;
use gs_trace::{Ended, TraceFault};
use gs_workbench::WorkbenchFault;
use gs_workers::WorkFault;

/// Returns the exit status of a script that ended.
pub(crate) fn ended_code(ended: Ended) -> u8
    ensures { result ≡ ended_status ended }
{
    match ended {
        Ended::Ran => 0,
        Ended::Faulted => 2,
    }
}

/// Returns the exit status of a script that didn't end.
pub(crate) fn fault_code(fault: TraceFault) -> u8
    ensures { result ≡ fault_status fault }
{
    match fault {
        TraceFault::OutOfMemory => 5,
        TraceFault::ReadFailed | TraceFault::WriteFailed => 4,
    }
}

/// Returns the exit status of lines that were not all answered. Whoever reads the answers may end that.
pub(crate) fn serve_code(fault: ServeFault) -> u8
    ensures { result ≡ serve_status fault }
{
    match fault {
        ServeFault::OutOfMemory => 5,
        ServeFault::ReadFailed | ServeFault::WriteFailed => 4,
        ServeFault::ReaderGone => 0,
    }
}

/// Returns the exit status of a workload of which no simulation was written.
pub(crate) fn workbench_code(fault: &WorkbenchFault) -> u8
    ensures { result ≡ workbench_status fault.now }
{
    match fault {
        WorkbenchFault::Workload(_) | WorkbenchFault::Unreadable(_) => 2,
        WorkbenchFault::ReadFailed | WorkbenchFault::WriteFailed => 4,
        WorkbenchFault::OutOfMemory => 5,
    }
}

/// Returns the exit status of workers of whom not all was written.
pub(crate) fn work_code(fault: WorkFault) -> u8
    ensures { result ≡ work_status fault }
{
    match fault {
        WorkFault::OutOfMemory => 5,
        WorkFault::WriteFailed => 4,
        WorkFault::Astray | WorkFault::Unsettled(_) => 6,
    }
}
