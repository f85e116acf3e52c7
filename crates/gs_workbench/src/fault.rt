use gs_script::ScriptFault;
use gs_workload::WorkloadFault;
use thiserror::Error;

/// Why no simulation was written.
#[derive(Debug, Drop, Error)]
pub enum WorkbenchFault {
    /// What was read is no workload.
    #[error("{0}")]
    Workload(WorkloadFault),
    /// A read failed.
    #[error("the workload could not be read")]
    ReadFailed,
    /// Out of memory, at an event too.
    #[error("out of memory")]
    OutOfMemory,
    /// A line of the simulation has a fault. No workload that was read has come to that.
    #[error("the simulation wrote a line that is no line of a script")]
    Unreadable(ScriptFault),
    /// A write failed, or took no byte. A beginning of the script was written, short of the whole.
    #[error("the output could not be written")]
    WriteFailed,
}
