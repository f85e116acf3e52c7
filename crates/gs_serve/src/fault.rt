ghost use Rattle.std.specs.Prelude.{◌≡◌};
ghost use Rattle.gs_serve.specs.declared.fault.ServeFault.TheVariants.{OutOfMemory};

use std::alloc::AllocError;
use thiserror::Error;

/// Why no more lines were answered.
#[derive(Clone, Copy, PartialEq, Eq, Debug, Error)]
pub enum ServeFault {
    /// A read failed. All lines before were answered.
    #[error("the script could not be read")]
    ReadFailed,
    /// Out of memory, at an event too. All lines before were answered, and nothing was written of the last one.
    #[error("out of memory")]
    OutOfMemory,
    /// A write failed, or took no byte. A beginning of the last answer may have been written.
    #[error("the output could not be written")]
    WriteFailed,
    /// Nobody reads the answers any more. A beginning of the last one may have been written.
    #[error("nobody reads the output")]
    ReaderGone,
}

impl From<AllocError> for ServeFault {
    ghost from_gives = { λ _ fault. fault ≡ OutOfMemory };

    fn from(_failed: AllocError) -> ServeFault {
        ServeFault::OutOfMemory
    }
}
