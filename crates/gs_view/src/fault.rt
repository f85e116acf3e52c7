ghost use Rattle.std.specs.Prelude.{◌≡◌};
ghost use Rattle.gs_view.specs.declared.fault.ApplyFault.TheVariants.{OutOfMemory};

use std::alloc::AllocError;
use thiserror::Error;

/// Why a view did not apply a message. The view stays as it is.
#[derive(Clone, Copy, PartialEq, Eq, Debug, Error)]
pub enum ApplyFault {
    /// The message's number is more than one above the one that is known of its thread.
    #[error("messages about the thread are missing before this one")]
    Gap,
    /// The message creates a thread of which nothing is known.
    #[error("no memory for the record of a new thread")]
    OutOfMemory,
}

impl From<AllocError> for ApplyFault {
    ghost from_gives = { λ _ fault. fault ≡ OutOfMemory };

    fn from(_failed: AllocError) -> ApplyFault {
        ApplyFault::OutOfMemory
    }
}
