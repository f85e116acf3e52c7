ghost use Rattle.std.specs.Prelude.{◌≡◌};
ghost use Rattle.gs_dump.specs.declared.fault.PageFault.TheVariants.{OutOfMemory};

use std::alloc::AllocError;
use thiserror::Error;

/// Why bytes are not read as a page: the first of these that applies to the whole of the bytes.
#[derive(Clone, Copy, PartialEq, Eq, Debug, Error)]
pub enum PageFault {
    #[error("fewer than 8 bytes, or fewer than the count of records says")]
    Short,
    #[error("more bytes than the count of records says")]
    Trailing,
    #[error("the version of a record is neither 1 nor 2, or not that of the first")]
    BadVersion,
    #[error("a field is out of its range, or a byte that no field names is not zero")]
    BadField,
    #[error("the tids do not rise, or the next page does not begin above them")]
    BadOrder,
    #[error("out of memory")]
    OutOfMemory,
}

impl From<AllocError> for PageFault {
    ghost from_gives = { λ _ fault. fault ≡ OutOfMemory };

    fn from(_error: AllocError) -> PageFault {
        PageFault::OutOfMemory
    }
}
