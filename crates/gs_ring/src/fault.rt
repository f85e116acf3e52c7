ghost use Rattle.std.specs.Prelude.{◌≡◌};
ghost use Rattle.gs_ring.specs.declared.fault.RingFault.TheVariants.{OutOfMemory};

use crate::block::{LEAST_CAPACITY, MOST_CAPACITY};
use gs_layout::ALIGNMENT;
use std::alloc::AllocError;
use thiserror::Error;

/// Why no ring can be made.
#[derive(Clone, Copy, PartialEq, Eq, Debug, Error)]
pub enum RingFault {
    #[error("the capacity is not a multiple of {} from {} to {}", ALIGNMENT, LEAST_CAPACITY, MOST_CAPACITY)]
    BadCapacity,
    #[error("out of memory")]
    OutOfMemory,
}

impl From<AllocError> for RingFault {
    ghost from_gives = { λ _ fault. fault ≡ OutOfMemory };

    fn from(_failed: AllocError) -> RingFault {
        RingFault::OutOfMemory
    }
}

/// There is no room for the message. Nothing was posted.
#[derive(Clone, Copy, PartialEq, Eq, Debug, Error)]
#[error("the ring has no room for the message")]
pub struct Full;
