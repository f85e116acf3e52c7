ghost use Rattle.std.specs.Prelude.{◌≡◌, [], IfOk};
ghost use Rattle.gs_link.specs.Between.{Gave, IsPairOf, Posted, room};

use crate::poster::RtrbPoster;
use crate::taker::RtrbTaker;
use rtrb::RingBuffer;
use std::alloc::{AllocError, Global};

/// Makes a ring with room for so many parcels, and returns its two ends.
///
/// # Errors
///
/// If out of memory.
pub fn make_ring(alloc: Global, parcels: usize) -> Result<(RtrbPoster, RtrbTaker), AllocError>
    ensures pair { IfOk result (λ r. IsPairOf r.0 r.1) }
    ensures empty { IfOk result (λ r. Posted r.0 [] × Gave r.1 []) }
    ensures parcels { IfOk result (λ r. room r.0 ≡ parcels) }
{
    let (producer, consumer) = RingBuffer::new(alloc, parcels)?;
    Ok((RtrbPoster { producer }, RtrbTaker { consumer }))
}
