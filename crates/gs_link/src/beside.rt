//! Both ends in one thread.

use crate::poster::RtrbPoster;
use crate::taker::RtrbTaker;
use gs_ring::Beside;

impl Beside<RtrbTaker> for RtrbPoster {
    ghost use Rattle.gs_link.specs.Between.{Gave, Gave-passed, IsPairOf, IsPairOf-passed};

    ghost pair = { IsPairOf };

    ghost gave = { Gave };

    fn look_beside(&mut self, taker: &mut RtrbTaker) -> usize {
        taker.consumer.slots_beside(&mut self.producer)
    }

    ghost gives = { Gave-passed };

    ghost stays_pair = { IsPairOf-passed };
}
