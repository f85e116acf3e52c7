use gs_layout::Parcel;
use gs_ring::{Batch, Peeked, Taker};
use rtrb::Consumer;

/// The agent's end of the ring. It lends one message at a time, and may find none though some wait.
#[derive(Drop)]
pub struct RtrbTaker {
    pub(crate) consumer: Consumer<Parcel>,
}

impl Taker for RtrbTaker {
    ghost use Rattle.gs_link.specs.Between.{Ahead, Ahead-begins, Passed, Passed-agrees, Passed-join, Passed-none};

    ghost passed = { Passed };

    ghost ahead = { Ahead };

    ghost idle = { λ _. Unit {0} };

    fn peek(&mut self) -> Option<Peeked<'_>> {
        match self.consumer.peek() {
            Ok(parcel) => Some(Peeked::new(parcel.as_bytes())),
            Err(_) => None,
        }
    }

    fn advance(&mut self) {
        let _ = self.consumer.pop_known();
    }

    #[inline(always)]
    fn batch(&mut self) -> Batch<'_> {
        match self.consumer.peek() {
            Ok(parcel) => Batch::One(Peeked::new(parcel.as_bytes())),
            Err(_) => Batch::Empty,
        }
    }

    #[inline(always)]
    fn pass(&mut self, n: usize) {
        for _ in 0..n {
            let _ = self.consumer.pop_known();
        }
    }

    ghost passed_none = { Passed-none };

    ghost passed_join = { Passed-join };

    ghost begins = { Ahead-begins };

    ghost agrees = { Passed-agrees };
}
