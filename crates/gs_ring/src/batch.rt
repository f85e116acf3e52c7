ghost use Rattle.std.specs.Prelude.{◌≡◌};

use crate::peeked::Peeked;
use crate::ring::ByteRing;
use crate::waiting::Waiting;

/// The first messages that wait in a ring, which stay there: what [`Taker::batch`](crate::Taker::batch)
/// finds.
#[derive(Clone, Copy)]
pub enum Batch<'a> {
    /// All that wait in a ring of bytes.
    Ring(&'a ByteRing),
    /// One alone, from a ring that shows no more at a time.
    One(Peeked<'a>),
    Empty,
}

impl<'a> Batch<'a> {
    ghost use Rattle.gs_ring.specs.Batches.{messages_of};

    /// Lends the messages, each where it lies.
    pub fn messages(self) -> Waiting<'a>
        ensures { result ≡ messages_of self.entry }
    {
        match self {
            Batch::Ring(ring) => ring.waiting(),
            Batch::One(peeked) => Waiting::one(peeked.message()),
            Batch::Empty => Waiting::none(),
        }
    }
}
