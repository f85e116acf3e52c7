ghost use Rattle.std.specs.Prelude.{◌+◌, ◌≤◌, length};
ghost use Rattle.rtrb.specs.Ring.{known_free, producer_capacity, sent};

use gs_layout::{Message, Parcel};
use gs_ring::{Full, Poster};
use rtrb::Producer;

/// The kernel's end of the ring. A message may be refused only once as many were posted as there are parcels.
#[derive(Drop)]
pub struct RtrbPoster {
    pub(crate) producer: Producer<Parcel>,
    ghost roomy: { producer_capacity producer ≤ known_free producer + length (sent producer) },
}

impl Poster for RtrbPoster {
    ghost use Rattle.gs_link.specs.Between.{IsTight, Posted, SameEnd, SameEnd-refl, SameEnd-trans, posts};
    ghost use Rattle.std.proofs.Common.{ap, arith, drop, sym, ◌∙◌};
    ghost use Rattle.std.specs.Prelude.{length};

    ghost posted = { Posted };

    ghost count = { posts };

    ghost consumed = { λ _. 0 };

    ghost tight = { IsTight };

    ghost same = { SameEnd };

    #[inline(always)]
    fn post(&mut self, message: &Message) -> Result<(), Full> {
        match self.producer.push(Parcel::new(message)) {
            Ok(()) => Ok(()),
            Err(_) => Err(Full),
        }
    }

    ghost counted = { λ p xs h. ap length h };

    ghost within = { λ p xs h. omega arith };

    ghost tells = { λ p xs ys h k. ap (drop 0) (sym h ∙ k) };

    ghost same_refl = { SameEnd-refl };

    ghost same_trans = { SameEnd-trans };
}
