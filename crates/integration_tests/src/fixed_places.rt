//! A second ring, for the tests: so many places, each for one message that is ever posted.

ghost use Rattle.std.specs.Prelude.{◌≡◌, ◌≤◌, ◌↔◌, List, ◌∷◌, [], length, take, true, IfOk, MatchOption};
ghost use Rattle.integration_tests.specs.FixedPlaces.{Ahead, IsEmpty, IsFull, Passed, unused};
ghost use Rattle.gs_layout.specs.declared.message.Message.{Message};
ghost use Rattle.gs_ring.specs.Batches.{messages_of};
ghost use Rattle.gs_ring.specs.Peek.{message_of};

use gs_layout::{Message, Parcel};
use gs_ring::{Batch, Full, Peeked, Poster, Ring, Taker};
use std::alloc::{AllocError, Global};
use std::marker::Model;

/// Messages in places that are made once. A place is used by one message and never again, so that the ring is
/// full for good once all were used, however many were taken.
#[derive(Drop)]
pub(crate) struct FixedPlaces {
    held: Vec<Parcel>,
    places: usize,
    taken: usize,
}

impl Model for FixedPlaces {
    ghost use Rattle.std.specs.Prelude.{length, vec_capacity};
    ghost use Rattle.integration_tests.specs.FixedPlaces.{IsHeld, PlacesState};

    ghost Value = { PlacesState };

    ghost view = { λ r. record { places = r.places; posts = r.held.items; taken = r.taken } };

    ghost invariant = { λ r. IsHeld (vec_capacity r.held) r.places (length r.held.items) r.taken };
}

impl FixedPlaces {
    /// A ring of so many places, none of them used.
    ///
    /// # Errors
    ///
    /// If out of memory.
    pub(crate) fn new(alloc: Global, places: usize) -> Result<FixedPlaces, AllocError>
        ensures { IfOk result (λ r. r ≡ unused places) }
    {
        Ok(FixedPlaces {
            held: Vec::with_capacity(alloc, places)?,
            places,
            taken: 0,
        })
    }

    /// Whether every place is used.
    pub(crate) fn is_full(&self) -> bool
        ensures { (result ≡ true) ↔ IsFull self.now }
    {
        self.held.len() >= self.places
    }

    /// The message that waits first.
    fn first(&self) -> Option<Peeked<'_>>
        ensures { MatchOption result (IsEmpty self.now) (λ p. Ahead self.now (message_of p ∷ [])) }
    {
        if self.taken == self.held.len() {
            return None;
        }
        let parcel = &self.held[self.taken];
        Some(Peeked::new(parcel.as_bytes()))
    }

    /// The message that waits first, as a batch of it alone.
    fn next_batch(&self) -> Batch<'_>
        ensures none { messages_of result ≡ [] → IsEmpty self.now }
        ensures ahead { Ahead self.now (messages_of result) }
    {
        match self.first() {
            Some(peeked) => Batch::One(peeked),
            None => Batch::Empty,
        }
    }

    /// Takes the first messages, so many.
    fn take_first(&mut self, n: usize)
        requires { (ms : List Message) × Ahead self.old ms × (n ≤ length ms) }
        ensures { (ms : List Message) → Ahead self.old ms → n ≤ length ms → Passed self.old (take n ms) self.new }
    {
        self.taken += n;
    }

    /// Takes the message that waits first.
    fn pop(&mut self)
        requires { (m : Message) × Ahead self.old (m ∷ []) }
        ensures { (m : Message) → Ahead self.old (m ∷ []) → Passed self.old (m ∷ []) self.new }
    {
        self.taken += 1;
    }
}

impl Poster for FixedPlaces {
    ghost use Rattle.std.proofs.Common.{ap, refl, subst, sym, ◌∙◌};
    ghost use Rattle.std.specs.Prelude.{◌≤◌, drop, length};
    ghost use Rattle.integration_tests.specs.FixedPlaces.{Posted, SamePlaces};

    ghost posted = { Posted };

    ghost count = { λ r. length r.posts };

    ghost consumed = { λ r. r.taken };

    ghost tight = { λ r _. IsFull r };

    ghost same = { SamePlaces };

    fn post(&mut self, message: &Message) -> Result<(), Full> {
        if self.is_full() {
            return Err(Full);
        }
        self.held.push_reserved(Parcel::new(message));
        Ok(())
    }

    ghost counted = { λ r xs h. ap length (sym h.all) };

    ghost within = { λ r xs h. subst (λ ys. r.taken ≤ length ys) (sym h.all) h.within };

    ghost tells = { λ r xs ys h k. ap (drop r.taken) (h.all ∙ sym k.all) };

    ghost same_refl = { λ r. refl };

    ghost same_trans = { λ p q r e f. f ∙ e };
}

impl Taker for FixedPlaces {
    ghost use Rattle.integration_tests.specs.FixedPlaces.{Ahead-begins, Passed-agrees, Passed-join, Passed-none};

    ghost passed = { Passed };

    ghost ahead = { Ahead };

    ghost idle = { IsEmpty };

    fn peek(&mut self) -> Option<Peeked<'_>> {
        self.first()
    }

    fn advance(&mut self) {
        self.pop();
    }

    fn batch(&mut self) -> Batch<'_> {
        self.next_batch()
    }

    fn pass(&mut self, n: usize) {
        self.take_first(n);
    }

    ghost passed_none = { Passed-none };

    ghost passed_join = { Passed-join };

    ghost begins = { Ahead-begins };

    ghost agrees = { Passed-agrees };
}

impl Ring for FixedPlaces {
    ghost use Rattle.integration_tests.specs.FixedPlaces.{Posted-ends, Posted-keeps, Posted-passes};

    ghost keeps = { Posted-keeps };

    ghost stays = { λ p q ms h. h.places };

    ghost passes = { Posted-passes };

    ghost ends = { Posted-ends };
}
