//! Which ledger, ring and board belong together.
ghost use Rattle.std.specs.Prelude.{◌≡◌, ℕ};

use gs_board::Place;
use std::marker::Brand;
use std::sync::ledger::Ledger;

/// Names one ledger, one ring and one board, so that a type can say whose its parts are.
pub trait Site: Ledger + Place {
    ghost use Rattle.gs_link.specs.declared.poster.RtrbPoster.{RtrbPoster};
    ghost use Rattle.gs_link.specs.Between.{SameEnd};

    /// The poster is the ring's.
    ghost is_ring: { RtrbPoster → Type 0 };

    /// How many parcels the ring has.
    ghost parcels: { ℕ };

    /// The same end of the same ring is the ring's too.
    ghost stays: { (p q : RtrbPoster) → is_ring p → SameEnd p q → is_ring q };
}

impl Site for Brand {
    ghost is_ring = { λ _. Unit {0} };

    ghost parcels = { 0 };

    ghost stays = { λ p q h e. h };
}
