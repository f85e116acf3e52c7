//! Passes: what a caller of an enclave has.

ghost use Rattle.std.specs.Prelude.{◌≡◌, ◌<◌, IfOk, vec_len, sum_by};

use crate::share::Share;
use crate::site::Site;
use gs_board::{Board, BoardSeat, WriterSeat};
use std::alloc::{AllocError, Global};
use std::sync::ledger::Share as Part;

/// How many passes a station gives, and how many parts its ledger has.
pub const PASSES: u64 = 32;

/// One caller's right: a share of the ledger, and a seat at the board.
#[derive(Drop)]
pub struct Pass<L: Site> {
    pub share: Share<L>,
    pub seat: BoardSeat<L>,
}

impl<L: Site> Pass<L> {
    ghost use Rattle.std.specs.Prelude.{◌≡◌};
    ghost use Rattle.std.specs.Borrow.{sem, Lends};
    ghost use Rattle.gs_runner.specs.contracts.pass.Pass.{the_row};
    ghost use Rattle.gs_runner.specs.contracts.share.Share.{the_row as share_row};
    ghost use Rattle.gs_board.specs.contracts.seats.BoardSeat.{the_row as seat_row};

    fn new(share: Share<L>, seat: BoardSeat<L>) -> Pass<L>
        ensures { (result.share ≡ share) × (result.seat ≡ seat) }
    {
        Pass { share, seat }
    }

    /// Lends the share, to count in.
    pub fn share(&mut self) -> &mut Share<L>
        ensures value { result.now ≡ self.old.share }
        ensures* lends { sem 𝓛 (Lends (the_row L.row L.Site.own L.Ledger L.Place) (share_row L.row L.Site.own L.Ledger L.Place) self.entry result (λ w. record { share = w; seat = self.old.seat })) }
    {
        &mut self.share
    }

    /// Lends the seat, to read the board by.
    pub fn seat(&mut self) -> &mut BoardSeat<L>
        ensures value { result.now ≡ self.old.seat }
        ensures* lends { sem 𝓛 (Lends (the_row L.row L.Site.own L.Ledger L.Place) (seat_row L.row L.Place) self.entry result (λ w. record { share = self.old.share; seat = w })) }
    {
        &mut self.seat
    }
}

/// Makes a pass for each part of a ledger.
pub(crate) fn deal<L: Site>(
    alloc: Global,
    mut all: Part<L>,
    board: &Board<L>,
    seat: &mut WriterSeat<L>,
) -> Result<Vec<Pass<L>>, AllocError>
    requires { (all.parts ≡ PASSES) × (all.amount ≡ 0) }
    ensures passes { IfOk result (λ v. (vec_len v ≡ PASSES) × (sum_by (λ p. p.share) v.items ≡ 0)) }
    ensures seat { seat.new ≡ seat.old }
{
    let mut passes = Vec::with_capacity(alloc, PASSES as usize)?;
    for _i in 0..PASSES {
        passes.push(Pass::new(Share::new(all.split_off(1, 0)), board.split(seat)))?;
    }
    Ok(passes)
}

/// Puts the shares of all passes together.
pub(crate) fn gather<L: Site>(mut passes: Vec<Pass<L>>) -> Part<L>
    requires { 0 < vec_len passes }
    ensures { (result.parts ≡ vec_len passes) × (result.amount ≡ sum_by (λ p. p.share) passes.items) }
{
    let Pass { share, seat: _ } = passes.pop().unwrap();
    let mut all = share.into_part();
    while let Some(pass) = passes.pop() {
        let Pass { share, seat: _ } = pass;
        all.merge(share.into_part());
    }
    all
}
