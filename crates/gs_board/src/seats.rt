//! The seats of a board.

ghost use Rattle.std.specs.Prelude.{◌≡◌, [], true};
ghost use Rattle.gs_board.specs.Words.{role_in};
ghost use Rattle.gs_board.specs.Views.{opening_words};

use crate::place::Place;
use crate::rule::View;
use atomic_table::Seat;
use std::marker::{Model, PhantomData};

/// A seat that reads. Clauses see the words that it has read.
#[derive(Drop)]
pub struct BoardSeat<L: Place> {
    pub(crate) seat: Seat<u8, View>,
    of: PhantomData<L>,
}

impl<L: Place> Model for BoardSeat<L> {
    ghost use Rattle.std.specs.Prelude.{◌≡◌, []};
    ghost use Rattle.gs_board.specs.declared.rule.Words.{Words};

    ghost Value = { Words };

    ghost view = { λ s. s.seat.me.0.words };

    ghost invariant = { λ s. (s.seat.table_id ≡ L.board) × (s.seat.me.1 ≡ []) };
}

impl<L: Place> BoardSeat<L> {
    /// Takes a seat of the named board.
    pub(crate) fn new(seat: Seat<u8, View>) -> BoardSeat<L>
        requires { (seat.table_id ≡ L.board) × (seat.me.1 ≡ []) }
        ensures { result ≡ seat.me.0.words }
    {
        BoardSeat {
            seat,
            of: PhantomData,
        }
    }
}

/// The one seat that publishes. Clauses see the words that were published. It remembers the last of them.
#[derive(Drop)]
pub struct WriterSeat<L: Place> {
    pub(crate) seat: Seat<u8, View>,
    pub(crate) role: u64,
    pub(crate) low: u64,
    pub(crate) high: u64,
    of: PhantomData<L>,
}

impl<L: Place> Model for WriterSeat<L> {
    ghost use Rattle.std.specs.Prelude.{◌≡◌, [], true};
    ghost use Rattle.gs_board.specs.declared.rule.Words.{Words};
    ghost use Rattle.gs_board.specs.Words.{EndsIn, role_in};

    ghost Value = { Words };

    ghost view = { λ s. s.seat.me.0.words };

    ghost invariant = { λ s. (s.seat.table_id ≡ L.board) × (s.seat.me.1 ≡ []) × (s.seat.me.0.writes ≡ true) × EndsIn s.seat.me.0.words.roles (role_in s.role) × EndsIn s.seat.me.0.words.lows s.low × EndsIn s.seat.me.0.words.highs s.high };
}

impl<L: Place> WriterSeat<L> {
    /// Takes the seat that publishes of the named board, on which this word of generation and CPU and two words 0
    /// are published.
    pub(crate) fn opening(seat: Seat<u8, View>, role: u64) -> WriterSeat<L>
        requires { (seat.table_id ≡ L.board) × (seat.me.1 ≡ []) × (seat.me.0.writes ≡ true) × (seat.me.0.words ≡ opening_words (role_in role) 0 0) }
        ensures { result ≡ seat.me.0.words }
    {
        WriterSeat {
            seat,
            role,
            low: 0,
            high: 0,
            of: PhantomData,
        }
    }
}
