//! How a board begins.

ghost use Rattle.std.specs.Prelude.{◌≡◌, [], ◌∷◌, IfOk, true, unwrap_or};
ghost use Rattle.gs_board.specs.Words.{EndsIn, role_in};
ghost use Rattle.gs_board.specs.Views.{opening_words};

use crate::board::Board;
use crate::place::Place;
use crate::rule::{Published, View};
use crate::seats::WriterSeat;
use crate::words::{NOBODY, role_word};
use atomic_table::{Seat, Table};
use std::alloc::{AllocError, Global};

/// A board that no type names yet, with its writer's seat.
#[derive(Drop)]
pub struct Opened {
    pub table: Table<u8, View, (u64, u64, u64), Published, Global>,
    pub seat: Seat<u8, View>,
    /// The first word. The two others are 0.
    role: u64,
    pub ghost pair: { seat.table_id ≡ table.shared.table_id },
    pub ghost three: { table.shared.table_id.words ≡ 3 },
    pub ghost free: { seat.me.1 ≡ [] },
    pub ghost writes: { seat.me.0.writes ≡ true },
    pub ghost opening: { seat.me.0.words ≡ opening_words (role_in role) 0 0 },
}

impl Opened {
    /// Makes a board on which this is published: a generation, the CPU of the active agent if one is active, and
    /// that no CPU is taken.
    ///
    /// # Errors
    ///
    /// If out of memory.
    pub fn make(alloc: Global, generation: u32, cpu: Option<u16>) -> Result<Opened, AllocError>
        ensures { IfOk result (λ o. o.seat.me.0.words ≡ opening_words (generation, unwrap_or cpu NOBODY) 0 0) }
    {
        let role = role_word(generation, cpu);
        let (table, seat) = Table::of_words(alloc, &[role, 0, 0], &(role, 0, 0))?;
        Ok(Opened { table, seat, role })
    }

    /// Returns the board under its name, and the seat that publishes.
    pub fn named<L: Place>(self) -> (Board<L>, WriterSeat<L>)
        requires { self.table.shared.table_id ≡ L.board }
        ensures { result.1 ≡ self.seat.me.0.words }
    {
        let Opened { table, seat, role } = self;
        (Board::new(table), WriterSeat::opening(seat, role))
    }
}
