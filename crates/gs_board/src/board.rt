//! Publishing to a board, and reading it.

ghost use Rattle.std.specs.Prelude.{◌≡◌, ℕ, unwrap_or};
ghost use Rattle.gs_board.specs.Words.{EndsIn, MayFollow, NeverFalls, Publishes, high_word, low_word, shown_role};
ghost use Rattle.gs_board.specs.Views.{nothing_read, words};
ghost use Rattle.gs_board.specs.Steps.{ReadsTo};

use crate::place::Place;
use crate::rule::{
    PublishHigh, PublishLow, PublishRole, Published, ReadHigh, ReadLow, ReadRole, Reader, View,
};
use crate::seats::{BoardSeat, WriterSeat};
use crate::words::{NOBODY, Shown, high_word, low_word, role_word, unpack};
use atomic_table::Table;
use gs_status::Mask;
use std::alloc::Global;
use std::marker::PhantomData;

/// Where generation and CPU of the active agent stand.
const ROLE: usize = 0;
/// Where the CPUs below 64 stand that are taken.
const LOW: usize = 1;
/// Where the CPUs from 64 on stand that are taken.
const HIGH: usize = 2;

/// A board. Its words are published and read one at a time.
#[derive(Drop)]
pub struct Board<L: Place> {
    table: Table<u8, View, (u64, u64, u64), Published, Global>,
    of: PhantomData<L>,
    ghost is: { table.shared.table_id ≡ L.board },
    ghost three: { table.shared.table_id.words ≡ 3 },
}

impl<L: Place> Board<L> {
    /// Takes the named board.
    pub(crate) fn new(table: Table<u8, View, (u64, u64, u64), Published, Global>) -> Board<L>
        requires { (table.shared.table_id ≡ L.board) × (table.shared.table_id.words ≡ 3) }
    {
        Board {
            table,
            of: PhantomData,
        }
    }

    /// Publishes the generation that was given last, and the CPU of the active agent, if one is active. Nothing is
    /// published if just that was published last. The generation is not below the one that was published last.
    pub fn publish_role(&self, seat: &mut WriterSeat<L>, generation: u32, cpu: Option<u16>)
        requires { MayFollow seat.old.roles generation }
        ensures shows { EndsIn seat.new.roles (generation, unwrap_or cpu NOBODY) }
        ensures changed { Publishes seat.old.roles (generation, unwrap_or cpu NOBODY) seat.new.roles }
        ensures others { (seat.new.lows ≡ seat.old.lows) × (seat.new.highs ≡ seat.old.highs) }
    {
        let role = role_word(generation, cpu);
        if role != seat.role {
            self.table
                .shared
                .store::<PublishRole>(&mut seat.seat, ROLE, role);
            seat.role = role;
        }
    }

    /// Publishes which CPUs are taken, in two words: those below 64, and then those from 64 on. A word is not
    /// published if it was published last.
    pub fn publish_taken(&self, seat: &mut WriterSeat<L>, taken: Mask)
        ensures shows { EndsIn seat.new.lows (low_word taken) × EndsIn seat.new.highs (high_word taken) }
        ensures changed { Publishes seat.old.lows (low_word taken) seat.new.lows × Publishes seat.old.highs (high_word taken) seat.new.highs }
        ensures others { seat.new.roles ≡ seat.old.roles }
    {
        self.publish_low(seat, low_word(taken));
        self.publish_high(seat, high_word(taken));
    }

    /// Publishes which CPUs below 64 are taken, unless that was published last.
    fn publish_low(&self, seat: &mut WriterSeat<L>, low: u64)
        ensures shows { EndsIn seat.new.lows low }
        ensures changed { Publishes seat.old.lows low seat.new.lows }
        ensures others { (seat.new.roles ≡ seat.old.roles) × (seat.new.highs ≡ seat.old.highs) }
    {
        if low != seat.low {
            self.table
                .shared
                .store::<PublishLow>(&mut seat.seat, LOW, low);
            seat.low = low;
        }
    }

    /// Publishes which CPUs from 64 on are taken, unless that was published last.
    fn publish_high(&self, seat: &mut WriterSeat<L>, high: u64)
        ensures shows { EndsIn seat.new.highs high }
        ensures changed { Publishes seat.old.highs high seat.new.highs }
        ensures others { (seat.new.roles ≡ seat.old.roles) × (seat.new.lows ≡ seat.old.lows) }
    {
        if high != seat.high {
            self.table
                .shared
                .store::<PublishHigh>(&mut seat.seat, HIGH, high);
            seat.high = high;
        }
    }

    /// Reads the three words, one after the other: generation and CPU, then the taken CPUs below 64, then those from
    /// 64 on. Each is one that was published, and none that is older than what this seat has read. It takes no lock
    /// and waits for nobody.
    ///
    /// # Examples
    ///
    /// Whether two readers see the same, each by a seat of its own:
    ///
    /// ```
    /// let first = station.board().read(one.seat());
    /// let second = station.board().read(other.seat());
    /// first == wanted && second == wanted
    /// ```
    pub fn read(&self, seat: &mut BoardSeat<L>) -> Shown
        ensures role { ReadsTo seat.old.roles seat.new.roles (shown_role result) × NeverFalls seat.new.roles }
        ensures taken { ReadsTo seat.old.lows seat.new.lows (low_word result.taken) × ReadsTo seat.old.highs seat.new.highs (high_word result.taken) }
    {
        let shared = &self.table.shared;
        let role = shared.load::<ReadRole>(&mut seat.seat, ROLE);
        let low = shared.load::<ReadLow>(&mut seat.seat, LOW);
        let high = shared.load::<ReadHigh>(&mut seat.seat, HIGH);
        unpack(role, low, high)
    }

    /// Makes a seat that has read nothing.
    pub fn split(&self, seat: &mut WriterSeat<L>) -> BoardSeat<L>
        ensures new { result ≡ nothing_read }
        ensures same { seat.new ≡ seat.old }
    {
        BoardSeat::new(self.table.shared.split_seat::<Reader>(&mut seat.seat))
    }
}
