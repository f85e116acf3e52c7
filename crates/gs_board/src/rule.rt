//! The rule of a board: what its seats know of the words that were published.

use atomic_table::{Play, Split, TableRule};
use std::collections::LinkedList;

/// The words that were published so far, or a beginning of them, the oldest first: generation and CPU, and the
/// words of the taken CPUs. No value of it is made: clauses see a seat so.
pub struct Words {
    pub roles: LinkedList<(u32, u16)>,
    pub lows: LinkedList<u64>,
    pub highs: LinkedList<u64>,
}

/// What a seat knows, and whether it is the one that publishes. No value of it is made.
pub struct View {
    pub writes: bool,
    pub words: Words,
}

/// The rule: each word is the last that was published, and each seat knows a beginning of what was. It begins
/// with these three words.
pub struct Published;

impl TableRule<u8, View, (u64, u64, u64)> for Published {
    ghost use Rattle.gs_board.specs.Views.{Holds, first_view};

    ghost holds = { Holds };

    ghost first = { first_view };
}

/// Reads generation and CPU.
pub struct ReadRole;

impl Play<u8, View> for ReadRole {
    ghost use Rattle.gs_board.specs.Steps.{ReadsRole};

    ghost then = { ReadsRole };
}

/// Reads which CPUs below 64 are taken.
pub struct ReadLow;

impl Play<u8, View> for ReadLow {
    ghost use Rattle.gs_board.specs.Steps.{ReadsLow};

    ghost then = { ReadsLow };
}

/// Reads which CPUs from 64 on are taken.
pub struct ReadHigh;

impl Play<u8, View> for ReadHigh {
    ghost use Rattle.gs_board.specs.Steps.{ReadsHigh};

    ghost then = { ReadsHigh };
}

/// Publishes generation and CPU.
pub struct PublishRole;

impl Play<u8, View> for PublishRole {
    ghost use Rattle.gs_board.specs.Steps.{PublishesRole};

    ghost then = { PublishesRole };
}

/// Publishes which CPUs below 64 are taken.
pub struct PublishLow;

impl Play<u8, View> for PublishLow {
    ghost use Rattle.gs_board.specs.Steps.{PublishesLow};

    ghost then = { PublishesLow };
}

/// Publishes which CPUs from 64 on are taken.
pub struct PublishHigh;

impl Play<u8, View> for PublishHigh {
    ghost use Rattle.gs_board.specs.Steps.{PublishesHigh};

    ghost then = { PublishesHigh };
}

/// Makes a seat that has read nothing.
pub struct Reader;

impl Split<View> for Reader {
    ghost use Rattle.gs_board.specs.Views.{newcomer};

    ghost left = { λ v. v };

    ghost right = { λ _. newcomer };
}
