ghost use Rattle.std.specs.Prelude.{◌≡◌, ◌^◌, ◌<◌, length};
ghost use Rattle.std.specs.Iterator.{YieldsFirstBy, item_count};
ghost use Rattle.gs_threads.specs.Live.{IsLiveSet, live_from, shown};

use crate::row::ThreadRow;
use gs_sets::NumberSet;
use std::marker::Model;

/// The live threads that a walk has still to show, in increasing order of tid, each with its row. It goes
/// from one to the next, whatever dead ones stand between.
#[derive(Drop)]
pub struct LiveRows<'a> {
    /// The rows of all threads.
    rows: &'a [ThreadRow],
    /// The threads that live.
    live: &'a NumberSet,
    /// The least tid that the walk may still show.
    from: usize,
}

impl<'a> Model for LiveRows<'a> {
    ghost use Rattle.std.specs.Prelude.{List, ℕ, ◌<◌, ◌^◌, length};
    ghost use Rattle.gs_threads.specs.declared.row.ThreadRow.{ThreadRow};
    ghost use Rattle.gs_threads.specs.Live.{IsLiveSet, live_from};

    ghost Value = { List (ℕ × ThreadRow) };

    ghost view = { λ w. live_from w.rows.now w.from };

    ghost invariant = { λ w. (length w.rows.now < 2 ^ 32) × IsLiveSet w.live.now w.rows.now };
}

impl<'a> LiveRows<'a> {
    /// Walks the live threads of these rows, from a tid on.
    pub(crate) fn new(rows: &'a [ThreadRow], live: &'a NumberSet, tid: u32) -> LiveRows<'a>
        requires rows { length rows.now < 2 ^ 32 }
        requires live { IsLiveSet live.now rows.now }
        ensures { result ≡ live_from rows.now tid }
    {
        LiveRows {
            rows,
            live,
            from: tid as usize,
        }
    }
}

impl<'a> Iterator for LiveRows<'a> {
    type Item = (u32, &'a ThreadRow);

    ghost next_gives = { YieldsFirstBy shown (λ walk. walk) };

    ghost remaining = { item_count (λ walk. walk) };

    #[tactic(auto, using(crate::proofs::Walks::walk_none_in, crate::proofs::Walks::walk_first_in, crate::proofs::Walks::in_within))]
    fn next(&mut self) -> Option<(u32, &'a ThreadRow)> {
        let tid = self.live.next_from(self.from)?;
        self.from = tid + 1;
        Some((tid as u32, &self.rows[tid - 1]))
    }
}
