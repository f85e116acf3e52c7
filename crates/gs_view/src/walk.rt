ghost use Rattle.std.specs.Prelude.{◌≡◌};
ghost use Rattle.std.specs.Iterator.{YieldsFirstBy, item_count};
ghost use Rattle.gs_view.specs.Shown.{record_shown, shown_from};

use crate::records::Records;
use gs_layout::Facts;
use std::marker::Model;

/// The records of a view that a walk has still to show, in increasing order of tid. Of each thread it shows the tid,
/// the facts, and the sequence number at which they were so.
#[derive(Drop)]
pub struct ViewWalk<'a> {
    records: &'a Records,
    /// The least tid that the walk may still show.
    from: usize,
}

impl<'a> Model for ViewWalk<'a> {
    ghost use Rattle.std.specs.Prelude.{List, ℕ};
    ghost use Rattle.gs_layout.specs.declared.known.Known.{Known};
    ghost use Rattle.gs_view.specs.Shown.{shown_from};

    ghost Value = { List (ℕ × Known) };

    ghost view = { λ w. shown_from w.from w.records.now };
}

impl<'a> ViewWalk<'a> {
    /// Makes the walk over all records.
    pub(crate) fn over(records: &'a Records) -> ViewWalk<'a>
        ensures { result ≡ shown_from 0 records.now }
    {
        ViewWalk { records, from: 0 }
    }
}

impl<'a> Iterator for ViewWalk<'a> {
    type Item = (u32, &'a Facts, u32);

    ghost next_gives = { YieldsFirstBy record_shown (λ walk. walk) };

    ghost remaining = { item_count (λ walk. walk) };

    #[inline(always)]
    fn next(&mut self) -> Option<(u32, &'a Facts, u32)> {
        let tid = self.records.next_from(self.from)?;
        self.from = tid + 1;
        let known = self.records.get(tid as u32)?;
        Some((tid as u32, &known.facts, known.tseq))
    }
}
