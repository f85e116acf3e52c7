ghost use Rattle.std.specs.Prelude.{◌≡◌, ◌++◌, length, slice_index};
ghost use Rattle.std.specs.Iterator.{YieldsFirst, item_count};
ghost use Rattle.gs_runq.specs.Linked.{walked, Within};

use std::marker::Model;

/// What is left of a walk along one line: how many threads are left, and the place behind which they
/// stand.
#[derive(Drop)]
pub struct LineWalk<'a> {
    next: &'a [u32],
    at: u32,
    left: u32,
}

impl<'a> Model for LineWalk<'a> {
    ghost use Rattle.std.specs.Prelude.{List, ℕ};

    ghost Value = { List ℕ };

    ghost use Rattle.gs_runq.specs.Walks.{line_rest, LineWithin};

    ghost view = { line_rest };

    ghost invariant = { LineWithin };
}

/// Walks that many threads through the table, from the one that follows place 0.
pub fn along(next: &[u32], left: u32) -> LineWalk<'_>
    requires { Within left (slice_index next.now) (length next.now) 0 }
    ensures { result ≡ walked left (slice_index next.now) 0 }
{
    LineWalk { next, at: 0, left }
}

impl<'a> Iterator for LineWalk<'a> {
    type Item = u32;

    ghost next_gives = { YieldsFirst (λ s. s) };

    ghost remaining = { item_count (λ s. s) };

    fn next(&mut self) -> Option<u32> {
        if self.left == 0 {
            return None;
        }
        self.at = self.next[self.at as usize];
        self.left -= 1;
        Some(self.at)
    }
}

/// The tids that a walk of the queue has still to show: those of class 0, then those of class 1, each
/// class in order.
#[derive(Drop)]
pub struct QueueWalk<'a> {
    first: LineWalk<'a>,
    later: LineWalk<'a>,
}

impl<'a> Model for QueueWalk<'a> {
    ghost use Rattle.std.specs.Prelude.{List, ℕ};

    ghost Value = { List ℕ };

    ghost use Rattle.gs_runq.specs.Walks.{walk_rest};

    ghost view = { walk_rest };
}

/// Joins two walks, one after another.
pub fn both<'a>(first: LineWalk<'a>, later: LineWalk<'a>) -> QueueWalk<'a>
    ensures { result ≡ first.entry ++ later.entry }
{
    QueueWalk { first, later }
}

impl<'a> Iterator for QueueWalk<'a> {
    type Item = u32;

    ghost next_gives = { YieldsFirst (λ s. s) };

    ghost remaining = { item_count (λ s. s) };

    fn next(&mut self) -> Option<u32> {
        match self.first.next() {
            Some(tid) => Some(tid),
            None => self.later.next(),
        }
    }
}
