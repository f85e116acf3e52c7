//! Why stays end, by the entries that end them.

ghost use Rattle.std.specs.Prelude.{◌≡◌, Some, map, slice_get};
ghost use Rattle.gs_timeline.specs.Endings.{ending_of};

use crate::ending::Ending;
use gs_journal::Journal;
use std::marker::Model;

/// Why a stay ended, for each entry of a journal that may have ended it: one byte an entry, for whoever looks at entries that are far from one
/// another. Clauses see the journal's entries.
#[derive(Drop)]
pub(crate) struct Endings<'a> {
    journal: &'a Journal,
    by_entry: Vec<Ending>,
}

impl<'a> Model for Endings<'a> {
    ghost use Rattle.std.specs.Prelude.{◌≡◌, Some, map};
    ghost use Rattle.gs_journal.specs.History.{History};
    ghost use Rattle.gs_timeline.specs.Endings.{ending_of};

    ghost Value = { History };

    ghost view = { λ e. e.journal.now.entries };

    ghost invariant = { λ e. e.by_entry.items ≡ map (λ x. ending_of (Some x)) e.journal.now.entries };
}

impl<'a> Endings<'a> {
    /// Keeps why a stay ended by each entry of a journal, as these say.
    pub(crate) fn new(journal: &'a Journal, by_entry: Vec<Ending>) -> Endings<'a>
        requires { by_entry.items ≡ map (λ x. ending_of (Some x)) journal.now.entries }
        ensures { result ≡ journal.now.entries }
    {
        Endings { journal, by_entry }
    }

    /// Lends the journal.
    pub(crate) fn journal(&self) -> &'a Journal
        ensures { result.now.entries ≡ self.now }
    {
        self.journal
    }

    /// Returns why a stay ended that goes on to the entry of this place, or to the last one.
    #[inline(always)]
    pub(crate) fn at(&self, place: usize) -> Ending
        ensures { result ≡ ending_of (slice_get self.now place) }
    {
        match self.by_entry.get(place) {
            Some(ending) => *ending,
            None => Ending::StillThere,
        }
    }
}
