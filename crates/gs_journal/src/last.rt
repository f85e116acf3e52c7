//! The last entry of a journal, which is unpacked where it is used.

ghost use Rattle.std.specs.Prelude.{◌≡◌, ◌-◌, ◌<◌, length, slice_get, Some};

use crate::entry::Entry;
use crate::journal::Journal;

/// The last entry of a journal, where it lies. It is unpacked where it is asked for.
#[derive(Clone, Copy)]
pub struct LastEntry<'a> {
    journal: &'a Journal,
    ghost some: { 0 < length journal.now.entries },
}

impl<'a> LastEntry<'a> {
    ghost use Rattle.gs_journal.specs.Last.{entry_lent};

    /// Lends the last entry of a journal in which something happened.
    #[inline(always)]
    pub(crate) fn of(journal: &'a Journal) -> LastEntry<'a>
        requires { 0 < length journal.now.entries }
        ensures { slice_get journal.now.entries (length journal.now.entries - 1) ≡ Some (entry_lent result) }
    {
        LastEntry { journal }
    }

    /// Returns the entry.
    #[inline(always)]
    pub fn entry(&self) -> Entry
        ensures { result ≡ entry_lent self.now }
    {
        self.journal.entry(self.journal.len() - 1)
    }
}
