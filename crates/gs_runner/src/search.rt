//! A search of the calls for the receipts of a list, whose places in the journal never fall.

ghost use Rattle.std.specs.Prelude.{◌≡◌, ◌↔◌, ◌+◌, ◌≤◌, IsTrue, length, true};
ghost use Rattle.std.specs.List.{list_all};
ghost use Rattle.std.specs.List.Sorted.{IsNonDecreasingBy};
ghost use Rattle.gs_runner.specs.Holds.{Stands, answers_command};
ghost use Rattle.gs_runner.specs.Kept.{AllWithin, AreBefore, calls_kept};
ghost use Rattle.gs_runner.specs.Slips.{done_receipt};

use crate::call::{Call, Receipt};
use crate::calls::{is_told_before, place, stands_behind};
use crate::command::Command;
use crate::kept::{CallList, Kept};
use crate::receipts::done_receipt;
use gs_journal::Journal;
use std::marker::Model;

/// A search that goes on from the place of the receipt before. Clauses see the journal, the calls, and that place.
#[derive(Drop)]
pub(crate) struct Search<'a> {
    journal: &'a Journal,
    others: &'a [Call],
    kept: &'a [Kept],
    /// How many of the calls are known to be made before the place.
    passed: usize,
    at: u32,
}

impl<'a> Model for Search<'a> {
    ghost use Rattle.std.specs.Prelude.{◌≡◌, length, true};
    ghost use Rattle.std.specs.List.{list_all};
    ghost use Rattle.std.specs.List.Sorted.{IsNonDecreasingBy};
    ghost use Rattle.gs_runner.specs.Holds.{SearchOf, answers_command};
    ghost use Rattle.gs_runner.specs.Kept.{AllWithin, AreBefore, calls_kept, kept_at};

    ghost Value = { SearchOf };

    ghost view = { λ s. record { entries = s.journal.now.entries; calls = calls_kept s.journal.now.entries s.others.now s.kept.now; at = s.at } };

    ghost invariant = { λ s. AllWithin (length s.journal.now.entries) (length s.others.now) s.kept.now × (list_all answers_command (calls_kept s.journal.now.entries s.others.now s.kept.now) ≡ true) × IsNonDecreasingBy (kept_at s.others.now) s.kept.now × AreBefore s.others.now s.at s.kept.now s.passed };
}

impl<'a> Search<'a> {
    /// Begins to search a list of calls, beside the journal that they made.
    pub(crate) fn new(journal: &'a Journal, list: &'a CallList) -> Search<'a>
        requires within { AllWithin (length journal.now.entries) (length list.now.others.items) list.now.kept.items }
        requires answered { list_all answers_command (calls_kept journal.now.entries list.now.others.items list.now.kept.items) ≡ true }
        requires order { IsNonDecreasingBy (λ c. c.at) (calls_kept journal.now.entries list.now.others.items list.now.kept.items) }
        ensures { result ≡ record { entries = journal.now.entries; calls = calls_kept journal.now.entries list.now.others.items list.now.kept.items; at = 0 } }
    {
        Search {
            journal,
            others: list.others.as_slice(),
            kept: list.kept.as_slice(),
            passed: 0,
            at: 0,
        }
    }

    /// Returns whether some call has this command, and the receipt's place in the journal, count of entries and reply.
    pub(crate) fn holds(&mut self, command: &Command, receipt: &Receipt) -> bool
        requires order { self.old.at ≤ receipt.now.at }
        ensures exact { IsTrue result ↔ Stands self.old.calls command.now receipt.now }
        ensures same { self.new ≡ record self.old { at = receipt.now.at } }
    {
        self.passed = pass(self.others, self.kept, self.passed, receipt.at);
        self.at = receipt.at;
        stands_behind(
            self.journal,
            self.others,
            self.kept,
            self.passed,
            command,
            receipt,
        )
    }

    /// Returns the same of the receipt of a command that the kernel did, by its place and its count of entries.
    pub(crate) fn holds_done(&mut self, command: &Command, at: u32, entries: u32) -> bool
        requires order { self.old.at ≤ at }
        ensures exact { IsTrue result ↔ Stands self.old.calls command.now (done_receipt self.old.entries at entries) }
        ensures same { self.new ≡ record self.old { at = at } }
    {
        self.passed = pass(self.others, self.kept, self.passed, at);
        self.at = at;
        is_next(
            self.journal,
            self.others,
            self.kept,
            self.passed,
            command,
            at,
            entries,
        ) || stands_behind(
            self.journal,
            self.others,
            self.kept,
            self.passed,
            command,
            &done_receipt(self.journal, at, entries),
        )
    }
}

/// Returns whether the entries from one place up to another begin at this one and are so many.
fn is_between(from: u32, end: u32, at: u32, entries: u32) -> bool
    ensures { IsTrue result → (from ≡ at) × (end ≡ at + entries) }
{
    from == at && end as usize == at as usize + entries as usize
}

/// Returns whether the next call is that the kernel was told this command, and did it, at this place and with so many
/// entries. It need not be: others may stand at the place before it.
fn is_next(
    journal: &Journal,
    others: &[Call],
    kept: &[Kept],
    passed: usize,
    command: &Command,
    at: u32,
    entries: u32,
) -> bool
    requires { AllWithin (length journal.now.entries) (length others.now) kept.now }
    ensures { IsTrue result → Stands (calls_kept journal.now.entries others.now kept.now) command.now (done_receipt journal.now.entries at entries) }
{
    match kept.get(passed) {
        Some(Kept::Told { at: place, end }) => {
            is_between(*place, *end, at, entries) && is_told_before(journal, *end as usize, command)
        }
        _ => false,
    }
}

/// Passes the next calls that were made when the journal had fewer entries, and returns how many were passed then.
fn pass(others: &[Call], kept: &[Kept], passed: usize, at: u32) -> usize
    requires { AreBefore others.now at kept.now passed }
    ensures { AreBefore others.now at kept.now result }
{
    let mut passed = passed;
    'calls: while let Some(next) = kept.get(passed) {
        if place(others, next) >= at {
            break;
        }
        passed += 1;
    }
    passed
}
