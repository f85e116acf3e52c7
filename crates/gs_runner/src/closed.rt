//! What is left of an enclave at its end.

ghost use Rattle.std.specs.Prelude.{◌≡◌, ◌↔◌, IsTrue, length, true};
ghost use Rattle.std.specs.List.{list_all};
ghost use Rattle.std.specs.List.Sorted.{IsNonDecreasingBy};
ghost use Rattle.gs_runner.specs.Calls.{IsLegal};
ghost use Rattle.gs_runner.specs.Holds.{Stands, answers_command};
ghost use Rattle.gs_runner.specs.Kept.{AllWithin, calls_kept};
ghost use Rattle.gs_runner.specs.declared.pass.TheConstants.{PASSES};

use crate::call::Receipt;
use crate::calls::Calls;
use crate::command::Command;
use crate::enclave::Enclave;
use crate::kept::CallList;
use crate::log::Log;
use crate::search::Search;
use crate::site::Site;
use gs_journal::Journal;
use std::marker::Model;
use std::sync::ledger::Share as Part;

/// The journal of a closed enclave, and the calls that it accepted. They are a legal history for the journal, as
/// [`Station::close`](crate::Station::close) says.
#[derive(Drop)]
pub struct Closed {
    journal: Journal,
    list: CallList,
}

impl Model for Closed {
    ghost use Rattle.std.specs.Prelude.{◌≡◌, length, true};
    ghost use Rattle.std.specs.List.{list_all};
    ghost use Rattle.std.specs.List.Sorted.{IsNonDecreasingBy};
    ghost use Rattle.gs_runner.specs.Closing.{ClosedOf};
    ghost use Rattle.gs_runner.specs.Holds.{answers_command};
    ghost use Rattle.gs_runner.specs.Kept.{AllWithin, calls_kept};

    ghost Value = { ClosedOf };

    ghost view = { λ c. record { journal = c.journal; calls = calls_kept c.journal.entries c.list.others.items c.list.kept.items } };

    ghost invariant = { λ c. (list_all answers_command (calls_kept c.journal.entries c.list.others.items c.list.kept.items) ≡ true) × IsNonDecreasingBy (λ x. x.at) (calls_kept c.journal.entries c.list.others.items c.list.kept.items) × AllWithin (length c.journal.entries) (length c.list.others.items) c.list.kept.items };
}

impl Closed {
    /// Puts a journal and its calls together.
    pub(crate) fn new(journal: Journal, list: CallList) -> Closed
        requires answered { list_all answers_command (calls_kept journal.entries list.others.items list.kept.items) ≡ true }
        requires order { IsNonDecreasingBy (λ x. x.at) (calls_kept journal.entries list.others.items list.kept.items) }
        requires within { AllWithin (length journal.entries) (length list.others.items) list.kept.items }
        ensures { (result.journal ≡ journal) × (result.calls ≡ calls_kept journal.entries list.others.items list.kept.items) }
    {
        Closed { journal, list }
    }

    /// Lends the journal of all that happened.
    pub fn journal(&self) -> &Journal
        ensures { result.now ≡ self.now.journal }
    {
        &self.journal
    }

    /// Shows the calls that were accepted, in order.
    pub fn calls(&self) -> Calls<'_>
        ensures { result ≡ self.now.calls }
    {
        Calls::new(&self.journal, &self.list)
    }

    /// Returns whether some call has this command, and the receipt's place in the journal, count of entries and
    /// reply. No call has the receipt of one that was refused.
    pub fn holds(&self, command: &Command, receipt: &Receipt) -> bool
        ensures { IsTrue result ↔ Stands self.now.calls command.now receipt.now }
    {
        Calls::new(&self.journal, &self.list).holds(command, receipt)
    }

    /// Begins a search of the calls for receipts whose places in the journal never fall.
    pub(crate) fn search(&self) -> Search<'_>
        ensures { result ≡ record { entries = self.now.journal.entries; calls = self.now.calls; at = 0 } }
    {
        Search::new(&self.journal, &self.list)
    }
}

impl<L: Site> Enclave<L> {
    /// Shows that there are as many calls as all shares count.
    pub(crate) fn audit(&mut self, all: &mut Part<L>)
        requires { all.old.parts ≡ PASSES }
        ensures same { self.new ≡ self.old }
        ensures counted { length self.new.calls ≡ all.old.amount }
    {
        self.log.book.audit(all);
    }

    /// Gives journal and calls.
    pub(crate) fn into_closed(self) -> Closed
        ensures value { (result.journal.entries ≡ self.history) × (result.calls ≡ self.calls) }
        ensures legal { IsLegal L.parcels result.calls result.journal.entries }
    {
        let Enclave {
            alloc: _,
            kernel,
            log,
        } = self;
        let Log {
            list,
            book: _,
            seat: _,
        } = log;
        Closed::new(kernel.into_journal(), list)
    }
}
