//! The receipts of a run.

ghost use Rattle.std.specs.Prelude.{◌≡◌, ◌==◌, ◌+◌, ◌<◌, ◌≤◌, ◌++◌, [], ◌∷◌, OnOk, length, option_map, slice_get};
ghost use Rattle.gs_journal.specs.History.{History};
ghost use Rattle.gs_runner.specs.Kept.{entry_before};
ghost use Rattle.gs_runner.specs.Slips.{AreInside, IsInside, StandsIn, done_receipt, receipt_kept, receipts_in, shown_receipt};

use crate::call::Receipt;
use crate::calls::entry_before;
use gs_journal::{Entry, Journal};
use gs_replies::Reply;
use std::alloc::{AllocError, Global};
use std::marker::Model;

/// A receipt as it is kept.
#[derive(Clone, Copy)]
pub(crate) enum Slip {
    /// The kernel was told a command, and did it: the reply was `Done`, with the last entry that it added.
    Done {
        /// How many entries the journal had before.
        at: u32,
        /// How many it appended.
        entries: u32,
    },
    /// The receipt at this place among the others.
    Other {
        index: usize,
    },
}

/// A receipt of a run.
#[derive(Clone, Copy)]
pub enum ReceiptRef<'a> {
    /// The kernel was told a command, and did it: the reply was `Done`, with the last entry that it added.
    Done {
        /// How many entries the journal had before.
        at: u32,
        /// How many it appended.
        entries: u32,
        last: Entry,
    },
    /// Any other receipt.
    Other {
        receipt: &'a Receipt,
    },
}

/// The receipts of a thread of a run, in order. They are read beside the journal of the run. If the kernel did a command,
/// the reply is the last entry that it added: that stands in the journal, and no copy of it is kept.
#[derive(Drop)]
pub struct Receipts {
    slips: Vec<Slip>,
    others: Vec<Receipt>,
}

impl Model for Receipts {
    ghost use Rattle.std.specs.Prelude.{◌-◌, length, min, vec_len, vec_capacity};
    ghost use Rattle.gs_runner.specs.Slips.{AreInside, ReceiptsOf};

    ghost Value = { ReceiptsOf };

    ghost view = { λ r. record { slips = r.slips.items; others = r.others.items; room = min (vec_capacity r.slips - vec_len r.slips) (vec_capacity r.others - vec_len r.others) } };

    ghost invariant = { λ r. AreInside (length r.others.items) r.slips.items };
}

impl Receipts {
    /// Makes a list without receipts. It does not allocate.
    pub(crate) fn new(alloc: Global) -> Receipts
        ensures { (result.slips ≡ []) × (result.others ≡ []) }
    {
        Receipts {
            slips: Vec::new(alloc),
            others: Vec::new(alloc),
        }
    }

    /// Makes room for `additional` more.
    pub(crate) fn reserve(&mut self, additional: usize) -> Result<(), AllocError>
        ensures room { OnOk result (additional ≤ self.new.room) }
        ensures same { (self.new.slips ≡ self.old.slips) × (self.new.others ≡ self.old.others) }
    {
        self.slips.reserve(additional)?;
        self.others.reserve(additional)
    }

    /// Appends a receipt, for which there is room. What is shown of it beside a journal is the receipt, if the entry that it
    /// says, if it says one, stands in the journal.
    #[inline(always)]
    pub(crate) fn push(&mut self, receipt: Receipt)
        requires { 0 < self.old.room }
        ensures shown { (h : History) → StandsIn h receipt → receipts_in h self.new ≡ receipts_in h self.old ++ receipt ∷ [] }
        ensures room { self.old.room ≤ self.new.room + 1 }
    {
        if let Reply::Done(_) = receipt.reply {
            self.slips.push_reserved(Slip::Done {
                at: receipt.at,
                entries: receipt.entries,
            });
            return;
        }
        let index = self.others.len();
        self.others.push_reserved(receipt);
        self.slips.push_reserved(Slip::Other { index });
    }

    /// Returns how many receipts there are.
    pub fn len(&self) -> usize
        ensures { result ≡ length self.now.slips }
    {
        self.slips.len()
    }

    /// Returns whether there is no receipt.
    pub fn is_empty(&self) -> bool
        ensures { result ≡ (length self.now.slips == 0) }
    {
        self.slips.is_empty()
    }

    /// Returns the receipt at a place, counted from 0, if there is one. The journal is that of the run.
    pub fn get(&self, journal: &Journal, index: usize) -> Option<ReceiptRef<'_>>
        ensures { option_map shown_receipt result ≡ slice_get (receipts_in journal.now.entries self.now) index }
    {
        let slip = self.slips.get(index)?;
        Some(show(journal, self.others.as_slice(), slip))
    }

    /// Lends the receipts as they are kept.
    pub(crate) fn slips(&self) -> &[Slip]
        ensures { result.now ≡ self.now.slips }
    {
        self.slips.as_slice()
    }

    /// Lends the others.
    pub(crate) fn others(&self) -> &[Receipt]
        ensures value { result.now ≡ self.now.others }
        ensures inside { AreInside (length result.now) self.now.slips }
    {
        self.others.as_slice()
    }
}

/// Returns the last of so many entries, or of all if there are fewer.
fn last_before(journal: &Journal, end: usize) -> Entry
    ensures { result ≡ entry_before journal.now.entries end }
{
    let most = journal.len();
    entry_before(journal, if end < most { end } else { most })
}

/// Returns the receipt of a command that the kernel did, by its place and its count of entries.
pub(crate) fn done_receipt(journal: &Journal, at: u32, entries: u32) -> Receipt
    ensures { result ≡ done_receipt journal.now.entries at entries }
{
    Receipt {
        at,
        entries,
        reply: Reply::Done(last_before(journal, at as usize + entries as usize)),
    }
}

/// Returns how many entries the journal had before the call of a receipt that is kept so.
pub(crate) fn slip_at(others: &[Receipt], slip: &Slip) -> u32
    requires { IsInside (length others.now) slip.now }
    ensures { (h : History) → result ≡ (receipt_kept h others.now slip.now).at }
{
    match slip {
        Slip::Done { at, .. } => *at,
        Slip::Other { index } => others[*index].at,
    }
}

/// Shows a receipt that is kept so.
fn show<'a>(journal: &Journal, others: &'a [Receipt], slip: &Slip) -> ReceiptRef<'a>
    requires { IsInside (length others.now) slip.now }
    ensures { shown_receipt result ≡ receipt_kept journal.now.entries others.now slip.now }
{
    match slip {
        Slip::Done { at, entries } => ReceiptRef::Done {
            at: *at,
            entries: *entries,
            last: last_before(journal, *at as usize + *entries as usize),
        },
        Slip::Other { index } => ReceiptRef::Other {
            receipt: &others[*index],
        },
    }
}
