ghost use Rattle.std.specs.Prelude.{◌≡◌, ◌+◌, ◌<◌, ◌≤◌, [], ◌∷◌, ◌++◌, None, Some, IfErr, OnOk, false, length, nat_le};
ghost use Rattle.std.specs.Option.{option_copied};
ghost use Rattle.gs_kernel.specs.First.{first_that};
ghost use Rattle.gs_kernel.specs.Kernel.{IsRefusal};
ghost use Rattle.gs_kernel.specs.declared.settings.TheConstants.{MOST_HISTORY};
ghost use Rattle.gs_core.specs.Machine.{transaction_of};

use crate::transaction::Transaction;
use gs_kernel::MOST_HISTORY;
use gs_layout::Refusal;
use std::alloc::{AllocError, Global};
use std::marker::Model;

/// All transactions, in the order in which they were stamped, which numbers them from 1. There are at most
/// [`MOST_HISTORY`], so a number has 32 bits.
#[derive(Drop)]
pub(crate) struct Transactions {
    items: Vec<Transaction>,
}

impl Model for Transactions {
    ghost use Rattle.std.specs.Prelude.{◌≤◌, ◌-◌, vec_len, vec_capacity};
    ghost use Rattle.gs_kernel.specs.declared.settings.TheConstants.{MOST_HISTORY};
    ghost use Rattle.gs_core.specs.Transactions.{TransactionList};

    ghost Value = { TransactionList };

    ghost view = { λ t. record { items = t.items.items; room = vec_capacity t.items - vec_len t.items } };

    ghost invariant = { λ t. vec_len t.items ≤ MOST_HISTORY };
}

impl Transactions {
    /// Makes an empty list. It does not allocate.
    pub(crate) fn new(alloc: Global) -> Transactions
        ensures items { result.items ≡ [] }
    {
        Transactions {
            items: Vec::new(alloc),
        }
    }

    /// Returns how many transactions there are.
    pub(crate) fn len(&self) -> u32
        ensures value { result ≡ length self.now.items }
        ensures most { result ≤ MOST_HISTORY }
    {
        self.items.len() as u32
    }

    /// Returns a transaction by its number.
    pub(crate) fn get(&self, number: u32) -> Option<&Transaction>
        ensures { option_copied result ≡ transaction_of self.now.items number }
    {
        self.items.get((number as usize).checked_sub(1)?)
    }

    /// Lends all of them, in order.
    pub(crate) fn as_slice(&self) -> &[Transaction]
        ensures { result.now ≡ self.now.items }
    {
        &self.items
    }

    /// Makes room for `additional` more, so that `push` can add them.
    ///
    /// # Errors
    ///
    /// `AllocError` if out of memory.
    pub(crate) fn reserve(&mut self, additional: usize) -> Result<(), AllocError>
        ensures room { OnOk result (additional ≤ self.new.room) }
        ensures items { self.new.items ≡ self.old.items }
    {
        self.items.reserve(additional)
    }

    /// Makes room for one more of at most so many.
    ///
    /// # Errors
    ///
    /// `HistoryFull` if there are so many, and else `OutOfMemory` if out of memory.
    pub(crate) fn make_room(&mut self, most: u32) -> Result<(), Refusal>
        ensures room { OnOk result (0 < self.new.room) }
        ensures fits { OnOk result (nat_le most (length self.old.items) ≡ false) }
        ensures refused { IfErr result (IsRefusal (first_that ((nat_le most (length self.old.items), Some Refusal.HistoryFull) ∷ []) None)) }
        ensures items { self.new.items ≡ self.old.items }
    {
        if self.len() >= most {
            return Err(Refusal::HistoryFull);
        }
        Ok(self.reserve(1)?)
    }

    /// Adds a transaction, for which room was made before.
    pub(crate) fn push(&mut self, transaction: Transaction)
        requires room { 0 < self.old.room }
        requires few { length self.old.items < MOST_HISTORY }
        ensures items { self.new.items ≡ self.old.items ++ transaction ∷ [] }
        ensures room { self.old.room ≤ self.new.room + 1 }
    {
        self.items.push_reserved(transaction);
    }
}
