//! The account of a thread, which is short if nothing came to it.

ghost use Rattle.std.specs.Prelude.{◌≡◌, IfOk};
ghost use Rattle.gs_tallies.specs.Threads.{account_of, idle};

use crate::account::Account;
use gs_layout::Class;
use std::alloc::{AllocError, Global};
use std::marker::Model;

/// What a thread comes to that was created. One that was never placed, and that no slot names, takes little memory.
///
/// Contracts see the account.
#[derive(Drop)]
pub struct ThreadAccount {
    class: Class,
    tid: usize,
    /// The account, unless nothing came to the thread.
    whole: Option<Box<Account>>,
}

impl Model for ThreadAccount {
    ghost use Rattle.gs_tallies.specs.declared.account.Account.{Account};

    ghost Value = { Account };

    ghost use Rattle.gs_tallies.specs.Threads.{whole_or_idle};

    ghost view = { λ a. whole_or_idle a.class a.tid a.whole };
}

/// An account of a thread, lent.
#[derive(Clone, Copy)]
pub enum Held<'a> {
    /// The thread was never placed, and no slot names it.
    Idle { class: Class, tid: usize },
    Whole(&'a Account),
}

impl ThreadAccount {
    /// That of a thread to which nothing came.
    pub(crate) fn idle(class: Class, tid: usize) -> ThreadAccount
        ensures { result ≡ idle class tid }
    {
        ThreadAccount {
            class,
            tid,
            whole: None,
        }
    }

    /// That of a thread which comes to this.
    ///
    /// # Errors
    ///
    /// `AllocError` if out of memory.
    pub(crate) fn whole(
        alloc: Global,
        class: Class,
        tid: usize,
        account: Account,
    ) -> Result<ThreadAccount, AllocError>
        ensures { IfOk result (λ kept. kept ≡ account) }
    {
        let whole = Box::new(alloc, account)?;
        Ok(ThreadAccount {
            class,
            tid,
            whole: Some(whole),
        })
    }

    /// Lends the account.
    pub fn held(&self) -> Held<'_>
        ensures { account_of result ≡ self.now }
    {
        match &self.whole {
            Some(account) => Held::Whole(&**account),
            None => Held::Idle {
                class: self.class,
                tid: self.tid,
            },
        }
    }
}
