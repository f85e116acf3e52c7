//! What each thread comes to, told of one thread after another.

ghost use Rattle.std.specs.Prelude.{◌≡◌, ◌<◌, IfOk, OnOk, Some, length, true};
ghost use Rattle.gs_layout.specs.declared.facts.Class.{Class};
ghost use Rattle.gs_tallies.specs.Accounts.{IsAccountOfThread, class_known};
ghost use Rattle.gs_tallies.specs.Threads.{idle};

use crate::account::Account;
use crate::chains::{Chains, chained};
use crate::group::Draft;
use crate::grouping::{ByThread, class_known};
use crate::landings::LandingDraft;
use crate::tally::TurnDraft;
use gs_kernel::Landing;
use gs_layout::Class;
use gs_turns::{Known, Turn};
use std::alloc::{AllocError, Global};
use std::marker::Model;

/// The turns and the landings of each thread, where they stand.
///
/// Contracts see what all threads are told of by.
#[derive(Drop)]
pub struct EachThread<'a> {
    /// What is known of each thread, in the place of its tid.
    known: &'a [Known],
    turns: &'a [Turn],
    landings: &'a [Landing],
    /// Which turns are of each thread.
    turns_of: Chains,
    /// Which slots name each thread.
    landings_of: Chains,
}

impl<'a> Model for EachThread<'a> {
    ghost use Rattle.std.specs.Prelude.{length};
    ghost use Rattle.gs_tallies.specs.Chains.{AreLinked};
    ghost use Rattle.gs_tallies.specs.Each.{Grounds, landing_tid, turn_tid};

    ghost Value = { Grounds };

    ghost view = { λ e. record { known = e.known.now; turns = e.turns.now; landings = e.landings.now } };

    ghost invariant = { λ e. record {
      turned : AreLinked turn_tid e.turns.now (length e.known.now) e.turns_of;
      landed : AreLinked landing_tid e.landings.now (length e.known.now) e.landings_of;
    } };
}

/// Lists that serve one thread after another, so that their memory is taken once.
#[derive(Drop)]
pub struct Scratch {
    draft: TurnDraft,
    numbers: Vec<usize>,
}

impl Scratch {
    /// Makes empty lists. It does not allocate.
    pub fn new(alloc: Global) -> Scratch {
        Scratch {
            draft: TurnDraft::empty(alloc),
            numbers: Vec::new(alloc),
        }
    }
}

impl<'a> EachThread<'a> {
    /// Finds out which turns and landings are of each thread. What is known of each thread is given in the place of its tid.
    ///
    /// # Errors
    ///
    /// `AllocError` if out of memory.
    pub fn new(
        alloc: Global,
        known: &'a [Known],
        turns: &'a [Turn],
        landings: &'a [Landing],
    ) -> Result<EachThread<'a>, AllocError>
        ensures known { IfOk result (λ each. each.known ≡ known.now) }
        ensures turns { IfOk result (λ each. each.turns ≡ turns.now) }
        ensures landings { IfOk result (λ each. each.landings ≡ landings.now) }
    {
        let turns_of = chained(alloc, &ByThread, turns, known.len())?;
        let landings_of = chained(alloc, &ByThread, landings, known.len())?;
        Ok(EachThread {
            known,
            turns,
            landings,
            turns_of,
            landings_of,
        })
    }

    /// Returns how many tids there are, from 0 on.
    pub fn count(&self) -> usize
        ensures { result ≡ length self.now.known }
    {
        self.known.len()
    }

    /// Returns the class of a thread, or `None` if it was not created.
    pub fn class(&self, tid: usize) -> Option<Class>
        ensures { result ≡ class_known self.now.known tid }
    {
        class_known(self.known, tid)
    }

    /// Returns whether a thread was never placed, and no slot names it.
    pub fn is_idle(&self, tid: usize) -> bool
        requires { tid < length self.now.known }
        ensures { (class : Class) → class_known self.now.known tid ≡ Some class → result ≡ true → IsAccountOfThread self.now.known self.now.turns self.now.landings tid (idle class tid) }
    {
        self.turns_of.is_empty(tid) && self.landings_of.is_empty(tid)
    }

    /// Has an account tell what a thread comes to that was created, whatever it told before.
    ///
    /// # Errors
    ///
    /// `AllocError` if out of memory.
    pub fn tell(
        &self,
        alloc: Global,
        class: Class,
        tid: usize,
        scratch: &mut Scratch,
        account: &mut Account,
    ) -> Result<(), AllocError>
        requires within { tid < length self.now.known }
        requires class { class_known self.now.known tid ≡ Some class }
        ensures { OnOk result (IsAccountOfThread self.now.known self.now.turns self.now.landings tid account.new) }
    {
        scratch.draft.clear();
        self.turns_of
            .add_all(alloc, self.turns, tid, &mut scratch.draft)?;
        let mut landings = LandingDraft::empty(alloc);
        self.landings_of
            .add_all(alloc, self.landings, tid, &mut landings)?;
        account.class = Some(class);
        account.tid = Some(tid);
        account.tally = scratch.draft.tally(&mut scratch.numbers)?;
        account.landings = landings.outcomes();
        Ok(())
    }
}
