//! The calls that were accepted, as they are shown.

ghost use Rattle.std.specs.Prelude.{◌≡◌, ◌↔◌, ◌==◌, ◌≤◌, IsTrue, length, option_map, slice_get, true};
ghost use Rattle.std.specs.List.{list_all};
ghost use Rattle.std.specs.List.Sorted.{IsNonDecreasingBy};
ghost use Rattle.gs_replies.specs.declared.reply.Reply.{Reply};
ghost use Rattle.gs_runner.specs.declared.command.Command.{Command as Commands};
ghost use Rattle.gs_runner.specs.Shown.{shown_call};
ghost use Rattle.gs_runner.specs.Kept.{AllWithin, AreBefore, IsWithin, call_kept, calls_kept, command_by, entry_before, kept_at};
ghost use Rattle.gs_runner.specs.Holds.{Stands, answers_command, call_of};

use crate::call::{Call, Called, Receipt};
use crate::command::Command;
use crate::kept::{CallList, Kept, command_by};
use crate::same::{same_entry, same_reply};
use crate::same_command::{same_command, same_told};
use gs_journal::{Entry, Journal};
use gs_kernel::Command as Told;
use gs_replies::Reply;
use std::marker::Model;

/// A call that was accepted.
#[derive(Clone, Copy)]
pub enum CallRef<'a> {
    /// The kernel was told a command, and did it: the reply was `Done`, with the last entry that it added.
    Told {
        command: Told,
        /// How many entries the journal had before.
        at: u32,
        /// How many it appended.
        entries: u32,
        last: Entry,
    },
    /// Any other call.
    Other {
        call: &'a Call,
    },
}

/// The calls that were accepted, in order. Clauses see them as a list of calls.
#[derive(Drop)]
pub struct Calls<'a> {
    journal: &'a Journal,
    kept: &'a [Kept],
    others: &'a [Call],
}

impl<'a> Model for Calls<'a> {
    ghost use Rattle.std.specs.Prelude.{List, length};
    ghost use Rattle.gs_runner.specs.declared.call.Call.{Call};
    ghost use Rattle.gs_runner.specs.Kept.{AllWithin, calls_kept};

    ghost Value = { List Call };

    ghost view = { λ c. calls_kept c.journal.now.entries c.others.now c.kept.now };

    ghost invariant = { λ c. AllWithin (length c.journal.now.entries) (length c.others.now) c.kept.now };
}

impl<'a> Calls<'a> {
    /// Shows the calls of a list, beside the journal that they made.
    pub(crate) fn new(journal: &'a Journal, list: &'a CallList) -> Calls<'a>
        requires { AllWithin (length journal.now.entries) (length list.now.others.items) list.now.kept.items }
        ensures { result ≡ calls_kept journal.now.entries list.now.others.items list.now.kept.items }
    {
        Calls {
            journal,
            kept: list.kept.as_slice(),
            others: list.others.as_slice(),
        }
    }

    /// Returns how many calls there are.
    pub fn len(&self) -> usize
        ensures { result ≡ length self.now }
    {
        self.kept.len()
    }

    /// Returns whether there is no call.
    pub fn is_empty(&self) -> bool
        ensures { result ≡ (length self.now == 0) }
    {
        self.kept.is_empty()
    }

    /// Returns the call at a place, counted from 0, if there is one.
    pub fn get(&self, index: usize) -> Option<CallRef<'a>>
        ensures { option_map shown_call result ≡ slice_get self.now index }
    {
        let kept = self.kept.get(index)?;
        Some(show(self.journal, self.others, kept))
    }

    /// Returns whether some call has this command, and the receipt's place in the journal, count of entries and
    /// reply.
    pub(crate) fn holds(&self, command: &Command, receipt: &Receipt) -> bool
        requires answered { list_all answers_command self.now ≡ true }
        requires order { IsNonDecreasingBy (λ c. c.at) self.now }
        ensures { IsTrue result ↔ Stands self.now command.now receipt.now }
    {
        let before = count_before(self.others, self.kept, receipt.at);
        stands_behind(
            self.journal,
            self.others,
            self.kept,
            before,
            command,
            receipt,
        )
    }
}

/// Returns the last of so many entries.
pub(crate) fn entry_before(journal: &Journal, end: usize) -> Entry
    requires { end ≤ length journal.now.entries }
    ensures { result ≡ entry_before journal.now.entries end }
{
    match end {
        0 => Entry::Torn,
        n => journal.entry(n - 1),
    }
}

/// Returns whether the kernel was told this command if the last of so many entries is the last that it added.
pub(crate) fn is_told_before(journal: &Journal, end: usize, command: &Command) -> bool
    requires { end ≤ length journal.now.entries }
    ensures { IsTrue result → Commands.Kernel (command_by (entry_before journal.now.entries end)) ≡ command.now }
{
    match command {
        Command::Kernel { command } => {
            same_told(&command_by(&entry_before(journal, end)), command)
        }
        _ => false,
    }
}

/// Shows a call that is kept so.
fn show<'a>(journal: &Journal, others: &'a [Call], kept: &Kept) -> CallRef<'a>
    requires { IsWithin (length journal.now.entries) (length others.now) kept.now }
    ensures { shown_call result ≡ call_kept journal.now.entries others.now kept.now }
{
    match kept {
        Kept::Told { at, end } => {
            let last = entry_before(journal, *end as usize);
            CallRef::Told {
                command: command_by(&last),
                at: *at,
                entries: *end - *at,
                last,
            }
        }
        Kept::Other { index } => CallRef::Other {
            call: &others[*index],
        },
    }
}

/// Returns how many entries the journal had before a call that is kept so.
pub(crate) fn place(others: &[Call], kept: &Kept) -> u32
    ensures { result ≡ kept_at others.now kept.now }
{
    match kept {
        Kept::Told { at, .. } => *at,
        Kept::Other { index } => match others.get(*index) {
            Some(call) => call.at,
            None => 0,
        },
    }
}

/// Returns how many calls were made when the journal had fewer entries. The places of all never fall.
fn count_before(others: &[Call], kept: &[Kept], at: u32) -> usize
    requires { IsNonDecreasingBy (kept_at others.now) kept.now }
    ensures { AreBefore others.now at kept.now result }
{
    kept.partition_point(|kept| place(others, kept) < at)
}

/// Returns whether the kernel was told this command if this is the last entry that it added, and this the reply.
fn is_done(last: &Entry, command: &Command, reply: &Reply) -> bool
    ensures { IsTrue result ↔ (Commands.Kernel (command_by last.now) ≡ command.now) × (Reply.Done last.now ≡ reply.now) }
{
    match (command, reply) {
        (Command::Kernel { command }, Reply::Done(entry)) => {
            same_entry(last, entry) && same_told(&command_by(last), command)
        }
        _ => false,
    }
}

/// Returns the same of the last of so many entries.
fn is_last(journal: &Journal, end: u32, command: &Command, reply: &Reply) -> bool
    requires { end ≤ length journal.now.entries }
    ensures { IsTrue result ↔ (Commands.Kernel (command_by (entry_before journal.now.entries end)) ≡ command.now) × (Reply.Done (entry_before journal.now.entries end) ≡ reply.now) }
{
    is_done(&entry_before(journal, end as usize), command, reply)
}

/// Returns whether a call has this command, and the receipt's place, count of entries and reply.
fn is_other(call: &Call, command: &Command, receipt: &Receipt) -> bool
    requires { answers_command call.now ≡ true }
    ensures { IsTrue result ↔ (call.now ≡ call_of command.now receipt.now) }
{
    let Called::Served(served) = &call.called else {
        return false;
    };
    call.at == receipt.at
        && call.entries == receipt.entries
        && same_command(served, command)
        && same_reply(&call.reply, &receipt.reply)
}

/// Returns whether a call that is kept so has this command, and the receipt's place, count of entries and reply.
fn is_call(
    journal: &Journal,
    others: &[Call],
    kept: &Kept,
    command: &Command,
    receipt: &Receipt,
) -> bool
    requires within { IsWithin (length journal.now.entries) (length others.now) kept.now }
    requires answered { answers_command (call_kept journal.now.entries others.now kept.now) ≡ true }
    ensures { IsTrue result ↔ (call_kept journal.now.entries others.now kept.now ≡ call_of command.now receipt.now) }
{
    match kept {
        Kept::Told { at, end } => {
            *at == receipt.at
                && *end - *at == receipt.entries
                && is_last(journal, *end, command, &receipt.reply)
        }
        Kept::Other { index } => is_other(&others[*index], command, receipt),
    }
}

/// Returns whether one of the calls that are kept so has this command, and the receipt's place, count of entries and reply.
/// Their places never fall, so it looks no further than the receipt's.
fn stands(
    journal: &Journal,
    others: &[Call],
    kept: &[Kept],
    command: &Command,
    receipt: &Receipt,
) -> bool
    requires within { AllWithin (length journal.now.entries) (length others.now) kept.now }
    requires answered { list_all answers_command (calls_kept journal.now.entries others.now kept.now) ≡ true }
    requires order { IsNonDecreasingBy (kept_at others.now) kept.now }
    ensures { IsTrue result ↔ Stands (calls_kept journal.now.entries others.now kept.now) command.now receipt.now }
{
    match kept.split_first() {
        Some((first, rest)) => {
            is_call(journal, others, first, command, receipt)
                || (place(others, first) <= receipt.at
                    && stands(journal, others, rest, command, receipt))
        }
        None => false,
    }
}

/// Returns the same, if the first so many of these calls were made before the receipt's.
pub(crate) fn stands_behind(
    journal: &Journal,
    others: &[Call],
    kept: &[Kept],
    before: usize,
    command: &Command,
    receipt: &Receipt,
) -> bool
    requires within { AllWithin (length journal.now.entries) (length others.now) kept.now }
    requires answered { list_all answers_command (calls_kept journal.now.entries others.now kept.now) ≡ true }
    requires order { IsNonDecreasingBy (kept_at others.now) kept.now }
    requires before { AreBefore others.now receipt.now.at kept.now before }
    ensures { IsTrue result ↔ Stands (calls_kept journal.now.entries others.now kept.now) command.now receipt.now }
{
    let (_, later) = kept.split_at(before);
    stands(journal, others, later, command, receipt)
}
