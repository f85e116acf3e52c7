//! The calls that were accepted, as they are kept.

ghost use Rattle.std.specs.Prelude.{◌≡◌, ◌≤◌, ◌<◌, ◌++◌, ℕ, [], ◌∷◌, OnOk, length, true, vec_len, vec_capacity};
ghost use Rattle.gs_journal.specs.History.{History};
ghost use Rattle.gs_journal.specs.Last.{entry_lent};
ghost use Rattle.gs_kernel.specs.declared.executed.Executed.{Executed};
ghost use Rattle.gs_kernel.specs.Kernel.{last_entry};
ghost use Rattle.gs_runner.specs.Kept.{AllWithin, calls_kept, command_by, command_by_change, command_by_message, is_told_by_entry, told_call};

use crate::call::{Call, Called};
use crate::command::Command;
use gs_journal::{Entry, LastEntry};
use gs_kernel::{Command as Told, Executed, ThreadEvent};
use gs_layout::{Change, Message};
use gs_replies::Reply;
use std::alloc::{AllocError, Global};

/// A call as it is kept.
#[derive(Clone, Copy)]
pub(crate) enum Kept {
    /// The kernel was told something, and did it. What that was follows from the last entry that it added.
    Told {
        /// How many entries the journal had before.
        at: u32,
        /// How many it had then.
        end: u32,
    },
    /// The call at this place among the others.
    Other {
        index: usize,
    },
}

/// The calls that were accepted, in order. What the kernel was told, and did, follows from the journal, so that no copy of
/// it is kept.
#[derive(Drop)]
pub(crate) struct CallList {
    pub kept: Vec<Kept>,
    pub others: Vec<Call>,
}

impl CallList {
    /// Makes a list without calls. It does not allocate.
    pub(crate) fn new(alloc: Global) -> CallList
        ensures { (result.kept.items ≡ []) × (result.others.items ≡ []) }
    {
        CallList {
            kept: Vec::new(alloc),
            others: Vec::new(alloc),
        }
    }

    /// Makes room for one call more.
    #[inline(always)]
    pub(crate) fn reserve(&mut self) -> Result<(), AllocError>
        ensures kept { self.new.kept.items ≡ self.old.kept.items }
        ensures others { self.new.others.items ≡ self.old.others.items }
        ensures room { OnOk result ((vec_len self.new.kept < vec_capacity self.new.kept) × (vec_len self.new.others < vec_capacity self.new.others)) }
    {
        if self.kept.reserve(1).is_err() || self.others.reserve(1).is_err() {
            return Err(AllocError);
        }
        Ok(())
    }

    /// Appends that the kernel was told a command, which was not refused, by what became of it and the last entry.
    #[inline(always)]
    pub(crate) fn push_told(
        &mut self,
        command: &Told,
        executed: Executed,
        last: LastEntry<'_>,
        at: u32,
        end: u32,
    )
        requires kept { vec_len self.old.kept < vec_capacity self.old.kept }
        requires others { vec_len self.old.others < vec_capacity self.old.others }
        requires order { at ≤ end }
        requires follows { executed ≡ Executed.Done → is_told_by_entry command.now ≡ true → command_by (entry_lent last) ≡ command.now }
        ensures calls { (h : History) → end ≡ length h → entry_lent last.entry ≡ last_entry h → AllWithin end (length self.old.others.items) self.old.kept.items → calls_kept h self.new.others.items self.new.kept.items ≡ calls_kept h self.old.others.items self.old.kept.items ++ told_call command.now executed (entry_lent last.entry) at end ∷ [] }
        ensures within { AllWithin end (length self.old.others.items) self.old.kept.items → AllWithin end (length self.new.others.items) self.new.kept.items }
    {
        if let Executed::Done = executed {
            if is_told_by_entry(command) {
                self.kept.push_reserved(Kept::Told { at, end });
                return;
            }
        }
        self.push_copied(command, executed, last, at, end);
    }

    /// Appends the same with copies of the command and of the reply. It stands apart, since it is seldom called.
    #[cold]
    #[inline(never)]
    fn push_copied(
        &mut self,
        command: &Told,
        executed: Executed,
        last: LastEntry<'_>,
        at: u32,
        end: u32,
    )
        requires kept { vec_len self.old.kept < vec_capacity self.old.kept }
        requires others { vec_len self.old.others < vec_capacity self.old.others }
        requires order { at ≤ end }
        ensures calls { (h : History) (n : ℕ) → AllWithin n (length self.old.others.items) self.old.kept.items → calls_kept h self.new.others.items self.new.kept.items ≡ calls_kept h self.old.others.items self.old.kept.items ++ told_call command.now executed (entry_lent last.entry) at end ∷ [] }
        ensures within { (n : ℕ) → AllWithin n (length self.old.others.items) self.old.kept.items → AllWithin n (length self.new.others.items) self.new.kept.items }
    {
        self.push_other(Call {
            called: Called::Served(Command::Kernel { command: *command }),
            at,
            entries: end - at,
            reply: Reply::executed(executed, last),
        });
    }

    /// Appends a call.
    pub(crate) fn push_other(&mut self, call: Call)
        requires kept { vec_len self.old.kept < vec_capacity self.old.kept }
        requires others { vec_len self.old.others < vec_capacity self.old.others }
        ensures calls { (h : History) (n : ℕ) → AllWithin n (length self.old.others.items) self.old.kept.items → calls_kept h self.new.others.items self.new.kept.items ≡ calls_kept h self.old.others.items self.old.kept.items ++ call ∷ [] }
        ensures within { (n : ℕ) → AllWithin n (length self.old.others.items) self.old.kept.items → AllWithin n (length self.new.others.items) self.new.kept.items }
    {
        let index = self.others.len();
        self.others.push_reserved(call);
        self.kept.push_reserved(Kept::Other { index });
    }
}

/// Returns whether a command follows from the last entry that it adds: all but an activation do.
fn is_told_by_entry(command: &Told) -> bool
    ensures { result ≡ is_told_by_entry command.now }
{
    !matches!(command, Told::Activate { .. })
}

/// Returns the command, but for an activation, whose last entry is this one.
pub(crate) fn command_by(entry: &Entry) -> Told
    ensures { result ≡ command_by entry.now }
{
    match entry {
        Entry::Posted { message } => command_by_message(message),
        Entry::Role { cpu, .. } => Told::HandOff { cpu: *cpu },
        Entry::Begin { .. } => Told::Begin,
        Entry::Taken { cpu } => Told::Take { cpu: *cpu },
        Entry::Given { cpu } => Told::Give { cpu: *cpu },
        Entry::Left | Entry::Placed { .. } | Entry::Torn => Told::Leave,
    }
}

/// Returns the command whose last message is this one.
fn command_by_message(message: &Message) -> Told
    ensures { result ≡ command_by_message message.now }
{
    match message {
        Message::Thread { tid, change, .. } => command_by_change(*tid, change),
        Message::TimerTick { cpu } => Told::Tick { cpu: *cpu },
    }
}

/// Returns the command whose last message has this change of a thread.
fn command_by_change(tid: u32, change: &Change) -> Told
    ensures { result ≡ command_by_change tid change.now }
{
    let event = match change {
        Change::Created { facts } => return Told::Create { facts: *facts },
        Change::Preempted { .. } => return Told::Leave,
        Change::Blocked { .. } => ThreadEvent::Block,
        Change::Wakeup => ThreadEvent::Wake,
        Change::Yield { .. } => ThreadEvent::Yield,
        Change::Dead { .. } => ThreadEvent::Die,
        Change::Affinity { mask, .. } => ThreadEvent::Affinity { mask: *mask },
    };
    Told::Thread { tid, event }
}
