//! What a caller asks for, and what it gets.

ghost use Rattle.std.specs.Prelude.{◌≡◌, Ok};
ghost use Rattle.gs_journal.specs.Last.{entry_lent};
ghost use Rattle.gs_replies.specs.declared.reply.Reply.{Reply};
ghost use Rattle.gs_replies.specs.Replies.{reply_of};

use crate::command::Command;
use gs_journal::LastEntry;
use gs_kernel::Executed;
use gs_layout::Refusal;
use gs_replies::{Items, Reply};

/// What a call asked for.
#[derive(Drop, PartialEq, Debug)]
pub enum Called {
    /// `Enclave::serve` was given this command.
    Served(Command),
    /// `Enclave::commit` landed the slots of these CPUs, in increasing order of CPU. They had these bytes.
    Committed(Items<(u16, [u8; 32])>),
}

/// A call that was accepted: it was not refused.
#[derive(Drop, PartialEq, Debug)]
pub struct Call {
    pub called: Called,
    /// How many entries the journal had before.
    pub at: u32,
    /// How many it appended.
    pub entries: u32,
    pub reply: Reply,
}

/// What a caller gets.
#[derive(Drop, PartialEq, Debug)]
pub struct Receipt {
    /// How many entries the journal had before the call.
    pub at: u32,
    /// How many entries the call appended.
    pub entries: u32,
    pub reply: Reply,
}

impl Receipt {
    /// Makes the receipt of a call that was refused when the journal had so many entries.
    pub(crate) fn refused(at: u32, refusal: Refusal) -> Receipt
        ensures { result ≡ record { at = at; entries = 0; reply = Reply.Refused refusal } }
    {
        Receipt {
            at,
            entries: 0,
            reply: Reply::Refused(refusal),
        }
    }

    /// Makes the receipt of a command that was not refused, by what became of it and the kernel's last entry.
    #[inline(always)]
    pub(crate) fn executed(
        at: u32,
        entries: u32,
        executed: Executed,
        last: LastEntry<'_>,
    ) -> Receipt
        ensures { result ≡ record { at = at; entries = entries; reply = reply_of (Ok executed) (entry_lent last.entry) } }
    {
        // It is returned where it is made: the entry is copied once less.
        if let Executed::Done = executed {
            return Receipt {
                at,
                entries,
                reply: Reply::Done(last.entry()),
            };
        }
        Receipt {
            at,
            entries,
            reply: Reply::Torn,
        }
    }
}
