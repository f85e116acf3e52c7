//! What came of an event.

ghost use Rattle.std.specs.Prelude.{◌≡◌};
ghost use Rattle.gs_core.specs.Short.{wants_memory};
ghost use Rattle.gs_trace.specs.Came.{reply_in};

use gs_agent::{Drained, Stop};
use gs_core::{Reply, is_short, is_short_command};
use gs_journal::LastEntry;
use gs_kernel::{Executed, Landing};
use gs_layout::Refusal;
use gs_policy::Choice;
use gs_slots::Flags;
use std::slice;

/// What came of an event, where it lies: no reply is made of what is frequent.
#[derive(Clone, Copy)]
pub enum Came<'a> {
    /// What became of a command, or its refusal, and the kernel's last entry.
    Executed(Result<Executed, Refusal>, LastEntry<'a>),
    /// The refusal of any other event.
    Refused(Refusal),
    /// What the agent followed.
    Drained(&'a Drained),
    /// A transaction that was stamped, for this CPU and thread, and its number.
    Stamped {
        cpu: u16,
        tid: u32,
        flags: Flags,
        number: u32,
    },
    /// What became of each slot of a commit, and whether that tore the enclave down.
    Landed(&'a [Landing], bool),
    /// What was planned and stamped: the number of the first transaction, and the choices.
    Decided(u32, &'a [Choice]),
    /// The reply to any other event.
    Replied(&'a Reply),
}

impl<'a> Came<'a> {
    /// Tells whether it says that memory ran out.
    #[inline(always)]
    pub fn is_short(&self) -> bool
        ensures { result ≡ wants_memory (reply_in self.now) }
    {
        match self {
            Came::Executed(came, _) => is_short_command(*came),
            Came::Refused(refusal) => *refusal == Refusal::OutOfMemory,
            Came::Drained(drained) => matches!(drained.stop, Some(Stop::Memory)),
            Came::Stamped { .. } | Came::Landed(..) | Came::Decided(..) => false,
            Came::Replied(reply) => is_short(slice::from_ref(*reply)),
        }
    }
}
