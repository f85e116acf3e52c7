ghost use Rattle.std.specs.Prelude.{◌≡◌};
ghost use Rattle.gs_explain.specs.Quiet.{quiet_reply};
ghost use Rattle.gs_trace.specs.Came.{reply_in};

use gs_agent::Drained;
use gs_slots::Flags;
use gs_trace::Came;

/// What came of an event that added no entry, where no more has to be known to tell of it.
#[derive(Clone, Copy)]
pub(crate) enum Quiet {
    /// A commit stamped nothing, and tore nothing down.
    Nothing,
    /// A transaction was stamped, for this CPU and thread, under its number.
    Stamped {
        cpu: u16,
        tid: u32,
        flags: Flags,
        number: u32,
    },
    /// The agent followed messages.
    Drained(Drained),
}

impl Quiet {
    /// Returns what came of the event.
    #[inline(always)]
    pub(crate) fn came(&self) -> Came<'_>
        ensures { reply_in result ≡ quiet_reply self.now }
    {
        match self {
            Quiet::Nothing => Came::Landed(&[], false),
            Quiet::Stamped {
                cpu,
                tid,
                flags,
                number,
            } => Came::Stamped {
                cpu: *cpu,
                tid: *tid,
                flags: *flags,
                number: *number,
            },
            Quiet::Drained(drained) => Came::Drained(drained),
        }
    }
}
