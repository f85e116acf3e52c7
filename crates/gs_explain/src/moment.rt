ghost use Rattle.std.specs.Prelude.{◌≡◌};
ghost use Rattle.gs_core.specs.Machine.{planning};
ghost use Rattle.gs_trace.specs.NotedLines.{noted_of};
ghost use Rattle.gs_explain.specs.Moment.{moment_of, moment_with};

use gs_core::{Event, Machine, Transaction};
use gs_journal::Journal;
use gs_kernel::Kernel;
use gs_policy::Counted;
use gs_reasons::Marks;
use gs_ring::ByteRing;
use gs_slots::Region;
use gs_trace::Lines;

/// What is at hand about an event that happened.
#[derive(Clone, Copy)]
pub(crate) struct Scene<'a> {
    /// What is noted of the script's lines, the event's too.
    pub(crate) noted: &'a Lines,
    /// The event, without the policy that it may name: no sentence tells of that.
    pub(crate) event: &'a Event<()>,
    /// The kernel as the event left it.
    pub(crate) kernel: &'a Kernel<ByteRing>,
    /// The slots as the event left them.
    pub(crate) region: &'a Region,
    /// The kernel's journal, with the event's entries too.
    pub(crate) journal: &'a Journal,
    pub(crate) transactions: &'a [Transaction],
    /// The place of the last transaction for each CPU.
    pub(crate) last: &'a Marks,
}

impl<'a> Scene<'a> {
    /// Lends what is at hand about an event, by the machine that it left and what was noted and marked then.
    #[inline(always)]
    pub(crate) fn new<P: Counted + Copy>(
        machine: &'a Machine<P>,
        noted: &'a Lines,
        last: &'a Marks,
        event: &'a Event<()>,
    ) -> Scene<'a>
        ensures moment { moment_of result ≡ moment_with (noted_of noted.now) event.now (planning P.chosen machine.now) }
        ensures journal { result.journal.now.entries ≡ machine.now.history }
        ensures transactions { result.transactions.now ≡ machine.now.transactions }
        ensures last { result.last.now ≡ last.now }
    {
        let kernel = machine.kernel();
        Scene {
            noted,
            event,
            kernel,
            region: machine.region(),
            journal: kernel.journal(),
            transactions: machine.transactions(),
            last,
        }
    }
}
