//! What happens to threads.

ghost use Rattle.std.specs.Prelude.{◌≡◌, None};
ghost use Rattle.gs_layout.specs.Spelling.{IsSpellable};
ghost use Rattle.gs_kernel.specs.Kernel.{change_by, happening, event_refusal, thread_refusal};
ghost use Rattle.gs_kernel.specs.Threads.{NamesMask};

use crate::kernel::Kernel;
use crate::settings::LAST_TSEQ;
use crate::thread_event::ThreadEvent;
use gs_layout::{Change, Message, Record, Refusal};
use gs_ring::Poster;

impl<P: Poster> Kernel<P> {
    /// Returns the message about a thread to which this can happen.
    pub(crate) fn happening(&self, tid: u32, event: ThreadEvent) -> Message
        requires { thread_refusal self.now.settings self.now.history tid event ≡ None }
        ensures value { result ≡ happening self.now.settings self.now.history tid event }
        ensures spellable { IsSpellable result }
    {
        // Reads a field to expose the invariant.
        let _settings = &self.settings;
        let (tseq, there) = self.number_and_place(tid);
        Message::Thread {
            tid,
            tseq: tseq + 1,
            change: change_by(there, event),
        }
    }

    /// Returns the refusal that what happens to a thread has of its own.
    #[tactic(auto, unfolding(crate::specs::Kernel::thread_refusal))]
    pub(crate) fn thread_refusal(&self, tid: u32, event: ThreadEvent) -> Option<Refusal>
        ensures { result ≡ thread_refusal self.now.settings self.now.history tid event }
    {
        let Some(row) = self.row(tid) else {
            return Some(Refusal::NoThread);
        };
        let Record::Live { facts } = &row.record else {
            return Some(Refusal::NoThread);
        };
        if let Some(refusal) = self.event_refusal(row.cpu, facts.runnable, event) {
            return Some(refusal);
        }
        if row.tseq == LAST_TSEQ {
            return Some(Refusal::SeqSpent);
        }
        None
    }

    /// Returns the refusal that this kind of event has of its own, of a thread that is on this CPU, if any, and
    /// may run or not.
    fn event_refusal(
        &self,
        there: Option<u16>,
        runnable: bool,
        event: ThreadEvent,
    ) -> Option<Refusal>
        ensures { result ≡ event_refusal self.now.settings there runnable event }
    {
        match event {
            ThreadEvent::Block | ThreadEvent::Yield if there.is_none() => Some(Refusal::NotRunning),
            ThreadEvent::Wake if runnable => Some(Refusal::NotBlocked),
            ThreadEvent::Affinity { mask } if self.is_bad_mask(mask) => Some(Refusal::EmptyMask),
            _ => None,
        }
    }
}

/// Returns what the message of an event says of a thread that is on this CPU, if any.
fn change_by(there: Option<u16>, event: ThreadEvent) -> Change
    ensures value { result ≡ change_by there event }
    ensures mask { NamesMask event }
{
    match event {
        ThreadEvent::Block => Change::Blocked {
            cpu: there.unwrap_or(0),
        },
        ThreadEvent::Wake => Change::Wakeup,
        ThreadEvent::Yield => Change::Yield {
            cpu: there.unwrap_or(0),
        },
        ThreadEvent::Die => Change::Dead { cpu: there },
        ThreadEvent::Affinity { mask } => Change::Affinity {
            cpu: there,
            off: there.is_some_and(|cpu| !mask.has(cpu)),
            mask,
        },
    }
}
