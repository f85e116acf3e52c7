ghost use Rattle.std.specs.Prelude.{◌≡◌, ◌≤◌};
ghost use Rattle.gs_kernel.specs.Legal.{creates, most_entries};

use crate::thread_event::ThreadEvent;
use gs_layout::Facts;

/// What the kernel can be told to do.
#[derive(Clone, Copy, PartialEq, Eq, Debug)]
pub enum Command {
    /// A thread with these facts is created.
    Create { facts: Facts },
    /// Something happens to a thread.
    Thread { tid: u32, event: ThreadEvent },
    /// The other scheduling class takes a CPU. PREEMPTED of the thread there is posted first.
    Take { cpu: u16 },
    /// The other scheduling class gives a CPU back.
    Give { cpu: u16 },
    /// The timer of a CPU ticks.
    Tick { cpu: u16 },
    /// The active agent goes on as one of the next generation, on another CPU. PREEMPTED of the thread there is posted
    /// first.
    HandOff { cpu: u16 },
    /// The agent leaves, or crashed, which is the same to the kernel: none is active and none attaches then.
    Leave,
    /// A new agent begins to attach, as one of the next generation.
    Begin,
    /// The agent that attaches, and was given the last page, becomes active on a CPU. PREEMPTED of the thread there is
    /// posted first.
    Activate { cpu: u16 },
}

impl Command {
    /// Returns the most entries that it adds: the journal has to have room for so many.
    pub(crate) fn most_entries(&self) -> usize
        ensures value { result ≡ most_entries self.now }
        ensures most { result ≤ 2 }
    {
        match self {
            Command::Take { .. } | Command::HandOff { .. } | Command::Activate { .. } => 2,
            _ => 1,
        }
    }

    /// Returns whether it adds a thread.
    pub(crate) fn creates(&self) -> bool
        ensures { result ≡ creates self.now }
    {
        matches!(self, Command::Create { .. })
    }
}
