ghost use Rattle.std.specs.Prelude.{◌≡◌};
ghost use Rattle.gs_layout.specs.Message.{takes_off_cpu, tseq_of};
ghost use Rattle.gs_layout.specs.Spelling.{cpu_of, kind_of, kind_of_change, tid_of};

use crate::facts::Facts;
use crate::kind::Kind;
use gs_status::Mask;

/// How many tids there are, and so how many threads there may ever be: a thread's tid is from 1 to this.
/// There are so few that a table with a place for each is small.
pub const MOST_TIDS: u32 = 65_536;

/// What happened to a thread. `cpu` is the CPU that it was on just before.
#[derive(Clone, Copy, PartialEq, Eq, Debug)]
pub enum Change {
    Created {
        facts: Facts,
    },
    Blocked {
        cpu: u16,
    },
    Wakeup,
    Preempted {
        cpu: u16,
    },
    Yield {
        cpu: u16,
    },
    Dead {
        cpu: Option<u16>,
    },
    /// A new mask. `off` says that the thread was taken off its CPU.
    Affinity {
        cpu: Option<u16>,
        off: bool,
        mask: Mask,
    },
}

impl Change {
    /// Returns whether it takes its thread off its CPU.
    pub fn takes_off_cpu(&self) -> bool
        ensures { result ≡ takes_off_cpu self.now }
    {
        let off = matches!(self, Change::Affinity { off: true, .. });
        self.kind().takes_off_cpu(off)
    }

    /// Returns the kind of message that says it.
    fn kind(&self) -> Kind
        ensures { result ≡ kind_of_change self.now }
    {
        match self {
            Change::Created { .. } => Kind::Created,
            Change::Blocked { .. } => Kind::Blocked,
            Change::Wakeup => Kind::Wakeup,
            Change::Preempted { .. } => Kind::Preempted,
            Change::Yield { .. } => Kind::Yield,
            Change::Dead { .. } => Kind::Dead,
            Change::Affinity { .. } => Kind::Affinity,
        }
    }
}

/// What the kernel tells the agent, after the messages of the ghOSt paper (SOSP 2021).
#[derive(Clone, Copy, PartialEq, Eq, Debug)]
pub enum Message {
    /// A change of a thread, with the thread's sequence number (Tseq).
    Thread { tid: u32, tseq: u32, change: Change },
    /// A timer tick of a CPU. It is about no thread.
    TimerTick { cpu: u16 },
}

impl Message {
    /// Returns the kind of the message.
    pub fn kind(&self) -> Kind
        ensures { result ≡ kind_of self.now }
    {
        match self {
            Message::TimerTick { .. } => Kind::TimerTick,
            Message::Thread { change, .. } => change.kind(),
        }
    }

    /// Returns the thread that it is about, 0 for a tick.
    pub fn tid(&self) -> u32
        ensures { result ≡ tid_of self.now }
    {
        match self {
            Message::Thread { tid, .. } => *tid,
            Message::TimerTick { .. } => 0,
        }
    }

    /// Returns its sequence number, 0 for a tick.
    pub fn tseq(&self) -> u32
        ensures { result ≡ tseq_of self.now }
    {
        match self {
            Message::Thread { tseq, .. } => *tseq,
            Message::TimerTick { .. } => 0,
        }
    }

    /// Returns the CPU that the thread was on just before, or the CPU of a tick.
    pub fn cpu(&self) -> Option<u16>
        ensures { result ≡ cpu_of self.now }
    {
        match self {
            Message::TimerTick { cpu } => Some(*cpu),
            Message::Thread { change, .. } => match change {
                Change::Created { .. } | Change::Wakeup => None,
                Change::Blocked { cpu } | Change::Preempted { cpu } | Change::Yield { cpu } => {
                    Some(*cpu)
                }
                Change::Dead { cpu } | Change::Affinity { cpu, .. } => *cpu,
            },
        }
    }
}
