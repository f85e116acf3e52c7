//! What a workload says.

use gs_layout::{Class, MOST_TIDS, Name};
use gs_status::Mask;

/// The most ticks that a workload may say anywhere.
pub const MOST_TIME: u32 = 1_000_000;

/// The most threads of all groups together: a kernel gives no more numbers.
pub const MOST_THREADS: u32 = MOST_TIDS;

/// A number of ticks that is drawn anew each time, from `least` to `most`, both ends included.
#[derive(Clone, Copy, PartialEq, Eq, Debug)]
pub struct Span {
    pub least: u32,
    /// At least `least`, at most [`MOST_TIME`].
    pub most: u32,
}

/// When the agent works. It begins on CPU 0.
#[derive(Clone, Copy, PartialEq, Eq, Debug)]
pub struct AgentPlan {
    /// It drains and decides each so many ticks, 1 to [`MOST_TIME`]. The default is 1.
    pub every: u32,
    /// Its commits land so many ticks after they were decided, 0 to [`MOST_TIME`]. The default is 0.
    pub late: Span,
    /// Whether what it decides at one tick is committed as one group. The default is `false`.
    pub together: bool,
}

/// How a burst of running ends, if it is not the thread's last one. Behind its last burst a thread dies.
#[derive(Clone, Copy, PartialEq, Eq, Debug)]
pub enum Leaving {
    /// The thread blocks, and is woken after it slept.
    Block,
    /// The thread gives up its CPU, and may run on.
    Yield,
    /// The thread dies: each of its bursts is its last one.
    Die,
}

/// Threads that do the same.
#[derive(Clone, Copy, PartialEq, Eq, Debug)]
pub struct Group {
    /// The CPUs that its threads may run on, at least one. All are CPUs of the machine. The default is all of them.
    pub mask: Mask,
    /// The name of each of its threads: 1 to 16 bytes from 33 to 126, and not `-` alone.
    pub name: Name,
    /// How many threads it has, 1 to [`MOST_THREADS`]. The default is 1.
    pub count: u32,
    /// The default is class 0.
    pub class: Class,
    /// How many ticks a burst of running takes, 1 to [`MOST_TIME`].
    pub run: Span,
    /// How many ticks a thread sleeps that blocked, 1 to [`MOST_TIME`]. The default is 1.
    pub sleep: Span,
    /// How many bursts a thread has, 1 to [`MOST_TIME`], or `None` if it has no last one.
    pub bursts: Option<u32>,
    /// The default is `Block`.
    pub leaving: Leaving,
    /// The tick at which a thread is created, drawn for each of them, 0 to [`MOST_TIME`]. The default is 0.
    pub created: Span,
}

/// The other class has a CPU from the tick `from` on until the tick `until`, which comes behind it.
/// Takings of one CPU may overlap: it is the other class's while one of them has it.
#[derive(Clone, Copy, PartialEq, Eq, Debug)]
pub struct Taking {
    /// A CPU of the machine.
    pub cpu: u16,
    /// 0 to [`MOST_TIME`].
    pub from: u32,
    /// Above `from`, at most [`MOST_TIME`].
    pub until: u32,
}

/// What becomes of the agent at a tick, 0 to [`MOST_TIME`].
#[derive(Clone, Copy, PartialEq, Eq, Debug)]
pub enum Change {
    /// It goes on as one of the next generation, on this CPU of the machine.
    HandOff { at: u32, cpu: u16 },
    /// It is gone, and no agent decides until one comes by a `Replace`.
    Crash { at: u32 },
    /// A new agent attaches by pages, and is active on this CPU of the machine. One that is there crashes before.
    Replace { at: u32, cpu: u16 },
}

impl Change {
    ghost use Rattle.std.specs.Prelude.{◌≡◌};
    ghost use Rattle.gs_workload.specs.Rows.{change_tick};

    /// Returns the tick of the change.
    pub fn at(&self) -> u32
        ensures { result ≡ change_tick self.now }
    {
        match self {
            Change::HandOff { at, .. } | Change::Crash { at } | Change::Replace { at, .. } => *at,
        }
    }
}

/// What threads want of a machine, what its agent does, and what happens to both.
#[derive(Drop)]
pub struct Workload<P> {
    /// How many CPUs there are, 2 to 128. They are numbered from 0.
    pub cpus: u16,
    /// The capacity of the message ring in bytes: a multiple of 8 from 128 to 1,048,576. The default is 65,536.
    pub ring: u32,
    /// The policy that the workload is meant for, or `None` if it names none.
    pub policy: Option<P>,
    /// How many ticks it goes on, 1 to [`MOST_TIME`]. The default is 1,000.
    pub ticks: u32,
    pub agent: AgentPlan,
    /// At least one. All together have at most [`MOST_THREADS`] threads.
    pub groups: Vec<Group>,
    pub takings: Vec<Taking>,
    /// Each at a later tick than the one before.
    pub changes: Vec<Change>,
}
