ghost use Rattle.std.specs.Prelude.{◌≡◌};

use gs_layout::Outcome;

/// What an event of a script did to a transaction.
#[derive(Clone, Copy, PartialEq, Eq, Debug)]
pub enum What {
    /// It was stamped into the slot of its CPU.
    Stamped {
        /// Whether a thread that is on the CPU is to give way.
        preempt: bool,
        /// Whether it is one of a group.
        group: bool,
    },
    /// It landed from that slot.
    Landed {
        outcome: Outcome,
    },
    /// It landed late, as it was stamped, and no slot changed.
    Late {
        /// Its number, counted from 1 by the stampings.
        number: u32,
        outcome: Outcome,
    },
}

/// A decision of the agent, or what became of one.
#[derive(Clone, Copy, PartialEq, Eq, Debug)]
pub struct Mark {
    /// The line of the script that says the event, counted from 1.
    pub line: u32,
    /// How many entries the journal had before the event.
    pub entries: u32,
    pub tid: u32,
    pub what: What,
    pub cpu: u16,
}

impl Mark {
    /// Returns before the entry of which place the event was.
    #[inline(always)]
    pub fn place(&self) -> usize
        ensures { result ≡ self.now.entries }
    {
        self.entries as usize
    }
}

/// What happened to an agent and adds no entry that tells it.
#[derive(Clone, Copy, PartialEq, Eq, Debug)]
pub enum AgentEvent {
    /// The agent that attaches was told of so many threads that live.
    Page {
        count: u16,
        /// The thread from which the next page goes on, or `None` if it was the last one.
        next: Option<u32>,
    },
    /// The agent crashed. The entry says that it left.
    Crashed,
}

/// When such a thing happened.
#[derive(Clone, Copy, PartialEq, Eq, Debug)]
pub struct AgentMark {
    /// The line of the script that says the event, counted from 1.
    pub line: usize,
    /// How many entries the journal had before the event.
    pub entries: usize,
    pub event: AgentEvent,
}

/// How many bytes of the ring are in use from an event on.
#[derive(Clone, Copy, PartialEq, Eq, Debug)]
pub struct Fill {
    /// How many entries the journal had before the event.
    pub entries: usize,
    pub used: usize,
}

/// What a picture tells beside the journal. Each list is in the order of the events.
#[derive(Clone, Copy)]
pub struct Notes<'a> {
    /// The script's line that added each entry, counted from 1.
    pub lines: &'a [usize],
    pub marks: &'a [Mark],
    pub agents: &'a [AgentMark],
    pub fills: &'a [Fill],
    /// How many bytes the ring has.
    pub ring: usize,
}

/// Which threads have a line of their own below the rows. The others are counted, by their class and by whether they ran.
#[derive(Clone, Copy, PartialEq, Eq, Debug)]
pub enum Listed {
    /// A few: of each class [`FEW_IDLE`](crate::FEW_IDLE) of those that never ran, and [`FEW`](crate::FEW) of those that
    /// ran.
    Few,
    /// So many.
    Most(usize),
    /// The one of this tid.
    One(usize),
    All,
}
