ghost use Rattle.std.specs.Prelude.{◌≡◌};
ghost use Rattle.gs_reasons.specs.Sign.{is_held, is_in_change, is_seat, is_sign, says_creation, says_death, says_mask, says_runs};

use gs_journal::Entry;
use gs_layout::{Change, Message};

/// What an entry may say something of.
#[derive(Clone, Copy, PartialEq, Eq, Debug)]
pub enum Sign {
    /// Whether the enclave stands.
    TornDown,
    /// Which agent is active.
    Agent,
    /// Which generation is the latest.
    Generation,
    /// That a thread was created.
    Created,
    /// That a thread died.
    Death { tid: u32 },
    /// That a message took a thread off its CPU.
    Off { tid: u32 },
    /// Anything of a thread, which raises its number.
    About { tid: u32 },
    /// Whether a thread may run.
    Runs { tid: u32 },
    /// A thread's mask.
    Mask { tid: u32 },
    /// Who was put on a CPU.
    Seat { cpu: u16 },
    /// Whether the other class holds a CPU.
    Held { cpu: u16 },
}

/// Returns whether a change says that its thread was created.
pub(crate) fn says_creation(change: &Change) -> bool
    ensures { result ≡ says_creation change.now }
{
    matches!(change, Change::Created { .. })
}

/// Returns whether a change says whether its thread may run.
pub(crate) fn says_runs(change: &Change) -> bool
    ensures { result ≡ says_runs change.now }
{
    match change {
        Change::Created { .. } | Change::Blocked { .. } | Change::Wakeup => true,
        _ => false,
    }
}

/// Returns whether a change says which mask its thread has.
pub(crate) fn says_mask(change: &Change) -> bool
    ensures { result ≡ says_mask change.now }
{
    match change {
        Change::Created { .. } | Change::Affinity { .. } => true,
        _ => false,
    }
}

/// Returns whether a change says that its thread died.
pub(crate) fn says_death(change: &Change) -> bool
    ensures { result ≡ says_death change.now }
{
    match change {
        Change::Dead { .. } => true,
        _ => false,
    }
}

impl Sign {
    /// Returns whether a change of a thread says something of it.
    fn is_in_change(&self, thread: u32, change: &Change) -> bool
        ensures { result ≡ is_in_change self.now thread change.now }
    {
        match self {
            Sign::Created => says_creation(change),
            Sign::Death { tid } => *tid == thread && says_death(change),
            Sign::Off { tid } => *tid == thread && change.takes_off_cpu(),
            Sign::About { tid } => *tid == thread,
            Sign::Runs { tid } => *tid == thread && says_runs(change),
            Sign::Mask { tid } => *tid == thread && says_mask(change),
            _ => false,
        }
    }

    /// Returns whether it is of who was put on this CPU.
    fn is_seat(&self, there: u16) -> bool
        ensures { result ≡ is_seat self.now there }
    {
        match self {
            Sign::Seat { cpu } => *cpu == there,
            _ => false,
        }
    }

    /// Returns whether it is of whether the other class holds this CPU.
    fn is_held(&self, there: u16) -> bool
        ensures { result ≡ is_held self.now there }
    {
        match self {
            Sign::Held { cpu } => *cpu == there,
            _ => false,
        }
    }

    /// Returns whether an entry says something of it.
    pub fn is_in(&self, entry: &Entry) -> bool
        ensures { result ≡ is_sign self.now entry.now }
    {
        match entry {
            Entry::Posted { message } => match message {
                Message::Thread { tid, change, .. } => self.is_in_change(*tid, change),
                Message::TimerTick { .. } => false,
            },
            Entry::Placed { cpu, .. } => self.is_seat(*cpu),
            Entry::Taken { cpu } | Entry::Given { cpu } => self.is_held(*cpu),
            Entry::Role { .. } | Entry::Begin { .. } => {
                matches!(self, Sign::Agent | Sign::Generation)
            }
            Entry::Left => matches!(self, Sign::Agent),
            Entry::Torn => matches!(self, Sign::Agent | Sign::TornDown),
        }
    }
}
