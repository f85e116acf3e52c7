ghost use Rattle.std.specs.Prelude.{◌≡◌};

/// How many outcomes there are: their numbers are below it.
pub const OUTCOMES: u16 = 15;

/// What becomes of a transaction when it lands: the first outcome that applies. `Malformed` is tested before
/// all, then the others in the order in which they stand here. It is `Placed` if none applies. The layout
/// numbers them from 0 to 14, in this order.
#[derive(Clone, Copy, PartialEq, Eq, Debug)]
pub enum Outcome {
    /// The thread is on the CPU now.
    Placed,
    /// The enclave was torn down.
    Gone,
    /// No agent is active, or the slot's generation is not its generation.
    Displaced,
    /// The thread never was, or is dead.
    NoThread,
    /// The slot's sequence number is not the thread's.
    Stale,
    /// The thread is blocked.
    NotRunnable,
    /// The thread is on a CPU already, on this one too.
    AlreadyPlaced,
    /// The CPU is not in the thread's mask.
    NotAllowed,
    /// The active agent is on the CPU.
    CpuIsAgent,
    /// The other class holds the CPU.
    CpuTaken,
    /// A thread is on the CPU.
    CpuBusy,
    /// The thread on the CPU can post no more message.
    SeqSpent,
    /// The journal has no room for the entries.
    HistoryFull,
    /// The bytes are no slot of this CPU.
    Malformed,
    /// It would be placed, but its group is placed as a whole or not at all, and another of it would not be.
    GroupFailed,
}

impl Outcome {
    ghost use Rattle.gs_layout.specs.Outcome.{outcome_number, outcome_numbered};

    /// Returns the outcome's number in the layout, from 0 to 14.
    pub fn number(self) -> u16
        ensures { result ≡ outcome_number self }
    {
        self as u16
    }

    /// Returns the outcome of this number, or `None` if it is above 14.
    pub fn numbered(number: u16) -> Option<Outcome>
        ensures { result ≡ outcome_numbered number }
    {
        match number {
            0 => Some(Outcome::Placed),
            1 => Some(Outcome::Gone),
            2 => Some(Outcome::Displaced),
            3 => Some(Outcome::NoThread),
            4 => Some(Outcome::Stale),
            5 => Some(Outcome::NotRunnable),
            6 => Some(Outcome::AlreadyPlaced),
            7 => Some(Outcome::NotAllowed),
            8 => Some(Outcome::CpuIsAgent),
            9 => Some(Outcome::CpuTaken),
            10 => Some(Outcome::CpuBusy),
            11 => Some(Outcome::SeqSpent),
            12 => Some(Outcome::HistoryFull),
            13 => Some(Outcome::Malformed),
            14 => Some(Outcome::GroupFailed),
            _ => None,
        }
    }
}
