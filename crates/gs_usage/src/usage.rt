use gs_turns::Time;

/// What a CPU is used for.
#[derive(Clone, Copy, PartialEq, Eq, Debug)]
pub enum Use {
    /// The other class has it.
    Other,
    /// The active agent is on it.
    Agent,
    /// A thread is on it.
    Busy,
    /// It is idle, and a thread waits that may run on it.
    Wanted,
    /// It is idle, and no thread waits that may run on it.
    Idle,
}

/// What a CPU was used for, and for how long.
#[derive(Clone, Copy, PartialEq, Eq, Debug)]
pub struct Usage {
    pub busy: Time,
    pub agent: Time,
    pub other: Time,
    /// It was idle, and a thread waited that might run on it.
    pub wanted: Time,
    /// It was idle, and no thread waited that might run on it.
    pub idle: Time,
}
