//! The keys that a workload may have.
ghost use Rattle.std.specs.Prelude.{◌≡◌};
ghost use Rattle.gs_workload.specs.Keys.{key_word};

/// A key of a workload or of a part of it.
#[derive(Clone, Copy, Debug)]
pub enum Key {
    Cpus,
    Ring,
    Policy,
    Ticks,
    Agent,
    Groups,
    Takings,
    Changes,
    Every,
    Late,
    Together,
    Name,
    Count,
    Class,
    Mask,
    Run,
    Sleep,
    Bursts,
    Leaving,
    Created,
    Cpu,
    From,
    Until,
    At,
    What,
}

impl Key {
    /// Returns the key as it is written.
    pub fn word(self) -> &'static str
        ensures { result.now ≡ key_word self }
    {
        match self {
            Key::Cpus => "cpus",
            Key::Ring => "ring",
            Key::Policy => "policy",
            Key::Ticks => "ticks",
            Key::Agent => "agent",
            Key::Groups => "groups",
            Key::Takings => "takings",
            Key::Changes => "changes",
            Key::Every => "every",
            Key::Late => "late",
            Key::Together => "together",
            Key::Name => "name",
            Key::Count => "count",
            Key::Class => "class",
            Key::Mask => "mask",
            Key::Run => "run",
            Key::Sleep => "sleep",
            Key::Bursts => "bursts",
            Key::Leaving => "leaving",
            Key::Created => "created",
            Key::Cpu => "cpu",
            Key::From => "from",
            Key::Until => "until",
            Key::At => "at",
            Key::What => "what",
        }
    }
}

/// The keys of the whole workload.
pub(crate) const OF_WHOLE: [&str; 8] = [
    "cpus", "ring", "policy", "ticks", "agent", "groups", "takings", "changes",
];

/// Those of the agent.
pub(crate) const OF_AGENT: [&str; 3] = ["every", "late", "together"];

/// Those of a group.
pub(crate) const OF_GROUP: [&str; 9] = [
    "name", "count", "class", "mask", "run", "sleep", "bursts", "leaving", "created",
];

/// Those of a taking.
pub(crate) const OF_TAKING: [&str; 3] = ["cpu", "from", "until"];

/// Those of a change.
pub(crate) const OF_CHANGE: [&str; 3] = ["at", "what", "cpu"];
