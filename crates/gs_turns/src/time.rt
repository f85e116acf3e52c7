ghost use Rattle.std.specs.Prelude.{◌≡◌};
ghost use Rattle.gs_turns.specs.Times.{no_time, time_then};

/// A time, in two measures: the entries of the journal behind each of which something was so, and the ticks of a CPU
/// among these.
#[derive(Clone, Copy, PartialEq, Eq, Debug)]
pub struct Time {
    pub entries: usize,
    pub ticks: usize,
}

impl Time {
    /// No time.
    pub fn none() -> Time
        ensures { result ≡ no_time }
    {
        Time {
            entries: 0,
            ticks: 0,
        }
    }

    /// Returns a time and so many entries and ticks more. Each stops at the most that 64 bits hold, which no journal of a
    /// machine reaches.
    pub fn with(self, entries: usize, ticks: usize) -> Time
        ensures { result ≡ time_then entries ticks self }
    {
        Time {
            entries: self.entries.saturating_add(entries),
            ticks: self.ticks.saturating_add(ticks),
        }
    }
}
