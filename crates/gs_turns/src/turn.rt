ghost use Rattle.std.specs.Prelude.{◌≡◌};
ghost use Rattle.gs_turns.specs.Turns.{ran, waited};

use gs_layout::Class;
use gs_timeline::{Ending, Stay};

/// A stay of a thread on a CPU, with the wait before it. A wait or a run has two measures. One is the entries of the
/// journal behind each of which it was so, and the other the ticks among these that are of the stay's CPU.
#[derive(Clone, Copy, PartialEq, Eq, Debug)]
pub struct Turn {
    pub stay: Stay,
    /// The place of the entry since which the thread was ready, or that of the entry that placed it, if it was not.
    pub since: usize,
    pub class: Option<Class>,
    /// The CPU that the thread was placed on before, or none if it never was.
    pub before: Option<u16>,
    pub waited_ticks: usize,
    pub ran_ticks: usize,
    pub ending: Ending,
}

impl Turn {
    /// Returns how many entries the thread waited for the stay.
    pub fn waited(&self) -> usize
        ensures { result ≡ waited self.now }
    {
        self.stay.from.saturating_sub(self.since)
    }

    /// Returns how many entries it stayed.
    pub fn ran(&self) -> usize
        ensures { result ≡ ran self.now }
    {
        self.stay.to.saturating_sub(self.stay.from)
    }
}
