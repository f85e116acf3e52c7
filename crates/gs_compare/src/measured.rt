//! What was measured of a run.

ghost use Rattle.std.specs.Prelude.{◌≡◌};
ghost use Rattle.gs_compare.specs.Measures.{of_class, of_machine, part_of, value_of};

use crate::measure::{Key, Measure};
use gs_layout::Class;
use gs_tallies::Spread;

/// What was measured of the threads of a class.
#[derive(Clone, Copy, PartialEq, Eq, Debug)]
pub(crate) struct Measures {
    pub(crate) bursts: usize,
    /// How the waits are spread, in ticks, if there are any.
    pub(crate) waits: Option<Spread>,
    /// In ticks.
    pub(crate) ran: usize,
    pub(crate) preempted: usize,
    pub(crate) migrated: usize,
    pub(crate) stale: usize,
    pub(crate) displaced: usize,
    /// In percent, if any of the threads ran a tick.
    pub(crate) worst_share: Option<usize>,
}

/// What was measured of a run.
#[derive(Clone, Copy, PartialEq, Eq, Debug)]
pub(crate) struct Measured {
    /// What was measured of class 0, if a thread of it was created.
    pub(crate) zero: Option<Measures>,
    /// The same of class 1.
    pub(crate) one: Option<Measures>,
    /// How many ticks CPUs were idle while a thread waited that might run on them.
    pub(crate) idle_wanted: usize,
}

impl Measures {
    /// Returns one of the measures of a class, if it has a value.
    fn value(&self, measure: Measure) -> Option<usize>
        ensures { result ≡ of_class measure self.now }
    {
        match measure {
            Measure::Bursts => Some(self.bursts),
            Measure::WaitedHalf => Some(self.waits?.half),
            Measure::WaitedNinety => Some(self.waits?.ninety),
            Measure::WaitedNinetyNine => Some(self.waits?.ninety_nine),
            Measure::WaitedMost => Some(self.waits?.all),
            Measure::Ran => Some(self.ran),
            Measure::Preempted => Some(self.preempted),
            Measure::Migrated => Some(self.migrated),
            Measure::Stale => Some(self.stale),
            Measure::Displaced => Some(self.displaced),
            Measure::WorstShare => self.worst_share,
            Measure::IdleWanted => None,
        }
    }
}

impl Measured {
    /// Returns what was measured of a class, if a thread of it was created.
    pub(crate) fn part(&self, class: Class) -> Option<Measures>
        ensures { result ≡ part_of class self.now }
    {
        match class {
            Class::Zero => self.zero,
            Class::One => self.one,
        }
    }

    /// Returns one of the measures of the whole machine.
    fn of_machine(&self, measure: Measure) -> Option<usize>
        ensures { result ≡ of_machine measure self.now }
    {
        match measure {
            Measure::IdleWanted => Some(self.idle_wanted),
            _ => None,
        }
    }

    /// Returns a measure, if it has a value.
    pub(crate) fn value(&self, key: Key) -> Option<usize>
        ensures { result ≡ value_of key self.now }
    {
        match key.class {
            Some(class) => self.part(class)?.value(key.measure),
            None => self.of_machine(key.measure),
        }
    }
}
