ghost use Rattle.std.specs.Prelude.{◌≡◌};
ghost use Rattle.gs_compare.specs.Measures.{measure_text};

use gs_layout::Class;

/// What is measured of a class, or of the whole machine.
#[derive(Clone, Copy, PartialEq, Eq, Debug)]
pub(crate) enum Measure {
    /// How many bursts ended: stays that ended by a block, a yield or a death.
    Bursts,
    /// Half of the stays began with no longer a wait, in ticks.
    WaitedHalf,
    /// Of ninety in a hundred.
    WaitedNinety,
    /// Of ninety-nine in a hundred.
    WaitedNinetyNine,
    /// The longest wait, in ticks.
    WaitedMost,
    /// How many ticks the threads ran.
    Ran,
    /// How many stays were preempted.
    Preempted,
    /// How many stays were on another CPU than the thread's stay before.
    Migrated,
    /// How many slots were stale.
    Stale,
    /// How many slots were displaced.
    Displaced,
    /// The share of its fair time that the thread got which ran least, in percent.
    WorstShare,
    /// How many ticks CPUs were idle while a thread waited that might run on them. It is of the whole machine.
    IdleWanted,
}

impl Measure {
    /// Returns what a measure is called.
    pub(crate) fn name(self) -> &'static str
        ensures { result.now ≡ measure_text self }
    {
        match self {
            Measure::Bursts => "bursts",
            Measure::WaitedHalf => "waited p50",
            Measure::WaitedNinety => "waited p90",
            Measure::WaitedNinetyNine => "waited p99",
            Measure::WaitedMost => "waited most",
            Measure::Ran => "ran",
            Measure::Preempted => "preempted",
            Measure::Migrated => "migrated",
            Measure::Stale => "stale",
            Measure::Displaced => "displaced",
            Measure::WorstShare => "worst share",
            Measure::IdleWanted => "idle wanted",
        }
    }
}

/// What is measured of each class, in order.
pub(crate) const CLASS_MEASURES: [Measure; 11] = [
    Measure::Bursts,
    Measure::WaitedHalf,
    Measure::WaitedNinety,
    Measure::WaitedNinetyNine,
    Measure::WaitedMost,
    Measure::Ran,
    Measure::Preempted,
    Measure::Migrated,
    Measure::Stale,
    Measure::Displaced,
    Measure::WorstShare,
];

/// A measure, and of whom it is.
#[derive(Clone, Copy, PartialEq, Eq, Debug)]
pub(crate) struct Key {
    /// The class, or none for the whole machine.
    pub(crate) class: Option<Class>,
    pub(crate) measure: Measure,
}
