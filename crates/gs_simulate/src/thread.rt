//! A simulated thread, and what becomes of it.

ghost use Rattle.std.specs.Prelude.{◌≡◌};
ghost use Rattle.gs_simulate.specs.Threads.{after_placing, after_preemption, after_tick, after_waking, ending, is_due, is_running, left_for};

use gs_workload::Leaving;

/// What a thread does.
#[derive(Clone, Copy, PartialEq, Eq, Debug)]
pub(crate) enum Stance {
    /// It blocked, and is to be woken at this tick.
    Asleep { until: u64 },
    /// It may run, and is on no CPU.
    Ready,
    /// It is on a CPU.
    Running,
    Dead,
}

/// A simulated thread, which was created.
#[derive(Clone, Copy, PartialEq, Eq, Debug)]
pub(crate) struct Thread {
    /// The place of its group in the workload.
    pub(crate) group: usize,
    pub(crate) stance: Stance,
    /// How many ticks of its burst are left.
    pub(crate) left: u32,
    /// How many bursts it still has, with this one, or `None` if none is the last.
    pub(crate) bursts: Option<u32>,
}

impl Thread {
    /// Returns what a tick of its CPU makes of it: of a thread that runs, the burst is a tick shorter.
    pub(crate) fn after_tick(self) -> Thread
        ensures { result ≡ after_tick self }
    {
        match self.stance {
            Stance::Running => Thread {
                left: self.left.saturating_sub(1),
                ..self
            },
            _ => self,
        }
    }

    /// Returns whether it runs.
    pub(crate) fn is_running(self) -> bool
        ensures { result ≡ is_running self }
    {
        matches!(self.stance, Stance::Running)
    }

    /// Returns whether it is to be woken now: it sleeps, and its time has come.
    pub(crate) fn is_due(self, now: u32) -> bool
        ensures { result ≡ is_due now self }
    {
        match self.stance {
            Stance::Asleep { until } => until <= u64::from(now),
            _ => false,
        }
    }

    /// Returns how its burst ends now, or `None` if it does not: it runs, and no tick of the burst is left. It dies
    /// after its last one.
    pub(crate) fn ending(self, leaving: Leaving) -> Option<Leaving>
        ensures { result ≡ ending leaving self }
    {
        if !self.is_running() || self.left > 0 {
            return None;
        }
        match self.bursts {
            Some(0 | 1) => Some(Leaving::Die),
            _ => Some(leaving),
        }
    }

    /// Returns what it is once it was placed on a CPU.
    pub(crate) fn after_placing(self) -> Thread
        ensures { result ≡ after_placing self }
    {
        Thread {
            stance: Stance::Running,
            ..self
        }
    }

    /// Returns what it is once it was taken off its CPU for somebody else: the rest of its burst is still to come.
    pub(crate) fn after_preemption(self) -> Thread
        ensures { result ≡ after_preemption self }
    {
        Thread {
            stance: Stance::Ready,
            ..self
        }
    }

    /// Returns what it is once it was woken, with a burst of so many ticks.
    pub(crate) fn after_waking(self, run: u32) -> Thread
        ensures { result ≡ after_waking run self }
    {
        Thread {
            stance: Stance::Ready,
            left: run,
            ..self
        }
    }

    /// Returns what it is once its burst ended: this is its stance then, and its next burst has so many ticks.
    pub(crate) fn left_for(self, stance: Stance, run: u32) -> Thread
        ensures { result ≡ left_for stance run self }
    {
        Thread {
            stance,
            left: run,
            bursts: self.bursts.map(|bursts| bursts.saturating_sub(1)),
            ..self
        }
    }
}
