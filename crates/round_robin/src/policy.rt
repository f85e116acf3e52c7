ghost use Rattle.std.specs.Prelude.{◌≡◌, ℕ};
ghost use Rattle.gs_status.specs.Masks.{has};
ghost use Rattle.gs_policy.specs.Candidates.{plan_among};
ghost use Rattle.gs_policy.specs.Plan.{plan};
ghost use Rattle.gs_policy.specs.Shown.{shows};
ghost use Rattle.gs_layout.specs.View.{look_up};
ghost use Rattle.gs_runq.specs.Queue.{Queue};
ghost use Rattle.round_robin.specs.RoundRobin.{slice_of, turn_is_over, turn_takes};

use gs_beliefs::CpuBeliefs;
use gs_layout::Class;
use gs_policy::{Candidates, Choice, Counted, Policy, count_among, plan_among};
use gs_runq::RunQueue;
use gs_status::Mask;
use gs_view::AgentView;
use std::alloc::{AllocError, Global};

/// Weighted round robin. The waiting threads, in order, take the least free CPUs of their masks. If none is
/// left for a thread, it takes the least other CPU of its mask whose thread has had its slice.
///
/// One queue with a slice is the Shinjuku policy of the ghOSt paper (SOSP 2021). Here each class has a
/// slice of its own, counted in ticks of a CPU's timer. With a slice of 0 a thread makes way at once.
#[derive(Clone, Copy, PartialEq, Eq, Debug)]
pub struct RoundRobin {
    /// The slice of a thread of class 0.
    pub zero_slice: u16,
    /// The slice of a thread of class 1.
    pub one_slice: u16,
}

impl RoundRobin {
    /// Returns the slice of a class, in ticks.
    fn slice_of(&self, class: Class) -> u16
        ensures { result ≡ slice_of self.now class }
    {
        match class {
            Class::Zero => self.zero_slice,
            Class::One => self.one_slice,
        }
    }

    /// Tells whether a CPU is usable and believed to run a known thread that has had its slice.
    fn turn_is_over(&self, view: &AgentView, cpus: &CpuBeliefs<'_>, cpu: u16) -> bool
        ensures { result ≡ turn_is_over self.now (look_up view.now.entries) cpus.now.beliefs.now (has cpus.now.taken) cpu }
    {
        if !cpus.is_usable(cpu) {
            return false;
        }
        let Some(running) = cpus.believed(cpu) else {
            return false;
        };
        let Some((facts, _)) = view.get(running.tid) else {
            return false;
        };
        self.slice_of(facts.class) <= running.ticks
    }

    /// Returns the CPUs whose threads have had their slices.
    #[tactic(auto, using(gs_status::proofs::Laws::marked_if))]
    fn spent_cpus(&self, view: &AgentView, cpus: &CpuBeliefs<'_>) -> Mask
        ensures { (c : ℕ) → has result c ≡ turn_is_over self.now (look_up view.now.entries) cpus.now.beliefs.now (has cpus.now.taken) c }
    {
        let mut mask = Mask::none();
        for cpu in 0..cpus.cpus() {
            mask = mask.with_if(cpu, self.turn_is_over(view, cpus, cpu));
        }
        mask
    }

    /// Returns the free CPUs, and those that a thread of either class may take: the plan among them is this
    /// policy's.
    fn candidates(&self, view: &AgentView, cpus: &CpuBeliefs<'_>) -> Candidates
        ensures { (queue : Queue) → plan_among result (shows view.now.entries cpus.now queue) ≡ plan (turn_takes self.now) (shows view.now.entries cpus.now queue) }
    {
        let spent = self.spent_cpus(view, cpus);
        Candidates::new(cpus, spent, spent)
    }
}

impl Policy for RoundRobin {
    ghost use Rattle.round_robin.specs.RoundRobin.{round_robin, round_robin-safe};

    ghost chosen = { round_robin };

    fn plan(
        &self,
        alloc: Global,
        view: &AgentView,
        cpus: &CpuBeliefs<'_>,
        queue: &RunQueue,
    ) -> Result<Vec<Choice>, AllocError> {
        plan_among(alloc, view, cpus, queue, self.candidates(view, cpus))
    }

    ghost safe = { round_robin-safe };
}

impl Counted for RoundRobin {
    fn count(&self, view: &AgentView, cpus: &CpuBeliefs<'_>, queue: &RunQueue) -> usize {
        count_among(view, queue, self.candidates(view, cpus))
    }
}
