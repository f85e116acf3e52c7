ghost use Rattle.std.specs.Prelude.{◌≡◌};
ghost use Rattle.gs_policy.specs.Candidates.{plan_among};
ghost use Rattle.gs_policy.specs.Plan.{class_one_after, plan};
ghost use Rattle.gs_policy.specs.Shown.{shows};

use crate::candidates::Candidates;
use crate::choice::Choice;
use crate::class_one::{class_one_cpus, those_that_have_had};
use crate::counted::Counted;
use crate::first_come::free_alone;
use crate::policy::Policy;
use crate::walk::{count_among, plan_among, plan_among_into, serve_all};
use gs_beliefs::CpuBeliefs;
use gs_runq::RunQueue;
use gs_view::AgentView;
use std::alloc::{AllocError, Global};

/// The waiting threads, in order, take the free CPUs as under [`FirstCome`](crate::FirstCome). If none is
/// left for a thread, it may take the least other CPU of its mask from a thread of class 1. A thread of class
/// 0 may do so at once, and a thread of class 1 if that thread has had at least `slice` ticks.
///
/// # Examples
///
/// A configuration whose agent plans by it, with other numbers as in `THREE_CPUS`:
///
/// ```
/// let short = Config {
///     history: 3,
///     policy: AnyPolicy::TwoClass(TwoClass { slice: 1 }),
///     ..THREE_CPUS
/// };
/// ```
#[derive(Clone, Copy, PartialEq, Eq, Debug)]
pub struct TwoClass {
    pub slice: u16,
}

impl TwoClass {
    /// Returns the free CPUs, and those that a thread of each class may take from one of class 1: the plan
    /// among them is this policy's. If the free CPUs serve all that wait, no other CPU is looked at.
    fn candidates(&self, view: &AgentView, cpus: &CpuBeliefs<'_>, queue: &RunQueue) -> Candidates
        ensures { plan_among result (shows view.now.entries cpus.now queue.now) ≡ plan (class_one_after self.now.slice) (shows view.now.entries cpus.now queue.now) }
    {
        if serve_all(view, queue, free_alone(cpus)) {
            return free_alone(cpus);
        }
        let zero_class = class_one_cpus(view, cpus, 0);
        let one_class = those_that_have_had(view, cpus, self.slice, zero_class);
        Candidates::new(cpus, zero_class, one_class)
    }
}

impl Policy for TwoClass {
    ghost use Rattle.gs_policy.specs.Plan.{class_one_after, plan};
    ghost use Rattle.gs_policy.specs.Safety.{class_one_after-safe};

    ghost chosen = { λ p. plan (class_one_after p.slice) };

    fn plan(
        &self,
        alloc: Global,
        view: &AgentView,
        cpus: &CpuBeliefs<'_>,
        queue: &RunQueue,
    ) -> Result<Vec<Choice>, AllocError> {
        let among = self.candidates(view, cpus, queue);
        plan_among(alloc, view, cpus, queue, among)
    }

    #[inline(always)]
    fn plan_into(
        &self,
        _alloc: Global,
        view: &AgentView,
        cpus: &CpuBeliefs<'_>,
        queue: &RunQueue,
        choices: &mut Vec<Choice>,
    ) -> Result<(), AllocError> {
        let among = self.candidates(view, cpus, queue);
        plan_among_into(view, queue, among, choices)
    }

    ghost safe = { λ p. class_one_after-safe p.slice };
}

impl Counted for TwoClass {
    fn count(&self, view: &AgentView, cpus: &CpuBeliefs<'_>, queue: &RunQueue) -> usize {
        count_among(view, queue, self.candidates(view, cpus, queue))
    }
}
