//! A policy of one's own that goes through the waiting threads in order, as docs/POLICIES.md shows it.

ghost use Rattle.std.specs.Prelude.{◌≡◌};
ghost use Rattle.gs_policy.specs.Candidates.{plan_among};
ghost use Rattle.gs_policy.specs.Plan.{plan};
ghost use Rattle.gs_policy.specs.Shown.{shows};
ghost use Rattle.gs_runq.specs.Queue.{Queue};
ghost use Rattle.api_tests.specs.ZeroPreempts.{zero_takes};

use gs_beliefs::CpuBeliefs;
use gs_policy::{Candidates, Choice, Counted, Policy, class_one_cpus, count_among, plan_among};
use gs_runq::RunQueue;
use gs_status::Mask;
use gs_view::AgentView;
use std::alloc::{AllocError, Global};

/// The waiting threads, in order, take the least free CPUs of their masks. If none is left for a thread of
/// class 0, it takes one from a thread of class 1 at once. A thread of class 1 preempts nobody.
pub(super) struct ZeroPreempts;

/// The free CPUs, and those that a thread of class 0 may take: the plan among them is this policy's.
fn candidates(view: &AgentView, cpus: &CpuBeliefs<'_>) -> Candidates
    ensures { (queue : Queue) → plan_among result (shows view.now.entries cpus.now queue) ≡ plan zero_takes (shows view.now.entries cpus.now queue) }
{
    Candidates::new(cpus, class_one_cpus(view, cpus, 0), Mask::none())
}

impl Policy for ZeroPreempts {
    ghost use Rattle.gs_policy.specs.Plan.{plan};
    ghost use Rattle.api_tests.specs.ZeroPreempts.{zero_preempts-safe, zero_takes};

    ghost chosen = { λ p. plan zero_takes };

    fn plan(
        &self,
        alloc: Global,
        view: &AgentView,
        cpus: &CpuBeliefs<'_>,
        queue: &RunQueue,
    ) -> Result<Vec<Choice>, AllocError> {
        plan_among(alloc, view, cpus, queue, candidates(view, cpus))
    }

    ghost safe = { λ p. zero_preempts-safe };
}

impl Counted for ZeroPreempts {
    fn count(&self, view: &AgentView, cpus: &CpuBeliefs<'_>, queue: &RunQueue) -> usize {
        count_among(view, queue, candidates(view, cpus))
    }
}
