ghost use Rattle.std.specs.Prelude.{◌≡◌, ℕ, List};
ghost use Rattle.gs_layout.specs.declared.known.Known.{Known as KnownOf};
ghost use Rattle.gs_policy.specs.Candidates.{plan_among};
ghost use Rattle.gs_policy.specs.Plan.{nobody, plan};
ghost use Rattle.gs_policy.specs.Shown.{shows};
ghost use Rattle.gs_runq.specs.Queue.{Queue};

use crate::candidates::Candidates;
use crate::choice::Choice;
use crate::counted::Counted;
use crate::policy::Policy;
use crate::walk::{count_among, plan_among, plan_among_into};
use gs_beliefs::CpuBeliefs;
use gs_runq::RunQueue;
use gs_status::Mask;
use gs_view::AgentView;
use std::alloc::{AllocError, Global};

/// The waiting threads, in order, take the free CPUs. Each takes the least one of its mask that the plan has
/// not used yet, or none if there is no such CPU. Nobody is preempted.
///
/// # Examples
///
/// What an enclave is opened with whose agent plans by it:
///
/// ```
/// let config = Config {
///     cpus: 2,
///     ring: 128,
///     first_tseq: 0,
///     first_generation: 1,
///     history: 1000,
///     policy: FirstCome,
/// };
/// ```
#[derive(Clone, Copy, PartialEq, Eq, Debug)]
pub struct FirstCome;

/// Returns the free CPUs alone: the plan among them is this policy's.
pub(crate) fn free_alone(cpus: &CpuBeliefs<'_>) -> Candidates
    ensures { (records : List (ℕ × KnownOf)) (queue : Queue) → plan_among result (shows records cpus.now queue) ≡ plan nobody (shows records cpus.now queue) }
{
    Candidates::new(cpus, Mask::none(), Mask::none())
}

impl Policy for FirstCome {
    ghost use Rattle.gs_policy.specs.Plan.{nobody, plan};
    ghost use Rattle.gs_policy.specs.Safety.{nobody-safe};

    ghost chosen = { λ p. plan nobody };

    fn plan(
        &self,
        alloc: Global,
        view: &AgentView,
        cpus: &CpuBeliefs<'_>,
        queue: &RunQueue,
    ) -> Result<Vec<Choice>, AllocError> {
        plan_among(alloc, view, cpus, queue, free_alone(cpus))
    }

    #[inline(always)]
    fn plan_into(
        &self,
        _alloc: Global,
        view: &AgentView,
        cpus: &CpuBeliefs<'_>,
        queue: &RunQueue,
        choices: &mut Vec<Choice>,
    ) -> Result<(), AllocError> {
        plan_among_into(view, queue, free_alone(cpus), choices)
    }

    ghost safe = { λ p. nobody-safe };
}

impl Counted for FirstCome {
    fn count(&self, view: &AgentView, cpus: &CpuBeliefs<'_>, queue: &RunQueue) -> usize {
        count_among(view, queue, free_alone(cpus))
    }
}
