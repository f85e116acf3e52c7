use crate::choice::Choice;
use crate::counted::Counted;
use crate::first_come::FirstCome;
use crate::policy::Policy;
use crate::two_class::TwoClass;
use gs_beliefs::CpuBeliefs;
use gs_runq::RunQueue;
use gs_view::AgentView;
use std::alloc::{AllocError, Global};

/// Either policy, of which the program knows only as it runs which one it is.
///
/// # Examples
///
/// Each of the two, where `TWO_TICKS` is a [`TwoClass`]:
///
/// ```
/// let either_first = AnyPolicy::FirstCome(FirstCome);
/// let either_two = AnyPolicy::TwoClass(TWO_TICKS);
/// ```
#[derive(Clone, Copy, PartialEq, Eq, Debug)]
pub enum AnyPolicy {
    FirstCome(FirstCome),
    TwoClass(TwoClass),
}

impl Policy for AnyPolicy {
    ghost use Rattle.gs_policy.specs.Any.{any_takes};
    ghost use Rattle.gs_policy.specs.Plan.{plan};
    ghost use Rattle.gs_policy.specs.Safety.{any-safe};

    ghost chosen = { λ p. plan (any_takes p) };

    fn plan(
        &self,
        alloc: Global,
        view: &AgentView,
        cpus: &CpuBeliefs<'_>,
        queue: &RunQueue,
    ) -> Result<Vec<Choice>, AllocError> {
        match self {
            AnyPolicy::FirstCome(policy) => policy.plan(alloc, view, cpus, queue),
            AnyPolicy::TwoClass(policy) => policy.plan(alloc, view, cpus, queue),
        }
    }

    #[inline(always)]
    fn plan_into(
        &self,
        alloc: Global,
        view: &AgentView,
        cpus: &CpuBeliefs<'_>,
        queue: &RunQueue,
        choices: &mut Vec<Choice>,
    ) -> Result<(), AllocError> {
        match self {
            AnyPolicy::FirstCome(policy) => policy.plan_into(alloc, view, cpus, queue, choices),
            AnyPolicy::TwoClass(policy) => policy.plan_into(alloc, view, cpus, queue, choices),
        }
    }

    ghost safe = { any-safe };
}

impl Counted for AnyPolicy {
    fn count(&self, view: &AgentView, cpus: &CpuBeliefs<'_>, queue: &RunQueue) -> usize {
        match self {
            AnyPolicy::FirstCome(policy) => policy.count(view, cpus, queue),
            AnyPolicy::TwoClass(policy) => policy.count(view, cpus, queue),
        }
    }
}
