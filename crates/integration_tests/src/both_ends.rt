//! A policy of one's own, over the libraries alone: from both ends of the CPUs.

ghost use Rattle.std.specs.Prelude.{◌≡◌, ◌<◌, IfSome};
ghost use Rattle.gs_layout.specs.View.{look_up};
ghost use Rattle.gs_status.specs.Masks.{has};
ghost use Rattle.integration_tests.specs.BothEnds.{cpu_for};
ghost use Rattle.integration_tests.specs.Greatest.{greatest};

use gs_beliefs::CpuBeliefs;
use gs_layout::Class;
use gs_policy::{Choice, Policy};
use gs_runq::RunQueue;
use gs_status::{MOST_CPUS, Mask};
use gs_view::AgentView;
use std::alloc::{AllocError, Global};

/// The waiting threads, in order, take the free CPUs of their masks that the plan has not used yet. A thread
/// of class 0 takes the least of them, and a thread of class 1 the greatest. Nobody is preempted.
#[derive(Clone, Copy, PartialEq, Eq, Debug)]
pub struct BothEnds;

/// Returns the greatest CPU of a set, or `None` if no CPU is in it.
#[tactic(auto, using(crate::proofs::Ends::greatest_of_none, crate::proofs::Ends::greatest_of_some, crate::proofs::Ends::highest_within))]
fn highest(mask: Mask) -> Option<u16>
    ensures greatest { result ≡ greatest (has mask) MOST_CPUS }
    ensures within { IfSome result (λ c. c < MOST_CPUS) }
{
    let bits = mask.bits();
    if bits == 0 {
        return None;
    }
    Some(MOST_CPUS - 1 - bits.leading_zeros() as u16)
}

/// The CPU for a thread, among those that are left.
fn cpu_for(view: &AgentView, left: Mask, tid: u32) -> Option<u16>
    ensures cpu { result ≡ cpu_for (has left) (look_up view.now.entries tid) }
    ensures within { IfSome result (λ c. c < MOST_CPUS) }
{
    let (facts, _) = view.get(tid)?;
    let open = left.both(facts.mask);
    match facts.class {
        Class::Zero => open.lowest(),
        Class::One => highest(open),
    }
}

impl Policy for BothEnds {
    ghost use Rattle.integration_tests.specs.BothEnds.{both_ends, both_ends-safe};

    ghost chosen = { λ p. both_ends };

    #[tactic(auto, using(crate::proofs::Ends::planning_start, crate::proofs::Ends::planning_end))]
    fn plan(
        &self,
        alloc: Global,
        view: &AgentView,
        cpus: &CpuBeliefs<'_>,
        queue: &RunQueue,
    ) -> Result<Vec<Choice>, AllocError> {
        let mut choices = Vec::new(alloc);
        let mut left = cpus.free();
        for tid in queue.walk() {
            let Some(cpu) = cpu_for(view, left, tid) else {
                continue;
            };
            choices.push(Choice {
                cpu,
                tid,
                preempt: false,
            })?;
            left = left.without(cpu);
        }
        Ok(choices)
    }

    ghost safe = { λ p. both_ends-safe };
}
