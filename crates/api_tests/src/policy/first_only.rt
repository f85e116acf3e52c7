//! A policy of one's own, as docs/POLICIES.md shows it.

ghost use Rattle.std.specs.Prelude.{◌≡◌};
ghost use Rattle.gs_layout.specs.View.{look_up};
ghost use Rattle.gs_status.specs.Masks.{has};
ghost use Rattle.api_tests.specs.FirstOnly.{free_for};

use gs_beliefs::CpuBeliefs;
use gs_policy::{Choice, Policy};
use gs_runq::RunQueue;
use gs_view::AgentView;
use std::alloc::{AllocError, Global};

/// Only the thread that waits first is placed, on the least free CPU of its mask.
pub(super) struct FirstOnly;

/// The least free CPU of a thread's mask.
#[tactic(auto, using(gs_status::proofs::Laws::least_same))]
fn free_for(view: &AgentView, cpus: &CpuBeliefs<'_>, tid: u32) -> Option<u16>
    ensures { result ≡ free_for cpus.now.beliefs.now (has cpus.now.taken) (look_up view.now.entries tid) }
{
    let (facts, _) = view.get(tid)?;
    cpus.free().both(facts.mask).lowest()
}

impl Policy for FirstOnly {
    ghost use Rattle.api_tests.specs.FirstOnly.{first_only, first_only-safe};

    ghost chosen = { λ p. first_only };

    fn plan(
        &self,
        alloc: Global,
        view: &AgentView,
        cpus: &CpuBeliefs<'_>,
        queue: &RunQueue,
    ) -> Result<Vec<Choice>, AllocError> {
        let mut choices = Vec::new(alloc);
        let Some(tid) = queue.walk().next() else {
            return Ok(choices);
        };
        if let Some(cpu) = free_for(view, cpus, tid) {
            choices.push(Choice {
                cpu,
                tid,
                preempt: false,
            })?;
        }
        Ok(choices)
    }

    ghost safe = { λ p. first_only-safe };
}
