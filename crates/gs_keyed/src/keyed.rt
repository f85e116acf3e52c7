ghost use Rattle.std.specs.Prelude.{◌≡◌, ℕ, List};
ghost use Rattle.gs_layout.specs.declared.known.Known.{Known as KnownOf};
ghost use Rattle.gs_layout.specs.View.{look_up};
ghost use Rattle.gs_policy.specs.Candidates.{choices_of};
ghost use Rattle.gs_policy.specs.Plan.{nobody, plan};
ghost use Rattle.gs_policy.specs.Shown.{shows};
ghost use Rattle.gs_runq.specs.Queue.{Queue};

use crate::key::Key;
use crate::walk::{count_by_key, plan_by_key};
use gs_beliefs::CpuBeliefs;
use gs_policy::{Candidates, Choice, Counted, Policy};
use gs_runq::RunQueue;
use gs_status::Mask;
use gs_view::AgentView;
use std::alloc::{AllocError, Global};

/// The waiting threads, in the order of a key, take the free CPUs. Of threads with the same key, who waits first comes
/// first. Each takes the least one of its mask that the plan has not used yet, or none if there is no such CPU. Nobody
/// is preempted.
#[derive(Clone, Copy, PartialEq, Eq, Debug)]
pub struct Keyed<K> {
    pub key: K,
}

/// Returns the free CPUs alone: what threads choose among them, in whatever order, is what they choose if nobody is
/// preempted.
fn free_alone(cpus: &CpuBeliefs<'_>) -> Candidates
    ensures { (records : List (ℕ × KnownOf)) (queue : Queue) (tids : List ℕ) → choices_of result (look_up records) tids ≡ plan nobody (record (shows records cpus.now queue) { queue = tids }) }
{
    Candidates::new(cpus, Mask::none(), Mask::none())
}

impl<K: Key> Policy for Keyed<K> {
    ghost use Rattle.gs_keyed.specs.Keyed.{keyed, keyed-safe};

    ghost chosen = { λ p. keyed (K.key_of p.key) };

    fn plan(
        &self,
        alloc: Global,
        view: &AgentView,
        cpus: &CpuBeliefs<'_>,
        queue: &RunQueue,
    ) -> Result<Vec<Choice>, AllocError> {
        plan_by_key(alloc, &self.key, view, cpus, queue, free_alone(cpus))
    }

    ghost safe = { λ p. keyed-safe (K.key_of p.key) };
}

impl<K: Key> Counted for Keyed<K> {
    fn count(&self, view: &AgentView, cpus: &CpuBeliefs<'_>, queue: &RunQueue) -> usize {
        count_by_key(&self.key, view, cpus, queue, free_alone(cpus))
    }
}
