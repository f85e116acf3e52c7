use gs_beliefs::CpuBeliefs;
use gs_keyed::{Key, WaitingThread};
use gs_runq::RunQueue;
use gs_view::AgentView;

/// Who may run on fewer CPUs has its turn first, so that threads with a choice leave these to it.
#[derive(Clone, Copy, PartialEq, Eq, Debug)]
pub struct ShortestMask;

impl Key for ShortestMask {
    ghost use Rattle.shortest_mask.specs.Key.{shortest_mask};

    ghost key_of = { λ p. shortest_mask };

    fn key(
        &self,
        _view: &AgentView,
        _cpus: &CpuBeliefs<'_>,
        _queue: &RunQueue,
        thread: &WaitingThread<'_>,
    ) -> u64 {
        thread.facts.mask.bits().count_ones() as u64
    }
}
