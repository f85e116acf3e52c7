use gs_beliefs::CpuBeliefs;
use gs_keyed::{Key, WaitingThread};
use gs_runq::RunQueue;
use gs_view::AgentView;

/// A thread's home is the least CPU of its mask. Threads whose home is free have their turn first, and of those with one
/// home, who waits first takes it. So a thread comes back to one CPU as long as that is free.
///
/// It is the nearest to the CPU that a thread was on last, which nobody keeps: what an agent believes of a CPU ends as
/// the thread leaves it.
#[derive(Clone, Copy, PartialEq, Eq, Debug)]
pub struct HomeFirst;

impl Key for HomeFirst {
    ghost use Rattle.keyed_policies.specs.HomeFirst.{home_first};

    ghost key_of = { λ p. home_first };

    fn key(
        &self,
        _view: &AgentView,
        cpus: &CpuBeliefs<'_>,
        _queue: &RunQueue,
        thread: &WaitingThread<'_>,
    ) -> u64 {
        match thread.facts.mask.lowest() {
            Some(home) if cpus.is_free(home) => 0,
            _ => 1,
        }
    }
}
