ghost use Rattle.std.specs.Prelude.{◌≡◌};
ghost use Rattle.gs_keyed.specs.Order.{waiting};
ghost use Rattle.gs_policy.specs.Shown.{shows};

use gs_beliefs::CpuBeliefs;
use gs_layout::Facts;
use gs_runq::RunQueue;
use gs_view::AgentView;

/// A thread that waits, as a key is asked of it.
#[derive(Clone, Copy)]
pub struct WaitingThread<'a> {
    /// How many threads wait before it in the queue.
    pub place: usize,
    pub tid: u32,
    /// What the agent knows of it: its mask, its class, its name.
    pub facts: &'a Facts,
    /// The sequence number at which the facts were so.
    pub tseq: u32,
}

/// A number for each waiting thread: whose number is less has its turn first.
pub trait Key {
    ghost use Rattle.std.specs.Prelude.{ℕ};
    ghost use Rattle.gs_policy.specs.Shown.{Shown};
    ghost use Rattle.gs_keyed.specs.Order.{Waiting};

    /// The key of a thread, by what a policy is shown.
    ghost key_of: { Self → Shown → Waiting → ℕ };

    /// Returns the key of a thread that waits in `queue`. `view` is what the agent knows of each thread, and `cpus` what
    /// it believes of each CPU and which ones the other class holds. It changes nothing.
    fn key(
        &self,
        view: &AgentView,
        cpus: &CpuBeliefs<'_>,
        queue: &RunQueue,
        thread: &WaitingThread<'_>,
    ) -> u64
        ensures { result ≡ key_of self.now (shows view.now.entries cpus.now queue.now) (waiting thread.now) };
}
