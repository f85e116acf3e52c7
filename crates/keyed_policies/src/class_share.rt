ghost use Rattle.std.specs.Prelude.{◌≡◌};
ghost use Rattle.keyed_policies.specs.ClassShare.{other_weight};

use gs_beliefs::CpuBeliefs;
use gs_keyed::{Key, WaitingThread, class_ticks};
use gs_layout::Class;
use gs_runq::RunQueue;
use gs_view::AgentView;

/// A weighted share of the CPUs' time for each class. The class whose threads have had fewer ticks for its weight, of
/// those that run now, has its turn first.
///
/// Ticks of threads that have left their CPU are not shown to a policy, so it is a share of the present, and no account
/// of the past. If one weight is 0, its class never comes first once it has had a tick.
#[derive(Clone, Copy, PartialEq, Eq, Debug)]
pub struct ClassShare {
    /// The weight of class 0.
    pub zero_weight: u16,
    /// The weight of class 1.
    pub one_weight: u16,
}

impl ClassShare {
    /// Returns the weight of the other class.
    fn other_weight(&self, class: Class) -> u16
        ensures { result ≡ other_weight self.now class }
    {
        match class {
            Class::Zero => self.one_weight,
            Class::One => self.zero_weight,
        }
    }
}

impl Key for ClassShare {
    ghost use Rattle.keyed_policies.specs.ClassShare.{class_share};

    ghost key_of = { class_share };

    fn key(
        &self,
        view: &AgentView,
        cpus: &CpuBeliefs<'_>,
        _queue: &RunQueue,
        thread: &WaitingThread<'_>,
    ) -> u64 {
        let class = thread.facts.class;
        class_ticks(view, cpus, class) * self.other_weight(class) as u64
    }
}
