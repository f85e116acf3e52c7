ghost use Rattle.std.specs.Prelude.{◌≡◌, length};
ghost use Rattle.gs_policy.specs.Shown.{shows};

use crate::policy::Policy;
use gs_beliefs::CpuBeliefs;
use gs_runq::RunQueue;
use gs_view::AgentView;

/// A policy that can tell how many choices its plan has, without allocating them.
///
/// It is for whoever has to know, if [`Policy::plan`] is out of memory for the choices, how many there would
/// have been. So it is known whether the plan would have fitted in the room that there is for it.
pub trait Counted: Policy {
    /// Returns how many choices the plan has. It does not allocate, and changes nothing.
    fn count(&self, view: &AgentView, cpus: &CpuBeliefs<'_>, queue: &RunQueue) -> usize
        ensures { result ≡ length (Self.chosen self.now (shows view.now.entries cpus.now queue.now)) };
}
