ghost use Rattle.std.specs.Prelude.{◌≡◌, ◌&&◌, ℕ};
ghost use Rattle.gs_layout.specs.View.{look_up};
ghost use Rattle.gs_status.specs.Masks.{has};
ghost use Rattle.gs_beliefs.specs.Cpus.{believed_on, is_usable};
ghost use Rattle.gs_policy.specs.Plan.{has_had, is_known_one};

use gs_beliefs::CpuBeliefs;
use gs_layout::Class;
use gs_status::Mask;
use gs_view::AgentView;

/// Returns whether a thread is known, and of class 1.
fn is_class_one(view: &AgentView, tid: u32) -> bool
    ensures { result ≡ is_known_one (look_up view.now.entries tid) }
{
    let Some((facts, _)) = view.get(tid) else {
        return false;
    };
    facts.class == Class::One
}

/// Returns whether a CPU is believed to run a thread of class 1 that has had so many ticks. The view is asked
/// last, since that is a search.
fn has_had(view: &AgentView, cpus: &CpuBeliefs<'_>, ticks: u16, cpu: u16) -> bool
    ensures { result ≡ has_had ticks (look_up view.now.entries) (believed_on cpus.now.beliefs.now cpu) }
{
    let Some(running) = cpus.believed(cpu) else {
        return false;
    };
    ticks <= running.ticks && is_class_one(view, running.tid)
}

/// Returns those of a set of CPUs that are believed to run a thread of class 1 that has had at least so many
/// ticks. It does not allocate, and looks at no CPU that is not in the set.
#[tactic(auto, using(gs_beliefs::proofs::Laws::fewer_left, crate::proofs::Gathered::gathered_more, crate::proofs::Gathered::gathered_all))]
pub(crate) fn those_that_have_had(
    view: &AgentView,
    cpus: &CpuBeliefs<'_>,
    ticks: u16,
    among: Mask,
) -> Mask
    ensures { (c : ℕ) → has result c ≡ (has among c && has_had ticks (look_up view.now.entries) (believed_on cpus.now.beliefs.now c)) }
{
    let mut found = Mask::none();
    let mut left = among;
    while let Some(cpu) = left.lowest() {
        found = found.with_if(cpu, has_had(view, cpus, ticks, cpu));
        left = left.without(cpu);
    }
    found
}

/// Returns the usable CPUs that are believed to run a thread of class 1 that has had at least so many ticks.
/// It does not allocate.
pub fn class_one_cpus(view: &AgentView, cpus: &CpuBeliefs<'_>, ticks: u16) -> Mask
    ensures { (c : ℕ) → has result c ≡ (is_usable cpus.now.beliefs.now (has cpus.now.taken) c && has_had ticks (look_up view.now.entries) (believed_on cpus.now.beliefs.now c)) }
{
    those_that_have_had(view, cpus, ticks, cpus.busy())
}
