ghost use Rattle.std.specs.Prelude.{◌≡◌, ◌≤◌, ◌*◌};
ghost use Rattle.gs_beliefs.specs.declared.running.TheConstants.{MOST_TICKS};
ghost use Rattle.gs_layout.specs.View.{look_up};
ghost use Rattle.gs_status.specs.declared.mask.TheConstants.{MOST_CPUS};
ghost use Rattle.gs_keyed.specs.Ticks.{class_ticks, ticks_had};

use gs_beliefs::{CpuBeliefs, MOST_TICKS, Running};
use gs_layout::Class;
use gs_status::MOST_CPUS;
use gs_view::AgentView;

/// Returns the ticks that a thread of a class has had that is believed to run, and 0 for any other.
fn ticks_had(view: &AgentView, class: Class, believed: Option<Running>) -> u16
    ensures { result ≡ ticks_had class (look_up view.now.entries) believed }
{
    let Some(running) = believed else {
        return 0;
    };
    match view.get(running.tid) {
        Some((facts, _)) if facts.class == class => running.ticks,
        _ => 0,
    }
}

/// Returns the ticks that the threads of a class have had that are believed to run, each since it was placed. It does not
/// allocate, and looks at each CPU.
pub fn class_ticks(view: &AgentView, cpus: &CpuBeliefs<'_>, class: Class) -> u64
    ensures sum { result ≡ class_ticks class (look_up view.now.entries) cpus.now.beliefs.now }
    ensures most { result ≤ MOST_CPUS * MOST_TICKS }
{
    let mut ticks = 0;
    for cpu in 0..cpus.cpus() {
        ticks += ticks_had(view, class, cpus.believed(cpu)) as u64;
    }
    ticks
}
