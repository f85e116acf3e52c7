ghost use Rattle.std.specs.Prelude.{◌≡◌, List, ℕ};
ghost use Rattle.gs_trace.specs.declared.run.Ended.{Ended};
ghost use Rattle.gs_trace.specs.Output.{IsBy, IsShown, Show};

use gs_script::NamedPolicy;

/// States that an input has at most one output and one ending, whatever text what came of it is shown by. If
/// memory suffices, its events have one reply each, and leave one history. So what `run_as` promises to write,
/// but for a picture, is a function of what was read. It does nothing when it runs.
pub fn one_output<P: NamedPolicy>()
    ensures { (show : Show) (input : List ℕ) (ended other_ended : Ended) (out other : List ℕ) → IsShown P.naming P.chosen (IsBy show) input ended out → IsShown P.naming P.chosen (IsBy show) input other_ended other → (ended ≡ other_ended) × (out ≡ other) }
{}
