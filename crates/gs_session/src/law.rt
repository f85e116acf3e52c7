ghost use Rattle.std.specs.Prelude.{List, ℕ};
ghost use Rattle.gs_script.specs.Script.{script_from};
ghost use Rattle.gs_session.specs.declared.heard.Heard.{Heard as Said};
ghost use Rattle.gs_session.specs.Session.{Session as Held, unheard};
ghost use Rattle.gs_session.specs.Lines.{HearsAll, IsRunIn, faultless, replies_in};

use gs_script::NamedPolicy;

/// States that what a session heard is what its lines without a fault come to as a script. They say a script whose run
/// has just the replies that were heard, and leaves the machine that the session has. If no header was heard, they say
/// that there is none. It does nothing when it runs.
#[tactic(auto, using(crate::proofs::Laws::all_run))]
pub fn heard_is_run<P: NamedPolicy>()
    ensures { (lines : List (List ℕ)) (hs : List Said) (after : Held P) → HearsAll P.naming P.chosen unheard lines hs after → IsRunIn P.chosen (script_from P.naming 1 (faultless lines hs)) (replies_in hs) after.opened }
{}
