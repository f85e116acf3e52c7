ghost use Rattle.std.specs.Prelude.{◌≡◌, false, length, List, nat_lt, ℕ};
ghost use Rattle.gs_script.specs.declared.script.TheConstants.{MOST_BYTES};
ghost use Rattle.gs_script.specs.Script.{script_of};
ghost use Rattle.gs_session.specs.Lines.{IsRunIn, replies_in};
ghost use Rattle.gs_session.specs.Session.{Session as Held};
ghost use Rattle.gs_simulate.specs.Heard.{IsHeard};

use gs_script::NamedPolicy;

/// States that a text which a session heard is a script without a fault, if it is not longer than a script may be. Its run
/// has just the replies that were heard, and leaves the machine that the session has. It does nothing when it runs.
pub fn simulated_is_run<P: NamedPolicy>()
    ensures { (text : List ℕ) (session : Held P) (t : IsHeard P.naming P.chosen text session) → nat_lt MOST_BYTES (length text) ≡ false → IsRunIn P.chosen (script_of P.naming text) (replies_in t.heard) session.opened }
{}
