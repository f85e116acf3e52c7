//! Which lines of a script say something.

ghost use Rattle.std.specs.Prelude.{◌≡◌, List, ℕ};
ghost use Rattle.gs_script.specs.Words.{words_of};
ghost use Rattle.gs_script.specs.Script.{is_passed_over, script_of};
ghost use Rattle.gs_script.specs.Said.{SayScript, said_in};

use crate::named_policy::NamedPolicy;

/// Returns whether a line is passed over.
#[tactic(auto, using(crate::proofs::Saying::words_behind, crate::proofs::Saying::passed_by))]
pub(crate) fn is_silent(line: &[u8]) -> bool
    ensures { result ≡ is_passed_over (words_of line.now) }
{
    let mut rest = line;
    'spaces: while let [b' ', behind @ ..] = rest {
        rest = behind;
    }
    match rest.first() {
        None => true,
        Some(first) => *first == b'#',
    }
}

/// States that the lines that say something are the header's, and one for each event: the i-th of those behind the
/// header says the i-th event. It does nothing when it runs.
#[tactic(auto, using(crate::proofs::Saying::script_said))]
pub fn lines_say_events<P: NamedPolicy>()
    ensures { (bytes : List ℕ) → SayScript P.naming (said_in bytes) (script_of P.naming bytes) }
{}
