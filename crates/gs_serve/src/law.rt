ghost use Rattle.std.specs.Prelude.{List, ℕ};
ghost use Rattle.gs_explain.specs.Sentenced.{AddsSentences};
ghost use Rattle.gs_session.specs.declared.heard.Heard.{Heard as Said};
ghost use Rattle.gs_session.specs.Lines.{HearsAll};
ghost use Rattle.gs_session.specs.Session.{Session as Held};
ghost use Rattle.gs_trace.specs.Noted.{Noted};
ghost use Rattle.gs_serve.specs.Answered.{ShowsAll, explained};
ghost use Rattle.gs_serve.specs.Served.{answers_of};

use gs_script::NamedPolicy;

/// States that explained answers are the plain ones with sentences among their lines: without the sentences they are the
/// plain answers to what was heard. It does nothing when it runs.
#[tactic(auto, using(crate::proofs::Sentences::answers_add))]
pub fn sentences_are_added<P: NamedPolicy>()
    ensures { (n now : Noted) (old new : Held P) (lines : List (List ℕ)) (hs : List Said) (out : List ℕ) → ShowsAll (explained P.naming P.chosen) n old lines hs now new out → AddsSentences (answers_of hs) out }
{}

/// States that lines are heard alike, whether their answers are explained or not. It does nothing when it runs.
#[tactic(auto, using(crate::proofs::Plainly::all_hear))]
pub fn explained_answers_are_heard<P: NamedPolicy>()
    ensures { (n now : Noted) (old new : Held P) (lines : List (List ℕ)) (hs : List Said) (out : List ℕ) → ShowsAll (explained P.naming P.chosen) n old lines hs now new out → HearsAll P.naming P.chosen old lines hs new }
{}
