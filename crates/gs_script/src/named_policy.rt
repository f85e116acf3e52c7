ghost use Rattle.std.specs.Prelude.{◌≡◌, [], false, IfOk, Ok, string_bytes};
ghost use Rattle.gs_script.specs.Header.{policy_said};
ghost use Rattle.gs_script.specs.Rows.{shown};
ghost use Rattle.gs_script.specs.Grammar.{is_empty};
ghost use Rattle.gs_script.specs.Naming.{forms_named, policy_named};

use crate::fault::Reason;
use crate::policy_word::PolicyWord;
use gs_policy::Counted;
use std::alloc::{AllocError, Global};

/// A policy that the words of a script can name: those behind `policy` in a header, and behind `begin`.
///
/// Its `naming` says which forms there are of such words, and which policy they name. All that reads scripts is generic in
/// the policy, and its clauses speak of `naming`.
pub trait NamedPolicy: Counted + Copy {
    ghost use Rattle.gs_script.specs.Naming.{Naming};

    /// The forms of the words that name a policy of this type, and the one that they name.
    ghost naming: { Naming Self };

    /// Returns the forms: what the words are to be that name a policy, one after another.
    fn forms() -> &'static [&'static [PolicyWord]]
        ensures { forms_named result.now ≡ naming.forms };

    /// Returns the policy of a header that names none.
    fn unnamed() -> Self
        ensures { result ≡ naming.named [] };

    /// Returns the policy that these words name.
    ///
    /// # Errors
    ///
    /// Of the first word, from the left, that no form takes which took those before it: what the first form that is left
    /// wants there gives `BadWord` or `BadNumber`. Where none wants a word, and where words are missing, it is `BadCount`.
    fn from_words(words: &[&str]) -> Result<Self, Reason>
        ensures { result ≡ policy_named naming (shown words.now) };

    /// Returns the words of the policy, with a space between two of them.
    ///
    /// # Errors
    ///
    /// `AllocError` if out of memory.
    fn words(&self, alloc: Global) -> Result<String, AllocError>
        ensures { IfOk result (λ text. string_bytes text ≡ naming.words self.now) };

    /// Law: there is a form.
    ghost some: { is_empty naming.forms ≡ false };

    /// Law: the words of a policy name no other one.
    ghost told: { (p q : Self) → policy_said naming (naming.words p) ≡ Ok q → q ≡ p };
}
