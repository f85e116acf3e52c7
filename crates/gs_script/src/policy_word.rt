ghost use Rattle.std.specs.Prelude.{◌≡◌};
ghost use Rattle.gs_script.specs.Grammar.{has_count, is_of_kind};
ghost use Rattle.gs_script.specs.Naming.{forms_named, policy_kind};

use crate::word::number;

/// What one of the words is to be that name a policy.
#[derive(Clone, Copy, PartialEq, Eq, Debug)]
pub enum PolicyWord {
    /// This word.
    Word(&'static str),
    /// A number from `least` to `most`, both among them. In messages it is called by its letter, and by what it is.
    Number {
        letter: &'static str,
        what: &'static str,
        least: u64,
        most: u64,
    },
}

/// Returns whether a word is such a one.
pub(crate) fn is_policy_word(wanted: PolicyWord, word: &str) -> bool
    ensures { result ≡ is_of_kind (policy_kind wanted) word.now }
{
    match wanted {
        PolicyWord::Word(text) => word == text,
        PolicyWord::Number { least, most, .. } => number(word, least, most).is_ok(),
    }
}

/// Returns whether a policy is named by so many words.
pub(crate) fn has_name_of(forms: &[&[PolicyWord]], count: usize) -> bool
    ensures { result ≡ has_count (forms_named forms.now) count }
{
    match forms {
        [] => false,
        [form, rest @ ..] => form.len() == count || has_name_of(rest, count),
    }
}
