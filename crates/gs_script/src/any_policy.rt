//! How words name either of the two policies that there are.

ghost use Rattle.std.specs.Prelude.{◌≡◌, ◌∷◌, codes};
ghost use Rattle.gs_script.specs.Rows.{shown};
ghost use Rattle.gs_script.specs.Naming.{policy_named};
ghost use Rattle.gs_script.specs.Any.{any};

use crate::fault::Reason;
use crate::header::{LEAST_SLICE, MOST_SLICE};
use crate::named_policy::NamedPolicy;
use crate::policy_word::PolicyWord;
use crate::word::number;
use gs_policy::{AnyPolicy, FirstCome, TwoClass};
use std::alloc::{AllocError, Global};

/// The form of the words that name first come.
pub const FIRST: &[PolicyWord] = &[PolicyWord::Word("first")];

/// The form of the words that name the two-class policy.
pub const TWO: &[PolicyWord] = &[
    PolicyWord::Word("two"),
    PolicyWord::Number {
        letter: "S",
        what: "a count of ticks",
        least: LEAST_SLICE as u64,
        most: MOST_SLICE as u64,
    },
];

/// The forms that name either policy.
const FORMS: &[&[PolicyWord]] = &[FIRST, TWO];

/// The two-class policy: its slice, and nothing behind it.
fn two_class(words: &[&str]) -> Result<AnyPolicy, Reason>
    ensures { result ≡ policy_named any (codes "two" ∷ shown words.now) }
{
    let Some((slice, rest)) = words.split_first() else {
        return Err(Reason::BadCount);
    };
    let slice = number(slice, LEAST_SLICE as u64, MOST_SLICE as u64)? as u16;
    match rest {
        [] => Ok(AnyPolicy::TwoClass(TwoClass { slice })),
        _ => Err(Reason::BadCount),
    }
}

impl NamedPolicy for AnyPolicy {
    ghost use Rattle.std.specs.Prelude.{refl};
    ghost use Rattle.gs_script.specs.Any.{any};
    ghost use Rattle.gs_script.specs.Told.{told_apart};

    ghost naming = { any };

    fn forms() -> &'static [&'static [PolicyWord]] {
        FORMS
    }

    fn unnamed() -> AnyPolicy {
        AnyPolicy::FirstCome(FirstCome)
    }

    fn from_words(words: &[&str]) -> Result<AnyPolicy, Reason> {
        let Some((name, rest)) = words.split_first() else {
            return Err(Reason::BadCount);
        };
        match *name {
            "first" => match rest {
                [] => Ok(AnyPolicy::FirstCome(FirstCome)),
                _ => Err(Reason::BadCount),
            },
            "two" => two_class(rest),
            _ => Err(Reason::BadWord),
        }
    }

    fn words(&self, alloc: Global) -> Result<String, AllocError> {
        match self {
            AnyPolicy::FirstCome(_) => String::from_str(alloc, "first"),
            AnyPolicy::TwoClass(TwoClass { slice }) => format!(in alloc; "two {slice}"),
        }
    }

    ghost some = { refl };

    ghost told = { told_apart };
}
