//! What words call [`HomeFirst`]: `home`.

use crate::home_first::HomeFirst;
use gs_beside::{FIRST, OwnWords, TWO};
use gs_policy::AnyPolicy;
use gs_script::PolicyWord;

/// The form of the words that name it.
pub const HOME: &[PolicyWord] = &[PolicyWord::Word("home")];

/// The forms of the words that name it, or one of the two that there are.
const FORMS: &[&[PolicyWord]] = &[FIRST, TWO, HOME];

impl OwnWords<AnyPolicy> for HomeFirst {
    ghost use Rattle.std.specs.Prelude.{refl};
    ghost use Rattle.gs_beside.specs.Own.{few_enough};
    ghost use Rattle.gs_beside.specs.Otherwise.{any_otherwise};
    ghost use Rattle.keyed_policies.specs.Words.{home};

    ghost own = { home };

    fn forms() -> &'static [&'static [PolicyWord]] {
        FORMS
    }

    fn unnamed() -> HomeFirst {
        HomeFirst
    }

    fn of(_numbers: &[u64]) -> HomeFirst {
        HomeFirst
    }

    fn number(&self, _place: usize) -> u64 {
        0
    }

    ghost free = { refl };

    ghost few = { few_enough refl };

    ghost short = { refl };

    ghost counted = { λ p. refl };

    ghost again = { λ p. refl };

    ghost sayable = { refl };

    ghost apart = { any_otherwise refl };
}
