//! What words call the policy.

use crate::key::ShortestMask;
use gs_beside::{FIRST, OwnWords, TWO};
use gs_script::PolicyWord;
use keyed_policies::{HOME, SHARE};
use round_robin::{Policies, ROUND_ROBIN};

/// The forms of the words that name a policy: those of the policies that there are, and its own word.
const FORMS: &[&[PolicyWord]] = &[
    FIRST,
    TWO,
    HOME,
    SHARE,
    ROUND_ROBIN,
    &[PolicyWord::Word("shortest_mask")],
];

impl OwnWords<Policies> for ShortestMask {
    ghost use Rattle.std.specs.Prelude.{codes, refl};
    ghost use Rattle.gs_beside.specs.Own.{few_enough, word_alone};
    ghost use Rattle.round_robin.specs.Words.{policies_otherwise};

    ghost own = { word_alone (codes "shortest_mask") (record {}) };

    fn forms() -> &'static [&'static [PolicyWord]] {
        FORMS
    }

    fn unnamed() -> ShortestMask {
        ShortestMask
    }

    fn of(_numbers: &[u64]) -> ShortestMask {
        ShortestMask
    }

    fn number(&self, _place: usize) -> u64 {
        0
    }

    ghost free = { refl };

    ghost few = { few_enough refl };

    ghost short = { refl };

    ghost counted = { λ p. refl };

    ghost again = { λ p. refl };

    ghost sayable = { refl };

    ghost apart = { policies_otherwise refl refl refl refl };
}
