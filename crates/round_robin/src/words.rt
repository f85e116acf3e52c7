//! What words call the policy beside those of keyed_policies: `rr`, and the slices of the two classes.

use crate::policy::RoundRobin;
use gs_beliefs::MOST_TICKS;
use gs_beside::{FIRST, OwnWords, TWO};
use gs_script::PolicyWord;
use keyed_policies::{HOME, KeyedPolicies, SHARE};

/// The form of the words that name it.
pub const ROUND_ROBIN: &[PolicyWord] = &[
    PolicyWord::Word("rr"),
    PolicyWord::Number {
        letter: "Z",
        what: "the slice of class 0 in ticks",
        least: 0,
        most: MOST_TICKS as u64,
    },
    PolicyWord::Number {
        letter: "O",
        what: "the slice of class 1 in ticks",
        least: 0,
        most: MOST_TICKS as u64,
    },
];

/// The forms of the words that name it, or a policy beside it.
const FORMS: &[&[PolicyWord]] = &[FIRST, TWO, HOME, SHARE, ROUND_ROBIN];

impl OwnWords<KeyedPolicies> for RoundRobin {
    ghost use Rattle.std.specs.Prelude.{refl};
    ghost use Rattle.gs_beside.specs.Own.{few_enough};
    ghost use Rattle.keyed_policies.specs.Words.{keyed_otherwise};
    ghost use Rattle.round_robin.specs.Words.{slices};

    ghost own = { slices };

    fn forms() -> &'static [&'static [PolicyWord]] {
        FORMS
    }

    fn unnamed() -> RoundRobin {
        RoundRobin {
            zero_slice: 2,
            one_slice: 1,
        }
    }

    fn of(numbers: &[u64]) -> RoundRobin {
        RoundRobin {
            zero_slice: numbers[0] as u16,
            one_slice: numbers[1] as u16,
        }
    }

    fn number(&self, place: usize) -> u64 {
        match place {
            0 => self.zero_slice as u64,
            1 => self.one_slice as u64,
            _ => 0,
        }
    }

    ghost free = { refl };

    ghost few = { few_enough refl };

    ghost short = { refl };

    ghost counted = { λ p. refl };

    ghost again = { λ p. refl };

    ghost sayable = { refl };

    ghost apart = { keyed_otherwise refl refl refl };
}
