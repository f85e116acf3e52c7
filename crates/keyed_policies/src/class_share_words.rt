//! What words call [`ClassShare`]: `share`, and the weights of the two classes.

use crate::class_share::ClassShare;
use crate::home_first::HomeFirst;
use crate::home_first_words::HOME;
use gs_beside::{Beside, FIRST, OwnWords, TWO};
use gs_keyed::Keyed;
use gs_script::PolicyWord;

/// The most that a weight may be.
pub const MOST_WEIGHT: u16 = u16::MAX;

/// The form of the words that name it.
pub const SHARE: &[PolicyWord] = &[
    PolicyWord::Word("share"),
    PolicyWord::Number {
        letter: "Z",
        what: "the weight of class 0",
        least: 0,
        most: MOST_WEIGHT as u64,
    },
    PolicyWord::Number {
        letter: "O",
        what: "the weight of class 1",
        least: 0,
        most: MOST_WEIGHT as u64,
    },
];

/// The forms of the words that name it, [`HomeFirst`], or one of the two that there are.
const FORMS: &[&[PolicyWord]] = &[FIRST, TWO, HOME, SHARE];

impl OwnWords<Beside<Keyed<HomeFirst>>> for ClassShare {
    ghost use Rattle.std.specs.Prelude.{refl};
    ghost use Rattle.gs_beside.specs.Own.{few_enough};
    ghost use Rattle.keyed_policies.specs.Words.{home_otherwise, share};

    ghost own = { share };

    fn forms() -> &'static [&'static [PolicyWord]] {
        FORMS
    }

    fn unnamed() -> ClassShare {
        ClassShare {
            zero_weight: 1,
            one_weight: 1,
        }
    }

    fn of(numbers: &[u64]) -> ClassShare {
        ClassShare {
            zero_weight: numbers[0] as u16,
            one_weight: numbers[1] as u16,
        }
    }

    fn number(&self, place: usize) -> u64 {
        match place {
            0 => self.zero_weight as u64,
            1 => self.one_weight as u64,
            _ => 0,
        }
    }

    ghost free = { refl };

    ghost few = { few_enough refl };

    ghost short = { refl };

    ghost counted = { λ p. refl };

    ghost again = { λ p. refl };

    ghost sayable = { refl };

    ghost apart = { home_otherwise refl refl };
}
