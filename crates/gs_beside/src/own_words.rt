ghost use Rattle.std.specs.Prelude.{◌≡◌, ◌≤◌, ◌++◌, ◌∷◌, [], true, ℕ, length, get_or};
ghost use Rattle.gs_script.specs.Naming.{forms_named};
ghost use Rattle.gs_beside.specs.Own.{are_in, own_form};

use gs_script::{NamedPolicy, PolicyWord};

/// How many numbers may stand behind a word of one's own.
pub const MOST_NUMBERS: usize = 8;

/// What words call a policy of one's own beside the policies `Q`: a word that is its own, and numbers behind it, as
/// `rr 2 5`.
///
/// The numbers of a policy are what else is to be known of it.
pub trait OwnWords<Q: NamedPolicy>: Copy {
    ghost use Rattle.gs_beside.specs.declared.own_words.TheConstants.{MOST_NUMBERS};
    ghost use Rattle.gs_beside.specs.Own.{BeginsOtherwise, Own, are_short, is_free};

    /// The word, the range of each number behind it, the policy of such numbers, the numbers of a policy, and the policy
    /// of a header that names none.
    ghost own: { Own Self };

    /// Returns the forms of the words that name a policy: those of the other policies, and its own as the last one.
    fn forms() -> &'static [&'static [PolicyWord]]
        ensures { forms_named result.now ≡ Q.naming.forms ++ own_form own ∷ [] };

    /// Returns the policy of a header that names none.
    fn unnamed() -> Self
        ensures { result ≡ own.unnamed };

    /// Returns the policy of these numbers, which are in their ranges.
    fn of(numbers: &[u64]) -> Self
        requires { are_in own.ranges numbers.now ≡ true }
        ensures { result ≡ own.of numbers.now };

    /// Returns a policy's number at a place, counted from 0, or 0 if it has none there.
    fn number(&self, place: usize) -> u64
        ensures { result ≡ get_or (own.numbers self.now) place 0 };

    /// Law: the word is one, of printed characters without a space, and each form of the other policies begins with
    /// another one.
    ghost free: { is_free Q.naming.forms own.word ≡ true };

    /// Law: there are at most [`MOST_NUMBERS`] numbers ..
    ghost few: { length own.ranges ≤ MOST_NUMBERS };

    /// Law: .. each of at most 64 bits.
    ghost short: { are_short own.ranges ≡ true };

    /// Law: a policy has a number for each range ..
    ghost counted: { (p : Self) → length (own.numbers p) ≡ length own.ranges };

    /// Law: .. and is the policy of its numbers.
    ghost again: { (p : Self) → own.of (own.numbers p) ≡ p };

    /// Law: the numbers of the policy of a header that names none are in their ranges, so that words name it too.
    ghost sayable: { are_in own.ranges (own.numbers own.unnamed) ≡ true };

    /// Law: the words of the other policies begin with another one.
    ghost apart: { (p : Q) → BeginsOtherwise own.word (Q.naming.words p) };
}
