ghost use Rattle.std.specs.Prelude.{◌≡◌, ◌≢◌, ◌<◌, ◌^◌, ◌&&◌, ℕ, true, false, IfSome, IfNone};
ghost use Rattle.gs_status.specs.Masks.{has, has_none, least};

use std::marker::Model;

/// How many numbers there may be in a [`BitWord`]: those from 0 on, a bit for each.
pub const WORD_BITS: u16 = 64;

/// A set of numbers below [`WORD_BITS`]: a number is in it if its bit is set. Clauses see it as its bits.
#[derive(Clone, Copy, PartialEq, Eq, Debug)]
pub struct BitWord {
    bits: u64,
}

impl Model for BitWord {
    ghost use Rattle.std.specs.Prelude.{ℕ};

    ghost Value = { ℕ };

    ghost view = { λ w. w.bits };

    ghost inverse = { λ n. record { bits = n } };
}

impl BitWord {
    /// Returns the set of these bits.
    pub const fn new(bits: u64) -> BitWord
        ensures same { result ≡ bits }
        ensures fits { result < 2 ^ WORD_BITS }
    {
        BitWord { bits }
    }

    /// Returns the empty set.
    #[tactic(auto, using(crate::proofs::Masks::nobody))]
    pub const fn none() -> BitWord
        ensures bits { result ≡ 0 }
        ensures empty { (n : ℕ) → has result n ≡ false }
    {
        BitWord { bits: 0 }
    }

    /// Returns the bits of the set: bit n is set if n is in it.
    pub const fn bits(self) -> u64
        ensures { result ≡ self }
    {
        self.bits
    }

    /// Returns whether the set is empty.
    pub fn is_empty(self) -> bool
        ensures { result ≡ has_none self }
    {
        self.bits == 0
    }

    /// Returns whether a number is in the set. None from [`WORD_BITS`] on is.
    #[tactic(auto, using(crate::proofs::Masks::none_past_word))]
    pub fn has(self, number: u16) -> bool
        ensures { result ≡ has self number }
    {
        let bits = self.bits;
        number < WORD_BITS && (bits >> number) & 1 == 1
    }

    /// Returns the set with one number more, or the same set if it has that number, which is below
    /// [`WORD_BITS`].
    #[tactic(auto, using(crate::proofs::Masks::with_fits, crate::proofs::Masks::with_here, crate::proofs::Masks::with_others))]
    pub fn with(self, number: u16) -> BitWord
        requires { number < WORD_BITS }
        ensures here { has result number ≡ true }
        ensures others { (n : ℕ) → n ≢ number → has result n ≡ has self n }
        ensures fits { result < 2 ^ WORD_BITS }
    {
        BitWord {
            bits: self.bits | 1 << number,
        }
    }

    /// Returns the set without a number, or the same set if it lacks that number, which is below
    /// [`WORD_BITS`].
    #[tactic(auto, using(crate::proofs::Masks::without_here, crate::proofs::Masks::without_others))]
    pub fn without(self, number: u16) -> BitWord
        requires { number < WORD_BITS }
        ensures here { has result number ≡ false }
        ensures others { (n : ℕ) → n ≢ number → has result n ≡ has self n }
        ensures fits { result < 2 ^ WORD_BITS }
    {
        BitWord {
            bits: self.bits & !(1 << number),
        }
    }

    /// Returns the set of the numbers that are in both sets.
    #[tactic(auto, using(crate::proofs::Masks::has_both))]
    pub fn both(self, other: BitWord) -> BitWord
        ensures in_both { (n : ℕ) → has result n ≡ (has self n && has other n) }
        ensures fits { result < 2 ^ WORD_BITS }
    {
        BitWord {
            bits: self.bits & other.bits,
        }
    }

    /// Returns the least number of the set, or `None` if it is empty.
    #[tactic(auto, using(crate::proofs::Masks::least_of_none, crate::proofs::Masks::least_of_some, crate::proofs::Masks::lowest_within, crate::proofs::Masks::lowest_has))]
    pub fn lowest(self) -> Option<u16>
        ensures least { result ≡ least (has self) WORD_BITS }
        ensures within { IfSome result (λ n. n < WORD_BITS) }
        ensures is_in { IfSome result (λ n. has self n ≡ true) }
        ensures empty { IfNone result (has_none self ≡ true) }
    {
        let bits = self.bits;
        if bits == 0 {
            return None;
        }
        Some(bits.trailing_zeros() as u16)
    }
}
