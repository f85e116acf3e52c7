ghost use Rattle.std.specs.Prelude.{◌≡◌, ◌≢◌, ◌^◌, ◌+◌, ◌*◌, ◌/◌, ◌<◌, ◌≤◌, [], ℕ, length, max, IfSome, MatchOption, IsOk, OnOk, OnErr};
ghost use Rattle.gs_sets.specs.Bits.{IsFirst, IsNone, is_in};

use crate::bits::{Bits, WORD};
use std::alloc::{AllocError, Global};
use std::marker::Model;

/// A set of numbers, and beside it the places of those of its words that are not empty. The next number is found by
/// these places, with no look at the empty words between. Clauses see it as its words, [`WORD`] numbers in each.
///
/// A change takes the same time for any number of them. A look-up of the next one reads at most two words of numbers,
/// and between them at most one word of places for each 4,096 numbers.
#[derive(Drop)]
pub struct NumberSet {
    numbers: Bits,
    /// The words of `numbers` that are not empty.
    words: Bits,
}

impl Model for NumberSet {
    ghost use Rattle.std.specs.Prelude.{List, ℕ};

    ghost Value = { List ℕ };

    ghost use Rattle.gs_sets.specs.Bits.{IsSummed};

    ghost view = { λ s. s.numbers };

    ghost invariant = { λ s. IsSummed s.numbers s.words };
}

impl NumberSet {
    /// Makes the set of no number, with room for none. It does not allocate.
    #[tactic(auto, using(crate::proofs::Summed::summed_none))]
    pub fn new(alloc: Global) -> NumberSet
        ensures { result ≡ [] }
    {
        NumberSet {
            numbers: Bits::new(alloc),
            words: Bits::new(alloc),
        }
    }

    /// Makes room for a number: for it and all others up to it, and for the others of its word.
    ///
    /// # Errors
    ///
    /// `AllocError` if out of memory. Nothing changes then.
    #[tactic(auto, using(crate::proofs::BitWords::same_words, crate::proofs::Summed::summed_sums))]
    #[inline(always)]
    pub fn reserve(&mut self, number: usize) -> Result<(), AllocError>
        requires { number < 2 ^ 32 }
        ensures room { OnOk result (number / WORD < length self.new) }
        ensures same { (n : ℕ) → is_in self.new n ≡ is_in self.old n }
        ensures kept { length self.old ≤ length self.new }
        ensures most { length self.new ≤ max (length self.old) (number / WORD + 1) }
        ensures enough { number / WORD < length self.old → IsOk result }
        ensures refused { OnErr result (self.new ≡ self.old) }
    {
        self.words.reserve(number / WORD)?;
        self.numbers.reserve(number)
    }

    /// Returns whether a number is in the set. One for which there is no room is not.
    pub fn has(&self, number: usize) -> bool
        ensures { result ≡ is_in self.now number }
    {
        self.numbers.has(number)
    }

    /// Puts a number in, or takes it out. There has to be room for it.
    #[inline(always)]
    pub fn set(&mut self, number: usize, holds: bool)
        requires { number / WORD < length self.old }
        ensures here { is_in self.new number ≡ holds }
        ensures others { (n : ℕ) → n ≢ number → is_in self.new n ≡ is_in self.old n }
        ensures room { length self.new ≡ length self.old }
    {
        let word = number / WORD;
        self.numbers.set(number, holds);
        let has_some = holds || self.numbers.has_some(word);
        self.words.set(word, has_some);
    }

    /// Returns the first number of the set that is not below `from`. There is room for it.
    #[tactic(auto, using(crate::proofs::Summed::none_beyond, crate::proofs::Summed::first_beyond, crate::proofs::Summed::word_has))]
    #[inline(always)]
    pub fn next_from(&self, from: usize) -> Option<usize>
        ensures first { MatchOption result (IsNone (is_in self.now) from) (IsFirst (is_in self.now) from) }
        ensures within { IfSome result (λ n. (n < WORD * length self.now) × (n < 2 ^ 32)) }
    {
        if let Some(number) = self.numbers.next_in_word(from) {
            return Some(number);
        }
        let word = self.words.next_from(from / WORD + 1)?;
        self.numbers.next_in_word(word * WORD)
    }
}
