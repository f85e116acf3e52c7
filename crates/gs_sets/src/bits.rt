ghost use Rattle.std.specs.Prelude.{◌≡◌, ◌≢◌, ◌^◌, ◌+◌, ◌*◌, ◌/◌, ◌%◌, ◌<◌, ◌≤◌, ◌++◌, ◌∷◌, [], ℕ, true, not, length, slice_index, IfSome, IfNone, MatchOption, IsOk, OnOk, OnErr, max};
ghost use Rattle.gs_status.specs.Masks.{has_none};
ghost use Rattle.gs_sets.specs.Bits.{IsFirst, IsNone, is_in, left_of_word};

use gs_status::{BitWord, WORD_BITS};
use std::alloc::{AllocError, Global};
use std::marker::Model;

/// How many numbers a word has.
pub const WORD: usize = WORD_BITS as usize;

/// A set of numbers from 0 on, as bits: [`WORD`] of them in a word. Clauses see it as its words.
#[derive(Drop)]
pub(crate) struct Bits {
    words: Vec<BitWord>,
}

impl Model for Bits {
    ghost use Rattle.std.specs.Prelude.{List, ℕ, ◌≤◌, ◌^◌, vec_len};

    ghost Value = { List ℕ };

    ghost view = { λ b. b.words.items };

    ghost invariant = { λ b. vec_len b.words ≤ 2 ^ 32 };
}

impl Bits {
    /// Makes the set of no number, with room for none. It does not allocate.
    pub(crate) fn new(alloc: Global) -> Bits
        ensures { result ≡ [] }
    {
        Bits {
            words: Vec::new(alloc),
        }
    }

    /// Makes room for a number: for it and all others up to it, and for the others of its word. None of those for which
    /// there was no room is in the set.
    ///
    /// # Errors
    ///
    /// `AllocError` if out of memory. Nothing changes then.
    #[tactic(auto, using(crate::proofs::BitWords::words_grown))]
    pub(crate) fn reserve(&mut self, number: usize) -> Result<(), AllocError>
        requires { number / WORD < 2 ^ 32 }
        ensures room { OnOk result (number / WORD < length self.new) }
        ensures words { (w : ℕ) → slice_index self.new w ≡ slice_index self.old w }
        ensures kept { length self.old ≤ length self.new }
        ensures most { length self.new ≤ max (length self.old) (number / WORD + 1) }
        ensures enough { number / WORD < length self.old → IsOk result }
        ensures err { OnErr result (self.new ≡ self.old) }
    {
        let words = number / WORD + 1;
        if self.words.len() < words {
            self.words.resize(words, BitWord::none())?;
        }
        Ok(())
    }

    /// Puts a number in, or takes it out. There has to be room for it.
    #[tactic(auto, using(crate::proofs::BitWords::written_here, crate::proofs::BitWords::written_others))]
    pub(crate) fn set(&mut self, number: usize, holds: bool)
        requires { number / WORD < length self.old }
        ensures here { is_in self.new number ≡ holds }
        ensures others { (n : ℕ) → n ≢ number → is_in self.new n ≡ is_in self.old n }
        ensures words { (w : ℕ) → w ≢ number / WORD → slice_index self.new w ≡ slice_index self.old w }
        ensures room { length self.new ≡ length self.old }
    {
        let bit = (number % WORD) as u16;
        let word = &mut self.words[number / WORD];
        *word = if holds {
            word.with(bit)
        } else {
            word.without(bit)
        };
    }

    /// Returns whether a number is in the set. One for which there is no room is not.
    #[tactic(auto, using(crate::proofs::BitWords::past_end), unfolding(crate::specs::Bits::is_in))]
    pub(crate) fn has(&self, number: usize) -> bool
        ensures { result ≡ is_in self.now number }
    {
        if number / WORD >= self.words.len() {
            return false;
        }
        self.words[number / WORD].has((number % WORD) as u16)
    }

    /// Returns whether a number of this word is in the set.
    pub(crate) fn has_some(&self, word: usize) -> bool
        requires { word < length self.now }
        ensures { result ≡ not (has_none (slice_index self.now word)) }
    {
        !self.words[word].is_empty()
    }

    /// Returns what the word of a number has from the number on, the number's bit first.
    #[tactic(auto, using(crate::proofs::BitWords::left_past), unfolding(crate::specs::Bits::left_of_word))]
    fn left_of_word(&self, number: usize) -> BitWord
        ensures left { result ≡ left_of_word self.now number }
        ensures fits { slice_index self.now (number / WORD) < 2 ^ WORD }
    {
        if number / WORD >= self.words.len() {
            return BitWord::none();
        }
        BitWord::new(self.words[number / WORD].bits() >> (number % WORD))
    }

    /// Returns the first number of the set that is not below `from`, of the word of `from` alone.
    #[tactic(auto, using(crate::proofs::BitWords::first_left))]
    pub(crate) fn next_in_word(&self, from: usize) -> Option<usize>
        ensures first { IfSome result (IsFirst (is_in self.now) from) }
        ensures none { IfNone result (has_none (left_of_word self.now from) ≡ true) }
    {
        let ahead = self.left_of_word(from).lowest()?;
        Some(from + ahead as usize)
    }

    /// Returns the first number of the set that is not below `from`. It looks at each word from there on.
    #[tactic(auto, using(crate::proofs::BitWords::first_later, crate::proofs::BitWords::none_later, crate::proofs::BitWords::none_past))]
    pub(crate) fn next_from(&self, from: usize) -> Option<usize>
        ensures { MatchOption result (IsNone (is_in self.now) from) (IsFirst (is_in self.now) from) }
    {
        let mut at = from;
        while at / WORD < self.words.len() {
            if let Some(number) = self.next_in_word(at) {
                return Some(number);
            }
            at = (at / WORD + 1) * WORD;
        }
        None
    }
}
