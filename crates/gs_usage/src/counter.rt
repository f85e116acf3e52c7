//! Counts of many places at once.

ghost use Rattle.std.specs.Prelude.{◌≡◌, ◌<◌, ◌≤◌, ◌+◌, ◌^◌, ℕ, IfOk, length, max, min, nat_lt};
ghost use Rattle.gs_status.specs.Masks.{has};
ghost use Rattle.std.specs.Int.{bit_at};
ghost use Rattle.gs_usage.specs.Counting.{count_of, counted};
ghost use Rattle.gs_status.specs.declared.mask.TheConstants.{MOST_CPUS};

use gs_status::MOST_CPUS;
use std::alloc::{AllocError, Global};
use std::marker::Model;

/// Adds one to the count of each place of a set.
fn carry(words: &mut [u128], carried: u128)
    requires { (i : ℕ) → i < MOST_CPUS → counted words.old i + bit_at carried i < 2 ^ length words.old }
    ensures counts { (i : ℕ) → i < MOST_CPUS → counted words.new i ≡ counted words.old i + bit_at carried i }
    ensures count { length words.new ≡ length words.old }
{
    if carried == 0 {
        return;
    }
    if let Some((word, others)) = words.split_first_mut() {
        let old = *word;
        *word = old ^ carried;
        carry(others, old & carried);
    }
}

/// Takes one from the count of each place of a set.
fn take(words: &mut [u128], set: u128)
    requires { (i : ℕ) → i < MOST_CPUS → bit_at set i ≤ counted words.old i }
    ensures counts { (i : ℕ) → i < MOST_CPUS → counted words.new i + bit_at set i ≡ counted words.old i }
    ensures count { length words.new ≡ length words.old }
{
    if set == 0 {
        return;
    }
    if let Some((word, others)) = words.split_first_mut() {
        let old = *word;
        *word = old ^ set;
        take(others, set & (old ^ set));
    }
}

/// Returns the set of the places that are in another or whose count is not 0. No place is that is not in a third set: the
/// digits are read until all of these are found.
fn marked(words: &[u128], others: u128, all: u128) -> u128
    requires { (i : ℕ) → i < MOST_CPUS → max (bit_at others i) (min 1 (counted words.now i)) ≤ bit_at all i }
    ensures { (i : ℕ) → i < MOST_CPUS → bit_at result i ≡ max (bit_at others i) (min 1 (counted words.now i)) }
{
    if others == all {
        return all;
    }
    match words.split_first() {
        Some((word, rest)) => marked(rest, others | *word, all),
        None => others,
    }
}

/// Makes all counts 0.
fn clear(words: &mut [u128])
    ensures counts { (i : ℕ) → counted words.new i ≡ 0 }
    ensures count { length words.new ≡ length words.old }
{
    if let Some((word, others)) = words.split_first_mut() {
        *word = 0;
        clear(others);
    }
}

/// Makes the words of counts that are all 0 and may go up to a number.
fn words_for(alloc: Global, most: usize) -> Result<Vec<u128>, AllocError>
    ensures counts { IfOk result (λ words. (i : ℕ) → counted words.items i ≡ 0) }
    ensures room { IfOk result (λ words. most < 2 ^ length words.items) }
{
    let mut words = Vec::new(alloc);
    let mut left = most;
    while left > 0 {
        words.push(0)?;
        left /= 2;
    }
    Ok(words)
}

/// Counts of the CPUs of a block. Word k has digit k of each count, but for the CPUs that are owed one: their counts are one less. So a
/// count that goes down and up again by turns changes no digit. Clauses see the words and who is owed.
#[derive(Drop)]
pub(crate) struct Counter {
    words: Vec<u128>,
    owed: u128,
}

impl Model for Counter {
    ghost use Rattle.gs_usage.specs.Counting.{IsOwed, Owing};

    ghost Value = { Owing };

    ghost view = { λ c. record { words = c.words.items; owed = c.owed } };

    ghost invariant = { λ c. IsOwed c.words.items c.owed };
}

impl Counter {
    /// Makes counts that are all 0 and may go up to a number.
    ///
    /// # Errors
    ///
    /// `AllocError` if out of memory.
    pub(crate) fn new(alloc: Global, most: usize) -> Result<Counter, AllocError>
        ensures counts { IfOk result (λ counter. (i : ℕ) → count_of counter i ≡ 0) }
        ensures room { IfOk result (λ counter. most < 2 ^ length counter.words) }
    {
        let words = words_for(alloc, most)?;
        Ok(Counter { words, owed: 0 })
    }

    /// Adds one to the count of each CPU of a set.
    pub(crate) fn add(&mut self, set: u128)
        requires { (i : ℕ) → i < MOST_CPUS → count_of self.old i + bit_at set i < 2 ^ length self.old.words }
        ensures counts { (i : ℕ) → i < MOST_CPUS → count_of self.new i ≡ count_of self.old i + bit_at set i }
        ensures room { length self.new.words ≡ length self.old.words }
    {
        let back = set & self.owed;
        self.owed ^= back;
        carry(self.words.as_mut_slice(), set ^ back);
    }

    /// Takes one from the count of each CPU of a set. No such count is 0.
    pub(crate) fn take(&mut self, set: u128)
        requires { (i : ℕ) → i < MOST_CPUS → bit_at set i ≤ count_of self.old i }
        ensures counts { (i : ℕ) → i < MOST_CPUS → count_of self.new i + bit_at set i ≡ count_of self.old i }
        ensures room { length self.new.words ≡ length self.old.words }
    {
        let again = set & self.owed;
        self.owed |= set;
        take(self.words.as_mut_slice(), again);
    }

    /// Makes all counts 0.
    pub(crate) fn clear(&mut self)
        ensures counts { (i : ℕ) → count_of self.new i ≡ 0 }
        ensures room { length self.new.words ≡ length self.old.words }
    {
        self.owed = 0;
        clear(self.words.as_mut_slice());
    }

    /// Returns the set of the CPUs whose count is not 0, of which each is in this set.
    pub(crate) fn marked(&self, all: u128) -> u128
        requires { (i : ℕ) → i < MOST_CPUS → min 1 (count_of self.now i) ≤ bit_at all i }
        ensures { (i : ℕ) → i < MOST_CPUS → has result i ≡ nat_lt 0 (count_of self.now i) }
    {
        match self.words.split_first() {
            Some((word, rest)) => marked(rest, word ^ (word & self.owed), all),
            None => 0,
        }
    }
}
