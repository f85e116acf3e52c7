//! Totals of many places at once, to which sets are added.

ghost use Rattle.std.specs.Prelude.{◌≡◌, ◌<◌, ◌≤◌, ◌+◌, ◌*◌, ◌^◌, ◌%◌, ℕ, IfOk, length};
ghost use Rattle.std.specs.Int.{bit_at};
ghost use Rattle.gs_usage.specs.Counting.{totalled};
ghost use Rattle.gs_status.specs.declared.mask.TheConstants.{MOST_CPUS};

use gs_status::MOST_CPUS;
use std::alloc::{AllocError, Global};

/// A digit of the total of each place: one for each of two sets that the place is in.
#[derive(Clone, Copy, PartialEq, Eq, Debug)]
pub struct Digit {
    pub word: u128,
    /// Those that are not yet added to `word`. So every second addition alone goes on to the next digit.
    pub kept: u128,
}

/// Returns the places of a set whose count has a one as its lowest digit, if each has this one.
fn digit_of(set: u128, times: usize) -> u128
    ensures { (i : ℕ) → bit_at result i ≡ times % 2 * bit_at set i }
{
    if times % 2 == 1 { set } else { 0 }
}

/// Adds one to the total of each place of a set.
fn add_once(digits: &mut [Digit], set: u128)
    requires { (i : ℕ) → i < MOST_CPUS → totalled digits.old i + bit_at set i < 2 ^ length digits.old }
    ensures totals { (i : ℕ) → i < MOST_CPUS → totalled digits.new i ≡ totalled digits.old i + bit_at set i }
    ensures count { length digits.new ≡ length digits.old }
{
    if set == 0 {
        return;
    }
    if let Some((digit, others)) = digits.split_first_mut() {
        let Digit { word, kept } = *digit;
        if kept == 0 {
            *digit = Digit { word, kept: set };
        } else {
            *digit = Digit {
                word: word ^ kept ^ set,
                kept: 0,
            };
            add_once(others, word & kept | set & (word ^ kept));
        }
    }
}

/// Adds the places of a set, so many times each, and once those that are carried from the digits before.
#[inline(never)]
fn add(digits: &mut [Digit], set: u128, times: usize, carried: u128)
    requires { (i : ℕ) → i < MOST_CPUS → totalled digits.old i + times * bit_at set i + bit_at carried i < 2 ^ length digits.old }
    ensures totals { (i : ℕ) → i < MOST_CPUS → totalled digits.new i ≡ totalled digits.old i + times * bit_at set i + bit_at carried i }
    ensures count { length digits.new ≡ length digits.old }
{
    if times == 0 {
        return add_once(digits, carried);
    }
    if let Some((digit, others)) = digits.split_first_mut() {
        let Digit { word, kept } = *digit;
        let more = digit_of(set, times);
        *digit = Digit {
            word: word ^ more ^ carried,
            kept,
        };
        add(
            others,
            set,
            times / 2,
            word & more | carried & (word ^ more),
        );
    }
}

/// Returns the total of a place.
fn total(digits: &[Digit], place: u16) -> usize
    requires place { place < MOST_CPUS }
    requires fits { totalled digits.now place ≤ usize.MAX }
    ensures { result ≡ totalled digits.now place }
{
    match digits.split_first() {
        Some((digit, rest)) => {
            let here = (digit.word >> place & 1) as usize + (digit.kept >> place & 1) as usize;
            here + 2 * total(rest, place)
        }
        None => 0,
    }
}

/// Makes the digits of totals that are all 0 and may go up to a number.
fn digits_for(alloc: Global, most: usize) -> Result<Vec<Digit>, AllocError>
    ensures totals { IfOk result (λ digits. (i : ℕ) → totalled digits.items i ≡ 0) }
    ensures room { IfOk result (λ digits. most < 2 ^ length digits.items) }
{
    let mut digits = Vec::new(alloc);
    let mut left = most;
    while left > 0 {
        digits.push(Digit { word: 0, kept: 0 })?;
        left /= 2;
    }
    Ok(digits)
}

/// Totals of the CPUs of a block. Digit k of them stands at place k.
#[derive(Drop)]
pub(crate) struct Totals {
    digits: Vec<Digit>,
}

impl Totals {
    /// Makes totals that are all 0 and may go up to a number.
    ///
    /// # Errors
    ///
    /// `AllocError` if out of memory.
    pub(crate) fn new(alloc: Global, most: usize) -> Result<Totals, AllocError>
        ensures totals { IfOk result (λ totals. (i : ℕ) → totalled totals.digits.items i ≡ 0) }
        ensures room { IfOk result (λ totals. most < 2 ^ length totals.digits.items) }
    {
        let digits = digits_for(alloc, most)?;
        Ok(Totals { digits })
    }

    /// Adds one to the total of each CPU of a set.
    #[inline(always)]
    pub(crate) fn add_once(&mut self, set: u128)
        requires { (i : ℕ) → i < MOST_CPUS → totalled self.old.digits.items i + bit_at set i < 2 ^ length self.old.digits.items }
        ensures totals { (i : ℕ) → i < MOST_CPUS → totalled self.new.digits.items i ≡ totalled self.old.digits.items i + bit_at set i }
        ensures room { length self.new.digits.items ≡ length self.old.digits.items }
    {
        add_once(self.digits.as_mut_slice(), set);
    }

    /// Adds so many to the total of each CPU of a set.
    #[inline(always)]
    pub(crate) fn add(&mut self, set: u128, times: usize)
        requires { (i : ℕ) → i < MOST_CPUS → totalled self.old.digits.items i + times * bit_at set i < 2 ^ length self.old.digits.items }
        ensures totals { (i : ℕ) → i < MOST_CPUS → totalled self.new.digits.items i ≡ totalled self.old.digits.items i + times * bit_at set i }
        ensures room { length self.new.digits.items ≡ length self.old.digits.items }
    {
        if times == 1 {
            self.add_once(set);
        } else {
            add(self.digits.as_mut_slice(), set, times, 0);
        }
    }

    /// Returns the total of a CPU.
    pub(crate) fn total(&self, place: u16) -> usize
        requires place { place < MOST_CPUS }
        requires fits { totalled self.now.digits.items place ≤ usize.MAX }
        ensures { result ≡ totalled self.now.digits.items place }
    {
        total(&self.digits, place)
    }
}
