ghost use Rattle.std.specs.Prelude.{◌≡◌, ◌+◌, ◌^◌, ◌<◌, ◌≤◌, ◌++◌, ◌%◌, decimal, length, take};
ghost use Rattle.std.specs.Str.{IsUtf8};

use crate::forwards::{put_front, put_number};
use std::marker::Model;

/// Room for the digits of a number that are kept, all of which is copied by vectors. A number has fewer.
pub(crate) const KEPT_LEN: usize = 32;

/// A number with its digits, which are kept until it is another number: for one that is written several times.
#[derive(Drop)]
pub struct Digits {
    number: u64,
    /// The digits, and behind them anything.
    bytes: [u8; KEPT_LEN],
    len: usize,
}

impl Model for Digits {
    ghost use Rattle.std.specs.Prelude.{◌≡◌, ◌<◌, ◌≤◌, ◌^◌, ℕ, decimal, take};
    ghost use Rattle.gs_text.specs.declared.digits.TheConstants.{KEPT_LEN};

    ghost Value = { ℕ };

    ghost view = { λ d. d.number };

    ghost invariant = { λ d. record {
      within : d.len ≤ KEPT_LEN;
      fits : d.number < 2 ^ 64;
      written : take d.len d.bytes ≡ decimal d.number;
    } };
}

impl Digits {
    /// Keeps those of a number.
    pub fn new(number: u64) -> Digits
        ensures { result ≡ number }
    {
        let mut bytes = [0; KEPT_LEN];
        let len = put_number(&mut bytes, 0, number);
        Digits { number, bytes, len }
    }

    /// Returns the last digit, as its byte.
    #[inline(always)]
    #[tactic(auto, using(crate::proofs::Grown::last_digit, crate::proofs::Grown::has_digit))]
    fn last_digit(&self) -> u8
        ensures { result ≡ 48 + self.now % 10 }
    {
        self.bytes[self.len - 1]
    }

    /// Is this number from now on. Of one that rises by 1 mostly the last digit alone is written.
    #[inline(always)]
    pub fn set(&mut self, number: u64)
        ensures { self.new ≡ number }
    {
        if number == self.number {
            return;
        }
        let last = self.last_digit();
        if self.number < number && number - self.number == 1 && last < b'9' {
            self.raise(last);
        } else {
            self.len = put_number(&mut self.bytes, 0, number);
            self.number = number;
        }
    }

    /// Is the next number. The last digit is given, and is not 9.
    #[inline(always)]
    #[tactic(auto, using(crate::proofs::Grown::raised, crate::proofs::Grown::has_digit))]
    fn raise(&mut self, last: u8)
        requires fits { self.old + 1 < 2 ^ 64 }
        requires last { last ≡ 48 + self.old % 10 }
        requires digit { last < 57 }
        ensures { self.new ≡ self.old + 1 }
    {
        self.bytes[self.len - 1] = last + 1;
        self.number += 1;
    }

    /// Writes the digits, for which there is room however many they are, and returns the place behind them. All that is kept is
    /// copied: a copy whose length is known takes no call.
    #[inline(always)]
    pub(crate) fn put(&self, bytes: &mut [u8], at: usize) -> usize
        requires { at + KEPT_LEN ≤ length bytes.old }
        ensures end { result ≤ at + KEPT_LEN }
        ensures written { take result bytes.new ≡ take at bytes.old ++ decimal self.now }
        ensures utf8 { IsUtf8 (take at bytes.old) → IsUtf8 (take result bytes.new) }
    {
        put_front::<KEPT_LEN>(bytes, at, &self.bytes);
        at + self.len
    }
}
