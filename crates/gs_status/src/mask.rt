ghost use Rattle.std.specs.Prelude.{◌≡◌, ◌≢◌, ◌<◌, ◌≤◌, ◌&&◌, ◌||◌, ℕ, true, false, IfSome, IfNone};
ghost use Rattle.gs_status.specs.Masks.{has, has_past, has_none, least};

use crate::bit_word::{BitWord, WORD_BITS};
use std::marker::Model;

/// The most CPUs that there may be. They are numbered from 0, and a set of them is a number of 128 bits,
/// one bit for each.
pub const MOST_CPUS: u16 = 128;

/// A set of CPUs: CPU c is in it if bit c is set. Clauses see it as its bits.
///
/// It is kept in two words, so that it is aligned to 8 bytes.
#[derive(Clone, Copy, PartialEq, Eq, Debug)]
pub struct Mask {
    /// The CPUs below [`WORD_BITS`].
    low: BitWord,
    /// Those from there on, each less [`WORD_BITS`].
    high: BitWord,
}

impl Model for Mask {
    ghost use Rattle.std.specs.Prelude.{ℕ, ◌+◌, ◌*◌, ◌/◌, ◌%◌, ◌^◌, ◌<◌};
    ghost use Rattle.gs_status.specs.declared.bit_word.TheConstants.{WORD_BITS};
    ghost use Rattle.std.proofs.lemmas.Nat.{div-mul-add, mod-mul-add};

    ghost Value = { ℕ };

    ghost view = { λ m. m.high * 2 ^ WORD_BITS + m.low };

    ghost invariant = { λ m. m.low < 2 ^ WORD_BITS };

    ghost inverse = { λ n. record { low = n % 2 ^ WORD_BITS; high = n / 2 ^ WORD_BITS } };

    ghost inverse_ok = { λ m fits i. record { low = mod-mul-add m.high (2 ^ WORD_BITS) m.low fits i; high = div-mul-add m.high (2 ^ WORD_BITS) m.low fits i } };
}

impl Mask {
    /// Returns the set of these bits.
    #[tactic(auto, using(crate::proofs::Halves::halves_of))]
    pub const fn new(bits: u128) -> Mask
        ensures { result ≡ bits }
    {
        Mask {
            low: BitWord::new((bits & u64::MAX as u128) as u64),
            high: BitWord::new((bits >> WORD_BITS) as u64),
        }
    }

    /// Returns the set of no CPU.
    #[tactic(auto, using(crate::proofs::Masks::nobody))]
    pub const fn none() -> Mask
        ensures bits { result ≡ 0 }
        ensures empty { (c : ℕ) → has result c ≡ false }
    {
        Mask {
            low: BitWord::none(),
            high: BitWord::none(),
        }
    }

    /// Returns the bits of the set: bit c is set if CPU c is in it.
    pub const fn bits(self) -> u128
        ensures { result ≡ self }
    {
        (self.high.bits() as u128) << WORD_BITS | self.low.bits() as u128
    }

    /// Returns whether no CPU is in the set.
    #[tactic(auto, using(crate::proofs::Halves::empty_halves))]
    pub fn is_empty(self) -> bool
        ensures { result ≡ has_none self }
    {
        self.low.is_empty() && self.high.is_empty()
    }

    /// Returns whether a CPU is in the set. No CPU from [`MOST_CPUS`] on is in any.
    pub fn has(self, cpu: u16) -> bool
        ensures { result ≡ has self cpu }
    {
        if cpu < WORD_BITS {
            self.low.has(cpu)
        } else {
            self.high.has(cpu - WORD_BITS)
        }
    }

    /// Returns whether a CPU that is not below the count is in the set.
    #[tactic(auto, using(crate::proofs::Masks::shifted_out, crate::proofs::Masks::past_all))]
    pub fn has_past(self, cpus: u16) -> bool
        ensures { result ≡ has_past self cpus }
    {
        let bits = self.bits();
        cpus < MOST_CPUS && bits >> cpus != 0
    }

    /// Returns the set with one CPU more, or the same set if it has that CPU. The CPU is below [`MOST_CPUS`].
    pub fn with(self, cpu: u16) -> Mask
        requires { cpu < MOST_CPUS }
        ensures here { has result cpu ≡ true }
        ensures others { (c : ℕ) → c ≢ cpu → has result c ≡ has self c }
    {
        if cpu < WORD_BITS {
            Mask {
                low: self.low.with(cpu),
                high: self.high,
            }
        } else {
            Mask {
                low: self.low,
                high: self.high.with(cpu - WORD_BITS),
            }
        }
    }

    /// Returns the set with one CPU more if a test holds, and else the same set. The CPU is below
    /// [`MOST_CPUS`].
    pub fn with_if(self, cpu: u16, test: bool) -> Mask
        requires { cpu < MOST_CPUS }
        ensures here { has result cpu ≡ (has self cpu || test) }
        ensures others { (c : ℕ) → c ≢ cpu → has result c ≡ has self c }
    {
        if test { self.with(cpu) } else { self }
    }

    /// Returns the set without a CPU, or the same set if it lacks that CPU. The CPU is below [`MOST_CPUS`].
    pub fn without(self, cpu: u16) -> Mask
        requires { cpu < MOST_CPUS }
        ensures here { has result cpu ≡ false }
        ensures others { (c : ℕ) → c ≢ cpu → has result c ≡ has self c }
    {
        if cpu < WORD_BITS {
            Mask {
                low: self.low.without(cpu),
                high: self.high,
            }
        } else {
            Mask {
                low: self.low,
                high: self.high.without(cpu - WORD_BITS),
            }
        }
    }

    /// Returns the set of the CPUs that are in both sets.
    pub fn both(self, other: Mask) -> Mask
        ensures { (c : ℕ) → has result c ≡ (has self c && has other c) }
    {
        Mask {
            low: self.low.both(other.low),
            high: self.high.both(other.high),
        }
    }

    /// Returns the least CPU of the set, or `None` if no CPU is in it.
    #[tactic(auto, using(crate::proofs::Halves::empty_halves))]
    pub fn lowest(self) -> Option<u16>
        ensures least { result ≡ least (has self) MOST_CPUS }
        ensures within { IfSome result (λ c. c < MOST_CPUS) }
        ensures is_in { IfSome result (λ c. has self c ≡ true) }
        ensures empty { IfNone result (has_none self ≡ true) }
    {
        if let Some(cpu) = self.low.lowest() {
            return Some(cpu);
        }
        let cpu = self.high.lowest()?;
        Some(cpu + WORD_BITS)
    }
}
