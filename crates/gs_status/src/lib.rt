//! Masks and status words: a set of CPUs in 128 bits, and what the kernel shows of one thread in 64.
#![tactic(auto)]

mod bit_word;
mod mask;
mod status;

pub use bit_word::{BitWord, WORD_BITS};
pub use mask::{MOST_CPUS, Mask};
pub use status::{NO_CPU_BYTE, StatusWord};
