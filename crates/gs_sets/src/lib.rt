//! Sets of numbers, a bit for each.
#![tactic(auto)]

mod bits;
mod number_set;

pub use bits::WORD;
pub use number_set::NumberSet;
