//! Which of some words was probably meant.
#![tactic(auto)]

mod near;

pub use near::nearest;
