//! What the words of scripts and replies mean: the rows of docs/REFERENCE.md.
#![tactic(auto)]

mod about;
mod rows;
mod tables;

pub use about::{Row, help_text, nearest_word};
pub use tables::reference_rows;
