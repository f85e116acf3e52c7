//! The fault of a script, told to whoever wrote it.
#![tactic(auto)]

mod fault_text;
mod form_text;
mod label;
mod meant;
mod shown_line;
mod wanted_text;

pub use fault_text::explain;
