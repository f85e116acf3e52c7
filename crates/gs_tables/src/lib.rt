//! Tables of what a script's threads and CPUs did: a line for each stay of a thread on a CPU.
#![tactic(auto)]

mod column;
mod idle;
mod latency;
mod latency_json;
mod notes;
mod rows;
mod run;
mod timehist;

pub use run::{Table, write_table};
