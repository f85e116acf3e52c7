//! The report of a run: what became of its events, and the last lines of its output, as one line of JSON.
#![tactic(auto)]

mod counts;
mod last_lines;
mod report;

pub use counts::landings_of;
pub use report::Report;
