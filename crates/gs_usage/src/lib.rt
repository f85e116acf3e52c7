//! What each CPU was used for: the other class, the agent, a thread, or nothing, though a thread waited or not.
#![tactic(auto)]

mod board;
mod counter;
mod facts;
mod law;
mod row;
mod seats;
mod sets;
mod tally;
mod threads;
mod totals;
mod usage;
mod walk;

pub use law::each_time_has_one_use;
pub use usage::{Usage, Use};
pub use walk::usages;
