//! What an agent believes of each CPU: who runs there, and since when. What a policy is shown of that says which
//! CPUs the agent may use.
#![tactic(auto)]

mod beliefs;
mod buckets;
mod by_thread;
mod cpu_beliefs;
mod running;

pub use beliefs::Beliefs;
pub use cpu_beliefs::CpuBeliefs;
pub use running::{MOST_TICKS, Running};
