//! A workload in, and the script of its simulation out.
#![tactic(auto)]

mod asked;
mod fault;
mod simulating;

pub use asked::{Asked, policy_of, settings_of};
pub use fault::WorkbenchFault;
pub use simulating::{input_of, simulate_as, simulate_workload, workload_of};
