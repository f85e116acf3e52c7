//! Workloads: what threads want of a machine, read from TOML.
#![tactic(auto)]

mod entries;
mod fault;
mod fields;
mod key;
mod machine;
mod place;
mod read;
mod rows;
mod unknown;
mod values;
mod workload;

pub use fault::{Kind, Part, Reason, WorkloadFault, Wrong};
pub use key::Key;
pub use read::read_workload;
pub use workload::{
    AgentPlan, Change, Group, Leaving, MOST_THREADS, MOST_TIME, Span, Taking, Workload,
};
