//! Scheduling policies: which waiting threads an agent sends to which CPUs.
#![tactic(auto)]

mod any;
mod candidates;
mod choice;
mod class_one;
mod counted;
mod first_come;
mod law;
mod policy;
mod two_class;
mod walk;

pub use any::AnyPolicy;
pub use candidates::Candidates;
pub use choice::Choice;
pub use class_one::class_one_cpus;
pub use counted::Counted;
pub use first_come::FirstCome;
pub use law::{leaves_none, plans_in_order};
pub use policy::Policy;
pub use two_class::TwoClass;
pub use walk::{count_among, plan_among, plan_among_into};
