//! The commands of `ghost`, in a program whose policies words name.
#![tactic(auto)]

mod asked;
mod failure;
mod helping;
mod policies;
mod policy_help;
mod running;
mod status;
mod telling;

pub use running::run;
pub use telling::Watched;
