//! The agent: its role, and what it has in mind.
//!
//! The role follows messages and pages, stamps what it knows of threads into slots, and collects the slots of
//! transactions that landed. In mind it has what it knows of each thread, what it believes of each CPU, and who waits
//! for one. The three are kept together, since who waits follows from the others: messages, pages, stamps and collected
//! slots change all of them at once.
//!
//! Of what a mind does only [`Mind::new`], [`Mind::plan`], [`Mind::rebuild`] and what follows a thread's creation allocate.
#![tactic(auto)]

mod collect;
mod drain;
mod drained;
mod mind;
mod rebuild;
mod role;
mod waiting;

pub use drained::{Drained, Stop};
pub use mind::Mind;
pub use role::Role;
