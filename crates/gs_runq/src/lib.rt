//! The run queue: the threads that wait for a CPU, in two classes.
#![tactic(auto)]

mod line;
mod queue;
mod walk;

pub use queue::RunQueue;
pub use walk::QueueWalk;
