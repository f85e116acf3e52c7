//! The agent's view: what it knows of each thread, folded from messages where they stand and loaded
//! from pages.
#![tactic(auto)]

mod fault;
mod index;
mod news;
mod records;
mod view;
mod walk;

pub use fault::ApplyFault;
pub use news::{Heard, News};
pub use view::AgentView;
pub use walk::ViewWalk;
