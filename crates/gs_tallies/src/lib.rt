//! What turns come to: how often, how long, and how the waits are spread.
#![tactic(auto)]

mod account;
mod chains;
mod each;
mod group;
mod grouping;
mod landings;
mod spread;
mod sums;
mod tally;
mod thread;
mod threads;

pub use account::{Account, class_accounts};
pub use each::{EachThread, Scratch};
pub use spread::Spread;
pub use sums::Sums;
pub use tally::Tally;
pub use thread::{Held, ThreadAccount};
pub use threads::thread_accounts;
