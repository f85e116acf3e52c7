//! What an enclave is opened with, and what an event returns, for all who drive a kernel and its agents.
#![tactic(auto)]

mod config;
mod items;
mod reply;

pub use config::{Config, ConfigFault};
pub use items::Items;
pub use reply::Reply;
