//! A script that is run line by line, as its lines come.
#![tactic(auto)]

mod heard;
mod hearing;
mod law;
mod session;

pub use heard::Heard;
pub use law::heard_is_run;
pub use session::Session;
