//! Workers in threads of their own, each of which creates threads, beside an agent that is handed off: what is run, and
//! what is written of it.
#![tactic(auto)]

mod agents;
mod fault;
mod run;
mod text;
mod work;

pub use fault::WorkFault;
pub use run::run_workers;
pub use text::Shown;
pub use work::{MOST_EACH, MOST_WORKERS, Work};
