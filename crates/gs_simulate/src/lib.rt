//! A workload that is run in a closed loop: it writes an ordinary script.
#![tactic(auto)]

mod agent;
mod calendar;
mod chance;
mod changes;
mod fault;
mod law;
mod line;
mod log;
mod noting;
mod settings;
mod simulated;
mod simulating;
mod stage;
mod thread;
mod threads;
mod world;

pub use fault::SimulateFault;
pub use law::simulated_is_run;
pub use settings::Settings;
pub use simulated::Simulated;
pub use simulating::simulate;
