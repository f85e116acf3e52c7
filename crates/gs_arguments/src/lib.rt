//! The program's command line: which command its arguments give.
#![tactic(auto)]

mod asking;
mod command;
mod options;
mod program;
mod values;

pub use asking::settings;
pub use command::{
    Asked, Command, DEFAULT_LINES, LEAST_COUNT, LEAST_LINES, Listed, MOST_EACH, MOST_LINES,
    MOST_TICKS, MOST_WORKERS,
};
