//! What a kernel shows to all agents at once: which of them is active, and which CPUs the other class holds. One
//! seat publishes that, and any number of seats read it. None takes a lock, and none waits for another.
#![tactic(auto)]

mod board;
mod opened;
mod place;
mod rule;
mod seats;
mod words;

pub use board::Board;
pub use opened::Opened;
pub use place::Place;
pub use rule::Words;
pub use seats::{BoardSeat, WriterSeat};
pub use words::{NOBODY, Shown};
