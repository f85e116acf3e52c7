//! How long each thread waited for a CPU and how long it had one: the turns of a history, one for each stay.
#![tactic(auto)]

mod law;
mod stance;
mod threads;
mod ticks;
mod time;
mod turn;
mod walk;

pub use law::since_is_longest;
pub use stance::{Known, Stance, stance_by};
pub use threads::subject;
pub use ticks::tick_cpu;
pub use time::Time;
pub use turn::Turn;
pub use walk::{Told, turns};
