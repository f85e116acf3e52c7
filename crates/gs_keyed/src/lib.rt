//! Policies that go through the waiting threads in the order of a key.
#![tactic(auto)]

mod key;
mod keyed;
mod law;
mod order;
mod ticks;
mod walk;

pub use key::{Key, WaitingThread};
pub use keyed::Keyed;
pub use law::goes_by_keys;
pub use order::{Rank, in_order};
pub use ticks::class_ticks;
pub use walk::{count_by_key, plan_by_key};
