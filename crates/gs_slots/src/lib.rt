//! The commit region: one slot for each CPU, lent out one by one or in two parts.
//!
//! An agent stamps a transaction into the slot of the CPU on which a thread is to run. The kernel leaves in
//! it what became of the transaction. Slots that are lent together are disjoint, and what is written to them
//! is written to the region, in order.
//!
//! No call but [`Region::new`] allocates.
#![tactic(auto)]

mod bytes;
mod fill;
mod flags;
mod region;
mod slot;
mod slots;
mod state;
mod wire;

pub use fill::{Fill, FillFault, fill_halves};
pub use flags::Flags;
pub use region::Region;
pub use slot::SlotMut;
pub use slots::Slots;
pub use state::{Malformed, SlotBusy, SlotState, Stamp};
