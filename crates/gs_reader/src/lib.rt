//! Messages read where they stand in their bytes, without a copy.
#![tactic(auto)]

mod facts;
mod fault;
mod fields;
mod item;
mod law;
mod message_ref;
mod read;
mod records;

pub use fault::ReadFault;
pub use item::Item;
pub use law::segment_law;
pub use message_ref::MessageRef;
pub use read::read_one;
pub use records::Records;
