//! The journal of an enclave: all that ever happened, the oldest first, and what follows from it.
//!
//! The queries here walk the journal. They say what is so, and are not meant to be fast.
#![tactic(auto)]

mod entry;
mod journal;
mod last;
mod law;
mod narrow;
mod query;
mod room;
mod wide;

pub use entry::Entry;
pub use journal::Journal;
pub use last::LastEntry;
pub use law::{at_is_least, record_is_fold};
pub use query::thread_then;
