//! The ring between two threads: an end that a kernel posts to, and one that an agent takes from. Each message
//! goes through it as its bytes, in a parcel of its own.
#![tactic(auto)]

mod beside;
mod poster;
mod ring;
mod taker;

pub use poster::RtrbPoster;
pub use ring::make_ring;
pub use taker::RtrbTaker;
