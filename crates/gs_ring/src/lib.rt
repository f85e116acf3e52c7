//! The ring through which the kernel's messages reach the agent. It is a block of bytes of fixed size. What
//! the kernel and the agent see of it, a ring between threads offers too.
#![tactic(auto)]

mod batch;
mod block;
mod ends;
mod fault;
mod memory;
mod peeked;
mod place;
mod ring;
mod segments;
mod waiting;

pub use batch::Batch;
pub use block::{LEAST_CAPACITY, MOST_CAPACITY};
pub use ends::{Beside, MOST_POSTS, Poster, Ring, Taker};
pub use fault::{Full, RingFault};
pub use peeked::Peeked;
pub use ring::ByteRing;
pub use waiting::Waiting;
