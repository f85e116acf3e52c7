//! Sentences that say why an event came out as it did, with the values at hand.
#![tactic(auto)]

mod backwards;
mod cause;
mod group;
mod landed;
mod numbers;
mod reason;
mod refused;
mod sentence;
mod shared;
mod subject;
mod tail;
mod told;
mod words;
mod written;

pub use cause::Cause;
pub use landed::{Landed, Overflow, Stamped, put_landed};
pub use numbers::{Numbers, Waiting};
pub use reason::{Reason, put_reason};
pub use refused::{Refused, put_refused};
pub use sentence::{MOST_REASON_LEN, SENTENCE_LEN, Sentence};
pub use subject::{cpu_of, mask_of, tid_of};
pub use tail::Tail;
pub use told::{TAIL_LEN, put_tail};
pub use written::{Front, write_tail};
