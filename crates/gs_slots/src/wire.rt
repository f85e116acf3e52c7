//! Where the parts of a slot stand in its bytes, and how many it has. The writer, the reader and the definitions
//! take them from here.

/// How many bytes a slot has.
pub const SLOT_LEN: usize = 32;
/// Where it stands what is in a slot: 0 if it is idle, [`STAMPED`] or [`DONE`].
pub const STATE_AT: usize = 0;
/// The first byte of a slot that is stamped.
pub const STAMPED: u8 = 1;
/// The first byte of a slot that is done.
pub const DONE: u8 = 2;
/// Where the flags stand.
pub const FLAGS_AT: usize = 1;
/// Where the CPU stands whose slot it is.
pub const CPU_AT: usize = 2;
/// Where the generation of the agent stands that stamped it.
pub const GENERATION_AT: usize = 4;
/// Where the thread stands.
pub const TID_AT: usize = 8;
/// Where the thread's sequence number stands.
pub const TSEQ_AT: usize = 12;
/// Where what became of the transaction begins, with its outcome.
pub const OUTCOME_AT: usize = 16;
/// Where the CPU stands that the thread was on after the landing.
pub const PLACE_AT: usize = 18;
/// Where the thread's sequence number before the landing stands.
pub const SEEN_AT: usize = 20;
/// Where what became of the transaction ends. From here on a slot has zeros.
pub const END_AT: usize = 24;
/// How many bytes are tested for zeros at a time.
pub const WORD_LEN: usize = 8;
