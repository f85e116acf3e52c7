//! What a run leaves.

use crate::closed::Closed;
use crate::receipts::Receipts;
use crate::settling::{Settled, Unsettled};
use crate::start::StartFault;

/// What a run of lists and shifts leaves.
#[derive(Drop)]
pub struct Finished {
    /// The journal of all that happened, and the calls that were accepted.
    pub closed: Closed,
    /// The receipts of each thread, in its order. First come those of the lists, one for each command, and then those
    /// of the shifts, one for each step that was a call.
    pub receipts: Vec<Receipts>,
    /// How many threads the agent knew at the end, by its view. There are none if no role was held.
    pub threads: usize,
    /// What settling answered.
    pub end: Result<Settled, Unsettled>,
}

/// Why a run has no end: the first that applies.
#[derive(Clone, Copy, PartialEq, Eq, Debug)]
pub enum RunFault {
    /// The station could not be started.
    Start(StartFault),
    /// There are more than 32 lists and shifts.
    TooMany,
    /// Memory ran out, or a thread could not be started.
    OutOfMemory,
    /// The station could not be closed. No run ends so, as all passes are kept.
    Close,
    /// The receipts of a list are not those of its commands. One is wanting, their places in the journal fall, or one
    /// was accepted and does not stand in the calls.
    Astray,
}
