/// A transaction that waits in a slot.
#[derive(Clone, Copy, PartialEq, Eq, Debug)]
pub struct Waiting {
    /// The CPU whose slot it is.
    pub cpu: u16,
    /// The transaction's number, counted from 1.
    pub number: usize,
    /// The script's line that stamped it.
    pub line: usize,
}

/// What a sentence may tell of that stands in no entry of the journal.
#[derive(Clone, Copy, PartialEq, Eq, Debug)]
pub struct Numbers {
    /// How many CPUs there are.
    pub cpus: u16,
    /// How many entries the journal has.
    pub entries: usize,
    /// How many transactions were stamped.
    pub transactions: usize,
    /// The most entries of the journal, and the most transactions.
    pub limit: u32,
    /// The script's line that gave the agent that attaches its last page, if one did.
    pub page: Option<usize>,
    /// What is in the slot that is not idle, if there is one.
    pub waiting: Option<Waiting>,
}
