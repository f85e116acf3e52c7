use crate::facts::Facts;

/// What an agent knows of a thread: its facts at a sequence number.
#[derive(Clone, Copy, PartialEq, Eq, Debug)]
pub struct Known {
    /// It stands first, beside the mask, since both are read for most messages. So they mostly lie in one cache line.
    pub tseq: u32,
    pub facts: Facts,
}

/// What a message does to an agent's view.
#[derive(Clone, Copy, PartialEq, Eq, Debug)]
pub enum Word {
    /// It was taken in.
    Applied,
    /// It is about a thread without a record, and no creation. It changes nothing.
    Orphan,
    /// Its number is not above the record's. It changes nothing.
    Skipped,
    /// Its number is more than one above the record's. It changes nothing.
    Gap,
}
