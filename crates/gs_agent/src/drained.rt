/// Why a drain stopped before its count.
#[derive(Clone, Copy, PartialEq, Eq, Debug)]
pub enum Stop {
    /// The next message's number is more than one above the record's.
    Gap,
    /// The next message begins a record, and memory for that ran out.
    Memory,
}

/// What a drain followed.
#[derive(Clone, Copy, PartialEq, Eq, Debug)]
pub struct Drained {
    /// How many messages it consumed.
    pub count: usize,
    /// How many of these were skipped, as their numbers were not above the records'.
    pub skipped: usize,
    /// How many of these were about threads without a record, and no creations.
    pub orphans: usize,
    /// Why it stopped early, if it did.
    pub stop: Option<Stop>,
}

impl Drained {
    /// It followed no message yet.
    pub const NOTHING: Drained = Drained {
        count: 0,
        skipped: 0,
        orphans: 0,
        stop: None,
    };
}
