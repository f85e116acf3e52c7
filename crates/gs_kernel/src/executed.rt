/// What became of a command that was not refused. If it was done, the journal's last entry is the last one that it added.
#[derive(Clone, Copy, PartialEq, Eq, Debug)]
pub enum Executed {
    /// Its message did not fit, and the enclave was torn down.
    Torn,
    /// It was done.
    Done,
}
