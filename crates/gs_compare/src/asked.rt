/// How a table is written.
#[derive(Clone, Copy, PartialEq, Eq, Debug)]
pub enum Form {
    /// A line for each class and measure, with columns for each policy.
    Lines,
    /// An object, one a line, for each class, measure and policy.
    Json,
    /// A record of comma-separated fields for each class, measure and policy, below a header.
    Csv,
}

/// How a workload is to be weighed. What is not said here the workload says.
#[derive(Clone, Copy, PartialEq, Eq, Debug)]
pub struct Asked<'a, P> {
    /// The policies, in the order of the columns. Without any it is that of the workload, or that of a header that names
    /// none.
    pub policies: &'a [P],
    /// How many ticks there are. Without a number the workload says it.
    pub ticks: Option<u32>,
    /// The seeds by which each policy is tried. Without any it is 0.
    pub seeds: &'a [u64],
    pub form: Form,
}
