/// How a workload is simulated.
#[derive(Clone, Copy, PartialEq, Eq, Debug)]
pub struct Settings<P> {
    /// The policy of the first agent, and of all that come after it.
    pub policy: P,
    /// How many ticks there are.
    pub ticks: u32,
    /// What all numbers are drawn by. Of one seed the same ones are drawn.
    pub seed: u64,
}
