/// What is told how far a comparison is.
pub trait Progress {
    /// Tells that so many simulations are done, of so many.
    fn tell(&self, done: usize, all: usize);
}

/// How many simulations are done, and how many there are.
#[derive(Clone, Copy, PartialEq, Eq, Debug)]
pub(crate) struct Count {
    pub(crate) done: usize,
    pub(crate) all: usize,
}

impl Count {
    /// Returns how many are done with so many policies, of so many, and so many seeds for each.
    pub(crate) fn of(done: usize, policies: usize, seeds: usize) -> Count {
        Count {
            done: done.saturating_mul(seeds),
            all: policies.saturating_mul(seeds),
        }
    }
}
