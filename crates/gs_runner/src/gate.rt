/// Who is told of each call of each worker, while the lock is not held. Lists are numbered from 0, and then the
/// shifts. The calls of each are numbered from 0: a list's are its commands, and a shift's are its steps.
pub trait Gate {
    /// The worker is about to make this call. It makes it once this returns.
    fn before(&self, worker: usize, call: usize);

    /// The worker has its answer.
    fn after(&self, worker: usize, call: usize);
}
