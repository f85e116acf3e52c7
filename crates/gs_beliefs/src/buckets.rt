ghost use Rattle.std.specs.Prelude.{◌≡◌, ◌≢◌, ◌<◌, ◌&&◌, ◌||◌, ◌%◌, not, ℕ, length, replicate, slice_index, IfOk};
ghost use Rattle.gs_status.specs.Masks.{has};
ghost use Rattle.gs_beliefs.specs.ByThread.{is_in_bucket};

use gs_status::{MOST_CPUS, Mask};
use std::alloc::{AllocError, Global};

/// How many buckets there are. A thread belongs to the one that its tid's remainder by this names.
pub const BUCKETS: u32 = 256;

/// A mask for each bucket: the CPUs on which the threads of the bucket stand.
#[derive(Drop)]
pub struct Buckets {
    masks: Vec<Mask>,
}

/// Returns the bucket that a thread belongs to.
fn bucket_of(tid: u32) -> usize
    ensures bucket { result ≡ tid % BUCKETS }
    ensures below { result < BUCKETS }
{
    (tid % BUCKETS) as usize
}

impl Buckets {
    /// Makes buckets without a CPU.
    ///
    /// # Errors
    ///
    /// `AllocError` if out of memory.
    pub fn new(alloc: Global) -> Result<Buckets, AllocError>
        ensures { IfOk result (λ buckets. buckets.masks.items ≡ replicate BUCKETS 0) }
    {
        Ok(Buckets {
            masks: vec![in alloc; Mask::none(); BUCKETS as usize]?,
        })
    }

    /// Returns the CPUs in the bucket of a thread.
    pub fn of(&self, tid: u32) -> Mask
        requires { length self.now.masks.items ≡ BUCKETS }
        ensures { result ≡ slice_index self.now.masks.items (tid % BUCKETS) }
    {
        self.masks[bucket_of(tid)]
    }

    /// Puts a CPU into the bucket of a thread, if there is one.
    pub fn enter(&mut self, cpu: u16, tid: Option<u32>)
        requires cpu { cpu < MOST_CPUS }
        requires count { length self.old.masks.items ≡ BUCKETS }
        ensures count { length self.new.masks.items ≡ BUCKETS }
        ensures here { (bucket : ℕ) → has (slice_index self.new.masks.items bucket) cpu ≡ (has (slice_index self.old.masks.items bucket) cpu || is_in_bucket bucket tid) }
        ensures others { (bucket c : ℕ) → c ≢ cpu → has (slice_index self.new.masks.items bucket) c ≡ has (slice_index self.old.masks.items bucket) c }
    {
        if let Some(tid) = tid {
            let mask = &mut self.masks[bucket_of(tid)];
            *mask = mask.with(cpu);
        }
    }

    /// Takes a CPU out of the bucket of a thread, if there is one.
    pub fn leave(&mut self, cpu: u16, tid: Option<u32>)
        requires cpu { cpu < MOST_CPUS }
        requires count { length self.old.masks.items ≡ BUCKETS }
        ensures count { length self.new.masks.items ≡ BUCKETS }
        ensures here { (bucket : ℕ) → has (slice_index self.new.masks.items bucket) cpu ≡ (has (slice_index self.old.masks.items bucket) cpu && not (is_in_bucket bucket tid)) }
        ensures others { (bucket c : ℕ) → c ≢ cpu → has (slice_index self.new.masks.items bucket) c ≡ has (slice_index self.old.masks.items bucket) c }
    {
        if let Some(tid) = tid {
            let mask = &mut self.masks[bucket_of(tid)];
            *mask = mask.without(cpu);
        }
    }
}
