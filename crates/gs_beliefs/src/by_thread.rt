ghost use Rattle.std.specs.Prelude.{◌≡◌, ◌<◌, ◌≤◌, ◌&&◌, nat_lt, ℕ, None, false, true, is_none, length, replicate, slice_set, IfNone, IfOk, IfSome};
ghost use Rattle.std.specs.List.{list_any};
ghost use Rattle.gs_status.specs.Masks.{has};
ghost use Rattle.gs_beliefs.specs.ByThread.{stands};
ghost use Rattle.gs_beliefs.specs.Cpus.{is_just};

use crate::buckets::Buckets;
use gs_status::{MOST_CPUS, Mask};
use std::alloc::{AllocError, Global};
use std::marker::Model;

/// Which thread stands on each CPU, at most one on each.
///
/// The CPUs of a thread are found by the buckets that threads fall into. Each bucket has the mask of the CPUs
/// on which a thread of the bucket stands, and few threads share one. So no call looks at every CPU.
#[derive(Drop)]
pub struct ByThread {
    tids: Vec<Option<u32>>,
    buckets: Buckets,
    vacant: Mask,
}

impl Model for ByThread {
    ghost use Rattle.std.specs.Prelude.{List, Option, ℕ};
    ghost use Rattle.gs_beliefs.specs.ByThread.{IsIndexed};

    ghost Value = { List (Option ℕ) };

    ghost view = { λ s. s.tids.items };

    ghost invariant = { λ s. IsIndexed s.tids.items s.buckets.masks.items s.vacant };
}

/// Returns the CPUs below a number.
#[tactic(auto, using(crate::proofs::Marks::below_more))]
fn all_below(cpus: u16) -> Mask
    requires { cpus ≤ MOST_CPUS }
    ensures { (c : ℕ) → has result c ≡ nat_lt c cpus }
{
    let mut mask = Mask::none();
    for cpu in 0..cpus {
        mask = mask.with(cpu);
    }
    mask
}

impl ByThread {
    /// Makes the table of so many CPUs, at most [`MOST_CPUS`], on which nobody stands.
    ///
    /// # Errors
    ///
    /// `AllocError` if out of memory.
    pub fn new(alloc: Global, cpus: u16) -> Result<ByThread, AllocError>
        requires { cpus ≤ MOST_CPUS }
        ensures { IfOk result (λ made. made ≡ replicate cpus None) }
    {
        Ok(ByThread {
            tids: vec![in alloc; None; cpus as usize]?,
            buckets: Buckets::new(alloc)?,
            vacant: all_below(cpus),
        })
    }

    /// Lets nobody stand on any CPU.
    pub fn clear(&mut self)
        ensures { self.new ≡ replicate (length self.old) None }
    {
        for cpu in 0..self.tids.len() {
            self.set(cpu as u16, None);
        }
    }

    /// Returns the thread on a CPU, `None` for nobody and past the last CPU.
    #[inline(always)]
    pub fn on(&self, cpu: u16) -> Option<u32>
        ensures { result ≡ stands self.now cpu }
    {
        *self.tids.get(cpu as usize)?
    }

    /// Returns the least CPU on which a thread stands, or `None` if it stands on none. Most threads stand nowhere, and
    /// for these it is one look at a bucket.
    #[tactic(auto, using(crate::proofs::Index::not_in_bucket, crate::proofs::Index::in_no_mask))]
    #[inline(always)]
    pub fn first_of(&self, tid: u32) -> Option<u16>
        ensures found { IfSome result (λ c. is_just tid (stands self.now c) ≡ true) }
        ensures none { IfNone result ((c : ℕ) → is_just tid (stands self.now c) ≡ false) }
    {
        let bucket = self.buckets.of(tid);
        if bucket.is_empty() {
            return None;
        }
        self.first_in(bucket, tid)
    }

    /// Returns the least CPU of a mask on which a thread stands. It stands on no other CPU.
    #[tactic(auto, using(crate::proofs::Marks::fewer_left))]
    #[inline(never)]
    fn first_in(&self, mask: Mask, tid: u32) -> Option<u16>
        requires { (c : ℕ) → has mask c ≡ false → is_just tid (stands self.now c) ≡ false }
        ensures found { IfSome result (λ c. is_just tid (stands self.now c) ≡ true) }
        ensures none { IfNone result ((c : ℕ) → is_just tid (stands self.now c) ≡ false) }
    {
        let mut left = mask;
        while let Some(cpu) = left.lowest() {
            if self.on(cpu) == Some(tid) {
                return Some(cpu);
            }
            left = left.without(cpu);
        }
        None
    }

    /// Returns whether a thread stands on some CPU.
    #[tactic(auto, using(crate::proofs::Index::stands_somewhere, crate::proofs::Index::stands_nowhere))]
    #[inline(always)]
    pub fn has(&self, tid: u32) -> bool
        ensures { result ≡ list_any (is_just tid) self.now }
    {
        self.first_of(tid).is_some()
    }

    /// Returns the CPUs on which nobody stands.
    pub fn vacant(&self) -> Mask
        ensures { (c : ℕ) → has result c ≡ (nat_lt c (length self.now) && is_none (stands self.now c)) }
    {
        self.vacant
    }

    /// Puts a thread on a CPU, which there is, in the place of whoever stood there.
    #[inline(always)]
    pub fn seat(&mut self, cpu: u16, tid: u32)
        requires { cpu < length self.old }
        ensures { self.new ≡ slice_set self.old cpu (Some tid) }
    {
        let at = cpu as usize;
        self.buckets.leave(cpu, self.tids[at]);
        self.buckets.enter(cpu, Some(tid));
        self.tids[at] = Some(tid);
        self.vacant = self.vacant.without(cpu);
    }

    /// Takes the thread that stands on a CPU off it: nobody stands there then.
    #[inline(always)]
    pub fn vacate(&mut self, cpu: u16, tid: u32)
        requires { stands self.old cpu ≡ Some tid }
        ensures { self.new ≡ slice_set self.old cpu None }
    {
        self.buckets.leave(cpu, Some(tid));
        self.tids[cpu as usize] = None;
        self.vacant = self.vacant.with(cpu);
    }

    /// Puts a thread on a CPU in the place of whoever stood there, or nobody. Past the last CPU it changes
    /// nothing.
    pub fn set(&mut self, cpu: u16, tid: Option<u32>)
        ensures { self.new ≡ slice_set self.old cpu tid }
    {
        if cpu as usize >= self.tids.len() {
            return;
        }
        if let Some(tid) = tid {
            self.seat(cpu, tid);
        } else if let Some(tid) = self.on(cpu) {
            self.vacate(cpu, tid);
        }
    }
}
