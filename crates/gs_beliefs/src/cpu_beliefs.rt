ghost use Rattle.std.specs.Prelude.{◌≡◌, ◌≤◌, ◌&&◌, not, nat_lt, ℕ, is_some, length};
ghost use Rattle.gs_status.specs.Masks.{has};
ghost use Rattle.gs_beliefs.specs.Cpus.{believed_on, is_free, is_just, is_usable, stamp_on};

use crate::beliefs::Beliefs;
use crate::running::Running;
use gs_status::{MOST_CPUS, Mask};

/// What a policy is shown of CPUs: what an agent believes of them, and which of them the other class holds.
///
/// It borrows the beliefs and changes nothing of them. No call allocates or looks at every CPU, and one that
/// asks for many CPUs returns a mask.
#[derive(Clone, Copy)]
pub struct CpuBeliefs<'a> {
    /// Who is believed to run on each CPU, which CPUs have a stamp that was not collected, and the agent's own.
    pub beliefs: &'a Beliefs,
    /// The CPUs that the other class holds. None of them is usable.
    pub taken: Mask,
}

/// Returns the CPUs that are not in a set.
#[tactic(auto, using(crate::proofs::Marks::has_others))]
fn others(mask: Mask) -> Mask
    ensures { (c : ℕ) → has result c ≡ (nat_lt c MOST_CPUS && not (has mask c)) }
{
    Mask::new(!mask.bits())
}

/// Returns a set without a CPU, if there is one to leave out.
#[tactic(auto, using(crate::proofs::Marks::without_past))]
fn without_any(mask: Mask, cpu: Option<u16>) -> Mask
    ensures { (c : ℕ) → has result c ≡ (has mask c && not (is_just c cpu)) }
{
    match cpu {
        None => mask,
        Some(cpu) if cpu < MOST_CPUS => mask.without(cpu),
        // No CPU from there on is in any mask.
        Some(_) => mask,
    }
}

impl CpuBeliefs<'_> {
    /// Returns how many CPUs there are, at most [`MOST_CPUS`].
    pub fn cpus(&self) -> u16
        ensures count { result ≡ length self.now.beliefs.now.believed }
        ensures most { result ≤ MOST_CPUS }
    {
        self.beliefs.cpus()
    }

    /// Returns the agent's own CPU, `None` while it attaches.
    pub fn agent(&self) -> Option<u16>
        ensures { result ≡ self.now.beliefs.now.agent }
    {
        self.beliefs.agent()
    }

    /// Returns who is believed to run on a CPU, `None` for nobody and past the last CPU.
    pub fn believed(&self, cpu: u16) -> Option<Running>
        ensures { result ≡ believed_on self.now.beliefs.now cpu }
    {
        self.beliefs.believed(cpu)
    }

    /// Returns the thread that an uncollected stamp on a CPU names, `None` if there is no such stamp and past
    /// the last CPU.
    pub fn stamp_on(&self, cpu: u16) -> Option<u32>
        ensures { result ≡ stamp_on self.now.beliefs.now cpu }
    {
        self.beliefs.stamp_on(cpu)
    }

    /// Returns whether the agent may use a CPU. It may if there is such a CPU, it is neither the agent's own
    /// nor taken, and it has no uncollected stamp.
    pub fn is_usable(&self, cpu: u16) -> bool
        ensures { result ≡ is_usable self.now.beliefs.now (has self.now.taken) cpu }
    {
        cpu < self.cpus()
            && self.agent() != Some(cpu)
            && !self.taken.has(cpu)
            && self.stamp_on(cpu).is_none()
    }

    /// Returns whether a CPU is usable and nobody is believed to run there.
    pub fn is_free(&self, cpu: u16) -> bool
        ensures { result ≡ is_free self.now.beliefs.now (has self.now.taken) cpu }
    {
        self.is_usable(cpu) && self.believed(cpu).is_none()
    }

    /// Returns the CPUs that the agent may use.
    pub fn usable(&self) -> Mask
        ensures { (c : ℕ) → has result c ≡ is_usable self.now.beliefs.now (has self.now.taken) c }
    {
        // There are at most MOST_CPUS, so that a mask has them all.
        let _most = self.cpus();
        let open = self.beliefs.unstamped().both(others(self.taken));
        without_any(open, self.agent())
    }

    /// Returns the CPUs that the agent may use and on which nobody is believed to run.
    pub fn free(&self) -> Mask
        ensures { (c : ℕ) → has result c ≡ is_free self.now.beliefs.now (has self.now.taken) c }
    {
        self.usable().both(self.beliefs.vacant())
    }

    /// Returns the CPUs that the agent may use and on which somebody is believed to run.
    pub fn busy(&self) -> Mask
        ensures { (c : ℕ) → has result c ≡ (is_usable self.now.beliefs.now (has self.now.taken) c && is_some (believed_on self.now.beliefs.now c)) }
    {
        let _most = self.cpus();
        self.usable().both(others(self.beliefs.vacant()))
    }
}
