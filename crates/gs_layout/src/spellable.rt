//! Which messages have a spelling, and the ranges of their fields.

ghost use Rattle.std.specs.Prelude.{◌≡◌, ◌↔◌, IsTrue};
ghost use Rattle.gs_layout.specs.Spelling.{AreNumbers, IsCpuOrNone, IsMask, IsSpellable, IsSpellableChange, are_numbers, is_cpu_or_none, is_tid};

use crate::message::{Change, MOST_TIDS, Message};
use gs_status::{MOST_CPUS, Mask};

/// Returns whether this is a CPU, which is below [`MOST_CPUS`], or none.
pub fn is_cpu_or_none(cpu: Option<u16>) -> bool
    ensures value { result ≡ is_cpu_or_none cpu }
    ensures spelled { IsTrue result ↔ IsCpuOrNone cpu }
{
    match cpu {
        Some(cpu) => cpu < MOST_CPUS,
        None => true,
    }
}

/// Returns whether a mask has a CPU.
fn is_mask(mask: Mask) -> bool
    ensures { IsTrue result ↔ IsMask mask }
{
    mask.bits() != 0
}

/// Returns whether this is a thread's tid: from 1 to [`MOST_TIDS`].
pub fn is_tid(tid: u32) -> bool
    ensures { result ≡ is_tid tid }
{
    1 <= tid && tid <= MOST_TIDS
}

/// Returns whether this is a thread's tid, and this the number of a message about it: at least 1.
pub fn are_numbers(tid: u32, tseq: u32) -> bool
    ensures value { result ≡ are_numbers tid tseq }
    ensures spelled { IsTrue result ↔ AreNumbers tid tseq }
{
    is_tid(tid) && 1 <= tseq
}

impl Change {
    /// Returns whether its CPU and its mask are in their ranges.
    fn is_spellable(&self) -> bool
        ensures { IsTrue result ↔ IsSpellableChange self.now }
    {
        match self {
            Change::Created { facts } => {
                // Reads the name to expose that it is one.
                let _name = facts.name.as_bytes();
                is_mask(facts.mask)
            }
            Change::Blocked { cpu } => *cpu < MOST_CPUS,
            Change::Wakeup => true,
            Change::Preempted { cpu } => *cpu < MOST_CPUS,
            Change::Yield { cpu } => *cpu < MOST_CPUS,
            Change::Dead { cpu } => is_cpu_or_none(*cpu),
            Change::Affinity {
                cpu: None,
                off,
                mask,
            } => is_mask(*mask) && !*off,
            Change::Affinity {
                cpu: Some(cpu),
                off: _,
                mask,
            } => is_mask(*mask) && *cpu < MOST_CPUS,
        }
    }
}

impl Message {
    /// Returns whether it has a spelling, so that it can be posted: all of its fields are in their ranges. A tid is from
    /// 1 to [`MOST_TIDS`], a sequence number at least 1, and a CPU below [`MOST_CPUS`]. A mask has a CPU, and a
    /// thread that was on none was taken off none.
    pub fn is_spellable(&self) -> bool
        ensures { IsTrue result ↔ IsSpellable self.now }
    {
        match self {
            Message::Thread { tid, tseq, change } => {
                are_numbers(*tid, *tseq) && change.is_spellable()
            }
            Message::TimerTick { cpu } => *cpu < MOST_CPUS,
        }
    }
}
