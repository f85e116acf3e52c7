//! Several slots are stamped together, in two threads.

ghost use Rattle.std.specs.Prelude.{◌≡◌, ◌+◌, length, drop};
ghost use Rattle.gs_slots.specs.Filling.{AreWithin, busy_slot, count_below, fault_of, filled, filled_slot, first_busy};

use crate::flags::Flags;
use crate::region::Region;
use crate::slot::SlotMut;
use crate::slots::Slots;
use crate::wire::SLOT_LEN;
use std::thread::{Threads, join_mut};
use thiserror::Error;

/// A transaction for the slot of a CPU.
#[derive(Clone, Copy, PartialEq, Eq, Debug)]
pub struct Fill {
    /// The CPU into whose slot it is stamped.
    pub cpu: u16,
    /// The generation of the agent that stamps it.
    pub generation: u32,
    /// The thread that is to run.
    pub tid: u32,
    /// The thread's sequence number as the agent knows it.
    pub tseq: u32,
    /// What it asks for besides.
    pub flags: Flags,
}

/// Why not all slots were stamped.
#[derive(Clone, Copy, PartialEq, Eq, Debug, Error)]
pub enum FillFault {
    /// The slot of this CPU was not idle.
    #[error("the slot of CPU {0} is not idle")]
    SlotBusy(u16),
}

/// Stamps transactions into slots of a region, in two threads if these can be had. The first thread stamps
/// those for the CPUs below `at`, and the second those from there on. The call leaves what stamping them in
/// order leaves. It stamps each slot that is named and idle, also if another was not idle, and changes no
/// other slot. The transactions come in increasing order of CPU, at most one for each, and their CPUs are the
/// region's.
///
/// # Errors
///
/// `SlotBusy` exactly if a slot that is named was not idle: the least CPU of these.
pub fn fill_halves(
    rt: &impl Threads,
    region: &mut Region,
    at: u16,
    fills: &[Fill],
) -> Result<(), FillFault>
    requires cpus { AreWithin 0 (length region.old) fills.now }
    ensures slots { region.new ≡ filled 0 fills.now region.old }
    ensures answer { result ≡ fault_of (first_busy 0 fills.now region.old) }
{
    let at = at.min(region.cpus());
    let above = from_cpu(at, fills);
    let (below, _) = fills.split_at(fills.len() - above.len());
    let Slots { rest, first } = region.lend();
    let (low, high) = Slots::split(rest, first, at);
    let (busy, later) = fill_both(rt, first, low, below, at, high, above);
    answer_of(busy.or(later))
}

/// Returns the fault for a slot that was not idle, or `Ok` if there is none.
fn answer_of(busy: Option<u16>) -> Result<(), FillFault>
    ensures { result ≡ fault_of busy }
{
    match busy {
        Some(cpu) => Err(FillFault::SlotBusy(cpu)),
        None => Ok(()),
    }
}

/// Stamps transactions into two parts of slots, each in a thread of its own if it can be had. Returns of each
/// part the first CPU whose slot was not idle.
fn fill_both(
    rt: &impl Threads,
    first: u16,
    low: &mut [[u8; SLOT_LEN]],
    below: &[Fill],
    at: u16,
    high: &mut [[u8; SLOT_LEN]],
    above: &[Fill],
) -> (Option<u16>, Option<u16>)
    requires below { AreWithin first (first + length low.old) below.now }
    requires above { AreWithin at (at + length high.old) above.now }
    ensures low { low.new ≡ filled first below.now low.old }
    ensures high { high.new ≡ filled at above.now high.old }
    ensures busy { result.0 ≡ first_busy first below.now low.old }
    ensures later { result.1 ≡ first_busy at above.now high.old }
{
    join_mut(
        rt,
        &mut || fill_part(first, low, below),
        &mut || fill_part(at, high, above),
    )
}

/// Returns the transactions from the first one on that is for no CPU below one.
fn from_cpu(cpu: u16, fills: &[Fill]) -> &[Fill]
    ensures { result.now ≡ drop (count_below cpu fills.now) fills.now }
{
    match fills.split_first() {
        Some((head, later)) if head.cpu < cpu => from_cpu(cpu, later),
        _ => fills,
    }
}

/// Stamps transactions into slots, the first of which is that of a CPU. Returns the first CPU whose slot was
/// not idle.
#[tactic(auto, using(crate::proofs::Filled::rest_within, crate::proofs::Filled::rest_busy))]
fn fill_part(first: u16, slots: &mut [[u8; SLOT_LEN]], fills: &[Fill]) -> Option<u16>
    requires { AreWithin first (first + length slots.old) fills.now }
    ensures slots { slots.new ≡ filled first fills.now slots.old }
    ensures busy { result ≡ first_busy first fills.now slots.old }
{
    let (head, later) = fills.split_first()?;
    let busy = fill_one(head, &mut slots[(head.cpu - first) as usize]);
    let behind = fill_part(first, slots, later);
    busy.or(behind)
}

/// Stamps a transaction into its slot. Returns its CPU if the slot was not idle.
#[tactic(auto, using(crate::proofs::Filled::one_filled))]
fn fill_one(fill: &Fill, bytes: &mut [u8; SLOT_LEN]) -> Option<u16>
    ensures slot { bytes.new ≡ filled_slot fill.now bytes.old }
    ensures busy { result ≡ busy_slot fill.now bytes.old }
{
    let stamped = SlotMut::over(fill.cpu, bytes).stamp(
        fill.generation,
        fill.tid,
        fill.tseq,
        fill.flags,
    );
    stamped.is_err().then_some(fill.cpu)
}
