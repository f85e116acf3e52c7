//! The steps of an agent that take no lock: drains, decisions and stamps.

ghost use Rattle.std.specs.Prelude.{◌≡◌, OnErr, length};
ghost use Rattle.gs_link.specs.Between.{SameTaker};
ghost use Rattle.gs_runner.specs.Shifts.{Drains};

use crate::site::Site;
use crate::step::Step;
use gs_agent::{Drained, Role};
use gs_board::{Board, BoardSeat};
use gs_layout::Refusal;
use gs_link::RtrbTaker;
use gs_policy::{Choice, Policy};
use gs_slots::{Flags, Region};
use gs_status::Mask;
use std::alloc::Global;

/// Takes messages in, if there is a role.
fn drain<P>(role: &mut Option<Role<P>>, taker: &mut RtrbTaker, max: u32) -> Option<Drained>
    ensures ring { SameTaker taker.old taker.new }
    ensures drains { Drains role.old taker.old result role.new taker.new }
{
    match role {
        Some(role) => Some(role.drain(taker, max)),
        None => None,
    }
}

/// Stamps what the role knows of a thread into the slot of a CPU, if there is such a CPU. Returns the number
/// that it stamped.
fn stamp<P>(
    role: &mut Role<P>,
    region: &mut Region,
    cpu: u16,
    tid: u32,
    flags: Flags,
) -> Result<u32, Refusal>
    ensures role { OnErr result (role.new ≡ role.old) }
    ensures others { role.new ≡ record role.old { mind = role.new.mind } }
    ensures slots { length region.new ≡ length region.old }
{
    if cpu >= region.cpus() {
        return Err(Refusal::BadCpu);
    }
    role.stamp(region.slot(cpu), tid, flags)
}

/// Stamps choices, one after another, each by itself. One that is refused is passed over.
fn stamp_all<P>(role: &mut Role<P>, region: &mut Region, choices: &[Choice])
    ensures others { role.new ≡ record role.old { mind = role.new.mind } }
    ensures slots { length region.new ≡ length region.old }
{
    for choice in choices {
        let flags = Flags::single(choice.preempt);
        let _ = stamp(role, region, choice.cpu, choice.tid, flags);
    }
}

/// Stamps what the policy plans if the other class holds the CPUs of `taken`. A role that attaches plans nothing.
fn decide<P: Policy>(alloc: Global, role: &mut Role<P>, region: &mut Region, taken: Mask)
    ensures others { role.new ≡ record role.old { mind = role.new.mind } }
    ensures slots { length region.new ≡ length region.old }
{
    if role.next_page().is_some() {
        return;
    }
    if let Ok(choices) = role.decide(alloc, taken) {
        stamp_all(role, region, choices.as_slice());
    }
}

/// Decides, if there is a role.
fn decide_held<P: Policy>(
    alloc: Global,
    role: &mut Option<Role<P>>,
    region: &mut Region,
    taken: Mask,
)
    ensures slots { length region.new ≡ length region.old }
{
    if let Some(role) = role {
        decide(alloc, role, region, taken);
    }
}

/// Stamps a thread, if there is a role.
fn stamp_held<P>(role: &mut Option<Role<P>>, region: &mut Region, cpu: u16, tid: u32, flags: Flags)
    ensures slots { length region.new ≡ length region.old }
{
    if let Some(role) = role {
        let _ = stamp(role, region, cpu, tid, flags);
    }
}

/// Takes a step that needs no lock. It waits for nobody.
pub(crate) fn step_alone<L: Site, P: Policy>(
    alloc: Global,
    board: &Board<L>,
    seat: &mut BoardSeat<L>,
    role: &mut Option<Role<P>>,
    taker: &mut RtrbTaker,
    region: &mut Region,
    step: &Step<P>,
)
    ensures ring { SameTaker taker.old taker.new }
    ensures slots { length region.new ≡ length region.old }
{
    match step {
        Step::Drain { max } => {
            let _ = drain(role, taker, *max);
        }
        Step::Decide => {
            let shown = board.read(seat);
            decide_held(alloc, role, region, shown.taken);
        }
        Step::Stamp { cpu, tid, flags } => stamp_held(role, region, *cpu, *tid, *flags),
        _ => {}
    }
}
