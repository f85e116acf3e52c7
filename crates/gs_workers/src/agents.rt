//! What the agent's two threads do.

ghost use Rattle.std.specs.Prelude.{◌≡◌, IfOk, map};
ghost use Rattle.gs_workers.specs.Work.{IsAllowed, first_turn, second_turn, turns};

use crate::work::{Work, creations_in};
use gs_policy::FirstCome;
use gs_runner::{Shift, Step};
use std::alloc::{AllocError, Global};

/// The CPU that the agent is handed off to.
const SECOND_CPU: u16 = 1;

/// Returns the first turn: the agent takes in half of the messages at most, and is handed off.
fn first_turn(alloc: Global, work: Work) -> Result<Shift<FirstCome>, AllocError>
    requires { IsAllowed work }
    ensures { IfOk result (λ shift. shift.steps.items ≡ first_turn work) }
{
    let mut steps = Vec::new(alloc);
    steps.push(Step::Drain {
        max: creations_in(work) / 2,
    })?;
    steps.push(Step::HandOff { cpu: SECOND_CPU })?;
    Ok(Shift { steps })
}

/// Returns the second turn: the agent takes in what waits.
fn second_turn(alloc: Global) -> Result<Shift<FirstCome>, AllocError>
    ensures { IfOk result (λ shift. shift.steps.items ≡ second_turn) }
{
    let mut steps = Vec::new(alloc);
    steps.push(Step::Drain { max: u32::MAX })?;
    Ok(Shift { steps })
}

/// Returns the turns of the agent.
pub(crate) fn turns(alloc: Global, work: Work) -> Result<Vec<Shift<FirstCome>>, AllocError>
    requires { IsAllowed work }
    ensures { IfOk result (λ shifts. map (λ s. s.steps.items) shifts.items ≡ turns work) }
{
    let mut shifts = Vec::new(alloc);
    shifts.push(first_turn(alloc, work)?)?;
    shifts.push(second_turn(alloc)?)?;
    Ok(shifts)
}
