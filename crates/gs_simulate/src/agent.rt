//! What the agent does.

ghost use Rattle.std.specs.Prelude.{◌≡◌, OnOk};
ghost use Rattle.gs_simulate.specs.Heard.{head_of};

use crate::fault::SimulateFault;
use crate::stage::{Decided, Stage};
use gs_core::{Event, Reply};
use gs_policy::Choice;
use gs_script::NamedPolicy;
use gs_slots::Flags;
use gs_status::{MOST_CPUS, Mask};
use gs_workload::AgentPlan;
use std::alloc::AllocError;

/// So many bytes of the ring a landing may need, with what is left at the end of the ring: a message that a thread made way,
/// twice.
const LANDING_BYTES: usize = 32;

/// Returns the CPUs of choices.
fn cpus_of(choices: &[Choice]) -> Mask {
    let mut mask = Mask::none();
    for choice in choices {
        if choice.cpu < MOST_CPUS {
            mask = mask.with(choice.cpu);
        }
    }
    mask
}

/// Takes at most so many CPUs out of a mask, the lowest.
fn some_of(mask: &mut Mask, most: usize) -> Mask {
    let mut some = Mask::none();
    for _taken in 0..most {
        let Some(cpu) = mask.lowest() else {
            return some;
        };
        *mask = mask.without(cpu);
        if cpu < MOST_CPUS {
            some = some.with(cpu);
        }
    }
    some
}

impl<P: NamedPolicy> Stage<P> {
    /// Returns how many slots are committed at once: each landing may post a message, and all have to fit into an empty ring.
    fn portion(&self) -> usize {
        match self.machine() {
            Some(machine) => machine.kernel().poster().capacity() / LANDING_BYTES,
            None => 0,
        }
    }

    /// Lets the slots of a mask land, as many at once as the ring has room for.
    fn land(&mut self, mask: Mask) -> Result<(), SimulateFault>
        ensures { OnOk result (head_of self.new.log ≡ head_of self.old.log) }
    {
        let portion = self.portion().clamp(1, usize::from(MOST_CPUS));
        let mut left = mask;
        for _turn in 0..MOST_CPUS {
            let some = some_of(&mut left, portion);
            if some.is_empty() {
                return Ok(());
            }
            self.has_room_for(portion * LANDING_BYTES / 2)?;
            self.tell(Event::Commit { mask: some })?;
        }
        Ok(())
    }

    /// Takes the first off that is due of what was decided. Returns for which CPUs it was decided.
    fn take_due(&mut self) -> Option<Mask>
        ensures { self.new.log ≡ self.old.log }
    {
        let now = u64::from(self.world.now);
        let place = self.decided.iter().position(|decided| decided.at <= now)?;
        Some(self.decided.remove(place).mask)
    }

    /// Lets what was decided land, if it is due.
    pub(crate) fn land_due(&mut self) -> Result<(), SimulateFault>
        ensures { OnOk result (head_of self.new.log ≡ head_of self.old.log) }
    {
        for _turn in 0..self.decided.len() {
            match self.take_due() {
                Some(mask) => self.land(mask)?,
                None => return Ok(()),
            }
        }
        Ok(())
    }

    /// Lets the agent stamp what its policy plans, each by itself. Returns for which CPUs that was.
    fn decide_each(&mut self) -> Result<Mask, SimulateFault>
        ensures { OnOk result (head_of self.new.log ≡ head_of self.old.log) }
    {
        match self.tell(Event::Decide)? {
            Some(Reply::Decided { choices, .. }) => Ok(cpus_of(choices.as_slice())),
            _ => Ok(Mask::none()),
        }
    }

    /// Returns what the agent's policy plans now.
    fn plan(&self) -> Result<Vec<Choice>, SimulateFault> {
        let Some(machine) = self.machine() else {
            return Ok(Vec::new(self.alloc));
        };
        match machine.role() {
            Some(role) => Ok(role.decide(self.alloc, machine.kernel().taken())?),
            None => Ok(Vec::new(self.alloc)),
        }
    }

    /// Lets the agent stamp what its policy plans, as a group. Returns for which CPUs that was.
    fn decide_together(&mut self) -> Result<Mask, SimulateFault>
        ensures { OnOk result (head_of self.new.log ≡ head_of self.old.log) }
    {
        let choices = self.plan()?;
        for choice in &choices {
            self.tell(Event::Stamp {
                cpu: choice.cpu,
                tid: choice.tid,
                flags: Flags {
                    preempt: choice.preempt,
                    group: true,
                },
            })?;
        }
        Ok(cpus_of(&choices))
    }

    /// Lets the agent decide. What it decides lands now or later, as is drawn.
    fn decide(&mut self, plan: &AgentPlan) -> Result<(), SimulateFault>
        ensures { OnOk result (head_of self.new.log ≡ head_of self.old.log) }
    {
        let mask = if plan.together {
            self.decide_together()?
        } else {
            self.decide_each()?
        };
        if mask.is_empty() {
            return Ok(());
        }
        let late = self.world.chance.draw(plan.late);
        if late == 0 {
            return self.land(mask);
        }
        let at = u64::from(self.world.now) + u64::from(late);
        Ok(self.postpone(at, mask)?)
    }

    /// Lets the slots of a mask land at a later tick.
    fn postpone(&mut self, at: u64, mask: Mask) -> Result<(), AllocError>
        ensures { self.new.log ≡ self.old.log }
    {
        self.decided.push(Decided { at, mask })?;
        Ok(())
    }

    /// Lets the agent take in all messages and decide, if one is active and it is its tick.
    pub(crate) fn agent_turn(&mut self, plan: &AgentPlan) -> Result<(), SimulateFault>
        ensures { OnOk result (head_of self.new.log ≡ head_of self.old.log) }
    {
        if self.agent_cpu().is_none() || self.world.now.checked_rem(plan.every) != Some(0) {
            return Ok(());
        }
        self.drain()?;
        self.decide(plan)
    }
}
