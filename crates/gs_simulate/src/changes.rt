//! How the agent changes, and which CPUs the other class has.

ghost use Rattle.std.specs.Prelude.{◌≡◌, OnOk};
ghost use Rattle.gs_simulate.specs.Heard.{head_of};

use crate::fault::SimulateFault;
use crate::stage::Stage;
use gs_core::{Event, Reply};
use gs_kernel::Command;
use gs_script::NamedPolicy;
use gs_status::{MOST_CPUS, Mask};
use gs_workload::{Change, Taking};

/// An agent that attaches is told of so many threads at once.
const PAGE: u16 = 64;

/// The most pages that tell of all threads that there may be.
const MOST_PAGES: u32 = 1_025;

/// Returns the CPUs that the other class is to have at a tick.
fn taken_at(takings: &[Taking], now: u32) -> Mask {
    let mut mask = Mask::none();
    for taking in takings {
        if taking.from <= now && now < taking.until && taking.cpu < MOST_CPUS {
            mask = mask.with(taking.cpu);
        }
    }
    mask
}

impl<P: NamedPolicy> Stage<P> {
    /// Hands the agent off to a CPU, unless it is there, or none is active. Returns whether that is done: it has to wait
    /// while the other class holds the CPU.
    fn hand_off(&mut self, cpu: u16) -> Result<bool, SimulateFault>
        ensures { OnOk result (head_of self.new.log ≡ head_of self.old.log) }
    {
        let Some(there) = self.agent_cpu() else {
            return Ok(true);
        };
        if there == cpu {
            return Ok(true);
        }
        if self.taken().has(cpu) || !self.has_room()? {
            return Ok(false);
        }
        self.command(Command::HandOff { cpu })
    }

    /// Lets the agent crash, if there is one. What it decided does not land any more.
    fn crash(&mut self) -> Result<(), SimulateFault>
        ensures { OnOk result (head_of self.new.log ≡ head_of self.old.log) }
    {
        if self.has_agent() {
            self.tell(Event::Crash)?;
            self.decided.clear();
        }
        Ok(())
    }

    /// Tells the agent that attaches of all threads that live.
    fn tell_pages(&mut self) -> Result<(), SimulateFault>
        ensures { OnOk result (head_of self.new.log ≡ head_of self.old.log) }
    {
        for _page in 0..MOST_PAGES {
            match self.tell(Event::Page { max: PAGE })? {
                Some(Reply::Page { next: Some(_), .. }) => {}
                _ => return Ok(()),
            }
        }
        Ok(())
    }

    /// Lets a new agent take over, on a CPU. Returns whether that is done: it has to wait while the other class holds the
    /// CPU.
    fn replace(&mut self, cpu: u16) -> Result<bool, SimulateFault>
        ensures { OnOk result (head_of self.new.log ≡ head_of self.old.log) }
    {
        if self.taken().has(cpu) {
            return Ok(false);
        }
        self.crash()?;
        self.command(Command::Begin)?;
        self.tell_pages()?;
        self.has_room()?;
        self.command(Command::Activate { cpu })?;
        Ok(true)
    }

    /// Lets one change of the agent happen. Returns whether it is done.
    fn change(&mut self, change: Change) -> Result<bool, SimulateFault>
        ensures { OnOk result (head_of self.new.log ≡ head_of self.old.log) }
    {
        match change {
            Change::HandOff { cpu, .. } => self.hand_off(cpu),
            Change::Crash { .. } => {
                self.crash()?;
                Ok(true)
            }
            Change::Replace { cpu, .. } => self.replace(cpu),
        }
    }

    /// Lets the changes of the agent happen that are due, in order.
    pub(crate) fn change_agent(&mut self, changes: &[Change]) -> Result<(), SimulateFault>
        ensures { OnOk result (head_of self.new.log ≡ head_of self.old.log) }
    {
        for place in self.changes..changes.len() {
            let change = changes[place];
            if change.at() > self.world.now || !self.change(change)? {
                return Ok(());
            }
            self.changes = place + 1;
        }
        Ok(())
    }

    /// Lets the other class take a CPU or give it back, if it is to have it or not.
    fn set_taken(&mut self, cpu: u16, is_to_be: bool) -> Result<(), SimulateFault>
        ensures { OnOk result (head_of self.new.log ≡ head_of self.old.log) }
    {
        let is_taken = self.taken().has(cpu);
        if is_to_be && !is_taken && self.agent_cpu() != Some(cpu) {
            if self.has_room()? {
                self.command(Command::Take { cpu })?;
            }
        } else if !is_to_be && is_taken {
            self.command(Command::Give { cpu })?;
        }
        Ok(())
    }

    /// Lets the other class take CPUs and give them back.
    pub(crate) fn take_cpus(&mut self, cpus: u16, takings: &[Taking]) -> Result<(), SimulateFault>
        ensures { OnOk result (head_of self.new.log ≡ head_of self.old.log) }
    {
        let mask = taken_at(takings, self.world.now);
        for cpu in 0..cpus {
            self.set_taken(cpu, mask.has(cpu))?;
        }
        Ok(())
    }
}
