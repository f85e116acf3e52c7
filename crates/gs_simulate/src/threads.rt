//! What the threads do.

ghost use Rattle.std.specs.Prelude.{◌≡◌, OnOk};
ghost use Rattle.gs_simulate.specs.Heard.{head_of};

use crate::fault::SimulateFault;
use crate::line::Line;
use crate::stage::Stage;
use gs_kernel::{Command, ThreadEvent};
use gs_layout::{Facts, MOST_TIDS};
use gs_script::NamedPolicy;
use gs_workload::{Group, Leaving};

/// Returns the facts of a thread of a group as it is created: it may run.
fn facts_of(group: &Group) -> Facts {
    Facts {
        mask: group.mask,
        runnable: true,
        class: group.class,
        name: group.name,
    }
}

/// Returns what happens to a thread whose burst ends so.
fn event_of(leaving: Leaving) -> ThreadEvent {
    match leaving {
        Leaving::Block => ThreadEvent::Block,
        Leaving::Yield => ThreadEvent::Yield,
        Leaving::Die => ThreadEvent::Die,
    }
}

impl<P: NamedPolicy> Stage<P> {
    /// Creates a thread of a group.
    fn create(&mut self, group: usize) -> Result<(), SimulateFault>
        ensures { OnOk result (head_of self.new.log ≡ head_of self.old.log) }
    {
        let Some(plan) = self.world.groups.get(group) else {
            return Ok(());
        };
        let facts = facts_of(plan);
        if self.command(Command::Create { facts })? {
            self.world.add(group)?;
        }
        Ok(())
    }

    /// Creates the threads that are due.
    pub(crate) fn create_due(&mut self) -> Result<(), SimulateFault>
        ensures { OnOk result (head_of self.new.log ≡ head_of self.old.log) }
    {
        for _thread in 0..MOST_TIDS {
            let Some(group) = self.births.due(self.world.now) else {
                return Ok(());
            };
            if !self.has_room()? {
                return Ok(());
            }
            self.births.pass();
            self.create(group as usize)?;
        }
        Ok(())
    }

    /// Wakes a thread, if it sleeps and its time has come.
    fn wake(&mut self, tid: u32) -> Result<(), SimulateFault>
        ensures { OnOk result (head_of self.new.log ≡ head_of self.old.log) }
    {
        let now = self.world.now;
        match self.world.thread(tid) {
            Some(thread) if thread.is_due(now) => self.happen(tid, ThreadEvent::Wake),
            _ => Ok(()),
        }
    }

    /// Wakes the threads whose time has come.
    pub(crate) fn wake_due(&mut self) -> Result<(), SimulateFault>
        ensures { OnOk result (head_of self.new.log ≡ head_of self.old.log) }
    {
        for _thread in 0..MOST_TIDS {
            let Some(tid) = self.world.sleepers.due(self.world.now) else {
                return Ok(());
            };
            if !self.has_room()? {
                return Ok(());
            }
            self.world.sleepers.pass();
            self.wake(tid)?;
        }
        Ok(())
    }

    /// Returns the thread on a CPU, and how its burst ends now, if it does.
    fn ending_on(&self, cpu: usize) -> Option<(u32, Leaving)> {
        let tid = self.world.running.get(cpu).copied()??;
        let thread = self.world.thread(tid)?;
        let group = self.world.groups.get(thread.group)?;
        Some((tid, thread.ending(group.leaving)?))
    }

    /// Lets the bursts end of the threads that run and have no tick left.
    pub(crate) fn end_bursts(&mut self, cpus: u16) -> Result<(), SimulateFault>
        ensures { OnOk result (head_of self.new.log ≡ head_of self.old.log) }
    {
        for cpu in 0..cpus {
            if let Some((tid, leaving)) = self.ending_on(usize::from(cpu))
                && self.has_room()?
            {
                self.happen(tid, event_of(leaving))?;
            }
        }
        Ok(())
    }

    /// Lets the timers tick: those of the CPUs on which threads run, and all of them while a thread waits. The burst of
    /// each thread that runs is a tick shorter then. A comment says how many do not tick for want of room in the ring.
    pub(crate) fn tick_cpus(&mut self, cpus: u16) -> Result<(), SimulateFault>
        ensures { OnOk result (head_of self.new.log ≡ head_of self.old.log) }
    {
        let mut missed: u16 = 0;
        for cpu in 0..cpus {
            let running = self.world.running.get(usize::from(cpu)).copied().flatten();
            if running.is_some() || self.world.waiting > 0 {
                missed = missed.saturating_add(u16::from(!self.tick_cpu(cpu)?));
            }
            if let Some(tid) = running {
                self.world.pass_tick(tid);
            }
        }
        self.tell_missed(missed)
    }

    /// Lets the timer of a CPU tick, if there is room in the ring for that. Returns whether it does.
    fn tick_cpu(&mut self, cpu: u16) -> Result<bool, SimulateFault>
        ensures { OnOk result (head_of self.new.log ≡ head_of self.old.log) }
    {
        let has_room = self.has_room()?;
        if has_room {
            self.command(Command::Tick { cpu })?;
        }
        Ok(has_room)
    }

    /// Tells how many timers did not tick, if one did not.
    fn tell_missed(&mut self, cpus: u16) -> Result<(), SimulateFault>
        ensures { OnOk result (head_of self.new.log ≡ head_of self.old.log) }
    {
        if cpus > 0 {
            self.log.add(&Line::Missed { cpus })?;
        }
        Ok(())
    }
}
