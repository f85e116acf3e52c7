//! A workload, simulated.

ghost use Rattle.std.specs.Prelude.{◌≡◌, [], true, IfOk, OnOk};
ghost use Rattle.gs_simulate.specs.Heard.{IsHeaded, IsHeard, head_of};

use crate::calendar::Calendar;
use crate::fault::SimulateFault;
use crate::line::Line;
use crate::log::Log;
use crate::settings::Settings;
use crate::simulated::Simulated;
use crate::stage::Stage;
use crate::world::World;
use gs_script::NamedPolicy;
use gs_workload::{Group, Workload};
use std::alloc::Global;

impl<P: NamedPolicy> Stage<P> {
    /// Makes a simulation that has not begun, by the draws of a seed. It does not allocate.
    fn new(alloc: Global, seed: u64) -> Stage<P>
        ensures { result.log.text ≡ [] }
    {
        Stage {
            alloc,
            log: Log::new(alloc),
            world: World::new(alloc, seed),
            births: Calendar::new(alloc),
            decided: Vec::new(alloc),
            changes: 0,
        }
    }

    /// Draws when each thread of a group is to be created.
    fn draw_group(&mut self, group: &Group, number: u32) -> Result<(), SimulateFault>
        ensures { OnOk result (head_of self.new.log ≡ head_of self.old.log) }
    {
        for _thread in 0..group.count {
            let at = self.world.chance.draw(group.created);
            self.births.add(u64::from(at), number)?;
        }
        Ok(())
    }

    /// Draws when each thread of each group is to be created.
    fn draw_births(&mut self, workload: &Workload<P>) -> Result<(), SimulateFault>
        ensures { OnOk result (head_of self.new.log ≡ head_of self.old.log) }
    {
        for (group, number) in workload.groups.iter().zip(0..u32::MAX) {
            self.draw_group(group, number)?;
        }
        Ok(())
    }

    /// Lets one tick pass.
    fn tick(&mut self, workload: &Workload<P>) -> Result<(), SimulateFault>
        ensures { OnOk result (head_of self.new.log ≡ head_of self.old.log) }
    {
        let cpus = workload.cpus;
        self.log.add(&Line::Tick {
            now: self.world.now,
        })?;
        self.change_agent(&workload.changes)?;
        self.take_cpus(cpus, &workload.takings)?;
        self.create_due()?;
        self.wake_due()?;
        self.end_bursts(cpus)?;
        self.tick_cpus(cpus)?;
        self.land_due()?;
        self.agent_turn(&workload.agent)
    }

    /// Ends the simulation, whose session heard all of the script.
    fn end(self) -> Simulated<P>
        requires { self.log.whole ≡ true }
        ensures heard { IsHeard P.naming P.chosen result.text result.session }
        ensures same { result.text ≡ self.log.text }
    {
        let Stage { log, .. } = self;
        Simulated::new(log)
    }

    /// Lets so many ticks pass, or fewer if the enclave is torn down.
    fn pass_ticks(&mut self, workload: &Workload<P>, ticks: u32) -> Result<(), SimulateFault>
        ensures { OnOk result (head_of self.new.log ≡ head_of self.old.log) }
    {
        for now in 0..ticks {
            self.world.now = now;
            self.tick(workload)?;
            if self.is_torn() {
                return Ok(());
            }
        }
        Ok(())
    }

    /// Runs the whole simulation, whose script is empty yet.
    fn run(&mut self, workload: &Workload<P>, settings: Settings<P>) -> Result<(), SimulateFault>
        requires { self.old.log.text ≡ [] }
        ensures whole { OnOk result (self.new.log.whole ≡ true) }
        ensures headed { OnOk result (IsHeaded P.naming workload.now.cpus workload.now.ring settings.policy self.new.log.text) }
    {
        self.world.open(&workload.groups, workload.cpus)?;
        self.log.add(&Line::Header {
            cpus: workload.cpus,
            ring: workload.ring,
            policy: settings.policy,
        })?;
        self.log.settle();
        self.draw_births(workload)?;
        self.pass_ticks(workload, settings.ticks)
    }
}

/// Simulates a workload: runs it on a machine in a closed loop, in which what the threads do depends on who ran. Returns the
/// script that was written meanwhile, with the session that heard it.
///
/// Each tick has a comment, `# tick N`, and behind it the lines of what happens then, in this order. The agent changes, and
/// the other class takes CPUs and gives them back. Threads are created, those whose time has come are woken, and those whose
/// burst is over block, yield or die. Timers tick. What was decided before lands. Then the agent drains and decides.
///
/// What would be refused is not written: it waits, or it is left out. So does what would tell of something while the ring
/// has no room for it, and no agent is there to take in what it has. A comment says then how many timers do not tick. If the
/// enclave is torn down all the same, the script ends at that tick.
///
/// # Errors
///
/// `OutOfMemory` if out of memory. `Unreadable` if a line has a fault, as the header with a count of CPUs that there may not
/// be.
pub fn simulate<P: NamedPolicy>(
    alloc: Global,
    workload: &Workload<P>,
    settings: Settings<P>,
) -> Result<Simulated<P>, SimulateFault>
    ensures heard { IfOk result (λ s. IsHeard P.naming P.chosen s.text s.session) }
    ensures headed { IfOk result (λ s. IsHeaded P.naming workload.now.cpus workload.now.ring settings.policy s.text) }
{
    let mut stage = Stage::new(alloc, settings.seed);
    stage.run(workload, settings)?;
    Ok(stage.end())
}
