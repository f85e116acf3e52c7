//! What the journal says of the threads that are simulated.

ghost use Rattle.std.specs.Prelude.{◌≡◌};
ghost use Rattle.gs_simulate.specs.Changes.{changed, left_chance};

use crate::chance::Chance;
use crate::fault::SimulateFault;
use crate::thread::{Stance, Thread};
use crate::world::World;
use gs_journal::{Entry, Journal};
use gs_layout::{Change, Message};
use gs_workload::Group;

/// Returns what a thread of a group becomes by a change that the kernel posted now. One that blocked sleeps as long as is
/// drawn, and one that is woken, or yielded, has a new burst.
fn changed(thread: Thread, change: &Change, group: &Group, now: u32, chance: &mut Chance) -> Thread
    ensures thread { result ≡ changed chance.old now group.now change.now thread }
    ensures chance { chance.new ≡ left_chance change.now chance.old }
{
    match change {
        Change::Blocked { .. } => {
            let until = u64::from(now) + u64::from(chance.draw(group.sleep));
            thread.left_for(Stance::Asleep { until }, 0)
        }
        Change::Wakeup => thread.after_waking(chance.draw(group.run)),
        Change::Yield { .. } => thread.left_for(Stance::Ready, chance.draw(group.run)),
        Change::Dead { .. } => thread.left_for(Stance::Dead, 0),
        Change::Preempted { .. } => thread.after_preemption(),
        Change::Created { .. } | Change::Affinity { .. } => thread,
    }
}

impl World {
    /// Lets a CPU be that of a thread, or of none.
    fn set_cpu(&mut self, cpu: u16, tid: Option<u32>) {
        if let Some(there) = self.running.get_mut(usize::from(cpu)) {
            *there = tid;
        }
    }

    /// Notes that a thread was placed on a CPU.
    fn note_placing(&mut self, tid: u32, cpu: u16) {
        self.set_cpu(cpu, Some(tid));
        if let Some(thread) = self.thread(tid) {
            self.put(tid, thread.after_placing());
        }
    }

    /// Notes a change of a thread.
    fn note_change(&mut self, tid: u32, change: &Change) -> Result<(), SimulateFault> {
        let Some(thread) = self.thread(tid) else {
            return Ok(());
        };
        let Some(group) = self.groups.get(thread.group).copied() else {
            return Ok(());
        };
        let then = changed(thread, change, &group, self.now, &mut self.chance);
        self.put(tid, then);
        if let Stance::Asleep { until } = then.stance {
            self.sleepers.add(until, tid)?;
        }
        Ok(())
    }

    /// Notes a message about a thread: it may take the thread off its CPU.
    fn note_message(
        &mut self,
        tid: u32,
        message: &Message,
        change: &Change,
    ) -> Result<(), SimulateFault> {
        if change.takes_off_cpu()
            && let Some(cpu) = message.cpu()
        {
            self.set_cpu(cpu, None);
        }
        self.note_change(tid, change)
    }

    /// Notes an entry of the journal.
    fn note(&mut self, entry: &Entry) -> Result<(), SimulateFault> {
        match entry {
            Entry::Placed { tid, cpu, .. } => {
                self.note_placing(*tid, *cpu);
                Ok(())
            }
            Entry::Posted { message } => match message {
                Message::Thread { tid, change, .. } => self.note_message(*tid, message, change),
                Message::TimerTick { .. } => Ok(()),
            },
            _ => Ok(()),
        }
    }

    /// Notes the entries of the journal that were not read yet.
    pub(crate) fn follow(&mut self, journal: &Journal) -> Result<(), SimulateFault> {
        for place in self.seen..journal.len() {
            self.note(&journal.entry(place))?;
        }
        self.seen = journal.len();
        Ok(())
    }
}
