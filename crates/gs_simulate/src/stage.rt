//! A simulation as it goes on.

ghost use Rattle.std.specs.Prelude.{◌≡◌, OnOk};
ghost use Rattle.gs_simulate.specs.Heard.{head_of};

use crate::calendar::Calendar;
use crate::fault::SimulateFault;
use crate::line::Line;
use crate::log::Log;
use crate::world::World;
use gs_core::{Event, Machine, Reply};
use gs_kernel::{Command, ThreadEvent};
use gs_layout::{HEADER_LEN, MOST_MESSAGE_LEN};
use gs_ring::MOST_CAPACITY;
use gs_script::NamedPolicy;
use gs_session::Heard;
use gs_status::Mask;
use std::alloc::Global;

/// The most messages that a ring may have.
const MOST_MESSAGES: u32 = (MOST_CAPACITY / HEADER_LEN) as u32;

/// What was decided, and lands later.
#[derive(Clone, Copy, PartialEq, Eq, Debug)]
pub(crate) struct Decided {
    /// The tick at which it lands.
    pub(crate) at: u64,
    /// The CPUs for which it was decided.
    pub(crate) mask: Mask,
}

/// A simulation as it goes on.
#[derive(Drop)]
pub(crate) struct Stage<P: NamedPolicy> {
    pub(crate) alloc: Global,
    pub(crate) log: Log<P>,
    pub(crate) world: World,
    /// The groups whose threads are to be created, a time for each thread.
    pub(crate) births: Calendar,
    /// What was decided and did not land yet.
    pub(crate) decided: Vec<Decided>,
    /// How many changes of the agent there were.
    pub(crate) changes: usize,
}

impl<P: NamedPolicy> Stage<P> {
    /// Lends the machine. There is one once the header was added.
    pub(crate) fn machine(&self) -> Option<&Machine<P>> {
        self.log.machine()
    }

    /// Lets an event happen: its line is added to the script. Returns the reply, unless it was refused.
    ///
    /// # Errors
    ///
    /// If out of memory, or if the line has a fault.
    pub(crate) fn tell(&mut self, event: Event<P>) -> Result<Option<Reply>, SimulateFault>
        ensures { OnOk result (head_of self.new.log ≡ head_of self.old.log) }
    {
        let heard = self.log.add(&Line::Event { event })?;
        if let Some(machine) = self.log.machine() {
            self.world.follow(machine.kernel().journal())?;
        }
        match heard {
            Heard::Stepped(Reply::Refused(_)) => Ok(None),
            Heard::Stepped(reply) => Ok(Some(reply)),
            _ => Ok(None),
        }
    }

    /// Tells the kernel something. Returns whether it did it.
    pub(crate) fn command(&mut self, command: Command) -> Result<bool, SimulateFault>
        ensures { OnOk result (head_of self.new.log ≡ head_of self.old.log) }
    {
        Ok(self.tell(Event::Kernel { command })?.is_some())
    }

    /// Lets something happen to a thread.
    pub(crate) fn happen(&mut self, tid: u32, event: ThreadEvent) -> Result<(), SimulateFault>
        ensures { OnOk result (head_of self.new.log ≡ head_of self.old.log) }
    {
        self.command(Command::Thread { tid, event })?;
        Ok(())
    }

    /// Returns whether so many bytes of messages fit into the ring, in one piece.
    fn fits(&self, len: usize) -> bool {
        let Some(machine) = self.machine() else {
            return false;
        };
        let ring = machine.kernel().poster();
        match u16::try_from(len) {
            Ok(len) => ring.need(usize::from(len)) <= ring.free(),
            Err(_) => false,
        }
    }

    /// Lets the agent take in all messages.
    pub(crate) fn drain(&mut self) -> Result<(), SimulateFault>
        ensures { OnOk result (head_of self.new.log ≡ head_of self.old.log) }
    {
        self.tell(Event::Drain { max: MOST_MESSAGES })?;
        Ok(())
    }

    /// Returns whether an agent is active or attaches.
    pub(crate) fn has_agent(&self) -> bool {
        match self.machine() {
            Some(machine) => machine.kernel().has_agent(),
            None => false,
        }
    }

    /// Returns the CPU of the active agent.
    pub(crate) fn agent_cpu(&self) -> Option<u16> {
        let (_, cpu) = self.machine()?.kernel().active()?;
        Some(cpu)
    }

    /// Returns the CPUs that the other class holds.
    pub(crate) fn taken(&self) -> Mask {
        match self.machine() {
            Some(machine) => machine.kernel().taken(),
            None => Mask::none(),
        }
    }

    /// Returns whether the enclave was torn down.
    pub(crate) fn is_torn(&self) -> bool {
        match self.machine() {
            Some(machine) => machine.kernel().is_torn(),
            None => false,
        }
    }

    /// Returns whether there is room in the ring for so many bytes of messages. If there is not, the agent takes in what is
    /// there before. Without an agent nobody does, and what would be told has to wait.
    pub(crate) fn has_room_for(&mut self, len: usize) -> Result<bool, SimulateFault>
        ensures { OnOk result (head_of self.new.log ≡ head_of self.old.log) }
    {
        if self.fits(len) {
            return Ok(true);
        }
        if !self.has_agent() {
            return Ok(false);
        }
        self.drain()?;
        Ok(self.fits(len))
    }

    /// Returns whether there is room in the ring for any message.
    pub(crate) fn has_room(&mut self) -> Result<bool, SimulateFault>
        ensures { OnOk result (head_of self.new.log ≡ head_of self.old.log) }
    {
        self.has_room_for(MOST_MESSAGE_LEN)
    }
}
