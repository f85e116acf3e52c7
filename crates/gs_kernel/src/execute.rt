//! Commands are executed.

ghost use Rattle.std.specs.Prelude.{◌≡◌, ◌≤◌, IfErr, ℕ, OnErr, OnOk, Option, None, Some, false};
ghost use Rattle.gs_journal.specs.History.{posted, torn};
ghost use Rattle.gs_kernel.specs.declared.command.Command.{Command};
ghost use Rattle.gs_kernel.specs.declared.thread_event.ThreadEvent.{ThreadEvent};
ghost use Rattle.gs_kernel.specs.Legal.{IsServed, is_done, own_refusal, refusal, standing_with};
ghost use Rattle.gs_kernel.specs.Kernel.{IsRefusal, unless_torn};

use crate::command::Command;
use crate::executed::Executed;
use crate::kernel::Kernel;
use crate::thread_event::ThreadEvent;
use gs_layout::{Facts, Refusal};
use gs_ring::Poster;
use gs_status::Mask;
use std::alloc::AllocError;

impl<P: Poster> Kernel<P> {
    /// Executes a command. Or its message does not fit, which tears the enclave down. If it was done, the last entry that
    /// it added is [`Kernel::last`].
    ///
    /// # Errors
    ///
    /// The first refusal that applies ([`Kernel::refusal`]), and then nothing changes. It is `OutOfMemory` only if no
    /// other applies and it is out of memory.
    ///
    /// # Examples
    ///
    /// How many of some commands were done:
    ///
    /// ```
    /// for turn in 0..calls {
    ///     if let Ok(Executed::Done) = kernel.execute(&event(turn)) {
    ///         done = done.wrapping_add(1);
    ///     }
    /// }
    /// ```
    pub fn execute(&mut self, command: &Command) -> Result<Executed, Refusal>
        ensures { IsServed P.same P.consumed P.posted P.tight self.old command.now result self.new }
    {
        match command {
            Command::Create { facts } => self.create(facts),
            Command::Thread { tid, event } => self.happen(*tid, *event),
            Command::Take { cpu } => self.take(*cpu),
            Command::Give { cpu } => self.give(*cpu),
            Command::Tick { cpu } => self.tick(*cpu),
            Command::HandOff { cpu } => self.hand_off(*cpu),
            Command::Leave => self.leave(),
            Command::Begin => self.begin(),
            Command::Activate { cpu } => self.activate(*cpu),
        }
    }

    /// Executes what happens to a thread, whose kind the caller says.
    #[inline(always)]
    fn happen_known(&mut self, tid: u32, event: &ThreadEvent) -> Result<Executed, Refusal>
        ensures { IsServed P.same P.consumed P.posted P.tight self.old (Command.Thread tid event.now) result self.new }
    {
        self.stand()?;
        let own = self.thread_refusal(tid, *event);
        self.admit(own, 1)?;
        Ok(executed(self.tell_happening(tid, *event)))
    }

    /// Executes what happens to a thread.
    fn happen(&mut self, tid: u32, event: ThreadEvent) -> Result<Executed, Refusal>
        ensures { IsServed P.same P.consumed P.posted P.tight self.old (Command.Thread tid event) result self.new }
    {
        match event {
            ThreadEvent::Block => self.block(tid),
            ThreadEvent::Wake => self.wake(tid),
            ThreadEvent::Yield => self.yield_cpu(tid),
            ThreadEvent::Die => self.die(tid),
            ThreadEvent::Affinity { mask } => self.affinity(tid, mask),
        }
    }

    /// Returns why a command is refused, apart from `OutOfMemory`: the first refusal that applies. It does
    /// nothing.
    ///
    /// `Gone` if the enclave was torn down. Then what the command has of its own:
    ///
    /// | Command | Refusals, in order |
    /// |---|---|
    /// | `Create` | `EmptyMask` if the mask has no CPU or one past the last; `TidsSpent` if 65,536 threads were created |
    /// | `Thread` | `NoThread` if no such thread lives; `NotRunning` of a block or a yield if it is on no CPU, `NotBlocked` of a wake if it may run, `EmptyMask` of an affinity, as above; `SeqSpent` if its sequence number is 4,294,967,295 |
    /// | `Take` | `BadCpu` if there is no such CPU; `AgentThere` if the active agent is on it; `CpuTaken` if the other class holds it; `SeqSpent` of the thread there |
    /// | `Give` | `BadCpu`; `NotTaken` if the other class does not hold it |
    /// | `Tick` | `BadCpu` |
    /// | `HandOff` | `NotActive` if no agent is active; `BadCpu`; `AgentThere`; `CpuTaken`; `SeqSpent`, as of a `Take`; `GenSpent` if the generation is 4,294,967,295 |
    /// | `Leave` | `NotActive` if no agent is active and none attaches |
    /// | `Begin` | `StillAttached` if an agent is active or attaches; `GenSpent` |
    /// | `Activate` | `NotAttaching` if no agent attaches, or it was not given the last page; `BadCpu`; `CpuTaken`; `SeqSpent` of the thread there |
    ///
    /// And `HistoryFull` if the journal has no room for an entry, or for two of a `Take`, a `HandOff` or an
    /// `Activate`.
    #[inline(always)]
    pub fn refusal(&self, command: &Command) -> Option<Refusal>
        ensures { result ≡ refusal self.now.settings self.now.history self.now.paged command.now }
    {
        self.check(self.own_refusal(command), command.most_entries())
            .err()
    }

    /// Returns the first refusal that a command has of its own.
    fn own_refusal(&self, command: &Command) -> Option<Refusal>
        ensures { result ≡ own_refusal self.now.settings self.now.history self.now.paged command.now }
    {
        match command {
            Command::Create { facts } => self.create_refusal(facts),
            Command::Thread { tid, event } => self.thread_refusal(*tid, *event),
            Command::Take { cpu } => self.take_refusal(*cpu),
            Command::Give { cpu } => self.give_refusal(*cpu),
            Command::Tick { cpu } => self.tick_refusal(*cpu),
            Command::HandOff { cpu } => self.hand_off_refusal(*cpu),
            Command::Leave => self.leave_refusal(),
            Command::Begin => self.begin_refusal(),
            Command::Activate { cpu } => self.activate_refusal(*cpu),
        }
    }

    /// Returns the refusal of a command that has this one of its own and adds so many entries at most.
    #[inline(always)]
    fn check(&self, own: Option<Refusal>, entries: usize) -> Result<(), Refusal>
        requires { entries ≤ 2 }
        ensures ok { OnOk result (unless_torn self.now.history (standing_with self.now.settings self.now.history own entries) ≡ None) }
        ensures err { IfErr result (λ e. unless_torn self.now.history (standing_with self.now.settings self.now.history own entries) ≡ Some e) }
    {
        self.stand()?;
        if let Some(refusal) = own {
            return Err(refusal);
        }
        if self.is_full(entries) {
            return Err(Refusal::HistoryFull);
        }
        Ok(())
    }

    /// Refuses any command if the enclave was torn down.
    #[inline(always)]
    fn stand(&self) -> Result<(), Refusal>
        ensures ok { OnOk result (torn self.now.history ≡ false) }
        ensures err { IfErr result (λ e. (other : Option Refusal) → unless_torn self.now.history other ≡ Some e) }
        ensures refused { IfErr result (λ e. (own : Option Refusal) (n : ℕ) → IsRefusal (unless_torn self.now.history (standing_with self.now.settings self.now.history own n)) e) }
        ensures told { P.posted self.now.poster (posted self.now.history) }
    {
        // Reads a field to expose the invariant.
        let _settings = &self.settings;
        if self.torn {
            return Err(Refusal::Gone);
        }
        Ok(())
    }

    /// Makes room for the entries of a command that has this refusal of its own, or refuses it. The enclave stands.
    #[inline(always)]
    fn admit(&mut self, own: Option<Refusal>, entries: usize) -> Result<(), Refusal>
        requires { torn self.old.history ≡ false }
        ensures ok { OnOk result (unless_torn self.old.history (standing_with self.old.settings self.old.history own entries) ≡ None) }
        ensures room { OnOk result (entries ≤ self.new.room) }
        ensures same { self.new ≡ record self.old { room = self.new.room } }
        ensures err { IfErr result (IsRefusal (unless_torn self.old.history (standing_with self.old.settings self.old.history own entries))) }
        ensures refused { OnErr result (self.new ≡ self.old) }
        ensures told { P.posted self.new.poster (posted self.new.history) }
    {
        // Reads a field to expose the invariant.
        let _settings = &self.settings;
        match own {
            Some(refusal) => Err(refusal),
            None => self.journal.reserve(entries),
        }
    }

    /// Makes room for `entries` more entries.
    #[inline(always)]
    fn make_room(&mut self, entries: usize) -> Result<(), AllocError>
        ensures room { OnOk result (entries ≤ self.new.room) }
        ensures same { self.new ≡ record self.old { room = self.new.room } }
        ensures refused { OnErr result (self.new ≡ self.old) }
    {
        match self.journal.reserve(entries) {
            Ok(()) => Ok(()),
            Err(_) => Err(AllocError),
        }
    }

    /// Creates a thread: [`Kernel::execute`] of this one command, as each of the calls below.
    ///
    /// # Errors
    ///
    /// As of [`Kernel::execute`].
    pub fn create(&mut self, facts: &Facts) -> Result<Executed, Refusal>
        ensures { IsServed P.same P.consumed P.posted P.tight self.old (Command.Create facts.now) result self.new }
    {
        self.stand()?;
        let own = self.create_refusal(facts);
        self.check(own, 1)?;
        self.threads.reserve()?;
        self.make_room(1)?;
        Ok(executed(self.tell_creation(facts)))
    }

    /// Blocks a thread, on its CPU.
    ///
    /// # Errors
    ///
    /// As of [`Kernel::execute`].
    pub fn block(&mut self, tid: u32) -> Result<Executed, Refusal>
        ensures { IsServed P.same P.consumed P.posted P.tight self.old (Command.Thread tid ThreadEvent.Block) result self.new }
    {
        self.happen_known(tid, &ThreadEvent::Block)
    }

    /// Wakes a thread, which may run again.
    ///
    /// # Errors
    ///
    /// As of [`Kernel::execute`].
    pub fn wake(&mut self, tid: u32) -> Result<Executed, Refusal>
        ensures { IsServed P.same P.consumed P.posted P.tight self.old (Command.Thread tid ThreadEvent.Wake) result self.new }
    {
        self.happen_known(tid, &ThreadEvent::Wake)
    }

    /// Gives up a thread's CPU. The thread may run on.
    ///
    /// # Errors
    ///
    /// As of [`Kernel::execute`].
    pub fn yield_cpu(&mut self, tid: u32) -> Result<Executed, Refusal>
        ensures { IsServed P.same P.consumed P.posted P.tight self.old (Command.Thread tid ThreadEvent.Yield) result self.new }
    {
        self.happen_known(tid, &ThreadEvent::Yield)
    }

    /// Ends a thread.
    ///
    /// # Errors
    ///
    /// As of [`Kernel::execute`].
    pub fn die(&mut self, tid: u32) -> Result<Executed, Refusal>
        ensures { IsServed P.same P.consumed P.posted P.tight self.old (Command.Thread tid ThreadEvent.Die) result self.new }
    {
        self.happen_known(tid, &ThreadEvent::Die)
    }

    /// Sets the mask of a thread: from now on it may run on the CPUs of the mask.
    ///
    /// # Errors
    ///
    /// As of [`Kernel::execute`].
    pub fn affinity(&mut self, tid: u32, mask: Mask) -> Result<Executed, Refusal>
        ensures { IsServed P.same P.consumed P.posted P.tight self.old (Command.Thread tid (ThreadEvent.Affinity mask)) result self.new }
    {
        self.happen_known(tid, &ThreadEvent::Affinity { mask })
    }

    /// Takes a CPU for the other scheduling class.
    ///
    /// # Errors
    ///
    /// As of [`Kernel::execute`].
    pub fn take(&mut self, cpu: u16) -> Result<Executed, Refusal>
        ensures { IsServed P.same P.consumed P.posted P.tight self.old (Command.Take cpu) result self.new }
    {
        self.stand()?;
        let own = self.take_refusal(cpu);
        self.admit(own, 2)?;
        Ok(executed(self.tell_taking(cpu)))
    }

    /// Gives a CPU back that the other scheduling class holds.
    ///
    /// # Errors
    ///
    /// As of [`Kernel::execute`].
    pub fn give(&mut self, cpu: u16) -> Result<Executed, Refusal>
        ensures { IsServed P.same P.consumed P.posted P.tight self.old (Command.Give cpu) result self.new }
    {
        self.stand()?;
        let own = self.give_refusal(cpu);
        self.admit(own, 1)?;
        Ok(executed(self.tell_giving(cpu)))
    }

    /// Ticks the timer of a CPU.
    ///
    /// # Errors
    ///
    /// As of [`Kernel::execute`].
    pub fn tick(&mut self, cpu: u16) -> Result<Executed, Refusal>
        ensures { IsServed P.same P.consumed P.posted P.tight self.old (Command.Tick cpu) result self.new }
    {
        self.stand()?;
        let own = self.tick_refusal(cpu);
        self.admit(own, 1)?;
        Ok(executed(self.tell_tick(cpu)))
    }

    /// Hands the active agent over to a CPU.
    ///
    /// # Errors
    ///
    /// As of [`Kernel::execute`].
    pub fn hand_off(&mut self, cpu: u16) -> Result<Executed, Refusal>
        ensures { IsServed P.same P.consumed P.posted P.tight self.old (Command.HandOff cpu) result self.new }
    {
        self.stand()?;
        let own = self.hand_off_refusal(cpu);
        self.admit(own, 2)?;
        Ok(executed(self.tell_hand_off(cpu)))
    }

    /// Ends the agent, which leaves or crashed.
    ///
    /// # Errors
    ///
    /// As of [`Kernel::execute`].
    pub fn leave(&mut self) -> Result<Executed, Refusal>
        ensures { IsServed P.same P.consumed P.posted P.tight self.old Command.Leave result self.new }
    {
        self.stand()?;
        let own = self.leave_refusal();
        self.admit(own, 1)?;
        Ok(executed(self.tell_leaving()))
    }

    /// Begins a new agent, which attaches then.
    ///
    /// # Errors
    ///
    /// As of [`Kernel::execute`].
    pub fn begin(&mut self) -> Result<Executed, Refusal>
        ensures { IsServed P.same P.consumed P.posted P.tight self.old Command.Begin result self.new }
    {
        self.stand()?;
        let own = self.begin_refusal();
        self.admit(own, 1)?;
        let fits = self.tell_beginning();
        self.paged = self.paged && !fits;
        Ok(executed(fits))
    }

    /// Activates the agent that attaches, on a CPU.
    ///
    /// # Errors
    ///
    /// As of [`Kernel::execute`].
    pub fn activate(&mut self, cpu: u16) -> Result<Executed, Refusal>
        ensures { IsServed P.same P.consumed P.posted P.tight self.old (Command.Activate cpu) result self.new }
    {
        self.stand()?;
        let own = self.activate_refusal(cpu);
        self.admit(own, 2)?;
        Ok(executed(self.tell_activation(cpu)))
    }
}

/// Returns what became of a command whose message fits or does not.
fn executed(fits: bool) -> Executed
    ensures { is_done result ≡ fits }
{
    if fits { Executed::Done } else { Executed::Torn }
}
