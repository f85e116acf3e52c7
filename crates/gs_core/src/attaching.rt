//! How an agent goes, and how the next one attaches.

ghost use Rattle.std.specs.Prelude.{◌≡◌, ◌≤◌, Ok, IfOk, IfErr, OnOk, OnErr, None, Some, false, true};
ghost use Rattle.gs_layout.specs.declared.refusal.Refusal.{Refusal};
ghost use Rattle.gs_agent.specs.Mind.{nothing};
ghost use Rattle.gs_journal.specs.declared.entry.Entry.{Entry};
ghost use Rattle.gs_journal.specs.History.{torn};
ghost use Rattle.gs_kernel.specs.declared.command.Command.{Command};
ghost use Rattle.gs_kernel.specs.Kernel.{IsRefusal, last_entry};
ghost use Rattle.gs_kernel.specs.declared.executed.Executed.{Executed};
ghost use Rattle.gs_replies.specs.Replies.{replied, reply_of};
ghost use Rattle.gs_core.specs.declared.event.Event.{Event};
ghost use Rattle.gs_replies.specs.declared.reply.Reply.{Reply};
ghost use Rattle.gs_core.specs.Machine.{Attaches, Carries, Step, crashed, kernel_refusal, next_dump, planned_by, planning, standing_refusal, stays_with};
ghost use Rattle.gs_core.specs.Follows.{leads_nobody};
ghost use Rattle.gs_core.specs.Policies.{policy_after};

use crate::follow::follow;
use crate::machine::Machine;
use gs_agent::Role;
use gs_dump::WrittenPage;
use gs_kernel::{Command, Executed};
use gs_layout::Refusal;
use gs_policy::Counted;
use gs_replies::{Items, Reply};
use gs_status::MOST_CPUS;
use std::alloc::{AllocError, Global};

/// Makes the role of an agent that attaches, of the memory of the one that went, if there is one.
///
/// # Errors
///
/// `AllocError` if out of memory.
fn attach<P: Counted + Copy>(
    alloc: Global,
    gone: Option<Role<P>>,
    policy: P,
    cpus: u16,
    generation: u32,
) -> Result<Role<P>, AllocError>
    requires { cpus ≤ MOST_CPUS }
    ensures { IfOk result (λ role. role ≡ record { mind = nothing cpus None; generation = generation; policy = policy; next = Some 1 }) }
{
    match gone {
        Some(gone) => gone.succeed(alloc, policy, cpus, generation),
        None => Role::attach(alloc, policy, cpus, generation),
    }
}

impl<P: Counted + Copy> Machine<P> {
    /// Tells the kernel a command, and lets agent and slots follow it.
    #[inline(always)]
    pub(crate) fn execute_command(&mut self, command: &Command) -> Result<Executed, Refusal>
        requires { torn self.old.history ≡ false }
        ensures step { Step (planning P.chosen self.old) (Event.Kernel command.now) (reply_of result (last_entry self.new.history)) (planning P.chosen self.new) }
        ensures policy { self.new.policy ≡ self.old.policy }
    {
        match command {
            Command::Create { .. }
            | Command::Thread { .. }
            | Command::Take { .. }
            | Command::Give { .. }
            | Command::Tick { .. } => self.tell_event(command),
            _ => self.change_agent(command),
        }
    }

    /// Tells the kernel a command by which no agent goes, begins or becomes active. Its role follows nothing.
    #[inline(always)]
    fn tell_event(&mut self, command: &Command) -> Result<Executed, Refusal>
        requires stands { torn self.old.history ≡ false }
        requires stays { leads_nobody command.now ≡ true }
        ensures step { Step (planning P.chosen self.old) (Event.Kernel command.now) (reply_of result (last_entry self.new.history)) (planning P.chosen self.new) }
        ensures policy { self.new.policy ≡ self.old.policy }
    {
        let done = self.kernel.execute(command)?;
        Ok(done)
    }

    /// Tells the kernel a command by which an agent goes, begins or becomes active. Such commands are seldom.
    #[inline(never)]
    fn change_agent(&mut self, command: &Command) -> Result<Executed, Refusal>
        requires { torn self.old.history ≡ false }
        ensures step { Step (planning P.chosen self.old) (Event.Kernel command.now) (reply_of result (last_entry self.new.history)) (planning P.chosen self.new) }
        ensures policy { self.new.policy ≡ self.old.policy }
    {
        match command {
            Command::Leave => self.leave(),
            Command::Begin => self.begin(self.policy),
            _ => self.tell(command),
        }
    }

    /// Tells the kernel a command by which no agent goes and none begins. The role follows.
    fn tell(&mut self, command: &Command) -> Result<Executed, Refusal>
        requires stands { torn self.old.history ≡ false }
        requires stays { stays_with command.now ≡ true }
        ensures step { Step (planning P.chosen self.old) (Event.Kernel command.now) (reply_of result (last_entry self.new.history)) (planning P.chosen self.new) }
        ensures policy { self.new.policy ≡ self.old.policy }
    {
        let executed = self.kernel.execute(command)?;
        follow(&mut self.role, self.kernel.last());
        Ok(executed)
    }

    /// Lets the agent crash.
    pub(crate) fn crash(&mut self) -> Result<Reply, Refusal>
        requires { torn self.old.history ≡ false }
        ensures step { Step (planning P.chosen self.old) Event.Crash (replied result) (planning P.chosen self.new) }
        ensures policy { self.new.policy ≡ self.old.policy }
    {
        self.drop_agent()?;
        Ok(Reply::Crashed)
    }

    /// Lets the agent leave, if no slot is stamped.
    fn leave(&mut self) -> Result<Executed, Refusal>
        requires { torn self.old.history ≡ false }
        ensures step { Step (planning P.chosen self.old) (Event.Kernel Command.Leave) (reply_of result (last_entry self.new.history)) (planning P.chosen self.new) }
        ensures policy { self.new.policy ≡ self.old.policy }
    {
        if !self.kernel.has_agent() {
            return Err(Refusal::NotActive);
        }
        if self.region.has_stamped() {
            return Err(Refusal::SlotOpen);
        }
        self.drop_agent()?;
        Ok(Executed::Done)
    }

    /// Tells the kernel that the agent is gone, and keeps its role for the next one.
    fn drop_agent(&mut self) -> Result<(), Refusal>
        requires { torn self.old.history ≡ false }
        ensures entry { OnOk result (last_entry self.new.history ≡ Entry.Left) }
        ensures fits { IfOk result (λ _. kernel_refusal (planning P.chosen self.old) Command.Leave ≡ None) }
        ensures gone { OnOk result (planning P.chosen self.new ≡ crashed (planning P.chosen self.old)) }
        ensures refused { IfErr result (IsRefusal (kernel_refusal (planning P.chosen self.old) Command.Leave)) }
        ensures unchanged { OnErr result (self.new ≡ self.old) }
        ensures policy { self.new.policy ≡ self.old.policy }
    {
        self.kernel.execute(&Command::Leave)?;
        self.gone = self.role.take();
        Ok(())
    }

    /// Lets a new agent begin to attach, which plans by this policy.
    pub(crate) fn begin(&mut self, policy: P) -> Result<Executed, Refusal>
        requires { torn self.old.history ≡ false }
        ensures fits { IfOk result (λ _. kernel_refusal (planning P.chosen self.old) Command.Begin ≡ None) }
        ensures begun { IfOk result (λ executed. Carries (planned_by (P.chosen policy) (planning P.chosen self.old)) Command.Begin (reply_of (Ok executed) (last_entry self.new.history)) (planning P.chosen self.new)) }
        ensures done { IfOk result (λ executed. executed ≡ Executed.Done) }
        ensures policy { OnOk result (self.new.policy ≡ policy) }
        ensures refused { IfErr result (IsRefusal (kernel_refusal (planning P.chosen self.old) Command.Begin)) }
        ensures unchanged { OnErr result (self.new ≡ self.old) }
    {
        if let Some(refusal) = self.kernel.refusal(&Command::Begin) {
            return Err(refusal);
        }
        let cpus = self.kernel.settings().cpus;
        let generation = self.kernel.generation().saturating_add(1);
        let gone = self.gone.take();
        let role = attach(self.alloc, gone, policy, cpus, generation)?;
        let executed = self.kernel.execute(&Command::Begin)?;
        self.region.clear();
        self.policy = policy;
        self.role = Some(role);
        Ok(executed)
    }

    /// Returns the page that begins where the agent's next one does.
    fn next_dump(&self, max: u16) -> Result<WrittenPage, Refusal>
        requires { torn self.now.history ≡ false }
        ensures page { IfOk result (λ p. p ≡ next_dump (planning P.chosen self.now) max) }
        ensures fits { IfOk result (λ _. standing_refusal (planning P.chosen self.now) (Event.Page max) ≡ None) }
        ensures refused { IfErr result (IsRefusal (standing_refusal (planning P.chosen self.now) (Event.Page max))) }
    {
        let from = match &self.role {
            Some(role) => role.next_page().unwrap_or(0),
            None => 1,
        };
        self.kernel.dump_written(self.alloc, from, max)
    }

    /// Tells the agent that attaches of the next threads that live, at most `max`: hands the page over as bytes, and
    /// loads it.
    pub(crate) fn page(&mut self, max: u16) -> Result<Reply, Refusal>
        requires { torn self.old.history ≡ false }
        ensures fits { IfOk result (λ _. standing_refusal (planning P.chosen self.old) (Event.Page max) ≡ None) }
        ensures attaches { IfOk result (λ r. Attaches (planning P.chosen self.old) max r (planning P.chosen self.new)) }
        ensures refused { IfErr result (IsRefusal (standing_refusal (planning P.chosen self.old) (Event.Page max))) }
        ensures unchanged { OnErr result (self.new ≡ self.old) }
        ensures policy { self.new.policy ≡ self.old.policy }
    {
        let page = self.next_dump(max)?;
        let role = self.role.as_mut().unwrap();
        role.rebuild_written(&page)?;
        self.kernel.note_written(&page);
        Ok(Reply::Page {
            count: page.count(),
            next: page.next(),
            bytes: Items::new(page.into_bytes()),
        })
    }
}
