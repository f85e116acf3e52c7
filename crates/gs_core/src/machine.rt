ghost use Rattle.std.specs.Prelude.{◌≡◌, ◌+◌, ◌≤◌, [], ℕ, None, Some, Ok, IfOk, IfErr, IfSome, OnOk, OnErr, is_some, length, map, true, false};
ghost use Rattle.std.specs.Option.{option_map};
ghost use Rattle.gs_layout.specs.declared.refusal.Refusal.{Refusal};
ghost use Rattle.gs_kernel.specs.Kernel.{IsRefusal, last_entry};
ghost use Rattle.gs_kernel.specs.declared.settings.TheConstants.{MOST_HISTORY};
ghost use Rattle.gs_replies.specs.Config.{config_fault, IsFault};
ghost use Rattle.gs_replies.specs.Replies.{replied, replied_as, reply_of};
ghost use denote.Ref.{Bor};
ghost use Rattle.gs_agent.specs.Role.{RoleOf};
ghost use Rattle.gs_core.specs.Held.{agent_of};
ghost use Rattle.gs_core.specs.Machine.{Step, decides, mind_of, plan_of, planned, planning, standing_refusal, start, stamps, transaction_of, unread, without_agent};
ghost use Rattle.gs_core.specs.Policies.{policy_after, policy_after_all};
ghost use Rattle.gs_core.specs.Desk.{AreBelow, AreStampable};
ghost use Rattle.gs_journal.specs.History.{active, attaching, posted, torn};
ghost use Rattle.gs_ring.specs.Ends.{Posted};
ghost use Rattle.gs_slots.specs.Reading.{states_in};
ghost use Rattle.gs_core.specs.Safe.{Safe, StopsForNoGap, IsFaithful, Run};

use crate::event::Event;
use crate::known::known_threads;
use crate::slots::MachineSlots;
use crate::stamping::{stamp_all, stamp_refusal, stamp_thread};
use crate::transaction::Transaction;
use crate::transactions::Transactions;
use crate::unread::waiting;
use gs_agent::{Drained, Role};
use gs_kernel::{Command, Executed, Kernel, Landing};
use gs_layout::Refusal;
use gs_policy::{Choice, Counted};
use gs_replies::{Config, ConfigFault, Items, Reply};
use gs_ring::ByteRing;
use gs_slots::{Flags, Region};
use gs_status::Mask;
use std::alloc::{AllocError, Global};
use std::marker::Model;

/// An enclave, after the ghOSt paper (SOSP 2021). It has the kernel, the global agent that the kernel tells
/// of its threads, and the slots by which the agent tells the kernel its decisions.
#[derive(Drop)]
pub struct Machine<P: Counted> {
    pub(crate) alloc: Global,
    pub(crate) kernel: Kernel<ByteRing>,
    pub(crate) policy: P,
    /// The role of the agent, if one is active or attaches.
    pub(crate) role: Option<Role<P>>,
    /// The role of the agent that went last, if none began since. The next one has its memory.
    pub(crate) gone: Option<Role<P>>,
    pub(crate) region: MachineSlots,
    transactions: Transactions,
}

impl<P: Counted> Model for Machine<P> {
    ghost use Rattle.gs_core.specs.Machine.{StateOf};

    ghost Value = { StateOf P };

    ghost use Rattle.gs_core.specs.Held.{machine_view, IsMachine};

    ghost view = { machine_view };

    ghost invariant = { IsMachine P.chosen };
}

impl<P: Counted + Copy> Machine<P> {
    /// Opens an enclave in which nothing happened but that the first agent is active on CPU 0.
    ///
    /// # Errors
    ///
    /// The first fault of the configuration, else `OutOfMemory` if out of memory.
    ///
    /// # Examples
    ///
    /// A machine, in which events happen one after another:
    ///
    /// ```
    /// let mut machine = Machine::new(alloc, config).ok()?;
    /// for event in events {
    ///     machine.step(event);
    /// }
    /// ```
    pub fn new(alloc: Global, config: Config<P>) -> Result<Machine<P>, ConfigFault>
        ensures ok { IfOk result (λ m. m ≡ start config) }
        ensures fits { IfOk result (λ _. config_fault config ≡ None) }
        ensures fault { IfErr result (IsFault (config_fault config)) }
        ensures safe { IfOk result (λ m. Safe (planning P.chosen m)) }
        ensures faithful { IfOk result (λ m. IsFaithful (planning P.chosen m)) }
    {
        if let Some(fault) = config.fault() {
            return Err(fault);
        }
        Ok(Machine::open(alloc, &config)?)
    }

    /// Opens an enclave with these numbers.
    ///
    /// # Errors
    ///
    /// `AllocError` if out of memory.
    fn open(alloc: Global, config: &Config<P>) -> Result<Machine<P>, AllocError>
        requires { config_fault config.now ≡ None }
        ensures { IfOk result (λ m. m ≡ start config.now) }
    {
        let settings = config.settings();
        let region = MachineSlots::new(alloc, settings.cpus)?;
        let Ok(ring) = ByteRing::new(alloc, config.ring as usize) else {
            return Err(AllocError);
        };
        let kernel = Kernel::new(alloc, settings, ring)?;
        let role = Role::new(
            alloc,
            config.policy,
            settings.cpus,
            settings.first_generation,
            0,
        )?;
        Ok(Machine {
            alloc,
            kernel,
            policy: config.policy,
            role: Some(role),
            gone: None,
            region,
            transactions: Transactions::new(alloc),
        })
    }

    /// Lends the role of the agent, if one is active or attaches. It plans by the machine's policy, and is of the
    /// generation that is active or attaches. While an agent is active, it takes that one's CPU for its own.
    ///
    /// # Examples
    ///
    /// The thread that the agent believes to run on a CPU:
    ///
    /// ```
    /// fn believed(machine: &Machine<AnyPolicy>, cpu: u16) -> Option<u32> {
    ///     Some(machine.role()?.believed(cpu)?.tid)
    /// }
    /// ```
    pub fn role(&self) -> Option<&Role<P>>
        ensures agent { option_map (λ (r : Bor (RoleOf P)). agent_of r.now) result ≡ self.now.agent }
        ensures policy { IfSome result (λ r. r.now.policy ≡ self.now.policy) }
        ensures generation { IfSome result (λ r. (a : ℕ × ℕ) → active self.now.history ≡ Some a → r.now.generation ≡ a.0) }
        ensures attaching { IfSome result (λ r. (g : ℕ) → attaching self.now.history ≡ Some g → r.now.generation ≡ g) }
        ensures cpu { IfSome result (λ r. (a : ℕ × ℕ) → active self.now.history ≡ Some a → r.now.mind.cpus.agent ≡ Some a.1) }
    {
        self.role.as_ref()
    }

    /// Lends the slots of all CPUs.
    ///
    /// # Examples
    ///
    /// Whether there is such a CPU and its slot is idle:
    ///
    /// ```
    /// let region = machine.region();
    /// cpu < region.cpus() && region.state(cpu) == Ok(SlotState::Idle)
    /// ```
    pub fn region(&self) -> &Region
        ensures { states_in 0 result.now ≡ map Ok self.now.slots }
    {
        self.region.region()
    }

    /// Lends the kernel.
    ///
    /// # Examples
    ///
    /// Whether the agent knows just the threads that live, after a drain that went to its end:
    ///
    /// ```
    /// let living = machine.kernel().live_threads(alloc)?;
    /// match machine.role() {
    ///     Some(role) => Ok(drained && knows(role, &living)),
    ///     None => Ok(false),
    /// }
    /// ```
    pub fn kernel(&self) -> &Kernel<ByteRing>
        ensures settings { result.now.settings ≡ self.now.settings }
        ensures history { result.now.history ≡ self.now.history }
        ensures ring { result.now.poster.capacity ≡ self.now.ring }
        ensures consumed { result.now.poster.consumed ≡ self.now.consumed }
        ensures unread { result.now.poster.unread ≡ unread (planning P.chosen self.now) }
        ensures posted { Posted result.now.poster (posted self.now.history) }
    {
        &self.kernel
    }

    /// Returns a transaction by its number, counted from 1 by the stampings.
    ///
    /// # Examples
    ///
    /// The CPU of a transaction, and what it was stamped with:
    ///
    /// ```
    /// let transaction = machine.transaction(number)?;
    /// let slot = transaction.slot;
    /// Some((transaction.cpu, slot.generation, slot.tid, slot.tseq))
    /// ```
    pub fn transaction(&self, number: u32) -> Option<Transaction>
        ensures { result ≡ transaction_of self.now.transactions number }
    {
        self.transactions.get(number).copied()
    }

    /// Lends all transactions, in the order in which they were stamped.
    pub fn transactions(&self) -> &[Transaction]
        ensures { result.now ≡ self.now.transactions }
    {
        self.transactions.as_slice()
    }

    /// Lets the agent follow messages while the enclave stands. What it followed is put into a place.
    #[inline(always)]
    fn follow(&mut self, max: u32, drained: &mut Drained) -> Result<(), Refusal>
        requires { torn self.old.history ≡ false }
        ensures step { Step (planning P.chosen self.old) (Event.Drain max) (replied_as (λ _. Reply.Drained drained.new) result) (planning P.chosen self.new) }
        ensures kept { OnErr result (drained.new ≡ drained.old) }
        ensures policy { self.new.policy ≡ self.old.policy }
    {
        if !self.kernel.has_agent() {
            return Err(Refusal::NotActive);
        }
        let role = self.role.as_mut().unwrap();
        let mut head = self.kernel.taker();
        *drained = role.drain(&mut head, max);
        Ok(())
    }

    fn view(&self) -> Result<Reply, Refusal>
        requires { torn self.now.history ≡ false }
        ensures { Step (planning P.chosen self.now) Event.View (replied result) (planning P.chosen self.now) }
    {
        let has_agent = self.kernel.has_agent();
        if !has_agent {
            return Err(Refusal::NotActive);
        }
        let role = self.role.as_ref().unwrap();
        let threads = known_threads(self.alloc, role.view())?;
        Ok(Reply::View(Items::new(threads)))
    }

    fn state(&self) -> Result<Reply, Refusal>
        requires { torn self.now.history ≡ false }
        ensures { Step (planning P.chosen self.now) Event.State (replied result) (planning P.chosen self.now) }
    {
        let threads = self.kernel.live_threads(self.alloc)?;
        Ok(Reply::State(Items::new(threads)))
    }

    fn unread(&self) -> Result<Reply, Refusal>
        requires { torn self.now.history ≡ false }
        ensures { Step (planning P.chosen self.now) Event.Unread (replied result) (planning P.chosen self.now) }
    {
        let messages = waiting(self.alloc, self.kernel.poster())?;
        Ok(Reply::Unread(Items::new(messages)))
    }

    /// Tests that an agent is active, and else returns the refusal of whatever takes one.
    fn active_agent(&self) -> Result<(), Refusal>
        ensures active { OnOk result (is_some (active self.now.history) ≡ true) }
        ensures refused { IfErr result (λ r. without_agent (planning P.chosen self.now) None ≡ Some r) }
    {
        if self.kernel.active().is_none() {
            return Err(Refusal::NotActive);
        }
        Ok(())
    }

    /// Tests that the enclave stands, and else returns the refusal of every event.
    fn standing(&self) -> Result<(), Refusal>
        ensures stands { OnOk result (torn self.now.history ≡ false) }
        ensures gone { IfErr result (λ r. (torn self.now.history ≡ true) × (r ≡ Refusal.Gone)) }
        ensures safe { Safe (planning P.chosen self.now) }
        ensures faithful { IsFaithful (planning P.chosen self.now) }
    {
        if self.kernel.is_torn() {
            return Err(Refusal::Gone);
        }
        Ok(())
    }

    /// Stamps what the view has of a thread into the slot of a CPU, and returns the transaction's number.
    #[inline(always)]
    fn stamp_slot(&mut self, cpu: u16, tid: u32, flags: Flags) -> Result<u32, Refusal>
        ensures fits { IfOk result (λ _. standing_refusal (planning P.chosen self.old) (Event.Stamp cpu tid flags) ≡ None) }
        ensures reply { IfOk result (λ number. Reply.Stamped number ≡ (stamps (planning P.chosen self.old) cpu tid flags).0) }
        ensures ok { OnOk result (planning P.chosen self.new ≡ (stamps (planning P.chosen self.old) cpu tid flags).1) }
        ensures refused { IfErr result (IsRefusal (standing_refusal (planning P.chosen self.old) (Event.Stamp cpu tid flags))) }
        ensures policy { self.new.policy ≡ self.old.policy }
        ensures unchanged { OnErr result (self.new ≡ self.old) }
    {
        self.active_agent()?;
        if cpu >= self.region.cpus() {
            return Err(Refusal::BadCpu);
        }
        let role = self.role.as_mut().unwrap();
        let most = self.kernel.settings().history;
        if let Err(refusal) = self.transactions.make_room(most) {
            return Err(stamp_refusal(role, &self.region, cpu, tid).unwrap_or(refusal));
        }
        stamp_thread(
            role,
            &mut self.region,
            &mut self.transactions,
            cpu,
            tid,
            flags,
        )?;
        Ok(self.transactions.len())
    }

    /// Stamps a thread into the slot of a CPU while the enclave stands. Returns the number of the transaction.
    #[inline(always)]
    fn stamp_standing(&mut self, cpu: u16, tid: u32, flags: Flags) -> Result<u32, Refusal>
        requires { torn self.old.history ≡ false }
        ensures step { Step (planning P.chosen self.old) (Event.Stamp cpu tid flags) (replied_as Reply.Stamped result) (planning P.chosen self.new) }
        ensures policy { self.new.policy ≡ self.old.policy }
    {
        self.stamp_slot(cpu, tid, flags)
    }

    /// Stamps what the policy plans, and puts that into a list. Returns the number of the first transaction.
    #[inline(always)]
    fn stamp_plan(&mut self, choices: &mut Vec<Choice>) -> Result<u32, Refusal>
        ensures fits { IfOk result (λ _. standing_refusal (planning P.chosen self.old) Event.Decide ≡ None) }
        ensures reply { IfOk result (λ first. Reply.Decided first choices.new.items ≡ (decides (planning P.chosen self.old)).0) }
        ensures ok { OnOk result (planning P.chosen self.new ≡ (decides (planning P.chosen self.old)).1) }
        ensures refused { IfErr result (IsRefusal (standing_refusal (planning P.chosen self.old) Event.Decide)) }
        ensures policy { self.new.policy ≡ self.old.policy }
        ensures unchanged { OnErr result (self.new ≡ self.old) }
    {
        self.plan(choices)?;
        let role = self.role.as_mut().unwrap();
        let first = self.transactions.len() + 1;
        self.transactions.reserve(choices.len())?;
        stamp_all(
            role,
            &mut self.region,
            &mut self.transactions,
            choices.as_slice(),
        );
        Ok(first)
    }

    /// Stamps what the policy plans while the enclave stands, and puts that into a list. Returns the number of the first transaction.
    #[inline(always)]
    fn decide_standing(&mut self, choices: &mut Vec<Choice>) -> Result<u32, Refusal>
        requires { torn self.old.history ≡ false }
        ensures step { Step (planning P.chosen self.old) Event.Decide (replied_as (λ first. Reply.Decided first choices.new.items) result) (planning P.chosen self.new) }
        ensures policy { self.new.policy ≡ self.old.policy }
    {
        self.stamp_plan(choices)
    }

    /// Stamps what the policy plans while the enclave stands, and returns the reply.
    fn decide_all(&mut self) -> Reply
        requires { torn self.old.history ≡ false }
        ensures step { Step (planning P.chosen self.old) Event.Decide result (planning P.chosen self.new) }
        ensures policy { self.new.policy ≡ self.old.policy }
    {
        let mut choices = Vec::new(self.alloc);
        match self.decide_standing(&mut choices) {
            Ok(first) => Reply::Decided {
                first,
                choices: Items::new(choices),
            },
            Err(refusal) => Reply::Refused(refusal),
        }
    }

    /// Lets the agent follow messages while the enclave stands, and returns the reply.
    fn drain_all(&mut self, max: u32) -> Reply
        requires { torn self.old.history ≡ false }
        ensures step { Step (planning P.chosen self.old) (Event.Drain max) result (planning P.chosen self.new) }
        ensures policy { self.new.policy ≡ self.old.policy }
    {
        let mut drained = Drained::NOTHING;
        match self.follow(max, &mut drained) {
            Ok(()) => Reply::Drained(drained),
            Err(refusal) => Reply::Refused(refusal),
        }
    }

    /// Puts what the policy plans into a list, if there is room for its transactions.
    fn plan(&self, choices: &mut Vec<Choice>) -> Result<(), Refusal>
        ensures plan { OnOk result (choices.new.items ≡ plan_of (planning P.chosen self.now)) }
        ensures active { OnOk result (is_some (active self.now.history) ≡ true) }
        ensures few { OnOk result (length self.now.transactions + length choices.new.items ≤ MOST_HISTORY) }
        ensures stampable { OnOk result (AreStampable (mind_of self.now.agent).records self.now.slots choices.new.items) }
        ensures below { OnOk result (AreBelow self.now.settings.cpus choices.new.items) }
        ensures fits { OnOk result (standing_refusal (planning P.chosen self.now) Event.Decide ≡ None) }
        ensures refused { IfErr result (IsRefusal (standing_refusal (planning P.chosen self.now) Event.Decide)) }
    {
        self.active_agent()?;
        let taken = self.kernel.taken();
        let history = self.kernel.settings().history;
        let room = history.saturating_sub(self.transactions.len()) as usize;
        let role = self.role.as_ref().unwrap();
        match role.decide_into(self.alloc, taken, choices) {
            Ok(()) if choices.len() > room => Err(Refusal::HistoryFull),
            Ok(()) => Ok(()),
            Err(_) => {
                if role.count(taken) > room {
                    return Err(Refusal::HistoryFull);
                }
                Err(Refusal::OutOfMemory)
            }
        }
    }

    /// Lands slots while the enclave stands, and adds what became of each to an empty list. Returns whether that tore the
    /// enclave down.
    #[inline(always)]
    fn land(&mut self, mask: Mask, landings: &mut Vec<Landing>) -> Result<bool, Refusal>
        requires stands { torn self.old.history ≡ false }
        requires empty { landings.old.items ≡ [] }
        ensures step { Step (planning P.chosen self.old) (Event.Commit mask) (replied_as (Reply.Landed landings.new.items) result) (planning P.chosen self.new) }
        ensures kept { OnErr result (landings.new.items ≡ []) }
        ensures policy { self.new.policy ≡ self.old.policy }
    {
        self.active_agent()?;
        let role = self.role.as_mut().unwrap();
        self.region
            .land(self.alloc, &mut self.kernel, role, mask, landings)?;
        Ok(self.kernel.is_torn())
    }

    /// Lands slots while the enclave stands, and returns the reply.
    fn land_all(&mut self, mask: Mask) -> Reply
        requires { torn self.old.history ≡ false }
        ensures step { Step (planning P.chosen self.old) (Event.Commit mask) result (planning P.chosen self.new) }
        ensures policy { self.new.policy ≡ self.old.policy }
    {
        let mut landings = Vec::new(self.alloc);
        match self.land(mask, &mut landings) {
            Ok(torn) => Reply::Landed {
                landings: Items::new(landings),
                torn,
            },
            Err(refusal) => Reply::Refused(refusal),
        }
    }

    fn late(&mut self, number: u32) -> Result<Reply, Refusal>
        requires { torn self.old.history ≡ false }
        ensures step { Step (planning P.chosen self.old) (Event.Late number) (replied result) (planning P.chosen self.new) }
        ensures policy { self.new.policy ≡ self.old.policy }
    {
        let Some(Transaction { cpu, slot }) = self.transaction(number) else {
            return Err(Refusal::NoSuchTransaction);
        };
        let landing = self.kernel.land_stamp(cpu, &slot)?;
        Ok(Reply::Late {
            number,
            landing,
            torn: self.kernel.is_torn(),
        })
    }

    /// Lets one event happen, and returns the reply. It is refused by the first refusal that applies, and
    /// changes nothing then. No drain stops for a gap.
    ///
    /// # Examples
    ///
    /// Whether a drain of all messages went to its end:
    ///
    /// ```
    /// let drained = match machine.step(&Event::Drain { max: u32::MAX }) {
    ///     Reply::Drained(drained) => is_whole(&drained),
    ///     _ => false,
    /// };
    /// ```
    pub fn step(&mut self, event: &Event<P>) -> Reply
        ensures step { Step (planning P.chosen self.old) (planned P.chosen event.now) result (planning P.chosen self.new) }
        ensures safe { Safe (planning P.chosen self.new) }
        ensures faithful { IsFaithful (planning P.chosen self.new) }
        ensures no_gap { (max : ℕ) → event.now ≡ Event.Drain max → StopsForNoGap result }
        ensures policy { self.new.policy ≡ policy_after event.now result self.old.policy }
    {
        if let Err(refusal) = self.standing() {
            return Reply::Refused(refusal);
        }
        let reply = self.step_standing(event);
        // Reads a field to expose the invariant.
        let _region = &self.region;
        reply
    }

    /// Tells the kernel a command, as [`Machine::step`] does at the event of it. The reply is [`Reply::executed`] of what
    /// this returns and the kernel's last entry, or the refusal.
    ///
    /// # Errors
    ///
    /// The first refusal that applies, and then nothing changes.
    #[inline(always)]
    pub fn command(&mut self, command: &Command) -> Result<Executed, Refusal>
        ensures step { Step (planning P.chosen self.old) (Event.Kernel command.now) (reply_of result (last_entry self.new.history)) (planning P.chosen self.new) }
        ensures safe { Safe (planning P.chosen self.new) }
        ensures faithful { IsFaithful (planning P.chosen self.new) }
        ensures policy { self.new.policy ≡ self.old.policy }
    {
        self.standing()?;
        let came = self.execute_command(command);
        // Reads a field to expose the invariant.
        let _region = &self.region;
        came
    }

    /// Lets the agent follow the messages that wait, at most `max`, as [`Machine::step`] does at `Event::Drain`. What it
    /// followed is put in the place of what `drained` has.
    ///
    /// # Errors
    ///
    /// The first refusal that applies, and then nothing changes.
    pub fn drain(&mut self, max: u32, drained: &mut Drained) -> Result<(), Refusal>
        ensures step { Step (planning P.chosen self.old) (Event.Drain max) (replied_as (λ _. Reply.Drained drained.new) result) (planning P.chosen self.new) }
        ensures kept { OnErr result (drained.new ≡ drained.old) }
        ensures safe { Safe (planning P.chosen self.new) }
        ensures faithful { IsFaithful (planning P.chosen self.new) }
        ensures policy { self.new.policy ≡ self.old.policy }
    {
        self.standing()?;
        let came = self.follow(max, drained);
        // Reads a field to expose the invariant.
        let _region = &self.region;
        came
    }

    /// Stamps what the agent knows of a thread into the slot of a CPU, as [`Machine::step`] does at `Event::Stamp`. Returns the
    /// transaction's number, counted from 1.
    ///
    /// # Errors
    ///
    /// The first refusal that applies, and then nothing changes.
    pub fn stamp(&mut self, cpu: u16, tid: u32, flags: Flags) -> Result<u32, Refusal>
        ensures step { Step (planning P.chosen self.old) (Event.Stamp cpu tid flags) (replied_as Reply.Stamped result) (planning P.chosen self.new) }
        ensures safe { Safe (planning P.chosen self.new) }
        ensures faithful { IsFaithful (planning P.chosen self.new) }
        ensures policy { self.new.policy ≡ self.old.policy }
    {
        self.standing()?;
        let came = self.stamp_standing(cpu, tid, flags);
        // Reads a field to expose the invariant.
        let _region = &self.region;
        came
    }

    /// Stamps what the agent's policy plans, as [`Machine::step`] does at `Event::Decide`. Returns the number of the first
    /// transaction, counted from 1. The choices are put in the place of what a list has, so that one list serves each
    /// decision. If the event is refused, the list may have any choices.
    ///
    /// # Errors
    ///
    /// The first refusal that applies, and then nothing else changes.
    pub fn decide(&mut self, choices: &mut Vec<Choice>) -> Result<u32, Refusal>
        ensures step { Step (planning P.chosen self.old) Event.Decide (replied_as (λ first. Reply.Decided first choices.new.items) result) (planning P.chosen self.new) }
        ensures safe { Safe (planning P.chosen self.new) }
        ensures faithful { IsFaithful (planning P.chosen self.new) }
        ensures policy { self.new.policy ≡ self.old.policy }
    {
        self.standing()?;
        let came = self.decide_standing(choices);
        // Reads a field to expose the invariant.
        let _region = &self.region;
        came
    }

    /// Lands the stamped slots of a mask, as [`Machine::step`] does at `Event::Commit`. Returns whether that tore the enclave
    /// down. What became of each slot is put in the place of what a list has, so that one list serves each commit.
    ///
    /// # Errors
    ///
    /// The first refusal that applies, and then nothing changes, but that the list is empty.
    pub fn commit(&mut self, mask: Mask, landings: &mut Vec<Landing>) -> Result<bool, Refusal>
        ensures step { Step (planning P.chosen self.old) (Event.Commit mask) (replied_as (Reply.Landed landings.new.items) result) (planning P.chosen self.new) }
        ensures none { OnErr result (landings.new.items ≡ []) }
        ensures safe { Safe (planning P.chosen self.new) }
        ensures faithful { IsFaithful (planning P.chosen self.new) }
        ensures policy { self.new.policy ≡ self.old.policy }
    {
        landings.clear();
        self.standing()?;
        let came = self.land(mask, landings);
        // Reads a field to expose the invariant.
        let _region = &self.region;
        came
    }

    /// Lets one event happen while the enclave stands.
    fn step_standing(&mut self, event: &Event<P>) -> Reply
        requires { torn self.old.history ≡ false }
        ensures step { Step (planning P.chosen self.old) (planned P.chosen event.now) result (planning P.chosen self.new) }
        ensures policy { self.new.policy ≡ policy_after event.now result self.old.policy }
    {
        match event {
            Event::Kernel { command } => {
                let executed = self.execute_command(command);
                self.command_reply(executed)
            }
            Event::Crash => answer(self.crash()),
            Event::Begin { policy } => {
                let executed = self.begin(*policy);
                self.command_reply(executed)
            }
            Event::Page { max } => answer(self.page(*max)),
            Event::Drain { max } => self.drain_all(*max),
            Event::Stamp { cpu, tid, flags } => match self.stamp_standing(*cpu, *tid, *flags) {
                Ok(number) => Reply::Stamped { number },
                Err(refusal) => Reply::Refused(refusal),
            },
            Event::Decide => self.decide_all(),
            Event::Commit { mask } => self.land_all(*mask),
            Event::Late { number } => answer(self.late(*number)),
            Event::View => answer(self.view()),
            Event::State => answer(self.state()),
            Event::Unread => answer(self.unread()),
        }
    }

    /// Returns the reply to a command, by what became of it.
    fn command_reply(&self, came: Result<Executed, Refusal>) -> Reply
        ensures { result ≡ reply_of came (last_entry self.now.history) }
    {
        match came {
            Ok(executed) => Reply::executed(executed, self.kernel.last()),
            Err(refusal) => Reply::Refused(refusal),
        }
    }

    /// Lets events happen, one after another, and returns their replies. Each machine on the way is safe.
    ///
    /// # Errors
    ///
    /// If out of memory for the replies. Then no event ran.
    ///
    /// # Examples
    ///
    /// The replies, unless memory ran out at an event:
    ///
    /// ```
    /// let replies = machine.run(events)?;
    /// if is_short(&replies) {
    ///     return Err(AllocError);
    /// }
    /// Ok(replies)
    /// ```
    pub fn run(&mut self, events: &[Event<P>]) -> Result<Vec<Reply>, AllocError>
        ensures run { IfOk result (λ replies. Run (planning P.chosen self.old) (map (planned P.chosen) events.now) replies.items (planning P.chosen self.new)) }
        ensures policy { IfOk result (λ replies. self.new.policy ≡ policy_after_all events.now replies.items self.old.policy) }
        ensures unchanged { OnErr result (self.new ≡ self.old) }
    {
        let mut replies = Vec::with_capacity(self.alloc, events.len())?;
        for event in events {
            let reply = self.step(event);
            replies.push_reserved(reply);
        }
        Ok(replies)
    }
}

/// Returns the reply to an event, by what came of it. A refusal is a reply too.
#[inline(always)]
fn answer(came: Result<Reply, Refusal>) -> Reply
    ensures { result ≡ replied came }
{
    match came {
        Ok(reply) => reply,
        Err(refusal) => Reply::Refused(refusal),
    }
}
