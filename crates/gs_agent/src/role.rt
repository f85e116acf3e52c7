ghost use Rattle.std.specs.Prelude.{◌≡◌, ◌<◌, ◌≤◌, ℕ, List, [], ◌∷◌, None, Some, IfErr, IfOk, IsSome, Ok, OnErr, OnOk, length, true};
ghost use Rattle.gs_layout.specs.declared.message.Message.{Message};
ghost use Rattle.gs_layout.specs.View.{is_gap, look_up, word};
ghost use Rattle.gs_slots.specs.declared.state.SlotState.{SlotState};
ghost use Rattle.gs_slots.specs.SlotMut.{bytes_of, cpu_of, left_in, state_of};
ghost use Rattle.gs_slots.specs.Reading.{all_collected, state_in, told_by};
ghost use Rattle.gs_view.specs.Begins.{begins};
ghost use Rattle.gs_beliefs.specs.Cpus.{believed_on};
ghost use Rattle.gs_agent.specs.declared.drained.Stop.{Stop};
ghost use Rattle.gs_agent.specs.Drains.{Followed};
ghost use Rattle.gs_agent.specs.Mind.{moved, nothing, picture_of, shown_in, thinks};
ghost use Rattle.gs_agent.specs.Pages.{after_page};
ghost use Rattle.gs_agent.specs.Picture.{HoldsWaiting, after_all, after_slot, after_stamp};
ghost use Rattle.gs_policy.specs.Safe.{IsSafePlan};
ghost use Rattle.gs_runq.specs.Queue.{Apart, order};
ghost use Rattle.gs_status.specs.Masks.{has};
ghost use Rattle.gs_agent.specs.Role.{number_of, stamp_refusal};

use crate::collect::collect_all;
use crate::drain::drain_into;
use crate::drained::Drained;
use crate::mind::Mind;
use gs_beliefs::Running;
use gs_dump::{Page, WrittenPage};
use gs_layout::{Outcome, Refusal};
use gs_policy::{Choice, Counted, Policy};
use gs_ring::Taker;
use gs_runq::QueueWalk;
use gs_slots::{Flags, Region, SlotBusy, SlotMut, Stamp};
use gs_status::{MOST_CPUS, Mask};
use gs_view::AgentView;
use std::alloc::{AllocError, Global};
use std::marker::Model;

/// The role of an agent: what it knows of each thread, what it believes of each CPU, who waits, its
/// generation, and the policy by which it plans.
///
/// Messages reach it through [`Role::drain`], its transactions leave by [`Role::stamp`], and
/// [`Role::collect`] frees the slots of those that landed. The role of an agent that attaches is told of
/// the threads that live by pages, through [`Role::rebuild`]. Clauses see its records in increasing order of
/// tid, and the queue without its room.
#[derive(Drop)]
pub struct Role<P> {
    mind: Mind,
    generation: u32,
    policy: P,
    next: Option<u32>,
}

impl<P> Model for Role<P> {
    ghost use Rattle.gs_agent.specs.Role.{RoleOf};

    ghost Value = { RoleOf P };

    ghost view = { λ role. record { mind = role.mind; generation = role.generation; policy = role.policy; next = role.next } };
}

impl<P> Role<P> {
    /// Makes the role of an active agent that plans by this policy: of this generation, and on this CPU of
    /// `cpus`, at most [`MOST_CPUS`]. It knows nothing yet: nobody is believed to run anywhere, and nobody
    /// waits. It needs no page.
    ///
    /// # Errors
    ///
    /// If out of memory.
    pub fn new(
        alloc: Global,
        policy: P,
        cpus: u16,
        generation: u32,
        cpu: u16,
    ) -> Result<Role<P>, AllocError>
    where
        P: Drop,
        requires { cpus ≤ MOST_CPUS }
        ensures { IfOk result (λ role. role ≡ record { mind = nothing cpus (Some cpu); generation = generation; policy = policy; next = None }) }
    {
        Role::begin(alloc, policy, cpus, generation, Some(cpu), None)
    }

    /// Makes the role of an agent that attaches and plans by this policy: of this generation, on a machine of
    /// `cpus` CPUs, at most [`MOST_CPUS`]. It has no CPU of its own. It knows nothing yet, and its first page
    /// begins at tid 1.
    ///
    /// # Errors
    ///
    /// If out of memory.
    pub fn attach(
        alloc: Global,
        policy: P,
        cpus: u16,
        generation: u32,
    ) -> Result<Role<P>, AllocError>
    where
        P: Drop,
        requires { cpus ≤ MOST_CPUS }
        ensures { IfOk result (λ role. role ≡ record { mind = nothing cpus None; generation = generation; policy = policy; next = Some 1 }) }
    {
        Role::begin(alloc, policy, cpus, generation, None, Some(1))
    }

    /// Makes the role of an agent that knows nothing yet, on this CPU or on none. If it needs pages, the next
    /// one begins at this tid.
    fn begin(
        alloc: Global,
        policy: P,
        cpus: u16,
        generation: u32,
        cpu: Option<u16>,
        next: Option<u32>,
    ) -> Result<Role<P>, AllocError>
    where
        P: Drop,
        requires { cpus ≤ MOST_CPUS }
        ensures { IfOk result (λ role. role ≡ record { mind = nothing cpus cpu; generation = generation; policy = policy; next = next }) }
    {
        let mind = Mind::new(alloc, cpus, cpu)?;
        Ok(Role::with_mind(mind, policy, generation, next))
    }

    /// Makes the role of an agent that has this in mind. If it needs pages, the next one begins at this tid.
    fn with_mind(mind: Mind, policy: P, generation: u32, next: Option<u32>) -> Role<P>
        ensures { result ≡ record { mind = mind; generation = generation; policy = policy; next = next } }
    {
        Role {
            mind,
            generation,
            policy,
            next,
        }
    }

    /// Makes the role that [`Role::attach`] makes, of the memory of this one, which ends. Nothing stays of what
    /// this one had in mind.
    ///
    /// # Errors
    ///
    /// If out of memory.
    pub fn succeed(
        self,
        alloc: Global,
        policy: P,
        cpus: u16,
        generation: u32,
    ) -> Result<Role<P>, AllocError>
    where
        P: Drop,
        requires { cpus ≤ MOST_CPUS }
        ensures { IfOk result (λ role. role ≡ record { mind = nothing cpus None; generation = generation; policy = policy; next = Some 1 }) }
    {
        let mind = self.mind.renew(alloc, cpus, None)?;
        Ok(Role::with_mind(mind, policy, generation, Some(1)))
    }

    /// Ends the role: all that the agent had in mind is dropped, and its policy is given back.
    pub fn retire(self) -> P
        ensures { result ≡ self.policy }
    {
        self.policy
    }

    /// Returns the generation of the agent, which each of its transactions is stamped with.
    pub fn generation(&self) -> u32
        ensures { result ≡ self.now.generation }
    {
        self.generation
    }

    /// Returns the policy by which the agent plans.
    pub fn policy(&self) -> &P
        ensures { result.now ≡ self.now.policy }
    {
        &self.policy
    }

    /// Returns what the agent knows of each thread.
    pub fn view(&self) -> &AgentView
        ensures { result.now.entries ≡ self.now.mind.records }
    {
        self.mind.view()
    }

    /// Returns who is believed to run on a CPU, `None` for nobody and past the last CPU.
    pub fn believed(&self, cpu: u16) -> Option<Running>
        ensures { result ≡ believed_on self.now.mind.cpus cpu }
    {
        self.mind.believed(cpu)
    }

    /// Walks over the tids of those who wait, each once: those of class 0 in the order in which they began to
    /// wait, then those of class 1. It does not allocate.
    pub fn waiting(&self) -> QueueWalk<'_>
        ensures order { result ≡ order self.now.mind.queue }
        ensures apart { Apart (order self.now.mind.queue) }
        ensures waits { HoldsWaiting (look_up self.now.mind.records) self.now.mind.cpus self.now.mind.queue }
    {
        self.mind.waiting()
    }

    /// Returns the tid at which the next page begins that the agent needs, `None` if it needs no more.
    pub fn next_page(&self) -> Option<u32>
        ensures { result ≡ self.now.next }
    {
        self.next
    }

    /// Takes a page in, of threads that live, one record at a time, in increasing order of tid. What a record
    /// tells of its thread is known then, the thread is believed to run where it says, and who waits follows.
    /// That is so of every page: two records may name one CPU, and threads may have been known before. The
    /// next page begins where this one says, and after the last page none is needed.
    ///
    /// # Errors
    ///
    /// If out of memory. Then nothing changes, and the page can be followed later.
    pub fn rebuild(&mut self, page: &Page) -> Result<(), AllocError>
        ensures picture { OnOk result (picture_of self.new.mind ≡ after_page page.now.records (picture_of self.old.mind)) }
        ensures next { OnOk result (self.new.next ≡ page.now.next) }
        ensures others { self.new ≡ record self.old { mind = self.new.mind; next = self.new.next } }
        ensures unchanged { OnErr result (self.new ≡ self.old) }
    {
        self.mind.rebuild(page)?;
        self.next = page.next;
        Ok(())
    }

    /// Takes a page in that is given as bytes, as [`Role::rebuild`] does, with no list of records in between.
    ///
    /// # Errors
    ///
    /// As of [`Role::rebuild`].
    pub fn rebuild_written(&mut self, page: &WrittenPage) -> Result<(), AllocError>
        ensures picture { OnOk result (picture_of self.new.mind ≡ after_page page.now.records (picture_of self.old.mind)) }
        ensures next { OnOk result (self.new.next ≡ page.now.next) }
        ensures others { self.new ≡ record self.old { mind = self.new.mind; next = self.new.next } }
        ensures unchanged { OnErr result (self.new ≡ self.old) }
    {
        let next = page.next();
        self.mind.rebuild_written(page)?;
        self.next = next;
        Ok(())
    }

    /// Lets the agent go on as one of this generation, on this CPU. All that it has in mind stays, the stamps
    /// of its earlier generation too: their threads do not wait, and their CPUs are not used, until they are
    /// collected. It does not allocate.
    pub fn promote(&mut self, generation: u32, cpu: u16)
        ensures { self.new ≡ record self.old { mind = moved cpu self.old.mind; generation = generation } }
    {
        self.mind.move_to(cpu);
        self.generation = generation;
    }

    /// Follows messages, at most `max` of them, in the order in which they were posted: view, beliefs
    /// and queue follow each one that applies. The view is then what it was, caught up over them. Returns
    /// what it followed, and why it stopped early, if it did.
    ///
    /// It stops early at a message whose number is more than one above the one that is known of its
    /// thread. It also stops at the creation of a thread of which nothing is known, if out of memory for its
    /// record or for its place in the queue. That message stays unread, and a later drain begins with it.
    ///
    /// # Examples
    ///
    /// At most nine messages, none of which may be left for want of memory or for a gap:
    ///
    /// ```
    /// let drained = enclave.role.drain(&mut enclave.kernel.taker(), 9);
    /// if drained.stop.is_some() {
    ///     return false;
    /// }
    /// ```
    pub fn drain<T: Taker>(&mut self, taker: &mut T, max: u32) -> Drained
        ensures followed { (ms : List Message) × T.passed taker.old ms taker.new × Followed (picture_of self.old.mind) ms result (picture_of self.new.mind) }
        ensures most { result.count ≤ max }
        ensures whole { result.stop ≡ None → result.count < max → (m : Message) (ms : List Message) → T.ahead taker.new (m ∷ ms) → ⊥ }
        ensures early { IsSome result.stop → result.count < max }
        ensures gap { result.stop ≡ Some Stop.Gap → (m : Message) × T.ahead taker.new (m ∷ []) × (is_gap (word (look_up self.new.mind.records) m) ≡ true) }
        ensures memory { result.stop ≡ Some Stop.Memory → (m : Message) × T.ahead taker.new (m ∷ []) × (begins (look_up self.new.mind.records) m ≡ true) }
        ensures others { self.new ≡ record self.old { mind = self.new.mind } }
    {
        drain_into(&mut self.mind, taker, max)
    }

    /// Stamps a transaction into an idle slot. The thread is to run on the slot's CPU, as the flags say, if its sequence
    /// number is still the one that the view has when the slot lands. Returns that number. It does not allocate.
    ///
    /// The role remembers the stamp until the slot is collected: until then the thread does not wait,
    /// and the CPU is not one to use. If it still remembered another stamp on that CPU, the thread which that
    /// named may wait again.
    ///
    /// # Errors
    ///
    /// The first that applies: `NoThread` if the view does not know the thread, `SlotOpen` if the slot is not
    /// idle, malformed too. Slot and role stay as they were.
    ///
    /// # Examples
    ///
    /// A choice of the policy, which preempts somebody or not:
    ///
    /// ```
    /// let slot = region.slot(choice.cpu);
    /// let flags = Flags::single(choice.preempt);
    /// if role.stamp(slot, choice.tid, flags).is_err() {
    ///     return false;
    /// }
    /// ```
    pub fn stamp(&mut self, slot: SlotMut<'_>, tid: u32, flags: Flags) -> Result<u32, Refusal>
        ensures ok { OnOk result (stamp_refusal (look_up self.old.mind.records tid) (state_of slot.entry) ≡ None) }
        ensures number { IfOk result (λ tseq. number_of (look_up self.old.mind.records tid) ≡ Some tseq) }
        ensures stamped { IfOk result (λ tseq. state_in (cpu_of slot.entry) (left_in slot.exit) ≡ Ok (SlotState.Stamped (record { generation = self.old.generation; tid = tid; tseq = tseq; flags = flags }))) }
        ensures role { OnOk result (self.new ≡ record self.old { mind = thinks self.old.mind (after_stamp (cpu_of slot.entry) tid (picture_of self.old.mind)) }) }
        ensures refused { IfErr result (λ refusal. stamp_refusal (look_up self.old.mind.records tid) (state_of slot.entry) ≡ Some refusal) }
        ensures unchanged { OnErr result (left_in slot.exit ≡ bytes_of slot.entry) }
        ensures as_before { OnErr result (self.new ≡ self.old) }
    {
        let (_, tseq) = self.mind.view().get(tid).ok_or(Refusal::NoThread)?;
        let cpu = slot.cpu();
        match slot.stamp(self.generation, tid, tseq, flags) {
            Ok(()) => {
                self.note_stamp(cpu, tid);
                Ok(tseq)
            }
            Err(SlotBusy) => Err(Refusal::SlotOpen),
        }
    }

    /// Notes that a thread was stamped for a CPU, as [`Role::stamp`] does. It is for a caller who stamps the slot
    /// itself. Past the last CPU no stamp is noted. It does not allocate.
    #[inline(always)]
    pub fn note_stamp(&mut self, cpu: u16, tid: u32)
        ensures { self.new ≡ record self.old { mind = thinks self.old.mind (after_stamp cpu tid (picture_of self.old.mind)) } }
    {
        self.mind.stamp(cpu, tid);
    }

    /// Learns what became of a transaction that was stamped for a CPU and landed, and on which CPU its thread was
    /// then, as [`Role::collect`] learns it of a done slot. It is for a caller who lands a slot and lets the agent
    /// learn its outcome at once. It does not allocate.
    #[inline(always)]
    pub fn learn(&mut self, cpu: u16, stamp: &Stamp, outcome: Outcome, at: Option<u16>)
        ensures { (seen : ℕ) → self.new ≡ record self.old { mind = thinks self.old.mind (after_slot cpu (SlotState.Done stamp.now outcome at seen) (picture_of self.old.mind)) } }
    {
        self.mind.learn(cpu, stamp, outcome, at);
    }

    /// Collects what became of each done slot of a region, and makes it idle again. The slots of a group come first,
    /// and then the others, each in increasing order of CPU. A thread that was placed, or found placed already, is
    /// believed to run there, and who waits follows. Other slots, malformed ones too, stay as they are. It does not
    /// allocate.
    pub fn collect(&mut self, region: &mut Region)
        ensures region { region.new ≡ all_collected 0 region.old }
        ensures role { self.new ≡ record self.old { mind = thinks self.old.mind (after_all (told_by 0 region.old) (picture_of self.old.mind)) } }
    {
        collect_all(&mut self.mind, region);
    }
}

impl<P: Policy> Role<P> {
    /// Returns what the role's policy plans by all that the agent has in mind, if the other class holds the
    /// CPUs of `taken` and no other. Each choice is safe to stamp. Nothing is changed.
    ///
    /// # Errors
    ///
    /// If out of memory for the choices.
    ///
    /// # Examples
    ///
    /// Whether this is planned, and each choice stamped:
    ///
    /// ```
    /// let Ok(plan) = enclave.role.decide(alloc, Mask::new(turn.taken)) else {
    ///     return false;
    /// };
    /// is_plan(&plan, turn.plan) && stamp(&mut enclave.role, &mut enclave.region, &plan)
    /// ```
    pub fn decide(&self, alloc: Global, taken: Mask) -> Result<Vec<Choice>, AllocError>
        ensures plan { IfOk result (λ r. r.items ≡ P.chosen self.now.policy (shown_in self.now.mind (has taken))) }
        ensures safe { IfOk result (λ r. IsSafePlan (shown_in self.now.mind (has taken)) r.items) }
    {
        self.mind.plan(alloc, &self.policy, taken)
    }

    /// Puts what the role's policy plans into a list, in place of what was there, as [`Role::decide`] returns it. A list
    /// that is kept has its memory for the next plan.
    ///
    /// # Errors
    ///
    /// If out of memory for the choices. The list is empty then.
    pub fn decide_into(
        &self,
        alloc: Global,
        taken: Mask,
        choices: &mut Vec<Choice>,
    ) -> Result<(), AllocError>
        ensures plan { OnOk result (choices.new.items ≡ P.chosen self.now.policy (shown_in self.now.mind (has taken))) }
        ensures safe { OnOk result (IsSafePlan (shown_in self.now.mind (has taken)) choices.new.items) }
        ensures none { OnErr result (choices.new.items ≡ []) }
    {
        self.mind.plan_into(alloc, &self.policy, taken, choices)
    }
}

impl<P: Counted> Role<P> {
    /// Returns how many choices the role's policy plans if the other class holds the CPUs of `taken` and no
    /// other. They are as many as [`Role::decide`] returns unless out of memory. It does not allocate, and
    /// changes nothing.
    pub fn count(&self, taken: Mask) -> usize
        ensures { result ≡ length (P.chosen self.now.policy (shown_in self.now.mind (has taken))) }
    {
        self.mind.count(&self.policy, taken)
    }
}
