ghost use Rattle.std.specs.Prelude.{◌≡◌, ◌≢◌, ◌↔◌, ◌<◌, ◌≤◌, [], ℕ, Err, IfOk, OnOk, OnErr, length, true};
ghost use Rattle.gs_beliefs.specs.Cpus.{believed_on, stamp_on, unknown};
ghost use Rattle.gs_layout.specs.Spelling.{kind_of};
ghost use Rattle.gs_layout.specs.View.{is_gap, look_up, word};
ghost use Rattle.gs_policy.specs.Safe.{IsSafePlan};
ghost use Rattle.gs_status.specs.Masks.{has};
ghost use Rattle.gs_view.specs.declared.fault.ApplyFault.{ApplyFault};
ghost use Rattle.gs_view.specs.Begins.{begins};
ghost use Rattle.gs_view.specs.News.{word_of};
ghost use Rattle.gs_agent.specs.Mind.{moved, nothing, picture_of, shown_in, thinks};
ghost use Rattle.gs_agent.specs.Pages.{after_page};
ghost use Rattle.gs_runq.specs.Queue.{Apart, order};
ghost use Rattle.gs_agent.specs.Picture.{HoldsWaiting, after_slot, after_stamp, after_message};

use crate::rebuild::{follow_records, follow_written, make_room_for_page, make_room_for_written};
use crate::waiting::{
    is_mask_alone, make_room, other_than, requeue, running_on, settle_found, settle_if_any,
    settle_stamped,
};
use gs_beliefs::{Beliefs, CpuBeliefs, Running};
use gs_dump::{Page, WrittenPage};
use gs_layout::{Kind, Outcome};
use gs_policy::{Choice, Counted, Policy};
use gs_reader::MessageRef;
use gs_runq::{QueueWalk, RunQueue};
use gs_slots::{SlotState, Stamp};
use gs_status::{MOST_CPUS, Mask};
use gs_view::{AgentView, ApplyFault, News};
use std::alloc::{AllocError, Global};
use std::marker::Model;

/// What an agent has in mind. The view is what it knows of each thread, the beliefs are what it believes of
/// each CPU, and the queue is who waits for a CPU.
///
/// A thread waits if it is known to be runnable, no CPU is believed to run it, and no uncollected stamp names
/// it. The queue holds those threads at all times, and no other. A thread that begins to wait goes last of
/// its class, and one that stops waiting leaves. One whose turn ended, as a preemption or a yield says, goes
/// last of its class anew. One that waits already keeps its place, even if it is created once more and with
/// another class, which no kernel sends. The queue has room for every thread of the view.
#[derive(Drop)]
pub struct Mind {
    view: AgentView,
    cpus: Beliefs,
    queue: RunQueue,
}

impl Model for Mind {
    ghost use Rattle.gs_agent.specs.Mind.{MindState};

    ghost Value = { MindState };

    ghost use Rattle.gs_agent.specs.Held.{mind_view, IsMind};

    ghost view = { mind_view };

    ghost invariant = { IsMind };
}

/// Makes the beliefs of so many CPUs, at most [`MOST_CPUS`], of which nothing is believed. They are made of these
/// if there are as many.
///
/// # Errors
///
/// If out of memory.
fn beliefs_anew(
    beliefs: Beliefs,
    alloc: Global,
    cpus: u16,
    agent: Option<u16>,
) -> Result<Beliefs, AllocError>
    requires { cpus ≤ MOST_CPUS }
    ensures { IfOk result (λ made. made ≡ unknown cpus agent) }
{
    if beliefs.cpus() != cpus {
        return Beliefs::new(alloc, cpus, agent);
    }
    let mut beliefs = beliefs;
    beliefs.forget(agent);
    Ok(beliefs)
}

impl Mind {
    /// Makes the mind of an agent that has heard nothing, on a machine of `cpus` CPUs, at most [`MOST_CPUS`].
    /// No thread is known, nobody is believed to run on any CPU, there is no stamp, and nobody waits. `agent`
    /// is the agent's own CPU, `None` while it attaches.
    ///
    /// # Errors
    ///
    /// If out of memory for the beliefs.
    pub fn new(alloc: Global, cpus: u16, agent: Option<u16>) -> Result<Mind, AllocError>
        requires { cpus ≤ MOST_CPUS }
        ensures { IfOk result (λ mind. mind ≡ nothing cpus agent) }
    {
        let cpus = Beliefs::new(alloc, cpus, agent)?;
        Ok(Mind {
            view: AgentView::new(alloc),
            cpus,
            queue: RunQueue::new(alloc),
        })
    }

    /// Makes the mind that [`Mind::new`] makes, of the memory of this one. Nothing stays of what this one knew,
    /// believed and stamped, nor of who waited.
    ///
    /// # Errors
    ///
    /// If out of memory for the beliefs.
    pub fn renew(self, alloc: Global, cpus: u16, agent: Option<u16>) -> Result<Mind, AllocError>
        requires { cpus ≤ MOST_CPUS }
        ensures { IfOk result (λ mind. mind ≡ nothing cpus agent) }
    {
        let Mind {
            mut view,
            cpus: beliefs,
            mut queue,
        } = self;
        view.clear(alloc);
        queue.clear();
        let cpus = beliefs_anew(beliefs, alloc, cpus, agent)?;
        Ok(Mind { view, cpus, queue })
    }

    /// Returns what is known of each thread. It does not allocate.
    pub fn view(&self) -> &AgentView
        ensures { result.now.entries ≡ self.now.records }
    {
        &self.view
    }

    /// Returns what is believed of each CPU. It does not allocate.
    pub fn beliefs(&self) -> &Beliefs
        ensures { result.now ≡ self.now.cpus }
    {
        &self.cpus
    }

    /// Walks over the tids of those who wait, each once: those of class 0 in the order in which they began to
    /// wait, then those of class 1. It does not allocate.
    pub fn waiting(&self) -> QueueWalk<'_>
        ensures order { result ≡ order self.now.queue }
        ensures apart { Apart (order self.now.queue) }
        ensures waits { HoldsWaiting (look_up self.now.records) self.now.cpus self.now.queue }
    {
        self.queue.walk()
    }

    /// Returns who is believed to run on a CPU, `None` for nobody and past the last CPU. It does not
    /// allocate.
    pub fn believed(&self, cpu: u16) -> Option<Running>
        ensures { result ≡ believed_on self.now.cpus cpu }
    {
        self.cpus.believed(cpu)
    }

    /// Follows a message, and returns what it was to the view. If it applied, the beliefs hear it, and its
    /// thread begins to wait, goes on or stops. Else nothing changes.
    ///
    /// # Errors
    ///
    /// [`ApplyFault::Gap`] if messages about its thread are missing before it. [`ApplyFault::OutOfMemory`] if
    /// it creates a thread of which nothing is known, and memory for its record or for the queue runs out.
    /// Nothing changes then, and the message can be followed later. No other message allocates.
    pub fn follow(&mut self, message: MessageRef<'_>) -> Result<News, ApplyFault>
        ensures word { IfOk result (λ news. word (look_up self.old.records) message.entry ≡ word_of news) }
        ensures picture { OnOk result (picture_of self.new ≡ after_message message.entry (picture_of self.old)) }
        ensures unchanged { OnErr result (self.new ≡ self.old) }
        ensures gap { (result ≡ Err ApplyFault.Gap) ↔ (is_gap (word (look_up self.old.records) message.entry) ≡ true) }
        ensures memory { result ≡ Err ApplyFault.OutOfMemory → begins (look_up self.old.records) message.entry ≡ true }
    {
        let kind = message.kind();
        match kind {
            Kind::TimerTick => {
                self.cpus.hear_as(kind, &message);
                Ok(News::Applied)
            }
            _ => self.follow_change(kind, &message),
        }
    }

    /// Follows a message about a thread, of this kind.
    #[inline(always)]
    fn follow_change(&mut self, kind: Kind, message: &MessageRef<'_>) -> Result<News, ApplyFault>
        requires kind { kind ≡ kind_of message.now }
        requires thread { kind ≢ Kind.TimerTick }
        ensures word { IfOk result (λ news. word (look_up self.old.records) message.now ≡ word_of news) }
        ensures picture { OnOk result (picture_of self.new ≡ after_message message.now (picture_of self.old)) }
        ensures unchanged { OnErr result (self.new ≡ self.old) }
        ensures gap { (result ≡ Err ApplyFault.Gap) ↔ (is_gap (word (look_up self.old.records) message.now) ≡ true) }
        ensures memory { result ≡ Err ApplyFault.OutOfMemory → begins (look_up self.old.records) message.now ≡ true }
    {
        let _spelled = message.as_bytes();
        make_room(&self.view, &mut self.queue, message)?;
        let heard = self.view.hear(kind, message)?;
        let News::Applied = heard.news else {
            return Ok(heard.news);
        };
        self.cpus.hear_as(kind, message);
        // Whoever waited waits then, so the queue is not asked.
        if is_mask_alone(kind, message) {
            return Ok(News::Applied);
        }
        requeue(
            &self.view,
            &self.cpus,
            &mut self.queue,
            kind,
            message,
            heard.ready,
        );
        Ok(heard.news)
    }

    /// Takes a page in, of threads that live, one record at a time, in increasing order of tid. What a record
    /// tells of its thread is known then, whatever was known of it before. The thread is believed to run where
    /// the record says, and begins to wait, goes on or stops. So does whoever was believed to run there.
    ///
    /// # Errors
    ///
    /// If out of memory for the records of threads of which nothing was known, or for the queue. Nothing
    /// changes then.
    pub fn rebuild(&mut self, page: &Page) -> Result<(), AllocError>
        ensures picture { OnOk result (picture_of self.new ≡ after_page page.now.records (picture_of self.old)) }
        ensures unchanged { OnErr result (self.new ≡ self.old) }
    {
        make_room_for_page(&mut self.queue, page)?;
        self.view.reserve(page)?;
        follow_records(
            &mut self.view,
            &mut self.cpus,
            &mut self.queue,
            &page.records,
        );
        Ok(())
    }

    /// Takes a page in that is given as bytes, as [`Mind::rebuild`] does. Each record is read from its bytes, and
    /// there is no list of them in between.
    ///
    /// # Errors
    ///
    /// As of [`Mind::rebuild`].
    pub fn rebuild_written(&mut self, page: &WrittenPage) -> Result<(), AllocError>
        ensures picture { OnOk result (picture_of self.new ≡ after_page page.now.records (picture_of self.old)) }
        ensures unchanged { OnErr result (self.new ≡ self.old) }
    {
        make_room_for_written(&mut self.queue, page)?;
        self.view.reserve_written(page)?;
        follow_written(
            &mut self.view,
            &mut self.cpus,
            &mut self.queue,
            page.records(),
        );
        Ok(())
    }

    /// Makes this CPU the agent's own. What is known and believed stays, and so does who waits. It does not
    /// allocate.
    pub fn move_to(&mut self, cpu: u16)
        ensures { self.new ≡ moved cpu self.old }
    {
        self.cpus.set_agent(Some(cpu));
    }

    /// Notes that a thread was stamped for a CPU: it waits no more. The thread that an older stamp there
    /// named may wait again. Past the last CPU no stamp is noted. It does not allocate.
    #[inline(always)]
    pub fn stamp(&mut self, cpu: u16, tid: u32)
        ensures { self.new ≡ thinks self.old (after_stamp cpu tid (picture_of self.old)) }
    {
        let older = self.cpus.stamp_on(cpu);
        self.cpus.stamp(cpu, tid);
        settle_stamped(&self.view, &self.cpus, &mut self.queue, cpu, tid);
        settle_if_any(&self.view, &self.cpus, &mut self.queue, older);
    }

    /// Follows what was in the slot of a CPU, which is collected. If its transaction landed, its
    /// outcome is believed, and no stamp there is uncollected any more. That may make three threads wait, or
    /// wait no more. They are the transaction's own, the one that the stamp there named, and the one that was
    /// believed to run where the transaction's thread was found. If the slot is idle, or its transaction has
    /// not landed, nothing changes. It does not allocate.
    pub fn collect(&mut self, cpu: u16, slot: SlotState)
        ensures { self.new ≡ thinks self.old (after_slot cpu slot (picture_of self.old)) }
    {
        let SlotState::Done {
            stamp,
            outcome,
            at,
            ..
        } = slot
        else {
            return;
        };
        self.learn(cpu, &stamp, outcome, at);
    }

    /// Learns what became of a transaction that was stamped for a CPU and landed, and on which CPU its thread
    /// was then. [`Mind::collect`] does so of a slot that has all this. It does not allocate.
    #[inline(always)]
    pub fn learn(&mut self, cpu: u16, stamp: &Stamp, outcome: Outcome, at: Option<u16>)
        ensures { (seen : ℕ) → self.new ≡ thinks self.old (after_slot cpu (SlotState.Done stamp.now outcome at seen) (picture_of self.old)) }
    {
        if let (Outcome::Placed | Outcome::AlreadyPlaced, Some(place)) = (outcome, at)
            && place < self.cpus.cpus()
            && self.cpus.stamp_on(cpu) == Some(stamp.tid)
        {
            self.learn_placed(cpu, stamp, place);
        } else {
            self.learn_other(cpu, stamp, outcome, at);
        }
    }

    /// Learns that the thread which the stamp on a CPU names is on a CPU now. It did not wait before, since it was
    /// named, and does not wait then, since it is believed to run. So only the one that it displaces is settled.
    #[inline(always)]
    fn learn_placed(&mut self, cpu: u16, stamp: &Stamp, place: u16)
        requires place { place < length self.old.cpus.believed }
        requires named { stamp_on self.old.cpus cpu ≡ Some stamp.now.tid }
        ensures { (seen : ℕ) → self.new ≡ thinks self.old (after_slot cpu (SlotState.Done stamp.now Outcome.Placed (Some place) seen) (picture_of self.old)) }
    {
        let displaced = running_on(&self.cpus, Some(place));
        self.cpus.place(place, stamp.tid, stamp.tseq);
        self.cpus.unstamp_named(cpu, stamp.tid);
        settle_if_any(&self.view, &self.cpus, &mut self.queue, displaced);
    }

    /// Learns what became of a transaction, whichever thread the stamp on its CPU names.
    #[inline(never)]
    fn learn_other(&mut self, cpu: u16, stamp: &Stamp, outcome: Outcome, at: Option<u16>)
        ensures { (seen : ℕ) → self.new ≡ thinks self.old (after_slot cpu (SlotState.Done stamp.now outcome at seen) (picture_of self.old)) }
    {
        let named = other_than(stamp.tid, self.cpus.stamp_on(cpu));
        let displaced = running_on(&self.cpus, at);
        self.cpus.learn(outcome, at, stamp.tid, stamp.tseq);
        self.cpus.unstamp(cpu);
        settle_found(&self.view, &self.cpus, &mut self.queue, at, stamp.tid);
        settle_if_any(&self.view, &self.cpus, &mut self.queue, named);
        settle_if_any(&self.view, &self.cpus, &mut self.queue, displaced);
    }

    /// Returns what a policy plans by all that the agent has in mind, if the other class holds the CPUs of
    /// `taken` and no other. Whatever the policy, its plan is safe to stamp. Nothing is changed.
    ///
    /// # Errors
    ///
    /// If out of memory for the choices.
    pub fn plan<P: Policy>(
        &self,
        alloc: Global,
        policy: &P,
        taken: Mask,
    ) -> Result<Vec<Choice>, AllocError>
        ensures plan { IfOk result (λ r. r.items ≡ P.chosen policy.now (shown_in self.now (has taken))) }
        ensures safe { IfOk result (λ r. IsSafePlan (shown_in self.now (has taken)) r.items) }
    {
        let _each_once = self.waiting();
        let cpus = CpuBeliefs {
            beliefs: &self.cpus,
            taken,
        };
        policy.plan(alloc, &self.view, &cpus, &self.queue)
    }

    /// Puts what a policy plans into a list, in place of what was there, as [`Mind::plan`] returns it. Nothing else is
    /// changed.
    ///
    /// # Errors
    ///
    /// If out of memory for the choices. The list is empty then.
    #[inline(always)]
    pub fn plan_into<P: Policy>(
        &self,
        alloc: Global,
        policy: &P,
        taken: Mask,
        choices: &mut Vec<Choice>,
    ) -> Result<(), AllocError>
        ensures plan { OnOk result (choices.new.items ≡ P.chosen policy.now (shown_in self.now (has taken))) }
        ensures safe { OnOk result (IsSafePlan (shown_in self.now (has taken)) choices.new.items) }
        ensures none { OnErr result (choices.new.items ≡ []) }
    {
        let _each_once = self.waiting();
        let cpus = CpuBeliefs {
            beliefs: &self.cpus,
            taken,
        };
        policy.plan_into(alloc, &self.view, &cpus, &self.queue, choices)
    }

    /// Returns how many choices a policy's plan has by all that the agent has in mind, if the other class
    /// holds the CPUs of `taken` and no other. They are as many as [`Mind::plan`] returns unless out of
    /// memory. It does not allocate, and changes nothing.
    pub fn count<P: Counted>(&self, policy: &P, taken: Mask) -> usize
        ensures { result ≡ length (P.chosen policy.now (shown_in self.now (has taken))) }
    {
        let cpus = CpuBeliefs {
            beliefs: &self.cpus,
            taken,
        };
        policy.count(&self.view, &cpus, &self.queue)
    }
}
