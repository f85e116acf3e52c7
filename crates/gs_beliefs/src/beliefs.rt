ghost use Rattle.std.specs.Prelude.{◌≡◌, ◌≤◌, ◌&&◌, nat_lt, ℕ, is_none, IfOk, length};
ghost use Rattle.gs_layout.specs.Spelling.{kind_of};
ghost use Rattle.gs_status.specs.Masks.{has};
ghost use Rattle.gs_beliefs.specs.Cpus.{believed_on, clears, is_believed, is_named, places, raises, stamp_on, stamps, ticks, unknown, unstamps};
ghost use Rattle.gs_beliefs.specs.Belief.{after_outcome, hears};

use crate::by_thread::ByThread;
use crate::running::{Running, raise_at, ticked};
use gs_layout::{Kind, Outcome};
use gs_reader::MessageRef;
use gs_status::{MOST_CPUS, Mask};
use std::alloc::{AllocError, Global};
use std::marker::Model;

/// What an agent believes of each CPU. It says who runs there, at which sequence number and for how many
/// ticks, and which thread an uncollected stamp names. Beside that it keeps the agent's own CPU.
///
/// A belief lags behind the kernel by the messages that were not read yet. There are at most [`MOST_CPUS`]
/// CPUs, and a call that names a CPU past the last one changes nothing. No call but [`Beliefs::new`]
/// allocates, and none but that and [`Beliefs::forget`] looks at every CPU. The CPUs of a thread are found by its tid.
#[derive(Drop)]
pub struct Beliefs {
    beliefs: Vec<Option<Running>>,
    running: ByThread,
    stamps: ByThread,
    agent: Option<u16>,
}

impl Model for Beliefs {
    ghost use Rattle.gs_beliefs.specs.Cpus.{Cpus};
    ghost use Rattle.gs_beliefs.specs.Held.{IsCpus};

    ghost Value = { Cpus };

    ghost view = { λ s. record { believed = s.beliefs.items; stamped = s.stamps; agent = s.agent } };

    ghost invariant = { λ s. IsCpus s.beliefs.items s.running s.stamps };
}

impl Beliefs {
    /// Makes the beliefs of so many CPUs, at most [`MOST_CPUS`], of which nothing is believed yet: nobody
    /// runs, and there is no stamp. `agent` is the agent's own CPU, `None` while it attaches.
    ///
    /// # Errors
    ///
    /// `AllocError` if out of memory.
    pub fn new(alloc: Global, cpus: u16, agent: Option<u16>) -> Result<Beliefs, AllocError>
        requires { cpus ≤ MOST_CPUS }
        ensures { IfOk result (λ made. made ≡ unknown cpus agent) }
    {
        Ok(Beliefs {
            beliefs: vec![in alloc; None; cpus as usize]?,
            running: ByThread::new(alloc, cpus)?,
            stamps: ByThread::new(alloc, cpus)?,
            agent,
        })
    }

    /// Makes what [`Beliefs::new`] makes, of as many CPUs as these: nothing is believed any more, and each stamp is
    /// forgotten. It looks at every CPU.
    pub fn forget(&mut self, agent: Option<u16>)
        ensures { self.new ≡ unknown (length self.old.believed) agent }
    {
        self.beliefs.fill(None);
        self.running.clear();
        self.stamps.clear();
        self.set_agent(agent);
    }

    /// Returns how many CPUs there are, at most [`MOST_CPUS`].
    pub fn cpus(&self) -> u16
        ensures count { result ≡ length self.now.believed }
        ensures stamps { result ≡ length self.now.stamped }
        ensures most { result ≤ MOST_CPUS }
    {
        self.beliefs.len() as u16
    }

    /// Returns the agent's own CPU, `None` while it attaches.
    pub fn agent(&self) -> Option<u16>
        ensures { result ≡ self.now.agent }
    {
        self.agent
    }

    /// Returns who is believed to run on a CPU, `None` for nobody and past the last CPU.
    pub fn believed(&self, cpu: u16) -> Option<Running>
        ensures { result ≡ believed_on self.now cpu }
    {
        *self.beliefs.get(cpu as usize)?
    }

    /// Returns the thread that an uncollected stamp on a CPU names, `None` if there is no such stamp and past
    /// the last CPU.
    pub fn stamp_on(&self, cpu: u16) -> Option<u32>
        ensures { result ≡ stamp_on self.now cpu }
    {
        self.stamps.on(cpu)
    }

    /// Returns whether some CPU is believed to run a thread.
    #[inline(always)]
    pub fn runs(&self, tid: u32) -> bool
        ensures { result ≡ is_believed self.now tid }
    {
        self.running.has(tid)
    }

    /// Returns whether some uncollected stamp names a thread.
    #[inline(always)]
    pub fn names(&self, tid: u32) -> bool
        ensures { result ≡ is_named self.now tid }
    {
        self.stamps.has(tid)
    }

    /// Returns the CPUs that have no uncollected stamp.
    pub(crate) fn unstamped(&self) -> Mask
        ensures { (c : ℕ) → has result c ≡ (nat_lt c (length self.now.believed) && is_none (stamp_on self.now c)) }
    {
        self.stamps.vacant()
    }

    /// Returns the CPUs on which nobody is believed to run.
    pub(crate) fn vacant(&self) -> Mask
        ensures { (c : ℕ) → has result c ≡ (nat_lt c (length self.now.believed) && is_none (believed_on self.now c)) }
    {
        self.running.vacant()
    }

    /// Sets the agent's own CPU, or `None` while it attaches.
    pub fn set_agent(&mut self, agent: Option<u16>)
        ensures { self.new ≡ record self.old { agent = agent } }
    {
        self.agent = agent;
    }

    /// Clears the belief of a thread, so that it is believed to run nowhere.
    #[inline(always)]
    pub fn clear(&mut self, tid: u32)
        ensures { self.new ≡ clears tid self.old }
    {
        if let Some(cpu) = self.running.first_of(tid) {
            self.beliefs[cpu as usize] = None;
            self.running.vacate(cpu, tid);
        }
    }

    /// Gives a thread this sequence number, if it is believed to run.
    #[inline(always)]
    pub fn raise(&mut self, tid: u32, tseq: u32)
        ensures { self.new ≡ raises tid tseq self.old }
    {
        if let Some(cpu) = self.running.first_of(tid) {
            raise_at(&mut self.beliefs[cpu as usize], tid, tseq);
        }
    }

    /// Counts a tick of a CPU's timer for whoever is believed to run there, up to
    /// [`MOST_TICKS`](crate::MOST_TICKS).
    #[inline(always)]
    pub fn tick(&mut self, cpu: u16)
        ensures { self.new ≡ ticks cpu self.old }
    {
        let at = cpu as usize;
        if at >= self.beliefs.len() {
            return;
        }
        self.beliefs[at] = ticked(self.beliefs[at]);
    }

    /// Takes in a message that applied to the view. A tick counts for its CPU. A message that takes its
    /// thread off a CPU clears the thread's belief, and any other gives it the message's number.
    pub fn hear(&mut self, message: &MessageRef<'_>)
        ensures { self.new ≡ hears message.now self.old }
    {
        self.hear_as(message.kind(), message);
    }

    /// Takes in a message of this kind that applied to the view, as [`Beliefs::hear`] does.
    #[inline(always)]
    pub fn hear_as(&mut self, kind: Kind, message: &MessageRef<'_>)
        requires { kind ≡ kind_of message.now }
        ensures { self.new ≡ hears message.now self.old }
    {
        match kind {
            Kind::TimerTick => {
                if let Some(cpu) = message.cpu() {
                    self.tick(cpu);
                }
            }
            _ => {
                if message.takes_off_as(kind) {
                    self.clear(message.tid());
                } else {
                    self.raise(message.tid(), message.tseq());
                }
            }
        }
    }

    /// Begins the belief that a thread runs on a CPU, at this sequence number and with no tick yet, and
    /// nowhere else. Whoever was believed to run there does so no more.
    #[inline(always)]
    pub fn place(&mut self, cpu: u16, tid: u32, tseq: u32)
        ensures { self.new ≡ places cpu tid tseq self.old }
    {
        if cpu < self.cpus() {
            self.clear(tid);
            self.beliefs[cpu as usize] = Some(Running {
                tid,
                tseq,
                ticks: 0,
            });
            self.running.seat(cpu, tid);
        }
    }

    /// Notes that an uncollected stamp on a CPU names a thread.
    pub fn stamp(&mut self, cpu: u16, tid: u32)
        ensures { self.new ≡ stamps cpu tid self.old }
    {
        self.stamps.set(cpu, Some(tid));
    }

    /// Notes that a CPU has no uncollected stamp.
    pub fn unstamp(&mut self, cpu: u16)
        ensures { self.new ≡ unstamps cpu self.old }
    {
        self.stamps.set(cpu, None);
    }

    /// Notes that a CPU has no uncollected stamp any more, where the one that it had named this thread.
    #[inline(always)]
    pub fn unstamp_named(&mut self, cpu: u16, tid: u32)
        requires { stamp_on self.old cpu ≡ Some tid }
        ensures { self.new ≡ unstamps cpu self.old }
    {
        self.stamps.vacate(cpu, tid);
    }

    /// Takes in what became of a stamp: the outcome, the CPU that the thread was then on, the thread, and the
    /// sequence number that was stamped. `Placed` and `AlreadyPlaced` say that the thread is on that CPU; any
    /// other outcome changes nothing.
    #[inline(always)]
    pub fn learn(&mut self, outcome: Outcome, at: Option<u16>, tid: u32, tseq: u32)
        ensures { self.new ≡ after_outcome outcome at tid tseq self.old }
    {
        if let (Outcome::Placed | Outcome::AlreadyPlaced, Some(cpu)) = (outcome, at) {
            self.place(cpu, tid, tseq);
        }
    }
}
