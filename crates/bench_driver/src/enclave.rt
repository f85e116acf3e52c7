//! An enclave without a script: a kernel with its ring, the role of the agent, and the slots.

ghost use Rattle.std.specs.Prelude.{◌≡◌, ◌≤◌, false};
ghost use Rattle.gs_status.specs.Masks.{has};

use gs_agent::Role;
use gs_kernel::{Kernel, LEAST_CPUS, LEAST_GENERATION, Landing, MOST_HISTORY, Settings};
use gs_layout::{Class, Facts, Name};
use gs_policy::{Choice, FirstCome};
use gs_ring::ByteRing;
use gs_slots::{Flags, Region, SlotState, Stamp};
use gs_status::{MOST_CPUS, Mask};
use std::alloc::Global;

/// The bytes of the ring, the most that one may have.
const RING: usize = 1_048_576;

/// So many creations wait at most until they are drained: their messages, of 40 bytes each, fit into the ring.
const CREATIONS: u32 = 16_384;

/// The most messages that are drained if only those of a round wait.
const MANY: u32 = 65_536;

/// The threads of a page.
const PAGE: u16 = 1_000;

/// An enclave in which all threads may run on all CPUs but the first, which is the agent's.
#[derive(Drop)]
pub(crate) struct Enclave {
    alloc: Global,
    kernel: Kernel<ByteRing>,
    role: Role<FirstCome>,
    region: Region,
    mask: Mask,
    /// What was decided last. The next decision has its memory.
    choices: Vec<Choice>,
    /// What became of the slots of the last commit. The next one has its memory.
    landings: Vec<Landing>,
}

/// The CPUs but the first, of so many.
fn others(cpus: u16) -> Mask
    requires few { LEAST_CPUS ≤ cpus }
    requires most { cpus ≤ MOST_CPUS }
    ensures { has result 0 ≡ false }
{
    Mask::new(u128::MAX >> (MOST_CPUS - cpus)).without(0)
}

/// A kernel of so many CPUs, with an empty ring. `None` if out of memory, as of those below.
fn new_kernel(alloc: Global, cpus: u16) -> Option<Kernel<ByteRing>>
    requires few { LEAST_CPUS ≤ cpus }
    requires most { cpus ≤ MOST_CPUS }
{
    let settings = Settings {
        cpus,
        first_tseq: 0,
        first_generation: LEAST_GENERATION,
        history: MOST_HISTORY,
    };
    let ring = ByteRing::new(alloc, RING).ok()?;
    Kernel::new(alloc, settings, ring).ok()
}

/// An agent that knows of no thread, and its slots, all idle.
fn new_agent(alloc: Global, cpus: u16) -> Option<(Role<FirstCome>, Region)>
    requires { cpus ≤ MOST_CPUS }
{
    let region = Region::new(alloc, cpus).ok()?;
    let role = Role::new(alloc, FirstCome, cpus, LEAST_GENERATION, 0).ok()?;
    Some((role, region))
}

impl Enclave {
    /// An enclave of so many CPUs and no thread.
    fn new(alloc: Global, cpus: u16) -> Option<Enclave>
        requires few { LEAST_CPUS ≤ cpus }
        requires most { cpus ≤ MOST_CPUS }
    {
        let (role, region) = new_agent(alloc, cpus)?;
        let kernel = new_kernel(alloc, cpus)?;
        let mask = others(cpus);
        Some(Enclave {
            alloc,
            kernel,
            role,
            region,
            mask,
            choices: Vec::new(alloc),
            landings: Vec::new(alloc),
        })
    }

    /// An enclave of so many CPUs and threads, of all of which the agent knows.
    pub(crate) fn open(alloc: Global, threads: u32, cpus: u16) -> Option<Enclave>
        requires few { LEAST_CPUS ≤ cpus }
        requires most { cpus ≤ MOST_CPUS }
    {
        let name = Name::new(b"a")?;
        let mut enclave = Enclave::new(alloc, cpus)?;
        enclave.create(threads, name);
        Some(enclave)
    }

    /// So many threads are created.
    fn create(&mut self, threads: u32, name: Name) {
        let facts = Facts {
            mask: self.mask,
            runnable: true,
            class: Class::Zero,
            name,
        };
        for number in 0..threads {
            let _ = self.kernel.create(&facts);
            if number % CREATIONS == 0 {
                self.drain();
            }
        }
        self.drain();
    }

    /// The agent drains what waits: how many messages.
    pub(crate) fn drain(&mut self) -> usize
        ensures { result ≤ MANY }
    {
        let mut head = self.kernel.taker();
        self.role.drain(&mut head, MANY).count
    }

    /// The agent stamps a choice, as the machine does.
    fn stamp(&mut self, choice: Choice) {
        let Some((_, tseq)) = self.role.view().get(choice.tid) else {
            return;
        };
        if choice.cpu >= self.region.cpus() {
            return;
        }
        let stamp = Stamp {
            generation: self.role.generation(),
            tid: choice.tid,
            tseq,
            flags: Flags::single(choice.preempt),
        };
        if self.region.stamp(choice.cpu, &stamp).is_ok() {
            self.role.note_stamp(choice.cpu, choice.tid);
        }
    }

    /// The slot of a CPU lands, and the agent takes in what became of it.
    fn land(&mut self, cpu: u16) {
        if cpu >= self.region.cpus() || cpu >= self.kernel.settings().cpus {
            return;
        }
        let Ok(SlotState::Stamped { stamp }) = self.region.state(cpu) else {
            return;
        };
        if let Ok(landing) = self.kernel.land_stamp(cpu, &stamp) {
            self.role.learn(cpu, &stamp, landing.outcome, landing.at);
            self.region.clear_slot(cpu);
            let _ = self.landings.push(landing);
        }
    }

    /// All slots land, as a commit of the machine does it if there are no groups: how many.
    fn commit(&mut self) -> usize {
        if self.kernel.commit_refusal(self.mask).is_some() {
            return 0;
        }
        self.landings.clear();
        let mut left = self.mask.both(self.region.may_be_busy());
        for _ in 0..MOST_CPUS {
            let Some(cpu) = left.lowest() else {
                break;
            };
            self.land(cpu);
            left = left.without(cpu);
        }
        self.landings.len()
    }

    /// A thread is placed on a CPU by a transaction.
    pub(crate) fn place(&mut self, tid: u32, cpu: u16) {
        self.stamp(Choice {
            cpu,
            tid,
            preempt: false,
        });
        self.commit();
    }

    /// A thread blocks and wakes.
    pub(crate) fn block_and_wake(&mut self, tid: u32) {
        let _ = self.kernel.block(tid);
        let _ = self.kernel.wake(tid);
    }

    /// A thread is told its mask anew.
    pub(crate) fn tell_mask(&mut self, tid: u32) {
        let _ = self.kernel.affinity(tid, self.mask);
    }

    /// What the policy plans is stamped and committed, and all that were placed yield: how many slots landed.
    pub(crate) fn decide(&mut self) -> usize {
        let taken = self.kernel.taken();
        if self
            .role
            .decide_into(self.alloc, taken, &mut self.choices)
            .is_err()
        {
            return 0;
        }
        for n in 0..self.choices.len() {
            let chosen = self.choices.get(n).copied();
            if let Some(choice) = chosen {
                self.stamp(choice);
            }
        }
        let landed = self.commit();
        for choice in &self.choices {
            let _ = self.kernel.yield_cpu(choice.tid);
        }
        landed
    }

    /// A new agent takes the place of the one before, in its memory. Returns the enclave, and how many threads the agent was
    /// told of. `None` if out of memory.
    pub(crate) fn attach(self, threads: u32) -> Option<(Enclave, usize)> {
        let Enclave {
            alloc,
            mut kernel,
            role,
            region,
            mask,
            choices,
            landings,
        } = self;
        let _ = kernel.leave();
        let _ = kernel.begin();
        let generation = kernel.attaching()?;
        let cpus = kernel.settings().cpus;
        let role = role.succeed(alloc, FirstCome, cpus, generation).ok()?;
        let mut enclave = Enclave {
            alloc,
            kernel,
            role,
            region,
            mask,
            choices,
            landings,
        };
        let told = enclave.load(threads)?;
        let _ = enclave.kernel.activate(0);
        enclave.role.promote(generation, 0);
        Some((enclave, told))
    }

    /// The agent is told of all threads, page by page: how many.
    fn load(&mut self, threads: u32) -> Option<usize> {
        let mut told: usize = 0;
        for _ in 0..=threads / PAGE as u32 {
            told = told.wrapping_add(self.load_page()?);
        }
        Some(told)
    }

    /// The agent is told of the next page, which goes through its bytes: of how many threads.
    fn load_page(&mut self) -> Option<usize> {
        let Some(from) = self.role.next_page() else {
            return Some(0);
        };
        let page = self.kernel.dump_written(self.alloc, from, PAGE).ok()?;
        self.role.rebuild_written(&page).ok()?;
        self.kernel.note_written(&page);
        Some(page.count() as usize)
    }
}
