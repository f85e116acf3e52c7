//! Rounds of one kind, each about another thread.

ghost use Rattle.std.specs.Prelude.{◌<◌, ◌≤◌, IfSome};

use crate::enclave::Enclave;
use gs_kernel::LEAST_CPUS;
use gs_layout::MOST_TIDS;
use gs_status::MOST_CPUS;
use std::alloc::Global;

/// What happens in a round.
#[derive(Clone, Copy, PartialEq, Eq, Debug)]
pub(crate) enum Round {
    /// A thread is told its mask anew, and the message is drained.
    Affinity,
    /// A thread is placed, blocks and wakes, and the messages are drained.
    Block,
    /// What the policy plans is stamped and committed; all that were placed yield, and the messages are drained.
    Decision,
}

/// What happens again and again.
#[derive(Clone, Copy, PartialEq, Eq, Debug)]
pub(crate) enum Kind {
    /// Rounds of one agent.
    Rounds(Round),
    /// A new agent takes the place of the one before, and is told of all threads.
    Attaches,
}

impl Kind {
    /// The kind that a word names.
    pub(crate) fn named(word: &str) -> Option<Kind> {
        match word {
            "affinities" => Some(Kind::Rounds(Round::Affinity)),
            "blocks" => Some(Kind::Rounds(Round::Block)),
            "decides" => Some(Kind::Rounds(Round::Decision)),
            "attaches" => Some(Kind::Attaches),
            _ => None,
        }
    }
}

/// A prime above the most threads, so that its multiples pass through all of them.
const STRIDE: u32 = 2_654_435_761;

/// How many rounds there are, and among how many threads and CPUs.
#[derive(Clone, Copy)]
pub(crate) struct Size {
    rounds: u32,
    threads: u32,
    cpus: u16,
}

impl Size {
    /// The numbers of rounds, of 1 to 65,536 threads and of 2 to 128 CPUs, `None` if that is not what the
    /// words tell.
    pub(crate) fn told(rounds: &str, threads: &str, cpus: &str) -> Option<Size>
        ensures threads { IfSome result (λ size. 0 < size.threads) }
        ensures few { IfSome result (λ size. LEAST_CPUS ≤ size.cpus) }
        ensures most { IfSome result (λ size. size.cpus ≤ MOST_CPUS) }
    {
        let size = Size {
            rounds: rounds.parse::<u32>().ok()?,
            threads: threads.parse::<u32>().ok()?,
            cpus: cpus.parse::<u16>().ok()?,
        };
        let fits = (1..=MOST_TIDS).contains(&size.threads)
            && (LEAST_CPUS..=MOST_CPUS).contains(&size.cpus);
        fits.then_some(size)
    }

    /// The thread and the CPU that a round is about. No thread is on the first CPU.
    fn subject(self, turn: u32) -> (u32, u16)
        requires threads { 0 < self.threads }
        requires cpus { LEAST_CPUS ≤ self.cpus }
        ensures first { 1 ≤ result.0 }
        ensures last { result.0 ≤ self.threads }
        ensures other { 1 ≤ result.1 }
        ensures below { result.1 < self.cpus }
    {
        let tid = turn.wrapping_mul(STRIDE) % self.threads + 1;
        let cpu = (turn % (self.cpus as u32 - 1)) as u16 + 1;
        (tid, cpu)
    }

    /// Runs the rounds in a new enclave. How much came of them: messages drained, slots landed or threads told of.
    /// `None` if out of memory for the enclave or for an agent.
    pub(crate) fn run(self, alloc: Global, kind: Kind) -> Option<u64>
        requires threads { 0 < self.threads }
        requires few { LEAST_CPUS ≤ self.cpus }
        requires most { self.cpus ≤ MOST_CPUS }
    {
        let enclave = Enclave::open(alloc, self.threads, self.cpus)?;
        match kind {
            Kind::Rounds(round) => Some(self.run_rounds(round, enclave)),
            Kind::Attaches => self.attach_all(enclave),
        }
    }

    /// Runs rounds of one agent: how much came of them.
    fn run_rounds(self, round: Round, mut enclave: Enclave) -> u64
        requires threads { 0 < self.threads }
        requires cpus { LEAST_CPUS ≤ self.cpus }
    {
        let mut sum: u64 = 0;
        for turn in 0..self.rounds {
            let came = self.run_round(round, &mut enclave, turn);
            sum = sum.wrapping_add(came as u64);
        }
        sum
    }

    /// How much came of a round.
    fn run_round(self, round: Round, enclave: &mut Enclave, turn: u32) -> usize
        requires threads { 0 < self.threads }
        requires cpus { LEAST_CPUS ≤ self.cpus }
    {
        let (tid, cpu) = self.subject(turn);
        match round {
            Round::Affinity => {
                enclave.tell_mask(tid);
                enclave.drain()
            }
            Round::Block => {
                enclave.place(tid, cpu);
                enclave.block_and_wake(tid);
                enclave.drain()
            }
            Round::Decision => {
                let landed = enclave.decide();
                enclave.drain();
                landed
            }
        }
    }

    /// One agent after another is told of all threads: of how many in all. `None` if out of memory for one.
    fn attach_all(self, mut enclave: Enclave) -> Option<u64> {
        let mut sum: u64 = 0;
        for _ in 0..self.rounds {
            let (left, told) = enclave.attach(self.threads)?;
            enclave = left;
            sum = sum.wrapping_add(told as u64);
        }
        Some(sum)
    }
}
