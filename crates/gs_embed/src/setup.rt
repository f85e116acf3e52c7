ghost use Rattle.std.specs.Prelude.{◌≡◌, ℕ, None, IfOk, IfErr};
ghost use Rattle.gs_replies.specs.Config.{config_fault, IsFault as IsConfigFault};
ghost use Rattle.gs_core.specs.Machine.{planning, start};
ghost use Rattle.gs_core.specs.Safe.{Safe, IsFaithful};
ghost use Rattle.gs_embed.specs.Setup.{config_of, defaults, setup_fault, IsFault};

use crate::fault::SetupFault;
use gs_core::{Config, ConfigFault, Machine};
use gs_kernel::{LEAST_GENERATION, MOST_FIRST_TSEQ, MOST_HISTORY};
use gs_policy::Counted;
use gs_ring::MOST_CAPACITY;
use std::alloc::Global;

/// What an enclave is opened with. Any value can be set; [`Setup::open`] says which one is wrong.
#[derive(Clone, Copy, PartialEq, Eq, Debug)]
pub struct Setup {
    /// How many CPUs there are, 2 to 128. They are numbered from 0, and the first agent is on CPU 0.
    pub cpus: u16,
    /// The capacity of the message ring in bytes: a multiple of 8 from 128 to 1,048,576. A message that does not fit tears the
    /// enclave down.
    pub ring: u32,
    /// The most entries of the journal, and the most transactions, 2 to 16,777,216.
    pub history: u32,
    /// The generation of the first agent, 1 to 4,294,967,295.
    pub first_generation: u32,
    /// The number that each thread's sequence numbers begin above, 0 to 4,294,967,294.
    pub first_sequence: u32,
}

impl Setup {
    /// Returns a set-up of so many CPUs, 2 to 128. All else is what a script's header has that does not say it: the most
    /// entries, generation 1, and sequence numbers above 0. The ring is the largest, of 1,048,576 bytes.
    pub fn new(cpus: u16) -> Setup
        ensures { result ≡ defaults cpus }
    {
        Setup {
            cpus,
            ring: MOST_CAPACITY as u32,
            history: MOST_HISTORY,
            first_generation: LEAST_GENERATION,
            first_sequence: 0,
        }
    }

    /// Returns the same with a ring of so many bytes: a multiple of 8 from 128 to 1,048,576.
    pub fn ring(self, bytes: u32) -> Setup
        ensures { result ≡ record self { ring = bytes } }
    {
        Setup {
            ring: bytes,
            ..self
        }
    }

    /// Returns the same with a journal of at most so many entries, and so many transactions at most: 2 to 16,777,216.
    pub fn history(self, entries: u32) -> Setup
        ensures { result ≡ record self { history = entries } }
    {
        Setup {
            history: entries,
            ..self
        }
    }

    /// Returns the same with a first agent of this generation: 1 to 4,294,967,295.
    pub fn first_generation(self, generation: u32) -> Setup
        ensures { result ≡ record self { first_generation = generation } }
    {
        Setup {
            first_generation: generation,
            ..self
        }
    }

    /// Returns the same with sequence numbers that begin above this one: 0 to 4,294,967,294. A thread's first message has the
    /// next number.
    pub fn first_sequence(self, number: u32) -> Setup
        ensures { result ≡ record self { first_sequence = number } }
    {
        Setup {
            first_sequence: number,
            ..self
        }
    }

    /// Opens an enclave in which nothing happened but that the first agent is active on CPU 0. Its agents plan by this policy.
    /// It is the machine that [`Machine::new`] makes of these values.
    ///
    /// # Errors
    ///
    /// The first of these that applies: `BadCpus`, `BadRing`, `BadFirstSequence`, `BadFirstGeneration` or `BadHistory` if that value is
    /// out of its range, else `OutOfMemory` if out of memory.
    ///
    /// # Examples
    ///
    /// A program that opens an enclave of three CPUs, and hands the machine on:
    ///
    /// ```
    /// match Setup::new(3).ring(4096).open(rt.alloc(), FirstCome) {
    ///     Ok(mut machine) => ExitCode::from(run(&rt, &mut machine).is_err() as u8),
    ///     Err(fault) => {
    ///         let _ = eprintln!(rt; "{fault}");
    ///         ExitCode::FAILURE
    ///     }
    /// }
    /// ```
    #[tactic(auto, unfolding(gs_replies::specs::Config::config_fault))]
    pub fn open<P: Counted + Copy>(self, alloc: Global, policy: P) -> Result<Machine<P>, SetupFault>
        ensures ok { IfOk result (λ m. m ≡ start (config_of self policy)) }
        ensures fits { IfOk result (λ _. setup_fault self ≡ None) }
        ensures fault { IfErr result (IsFault (setup_fault self)) }
        ensures safe { IfOk result (λ m. Safe (planning P.chosen m)) }
        ensures faithful { IfOk result (λ m. IsFaithful (planning P.chosen m)) }
    {
        match Machine::new(alloc, self.config(policy)) {
            Ok(machine) => Ok(machine),
            Err(fault) => Err(self.told(fault)),
        }
    }

    /// Returns the configuration of these values.
    #[tactic(auto, unfolding(gs_replies::specs::Config::config_fault, crate::specs::Setup::setup_fault))]
    fn config<P>(self, policy: P) -> Config<P>
        ensures value { result ≡ config_of self policy }
        ensures fits { config_fault result ≡ None → setup_fault self ≡ None }
    {
        Config {
            cpus: self.cpus,
            ring: self.ring,
            first_tseq: self.first_sequence,
            first_generation: self.first_generation,
            history: self.history,
            policy,
        }
    }

    /// Returns a configuration's fault with the value that is wrong.
    #[tactic(auto, unfolding(gs_replies::specs::Config::config_fault, crate::specs::Setup::setup_fault))]
    fn told(self, fault: ConfigFault) -> SetupFault
        requires { IsConfigFault (config_fault {P = ℕ} (config_of self 0)) fault }
        ensures { IsFault (setup_fault self) result }
    {
        match fault {
            ConfigFault::BadCpus => SetupFault::BadCpus { cpus: self.cpus },
            ConfigFault::BadRing => SetupFault::BadRing { ring: self.ring },
            ConfigFault::BadFirst if self.first_sequence > MOST_FIRST_TSEQ => {
                SetupFault::BadFirstSequence {
                    first_sequence: self.first_sequence,
                }
            }
            ConfigFault::BadFirst => SetupFault::BadFirstGeneration {
                first_generation: self.first_generation,
            },
            ConfigFault::BadHistory => SetupFault::BadHistory {
                history: self.history,
            },
            ConfigFault::OutOfMemory => SetupFault::OutOfMemory,
        }
    }
}
