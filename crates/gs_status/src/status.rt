ghost use Rattle.std.specs.Prelude.{IfSome, ◌≡◌};
ghost use Rattle.gs_status.specs.Status.{Status, Spells};

use crate::mask::MOST_CPUS;
use std::marker::Model;

/// The byte of a status word that stands for no CPU. It is the greatest that there is, so that it is no
/// CPU's.
pub const NO_CPU_BYTE: u8 = 255;

/// The bit at which the CPU's byte begins.
const CPU_BIT: u32 = 32;
/// The bit at which the flags begin: runnable, alive, on a CPU, and zeros from there on.
const FLAGS_BIT: u32 = 40;

/// The flags of a dead thread.
const DEAD: u64 = 0b000;

/// The flags of a live thread that may not run.
const BLOCKED: u64 = 0b010;

/// The flags of a thread that may run and is on no CPU.
const WAITING: u64 = 0b011;

/// The flags of a thread on a CPU.
const RUNNING: u64 = 0b111;

/// What the kernel shows of a thread: its sequence number, the CPU that it is on, whether it may
/// run, and whether it lives.
///
/// A CPU is below [`MOST_CPUS`]. A thread on a CPU may run, and one that may run lives: no other value
/// can be made.
#[derive(Clone, Copy, PartialEq, Eq, Debug)]
pub struct StatusWord {
    pub tseq: u32,
    pub cpu: Option<u16>,
    pub runnable: bool,
    pub alive: bool,
}

impl Model for StatusWord {
    ghost use Rattle.gs_status.specs.Status.{Status, IsStatus};

    ghost Value = { Status };

    ghost view = { λ s. record { tseq = s.tseq; cpu = s.cpu; runnable = s.runnable; alive = s.alive } };

    ghost invariant = { λ s. IsStatus (record { tseq = s.tseq; cpu = s.cpu; runnable = s.runnable; alive = s.alive }) };

    ghost inverse = { λ s. record { tseq = s.tseq; cpu = s.cpu; runnable = s.runnable; alive = s.alive } };
}

impl StatusWord {
    /// Returns the word that shows this status, in 64 bits. The sequence number begins at bit 0, the CPU or
    /// [`NO_CPU_BYTE`] at bit 32. Bit 40 says runnable, bit 41 alive, bit 42 on a CPU, and the rest is zero.
    pub fn pack(&self) -> u64
        ensures { Spells self.now result }
    {
        let (cpu, on_cpu) = match self.cpu {
            Some(cpu) => (cpu as u64, 1),
            None => (NO_CPU_BYTE as u64, 0),
        };
        let flags = self.runnable as u64 | (self.alive as u64) << 1 | on_cpu << 2;
        self.tseq as u64 | cpu << CPU_BIT | flags << FLAGS_BIT
    }

    /// Returns the status that a word shows, or `None` if no status has that word.
    pub fn unpack(word: u64) -> Option<StatusWord>
        ensures read { IfSome result (λ status. Spells status word) }
        ensures all { (status : Status) → Spells status word → result ≡ Some status }
    {
        let tseq = (word & 0xffff_ffff) as u32;
        let cpu = (word >> CPU_BIT) & 0xff;
        let flags = word >> FLAGS_BIT;
        if flags == RUNNING && cpu < MOST_CPUS as u64 {
            return Some(StatusWord {
                tseq,
                cpu: Some(cpu as u16),
                runnable: true,
                alive: true,
            });
        }
        if cpu != NO_CPU_BYTE as u64 {
            return None;
        }
        match flags {
            DEAD | BLOCKED | WAITING => Some(StatusWord {
                tseq,
                cpu: None,
                runnable: flags == WAITING,
                alive: flags != DEAD,
            }),
            _ => None,
        }
    }
}
