//! The program `threads_driver`: repeats calls of a kernel by itself or of a locked enclave, so that a call can be measured.
//!
//! usage: threads_driver COMMAND ..
//!
//! | Command | What it does |
//! |---|---|
//! | `kernel N` | tells a kernel by itself N events |
//! | `serve N` | has a locked enclave serve N events, with nobody else at the lock |
//! | `read N` | reads the board N times |
//! | `runs N` | runs workers that create threads N times, one after another |
//! | `threads T N` | has a locked enclave serve N events of each of T callers, in threads of their own |
//! | `machine N` | lets N events happen in the machine, in one thread, and drains them in batches |
//! | `run L N` | runs L lists of N events each in threads of their own, beside a shift that drains in batches |
//! | `clock-machine N`, `clock-run L N` | do the same, and tell how many nanoseconds that took, without making the lists |
//! | `lists L N` | makes the lists alone |
//! | `watch L N` | runs L lists of N events each beside a shift that lands, turn by turn, and writes how each turn stood |
//!
//! For each command a number is written last. It is how many events were done or made, how many reads showed the first agent, how many
//! turns landed, or how many nanoseconds it took.
#![tactic(auto)]

ghost use Rattle.std.specs.Prelude.{◌<◌, IfSome, length};

mod alone;
mod callers;
mod calls;
mod count;
mod events;
mod lists;
mod locked;
mod one_thread;
mod paced;
mod running;
mod runs;
mod timed;
mod waiting;
mod watched;

use crate::alone::run_alone;
use crate::lists::{Size, count_lists};
use crate::locked::{Course, run_locked};
use crate::one_thread::run_machine;
use crate::running::run_lists;
use crate::runs::run_many;
use crate::timed::Told;
use crate::waiting::watch_lists;
use std::alloc::Global;
use std::process::ExitCode;
use std::rt::Clock;
use std::sync::Wait;
use std::thread::Threads;

/// Why not all was run.
#[derive(Clone, Copy, PartialEq, Eq, Debug)]
enum Failure {
    /// The words ask for nothing that there is.
    BadWords,
    /// Out of memory, or nothing can be written.
    Ended,
}

/// What a command asks for.
#[derive(Clone, Copy)]
enum Asked {
    /// So many events of a kernel by itself.
    Kernel { calls: u32 },
    /// So many runs of workers.
    Runs { runs: u32 },
    /// A course of a locked enclave.
    Locked { course: Course },
    /// So many events of the machine.
    Machine { calls: u32, told: Told },
    /// Lists of this size are made.
    Lists { size: Size },
    /// Lists of this size are run.
    Run { size: Size, told: Told },
    /// Lists of this size are run beside a shift that lands.
    Watch { size: Size },
}

impl Asked {
    /// Returns what is asked for with one number.
    fn alone(kind: &str, number: u32) -> Option<Asked> {
        match kind {
            "kernel" => Some(Asked::Kernel { calls: number }),
            "runs" => Some(Asked::Runs { runs: number }),
            "serve" => Some(Asked::Locked {
                course: Course::Serve { calls: number },
            }),
            "read" => Some(Asked::Locked {
                course: Course::Read { reads: number },
            }),
            "machine" => Some(Asked::Machine {
                calls: number,
                told: Told::Done,
            }),
            "clock-machine" => Some(Asked::Machine {
                calls: number,
                told: Told::Nanoseconds,
            }),
            _ => None,
        }
    }

    /// Returns what is asked for with two numbers.
    fn sized(kind: &str, number: u32, calls: u32) -> Option<Asked> {
        let size = Size {
            lists: number,
            calls,
        };
        match kind {
            "threads" => Some(Asked::Locked {
                course: Course::Threads {
                    callers: number,
                    calls,
                },
            }),
            "lists" => Some(Asked::Lists { size }),
            "run" => Some(Asked::Run {
                size,
                told: Told::Done,
            }),
            "clock-run" => Some(Asked::Run {
                size,
                told: Told::Nanoseconds,
            }),
            "watch" => Some(Asked::Watch { size }),
            _ => None,
        }
    }

    /// Does what is asked for, and returns how much came of it.
    fn run<R: Threads + Wait + Clock + Print + Sync>(self, rt: &R, alloc: Global) -> Option<u64> {
        match self {
            Asked::Kernel { calls } => run_alone(alloc, calls),
            Asked::Runs { runs } => run_many(rt, alloc, runs),
            Asked::Locked { course } => run_locked(rt, alloc, course),
            Asked::Machine { calls, told } => run_machine(rt, alloc, calls)?.number(told),
            Asked::Lists { size } => count_lists(alloc, size),
            Asked::Run { size, told } => run_lists(rt, alloc, size)?.number(told),
            Asked::Watch { size } => watch_lists(rt, alloc, size),
        }
    }
}

/// Returns what the first words ask for, and the words behind them. `None` if they ask for nothing that there is.
fn first_asked<'a>(kind: &str, words: &'a [String]) -> Option<(Asked, &'a [String])>
    ensures { IfSome result (λ r. length r.1.now < length words.now) }
{
    let (first, rest) = words.split_first()?;
    let first = first.parse::<u32>().ok()?;
    if let Some(asked) = Asked::alone(kind, first) {
        return Some((asked, rest));
    }
    let (calls, rest) = rest.split_first()?;
    let calls = calls.parse::<u32>().ok()?;
    Some((Asked::sized(kind, first, calls)?, rest))
}

/// Runs what all words ask for, in order.
fn run_all<R: Threads + Wait + Clock + Sync + Print>(
    rt: &R,
    alloc: Global,
    words: &[String],
) -> Result<(), Failure> {
    let Some((kind, words)) = words.split_first() else {
        return Ok(());
    };
    let (asked, rest) = first_asked(kind, words).ok_or(Failure::BadWords)?;
    let came = asked.run(rt, alloc).ok_or(Failure::Ended)?;
    println!(rt; "{came}").map_err(|_| Failure::Ended)?;
    run_all(rt, alloc, rest)
}

/// Returns the arguments behind the program's name.
fn words(rt: &HostRuntime) -> Result<Vec<String>, Failure> {
    let arguments = std::env::args(rt).map_err(|_| Failure::Ended)?;
    arguments
        .skip(1)
        .collect(rt.alloc())
        .map_err(|_| Failure::Ended)
}

fn main(rt: HostRuntime) -> ExitCode {
    let ran = match words(&rt) {
        Ok(words) => run_all(&rt, rt.alloc(), &words),
        Err(failure) => Err(failure),
    };
    match ran {
        Ok(()) => ExitCode::from(0),
        Err(Failure::BadWords) => ExitCode::from(3),
        Err(Failure::Ended) => ExitCode::from(5),
    }
}
