//! The program `bench_driver`: an enclave runs rounds of events without a script, so that each can be measured by itself.
//!
//! usage: bench_driver KIND ROUNDS THREADS CPUS ..
//!
//! For each four words a number is written: how many messages were drained, slots landed, or threads told of.
#![tactic(auto)]

mod enclave;
mod rounds;

use crate::rounds::{Kind, Size};
use std::alloc::Global;
use std::process::ExitCode;

/// Why not all was run.
#[derive(Clone, Copy, PartialEq, Eq, Debug)]
enum Failure {
    /// The words ask for nothing that there is.
    BadWords,
    /// Out of memory, or nothing can be written.
    Ended,
}

/// Runs what four words ask for: how much came of it.
fn measured(alloc: Global, words: &[String]) -> Result<u64, Failure> {
    let [kind, rounds, threads, cpus] = words else {
        return Err(Failure::BadWords);
    };
    let kind = Kind::named(kind).ok_or(Failure::BadWords)?;
    let size = Size::told(rounds, threads, cpus).ok_or(Failure::BadWords)?;
    size.run(alloc, kind).ok_or(Failure::Ended)
}

/// Runs what all words ask for.
fn run(rt: &HostRuntime) -> Result<(), Failure> {
    let alloc = rt.alloc();
    let arguments = std::env::args(rt).map_err(|_| Failure::Ended)?;
    let words: Vec<String> = arguments
        .skip(1)
        .collect(alloc)
        .map_err(|_| Failure::Ended)?;
    for four in words.chunks(4) {
        let sum = measured(alloc, four)?;
        println!(rt; "{sum}").map_err(|_| Failure::Ended)?;
    }
    Ok(())
}

fn main(rt: HostRuntime) -> ExitCode {
    match run(&rt) {
        Ok(()) => ExitCode::from(0),
        Err(Failure::BadWords) => ExitCode::from(3),
        Err(Failure::Ended) => ExitCode::from(5),
    }
}
