//! Lists of commands, and a run of them.

use crate::events::{THREADS, config, creation, event, told};
use gs_policy::FirstCome;
use gs_runner::{Command, Finished, Gate, Settled, Shift, run_threads};
use std::alloc::{AllocError, Global};
use std::sync::Wait;
use std::thread::Threads;

/// How many lists there are, and how many events each has.
#[derive(Clone, Copy)]
pub(crate) struct Size {
    pub lists: u32,
    pub calls: u32,
}

/// Which threads the events are of.
#[derive(Clone, Copy)]
pub(crate) enum Crowd {
    /// All threads, by turns.
    All,
    /// One thread, the first.
    One,
}

impl Crowd {
    /// How many threads there are.
    fn threads(self) -> u32 {
        match self {
            Crowd::All => THREADS,
            Crowd::One => 1,
        }
    }

    /// The event of a turn.
    fn event(self, turn: u32) -> Command {
        let command = match self {
            Crowd::All => event(turn),
            Crowd::One => told(1),
        };
        Command::Kernel { command }
    }
}

/// Makes a list that creates so many threads, and has so many events then.
fn make_list(
    alloc: Global,
    crowd: Crowd,
    creations: u32,
    calls: u32,
) -> Result<Vec<Command>, AllocError> {
    let mut list = Vec::with_capacity(alloc, creations as usize + calls as usize)?;
    for _ in 0..creations {
        list.push(Command::Kernel {
            command: creation(),
        })?;
    }
    for turn in 0..calls {
        list.push(crowd.event(turn))?;
    }
    Ok(list)
}

/// Makes so many lists of so many events each. The first one creates the threads before.
pub(crate) fn make_lists(
    alloc: Global,
    crowd: Crowd,
    size: Size,
) -> Result<Vec<Vec<Command>>, AllocError> {
    let mut lists = Vec::new(alloc);
    for number in 0..size.lists {
        let creations = if number == 0 { crowd.threads() } else { 0 };
        lists.push(make_list(alloc, crowd, creations, size.calls)?)?;
    }
    Ok(lists)
}

/// Makes lists, and returns how many events they have. `None` if out of memory.
pub(crate) fn count_lists(alloc: Global, size: Size) -> Option<u64> {
    let mut sum: u64 = 0;
    for list in &make_lists(alloc, Crowd::All, size).ok()? {
        sum = sum.wrapping_add(list.len() as u64);
    }
    sum.checked_sub(THREADS as u64)
}

/// Lists, and the shift that is run beside them.
#[derive(Drop)]
pub(crate) struct Work {
    lists: Vec<Vec<Command>>,
    shifts: Vec<Shift<FirstCome>>,
}

impl Work {
    pub(crate) fn new(
        alloc: Global,
        lists: Vec<Vec<Command>>,
        shift: Shift<FirstCome>,
    ) -> Result<Work, AllocError> {
        let mut shifts = Vec::new(alloc);
        shifts.push(shift)?;
        Ok(Work { lists, shifts })
    }

    /// Runs each list and the shift in a thread of its own, over a ring of so many parcels. `None` if out of memory, or if the
    /// run did not settle.
    pub(crate) fn run<G: Gate + Sync, R: Threads + Wait + Sync>(
        &self,
        rt: &R,
        alloc: Global,
        parcels: u32,
        gate: &G,
    ) -> Option<Finished> {
        let ran = run_threads(
            rt,
            alloc,
            config(),
            parcels,
            self.lists.as_slice(),
            self.shifts.as_slice(),
            gate,
        );
        match ran {
            Ok(finished) if finished.end == Ok(Settled) => Some(finished),
            _ => None,
        }
    }
}
