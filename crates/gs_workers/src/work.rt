//! What the workers do.

ghost use Rattle.std.specs.Prelude.{◌≡◌, ◌≤◌, ◌<◌, IfOk, map};
ghost use Rattle.gs_workers.specs.Work.{IsAllowed, all_creations, creation, creations, creations_in, name_of, parcels};
ghost use Rattle.gs_runner.specs.declared.start.TheConstants.{MOST_PARCELS};

use gs_kernel::Command as Told;
use gs_layout::{Class, Facts, Name};
use gs_lines::Text;
use gs_runner::Command;
use gs_status::Mask;
use std::alloc::{AllocError, Global};

/// The most workers.
pub const MOST_WORKERS: usize = 16;

/// The most threads that each of them creates.
pub const MOST_EACH: usize = 1_000;

/// How many parcels the ring has besides one for each creation.
const SPARE_PARCELS: u32 = 64;

/// So many workers create so many threads each.
#[derive(Clone, Copy, PartialEq, Eq, Debug)]
pub struct Work {
    pub workers: usize,
    pub each: usize,
}

/// Returns how many threads are created.
pub(crate) fn creations_in(work: Work) -> u32
    requires { IsAllowed work }
    ensures value { result ≡ creations_in work }
    ensures few { result ≤ 16000 }
{
    work.workers as u32 * work.each as u32
}

/// Returns how many parcels the ring has.
pub(crate) fn parcels(work: Work) -> u32
    requires { IsAllowed work }
    ensures value { result ≡ parcels work }
    ensures allowed { (0 < result) × (result ≤ MOST_PARCELS) }
{
    creations_in(work) + SPARE_PARCELS
}

/// Returns the name of the thread that a worker creates in a turn.
fn name_of(alloc: Global, worker: usize, turn: usize) -> Result<Name, AllocError>
    requires { (worker < MOST_WORKERS) × (turn < MOST_EACH) }
    ensures { IfOk result (λ name. name ≡ name_of worker turn) }
{
    let mut text = Text::new(alloc);
    text.push_number("w", worker as u64)?;
    text.push_number(".", turn as u64)?;
    Ok(Name::new(text.as_bytes()).unwrap())
}

/// Returns the command by which a worker creates a thread in a turn.
fn creation(alloc: Global, worker: usize, turn: usize) -> Result<Command, AllocError>
    requires { (worker < MOST_WORKERS) × (turn < MOST_EACH) }
    ensures { IfOk result (λ command. command ≡ creation worker turn) }
{
    let facts = Facts {
        mask: Mask::new(3),
        runnable: true,
        class: Class::Zero,
        name: name_of(alloc, worker, turn)?,
    };
    Ok(Command::Kernel {
        command: Told::Create { facts },
    })
}

/// Returns the commands of a worker.
fn creations(alloc: Global, worker: usize, each: usize) -> Result<Vec<Command>, AllocError>
    requires { (worker < MOST_WORKERS) × (each ≤ MOST_EACH) }
    ensures { IfOk result (λ list. list.items ≡ creations each worker) }
{
    let mut list = Vec::with_capacity(alloc, each)?;
    for turn in 0..each {
        list.extend_from_slice(&[creation(alloc, worker, turn)?])?;
    }
    Ok(list)
}

/// Returns the commands of all workers.
pub(crate) fn all_creations(alloc: Global, work: Work) -> Result<Vec<Vec<Command>>, AllocError>
    requires { IsAllowed work }
    ensures { IfOk result (λ lists. map (λ l. l.items) lists.items ≡ all_creations work) }
{
    let mut lists = Vec::with_capacity(alloc, work.workers)?;
    for worker in 0..work.workers {
        lists.push(creations(alloc, worker, work.each)?)?;
    }
    Ok(lists)
}
