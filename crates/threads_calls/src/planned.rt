//! Runs of lists and shifts in threads, and what is wanted of them.

use crate::in_order::InOrder;
use gs_journal::Journal;
use gs_kernel::Command as Told;
use gs_layout::{Class, Facts, Name, Refusal};
use gs_policy::FirstCome;
use gs_replies::{Config, Reply};
use gs_runner::{
    Command, Finished, ReceiptRef, Receipts, RunFault, Settled, Shift, Step, Unsettled, run_threads,
};
use gs_status::Mask;
use std::alloc::{AllocError, Global};
use std::sync::Wait;
use std::thread::Threads;

/// What is run beside shifts, over two CPUs.
#[derive(Clone, Copy)]
pub(crate) struct Plan<'a> {
    /// The first agent's generation.
    pub generation: u32,
    /// How many parcels the ring has.
    pub parcels: u32,
    /// How many lists there are.
    pub lists: usize,
    /// How many threads each list creates.
    pub each: usize,
    /// Which calls come one after another, each of a worker and its call.
    pub order: &'a [(usize, usize)],
}

/// What a call is answered.
#[derive(Clone, Copy, PartialEq, Eq, Debug)]
pub(crate) enum Answer {
    /// It was accepted.
    Taken,
    /// So many transactions landed.
    Landed(usize),
    /// The enclave was torn down by it.
    Torn,
    /// It was refused.
    Refused(Refusal),
}

/// What is to become of a run.
#[derive(Clone, Copy)]
pub(crate) enum Wanted<'a> {
    /// It has no end.
    Fault(RunFault),
    /// Its agent settles so and knows so many threads, and the calls of each list and shift are answered so.
    End(Result<Settled, Unsettled>, usize, &'a [&'a [Answer]]),
}

/// What a run is given.
#[derive(Drop)]
struct Work {
    lists: Vec<Vec<Command>>,
    shifts: Vec<Shift<FirstCome>>,
    gate: InOrder,
}

fn config(first_generation: u32) -> Config<FirstCome> {
    Config {
        cpus: 2,
        ring: 128,
        first_tseq: 0,
        first_generation,
        history: 1000,
        policy: FirstCome,
    }
}

/// A command that creates a thread.
fn creation() -> Command {
    let facts = Facts {
        mask: Mask::new(3),
        runnable: true,
        class: Class::Zero,
        name: Name::new(b"web").unwrap(),
    };
    Command::Kernel {
        command: Told::Create { facts },
    }
}

/// A list that creates so many threads.
fn make_list(alloc: Global, each: usize) -> Result<Vec<Command>, AllocError> {
    let create = [creation()];
    let mut list = Vec::new(alloc);
    for _ in 0..each {
        list.extend_from_slice(&create)?;
    }
    Ok(list)
}

/// So many lists that create so many threads each.
fn make_lists(alloc: Global, count: usize, each: usize) -> Result<Vec<Vec<Command>>, AllocError> {
    let mut lists = Vec::new(alloc);
    for _ in 0..count {
        lists.push(make_list(alloc, each)?)?;
    }
    Ok(lists)
}

fn shift_of(alloc: Global, steps: &[Step<FirstCome>]) -> Result<Shift<FirstCome>, AllocError> {
    let mut copy = Vec::new(alloc);
    for step in steps {
        copy.push(*step)?;
    }
    Ok(Shift { steps: copy })
}

fn make_shifts(
    alloc: Global,
    steps: &[&[Step<FirstCome>]],
) -> Result<Vec<Shift<FirstCome>>, AllocError> {
    let mut shifts = Vec::new(alloc);
    for steps in steps {
        shifts.push(shift_of(alloc, steps)?)?;
    }
    Ok(shifts)
}

/// A gate that lets these calls come in this order.
fn gate(alloc: Global, calls: &[(usize, usize)]) -> Result<InOrder, AllocError> {
    let mut order = Vec::new(alloc);
    for call in calls {
        order.push(*call)?;
    }
    Ok(InOrder::new(order))
}

fn prepare(
    alloc: Global,
    plan: &Plan<'_>,
    steps: &[&[Step<FirstCome>]],
) -> Result<Work, AllocError> {
    Ok(Work {
        lists: make_lists(alloc, plan.lists, plan.each)?,
        shifts: make_shifts(alloc, steps)?,
        gate: gate(alloc, plan.order)?,
    })
}

/// Returns what a call was answered.
fn answer_to(receipt: &ReceiptRef<'_>) -> Answer {
    let ReceiptRef::Other { receipt } = receipt else {
        return Answer::Taken;
    };
    match &receipt.reply {
        Reply::Torn => Answer::Torn,
        Reply::Refused(refusal) => Answer::Refused(*refusal),
        Reply::Landed { landings, .. } => Answer::Landed(landings.as_slice().len()),
        _ => Answer::Taken,
    }
}

/// Returns whether the calls of a list or shift were answered so.
fn is_answered(journal: &Journal, receipts: &Receipts, wanted: &[Answer]) -> bool {
    let mut same = receipts.len() == wanted.len();
    for (index, answer) in wanted.iter().enumerate() {
        same = same
            && match receipts.get(journal, index) {
                Some(receipt) => answer_to(&receipt) == *answer,
                None => false,
            };
    }
    same
}

/// Returns whether the calls of all lists and shifts were answered so.
fn are_answered(journal: &Journal, receipts: &[Receipts], wanted: &[&[Answer]]) -> bool {
    let mut same = receipts.len() == wanted.len();
    for (its, answers) in receipts.iter().zip(wanted) {
        same = same && is_answered(journal, its, answers);
    }
    same
}

/// Returns how many calls were not refused.
fn accepted(wanted: &[&[Answer]]) -> usize {
    let mut count: usize = 0;
    for answers in wanted {
        let refused = |answer: &&Answer| matches!(answer, Answer::Refused(_));
        let all = answers.len();
        count = count.saturating_add(all.saturating_sub(answers.iter().filter(refused).count()));
    }
    count
}

/// Returns whether a run came to this end, with no other calls.
fn has_ended(
    finished: &Finished,
    end: Result<Settled, Unsettled>,
    threads: usize,
    answers: &[&[Answer]],
) -> bool {
    finished.end == end
        && finished.threads == threads
        && are_answered(
            finished.closed.journal(),
            finished.receipts.as_slice(),
            answers,
        )
        && finished.closed.calls().len() == accepted(answers)
}

fn is_wanted(finish: &Result<Finished, RunFault>, wanted: &Wanted<'_>) -> bool {
    match (finish, wanted) {
        (Ok(finished), Wanted::End(end, threads, answers)) => {
            has_ended(finished, *end, *threads, answers)
        }
        (Err(fault), Wanted::Fault(wanted)) => fault == wanted,
        _ => false,
    }
}

/// Runs, and returns whether that became of it.
fn becomes<R: Threads + Wait + Sync>(
    rt: &R,
    alloc: Global,
    plan: &Plan<'_>,
    work: &Work,
    wanted: &Wanted<'_>,
) -> bool {
    let finish = run_threads(
        rt,
        alloc,
        config(plan.generation),
        plan.parcels,
        work.lists.as_slice(),
        work.shifts.as_slice(),
        &work.gate,
    );
    is_wanted(&finish, wanted)
}

/// Runs a plan beside shifts of these steps. Returns whether that became of it, and its calls came in their order.
pub(crate) fn run<R: Threads + Wait + Sync>(
    rt: &R,
    alloc: Global,
    plan: &Plan<'_>,
    steps: &[&[Step<FirstCome>]],
    wanted: &Wanted<'_>,
) -> Result<bool, AllocError> {
    let work = prepare(alloc, plan, steps)?;
    Ok(becomes(rt, alloc, plan, &work, wanted) && work.gate.was_kept())
}
