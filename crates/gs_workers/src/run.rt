//! A run of workers, from its start to what is written of it.

ghost use Rattle.std.specs.Prelude.{◌≡◌, ◌≢◌, ℕ, List, IfErr, IfOk, IsErrOf, None, OnOk, Some, slice_get};
ghost use Rattle.std.specs.List.{list_any};
ghost use Rattle.std.specs.Io.KnownBytes.{Appends, Keeps};
ghost use Rattle.gs_core.specs.Short.{wants_memory};
ghost use Rattle.gs_replies.specs.Config.{config_fault};
ghost use Rattle.gs_runner.specs.Slips.{receipts_in, shown_receipt};
ghost use Rattle.gs_runner.specs.declared.call.Receipt.{Receipt as Got};
ghost use Rattle.gs_workers.specs.Work.{IsAllowed};
ghost use Rattle.gs_workers.specs.Written.{BeginsText, HasNoEnd, IsPossible, IsRunOf, IsText, WhyUntold, is_short};

use crate::agents::turns;
use crate::fault::WorkFault;
use crate::text::{Shown, shown_text};
use crate::work::{Work, all_creations, parcels};
use gs_core::is_short;
use gs_journal::Journal;
use gs_kernel::{LEAST_CPUS, LEAST_GENERATION, MOST_HISTORY};
use gs_policy::FirstCome;
use gs_replies::Config;
use gs_runner::{Finished, Gate, ReceiptRef, Receipts, RunFault, StartFault, run_threads};
use gs_trace::write_out;
use std::alloc::Global;
use std::io::Write;
use std::slice;
use std::sync::Wait;
use std::thread::Threads;

/// A gate that holds nobody up.
struct Open;

impl Gate for Open {
    fn before(&self, _worker: usize, _call: usize) {}

    fn after(&self, _worker: usize, _call: usize) {}
}

/// Returns what the enclave is opened with: two CPUs, the first of which is the agent's.
#[tactic(auto, unfolding(gs_replies::specs::Config::config_fault))]
fn config() -> Config<FirstCome>
    ensures { config_fault result ≡ None }
{
    Config {
        cpus: LEAST_CPUS,
        // The bytes of a ring in one thread. Between threads it has parcels.
        ring: 128,
        first_tseq: 0,
        first_generation: LEAST_GENERATION,
        history: MOST_HISTORY,
        policy: FirstCome,
    }
}

/// Returns why a run has no end.
fn fault_of(fault: RunFault) -> WorkFault
    requires { IsPossible fault }
    ensures { HasNoEnd result }
{
    match fault {
        RunFault::Start(StartFault::OutOfMemory) | RunFault::OutOfMemory => WorkFault::OutOfMemory,
        RunFault::Astray => WorkFault::Astray,
        RunFault::Start(_) | RunFault::TooMany | RunFault::Close => unreachable!(),
    }
}

/// Runs the workers and the agent.
fn run<R: Threads + Wait + Sync>(rt: &R, alloc: Global, work: Work) -> Result<Finished, WorkFault>
    requires { IsAllowed work }
    ensures ok { IfOk result (IsRunOf work) }
    ensures err { IfErr result HasNoEnd }
{
    let lists = all_creations(alloc, work)?;
    let shifts = turns(alloc, work)?;
    match run_threads(rt, alloc, config(), parcels(work), &lists, &shifts, &Open) {
        Ok(finished) => Ok(finished),
        Err(fault) => Err(fault_of(fault)),
    }
}

/// Returns whether a receipt says that memory ran out.
fn is_short_receipt(receipt: &ReceiptRef<'_>) -> bool
    ensures { result ≡ wants_memory (shown_receipt receipt.now).reply }
{
    match receipt {
        ReceiptRef::Done { .. } => false,
        ReceiptRef::Other { receipt } => is_short(slice::from_ref(&receipt.reply)),
    }
}

/// Returns whether the receipt at a place, which there is, says that memory ran out.
fn is_short_at(journal: &Journal, receipts: &Receipts, index: usize) -> bool
    ensures { (r : Got) → slice_get (receipts_in journal.now.entries receipts.now) index ≡ Some r → result ≡ wants_memory r.reply }
{
    match receipts.get(journal, index) {
        Some(receipt) => is_short_receipt(&receipt),
        None => false,
    }
}

/// Returns whether a call of a thread was refused because memory ran out.
fn is_short_list(journal: &Journal, receipts: &Receipts) -> bool
    ensures { result ≡ list_any (λ r. wants_memory r.reply) (receipts_in journal.now.entries receipts.now) }
{
    for index in 0..receipts.len() {
        if is_short_at(journal, receipts, index) {
            return true;
        }
    }
    false
}

/// Returns whether a call of a run was refused because memory ran out.
fn was_short(finished: &Finished) -> bool
    ensures { result ≡ is_short finished.now }
{
    finished.receipts.iter().any(|receipts| is_short_list(finished.closed.journal(), receipts))
}

/// Returns what is to be written of a run.
fn text_of(
    alloc: Global,
    work: Work,
    shown: Shown,
    finished: &Finished,
) -> Result<Vec<u8>, WorkFault>
    requires { IsRunOf work finished.now }
    ensures ok { IfOk result (λ bytes. IsText work shown bytes.items) }
    ensures err { IfErr result (WhyUntold work) }
    ensures unwritten { IfErr result (λ fault. fault ≢ WorkFault.WriteFailed) }
{
    if was_short(finished) {
        return Err(WorkFault::OutOfMemory);
    }
    if let Err(unsettled) = finished.end {
        return Err(WorkFault::Unsettled(unsettled));
    }
    Ok(shown_text(alloc, shown, finished)?.into_bytes())
}

/// Runs, and returns what is to be written.
fn run_to_text<R: Threads + Wait + Sync>(
    rt: &R,
    alloc: Global,
    work: Work,
    shown: Shown,
) -> Result<Vec<u8>, WorkFault>
    requires { IsAllowed work }
    ensures ok { IfOk result (λ bytes. IsText work shown bytes.items) }
    ensures err { IfErr result (WhyUntold work) }
    ensures unwritten { IfErr result (λ fault. fault ≢ WorkFault.WriteFailed) }
{
    match run(rt, alloc, work) {
        Ok(finished) => text_of(alloc, work, shown, &finished),
        Err(fault) => Err(fault),
    }
}

/// Runs workers that create threads, each in a thread of its own, and an agent in two more. The agent on CPU 0 takes
/// in half of the messages at most and is handed off to CPU 1, where it takes in the rest. Writes what came of
/// it, if it settled: one line, or the journal.
///
/// # Errors
///
/// The first that applies, and nothing is written but for the last:
///
/// - `OutOfMemory` if memory ran out, or a thread could not be started.
/// - `Astray` if the receipts of a worker are not those of its commands.
/// - `OutOfMemory` if a call was refused because memory ran out.
/// - `Unsettled` if the agent did not settle.
/// - `WriteFailed` if a write fails or takes no byte: a beginning was written, short of the whole.
pub fn run_workers<R: Threads + Wait + Sync, W: Write>(
    rt: &R,
    alloc: Global,
    work: Work,
    shown: Shown,
    writer: &mut W,
) -> Result<(), WorkFault>
    requires allowed { IsAllowed work }
    ensures written { OnOk result ((out : List ℕ) × IsText work shown out × Appends (W.contents writer.old) (W.contents writer.new) out) }
    ensures unwritten { IfErr result (λ fault. fault ≢ WorkFault.WriteFailed → Keeps (W.contents writer.old) (W.contents writer.new)) }
    ensures begun { IsErrOf result WorkFault.WriteFailed → BeginsText work shown (W.contents writer.old) (W.contents writer.new) }
    ensures fault { IfErr result (WhyUntold work) }
{
    let bytes = run_to_text(rt, alloc, work, shown)?;
    match write_out(writer, &bytes) {
        Ok(()) => Ok(()),
        Err(_) => Err(WorkFault::WriteFailed),
    }
}
