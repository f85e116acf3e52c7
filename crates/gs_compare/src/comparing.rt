//! A workload, from a reader, and its table under several policies, to a writer.

ghost use Rattle.std.specs.Prelude.{◌≡◌, ◌∷◌, ◌++◌, [], ℕ, List, None, Option, IfOk, IfErr, OnOk};
ghost use Rattle.std.specs.List.{AllZip};
ghost use Rattle.std.specs.Io.KnownBytes.{Keeps};
ghost use Rattle.gs_trace.specs.Streams.{ConsumesAtMost};
ghost use Rattle.gs_trace.specs.declared.pipe.TheConstants.{MOST_READ_BYTES};
ghost use Rattle.gs_simulate.specs.Heard.{IsHeaded};
ghost use Rattle.gs_workbench.specs.Settings.{policy_of};
ghost use Rattle.gs_workload.specs.declared.workload.Workload.{Workload as Held};
ghost use Rattle.gs_workbench.specs.Written.{IsOfWriting, IsRefusal, IsRefusalOf};
ghost use Rattle.gs_compare.specs.Compared.{BeginsComparison, Compares, IsComparison, IsRun, IsTable, IsTried, WritesComparison, policies_or, seeds_or, table_of};

use crate::asked::{Asked, Form};
use crate::lines::lines_of;
use crate::measured::Measured;
use crate::measuring::measure;
use crate::objects::objects_of;
use crate::progress::{Count, Progress};
use crate::records::records_of;
use crate::row::{Column, Row, rows_of};
use gs_script::NamedPolicy;
use gs_simulate::Simulated;
use gs_trace::{MOST_READ_BYTES, write_out};
use gs_workbench::{
    Asked as Simulation, WorkbenchFault, input_of, policy_of, simulate_as, workload_of,
};
use gs_workload::Workload;
use std::alloc::{AllocError, Global};
use std::io::{Read, Write};

/// Returns what is measured of a simulation.
fn measured_run<P: NamedPolicy>(
    alloc: Global,
    simulated: &Simulated<P>,
) -> Result<Measured, WorkbenchFault>
    ensures ran { (workload : Held P) (p : P) → IsHeaded P.naming workload.cpus workload.ring p simulated.now.text → IfOk result (λ measured. IsRun P.naming P.chosen workload p measured) }
    ensures fault { (input : List ℕ) → IfErr result (λ fault. IsRefusalOf P.naming input fault) }
{
    match measure(alloc, simulated) {
        Ok(measured) => Ok(measured),
        Err(_) => Err(WorkbenchFault::OutOfMemory),
    }
}

/// Simulates a workload, and returns what is measured of it.
fn run<P: NamedPolicy>(
    alloc: Global,
    simulation: Simulation<P>,
    workload: &Workload<P>,
) -> Result<Measured, WorkbenchFault>
    ensures ran { IfOk result (λ measured. IsRun P.naming P.chosen workload.now (policy_of P.naming simulation.policy workload.now.policy) measured) }
    ensures fault { (input : List ℕ) → IfErr result (λ fault. IsRefusalOf P.naming input fault) }
{
    let simulated = simulate_as(alloc, simulation, workload)?;
    measured_run(alloc, &simulated)
}

/// Adds one to those that are kept.
fn keep<T: Drop>(all: &mut Vec<T>, one: T) -> Result<(), WorkbenchFault>
    ensures kept { OnOk result (all.new.items ≡ all.old.items ++ one ∷ []) }
    ensures fault { IfErr result (λ e. e ≡ WorkbenchFault.OutOfMemory) }
{
    match all.push(one) {
        Ok(()) => Ok(()),
        Err(_) => Err(WorkbenchFault::OutOfMemory),
    }
}

/// Tries a policy by each seed, and tells of each simulation: so many of all were done before. Returns what is measured
/// each time.
fn try_policy<P: NamedPolicy, G: Progress>(
    alloc: Global,
    progress: &G,
    before: Count,
    workload: &Workload<P>,
    policy: P,
    ticks: Option<u32>,
    seeds: &[u64],
) -> Result<Column<P>, WorkbenchFault>
    ensures tried { IfOk result (λ column. IsTried P.naming P.chosen workload.now seeds.now policy column) }
    ensures fault { (input : List ℕ) → IfErr result (λ fault. IsRefusalOf P.naming input fault) }
{
    let mut runs = Vec::new(alloc);
    for seed in seeds {
        progress.tell(before.done.saturating_add(runs.len()), before.all);
        let simulation = Simulation {
            policy: Some(policy),
            ticks,
            seed: *seed,
        };
        let measured = run(alloc, simulation, workload)?;
        keep(&mut runs, measured)?;
    }
    Ok(Column { policy, runs })
}

/// Tries each policy by each seed, and tells of each simulation.
fn try_policies<P: NamedPolicy, G: Progress>(
    alloc: Global,
    progress: &G,
    workload: &Workload<P>,
    policies: &[P],
    ticks: Option<u32>,
    seeds: &[u64],
) -> Result<Vec<Column<P>>, WorkbenchFault>
    ensures tried { IfOk result (λ columns. AllZip (IsTried P.naming P.chosen workload.now seeds.now) policies.now columns.items) }
    ensures fault { (input : List ℕ) → IfErr result (λ fault. IsRefusalOf P.naming input fault) }
{
    let mut columns = Vec::new(alloc);
    for policy in policies {
        let before = Count::of(columns.len(), policies.len(), seeds.len());
        let column = try_policy(alloc, progress, before, workload, *policy, ticks, seeds)?;
        keep(&mut columns, column)?;
    }
    Ok(columns)
}

/// Returns the text of a table, of so many seeds.
fn text_of<P: NamedPolicy>(
    alloc: Global,
    form: Form,
    seeds: usize,
    policies: &[P],
    rows: &[Row<P>],
) -> Result<Vec<u8>, AllocError>
    ensures { IfOk result (λ bytes. bytes.items ≡ table_of P.naming form seeds policies.now rows.now) }
{
    match form {
        Form::Lines => lines_of(alloc, seeds, policies, rows),
        Form::Json => objects_of(alloc, seeds, rows),
        Form::Csv => records_of(alloc, seeds, rows),
    }
}

/// Returns the table of what was measured, of so many seeds.
fn table_of<P: NamedPolicy>(
    alloc: Global,
    form: Form,
    seeds: usize,
    policies: &[P],
    columns: &[Column<P>],
) -> Result<Vec<u8>, AllocError>
    ensures { IfOk result (λ bytes. IsTable P.naming form seeds policies.now columns.now bytes.items) }
{
    let rows = rows_of(alloc, columns)?;
    text_of(alloc, form, seeds, policies, &rows)
}

/// Tries each policy by each seed, and returns the table of what was measured.
fn compared<P: NamedPolicy, G: Progress>(
    alloc: Global,
    progress: &G,
    asked: &Asked<'_, P>,
    workload: &Workload<P>,
    policies: &[P],
    seeds: &[u64],
) -> Result<Vec<u8>, WorkbenchFault>
    ensures compared { IfOk result (λ bytes. Compares P.naming P.chosen workload.now asked.now.form policies.now seeds.now bytes.items) }
    ensures fault { (input : List ℕ) → IfErr result (λ fault. IsRefusalOf P.naming input fault) }
{
    let columns = try_policies(alloc, progress, workload, policies, asked.ticks, seeds)?;
    match table_of(alloc, asked.form, seeds.len(), policies, &columns) {
        Ok(bytes) => Ok(bytes),
        Err(_) => Err(WorkbenchFault::OutOfMemory),
    }
}

/// Returns the policy of a workload that is simulated as it says, alone.
fn own_policies<P: NamedPolicy>(
    alloc: Global,
    workload: &Workload<P>,
) -> Result<Vec<P>, WorkbenchFault>
    ensures own { IfOk result (λ own. own.items ≡ policy_of P.naming None workload.now.policy ∷ []) }
    ensures fault { IfErr result (λ e. e ≡ WorkbenchFault.OutOfMemory) }
{
    let mut own = Vec::new(alloc);
    keep(&mut own, policy_of(None, workload))?;
    Ok(own)
}

/// Returns these policies, or the own ones, if there are none.
fn policies_or<'a, P>(own: &'a [P], policies: &'a [P]) -> &'a [P]
    ensures { result.now ≡ policies_or own.now policies.now }
{
    if policies.is_empty() { own } else { policies }
}

/// The seed of those who ask for none.
const NO_SEEDS: [u64; 1] = [0];

/// Returns these seeds, or 0, if there are none.
fn seeds_or<'a>(seeds: &'a [u64]) -> &'a [u64]
    ensures { result.now ≡ seeds_or seeds.now }
{
    if seeds.is_empty() { &NO_SEEDS } else { seeds }
}

/// Returns the table of a workload.
fn table_for<P: NamedPolicy, G: Progress>(
    alloc: Global,
    progress: &G,
    asked: &Asked<'_, P>,
    workload: &Workload<P>,
) -> Result<Vec<u8>, WorkbenchFault>
    ensures compared { IfOk result (λ bytes. Compares P.naming P.chosen workload.now asked.now.form (policies_or (policy_of P.naming None workload.now.policy ∷ []) asked.now.policies.now) (seeds_or asked.now.seeds.now) bytes.items) }
    ensures fault { (input : List ℕ) → IfErr result (λ fault. IsRefusalOf P.naming input fault) }
{
    let own = own_policies(alloc, workload)?;
    let policies = policies_or(&own, asked.policies);
    compared(
        alloc,
        progress,
        asked,
        workload,
        policies,
        seeds_or(asked.seeds),
    )
}

/// Returns the table of the workload that an input says.
fn answer<P: NamedPolicy, G: Progress>(
    alloc: Global,
    progress: &G,
    asked: &Asked<'_, P>,
    input: &[u8],
) -> Result<Vec<u8>, WorkbenchFault>
    ensures compared { IfOk result (λ bytes. IsComparison P.naming P.chosen asked.now.form asked.now.policies.now asked.now.seeds.now input.now bytes.items) }
    ensures fault { IfErr result (λ fault. IsRefusalOf P.naming input.now fault) }
{
    let workload = workload_of(alloc, input)?;
    table_for(alloc, progress, asked, &workload)
}

/// Reads a workload, which is TOML, to its end, or until it is too long. Simulates it under each policy by each seed, and writes
/// a table of what was measured. What tells of the progress is told of each simulation before it begins. Each has the CPUs and the
/// ring of the workload, and the policy of its column. That it has the ticks, the seed and the workload's threads is in no clause,
/// and is tested: each case is computed once more.
///
/// The reads end at the first that gives no byte, and are at most 1,048,578. At most [`MOST_READ_BYTES`] are read.
///
/// # Errors
///
/// `ReadFailed` if a read fails. `Workload` if what was read is no workload. `OutOfMemory` if out of memory. `Unreadable` if a
/// simulation wrote a line that is none of a script. In each of these cases nothing was written. `WriteFailed` if a write
/// fails or takes no byte: a beginning of the table was written, short of the whole.
pub fn compare_workload<P: NamedPolicy, G: Progress, R: Read, W: Write>(
    alloc: Global,
    progress: &G,
    reader: &mut R,
    writer: &mut W,
    asked: &Asked<'_, P>,
) -> Result<(), WorkbenchFault>
    ensures written { OnOk result (WritesComparison P.naming P.chosen asked.now.form asked.now.policies.now asked.now.seeds.now (R.remaining reader.old) (R.remaining reader.new) (W.contents writer.old) (W.contents writer.new)) }
    ensures bounded { ConsumesAtMost MOST_READ_BYTES (R.remaining reader.old) (R.remaining reader.new) }
    ensures refused { IfErr result (λ e. IsRefusal P.naming (R.remaining reader.old) (R.remaining reader.new) e) }
    ensures unwritten { IfErr result (λ e. (IsOfWriting e → ⊥) → Keeps (W.contents writer.old) (W.contents writer.new)) }
    ensures begun { IfErr result (λ e. IsOfWriting e → BeginsComparison P.naming P.chosen asked.now.form asked.now.policies.now asked.now.seeds.now (R.remaining reader.old) (R.remaining reader.new) (W.contents writer.old) (W.contents writer.new)) }
{
    let input = input_of(alloc, reader)?;
    let table = answer(alloc, progress, asked, &input)?;
    match write_out(writer, &table) {
        Ok(()) => Ok(()),
        Err(_) => Err(WorkbenchFault::WriteFailed),
    }
}
