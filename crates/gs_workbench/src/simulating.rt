//! A workload, from a reader, and its simulation, to a writer.

ghost use Rattle.std.specs.Prelude.{◌≡◌, ◌<◌, ℕ, List, IfOk, IfErr, OnErr, OnOk, length, take};
ghost use Rattle.std.specs.Io.KnownBytes.{Appends, Keeps};
ghost use Rattle.gs_simulate.specs.Heard.{IsHeaded, IsHeard};
ghost use Rattle.gs_workbench.specs.Settings.{policy_of};
ghost use Rattle.gs_trace.specs.Streams.{ConsumesAtMost, IsRead};
ghost use Rattle.gs_trace.specs.declared.pipe.TheConstants.{MOST_READ_BYTES};
ghost use Rattle.gs_workbench.specs.Written.{BeginsOf, BeginsScript, IsOfReading, IsOfWriting, IsRefusal, IsRefusalOf, IsSimulated, WritesOf, WritesScript, of_simulation, of_workload};
ghost use Rattle.gs_workload.specs.Read.{Says};

use crate::asked::{Asked, settings_of};
use crate::fault::WorkbenchFault;
use gs_script::NamedPolicy;
use gs_simulate::{SimulateFault, Simulated, simulate};
use gs_trace::{InputError, MOST_READ_BYTES, read_all, write_out};
use gs_workload::{Workload, WorkloadFault, read_workload};
use std::alloc::Global;
use std::io::{Read, Write};

/// Returns a fault of a workload as one of its simulation.
fn of_workload(fault: WorkloadFault) -> WorkbenchFault
    ensures { result ≡ of_workload fault }
{
    if matches!(fault, WorkloadFault::OutOfMemory) {
        return WorkbenchFault::OutOfMemory;
    }
    WorkbenchFault::Workload(fault)
}

/// Returns the workload that an input says, which is TOML.
///
/// # Errors
///
/// `Workload` if the input is no workload, with its first fault. `OutOfMemory` if out of memory.
#[tactic(auto, using(crate::proofs::Refusing::refused_so))]
pub fn workload_of<P: NamedPolicy>(
    alloc: Global,
    input: &[u8],
) -> Result<Workload<P>, WorkbenchFault>
    ensures says { IfOk result (λ workload. Says P.naming input.now workload) }
    ensures fault { IfErr result (λ fault. IsRefusalOf P.naming input.now fault) }
{
    read_workload(alloc, input).map_err(of_workload)
}

/// Returns a fault of a simulation as one of its workload.
fn of_simulation(fault: SimulateFault) -> WorkbenchFault
    ensures { result ≡ of_simulation fault }
{
    match fault {
        SimulateFault::OutOfMemory => WorkbenchFault::OutOfMemory,
        SimulateFault::Unreadable(fault) => WorkbenchFault::Unreadable(fault),
    }
}

/// Simulates a workload, as it is asked for.
///
/// # Errors
///
/// `OutOfMemory` if out of memory. `Unreadable` if the simulation wrote a line that is none of a script.
#[tactic(auto, using(crate::proofs::Refusing::refused_by))]
pub fn simulate_as<P: NamedPolicy>(
    alloc: Global,
    asked: Asked<P>,
    workload: &Workload<P>,
) -> Result<Simulated<P>, WorkbenchFault>
    ensures heard { IfOk result (λ s. IsHeard P.naming P.chosen s.text s.session) }
    ensures headed { IfOk result (λ s. IsHeaded P.naming workload.now.cpus workload.now.ring (policy_of P.naming asked.policy workload.now.policy) s.text) }
    ensures fault { (input : List ℕ) → IfErr result (λ fault. IsRefusalOf P.naming input fault) }
{
    simulate(alloc, workload, settings_of(asked, workload)).map_err(of_simulation)
}

/// Simulates the workload that an input says.
fn simulated<P: NamedPolicy>(
    alloc: Global,
    asked: Asked<P>,
    input: &[u8],
) -> Result<Simulated<P>, WorkbenchFault>
    ensures simulated { IfOk result (λ s. IsSimulated P.naming P.chosen asked input.now s.text) }
    ensures fault { IfErr result (λ fault. IsRefusalOf P.naming input.now fault) }
{
    let workload = workload_of(alloc, input)?;
    simulate_as(alloc, asked, &workload)
}

/// Returns all that a reader has, or a beginning of it that is longer than a workload may be.
///
/// At most [`MOST_READ_BYTES`] are read.
///
/// # Errors
///
/// `ReadFailed` if a read fails. `OutOfMemory` if out of memory.
pub fn input_of<R: Read>(alloc: Global, reader: &mut R) -> Result<Vec<u8>, WorkbenchFault>
    ensures read { IfOk result (λ bytes. IsRead (R.remaining reader.old) (R.remaining reader.new) bytes.items) }
    ensures bounded { ConsumesAtMost MOST_READ_BYTES (R.remaining reader.old) (R.remaining reader.new) }
    ensures unread { IfErr result IsOfReading }
{
    match read_all(alloc, reader) {
        Ok(input) => Ok(input),
        Err(InputError::Failed) => Err(WorkbenchFault::ReadFailed),
        Err(InputError::OutOfMemory) => Err(WorkbenchFault::OutOfMemory),
    }
}

/// Writes the script of a simulation.
fn write_script<P: NamedPolicy, W: Write>(
    simulated: &Simulated<P>,
    writer: &mut W,
) -> Result<(), WorkbenchFault>
    ensures written { OnOk result (Appends (W.contents writer.old) (W.contents writer.new) simulated.now.text) }
    ensures begun { OnErr result ((n : ℕ) × (n < length simulated.now.text) × Appends (W.contents writer.old) (W.contents writer.new) (take n simulated.now.text)) }
    ensures fault { IfErr result (λ e. e ≡ WorkbenchFault.WriteFailed) }
{
    write_out(writer, simulated.text()).map_err(|_| WorkbenchFault::WriteFailed)
}

/// Simulates the workload that an input says, and writes the script. What was simulated is owned here alone, where there is one way out.
fn write_simulated<P: NamedPolicy, W: Write>(
    alloc: Global,
    asked: Asked<P>,
    input: &[u8],
    writer: &mut W,
) -> Result<(), WorkbenchFault>
    ensures written { OnOk result (WritesOf P.naming P.chosen asked input.now (W.contents writer.old) (W.contents writer.new)) }
    ensures refused { IfErr result (λ e. (IsOfWriting e → ⊥) → IsRefusalOf P.naming input.now e) }
    ensures unwritten { IfErr result (λ e. (IsOfWriting e → ⊥) → Keeps (W.contents writer.old) (W.contents writer.new)) }
    ensures begun { IfErr result (λ e. IsOfWriting e → BeginsOf P.naming P.chosen asked input.now (W.contents writer.old) (W.contents writer.new)) }
{
    let simulated = simulated(alloc, asked, input)?;
    write_script(&simulated, writer)
}

/// Reads a workload, which is TOML, to its end, or until it is too long. Simulates it, and writes the script of what happened.
///
/// The reads end at the first that gives no byte, and are at most 1,048,578. At most [`MOST_READ_BYTES`] are read.
///
/// # Errors
///
/// `ReadFailed` if a read fails. `Workload` if what was read is no workload. `OutOfMemory` if out of memory. `Unreadable` if the
/// simulation wrote a line that is none of a script. In each of these cases nothing was written. `WriteFailed` if a write
/// fails or takes no byte: a beginning of the script was written, short of the whole.
pub fn simulate_workload<P: NamedPolicy, R: Read, W: Write>(
    alloc: Global,
    reader: &mut R,
    writer: &mut W,
    asked: Asked<P>,
) -> Result<(), WorkbenchFault>
    ensures written { OnOk result (WritesScript P.naming P.chosen asked (R.remaining reader.old) (R.remaining reader.new) (W.contents writer.old) (W.contents writer.new)) }
    ensures bounded { ConsumesAtMost MOST_READ_BYTES (R.remaining reader.old) (R.remaining reader.new) }
    ensures refused { IfErr result (λ e. IsRefusal P.naming (R.remaining reader.old) (R.remaining reader.new) e) }
    ensures unwritten { IfErr result (λ e. (IsOfWriting e → ⊥) → Keeps (W.contents writer.old) (W.contents writer.new)) }
    ensures begun { IfErr result (λ e. IsOfWriting e → BeginsScript P.naming P.chosen asked (R.remaining reader.old) (R.remaining reader.new) (W.contents writer.old) (W.contents writer.new)) }
{
    let input = input_of(alloc, reader)?;
    write_simulated(alloc, asked, &input, writer)
}
