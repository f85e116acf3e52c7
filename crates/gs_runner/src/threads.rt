//! A run of lists and shifts in threads, from its start to its end.

ghost use Rattle.std.specs.Prelude.{◌≡◌, ◌+◌, ◌<◌, ◌↔◌, ◌≤◌, ℕ, IfErr, IfOk, IsTrue, length, vec_len};
ghost use Rattle.gs_link.specs.declared.poster.RtrbPoster.{RtrbPoster};
ghost use Rattle.gs_link.specs.Between.{IsPairOf, room};
ghost use Rattle.gs_replies.specs.Config.{config_fault};
ghost use Rattle.gs_runner.specs.Calls.{IsLegal};
ghost use Rattle.gs_runner.specs.Ends.{EndsAs, Follows, WhyNotRun};
ghost use Rattle.gs_runner.specs.Finishes.{IsFinished};
ghost use Rattle.gs_runner.specs.declared.pass.TheConstants.{PASSES};

use crate::answered::are_answered;
use crate::command::Command;
use crate::ending::Ended;
use crate::finished::{Finished, RunFault};
use crate::gate::Gate;
use crate::held::Held;
use crate::pass::{PASSES, Pass};
use crate::run::run_at_desk;
use crate::sheet::{Sheet, all_done, make_sheets, receipts_of};
use crate::site::Site;
use crate::start::Parts;
use crate::station::Station;
use crate::step::Shift;
use gs_policy::Counted;
use gs_replies::Config;
use std::alloc::Global;
use std::marker::Brand;
use std::sync::Wait;
use std::thread::Threads;

/// Returns whether there are more lists and shifts than passes.
fn is_too_many(lists: usize, shifts: usize) -> bool
    ensures { IsTrue result ↔ (PASSES < lists + shifts) }
{
    let most = PASSES as usize;
    lists > most || shifts > most - lists
}

/// Runs all on a station, and closes it.
fn run_and_close<
    L: Site + Send + Sync,
    P: Counted + Copy + Drop + Send + Sync,
    G: Gate + Sync,
    R: Threads + Wait + Sync,
>(
    rt: &R,
    alloc: Global,
    station: Station<L>,
    held: Held<L, P>,
    passes: Vec<Pass<L>>,
    lists: &[Vec<Command>],
    shifts: &[Shift<P>],
    gate: &G,
    sheets: &mut [Sheet],
) -> Result<Ended, RunFault>
    requires { vec_len passes ≡ PASSES }
    ensures legal { IfOk result (λ e. IsLegal L.parcels e.closed.calls e.closed.journal.entries) }
    ensures ended { IfOk result (λ e. EndsAs P e.closed.journal.entries e.threads e.end) }
    ensures fault { IfErr result (λ _. ⊥) }
{
    let mut passes = passes;
    let mut held = run_at_desk(
        rt,
        alloc,
        &station,
        held,
        lists,
        shifts,
        gate,
        passes.as_mut_slice(),
        sheets,
    );
    match station.settle_and_close(&mut held, passes) {
        Ok(ended) => Ok(ended),
        Err(_) => Err(RunFault::Close),
    }
}

/// Looks whether each thread came to its end, and whether the receipts of the lists stand in the calls.
fn finish<L: Site, P>(
    alloc: Global,
    ended: Ended,
    lists: &[Vec<Command>],
    shifts: usize,
    sheets: Vec<Sheet>,
) -> Result<Finished, RunFault>
    requires few { length lists.now + shifts ≤ PASSES }
    requires sheets { vec_len sheets ≡ length lists.now + shifts }
    requires legal { IsLegal L.parcels ended.closed.calls ended.closed.journal.entries }
    requires ended { EndsAs P ended.closed.journal.entries ended.threads ended.end }
    ensures finished { IfOk result (IsFinished P L.parcels lists.now shifts) }
    ensures fault { IfErr result (Follows L.parcels lists.now (length lists.now + shifts)) }
{
    if !all_done(sheets.as_slice()) {
        return Err(RunFault::OutOfMemory);
    }
    let Ended {
        closed,
        threads,
        end,
    } = ended;
    let Ok(receipts) = receipts_of(alloc, sheets) else {
        return Err(RunFault::OutOfMemory);
    };
    if !are_answered(&closed, lists, receipts.as_slice()) {
        return Err(RunFault::Astray);
    }
    Ok(Finished {
        closed,
        receipts,
        threads,
        end,
    })
}

/// Runs all on a station with a sheet for each thread.
fn run_noted<
    L: Site + Send + Sync,
    P: Counted + Copy + Drop + Send + Sync,
    G: Gate + Sync,
    R: Threads + Wait + Sync,
>(
    rt: &R,
    alloc: Global,
    station: Station<L>,
    held: Held<L, P>,
    passes: Vec<Pass<L>>,
    lists: &[Vec<Command>],
    shifts: &[Shift<P>],
    gate: &G,
    sheets: Vec<Sheet>,
) -> Result<Finished, RunFault>
    requires few { length lists.now + length shifts.now ≤ PASSES }
    requires passes { vec_len passes ≡ PASSES }
    requires sheets { vec_len sheets ≡ length lists.now + length shifts.now }
    ensures finished { IfOk result (IsFinished P L.parcels lists.now (length shifts.now)) }
    ensures fault { IfErr result (Follows L.parcels lists.now (length lists.now + length shifts.now)) }
{
    let mut sheets = sheets;
    match run_and_close(
        rt,
        alloc,
        station,
        held,
        passes,
        lists,
        shifts,
        gate,
        sheets.as_mut_slice(),
    ) {
        Ok(ended) => finish::<L, P>(alloc, ended, lists, shifts.len(), sheets),
        Err(fault) => Err(fault),
    }
}

/// Runs all on a station, if there are not too many lists and shifts.
fn run_on<
    L: Site + Send + Sync,
    P: Counted + Copy + Drop + Send + Sync,
    G: Gate + Sync,
    R: Threads + Wait + Sync,
>(
    rt: &R,
    alloc: Global,
    station: Station<L>,
    held: Held<L, P>,
    passes: Vec<Pass<L>>,
    lists: &[Vec<Command>],
    shifts: &[Shift<P>],
    gate: &G,
) -> Result<Finished, RunFault>
    requires { vec_len passes ≡ PASSES }
    ensures finished { IfOk result (IsFinished P L.parcels lists.now (length shifts.now)) }
    ensures fault { IfErr result (Follows L.parcels lists.now (length lists.now + length shifts.now)) }
{
    if is_too_many(lists.len(), shifts.len()) {
        return Err(RunFault::TooMany);
    }
    match make_sheets(alloc, lists.len() + shifts.len()) {
        Ok(sheets) => run_noted(
            rt, alloc, station, held, passes, lists, shifts, gate, sheets,
        ),
        Err(_) => Err(RunFault::OutOfMemory),
    }
}

/// Starts a station of these parts, which `L` names, and runs all on it.
fn run_named<
    L: Site + Send + Sync,
    P: Counted + Copy + Drop + Send + Sync,
    G: Gate + Sync,
    R: Threads + Wait + Sync,
>(
    rt: &R,
    alloc: Global,
    parts: Parts<P>,
    lists: &[Vec<Command>],
    shifts: &[Shift<P>],
    gate: &G,
) -> Result<Finished, RunFault>
    requires ledger { (parts.blank.name ≡ L.name) × (parts.blank.parts ≡ L.parts) }
    requires ring { L.is_ring parts.poster × ((p : RtrbPoster) → L.is_ring p → IsPairOf p parts.taker) }
    requires board { parts.opened.table.shared.table_id ≡ L.board }
    requires parcels { room parts.poster ≡ L.parcels }
    ensures finished { IfOk result (IsFinished P L.parcels lists.now (length shifts.now)) }
    ensures fault { IfErr result (Follows L.parcels lists.now (length lists.now + length shifts.now)) }
{
    match Station::<L>::start(alloc, parts) {
        Ok((station, held, passes)) => {
            run_on(rt, alloc, station, held, passes, lists, shifts, gate)
        }
        Err(fault) => Err(RunFault::Start(fault)),
    }
}

/// Runs each list of commands and each shift in a thread of its own, over a ring of so many parcels. The calls of a
/// list are its commands, in order. The shifts take turns, in order, with what the agent holds. Once all threads came
/// to their end, the agent follows all that was posted, and the station is closed. It returns only if each worker,
/// and the gate, comes to its end.
///
/// If it returns a run, each list has one receipt for each command, in order. Their places in the journal never fall,
/// and each that was not refused stands in the calls. The calls are a legal history for the journal, and what
/// settling answered is so of it.
///
/// # Errors
///
/// The first that applies:
///
/// - `Start` if the station cannot be started.
/// - `TooMany` if there are more than 32 lists and shifts.
/// - `OutOfMemory` if memory ran out, or a thread could not be started. Its list or shift is not run, and the others
///   are.
/// - `Close` if the station cannot be closed. That does not happen: all passes are kept.
/// - `Astray` if the receipts of a list are not those of its commands.
///
/// # Examples
///
/// One list of commands and no shift, over a ring of 100 parcels:
///
/// ```
/// let finish = run_threads(rt, alloc, config, 100, lists.as_slice(), &[], &gate);
/// Ok(match (finish, lists.first()) {
///     (Ok(finished), Some(list)) => shown_of(&finished, list.as_slice()),
///     _ => None,
/// })
/// ```
pub fn run_threads<
    P: Counted + Copy + Drop + Send + Sync,
    G: Gate + Sync,
    R: Threads + Wait + Sync,
>(
    rt: &R,
    alloc: Global,
    config: Config<P>,
    parcels: u32,
    work: &[Vec<Command>],
    shifts: &[Shift<P>],
    gate: &G,
) -> Result<Finished, RunFault>
    ensures finished { IfOk result (IsFinished P parcels work.now (length shifts.now)) }
    ensures fault { IfErr result (WhyNotRun (config_fault config) parcels work.now (length work.now + length shifts.now)) }
{
    match Parts::make(alloc, config, parcels) {
        Ok(parts) => run_named::<Brand, P, G, R>(rt, alloc, parts, work, shifts, gate),
        Err(fault) => Err(RunFault::Start(fault)),
    }
}
