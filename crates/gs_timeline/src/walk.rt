ghost use Rattle.std.specs.Prelude.{◌≡◌, ◌+◌, ◌<◌, ◌≤◌, ℕ, Some, false, true, IfOk, OnOk, get_or, length, replicate, slice_get};
ghost use Rattle.std.specs.Option.{option_map};
ghost use Rattle.gs_timeline.specs.Homes.{AreHome};
ghost use Rattle.gs_timeline.specs.Lanes.{LaneOf, each_then, empties, lane_then, left, placing, subject, vacant};
ghost use Rattle.gs_timeline.specs.Stays.{all_stays, stays};

use crate::homes::Homes;
use crate::lane::Lane;
use crate::stay::Stay;
use gs_journal::{Entry, Journal};
use gs_layout::Message;
use std::alloc::{AllocError, Global};

/// Changes each CPU from one on as an entry says.
fn hear_each(lanes: &mut [Lane], cpu: u16, place: usize, entry: &Entry) -> Result<(), AllocError>
    requires { cpu + length lanes.old ≤ u16.MAX }
    ensures { OnOk result (lanes.new ≡ each_then (lane_then place entry.now) cpu lanes.old) }
{
    if let Some((first, others)) = lanes.split_first_mut() {
        first.hear(cpu, place, entry)?;
        hear_each(others, cpu + 1, place, entry)?;
    }
    Ok(())
}

/// Ends the stay of whoever is on a CPU, from one on, by the entry of this place.
fn end_each(lanes: &mut [Lane], cpu: u16, place: usize) -> Result<(), AllocError>
    requires { cpu + length lanes.old ≤ u16.MAX }
    ensures { OnOk result (lanes.new ≡ each_then (λ c. left c place) cpu lanes.old) }
{
    if let Some((first, others)) = lanes.split_first_mut() {
        first.end(cpu, place)?;
        end_each(others, cpu + 1, place)?;
    }
    Ok(())
}

/// Returns whether an entry takes a thread off its CPU, or all.
#[inline(always)]
fn empties_a_seat(entry: &Entry) -> bool
    ensures { result ≡ empties entry.now }
{
    match entry {
        Entry::Posted {
            message: Message::Thread { change, .. },
        } => change.takes_off_cpu(),
        _ => matches!(entry, Entry::Torn),
    }
}

/// Returns the thread that an entry places, and on which CPU, if it places one.
#[inline(always)]
fn placing(entry: &Entry) -> Option<(u32, u16)>
    ensures { result ≡ placing entry.now }
{
    match entry {
        Entry::Placed { tid, cpu, .. } => Some((*tid, *cpu)),
        _ => None,
    }
}

/// Returns the thread that an entry is about, if it is a message about one.
#[inline(always)]
fn subject(entry: &Entry) -> Option<u32>
    ensures { result ≡ subject entry.now }
{
    match entry {
        Entry::Posted {
            message: Message::Thread { tid, .. },
        } => Some(*tid),
        _ => None,
    }
}

/// Changes all CPUs as the entry of a place says.
fn hear_everywhere(lanes: &mut [Lane], journal: &Journal, place: usize) -> Result<(), AllocError>
    requires within { place < length journal.now.entries }
    requires few { length lanes.old ≤ u16.MAX }
    ensures { OnOk result (lanes.new ≡ each_then (lane_then place (get_or journal.now.entries place Entry.Torn)) 0 lanes.old) }
{
    hear_each(lanes, 0, place, &journal.entry(place))
}

/// Takes a thread off its CPU, as the entry of a place does. It looks only at that CPU, if it is known.
#[inline(always)]
fn leave(lanes: &mut [Lane], homes: &Homes, tid: u32, place: usize) -> Result<(), AllocError>
    requires few { length lanes.old ≤ u16.MAX }
    requires home { AreHome homes.now.cpus.items 0 lanes.old }
    ensures { OnOk result ((x : Entry) → empties x ≡ true → subject x ≡ Some tid → lanes.new ≡ each_then (lane_then place x) 0 lanes.old) }
{
    let Some(cpu) = homes.cpu(tid) else {
        return Ok(());
    };
    if cpu as usize >= lanes.len() {
        return Ok(());
    }
    lanes[cpu as usize].leave(cpu, tid, place)
}

/// Places a thread on a CPU, as the entry of a place does. It looks only at that CPU, and at the one where the thread may be.
#[inline(always)]
fn seat(
    lanes: &mut [Lane],
    homes: &mut Homes,
    tid: u32,
    cpu: u16,
    place: usize,
) -> Result<(), AllocError>
    requires few { length lanes.old ≤ u16.MAX }
    requires home { homes.old.lost ≡ false → AreHome homes.old.cpus.items 0 lanes.old }
    ensures lanes { OnOk result ((x : Entry) → empties x ≡ false → placing x ≡ Some (tid, cpu) → lanes.new ≡ each_then (lane_then place x) 0 lanes.old) }
    ensures home { OnOk result ((x : Entry) → empties x ≡ false → placing x ≡ Some (tid, cpu) → homes.new.lost ≡ false → AreHome homes.new.cpus.items 0 lanes.new) }
{
    if cpu as usize >= lanes.len() {
        return Ok(());
    }
    homes.place(lanes, tid, cpu)?;
    lanes[cpu as usize].place(cpu, tid, place)
}

/// Changes the CPUs as the entry of a place says. It looks only at those that the entry may change.
#[inline(always)]
fn hear_at(
    lanes: &mut [Lane],
    homes: &mut Homes,
    journal: &Journal,
    place: usize,
) -> Result<(), AllocError>
    requires within { place < length journal.now.entries }
    requires few { length lanes.old ≤ u16.MAX }
    requires home { homes.old.lost ≡ false → AreHome homes.old.cpus.items 0 lanes.old }
    ensures lanes { OnOk result (lanes.new ≡ each_then (lane_then place (get_or journal.now.entries place Entry.Torn)) 0 lanes.old) }
    ensures home { OnOk result (homes.new.lost ≡ false → AreHome homes.new.cpus.items 0 lanes.new) }
{
    let entry = journal.entry(place);
    if empties_a_seat(&entry) {
        let Some(tid) = subject(&entry) else {
            return hear_everywhere(lanes, journal, place);
        };
        if homes.is_lost() {
            return hear_everywhere(lanes, journal, place);
        }
        return leave(lanes, homes, tid, place);
    }
    let Some((tid, cpu)) = placing(&entry) else {
        return Ok(());
    };
    seat(lanes, homes, tid, cpu, place)
}

/// Counts a thread that an entry places, by its CPU.
#[inline(always)]
pub(crate) fn count_placing(counts: &mut [usize], entry: &Entry) {
    let Some((_, cpu)) = placing(entry) else {
        return;
    };
    if let Some(count) = counts.get_mut(cpu as usize) {
        *count = count.saturating_add(1);
    }
}

/// Returns how many threads were placed on each of so many CPUs: at most so many stays are there.
fn placings(alloc: Global, journal: &Journal, cpus: u16) -> Result<Vec<usize>, AllocError> {
    let mut counts = vec![in alloc; 0; cpus as usize]?;
    for place in 0..journal.len() {
        count_placing(&mut counts, &journal.entry(place));
    }
    Ok(counts)
}

/// Makes the lanes of so many CPUs on which nobody was yet, each with room for so many stays.
fn vacant_lanes(alloc: Global, cpus: u16, rooms: &[usize]) -> Result<Vec<Lane>, AllocError>
    ensures { IfOk result (λ lanes. lanes.items ≡ replicate cpus vacant) }
{
    let mut lanes = Vec::with_capacity(alloc, cpus as usize)?;
    for cpu in 0..cpus {
        let room = rooms.get(cpu as usize).copied().unwrap_or(0);
        lanes.push(Lane::with_room(alloc, room)?)?;
    }
    Ok(lanes)
}

/// Returns the stays on each of so many CPUs, in order. Each is as long as can be, of one thread. A thread
/// that is there still stays to the last entry.
///
/// It walks the entries twice: to make exact room, and then for the stays. It looks at a CPU only if an entry may change who
/// is on it.
///
/// # Errors
///
/// `AllocError` if out of memory.
pub fn stays(alloc: Global, journal: &Journal, cpus: u16) -> Result<Vec<Lane>, AllocError>
    ensures count { IfOk result (λ lanes. length lanes.items ≡ cpus) }
    ensures stays { IfOk result (λ lanes. (c : ℕ) → c < cpus → option_map (λ (lane : LaneOf). lane.ended) (slice_get lanes.items c) ≡ Some (stays journal.now.entries c)) }
{
    let rooms = placings(alloc, journal, cpus)?;
    stays_in(alloc, journal, cpus, &rooms)
}

/// Returns the stays on each of so many CPUs, as [`stays`] does. It is given how many threads were placed on each, and makes
/// room for so many stays there.
///
/// # Errors
///
/// `AllocError` if out of memory.
pub(crate) fn stays_in(
    alloc: Global,
    journal: &Journal,
    cpus: u16,
    rooms: &[usize],
) -> Result<Vec<Lane>, AllocError>
    ensures count { IfOk result (λ lanes. length lanes.items ≡ cpus) }
    ensures stays { IfOk result (λ lanes. (c : ℕ) → c < cpus → option_map (λ (lane : LaneOf). lane.ended) (slice_get lanes.items c) ≡ Some (stays journal.now.entries c)) }
{
    let mut lanes = vacant_lanes(alloc, cpus, rooms)?;
    let mut homes = Homes::new(alloc);
    for place in 0..journal.len() {
        hear_at(lanes.as_mut_slice(), &mut homes, journal, place)?;
    }
    let end = journal.len();
    end_each(lanes.as_mut_slice(), 0, end)?;
    Ok(lanes)
}

/// Returns all stays on so many CPUs, those of each CPU behind those of the one before. It walks the entries as [`stays`] does.
///
/// # Errors
///
/// `AllocError` if out of memory.
#[tactic(auto, unfolding(crate::specs::Stays::all_stays))]
pub fn all_stays(alloc: Global, journal: &Journal, cpus: u16) -> Result<Vec<Stay>, AllocError>
    ensures { IfOk result (λ all. all.items ≡ all_stays journal.now.entries cpus) }
{
    let lanes = stays(alloc, journal, cpus)?;
    let mut all = Vec::new(alloc);
    for cpu in 0..cpus {
        all.extend_from_slice(lanes[cpu as usize].stays())?;
    }
    Ok(all)
}
