//! A slot as bytes.

ghost use Rattle.std.specs.Prelude.{◌≡◌, ◌==◌, ◌+◌, ◌-◌, ◌≤◌, ◌++◌, length, slice_index, drop, true, false, Ok};
ghost use Rattle.gs_layout.specs.Spelling.{IsCpuOrNone};
ghost use Rattle.gs_slots.specs.declared.state.SlotState.{SlotState};
ghost use Rattle.gs_slots.specs.declared.state.Stamp.{Stamp};
ghost use Rattle.gs_slots.specs.Spelling.{IsSpellableStamp, can_hold, done_bytes, is_blank, is_result, result_bytes, slot_spelling, stamp_bytes};
ghost use Rattle.gs_slots.specs.Reading.{fields_in, is_flagged, outcome_in, stamp_in, state_in};
ghost use Rattle.gs_slots.specs.Busy.{is_busy};
ghost use Rattle.gs_slots.specs.State.{has_stamp, is_malformed, refused};
ghost use Rattle.gs_slots.specs.Tests.{is_done, is_idle, is_of, is_stamp, is_zero_at, passes};

use crate::flags::{are_flags, flags_byte, flags_in};
use crate::state::{Malformed, SlotState, Stamp};
use crate::wire::{
    CPU_AT, DONE, END_AT, FLAGS_AT, GENERATION_AT, OUTCOME_AT, PLACE_AT, SEEN_AT, SLOT_LEN,
    STAMPED, STATE_AT, TID_AT, TSEQ_AT, WORD_LEN,
};
use byteorder::{ByteOrder, LittleEndian};
use gs_layout::{
    OUTCOMES, Outcome, cpu_number, cpu_numbered, is_cpu_or_none, u16_at, u32_at, u64_at,
};

/// Returns whether these bytes have the flag of a group, if they are a slot's.
pub(crate) fn is_flagged(bytes: &[u8]) -> bool
    requires { length bytes.now ≡ SLOT_LEN }
    ensures { result ≡ is_flagged bytes.now }
{
    flags_in(bytes[FLAGS_AT]).group
}

fn stamp_at(bytes: &[u8]) -> Stamp
    requires { length bytes.now ≡ SLOT_LEN }
    ensures { result ≡ stamp_in bytes.now }
{
    Stamp {
        generation: u32_at(bytes, GENERATION_AT),
        tid: u32_at(bytes, TID_AT),
        tseq: u32_at(bytes, TSEQ_AT),
        flags: flags_in(bytes[FLAGS_AT]),
    }
}

fn outcome_at(bytes: &[u8]) -> Outcome
    requires { length bytes.now ≡ SLOT_LEN }
    ensures { result ≡ outcome_in bytes.now }
{
    Outcome::numbered(u16_at(bytes, OUTCOME_AT)).unwrap_or(Outcome::Malformed)
}

/// Returns what the fields of a slot say, whatever its other bytes are.
fn fields_at(bytes: &[u8]) -> SlotState
    requires { length bytes.now ≡ SLOT_LEN }
    ensures { result ≡ fields_in bytes.now }
{
    match bytes[STATE_AT] {
        STAMPED => SlotState::Stamped {
            stamp: stamp_at(bytes),
        },
        DONE => SlotState::Done {
            stamp: stamp_at(bytes),
            outcome: outcome_at(bytes),
            at: cpu_numbered(u16_at(bytes, PLACE_AT)),
            seen: u32_at(bytes, SEEN_AT),
        },
        _ => SlotState::Idle,
    }
}

/// Returns whether the eight bytes from a place on are zero.
fn is_zero_at(place: usize, bytes: &[u8]) -> bool
    requires { place + WORD_LEN ≤ length bytes.now }
    ensures { result ≡ is_zero_at place bytes.now }
{
    u64_at(bytes, place) == 0
}

/// Returns whether no flag but the first two is set, and the CPU is this one.
fn is_of(cpu: u16, bytes: &[u8]) -> bool
    requires { length bytes.now ≡ SLOT_LEN }
    ensures { result ≡ is_of cpu bytes.now }
{
    are_flags(bytes[FLAGS_AT]) && u16_at(bytes, CPU_AT) == cpu
}

fn is_idle(bytes: &[u8]) -> bool
    requires { length bytes.now ≡ SLOT_LEN }
    ensures { result ≡ is_idle bytes.now }
{
    is_zero_at(0, bytes)
        && is_zero_at(WORD_LEN, bytes)
        && is_zero_at(OUTCOME_AT, bytes)
        && is_zero_at(END_AT, bytes)
}

/// Returns whether these are other bytes than those of an idle slot.
#[tactic(auto, using(crate::proofs::Busy::busy_by_test))]
pub(crate) fn is_busy(bytes: &[u8]) -> bool
    requires { length bytes.now ≡ SLOT_LEN }
    ensures { result ≡ is_busy bytes.now }
{
    !is_idle(bytes)
}

fn is_stamp(cpu: u16, bytes: &[u8]) -> bool
    requires { length bytes.now ≡ SLOT_LEN }
    ensures { result ≡ is_stamp cpu bytes.now }
{
    is_of(cpu, bytes) && is_zero_at(OUTCOME_AT, bytes) && is_zero_at(END_AT, bytes)
}

fn is_done(cpu: u16, bytes: &[u8]) -> bool
    requires { length bytes.now ≡ SLOT_LEN }
    ensures { result ≡ is_done cpu bytes.now }
{
    is_of(cpu, bytes) && u16_at(bytes, OUTCOME_AT) < OUTCOMES && is_zero_at(END_AT, bytes)
}

/// Returns whether the fields of the slot of a CPU are right, and all other bytes zero.
fn passes(cpu: u16, bytes: &[u8]) -> bool
    requires { length bytes.now ≡ SLOT_LEN }
    ensures { result ≡ passes cpu bytes.now }
{
    match bytes[STATE_AT] {
        STAMPED => is_stamp(cpu, bytes),
        DONE => is_done(cpu, bytes),
        _ => is_idle(bytes),
    }
}

/// Returns whether this can be left of a transaction: a CPU or none; of a malformed slot nothing but that.
fn is_result(stamp: &Stamp, outcome: Outcome, at: Option<u16>, seen: u32) -> bool
    ensures { result ≡ is_result stamp.now outcome at seen }
{
    if outcome == Outcome::Malformed {
        return is_blank(stamp, at, seen);
    }
    is_cpu_or_none(at)
}

/// Returns whether the numbers of a transaction, and of what became of it, are all zero, and no CPU is named.
fn is_blank(stamp: &Stamp, at: Option<u16>, seen: u32) -> bool
    ensures { result ≡ is_blank stamp.now at seen }
{
    stamp.generation == 0
        && stamp.tid == 0
        && stamp.tseq == 0
        && flags_byte(stamp.flags) == 0
        && at.is_none()
        && seen == 0
}

/// Returns whether a slot can hold this.
fn can_hold(state: &SlotState) -> bool
    ensures { result ≡ can_hold state.now }
{
    match state {
        SlotState::Done {
            stamp,
            outcome,
            at,
            seen,
        } => is_result(stamp, *outcome, *at, *seen),
        _ => true,
    }
}

/// Returns what is read of the slot of a CPU.
///
/// # Errors
///
/// `Malformed` if its bytes spell no state of a slot of this CPU.
// In line, as are those that hand it on, so that a caller's `match` takes the fields where they lie.
#[inline(always)]
pub(crate) fn state_at(cpu: u16, bytes: &[u8]) -> Result<SlotState, Malformed>
    requires { length bytes.now ≡ SLOT_LEN }
    ensures { result ≡ state_in cpu bytes.now }
{
    if !passes(cpu, bytes) {
        return Err(Malformed);
    }
    let fields = fields_at(bytes);
    if can_hold(&fields) {
        Ok(fields)
    } else {
        Err(Malformed)
    }
}

/// Writes what stands before the outcome in a slot that is not idle.
fn write_stamp(kind: u8, cpu: u16, stamp: &Stamp, out: &mut [u8])
    requires { OUTCOME_AT ≤ length out.old }
    ensures bytes { out.new ≡ stamp_bytes kind cpu stamp.now ++ drop OUTCOME_AT out.old }
    ensures numbers { IsSpellableStamp stamp.now }
{
    let Stamp {
        generation,
        tid,
        tseq,
        flags,
    } = *stamp;
    out[..CPU_AT].copy_from_slice(&[kind, flags_byte(flags)]);
    LittleEndian::write_u16(&mut out[CPU_AT..], cpu);
    LittleEndian::write_u32(&mut out[GENERATION_AT..], generation);
    LittleEndian::write_u32(&mut out[TID_AT..], tid);
    LittleEndian::write_u32(&mut out[TSEQ_AT..], tseq);
}

/// Writes what became of a transaction.
fn write_result(outcome: Outcome, at: Option<u16>, seen: u32, out: &mut [u8])
    requires { END_AT - OUTCOME_AT ≤ length out.old }
    ensures { out.new ≡ result_bytes outcome at seen ++ drop (END_AT - OUTCOME_AT) out.old }
{
    LittleEndian::write_u16(out, outcome.number());
    LittleEndian::write_u16(&mut out[PLACE_AT - OUTCOME_AT..], cpu_number(at));
    LittleEndian::write_u32(&mut out[SEEN_AT - OUTCOME_AT..], seen);
}

/// Stamps a transaction into the slot of a CPU, whatever was in it.
pub(crate) fn write_stamped(cpu: u16, stamp: &Stamp, out: &mut [u8])
    requires { length out.old ≡ SLOT_LEN }
    ensures bytes { out.new ≡ slot_spelling cpu (SlotState.Stamped stamp.now) }
    ensures numbers { IsSpellableStamp stamp.now }
{
    out.fill(0);
    write_stamp(STAMPED, cpu, stamp, out);
}

/// Makes a slot done that is stamped, and leaves its transaction in it.
fn write_done(outcome: Outcome, at: Option<u16>, seen: u32, out: &mut [u8])
    requires { length out.old ≡ SLOT_LEN }
    ensures { out.new ≡ done_bytes outcome at seen out.old }
{
    out[STATE_AT] = DONE;
    write_result(outcome, at, seen, &mut out[OUTCOME_AT..]);
}

/// Leaves in the slot of a CPU that it was malformed, and nothing else.
fn write_refused(cpu: u16, out: &mut [u8])
    requires { length out.old ≡ SLOT_LEN }
    ensures { out.new ≡ slot_spelling cpu refused }
{
    write_stamped(cpu, &Stamp::NONE, out);
    write_done(Outcome::Malformed, None, 0, out);
}

/// Leaves in the slot of a CPU what became of the transaction that is stamped in it. With the outcome
/// `Malformed` it leaves nothing but that, whatever was in the slot.
pub(crate) fn finish(cpu: u16, outcome: Outcome, at: Option<u16>, seen: u32, out: &mut [u8])
    requires size { length out.old ≡ SLOT_LEN }
    requires stamped { is_malformed outcome ≡ false → has_stamp (state_in cpu out.old) ≡ true }
    requires at { IsCpuOrNone at }
    ensures done { (s : Stamp) → is_malformed outcome ≡ false → state_in cpu out.old ≡ Ok (SlotState.Stamped s) → state_in cpu out.new ≡ Ok (SlotState.Done s outcome at seen) }
    ensures refused { is_malformed outcome ≡ true → state_in cpu out.new ≡ Ok refused }
{
    if outcome == Outcome::Malformed {
        write_refused(cpu, out);
        return;
    }
    write_done(outcome, at, seen, out);
}
