//! Slots of lines, by which one that comes again is known, and what is kept for it.

use std::alloc::AllocError;

/// Lines are told apart by so many slots. What is kept for a line is kept for all lines of its slot. They take 8 KiB, which a processor
/// has nearest at hand.
const SLOTS: usize = 1_024;

/// By this, almost all of some hundred lines that differ in one number have slots of their own.
const MULTIPLIER: u64 = 0x1900_BD4C_A7CC_21FB;

/// What is noted of the lines of a slot.
#[derive(Clone, Copy)]
pub(crate) struct Slot {
    /// The mark of the line that came last.
    mark: u32,
    /// Which of those that are kept is kept for these lines, counted from 1, or 0 if none is.
    place: u32,
}

/// Returns a mark of a line, by its last eight bytes, or by its first and last four if it has fewer. Lines that are the same have the
/// same.
#[inline(always)]
pub(crate) fn mark_of(line: &[u8]) -> u32 {
    let word = match line {
        [.., a, b, c, d, e, f, g, h] => u64::from_le_bytes([*a, *b, *c, *d, *e, *f, *g, *h]),
        [a, b, c, d, ..] => {
            let last = &line[line.len() - 4..];
            u64::from_le_bytes([*a, *b, *c, *d, last[0], last[1], last[2], last[3]])
        }
        _ => 0,
    };
    (word.wrapping_mul(MULTIPLIER) >> 32) as u32
}

/// Returns the slot of the lines that have a mark: its upper ten bits, of which there are as many values as slots.
#[inline(always)]
fn slot_of(mark: u32) -> usize {
    (mark >> 22) as usize
}

/// Makes the slots, if there are none yet. It fails only if out of memory.
#[inline(always)]
pub(crate) fn make_slots(slots: &mut Vec<Slot>) -> Result<(), AllocError> {
    if slots.is_empty() {
        slots.resize(SLOTS, Slot { mark: 0, place: 0 })?;
    }
    Ok(())
}

/// Notes a mark in its slot, and returns whether it came before with no other between.
#[inline(always)]
pub(crate) fn note_mark(slots: &mut [Slot], mark: u32) -> bool {
    let at = slot_of(mark);
    if slots.len() <= at {
        return false;
    }
    if slots[at].mark == mark {
        return true;
    }
    slots[at].mark = mark;
    false
}

/// Returns what is kept for the lines that have a mark, by its place, counted from 1, or 0 if nothing is.
#[inline(always)]
pub(crate) fn place_of(slots: &[Slot], mark: u32) -> usize {
    match slots.get(slot_of(mark)) {
        Some(slot) => slot.place as usize,
        None => 0,
    }
}

/// Sets what is kept for the lines that have a mark, by its place.
#[inline(always)]
pub(crate) fn set_place(slots: &mut [Slot], mark: u32, place: usize) {
    let at = slot_of(mark);
    if at < slots.len() {
        slots[at].place = u32::try_from(place).unwrap_or(0);
    }
}
