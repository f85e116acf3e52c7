//! How many messages wait while lists are served and a shift drains, turn by turn.
//!
//! All events are of one thread, so its number tells how many messages were posted. In each turn the shift drains, stamps
//! the thread by the number that it knows, and commits that. The call keeps both numbers. The one that was stamped is how many messages the
//! shift had taken, and the one that the kernel saw is how many were posted when it landed.

use crate::events::parcels;
use crate::lists::{Crowd, Size, Work, make_lists};
use crate::watched::{TURN, Watched};
use gs_policy::FirstCome;
use gs_replies::Reply;
use gs_runner::{Call, CallRef, Called, Calls, Shift, Step};
use gs_slots::{Flags, SlotMut, SlotState};
use gs_status::Mask;
use std::alloc::{AllocError, Global};
use std::rt::Clock;
use std::sync::Wait;
use std::thread::Threads;

/// The CPU that the thread is to run on.
const CPU: u16 = 1;

/// The most messages that are taken in a turn.
const MOST: u32 = 1_024;

/// A shift of so many turns.
fn make_shift(alloc: Global, turns: u32) -> Result<Shift<FirstCome>, AllocError> {
    let turn: [Step<FirstCome>; TURN] = [
        Step::Drain { max: MOST },
        Step::Stamp {
            cpu: CPU,
            tid: 1,
            flags: Flags::NONE,
        },
        Step::Commit { mask: Mask::new(2) },
    ];
    let mut steps = Vec::with_capacity(alloc, turns as usize * TURN)?;
    for _ in 0..turns {
        steps.extend_from_slice(&turn)?;
    }
    Ok(Shift { steps })
}

/// Where the messages stood as a turn of the shift landed.
#[derive(Clone, Copy)]
struct Standing {
    /// How many were posted.
    posted: u32,
    /// How many of these were taken.
    taken: u32,
}

/// Returns where the messages stood as a call landed a slot, if it did.
fn stands(call: &Call) -> Option<Standing> {
    let Called::Committed(slots) = &call.called else {
        return None;
    };
    let Reply::Landed { landings, .. } = &call.reply else {
        return None;
    };
    let (cpu, bytes) = slots.as_slice().first()?;
    let landing = landings.as_slice().first()?;
    let mut bytes = *bytes;
    let Ok(SlotState::Stamped { stamp }) = SlotMut::over(*cpu, &mut bytes).state() else {
        return None;
    };
    Some(Standing {
        posted: landing.seen,
        taken: stamp.tseq,
    })
}

/// Returns the call at a place, if it is a commit.
fn commit_at<'a>(calls: &Calls<'a>, index: usize) -> Option<&'a Call> {
    match calls.get(index) {
        Some(CallRef::Other { call }) if matches!(call.called, Called::Committed(_)) => Some(call),
        _ => None,
    }
}

/// Writes a line for each turn that landed: the nanoseconds up to its end, how many messages were posted, and how many were
/// taken. Returns how many lines there are, `None` if not all can be written.
fn show<R: Print>(rt: &R, calls: &Calls<'_>, ends: &[u64]) -> Option<u64> {
    let mut ends = ends;
    let mut lines: u64 = 0;
    for index in 0..calls.len() {
        if let Some(call) = commit_at(calls, index) {
            let (end, later) = ends.split_first()?;
            ends = later;
            if let Some(Standing { posted, taken }) = stands(call) {
                println!(rt; "{end} {posted} {taken}").ok()?;
                lines = lines.wrapping_add(1);
            }
        }
    }
    Some(lines)
}

fn prepare(alloc: Global, size: Size, turns: u32) -> Result<Work, AllocError> {
    let lists = make_lists(alloc, Crowd::One, size)?;
    Work::new(alloc, lists, make_shift(alloc, turns)?)
}

/// Runs the lists beside a shift of as many turns as there are events, and writes a line for each turn that landed.
/// Returns how many lines there are. `None` if out of memory, if the events are too many for a ring, if the run did not settle,
/// or if not all can be written.
pub(crate) fn watch_lists<R: Threads + Wait + Clock + Print + Sync>(
    rt: &R,
    alloc: Global,
    size: Size,
) -> Option<u64> {
    let turns = size.lists.checked_mul(size.calls)?;
    let work = prepare(alloc, size, turns).ok()?;
    let gate = Watched::new(rt, alloc, size.lists as usize, turns as usize)?;
    let finished = work.run(rt, alloc, parcels(size.lists, size.calls)?, &gate)?;
    show(rt, &finished.closed.calls(), gate.into_ends().as_slice())
}
