//! What stands in the bytes of a slot.
use gs_layout::Outcome;
use gs_slots::{Flags, Malformed, Region, SlotMut, SlotState, Slots, Stamp};
use gs_status::MOST_CPUS;

/// The first transaction that is ever stamped for thread 1.
pub(crate) const FIRST: Stamp = Stamp {
    generation: 1,
    tid: 1,
    tseq: 1,
    flags: Flags::NONE,
};

/// [`FIRST`] in the slot of CPU 1.
const STAMPED: [u8; 32] = [
    1, 0, 1, 0, 1, 0, 0, 0, 1, 0, 0, 0, 1, 0, 0, 0, 0, 0, 0, 0, 0, 0, 0, 0, 0, 0, 0, 0, 0, 0, 0, 0,
];

/// The same after it was placed.
const PLACED: [u8; 32] = [
    2, 0, 1, 0, 1, 0, 0, 0, 1, 0, 0, 0, 1, 0, 0, 0, 0, 0, 1, 0, 1, 0, 0, 0, 0, 0, 0, 0, 0, 0, 0, 0,
];

const PREEMPTS: Flags = Flags {
    preempt: true,
    ..Flags::NONE
};

/// A transaction that preempts, of which no two numbers are alike.
const UNLIKE: Stamp = Stamp {
    generation: 3,
    tid: 258,
    tseq: 5,
    flags: PREEMPTS,
};

/// [`UNLIKE`] in the slot of CPU 1.
const UNLIKE_STAMPED: [u8; 32] = [
    1, 1, 1, 0, 3, 0, 0, 0, 2, 1, 0, 0, 5, 0, 0, 0, 0, 0, 0, 0, 0, 0, 0, 0, 0, 0, 0, 0, 0, 0, 0, 0,
];

/// The same after it was refused as stale, when the thread's number was 259.
const UNLIKE_STALE: [u8; 32] = [
    2, 1, 1, 0, 3, 0, 0, 0, 2, 1, 0, 0, 5, 0, 0, 0, 4, 0, 255, 255, 3, 1, 0, 0, 0, 0, 0, 0, 0, 0,
    0, 0,
];

/// The same of a group, without and with the flag that it preempts.
const GROUPED: Stamp = Stamp {
    flags: Flags {
        group: true,
        ..Flags::NONE
    },
    ..UNLIKE
};

const BOTH: Stamp = Stamp {
    flags: Flags {
        group: true,
        ..PREEMPTS
    },
    ..UNLIKE
};

/// [`GROUPED`] in the slot of CPU 1.
const GROUPED_STAMPED: [u8; 32] = [
    1, 2, 1, 0, 3, 0, 0, 0, 2, 1, 0, 0, 5, 0, 0, 0, 0, 0, 0, 0, 0, 0, 0, 0, 0, 0, 0, 0, 0, 0, 0, 0,
];

/// The same after it failed with its group.
const GROUP_FAILED: [u8; 32] = [
    2, 2, 1, 0, 3, 0, 0, 0, 2, 1, 0, 0, 5, 0, 0, 0, 14, 0, 255, 255, 5, 0, 0, 0, 0, 0, 0, 0, 0, 0,
    0, 0,
];

/// [`BOTH`] in the slot of CPU 1.
const BOTH_STAMPED: [u8; 32] = [
    1, 3, 1, 0, 3, 0, 0, 0, 2, 1, 0, 0, 5, 0, 0, 0, 0, 0, 0, 0, 0, 0, 0, 0, 0, 0, 0, 0, 0, 0, 0, 0,
];

/// The same after it was placed.
const BOTH_PLACED: [u8; 32] = [
    2, 3, 1, 0, 3, 0, 0, 0, 2, 1, 0, 0, 5, 0, 0, 0, 0, 0, 1, 0, 5, 0, 0, 0, 0, 0, 0, 0, 0, 0, 0, 0,
];

/// What is called on a slot.
#[derive(Clone, Copy)]
pub(crate) enum Call {
    Stamp(Stamp),
    Finish {
        outcome: Outcome,
        at: Option<u16>,
        seen: u32,
    },
    Clear,
}

/// Finishes a slot that is stamped, or any with the outcome `Malformed`. Returns whether it could be called.
fn finish(slot: SlotMut<'_>, outcome: Outcome, at: Option<u16>, seen: u32) -> bool {
    let is_stamped = matches!(slot.state(), Ok(SlotState::Stamped { .. }));
    let is_cpu_or_none = match at {
        Some(cpu) => cpu < MOST_CPUS,
        None => true,
    };
    if (!is_stamped && outcome != Outcome::Malformed) || !is_cpu_or_none {
        return false;
    }
    slot.finish(outcome, at, seen);
    true
}

/// Makes a call. Returns whether it could be made, and was not refused.
pub(crate) fn is_called(slot: SlotMut<'_>, call: &Call) -> bool {
    match call {
        Call::Stamp(it) => slot.stamp(it.generation, it.tid, it.tseq, it.flags).is_ok(),
        Call::Finish { outcome, at, seen } => finish(slot, *outcome, *at, *seen),
        Call::Clear => {
            slot.clear();
            true
        }
    }
}

/// A call on the slot of CPU 1, what is in the slot then, and its bytes.
const CALLS: [(Call, SlotState, [u8; 32]); 13] = [
    (
        Call::Stamp(FIRST),
        SlotState::Stamped { stamp: FIRST },
        STAMPED,
    ),
    (
        Call::Finish {
            outcome: Outcome::Placed,
            at: Some(1),
            seen: 1,
        },
        SlotState::Done {
            stamp: FIRST,
            outcome: Outcome::Placed,
            at: Some(1),
            seen: 1,
        },
        PLACED,
    ),
    (Call::Clear, SlotState::Idle, [0; 32]),
    (
        Call::Stamp(UNLIKE),
        SlotState::Stamped { stamp: UNLIKE },
        UNLIKE_STAMPED,
    ),
    (
        Call::Finish {
            outcome: Outcome::Stale,
            at: None,
            seen: 259,
        },
        SlotState::Done {
            stamp: UNLIKE,
            outcome: Outcome::Stale,
            at: None,
            seen: 259,
        },
        UNLIKE_STALE,
    ),
    (Call::Clear, SlotState::Idle, [0; 32]),
    (
        Call::Stamp(GROUPED),
        SlotState::Stamped { stamp: GROUPED },
        GROUPED_STAMPED,
    ),
    (
        Call::Finish {
            outcome: Outcome::GroupFailed,
            at: None,
            seen: 5,
        },
        SlotState::Done {
            stamp: GROUPED,
            outcome: Outcome::GroupFailed,
            at: None,
            seen: 5,
        },
        GROUP_FAILED,
    ),
    (Call::Clear, SlotState::Idle, [0; 32]),
    (
        Call::Stamp(BOTH),
        SlotState::Stamped { stamp: BOTH },
        BOTH_STAMPED,
    ),
    (
        Call::Finish {
            outcome: Outcome::Placed,
            at: Some(1),
            seen: 5,
        },
        SlotState::Done {
            stamp: BOTH,
            outcome: Outcome::Placed,
            at: Some(1),
            seen: 5,
        },
        BOTH_PLACED,
    ),
    (Call::Clear, SlotState::Idle, [0; 32]),
    // No byte of what was there before stays.
    (
        Call::Stamp(FIRST),
        SlotState::Stamped { stamp: FIRST },
        STAMPED,
    ),
];

/// The first call after which the slot of CPU 1 is otherwise.
fn first_wrong_call(bytes: &mut [u8; 32]) -> Option<usize> {
    for (index, (call, state, wanted)) in CALLS.iter().enumerate() {
        let called = is_called(SlotMut::over(1, bytes), call);
        let found = SlotMut::over(1, bytes).state();
        if !called || found != Ok(*state) || *bytes != *wanted {
            return Some(index);
        }
    }
    None
}

/// A CPU past those of an enclave, and the two bytes in which it stands in its slot.
const HIGH_CPUS: [(u16, u8, u8); 3] = [(255, 255, 0), (256, 0, 1), (65_534, 254, 255)];

/// The bytes of a slot, with those of its CPU in their place.
fn with_cpu(mut bytes: [u8; 32], low: u8, high: u8) -> [u8; 32] {
    bytes[2] = low;
    bytes[3] = high;
    bytes
}

/// Whether the CPU of a slot stands in its bytes as these two, once it is stamped and once it is done. The
/// slot is idle before and after it.
fn names_its_cpu(bytes: &mut [u8; 32], cpu: u16, low: u8, high: u8) -> bool {
    let was_idle = *bytes == [0; 32];
    let stamped = is_called(SlotMut::over(cpu, bytes), &Call::Stamp(UNLIKE))
        && *bytes == with_cpu(UNLIKE_STAMPED, low, high);
    let done = finish(SlotMut::over(cpu, bytes), Outcome::Stale, None, 259)
        && *bytes == with_cpu(UNLIKE_STALE, low, high);
    let refused = finish(SlotMut::over(cpu, bytes), Outcome::Malformed, Some(1), 7)
        && *bytes == with_cpu(REFUSED, low, high);
    SlotMut::over(cpu, bytes).clear();
    was_idle && stamped && done && refused
}

/// The first CPU that does not stand in the bytes of its slot.
fn first_misnamed(bytes: &mut [u8; 32]) -> Option<u16> {
    for low in 0..128u8 {
        let cpu = u16::from(low);
        if !names_its_cpu(bytes, cpu, low, 0) {
            return Some(cpu);
        }
    }
    for (cpu, low, high) in HIGH_CPUS {
        if !names_its_cpu(bytes, cpu, low, high) {
            return Some(cpu);
        }
    }
    None
}

/// The first CPU and the first call by which the bytes of the first slot are otherwise.
fn first_wrong_bytes(region: &mut Region) -> Option<(Option<u16>, Option<usize>)> {
    let (bytes, _) = Slots::next(region.lend().rest)?;
    Some((first_misnamed(bytes), first_wrong_call(bytes)))
}

#[test]
fn writes_its_layout(rt: HostRuntime) {
    let mut region = Region::new(rt.alloc(), 1).expect(&rt, "memory");
    assert_eq!(rt; first_wrong_bytes(&mut region), Some((None, None)));
}

/// CPU 1's slot after it landed malformed.
const REFUSED: [u8; 32] = [
    2, 0, 1, 0, 0, 0, 0, 0, 0, 0, 0, 0, 0, 0, 0, 0, 13, 0, 255, 255, 0, 0, 0, 0, 0, 0, 0, 0, 0, 0,
    0, 0,
];

/// The state of bytes as those of CPU 1's slot.
fn read(bytes: &mut [u8; 32]) -> Result<SlotState, Malformed> {
    SlotMut::over(1, bytes).state()
}

/// Slots of CPU 1.
const SPELT: [[u8; 32]; 10] = [
    [0; 32],
    STAMPED,
    PLACED,
    UNLIKE_STAMPED,
    UNLIKE_STALE,
    GROUPED_STAMPED,
    GROUP_FAILED,
    BOTH_STAMPED,
    BOTH_PLACED,
    REFUSED,
];

/// The first byte of a slot that can have another value, if the slot is still read as the same.
fn first_unread(bytes: &mut [u8; 32]) -> Option<(usize, u8)> {
    let state = read(bytes);
    for place in 0..32 {
        let was = bytes[place];
        for value in 0..=255u8 {
            bytes[place] = value;
            if value != was && read(bytes) == state {
                return Some((place, value));
            }
        }
        bytes[place] = was;
    }
    None
}

/// The first slot that is malformed, or in which a byte can be changed and is not seen.
fn first_inexact() -> Option<usize> {
    for (index, spelt) in SPELT.iter().enumerate() {
        let mut bytes = *spelt;
        if read(&mut bytes).is_err() || first_unread(&mut bytes).is_some() {
            return Some(index);
        }
    }
    None
}

#[test]
fn reads_each_byte(rt: HostRuntime) {
    assert_eq!(rt; first_inexact(), None);
}

/// A byte of CPU 1's slot, and what makes it malformed.
const BROKEN: [([u8; 32], usize, u8); 12] = [
    // another first byte; a flag that there is not; another CPU
    (STAMPED, 0, 3),
    (STAMPED, 1, 4),
    (STAMPED, 2, 0),
    (STAMPED, 3, 1),
    // a stamped slot with an outcome; an outcome that there is not; a CPU that there is not
    (STAMPED, 16, 1),
    (PLACED, 16, 15),
    (PLACED, 18, 128),
    // a byte behind the fields; one of an idle slot; a thread of a malformed slot
    (UNLIKE_STALE, 31, 1),
    ([0; 32], 9, 1),
    (REFUSED, 8, 1),
    // a third flag; a malformed slot of a group
    (BOTH_PLACED, 1, 7),
    (REFUSED, 1, 2),
];

/// The first of these that is not malformed, or into which a transaction is stamped.
fn first_sound() -> Option<usize> {
    for (index, (spelt, place, value)) in BROKEN.iter().enumerate() {
        let mut bytes = *spelt;
        if *place < 32 {
            bytes[*place] = *value;
        }
        let broken = bytes;
        let stamped = is_called(SlotMut::over(1, &mut bytes), &Call::Stamp(FIRST));
        if stamped || bytes != broken || read(&mut bytes) != Err(Malformed) {
            return Some(index);
        }
    }
    None
}

#[test]
fn tells_malformed_bytes(rt: HostRuntime) {
    assert_eq!(rt; first_sound(), None);
}

/// Whether a slot that is written through its bytes is read as it was written, until it is finished.
fn writes_through(bytes: &mut [u8; 32]) -> bool {
    let mut slot = SlotMut::over(1, bytes);
    *slot.bytes() = [255; 32];
    let told = slot.state() == Err(Malformed) && slot.outcome().is_none();
    slot.finish(Outcome::Malformed, None, 0);
    told && *bytes == REFUSED
}

#[test]
fn finishes_malformed_bytes(rt: HostRuntime) {
    let mut bytes = STAMPED;
    assert!(rt; writes_through(&mut bytes));
}
