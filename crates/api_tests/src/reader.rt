//! What is read of bytes.
use crate::layout::{
    AFFINITY, BLOCKED, CREATED, EACH_BYTE, HIGH_NUMBERS, LONGEST, TIMER_TICK, facts,
};
use crate::messages::about;
use gs_layout::{Change, Class, Kind, Message, Parcel};
use gs_reader::{Item, MessageRef, ReadFault, Records, read_one};
use gs_status::Mask;

const PAD: [u8; 8] = [0x08, 0x00, 0x09, 0x00, 0x00, 0x00, 0x00, 0x00];

/// The longest PAD.
const PAD_OF_48: [u8; 48] = [
    0x30, 0x00, 0x09, 0x00, 0x00, 0x00, 0x00, 0x00, 0x00, 0x00, 0x00, 0x00, 0x00, 0x00, 0x00, 0x00,
    0x00, 0x00, 0x00, 0x00, 0x00, 0x00, 0x00, 0x00, 0x00, 0x00, 0x00, 0x00, 0x00, 0x00, 0x00, 0x00,
    0x00, 0x00, 0x00, 0x00, 0x00, 0x00, 0x00, 0x00, 0x00, 0x00, 0x00, 0x00, 0x00, 0x00, 0x00, 0x00,
];

/// A creation as it was spelt when a mask had 8 bytes.
const CREATED_OF_32: [u8; 32] = [
    0x20, 0x00, 0x01, 0x00, 0x01, 0x00, 0x00, 0x00, 0x01, 0x00, 0x00, 0x00, 0xff, 0xff, 0x01, 0x00,
    0x03, 0x00, 0x00, 0x00, 0x00, 0x00, 0x00, 0x00, 0x00, 0x03, 0x77, 0x65, 0x62, 0x00, 0x00, 0x00,
];

/// The same of a new mask.
const AFFINITY_OF_24: [u8; 24] = [
    0x18, 0x00, 0x07, 0x00, 0x01, 0x00, 0x00, 0x00, 0x02, 0x00, 0x00, 0x00, 0x01, 0x00, 0x01, 0x00,
    0x01, 0x00, 0x00, 0x00, 0x00, 0x00, 0x00, 0x00,
];

/// A PAD, and then the message that blocks thread 7.
const PAD_BLOCKED: [u8; 24] = [
    0x08, 0x00, 0x09, 0x00, 0x00, 0x00, 0x00, 0x00, 0x10, 0x00, 0x02, 0x00, 0x07, 0x00, 0x00, 0x00,
    0x03, 0x00, 0x00, 0x00, 0x02, 0x00, 0x00, 0x00,
];

/// The fields of a message.
struct Fields<'a> {
    kind: Kind,
    tid: u32,
    tseq: u32,
    cpu: Option<u16>,
    flags: u16,
    mask: Option<u128>,
    class: Option<Class>,
    name: Option<&'a [u8]>,
    takes_off_cpu: bool,
}

/// The bytes of a message, and its fields.
const MESSAGES: [(&[u8], Fields); 7] = [
    (
        &CREATED,
        Fields {
            kind: Kind::Created,
            tid: 1,
            tseq: 1,
            cpu: None,
            flags: 1,
            mask: Some(3),
            class: Some(Class::Zero),
            name: Some(b"web"),
            takes_off_cpu: false,
        },
    ),
    (
        &AFFINITY,
        Fields {
            kind: Kind::Affinity,
            tid: 1,
            tseq: 2,
            cpu: Some(1),
            flags: 1,
            mask: Some(1),
            class: None,
            name: None,
            takes_off_cpu: true,
        },
    ),
    (
        &HIGH_NUMBERS,
        Fields {
            kind: Kind::Affinity,
            tid: 1,
            tseq: 4_294_967_294,
            cpu: None,
            flags: 0,
            mask: Some(1 << 127),
            class: None,
            name: None,
            takes_off_cpu: false,
        },
    ),
    (
        &EACH_BYTE,
        Fields {
            kind: Kind::Affinity,
            tid: 65_536,
            tseq: 2,
            cpu: Some(127),
            flags: 0,
            mask: Some(0x100f_0e0d_0c0b_0a09_0807_0605_0403_0201),
            class: None,
            name: None,
            takes_off_cpu: false,
        },
    ),
    (
        &LONGEST,
        Fields {
            kind: Kind::Created,
            tid: 7,
            tseq: 1,
            cpu: None,
            flags: 1,
            mask: Some((1 << 127) | 2),
            class: Some(Class::One),
            name: Some(b"abcdefghijklmnop"),
            takes_off_cpu: false,
        },
    ),
    (
        &TIMER_TICK,
        Fields {
            kind: Kind::TimerTick,
            tid: 0,
            tseq: 0,
            cpu: Some(1),
            flags: 0,
            mask: None,
            class: None,
            name: None,
            takes_off_cpu: false,
        },
    ),
    (
        &BLOCKED,
        Fields {
            kind: Kind::Blocked,
            tid: 7,
            tseq: 3,
            cpu: Some(2),
            flags: 0,
            mask: None,
            class: None,
            name: None,
            takes_off_cpu: true,
        },
    ),
];

/// The message that all of these bytes are.
fn only(bytes: &[u8]) -> Option<MessageRef<'_>> {
    let (item, len) = read_one(bytes).ok()?;
    match item {
        Item::Message(message) if len == bytes.len() => Some(message),
        _ => None,
    }
}

/// Whether all of these bytes are a tick of CPU 1.
fn is_tick(bytes: &[u8]) -> bool {
    match only(bytes) {
        Some(found) => matches!(found.message(), Message::TimerTick { cpu: 1 }),
        None => false,
    }
}

/// Why the bytes are refused.
fn refused(bytes: &[u8]) -> Option<ReadFault> {
    read_one(bytes).err()
}

/// The bits of a mask, if there is one.
fn bits_of(mask: Option<Mask>) -> Option<u128> {
    Some(mask?.bits())
}

/// Whether a message has these fields.
fn has_fields(found: &MessageRef<'_>, wanted: &Fields<'_>) -> bool {
    found.kind() == wanted.kind
        && (found.tid(), found.tseq()) == (wanted.tid, wanted.tseq)
        && (found.cpu(), found.flags()) == (wanted.cpu, wanted.flags)
        && (bits_of(found.mask()), found.class()) == (wanted.mask, wanted.class)
        && found.name() == wanted.name
        && found.takes_off_cpu() == wanted.takes_off_cpu
}

/// Whether all of these bytes are a message of these fields, also if it is held in a parcel.
fn is_read(bytes: &[u8], wanted: &Fields<'_>) -> bool {
    let Some(found) = only(bytes) else {
        return false;
    };
    let parcel = Parcel::new(&found.message());
    let held = MessageRef::in_parcel(&parcel);
    has_fields(&found, wanted)
        && has_fields(&held, wanted)
        && found.as_bytes() == bytes
        && parcel.as_bytes() == bytes
}

/// Bytes of a message or a PAD, which of them are changed to what, and why they are refused then.
const DAMAGED: [(&[u8], &[(usize, u8)], ReadFault); 21] = [
    // a length of 24
    (&BLOCKED, &[(0, 0x18)], ReadFault::BadLength),
    // kind 10
    (&BLOCKED, &[(2, 0x0a)], ReadFault::BadKind),
    // a flag
    (&BLOCKED, &[(14, 0x02)], ReadFault::BadField),
    // thread 65,537
    (&BLOCKED, &[(4, 0x01), (6, 0x01)], ReadFault::BadField),
    // number 0
    (&BLOCKED, &[(8, 0x00)], ReadFault::BadField),
    // CPU 128
    (&BLOCKED, &[(12, 128)], ReadFault::BadField),
    // a byte behind the name
    (&CREATED, &[(39, 1)], ReadFault::BadField),
    // a name of 7 bytes, which needs 8 bytes more
    (&CREATED, &[(33, 7)], ReadFault::BadField),
    // lengths of 32 and 64
    (&CREATED, &[(0, 0x20)], ReadFault::BadLength),
    (&LONGEST, &[(0, 0x40)], ReadFault::BadLength),
    // a length of 48, for which there is no name of 16 bytes
    (&LONGEST, &[(0, 0x30)], ReadFault::BadField),
    // an empty mask
    (&AFFINITY, &[(16, 0)], ReadFault::BadField),
    (&HIGH_NUMBERS, &[(31, 0)], ReadFault::BadField),
    // lengths of 24 and 40
    (&AFFINITY, &[(0, 0x18)], ReadFault::BadLength),
    (&AFFINITY, &[(0, 0x28)], ReadFault::BadLength),
    // a length and a CPU
    (&EACH_BYTE, &[(0, 0x18), (12, 128)], ReadFault::BadLength),
    // masks of 8 bytes
    (&CREATED_OF_32, &[], ReadFault::BadLength),
    (&AFFINITY_OF_24, &[], ReadFault::BadLength),
    // bytes of a PAD
    (&PAD, &[(7, 1)], ReadFault::BadField),
    (&PAD_OF_48, &[(47, 1)], ReadFault::BadField),
    // a length of 56
    (&PAD_OF_48, &[(0, 0x38)], ReadFault::BadLength),
];

/// Why bytes are refused, of which some are changed. `None` also if there is no such byte.
fn refused_with(bytes: &[u8], changes: &[(usize, u8)]) -> Option<ReadFault> {
    let mut buffer = [0; 56];
    let damaged = buffer.get_mut(..bytes.len())?;
    damaged.copy_from_slice(bytes);
    for (place, value) in changes {
        *damaged.get_mut(*place)? = *value;
    }
    refused(damaged)
}

/// The first beginning of a message that is not refused as short.
fn first_not_short(bytes: &[u8]) -> Option<usize> {
    for len in 0..bytes.len() {
        if refused(&bytes[..len]) != Some(ReadFault::Short) {
            return Some(len);
        }
    }
    None
}

/// The first damage that is refused otherwise, or not at all.
fn first_not_refused() -> Option<usize> {
    for (index, (bytes, changes, fault)) in DAMAGED.iter().enumerate() {
        if refused_with(bytes, changes) != Some(*fault) {
            return Some(index);
        }
    }
    None
}

#[test]
fn refuses_damaged_bytes(rt: HostRuntime) {
    assert_eq!(rt; first_not_refused(), None);
}

/// What became of bytes that differ from others in one byte. First it is counted: how many are `Short`,
/// `BadLength`, `BadKind`, `BadField`, how many are a PAD, and how many are another message. Then it is summed up in
/// order: 31 times the sum before, and the place of what became of these bytes among the counts.
type Changes = ([usize; 6], u32);

/// The bytes of a message or a PAD, and what becomes of them if one byte is another, by a program of its own over
/// the layout.
const CHANGES: [(&[u8], Changes); 9] = [
    (&CREATED, ([2, 515, 502, 3293, 0, 5888], 3_617_278_944)),
    (&AFFINITY, ([0, 517, 502, 1406, 0, 5735], 3_426_248_608)),
    (&HIGH_NUMBERS, ([0, 517, 502, 1533, 0, 5608], 1_253_493_478)),
    (&EACH_BYTE, ([0, 517, 502, 1914, 0, 5227], 1_916_404_956)),
    (&LONGEST, ([0, 516, 502, 6164, 0, 7098], 1_797_220_772)),
    (&TIMER_TICK, ([0, 512, 502, 2939, 0, 127], 1_064_876_608)),
    (&BLOCKED, ([0, 512, 502, 1408, 0, 1658], 2_174_256_774)),
    (&PAD, ([5, 513, 502, 1020, 0, 0], 3_745_764_187)),
    (&PAD_OF_48, ([0, 512, 502, 11221, 5, 0], 4_104_003_185)),
];

/// What bytes are read as: its place among the counts of `Changes`. `None` if a message's bytes are others.
fn place_of(bytes: &[u8]) -> Option<u32> {
    match read_one(bytes) {
        Ok((item, len)) => match item {
            Item::Pad => Some(4),
            Item::Message(found) => {
                let text = found.as_bytes();
                let parcel = Parcel::new(&found.message());
                if text == &bytes[..len] && parcel.as_bytes() == text {
                    Some(5)
                } else {
                    None
                }
            }
        },
        Err(ReadFault::Short) => Some(0),
        Err(ReadFault::BadLength) => Some(1),
        Err(ReadFault::BadKind) => Some(2),
        Err(ReadFault::BadField) => Some(3),
    }
}

/// Adds what became of bytes.
fn added(changes: Changes, place: u32) -> Option<Changes> {
    let (mut counts, sum) = changes;
    let count = counts.get_mut(place as usize)?;
    *count = count.wrapping_add(1);
    Some((counts, sum.wrapping_mul(31).wrapping_add(place)))
}

/// Adds what becomes of bytes at each other value of one byte.
fn with_changes(bytes: &mut [u8], place: usize, changes: Changes) -> Option<Changes> {
    let mut changes = changes;
    for value in 0..=u8::MAX {
        if let Some(byte) = bytes.get_mut(place) {
            *byte = byte.wrapping_add(1);
        }
        if value < u8::MAX {
            changes = added(changes, place_of(bytes)?)?;
        }
    }
    Some(changes)
}

/// What becomes of bytes if one of them is another. `None` also if they are too many to be tried.
fn all_changes(bytes: &[u8]) -> Option<Changes> {
    let mut buffer = [0; 56];
    let text = buffer.get_mut(..bytes.len())?;
    text.copy_from_slice(bytes);
    let mut changes = ([0; 6], 0);
    for place in 0..bytes.len() {
        changes = with_changes(text, place, changes)?;
    }
    Some(changes)
}

/// The first row of `CHANGES` of which something else becomes.
fn first_other_change() -> Option<usize> {
    for (index, (bytes, wanted)) in CHANGES.iter().enumerate() {
        if first_not_short(bytes).is_some() || all_changes(bytes) != Some(*wanted) {
            return Some(index);
        }
    }
    None
}

#[test]
fn reads_no_other_bytes(rt: HostRuntime) {
    assert_eq!(rt; first_other_change(), None);
}

/// The first message that is read otherwise, or is read from its beginning alone.
fn first_misread(rows: &[(&[u8], Fields<'_>)]) -> Option<usize> {
    for (index, (bytes, wanted)) in rows.iter().enumerate() {
        if !is_read(bytes, wanted) || first_not_short(bytes).is_some() {
            return Some(index);
        }
    }
    None
}

#[test]
fn reads_messages(rt: HostRuntime) {
    assert_eq!(rt; first_misread(&MESSAGES), None);
    assert!(rt; is_tick(&TIMER_TICK));
}

/// What is yielded: a message, by its thread and its bytes, or a fault.
type Yielded<'a> = Result<(u32, &'a [u8]), ReadFault>;

fn is_found(found: &Result<MessageRef<'_>, ReadFault>, wanted: &Yielded<'_>) -> bool {
    match (found, wanted) {
        (Ok(message), Ok((tid, bytes))) => message.tid() == *tid && message.as_bytes() == *bytes,
        (Err(fault), Err(other)) => *fault == *other,
        _ => false,
    }
}

/// Whether two segments yield just this.
fn yields<'a>(first: &'a [u8], second: &'a [u8], wanted: &[Yielded<'_>]) -> bool {
    let mut count: usize = 0;
    for found in Records::new(first, second) {
        match wanted.get(count) {
            Some(next) if is_found(&found, next) => count = count.wrapping_add(1),
            _ => return false,
        }
    }
    count == wanted.len()
}

#[test]
fn goes_over_two_segments(rt: HostRuntime) {
    let blocked = Ok((7, &BLOCKED[..]));
    let short = Err(ReadFault::Short);
    assert!(rt; matches!(read_one(&PAD_BLOCKED), Ok((Item::Pad, 8))));
    assert!(rt; matches!(read_one(&PAD_OF_48), Ok((Item::Pad, 48))));
    // A fault is the last that is yielded.
    assert!(rt; yields(&PAD_BLOCKED, &BLOCKED[..15], &[blocked, short]));
    // The end of the first segment cuts a message.
    assert!(rt; yields(&BLOCKED[..8], &BLOCKED[8..], &[short]));
    assert!(rt; yields(&PAD, &BLOCKED, &[blocked]));
}

/// A parcel with a message, or `None` if a field of it is out of its range.
fn parcel_of(tid: u32, tseq: u32, change: Change) -> Option<Parcel> {
    let message = about(tid, tseq, change)?;
    Some(Parcel::new(&message))
}

/// Whether the creation of thread 1, named "web", is held in a parcel as it is spelt.
fn is_creation_held() -> bool {
    let [(bytes, fields), ..] = &MESSAGES;
    let Some(facts) = facts(b"web") else {
        return false;
    };
    match parcel_of(1, 1, Change::Created { facts }) {
        Some(parcel) => {
            parcel.as_bytes() == *bytes && has_fields(&MessageRef::in_parcel(&parcel), fields)
        }
        None => false,
    }
}

/// What happened to thread 7, and whether that takes it off its CPU.
fn changes() -> [(Change, bool); 7] {
    [
        (Change::Blocked { cpu: 1 }, true),
        (Change::Wakeup, false),
        (Change::Preempted { cpu: 1 }, true),
        (Change::Yield { cpu: 1 }, true),
        (Change::Dead { cpu: None }, true),
        (
            Change::Affinity {
                cpu: Some(1),
                off: true,
                mask: Mask::new(1),
            },
            true,
        ),
        (
            Change::Affinity {
                cpu: Some(1),
                off: false,
                mask: Mask::new(3),
            },
            false,
        ),
    ]
}

/// Whether a message in a parcel takes thread 7 off its CPU.
fn takes_off_cpu(change: Change) -> Option<bool> {
    let parcel = parcel_of(7, 3, change)?;
    Some(MessageRef::in_parcel(&parcel).takes_off_cpu())
}

/// The first change that takes its thread off its CPU otherwise.
fn first_wrong_change() -> Option<usize> {
    let rows = changes();
    for (index, (change, wanted)) in rows.iter().enumerate() {
        if takes_off_cpu(*change) != Some(*wanted) {
            return Some(index);
        }
    }
    None
}

#[test]
fn holds_messages_in_parcels(rt: HostRuntime) {
    assert!(rt; is_creation_held());
    assert_eq!(rt; first_wrong_change(), None);
}
