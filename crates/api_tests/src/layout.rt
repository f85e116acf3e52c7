//! How messages are spelt, and which bytes are a name.
use crate::messages::creation;
use gs_layout::{Change, Class, Facts, Message, Name, Record, encode_message, message_len};
use gs_status::Mask;

/// How many bytes the longest message has.
const MOST: usize = 56;

/// What stands in a buffer before a message is written into it.
const UNWRITTEN: u8 = 0xaa;

/// The creation of thread 1, runnable, of class 0, on CPUs 0 and 1, named "web".
pub(crate) const CREATED: [u8; 40] = [
    0x28, 0x00, 0x01, 0x00, 0x01, 0x00, 0x00, 0x00, 0x01, 0x00, 0x00, 0x00, 0xff, 0xff, 0x01, 0x00,
    0x03, 0x00, 0x00, 0x00, 0x00, 0x00, 0x00, 0x00, 0x00, 0x00, 0x00, 0x00, 0x00, 0x00, 0x00, 0x00,
    0x00, 0x03, 0x77, 0x65, 0x62, 0x00, 0x00, 0x00,
];

/// A new mask takes thread 1 off CPU 1.
pub(crate) const AFFINITY: [u8; 32] = [
    0x20, 0x00, 0x07, 0x00, 0x01, 0x00, 0x00, 0x00, 0x02, 0x00, 0x00, 0x00, 0x01, 0x00, 0x01, 0x00,
    0x01, 0x00, 0x00, 0x00, 0x00, 0x00, 0x00, 0x00, 0x00, 0x00, 0x00, 0x00, 0x00, 0x00, 0x00, 0x00,
];

/// The greatest sequence number but one, on no CPU, and a mask of CPU 127 alone.
pub(crate) const HIGH_NUMBERS: [u8; 32] = [
    0x20, 0x00, 0x07, 0x00, 0x01, 0x00, 0x00, 0x00, 0xfe, 0xff, 0xff, 0xff, 0xff, 0xff, 0x00, 0x00,
    0x00, 0x00, 0x00, 0x00, 0x00, 0x00, 0x00, 0x00, 0x00, 0x00, 0x00, 0x00, 0x00, 0x00, 0x00, 0x80,
];

/// A new mask, no two bytes of which are alike, that leaves thread 65,536 on CPU 127.
pub(crate) const EACH_BYTE: [u8; 32] = [
    0x20, 0x00, 0x07, 0x00, 0x00, 0x00, 0x01, 0x00, 0x02, 0x00, 0x00, 0x00, 0x7f, 0x00, 0x00, 0x00,
    0x01, 0x02, 0x03, 0x04, 0x05, 0x06, 0x07, 0x08, 0x09, 0x0a, 0x0b, 0x0c, 0x0d, 0x0e, 0x0f, 0x10,
];

/// The longest creation: thread 7, runnable, of class 1, on CPUs 1 and 127, named "abcdefghijklmnop".
pub(crate) const LONGEST: [u8; 56] = [
    0x38, 0x00, 0x01, 0x00, 0x07, 0x00, 0x00, 0x00, 0x01, 0x00, 0x00, 0x00, 0xff, 0xff, 0x01, 0x00,
    0x02, 0x00, 0x00, 0x00, 0x00, 0x00, 0x00, 0x00, 0x00, 0x00, 0x00, 0x00, 0x00, 0x00, 0x00, 0x80,
    0x01, 0x10, 0x61, 0x62, 0x63, 0x64, 0x65, 0x66, 0x67, 0x68, 0x69, 0x6a, 0x6b, 0x6c, 0x6d, 0x6e,
    0x6f, 0x70, 0x00, 0x00, 0x00, 0x00, 0x00, 0x00,
];

/// A tick of the timer of CPU 1.
pub(crate) const TIMER_TICK: [u8; 16] = [
    0x10, 0x00, 0x08, 0x00, 0x00, 0x00, 0x00, 0x00, 0x00, 0x00, 0x00, 0x00, 0x01, 0x00, 0x00, 0x00,
];

/// Thread 7 is blocked; it was on CPU 2.
pub(crate) const BLOCKED: [u8; 16] = [
    0x10, 0x00, 0x02, 0x00, 0x07, 0x00, 0x00, 0x00, 0x03, 0x00, 0x00, 0x00, 0x02, 0x00, 0x00, 0x00,
];

/// What is known of a runnable thread of class 0 on CPUs 0 and 1 with this name.
pub(crate) fn facts(name: &[u8]) -> Option<Facts> {
    Some(Facts {
        runnable: true,
        mask: Mask::new(3),
        class: Class::Zero,
        name: Name::new(name)?,
    })
}

/// What a thread's record says of it, without its class and its name.
#[derive(Clone, Copy, PartialEq, Eq, Debug)]
pub(crate) enum Life {
    Absent,
    Dead,
    Live { runnable: bool, mask: u128 },
}

/// A thread that may run, on CPUs 0 and 1.
pub(crate) const RUNNABLE: Life = Life::Live {
    runnable: true,
    mask: 3,
};

/// The same while it is blocked.
pub(crate) const NOT_RUNNABLE: Life = Life::Live {
    runnable: false,
    mask: 3,
};

/// A thread that may run, on CPU 1 alone.
pub(crate) const ON_CPU_1_ALONE: Life = Life::Live {
    runnable: true,
    mask: 2,
};

pub(crate) fn life_of(record: &Record) -> Life {
    match record {
        Record::Absent => Life::Absent,
        Record::Dead => Life::Dead,
        Record::Live { facts } => Life::Live {
            runnable: facts.runnable,
            mask: facts.mask.bits(),
        },
    }
}

/// The message that this happened to a thread.
pub(crate) fn thread_message(tid: u32, tseq: u32, change: Change) -> Message {
    Message::Thread { tid, tseq, change }
}

/// Whether a message is written as these bytes at the front of a buffer with so much room, and the
/// rest of the buffer is left as it was.
fn is_spelt(message: &Message, room: usize, spelling: &[u8]) -> bool {
    let mut buffer = [UNWRITTEN; MOST];
    let len = message_len(message);
    if room > MOST || len > room {
        return false;
    }
    let out = &mut buffer[..room];
    encode_message(message, out) == len
        && &out[..len] == spelling
        && out[len..].iter().all(|byte| *byte == UNWRITTEN)
}

/// The first row whose message is spelt otherwise.
fn first_misspelt(rows: &[(Message, usize, &[u8])]) -> Option<usize> {
    for (index, (message, room, spelling)) in rows.iter().enumerate() {
        if !is_spelt(message, *room, spelling) {
            return Some(index);
        }
    }
    None
}

#[test]
fn spells_messages(rt: HostRuntime) {
    let facts = facts(b"web").expect(&rt, "a name");
    let created = Change::Created { facts };
    let off = Change::Affinity {
        cpu: Some(1),
        off: true,
        mask: Mask::new(1),
    };
    let on_no_cpu = Change::Affinity {
        cpu: None,
        off: false,
        mask: Mask::new(170_141_183_460_469_231_731_687_303_715_884_105_728),
    };
    let on_the_last_cpu = Change::Affinity {
        cpu: Some(127),
        off: false,
        mask: Mask::new(0x100f_0e0d_0c0b_0a09_0807_0605_0403_0201),
    };
    let longest = creation(Class::One, (1 << 127) | 2, "abcdefghijklmnop").expect(&rt, "a name");
    // A message, how many bytes there is room for, and the message's own bytes.
    let rows: [(Message, usize, &[u8]); 7] = [
        (thread_message(1, 1, created), 56, &CREATED),
        (thread_message(1, 2, off), 56, &AFFINITY),
        (
            thread_message(1, 4_294_967_294, on_no_cpu),
            32,
            &HIGH_NUMBERS,
        ),
        (thread_message(65_536, 2, on_the_last_cpu), 33, &EACH_BYTE),
        (thread_message(7, 1, longest), 56, &LONGEST),
        (Message::TimerTick { cpu: 1 }, 16, &TIMER_TICK),
        (
            thread_message(7, 3, Change::Blocked { cpu: 2 }),
            17,
            &BLOCKED,
        ),
    ];
    assert_eq!(rt; first_misspelt(&rows), None);
}

/// A name, and how many bytes the creation of its thread has.
const CREATION_LENS: [(&[u8], usize); 6] = [
    (b"", 40),
    (b"abcdef", 40),
    (b"abcdefg", 48),
    (b"abcdefghijklmn", 48),
    (b"abcdefghijklmno", 56),
    (b"abcdefghijklmnop", 56),
];

/// Bytes, and whether they are a name.
const NAMES: [(&[u8], bool); 5] = [
    (b"!~", true),
    (b"", true),
    (b"seventeenbyteslon", false),
    (b"a b", false),
    (b"a\x7f", false),
];

/// Whether the creation of a thread of this name has so many bytes.
fn has_len(name: &[u8], len: usize) -> bool {
    match facts(name) {
        Some(facts) => message_len(&thread_message(1, 1, Change::Created { facts })) == len,
        None => false,
    }
}

/// Whether a name is made just of bytes that are one, and then has these bytes.
fn is_name_where(bytes: &[u8], wanted: bool) -> bool {
    match Name::new(bytes) {
        Some(name) => wanted && name.as_bytes() == bytes,
        None => !wanted,
    }
}

fn first_wrong_len() -> Option<usize> {
    for (index, (name, len)) in CREATION_LENS.iter().enumerate() {
        if !has_len(name, *len) {
            return Some(index);
        }
    }
    None
}

fn first_wrong_name() -> Option<usize> {
    for (index, (bytes, wanted)) in NAMES.iter().enumerate() {
        if !is_name_where(bytes, *wanted) {
            return Some(index);
        }
    }
    None
}

#[test]
fn takes_names(rt: HostRuntime) {
    assert_eq!(rt; first_wrong_len(), None);
    assert_eq!(rt; first_wrong_name(), None);
}
