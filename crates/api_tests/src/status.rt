//! What masks and status words return.
use gs_status::{MOST_CPUS, Mask, StatusWord};

/// A thread that runs on CPU 1.
const RUNNING: StatusWord = StatusWord {
    tseq: 1,
    cpu: Some(1),
    runnable: true,
    alive: true,
};

/// A thread that waits for a CPU.
const WAITING: StatusWord = StatusWord {
    tseq: 1,
    cpu: None,
    runnable: true,
    alive: true,
};

const DEAD: StatusWord = StatusWord {
    tseq: 2,
    cpu: None,
    runnable: false,
    alive: false,
};

/// What is shown of a thread, the word that shows it, and how many words that show something differ from that
/// one in one bit. Some differ by a bit of the sequence number. Of a thread that runs, others differ by one
/// of the seven bits of its CPU. Of one that waits, or is dead, another differs by the bit that tells it from a
/// blocked one.
const WORDS: [(StatusWord, u64, usize); 3] = [
    (RUNNING, 0x0000070100000001, 32 + 7),
    (WAITING, 0x000003ff00000001, 32 + 1),
    (DEAD, 0x000000ff00000002, 32 + 1),
];

/// Words that show nothing.
const NO_WORDS: [u64; 9] = [
    // on CPU 128
    0x0000078000000001,
    // on CPU 255
    0x000007ff00000001,
    // on CPU 1, and not told so
    0x0000030100000001,
    // blocked on CPU 1
    0x0000060100000001,
    // runnable and dead
    0x000001ff00000001,
    // bits 43 and 63
    0x00000bff00000001,
    0x800003ff00000001,
    u64::MAX,
    0,
];

/// How many words that show something differ from this one in one bit. `None` if one of them shows the same,
/// or is not the word of what it shows.
fn count_neighbours(word: u64) -> Option<usize> {
    let shown = StatusWord::unpack(word);
    let mut count: usize = 0;
    for bit in 0..64u32 {
        let neighbour = word ^ (1 << bit);
        if let Some(status) = StatusWord::unpack(neighbour) {
            if status.pack() != neighbour || shown == Some(status) {
                return None;
            }
            count = count.wrapping_add(1);
        }
    }
    Some(count)
}

/// Whether a status has just this word, and the word so many neighbours.
fn is_word(status: StatusWord, word: u64, neighbours: usize) -> bool {
    status.pack() == word
        && StatusWord::unpack(word) == Some(status)
        && count_neighbours(word) == Some(neighbours)
}

/// The first word that is packed, read or refused otherwise.
fn first_wrong_word() -> Option<u64> {
    for (status, word, neighbours) in WORDS {
        if !is_word(status, word, neighbours) {
            return Some(word);
        }
    }
    for word in NO_WORDS {
        if StatusWord::unpack(word).is_some() {
            return Some(word);
        }
    }
    None
}

#[test]
fn packs_and_unpacks(rt: HostRuntime) {
    assert_eq!(rt; first_wrong_word(), None);
}

/// The bits of a mask, and whether no CPU is in it.
const EMPTY: [(u128, bool); 2] = [(5, false), (0, true)];

/// The bits of a mask, a CPU, whether the mask has it, and whether it has one that is not below it.
const MEMBERS: [(u128, u16, bool, bool); 13] = [
    (5, 0, true, true),
    (5, 1, false, true),
    (5, 2, true, true),
    (5, 3, false, false),
    (5, 128, false, false),
    (1 << 63, 63, true, true),
    (1 << 63, 64, false, false),
    (1 << 63, 127, false, false),
    (1 << 64, 0, false, true),
    (1 << 64, 63, false, true),
    (1 << 64, 64, true, true),
    (1 << 127, 127, true, true),
    (1 << 127, 128, false, false),
];

/// The bits of a mask, a CPU, and the bits with and without it.
const CHANGED: [(u128, u16, u128, u128); 13] = [
    (0, 127, 1 << 127, 0),
    (4, 0, 5, 4),
    (5, 0, 5, 4),
    (5, 1, 7, 5),
    (5, 2, 5, 1),
    (5, 127, 0x8000_0000_0000_0000_0000_0000_0000_0005, 5),
    (
        u128::MAX,
        127,
        u128::MAX,
        0x7fff_ffff_ffff_ffff_ffff_ffff_ffff_ffff,
    ),
    (
        u128::MAX,
        0,
        u128::MAX,
        0xffff_ffff_ffff_ffff_ffff_ffff_ffff_fffe,
    ),
    (0, 31, 0x8000_0000, 0),
    (1 << 64, 63, 3 << 63, 1 << 64),
    (1 << 63, 64, 3 << 63, 1 << 63),
    (3 << 63, 63, 3 << 63, 1 << 64),
    (3 << 63, 64, 3 << 63, 1 << 63),
];

/// The bits of two masks, those of both, and the least CPU of both.
const BOTH: [(u128, u128, u128, Option<u16>); 10] = [
    (6, 12, 4, Some(2)),
    (6, 3, 2, Some(1)),
    (5, 10, 0, None),
    (0, u128::MAX, 0, None),
    (u128::MAX, 1, 1, Some(0)),
    (1 << 127, u128::MAX, 1 << 127, Some(127)),
    (3 << 63, u128::MAX, 3 << 63, Some(63)),
    (3 << 64, u128::MAX, 3 << 64, Some(64)),
    (6 << 63, 3 << 63, 1 << 64, Some(64)),
    (1 << 63, 1 << 64, 0, None),
];

/// The bits of a mask with a CPU, without it, with it if a test holds, and if none does. `None` for a CPU
/// that no mask has.
fn changed(bits: u128, cpu: u16) -> Option<[u128; 4]> {
    if cpu >= MOST_CPUS {
        return None;
    }
    let mask = Mask::new(bits);
    let with = mask.with(cpu).bits();
    let without = mask.without(cpu).bits();
    let where_it_holds = mask.with_if(cpu, true).bits();
    let where_none_does = mask.with_if(cpu, false).bits();
    Some([with, without, where_it_holds, where_none_does])
}

/// Masks that are made from none, by their bits: without a CPU, with CPUs 2 and 0, with CPU 127.
fn made_from_none() -> [u128; 3] {
    let two = Mask::none().with(2).with(0);
    [
        Mask::none().bits(),
        two.bits(),
        Mask::none().with(127).bits(),
    ]
}

fn first_wrong_bits() -> Option<usize> {
    for (index, (bits, is_empty)) in EMPTY.iter().enumerate() {
        let mask = Mask::new(*bits);
        if mask.bits() != *bits || mask.is_empty() != *is_empty {
            return Some(index);
        }
    }
    None
}

fn first_wrong_member() -> Option<usize> {
    for (index, (bits, cpu, is_in, is_past)) in MEMBERS.iter().enumerate() {
        let mask = Mask::new(*bits);
        if mask.has(*cpu) != *is_in || mask.has_past(*cpu) != *is_past {
            return Some(index);
        }
    }
    None
}

fn first_wrong_change() -> Option<usize> {
    for (index, (bits, cpu, with, without)) in CHANGED.iter().enumerate() {
        if changed(*bits, *cpu) != Some([*with, *without, *with, *bits]) {
            return Some(index);
        }
    }
    None
}

fn first_wrong_both() -> Option<usize> {
    for (index, (one, other, both, lowest)) in BOTH.iter().enumerate() {
        let common = Mask::new(*one).both(Mask::new(*other));
        if common.bits() != *both || common.lowest() != *lowest {
            return Some(index);
        }
    }
    None
}

#[test]
fn sets_of_cpus(rt: HostRuntime) {
    let wrong = [
        first_wrong_bits(),
        first_wrong_member(),
        first_wrong_change(),
        first_wrong_both(),
    ];
    assert_eq!(rt; wrong, [None; 4]);
    assert_eq!(rt; made_from_none(), [0, 5, 1 << 127]);
}
