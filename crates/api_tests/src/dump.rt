//! What pages are read and written as.
ghost use Rattle.std.specs.Prelude.{◌<◌, ◌≤◌, IfSome};

use crate::messages::Tried;
use gs_dump::{DumpRecord, Page, PageFault, read_page, write_page};
use gs_layout::{Class, Facts, Known, MOST_TIDS, Name};
use gs_status::{MOST_CPUS, Mask};
use std::alloc::{AllocError, Global};
use std::test::Fail;

/// The last page, of thread 1: its number is 1, its class 0, its mask 3 and its name web; it is runnable
/// and on no CPU.
pub(crate) const WEB: [u8; 56] = [
    0x01, 0x00, 0x01, 0x00, 0x00, 0x00, 0x00, 0x00, 0x02, 0x00, 0x00, 0x03, 0x01, 0x00, 0x00, 0x00,
    0x01, 0x00, 0x00, 0x00, 0xff, 0xff, 0x01, 0x00, 0x03, 0x00, 0x00, 0x00, 0x00, 0x00, 0x00, 0x00,
    0x00, 0x00, 0x00, 0x00, 0x00, 0x00, 0x00, 0x00, 0x77, 0x65, 0x62, 0x00, 0x00, 0x00, 0x00, 0x00,
    0x00, 0x00, 0x00, 0x00, 0x00, 0x00, 0x00, 0x00,
];

/// The same in version 1.
pub(crate) const WEB_ONE: [u8; 48] = [
    0x01, 0x00, 0x01, 0x00, 0x00, 0x00, 0x00, 0x00, 0x01, 0x00, 0x00, 0x03, 0x01, 0x00, 0x00, 0x00,
    0x01, 0x00, 0x00, 0x00, 0xff, 0xff, 0x01, 0x00, 0x03, 0x00, 0x00, 0x00, 0x00, 0x00, 0x00, 0x00,
    0x77, 0x65, 0x62, 0x00, 0x00, 0x00, 0x00, 0x00, 0x00, 0x00, 0x00, 0x00, 0x00, 0x00, 0x00, 0x00,
];

/// Threads 2 and 5, and the next page from thread 6 on. Thread 2 is blocked, of class 1, at number
/// 4,294,967,294, on CPU 127 alone, and has a name of 16 bytes. Thread 5 is on CPU 127, has CPUs 1 and 127 in its
/// mask, and no name.
pub(crate) const TWO: [u8; 104] = [
    0x02, 0x00, 0x00, 0x00, 0x06, 0x00, 0x00, 0x00, 0x02, 0x00, 0x01, 0x10, 0x02, 0x00, 0x00, 0x00,
    0xfe, 0xff, 0xff, 0xff, 0xff, 0xff, 0x00, 0x00, 0x00, 0x00, 0x00, 0x00, 0x00, 0x00, 0x00, 0x00,
    0x00, 0x00, 0x00, 0x00, 0x00, 0x00, 0x00, 0x80, 0x73, 0x69, 0x78, 0x74, 0x65, 0x65, 0x6e, 0x62,
    0x79, 0x74, 0x65, 0x73, 0x6c, 0x6f, 0x6e, 0x67, 0x02, 0x00, 0x00, 0x00, 0x05, 0x00, 0x00, 0x00,
    0x07, 0x00, 0x00, 0x00, 0x7f, 0x00, 0x01, 0x00, 0x02, 0x00, 0x00, 0x00, 0x00, 0x00, 0x00, 0x00,
    0x00, 0x00, 0x00, 0x00, 0x00, 0x00, 0x00, 0x80, 0x00, 0x00, 0x00, 0x00, 0x00, 0x00, 0x00, 0x00,
    0x00, 0x00, 0x00, 0x00, 0x00, 0x00, 0x00, 0x00,
];

/// Such threads in version 1, with CPU 63 in place of 127.
pub(crate) const TWO_ONE: [u8; 88] = [
    0x02, 0x00, 0x00, 0x00, 0x06, 0x00, 0x00, 0x00, 0x01, 0x00, 0x01, 0x10, 0x02, 0x00, 0x00, 0x00,
    0xfe, 0xff, 0xff, 0xff, 0xff, 0xff, 0x00, 0x00, 0x00, 0x00, 0x00, 0x00, 0x00, 0x00, 0x00, 0x80,
    0x73, 0x69, 0x78, 0x74, 0x65, 0x65, 0x6e, 0x62, 0x79, 0x74, 0x65, 0x73, 0x6c, 0x6f, 0x6e, 0x67,
    0x01, 0x00, 0x00, 0x00, 0x05, 0x00, 0x00, 0x00, 0x07, 0x00, 0x00, 0x00, 0x3f, 0x00, 0x01, 0x00,
    0x02, 0x00, 0x00, 0x00, 0x00, 0x00, 0x00, 0x80, 0x00, 0x00, 0x00, 0x00, 0x00, 0x00, 0x00, 0x00,
    0x00, 0x00, 0x00, 0x00, 0x00, 0x00, 0x00, 0x00,
];

/// The last page, of thread 65,536. Its number is the greatest, it is on CPU 0, all CPUs are in its mask, and
/// its name has the least byte and the greatest.
pub(crate) const GREATEST: [u8; 56] = [
    0x01, 0x00, 0x01, 0x00, 0x00, 0x00, 0x00, 0x00, 0x02, 0x00, 0x01, 0x02, 0x00, 0x00, 0x01, 0x00,
    0xff, 0xff, 0xff, 0xff, 0x00, 0x00, 0x01, 0x00, 0xff, 0xff, 0xff, 0xff, 0xff, 0xff, 0xff, 0xff,
    0xff, 0xff, 0xff, 0xff, 0xff, 0xff, 0xff, 0xff, 0x21, 0x7e, 0x00, 0x00, 0x00, 0x00, 0x00, 0x00,
    0x00, 0x00, 0x00, 0x00, 0x00, 0x00, 0x00, 0x00,
];

/// The same in version 1, with CPUs 0 to 63 in its mask.
pub(crate) const GREATEST_ONE: [u8; 48] = [
    0x01, 0x00, 0x01, 0x00, 0x00, 0x00, 0x00, 0x00, 0x01, 0x00, 0x01, 0x02, 0x00, 0x00, 0x01, 0x00,
    0xff, 0xff, 0xff, 0xff, 0x00, 0x00, 0x01, 0x00, 0xff, 0xff, 0xff, 0xff, 0xff, 0xff, 0xff, 0xff,
    0x21, 0x7e, 0x00, 0x00, 0x00, 0x00, 0x00, 0x00, 0x00, 0x00, 0x00, 0x00, 0x00, 0x00, 0x00, 0x00,
];

/// The last page, of no thread.
pub(crate) const NONE: [u8; 8] = [0, 0, 1, 0, 0, 0, 0, 0];

/// A page of no thread, and the next page from thread 1 on.
pub(crate) const NONE_YET: [u8; 8] = [0, 0, 0, 0, 1, 0, 0, 0];

/// What became of bytes that differ from a page's in one byte. First it is counted: how many are `Short`,
/// `Trailing`, `BadVersion`, `BadField`, `BadOrder`, and how many are another page. Then it is summed up in order: 31
/// times the sum before, and the place of what became of these bytes among the counts.
type Changes = ([usize; 6], u32);

/// The bytes of a page, and what becomes of them if one byte is another, by a program of its own over the layout.
const PAGES: [(&[u8], Changes); 8] = [
    (&WEB, ([509, 2, 509, 7372, 0, 5888], 2_218_107_392)),
    (&WEB_ONE, ([510, 1, 509, 7372, 0, 3848], 3_478_826_977)),
    (&TWO, ([508, 3, 1019, 11901, 1018, 12071], 2_659_889_663)),
    (&TWO_ONE, ([509, 2, 1019, 11901, 1018, 7991], 1_124_315_232)),
    (&GREATEST, ([509, 2, 509, 7974, 0, 5286], 1_069_776_764)),
    (&GREATEST_ONE, ([510, 1, 509, 8038, 0, 3182], 2_897_394_525)),
    (&NONE, ([510, 0, 0, 1530, 0, 0], 3_741_945_568)),
    (&NONE_YET, ([510, 0, 0, 1021, 0, 509], 2_236_424_034)),
];

/// How many bytes stand before the records of a page.
const HEADER: usize = 8;

/// How many bytes a record of version 1 has.
const RECORD_ONE: usize = 40;

/// How many of them stand before its name.
const NAME_ONE: usize = 24;

/// Whether a page has records, and they are of version 1.
fn is_version_one(bytes: &[u8]) -> bool {
    bytes.get(HEADER) == Some(&1)
}

/// The bytes in version 2 of a page in version 1. Each record has another version, and 8 bytes 0 behind its mask.
fn respelt(alloc: Global, bytes: &[u8]) -> Result<Vec<u8>, AllocError> {
    let (header, records) = bytes.split_at(HEADER.min(bytes.len()));
    let mut longer = Vec::from_slice(alloc, header)?;
    for record in records.chunks(RECORD_ONE) {
        let (front, name) = record.split_at(NAME_ONE.min(record.len()));
        longer.extend_from_slice(&[2, 0])?;
        longer.extend_from_slice(front.get(2..).unwrap_or(&[]))?;
        longer.extend_from_slice(&[0; 8])?;
        longer.extend_from_slice(name)?;
    }
    Ok(longer)
}

/// Whether a page is written as these bytes, or as the bytes in version 2 of these in version 1.
fn is_written(alloc: Global, page: &Page, bytes: &[u8]) -> Result<bool, AllocError> {
    let written = write_page(alloc, page)?;
    if !is_version_one(bytes) {
        return Ok(written.as_slice() == bytes);
    }
    Ok(written.as_slice() == respelt(alloc, bytes)?.as_slice())
}

/// What bytes are read as: its place among the counts of `Changes`. `None` if the page's bytes are others, or if out
/// of memory.
fn place_of(alloc: Global, bytes: &[u8]) -> Option<u32> {
    match read_page(alloc, bytes) {
        Ok(page) => match is_written(alloc, &page, bytes) {
            Ok(true) => Some(5),
            _ => None,
        },
        Err(PageFault::Short) => Some(0),
        Err(PageFault::Trailing) => Some(1),
        Err(PageFault::BadVersion) => Some(2),
        Err(PageFault::BadField) => Some(3),
        Err(PageFault::BadOrder) => Some(4),
        Err(PageFault::OutOfMemory) => None,
    }
}

/// Whether bytes are a page's, each beginning of them is `Short`, and with a byte more they are
/// `Trailing`.
fn is_page(alloc: Global, bytes: &[u8]) -> Result<bool, AllocError> {
    for len in 0..bytes.len() {
        if place_of(alloc, &bytes[..len]) != Some(0) {
            return Ok(false);
        }
    }
    let mut longer = Vec::from_slice(alloc, bytes)?;
    longer.push(0)?;
    Ok(place_of(alloc, bytes) == Some(5) && place_of(alloc, &longer) == Some(1))
}

/// Adds what became of bytes.
fn added(changes: Changes, place: u32) -> Option<Changes> {
    let (mut counts, sum) = changes;
    let count = counts.get_mut(place as usize)?;
    *count = count.wrapping_add(1);
    Some((counts, sum.wrapping_mul(31).wrapping_add(place)))
}

/// Adds what becomes of bytes at each other value of one byte. `None` if a page's bytes are others.
fn with_changes(
    alloc: Global,
    bytes: &mut [u8],
    place: usize,
    changes: Changes,
) -> Option<Changes> {
    let mut changes = changes;
    for value in 0..=u8::MAX {
        if let Some(byte) = bytes.get_mut(place) {
            *byte = byte.wrapping_add(1);
        }
        if value < u8::MAX {
            changes = added(changes, place_of(alloc, bytes)?)?;
        }
    }
    Some(changes)
}

/// What becomes of a page's bytes if one of them is another.
fn all_changes(alloc: Global, bytes: &[u8]) -> Option<Changes> {
    let mut copy = Vec::from_slice(alloc, bytes).ok()?;
    let mut changes = ([0; 6], 0);
    for place in 0..bytes.len() {
        changes = with_changes(alloc, &mut copy, place, changes)?;
    }
    Some(changes)
}

fn first_wrong_page(alloc: Global) -> Option<usize> {
    for (row, (bytes, changes)) in PAGES.iter().enumerate() {
        if !is_page(alloc, bytes).unwrap_or(false) || all_changes(alloc, bytes) != Some(*changes) {
            return Some(row);
        }
    }
    None
}

#[test]
fn reads_pages(rt: HostRuntime) {
    assert_eq!(rt; Tried::with(first_wrong_page(rt.alloc())), Tried::Well);
}

/// Bytes of pages that are others, by their places, and the first fault then. Where a record of another version
/// follows, the page has still the size of its own version.
const FAULTS: [(&[u8], &[(usize, u8)], PageFault); 27] = [
    // version 3, and a tid 0
    (&TWO, &[(56, 3), (12, 0)], PageFault::BadVersion),
    // version 0 of the first record, and a tid 0 of the second
    (&TWO, &[(8, 0), (60, 0)], PageFault::BadVersion),
    // an upper byte of a version
    (&TWO, &[(9, 2)], PageFault::BadVersion),
    // versions 2 and then 1, and 1 and then 2
    (&TWO, &[(56, 1)], PageFault::BadVersion),
    (&TWO_ONE, &[(48, 2)], PageFault::BadVersion),
    // and a wrong header, and a tid 0, and tids that fall
    (&TWO_ONE, &[(48, 2), (2, 1)], PageFault::BadVersion),
    (&TWO_ONE, &[(48, 2), (12, 0)], PageFault::BadVersion),
    (&TWO, &[(56, 1), (12, 9)], PageFault::BadVersion),
    // the first version is another, by which the size is not the same
    (&TWO, &[(8, 1)], PageFault::Trailing),
    (&TWO_ONE, &[(8, 2)], PageFault::Short),
    // no version, and a record more or fewer
    (&TWO, &[(8, 3), (0, 3)], PageFault::BadVersion),
    (&TWO_ONE, &[(8, 3), (0, 1)], PageFault::BadVersion),
    // another version later, and a record more or fewer
    (&TWO, &[(56, 1), (0, 3)], PageFault::Short),
    (&TWO_ONE, &[(48, 2), (0, 1)], PageFault::Trailing),
    // tids that fall, and a CPU that is not in the mask
    (&TWO, &[(12, 9), (68, 126)], PageFault::BadField),
    // CPUs 128 and 64, which no mask has
    (&TWO, &[(68, 128)], PageFault::BadField),
    (&TWO_ONE, &[(60, 64)], PageFault::BadField),
    // a last page that names a next one
    (&TWO, &[(2, 1)], PageFault::BadField),
    // neither the last page nor another
    (&TWO, &[(2, 2)], PageFault::BadField),
    // the next page from thread 65,537 on
    (&TWO, &[(4, 1), (6, 1)], PageFault::BadField),
    // a blocked thread on a CPU
    (&TWO, &[(70, 0)], PageFault::BadField),
    // an upper flag
    (&TWO_ONE, &[(63, 1)], PageFault::BadField),
    // a byte behind the name
    (&TWO, &[(103, 1)], PageFault::BadField),
    // one thread twice
    (&TWO_ONE, &[(12, 5)], PageFault::BadOrder),
    // the next page from the last thread on
    (&TWO, &[(4, 5)], PageFault::BadOrder),
    // one record fewer, and one more
    (&TWO, &[(0, 1)], PageFault::Trailing),
    (&TWO_ONE, &[(0, 3)], PageFault::Short),
];

/// Whether bytes with these changes have just this fault.
fn is_fault(alloc: Global, bytes: &[u8], changed: &[(usize, u8)], wanted: PageFault) -> bool {
    let Ok(mut bytes) = Vec::from_slice(alloc, bytes) else {
        return false;
    };
    for (place, value) in changed {
        if let Some(byte) = bytes.get_mut(*place) {
            *byte = *value;
        }
    }
    match read_page(alloc, &bytes) {
        Ok(_) => false,
        Err(fault) => fault == wanted,
    }
}

fn first_other_fault(alloc: Global) -> Option<usize> {
    for (row, (bytes, changed, wanted)) in FAULTS.iter().enumerate() {
        if !is_fault(alloc, bytes, changed, *wanted) {
            return Some(row);
        }
    }
    None
}

#[test]
fn names_the_first_fault(rt: HostRuntime) {
    assert_eq!(rt; Tried::with(first_other_fault(rt.alloc())), Tried::Well);
}

/// Returns the threads of `TWO`, or of `TWO_ONE` if the last CPU is 63.
fn threads_of_two(last: u16) -> Option<[DumpRecord; 2]>
    requires { last < MOST_CPUS }
{
    let alone = Mask::none().with(last);
    Some([
        DumpRecord {
            tid: 2,
            known: Known {
                facts: Facts {
                    mask: alone,
                    runnable: false,
                    class: Class::One,
                    name: Name::new(b"sixteenbyteslong".as_slice())?,
                },
                tseq: 4_294_967_294,
            },
            cpu: None,
        },
        DumpRecord {
            tid: 5,
            known: Known {
                facts: Facts {
                    mask: alone.with(1),
                    runnable: true,
                    class: Class::Zero,
                    name: Name::new(b"".as_slice())?,
                },
                tseq: 7,
            },
            cpu: Some(last),
        },
    ])
}

/// Whether a page is what `TWO` tells, or `TWO_ONE` if the last CPU is 63.
fn is_two(page: &Page, last: u16) -> bool
    requires { last < MOST_CPUS }
{
    match threads_of_two(last) {
        Some(threads) => page.next == Some(6) && page.records.as_slice() == threads.as_slice(),
        None => false,
    }
}

/// Whether bytes are read as such a page.
fn shows_two(alloc: Global, bytes: &[u8], last: u16) -> bool
    requires { last < MOST_CPUS }
{
    match read_page(alloc, bytes) {
        Ok(page) => is_two(&page, last),
        Err(_) => false,
    }
}

/// Whether bytes are read as the same page.
fn are_alike(alloc: Global, one: &[u8], other: &[u8]) -> bool {
    let (Ok(one), Ok(other)) = (read_page(alloc, one), read_page(alloc, other)) else {
        return false;
    };
    one.next == other.next && one.records.as_slice() == other.records.as_slice()
}

#[test]
fn shows_its_threads(rt: HostRuntime) {
    assert!(rt; shows_two(rt.alloc(), &TWO, 127));
    assert!(rt; shows_two(rt.alloc(), &TWO_ONE, 63));
    assert!(rt; are_alike(rt.alloc(), &WEB, &WEB_ONE));
}

/// Whether a page of no thread has these bytes.
fn is_empty_page(alloc: Global, next: Option<u32>, bytes: &[u8]) -> Result<bool, AllocError>
    requires { IfSome next (λ tid. (1 ≤ tid) × (tid ≤ MOST_TIDS)) }
{
    let page = Page {
        records: Vec::new(alloc),
        next,
    };
    Ok(write_page(alloc, &page)?.as_slice() == bytes)
}

#[test]
fn writes_pages_of_no_thread(rt: HostRuntime) {
    let last = is_empty_page(rt.alloc(), None, &NONE).unwrap_or(false);
    let other = is_empty_page(rt.alloc(), Some(1), &NONE_YET).unwrap_or(false);
    assert!(rt; last && other);
}

/// The bytes of a last page of so many threads, from thread 1 on.
fn long_page(alloc: Global, count: u16) -> Result<Vec<u8>, AllocError> {
    let [low, high] = count.to_le_bytes();
    let mut bytes = vec![in alloc; low, high, 1, 0, 0, 0, 0, 0]?;
    for tid in 1..=count {
        let [low, high] = tid.to_le_bytes();
        bytes.extend_from_slice(&[2, 0, 0, 1, low, high, 0, 0, 1, 0, 0, 0, 255, 255, 1, 0])?;
        bytes.extend_from_slice(&[1, 0, 0, 0, 0, 0, 0, 0, 0, 0, 0, 0, 0, 0, 0, 0])?;
        bytes.extend_from_slice(&[33, 0, 0, 0, 0, 0, 0, 0, 0, 0, 0, 0, 0, 0, 0, 0])?;
    }
    Ok(bytes)
}

/// Whether the longest page is read and written as itself.
fn has_longest(alloc: Global) -> Result<bool, AllocError> {
    let bytes = long_page(alloc, u16::MAX)?;
    Ok(place_of(alloc, &bytes) == Some(5))
}

#[test]
fn reads_the_longest_page(rt: HostRuntime) {
    assert!(rt; has_longest(rt.alloc()).unwrap_or(false));
}

#[test]
fn a_fault_says_why(rt: HostRuntime) -> Result<(), Fail> {
    let said = format!(in rt.alloc(); "{}", PageFault::Trailing)?;
    assert_eq!(rt; said.as_str(), "more bytes than the count of records says");
    Ok(())
}
