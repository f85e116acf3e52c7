//! Readers that fail or have no end, writers that fail or are full, and the longest script.

use gs_policy::AnyPolicy;
use gs_script::MOST_BYTES;
use gs_trace::{Ended, TraceFault, run_report, run_script};
use std::alloc::{AllocError, Global};
use std::io;
use std::io::{Read, Write};
use std::test::Fail;

/// A reader that gives one byte at a time, and fails at one of its reads. Reads count from 1.
#[derive(Drop)]
struct Slow<'a> {
    left: &'a [u8],
    reads: u64,
    fails_at: u64,
}

impl Read for Slow<'_> {
    fn read(&mut self, buffer: &mut [u8]) -> io::Result<usize> {
        self.reads = self.reads.saturating_add(1);
        if self.reads == self.fails_at {
            return Err(io::Error::from(io::ErrorKind::Other));
        }
        let Some((first, rest)) = self.left.split_first() else {
            return Ok(0);
        };
        if buffer.is_empty() {
            return Ok(0);
        }
        buffer[0] = *first;
        self.left = rest;
        Ok(1)
    }
}

/// A reader without an end, that gives one byte at a time and counts its reads.
#[derive(Drop)]
struct Endless {
    reads: u64,
}

impl Read for Endless {
    fn read(&mut self, buffer: &mut [u8]) -> io::Result<usize> {
        self.reads = self.reads.saturating_add(1);
        if buffer.is_empty() {
            return Ok(0);
        }
        buffer[0] = b'#';
        Ok(1)
    }
}

/// A writer that takes so many bytes, at most three at a time, and then fails, or takes none.
#[derive(Drop)]
struct Narrow {
    taken: Vec<u8>,
    room: usize,
    fails: bool,
}

impl Write for Narrow {
    fn write(&mut self, bytes: &[u8]) -> io::Result<usize> {
        let count = bytes.len().min(self.room).min(3);
        if count == 0 && self.fails {
            return Err(io::Error::from(io::ErrorKind::Other));
        }
        self.taken.extend_from_slice(&bytes[..count])?;
        self.room -= count;
        Ok(count)
    }

    fn flush(&mut self) -> io::Result<()> {
        Ok(())
    }
}

const FIRST_PATH: &str = "cpus 2 ring 128\ncreate 3 0 r web\ndrain 1\nstamp 1 1\ncommit 2\n";

const FIRST_PATH_LINES: &str = "created 1 seq 1\ndrained 1\nstamped 1\ncpu 1 placed 1 seq 1\n";

const TOO_LONG: &str = "fault line 0 TooLong\n";

/// Whether a run whose reader fails at this read ends so, and writes this.
fn ends_at_read(
    alloc: Global,
    fails_at: u64,
    wanted: Result<Ended, TraceFault>,
    lines: &str,
) -> bool {
    let mut reader = Slow {
        left: FIRST_PATH.as_bytes(),
        reads: 0,
        fails_at,
    };
    let mut written = Vec::new(alloc);
    let ended = run_script::<AnyPolicy, _, _>(alloc, &mut reader, &mut written);
    ended == wanted && written.as_slice() == lines.as_bytes()
}

/// The first read whose failure is not returned by the run, with nothing written. The last read finds the
/// end, and a run does no further one.
fn first_wrong_read(alloc: Global) -> Option<u64> {
    let reads = FIRST_PATH.len() as u64 + 1;
    for read in 1..=reads {
        if !ends_at_read(alloc, read, Err(TraceFault::ReadFailed), "") {
            return Some(read);
        }
    }
    if ends_at_read(alloc, reads + 1, Ok(Ended::Ran), FIRST_PATH_LINES) {
        None
    } else {
        Some(reads + 1)
    }
}

/// Whether a run whose writer has room for so many bytes, and then fails or takes none, ends so, and has written
/// as many as there is room for.
fn ends_at_write(
    alloc: Global,
    room: usize,
    fails: bool,
    wanted: Result<Ended, TraceFault>,
) -> bool {
    let mut reader = FIRST_PATH.as_bytes();
    let mut writer = Narrow {
        taken: Vec::new(alloc),
        room,
        fails,
    };
    let ended = run_script::<AnyPolicy, _, _>(alloc, &mut reader, &mut writer);
    let is_beginning = FIRST_PATH_LINES.as_bytes().starts_with(&writer.taken);
    ended == wanted && is_beginning && writer.taken.len() == room
}

/// The first count of bytes behind which a writer's failure, or its taking none, is not returned by the run.
/// With room for all bytes the run ends well.
fn first_wrong_write(alloc: Global) -> Option<usize> {
    let len = FIRST_PATH_LINES.len();
    for room in 0..=len {
        let wanted = if room < len {
            Err(TraceFault::WriteFailed)
        } else {
            Ok(Ended::Ran)
        };
        for fails in [true, false] {
            if !ends_at_write(alloc, room, fails, wanted) {
                return Some(room);
            }
        }
    }
    None
}

/// What is written for a script of so many bytes `#`, by its lines or as a report, if it has a fault.
fn faulted(alloc: Global, len: usize, reports: bool) -> Result<String, AllocError> {
    let script = vec![in alloc; b'#'; len]?;
    let mut reader = script.as_slice();
    let mut written = Vec::new(alloc);
    let ended = if reports {
        run_report::<AnyPolicy, _, _>(alloc, &mut reader, &mut written, 5)
    } else {
        run_script::<AnyPolicy, _, _>(alloc, &mut reader, &mut written)
    };
    match ended {
        Ok(Ended::Faulted) => String::from_utf8_lossy(alloc, &written),
        _ => Ok(String::new(alloc)),
    }
}

/// How many bytes a script has, whether a report is written, and what is.
const LENGTHS: [(usize, bool, &str); 3] = [
    (MOST_BYTES, false, "fault line 0 NoHeader\n"),
    (MOST_BYTES + 1, false, TOO_LONG),
    (MOST_BYTES + 1, true, TOO_LONG),
];

/// The first row of `LENGTHS` that comes out otherwise.
fn first_wrong_length(alloc: Global) -> Result<Option<usize>, AllocError> {
    for (i, (len, reports, wanted)) in LENGTHS.iter().enumerate() {
        if faulted(alloc, *len, *reports)?.as_str() != *wanted {
            return Ok(Some(i));
        }
    }
    Ok(None)
}

/// Whether a reader without an end is given up on, once it gave a byte more than a script may have.
fn gives_up(alloc: Global) -> bool {
    let mut reader = Endless { reads: 0 };
    let mut written = Vec::new(alloc);
    let ended = run_script::<AnyPolicy, _, _>(alloc, &mut reader, &mut written);
    ended == Ok(Ended::Faulted)
        && written.as_slice() == TOO_LONG.as_bytes()
        && reader.reads <= 1_048_578
}

#[test]
fn reads_and_writes(rt: HostRuntime) -> Result<(), Fail> {
    assert_eq!(rt; first_wrong_read(rt.alloc()), None);
    assert_eq!(rt; first_wrong_write(rt.alloc()), None);
    assert_eq!(rt; first_wrong_length(rt.alloc())?, None);
    assert!(rt; gives_up(rt.alloc()));
    Ok(())
}
