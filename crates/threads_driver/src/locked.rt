//! A locked enclave, called by one thread or by several.

ghost use Rattle.std.specs.Prelude.{◌≡◌};
ghost use Rattle.gs_link.specs.declared.poster.RtrbPoster.{RtrbPoster};
ghost use Rattle.gs_link.specs.Between.{IsPairOf, room};

use crate::callers::call_all;
use crate::calls::{create_all, read_all, serve_all};
use crate::events::{config, parcels};
use gs_policy::FirstCome;
use gs_runner::{Parts, Pass, Site, Station};
use std::alloc::Global;
use std::marker::Brand;
use std::sync::Wait;
use std::thread::Threads;

/// What is done with a station.
#[derive(Clone, Copy)]
pub(crate) enum Course {
    /// So many events are served, with nobody else at the lock.
    Serve { calls: u32 },
    /// The board is read so often.
    Read { reads: u32 },
    /// So many events of each of so many callers are served, who are in threads of their own.
    Threads { callers: u32, calls: u32 },
}

impl Course {
    /// How many parcels the ring has to have.
    fn parcels(self) -> Option<u32> {
        match self {
            Course::Serve { calls } => parcels(1, calls),
            Course::Read { .. } => parcels(1, 0),
            Course::Threads { callers, calls } => parcels(callers, calls),
        }
    }
}

/// Follows a course, and returns how much came of it. `None` if there are too few passes, out of memory, or
/// if not all threads could be started.
fn follow<L: Site + Send + Sync, R: Threads + Wait + Sync>(
    rt: &R,
    alloc: Global,
    station: &Station<L>,
    passes: &mut [Pass<L>],
    course: Course,
) -> Option<u64> {
    let pass = passes.first_mut()?;
    create_all(rt, station, pass);
    match course {
        Course::Serve { calls } => Some(serve_all(rt, station, pass, calls)),
        Course::Read { reads } => Some(read_all(station, pass, reads)),
        Course::Threads { callers, calls } => {
            call_all(
                rt,
                alloc,
                station,
                passes.get_mut(..callers as usize)?,
                calls,
            )
        }
    }
}

/// Starts a station of these parts, which `L` names, and follows a course.
fn run_named<L: Site + Send + Sync, R: Threads + Wait + Sync>(
    rt: &R,
    alloc: Global,
    parts: Parts<FirstCome>,
    course: Course,
) -> Option<u64>
    requires ledger { (parts.blank.name ≡ L.name) × (parts.blank.parts ≡ L.parts) }
    requires ring { L.is_ring parts.poster × ((p : RtrbPoster) → L.is_ring p → IsPairOf p parts.taker) }
    requires board { parts.opened.table.shared.table_id ≡ L.board }
    requires parcels { room parts.poster ≡ L.parcels }
{
    match Station::<L>::start(alloc, parts) {
        Ok((station, _held, mut passes)) => {
            follow(rt, alloc, &station, passes.as_mut_slice(), course)
        }
        Err(_) => None,
    }
}

/// Follows a course with a new station, and returns how much came of it. `None` if out of memory, or if not all
/// threads could be started.
pub(crate) fn run_locked<R: Threads + Wait + Sync>(
    rt: &R,
    alloc: Global,
    course: Course,
) -> Option<u64> {
    match Parts::make(alloc, config(), course.parcels()?) {
        Ok(parts) => run_named::<Brand, R>(rt, alloc, parts, course),
        Err(_) => None,
    }
}
