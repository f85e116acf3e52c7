//! Stations that are started, called and closed.

ghost use Rattle.std.specs.Prelude.{◌≡◌};
ghost use Rattle.gs_link.specs.declared.poster.RtrbPoster.{RtrbPoster};
ghost use Rattle.gs_link.specs.Between.{IsPairOf, room};

use crate::callers::{Sheet, call_all};
use crate::closing::close_twice;
use crate::hand_off::sees_the_hand_off;
use gs_policy::FirstCome;
use gs_replies::Config;
use gs_runner::{Closed, Parts, Pass, Site, Station};
use std::alloc::Global;
use std::marker::Brand;
use std::sync::Wait;
use std::thread::Threads;

/// What is done with a station, which has two CPUs and whose first agent has generation 1.
#[derive(Clone, Copy)]
pub(crate) enum Course {
    /// Callers in threads of their own call, one for each sheet.
    Callers,
    /// The agent is handed off, in one thread.
    HandOff,
}

/// What became of a station.
#[derive(Drop)]
pub(crate) struct Ended {
    /// Whether all was as it is to be.
    pub seen: bool,
    /// The journal and the calls. There are none if it could not be closed, or could with too few passes.
    pub closed: Option<Closed>,
}

/// Follows a course.
fn follow<L: Site + Send + Sync, R: Threads + Wait + Sync>(
    rt: &R,
    alloc: Global,
    station: &Station<L>,
    passes: &mut [Pass<L>],
    course: Course,
    sheets: &mut [Sheet],
) -> bool {
    match course {
        Course::Callers => call_all(rt, station, passes, sheets),
        Course::HandOff => sees_the_hand_off(rt, alloc, station, passes),
    }
}

/// Follows a course, and closes the station.
fn follow_and_close<L: Site + Send + Sync, R: Threads + Wait + Sync>(
    rt: &R,
    alloc: Global,
    station: Station<L>,
    passes: Vec<Pass<L>>,
    course: Course,
    sheets: &mut [Sheet],
) -> Ended {
    let mut passes = passes;
    let seen = follow(rt, alloc, &station, passes.as_mut_slice(), course, sheets);
    Ended {
        seen,
        closed: close_twice(station, passes),
    }
}

/// Starts a station of these parts, which `L` names, follows a course, and closes the station.
fn run_named<L: Site + Send + Sync, R: Threads + Wait + Sync>(
    rt: &R,
    alloc: Global,
    parts: Parts<FirstCome>,
    course: Course,
    sheets: &mut [Sheet],
) -> Option<Ended>
    requires ledger { (parts.blank.name ≡ L.name) × (parts.blank.parts ≡ L.parts) }
    requires ring { L.is_ring parts.poster × ((p : RtrbPoster) → L.is_ring p → IsPairOf p parts.taker) }
    requires board { parts.opened.table.shared.table_id ≡ L.board }
    requires parcels { room parts.poster ≡ L.parcels }
{
    match Station::<L>::start(alloc, parts) {
        Ok((station, _held, passes)) => {
            Some(follow_and_close(rt, alloc, station, passes, course, sheets))
        }
        Err(_) => None,
    }
}

/// Starts a station with so many parcels, follows a course, and closes the station. `None` if it cannot be started.
pub(crate) fn run<R: Threads + Wait + Sync>(
    rt: &R,
    alloc: Global,
    parcels: u32,
    course: Course,
    sheets: &mut [Sheet],
) -> Option<Ended> {
    let config = Config {
        cpus: 2,
        ring: 128,
        first_tseq: 0,
        first_generation: 1,
        history: 1000,
        policy: FirstCome,
    };
    match Parts::make(alloc, config, parcels) {
        Ok(parts) => run_named::<Brand, R>(rt, alloc, parts, course, sheets),
        Err(_) => None,
    }
}
