//! A station is closed with all passes, and with no fewer.

use gs_runner::{CloseFault, Closed, Pass, Site, Station};

/// Tries to close a station, and returns what it hands back.
fn hands_back<L: Site>(station: Station<L>, passes: Vec<Pass<L>>) -> Option<CloseFault<L>> {
    station.close(passes).err()
}

/// Closes a station.
fn close<L: Site>(station: Station<L>, passes: Vec<Pass<L>>) -> Option<Closed> {
    station.close(passes).ok()
}

/// Closes what was handed back, with one pass more.
fn close_with<L: Site>(fault: CloseFault<L>, last: Pass<L>) -> Option<Closed> {
    let CloseFault {
        station,
        mut passes,
    } = fault;
    let _ = passes.push(last);
    close(station, passes)
}

/// Tries to close a station with one pass too few, and then closes it with all. `None` if the first is not refused,
/// or the second is.
pub(crate) fn close_twice<L: Site>(station: Station<L>, passes: Vec<Pass<L>>) -> Option<Closed> {
    let mut fewer = passes;
    let last = fewer.pop();
    match (hands_back(station, fewer), last) {
        (Some(fault), Some(last)) => close_with(fault, last),
        _ => None,
    }
}
