//! When the threads that have a line below the rows could run, and when they were on a CPU.

use crate::lane::Lane;
use crate::listing::Line;
use crate::lives::index_of;
use crate::part::Part;
use crate::readiness::{Readiness, is_turn};
use crate::stay::Stay;
use crate::strip::Strip;
use gs_journal::{Entry, Journal};
use gs_layout::{Change, Message};
use std::alloc::{AllocError, Global};

/// What stands in the place of a thread that has no line.
const NONE: u32 = u32::MAX;

/// The times of a thread.
#[derive(Drop)]
pub(crate) struct Times {
    readiness: Readiness,
    /// When it lived and could run.
    pub ready: Strip,
    /// When it was on a CPU.
    pub ran: Strip,
}

impl Times {
    /// Makes those of a thread of which nothing is told yet.
    fn new(alloc: Global) -> Times {
        Times {
            readiness: Readiness::none(),
            ready: Strip::new(alloc),
            ran: Strip::new(alloc),
        }
    }

    /// Adds the time from an entry on that it could run, before the entry of this place.
    fn add_ready(
        &mut self,
        part: &Part<'_>,
        since: Option<usize>,
        place: usize,
    ) -> Result<(), AllocError> {
        match since {
            Some(since) => self.ready.add(part, since, place),
            None => Ok(()),
        }
    }

    /// Changes as a message about the thread says, whose entry is that of this place.
    fn tell(&mut self, part: &Part<'_>, place: usize, change: &Change) -> Result<(), AllocError> {
        let since = self.readiness.tell(place, change);
        self.add_ready(part, since, place)
    }

    /// Ends the time that it may run, by the entry of this place, if it may.
    fn end(&mut self, part: &Part<'_>, place: usize) -> Result<(), AllocError> {
        let since = self.readiness.end();
        self.add_ready(part, since, place)
    }

    /// Draws its last times.
    fn end_strips(&mut self) -> Result<(), AllocError> {
        self.ready.end()?;
        self.ran.end()
    }
}

/// The times of each thread that has a line.
#[derive(Drop)]
pub(crate) struct AllTimes {
    times: Vec<Times>,
    /// The place of a thread's times among these, for each thread from 1 on.
    places: Vec<u32>,
}

impl AllTimes {
    /// Makes room for the threads that have these lines, of so many threads.
    fn with_room(alloc: Global, lines: &[Line], threads: usize) -> Result<AllTimes, AllocError> {
        let mut all = AllTimes {
            times: Vec::new(alloc),
            places: vec![in alloc; NONE; threads]?,
        };
        for line in lines {
            if let Line::Thread { tid } = line {
                all.add(alloc, *tid)?;
            }
        }
        Ok(all)
    }

    /// Adds a thread of which nothing is told yet.
    fn add(&mut self, alloc: Global, tid: u32) -> Result<(), AllocError> {
        if let Some(place) = self.places.get_mut(index_of(tid)) {
            *place = u32::try_from(self.times.len()).unwrap_or(NONE);
            self.times.push(Times::new(alloc))?;
        }
        Ok(())
    }

    /// Lends the times of a thread, or returns `None` if it has no line.
    pub(crate) fn of(&self, tid: u32) -> Option<&Times> {
        let place = *self.places.get(index_of(tid))?;
        self.times.get(place as usize)
    }

    /// Changes the times of a thread as a message about it says, whose entry is that of this place.
    #[inline(always)]
    fn tell(
        &mut self,
        part: &Part<'_>,
        place: usize,
        tid: u32,
        change: &Change,
    ) -> Result<(), AllocError> {
        let number = self.places.get(index_of(tid)).copied().unwrap_or(NONE);
        match self.times.get_mut(number as usize) {
            Some(times) => times.tell(part, place, change),
            None => Ok(()),
        }
    }

    /// Ends the time that each thread may run, by the entry of this place.
    fn end_all(&mut self, part: &Part<'_>, place: usize) -> Result<(), AllocError> {
        for times in self.times.iter_mut() {
            times.end(part, place)?;
        }
        Ok(())
    }

    /// Adds when threads could run, as the entries tell.
    fn add_ready(&mut self, part: &Part<'_>, journal: &Journal) -> Result<(), AllocError> {
        for place in 0..journal.len() {
            match journal.entry(place) {
                Entry::Posted {
                    message: Message::Thread { tid, change, .. },
                } if is_turn(&change) => self.tell(part, place, tid, &change)?,
                Entry::Torn => self.end_all(part, place)?,
                _ => {}
            }
        }
        self.end_all(part, journal.len())
    }

    /// Adds the stays of threads on a CPU.
    fn add_stays(&mut self, part: &Part<'_>, stays: &[Stay]) -> Result<(), AllocError> {
        for stay in stays {
            let number = self.places.get(index_of(stay.tid)).copied().unwrap_or(NONE);
            if let Some(times) = self.times.get_mut(number as usize) {
                times.ran.add(part, stay.from, stay.to)?;
            }
        }
        Ok(())
    }

    /// Returns the times of the threads that have these lines, of so many threads. Their stays on CPUs are given by CPU.
    ///
    /// # Errors
    ///
    /// `AllocError` if out of memory.
    pub(crate) fn new(
        alloc: Global,
        journal: &Journal,
        part: &Part<'_>,
        lanes: &[Lane],
        lines: &[Line],
        threads: usize,
    ) -> Result<AllTimes, AllocError> {
        let mut all = AllTimes::with_room(alloc, lines, threads)?;
        if all.times.is_empty() {
            return Ok(all);
        }
        all.add_ready(part, journal)?;
        for lane in lanes {
            all.add_stays(part, lane.stays())?;
        }
        for times in all.times.iter_mut() {
            times.end_strips()?;
        }
        Ok(all)
    }
}
