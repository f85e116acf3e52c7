//! What is drawn in the rows of the CPUs.

use crate::part::Part;
use std::alloc::{AllocError, Global};

/// What may be drawn in the row of a CPU.
pub(crate) trait InRow: Copy {
    /// Returns the CPU in whose row it is drawn, or `None` if it is not drawn.
    fn row(&self, part: &Part<'_>) -> Option<u16>;
}

/// What is drawn in the row of each CPU, one row behind another: a copy of each thing, so that whoever draws a row reads
/// one stretch of memory.
#[derive(Drop)]
pub(crate) struct Rows<T: InRow> {
    things: Vec<T>,
    /// Where each row ends among the things.
    ends: Vec<usize>,
}

/// Returns how many things each of so many CPUs has in its row.
pub(crate) fn counts<T: InRow>(
    alloc: Global,
    part: &Part<'_>,
    all: &[T],
    cpus: u16,
) -> Result<Vec<usize>, AllocError> {
    let mut counts: Vec<usize> = Vec::new(alloc);
    counts.resize(cpus as usize, 0)?;
    for thing in all {
        let Some(cpu) = thing.row(part) else {
            continue;
        };
        if let Some(count) = counts.get_mut(cpu as usize) {
            *count = count.saturating_add(1);
        }
    }
    Ok(counts)
}

/// Changes how long each row is to where it begins, if they stand one behind another. Returns where the last one ends.
fn begin_each(rows: &mut [usize]) -> usize {
    let mut begin: usize = 0;
    for row in rows.iter_mut() {
        let end = begin.saturating_add(*row);
        *row = begin;
        begin = end;
    }
    begin
}

/// Keeps a thing at the end of a row, which moves behind it.
#[inline(always)]
fn put<T: InRow>(things: &mut [T], end: &mut usize, thing: &T) {
    if let Some(free) = things.get_mut(*end) {
        *free = *thing;
    }
    *end = end.saturating_add(1);
}

/// Returns so many things, whichever they are, if there are any.
fn any<T: InRow>(alloc: Global, all: &[T], count: usize) -> Result<Vec<T>, AllocError> {
    let mut things = Vec::new(alloc);
    if let Some(first) = all.first() {
        things.resize(count, *first)?;
    }
    Ok(things)
}

impl<T: InRow> Rows<T> {
    /// Returns the rows of the CPUs, with what is drawn in each, in order. It is given how many things each row has, and takes
    /// exact room for them.
    ///
    /// # Errors
    ///
    /// `AllocError` if out of memory.
    pub(crate) fn new(
        alloc: Global,
        part: &Part<'_>,
        all: &[T],
        counts: Vec<usize>,
    ) -> Result<Rows<T>, AllocError> {
        let mut ends = counts;
        let mut things = any(alloc, all, begin_each(ends.as_mut_slice()))?;
        for thing in all {
            let Some(cpu) = thing.row(part) else {
                continue;
            };
            if let Some(end) = ends.get_mut(cpu as usize) {
                put(things.as_mut_slice(), end, thing);
            }
        }
        Ok(Rows { things, ends })
    }

    /// Lends what is drawn in the row of a CPU, or nothing if there is no such row.
    pub(crate) fn of(&self, cpu: u16) -> &[T] {
        let at = cpu as usize;
        let begin = match at.checked_sub(1) {
            Some(before) => self.ends.get(before).copied().unwrap_or(0),
            None => 0,
        };
        let end = self.ends.get(at).copied().unwrap_or(begin);
        self.things.get(begin..end).unwrap_or(&[])
    }
}
