//! What one walk over the entries of a journal tells, for all that a picture is drawn of.

ghost use Rattle.std.specs.Prelude.{◌≡◌, IfOk, map};
ghost use Rattle.gs_timeline.specs.Lives.{born, creations};

use crate::ending::Ending;
use crate::endings::Endings;
use crate::lives::{Life, hear_lives};
use crate::part::Part;
use crate::spans::Spans;
use crate::walk::count_placing;
use gs_journal::Journal;
use std::alloc::{AllocError, Global};

/// What the entries tell.
#[derive(Drop)]
pub(crate) struct Heard<'a> {
    /// How many threads were placed on each CPU.
    pub placings: Vec<usize>,
    /// The threads, by tid, without their stays.
    pub lives: Vec<Life>,
    pub spans: Spans,
    /// Why stays end.
    pub endings: Endings<'a>,
}

impl<'a> Heard<'a> {
    /// Walks the entries once.
    ///
    /// # Errors
    ///
    /// `AllocError` if out of memory.
    pub(crate) fn new(
        alloc: Global,
        journal: &'a Journal,
        part: &Part<'_>,
        cpus: u16,
    ) -> Result<Heard<'a>, AllocError>
        ensures lives { IfOk result (λ heard. map born heard.lives.items ≡ creations journal.now.entries) }
        ensures endings { IfOk result (λ heard. heard.endings ≡ journal.now.entries) }
    {
        let mut placings = vec![in alloc; 0; cpus as usize]?;
        let mut lives = Vec::new(alloc);
        let mut spans = Spans::new(alloc, cpus)?;
        let mut endings = Vec::with_capacity(alloc, journal.len())?;
        for place in 0..journal.len() {
            let entry = journal.entry(place);
            count_placing(&mut placings, &entry);
            hear_lives(&mut lives, part, place, &entry)?;
            spans.hear(place, &entry)?;
            endings.push(Ending::of(Some(&entry)))?;
        }
        spans.end(cpus, journal.len())?;
        Ok(Heard {
            placings,
            lives,
            spans,
            endings: Endings::new(journal, endings),
        })
    }
}
