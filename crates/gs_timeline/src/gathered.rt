//! What a picture is drawn of: all lists of it, made before the first of its bytes.

ghost use Rattle.std.specs.Prelude.{◌≡◌, ◌<◌, ℕ, Some, IfOk, length, map, slice_get};
ghost use Rattle.std.specs.Option.{option_map};
ghost use Rattle.gs_timeline.specs.Bars.{scale};
ghost use Rattle.gs_timeline.specs.Counts.{decisions, told_by};
ghost use Rattle.gs_timeline.specs.Lanes.{LaneOf};
ghost use Rattle.gs_timeline.specs.Lives.{born, creations};
ghost use Rattle.gs_timeline.specs.Stays.{stays};

use crate::agents::{Step, steps};
use crate::counts::{Counts, counted};
use crate::endings::Endings;
use crate::heard::Heard;
use crate::lane::Lane;
use crate::listing::{Line, listing};
use crate::lives::{Life, end_lives};
use crate::notes::{Listed, Mark, Notes};
use crate::part::Part;
use crate::picks::Picks;
use crate::rows::{Rows, counts};
use crate::slots::{Pending, Stamped};
use crate::spans::{HeldTimes, Reign, Spans, reigns};
use crate::times::AllTimes;
use crate::walk::stays_in;
use gs_journal::Journal;
use std::alloc::{AllocError, Global};

/// What a picture is drawn of.
#[derive(Clone, Copy)]
pub(crate) struct Drawn<'a> {
    pub cpus: u16,
    pub notes: Notes<'a>,
    pub part: &'a Part<'a>,
    pub all: &'a Gathered<'a>,
}

/// All lists that a picture is drawn of.
#[derive(Drop)]
pub(crate) struct Gathered<'a> {
    /// Why stays end.
    pub endings: Endings<'a>,
    /// The stays, by CPU.
    pub lanes: Vec<Lane>,
    /// The threads, by tid.
    pub lives: Vec<Life>,
    /// The lines below the rows.
    pub lines: Vec<Line>,
    /// When the threads that have a line could run and ran.
    pub times: AllTimes,
    /// How many decisions are shown.
    pub counts: Counts,
    /// When the other class held a CPU, by CPU.
    pub holds: Vec<HeldTimes>,
    pub reigns: Vec<Reign>,
    pub steps: Vec<Step>,
    /// The marks that are drawn, by CPU.
    pub decided: Rows<Mark>,
    /// The times that something was stamped in a slot, by CPU.
    pub slots: Rows<Pending>,
    /// Which marks tell that a group landed, by group.
    pub groups: Picks,
}

impl<'a> Gathered<'a> {
    /// Gathers what a picture of so many CPUs is drawn of. After that nothing but the text grows.
    ///
    /// # Errors
    ///
    /// `AllocError` if out of memory.
    pub(crate) fn new(
        alloc: Global,
        cpus: u16,
        journal: &'a Journal,
        notes: &Notes<'_>,
        part: &Part<'_>,
        listed: Listed,
    ) -> Result<Gathered<'a>, AllocError>
        ensures count { IfOk result (λ all. length all.lanes.items ≡ cpus) }
        ensures stays { IfOk result (λ all. (c : ℕ) → c < cpus → option_map (λ (lane : LaneOf). lane.ended) (slice_get all.lanes.items c) ≡ Some (stays journal.now.entries c)) }
        ensures endings { IfOk result (λ all. all.endings ≡ journal.now.entries) }
        ensures lives { IfOk result (λ all. map born all.lives.items ≡ creations journal.now.entries) }
        ensures decisions { IfOk result (λ all. told_by all.counts ≡ decisions (scale part.now) notes.now.marks.now) }
    {
        let Heard {
            placings,
            mut lives,
            spans: Spans { turns, holds },
            endings,
        } = Heard::new(alloc, journal, part, cpus)?;
        let lanes = stays_in(alloc, journal, cpus, &placings)?;
        end_lives(alloc, &mut lives, part, journal.len(), &lanes, notes.marks)?;
        let lines = listing(alloc, &lives, listed)?;
        let times = AllTimes::new(alloc, journal, part, &lanes, &lines, lives.len())?;
        let Stamped {
            pending,
            groups,
            drawn,
        } = Stamped::new(alloc, part, notes.marks, &turns, cpus, journal.len())?;
        Ok(Gathered {
            endings,
            lanes,
            lives,
            lines,
            times,
            counts: counted(alloc, part, notes.marks)?,
            holds,
            reigns: reigns(alloc, &turns, journal.len())?,
            steps: steps(alloc, &turns, notes.agents)?,
            decided: Rows::new(alloc, part, notes.marks, drawn)?,
            slots: Rows::new(alloc, part, &pending, counts(alloc, part, &pending, cpus)?)?,
            groups,
        })
    }
}
