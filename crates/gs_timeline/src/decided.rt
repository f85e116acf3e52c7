//! What is decided of a CPU: stamps and landings that were not placed, in a line above its bars.

ghost use Rattle.std.specs.Prelude.{◌≡◌, [], OnErr, OnOk};
ghost use Rattle.gs_timeline.specs.Marks.{failure_of};
ghost use Rattle.gs_timeline.specs.Sent.{Grows, Sends};

use crate::layout::decided_of;
use crate::lives::{Life, life_of};
use crate::notes::{Mark, What};
use crate::part::{EDGE, Part};
use crate::phrases::begin_text;
use crate::rows::InRow;
use crate::shapes::{MIXED, STAMP, shape_of, words_of};
use crate::text::Text;
use crate::threads::{letters_of, room_for, write_called, write_thread};
use gs_layout::Outcome;
use gs_text::{Digits, WriteFailed};
use std::alloc::AllocError;
use std::io::Write;

/// Marks that are nearer than this to the first of them are drawn as one.
const NEAR: u64 = 11;

/// How many marks that are drawn as one have a line each in its title, at most.
const MOST_TOLD: usize = 8;

/// Where the words of a mark begin, behind its middle.
const BESIDE: u64 = 8;

/// Returns what a transaction came to that landed and was not placed.
pub(crate) fn failure_of(mark: &Mark) -> Option<Outcome>
    ensures { result ≡ failure_of mark.now }
{
    match mark.what {
        What::Stamped { .. }
        | What::Landed {
            outcome: Outcome::Placed,
        }
        | What::Late {
            outcome: Outcome::Placed,
            ..
        } => None,
        What::Landed { outcome } | What::Late { outcome, .. } => Some(outcome),
    }
}

/// A mark is drawn if it is shown and is of a stamp, or of a landing that was not placed.
impl InRow for Mark {
    #[inline(always)]
    fn row(&self, part: &Part<'_>) -> Option<u16> {
        let is_stamp = matches!(self.what, What::Stamped { .. });
        let is_drawn = (is_stamp || failure_of(self).is_some()) && part.meets(self.place());
        is_drawn.then_some(self.cpu)
    }
}

/// Returns what is told of a stamp, between its entry and its thread.
fn stamped_so(preempt: bool, group: bool) -> &'static str {
    match (preempt, group) {
        (false, false) => ": stamped, ",
        (true, false) => ": stamped to preempt, ",
        (false, true) => ": stamped as one of a group, ",
        (true, true) => ": stamped to preempt as one of a group, ",
    }
}

/// Adds what an event did to a transaction.
#[inline(always)]
fn write_what(out: &mut Text, what: What) -> Result<(), AllocError>
    ensures { out.new.settled ≡ out.old.settled }
{
    let outcome = match what {
        What::Stamped { preempt, group } => return out.push_str(stamped_so(preempt, group)),
        What::Landed { outcome } => {
            out.push_str(": landed: ")?;
            outcome
        }
        What::Late { number, outcome } => {
            out.push_number(": transaction ", u64::from(number))?;
            out.push_str(" landed late: ")?;
            outcome
        }
    };
    out.push_str(words_of(outcome))?;
    out.push_str(", ")
}

/// Adds a mark in words, behind those that tell of its line: before which entry it was, what was done, and to which thread
/// and CPU. The CPU's digits are kept.
#[inline(always)]
pub(crate) fn write_mark(
    out: &mut Text,
    words: &str,
    lives: &[Life],
    mark: &Mark,
    cpu: &mut Digits,
) -> Result<(), AllocError>
    ensures { out.new.settled ≡ out.old.settled }
{
    cpu.set(u64::from(mark.cpu));
    let line = u64::from(mark.line);
    out.push_two(words, line, ", before entry ", u64::from(mark.entries))?;
    write_what(out, mark.what)?;
    write_thread(out, mark.tid, life_of(lives, mark.tid))?;
    out.push_digits(", on CPU ", cpu)
}

/// Marks of a CPU that are near to one another, and are drawn as one.
#[derive(Drop)]
struct Cluster {
    /// Where the line of the CPU is, and that with its digits.
    line: u64,
    y: Digits,
    /// The CPU.
    cpu: Digits,
    x: u64,
    /// The place of the first of them among the marks of the CPU, and how many they are.
    first: usize,
    marks: usize,
    stamps: u64,
    failures: u64,
    /// The first landing that was not placed, and whether another one came to something else.
    lost: Option<(u32, Outcome)>,
    mixed: bool,
}

impl Cluster {
    /// Makes a cluster of no marks, on this CPU.
    fn new(cpu: u16) -> Cluster {
        let line = decided_of(cpu);
        Cluster {
            line,
            y: Digits::new(line),
            cpu: Digits::new(u64::from(cpu)),
            x: 0,
            first: 0,
            marks: 0,
            stamps: 0,
            failures: 0,
            lost: None,
            mixed: false,
        }
    }

    /// Returns whether a mark at this place is so near that it belongs to the marks.
    fn reaches(&self, x: u64) -> bool {
        self.marks > 0 && x.saturating_sub(self.x) < NEAR
    }

    /// Counts a landing that was not placed.
    fn add_failure(&mut self, tid: u32, outcome: Outcome) {
        self.failures = self.failures.saturating_add(1);
        match self.lost {
            None => self.lost = Some((tid, outcome)),
            Some((_, first)) => self.mixed = self.mixed || first != outcome,
        }
    }

    /// Adds a mark behind the others.
    #[inline(always)]
    fn add(&mut self, mark: &Mark) {
        self.marks = self.marks.saturating_add(1);
        match failure_of(mark) {
            Some(outcome) => self.add_failure(mark.tid, outcome),
            None => self.stamps = self.stamps.saturating_add(1),
        }
    }

    /// Adds the title: a line for each of the first marks, and how many more there are.
    fn write_title(
        &mut self,
        out: &mut Text,
        lives: &[Life],
        marks: &[Mark],
    ) -> Result<(), AllocError>
        ensures { out.new.settled ≡ out.old.settled }
    {
        let told = marks
            .iter()
            .skip(self.first)
            .take(self.marks.min(MOST_TOLD));
        for (index, mark) in told.enumerate() {
            let words = if index == 0 {
                "\"><title>line "
            } else {
                "\nline "
            };
            write_mark(out, words, lives, mark, &mut self.cpu)?;
        }
        let others = self.marks.saturating_sub(MOST_TOLD);
        if others > 0 {
            out.push_number("\nand more: ", others as u64)?;
        }
        out.push_str("</title></path>\n")
    }

    /// Adds the shapes: a ring if something was stamped, and that of an outcome if something was not placed.
    fn write_shapes(&self, out: &mut Text) -> Result<(), AllocError>
        ensures { out.new.settled ≡ out.old.settled }
    {
        let words = match self.lost {
            Some(_) => "<path class=\"failed\" d=\"M",
            None => "<path class=\"stamp\" d=\"M",
        };
        out.push_number_digits(words, self.x, " ", &self.y)?;
        if self.stamps > 0 {
            out.push_str(STAMP)?;
        }
        let Some((_, outcome)) = self.lost else {
            return Ok(());
        };
        if self.stamps > 0 {
            out.push_number_digits("M", self.x, " ", &self.y)?;
        }
        out.push_str(if self.mixed { MIXED } else { shape_of(outcome) })
    }

    /// Adds the words beside the shapes, as many as end before `limit`. They say what came of the first landing that was not placed, and of
    /// which thread, or how many were not.
    fn write_words(&self, out: &mut Text, lives: &[Life], limit: u64) -> Result<(), AllocError>
        ensures { out.new.settled ≡ out.old.settled }
    {
        let Some((tid, outcome)) = self.lost else {
            return Ok(());
        };
        let life = life_of(lives, tid);
        let words = if self.mixed {
            "not placed"
        } else {
            words_of(outcome)
        };
        let short = words.len() as u64;
        let whole = short
            .saturating_add(letters_of(tid, life))
            .saturating_add(1);
        let x = self.x.saturating_add(BESIDE);
        let room = limit.saturating_sub(x);
        if room_for(short) > room {
            return Ok(());
        }
        begin_text(out, x, self.line.saturating_add(4), "lost")?;
        out.push_str(words)?;
        if room_for(whole) <= room {
            out.push_str(" ")?;
            if self.failures > 1 {
                out.push_decimal(self.failures)?;
            } else {
                write_called(out, tid, life)?;
            }
        }
        out.push_str("</text>\n")
    }

    /// Lets go of the marks.
    fn clear(&mut self) {
        self.marks = 0;
        self.stamps = 0;
        self.failures = 0;
        self.lost = None;
        self.mixed = false;
    }

    /// Draws the marks, which are some of these, if there are any, with words beside them that end before `limit`, and lets
    /// go of them.
    fn write(
        &mut self,
        out: &mut Text,
        lives: &[Life],
        marks: &[Mark],
        limit: u64,
    ) -> Result<(), AllocError>
        ensures { out.new.settled ≡ out.old.settled }
    {
        if self.marks == 0 {
            return Ok(());
        }
        self.write_shapes(out)?;
        self.write_title(out, lives, marks)?;
        self.write_words(out, lives, limit)?;
        self.clear();
        Ok(())
    }

    /// Goes to `x`, where the mark of this place is. If the others are not near to it, it draws them and lets go of them,
    /// and begins with this one.
    fn reach(
        &mut self,
        out: &mut Text,
        lives: &[Life],
        marks: &[Mark],
        place: usize,
        x: u64,
    ) -> Result<(), AllocError>
        ensures { out.new.settled ≡ out.old.settled }
    {
        if !self.reaches(x) {
            self.write(out, lives, marks, x)?;
            self.first = place;
            self.x = x;
        }
        Ok(())
    }
}

/// Adds the marks of a CPU that are drawn, which are these, and writes what is long enough.
pub(crate) fn write_decided<W: Write>(
    out: &mut Text,
    writer: &mut W,
    part: &Part<'_>,
    lives: &[Life],
    cpu: u16,
    marks: &[Mark],
) -> Result<(), WriteFailed>
    ensures sent { OnOk result (Sends [] (W.contents writer.old) (W.contents writer.new) out.old.settled out.new.settled) }
    ensures stuck { OnErr result (Grows (W.contents writer.old) (W.contents writer.new)) }
{
    let mut cluster = Cluster::new(cpu);
    for place in 0..marks.len() {
        let mark = &marks[place];
        cluster.reach(out, lives, marks, place, part.x(mark.place()))?;
        out.spill(writer)?;
        cluster.add(mark);
    }
    let end = part.x(part.behind()).saturating_add(EDGE);
    cluster.write(out, lives, marks, end)?;
    Ok(())
}
