//! How many decisions are shown, and what came of them: a line below the heading, which is also what the shapes mean.

ghost use Rattle.std.specs.Prelude.{◌≡◌, ◌++◌, ◌+◌, ◌<◌, ℕ, if◌then◌else◌, IfOk, OnOk, get_or, length, map, replicate};
ghost use Rattle.std.specs.List.{range_with_len};
ghost use Rattle.gs_layout.specs.Outcome.{outcome_numbered};
ghost use Rattle.gs_layout.specs.declared.outcome.TheConstants.{OUTCOMES};
ghost use Rattle.gs_timeline.specs.Counts.{any_came, came_to, count_of, is_counted, is_placed, sums, takes, told_by};
ghost use Rattle.gs_timeline.specs.Pieces.{Adds};
ghost use Rattle.gs_timeline.specs.declared.counts.Which.TheVariants.{Failed, Numbered, Placed, Stamped};

use crate::decided::failure_of;
use crate::notes::{Mark, What};
use crate::part::Part;
use crate::phrases::{begin_path, begin_text};
use crate::shapes::{shape_of, words_of};
use crate::text::Text;
use crate::threads::{digits, room_for};
use gs_layout::{OUTCOMES, Outcome};
use std::alloc::{AllocError, Global};

/// Where the first line of counts stands.
const FIRST: u64 = 92;

/// How far below one another lines of counts stand.
const NEXT: u64 = 18;

/// Where a line ends.
const END: u64 = 900;

/// How many letters the first words have, without the numbers.
const WORDS: u64 = 44;

/// How wide a shape is, with the gaps beside it.
const SHAPE: u64 = 16;

/// How many decisions are shown.
#[derive(Drop)]
pub(crate) struct Counts {
    stamped: u64,
    placed: u64,
    failed: u64,
    /// By the outcome's number. Those that were placed are not among them.
    outcomes: Vec<u64>,
}

/// Which decisions are counted.
#[derive(Clone, Copy)]
enum Which {
    Stamped,
    /// Those that landed, and whose thread was placed.
    Placed,
    /// Those that landed, and whose thread was not.
    Failed,
    /// Those of them whose outcome has this number. Contracts alone use this.
    Numbered(u16),
}

impl Which {
    /// Returns whether a decision is one of these.
    #[inline(always)]
    fn takes(self, mark: &Mark) -> bool
        ensures { result ≡ takes self mark.now }
    {
        match self {
            Which::Stamped => matches!(mark.what, What::Stamped { .. }),
            Which::Placed => is_placed(mark.what),
            Which::Failed => failure_of(mark).is_some(),
            Which::Numbered(number) => match failure_of(mark) {
                Some(outcome) => outcome.number() == number,
                None => false,
            },
        }
    }
}

/// Returns whether a transaction landed and its thread was placed.
fn is_placed(what: What) -> bool
    ensures { result ≡ is_placed what }
{
    matches!(
        what,
        What::Landed {
            outcome: Outcome::Placed,
        } | What::Late {
            outcome: Outcome::Placed,
            ..
        }
    )
}

/// Returns whether a decision is shown, and one of these.
#[inline(always)]
fn is_counted(part: &Part<'_>, which: Which, mark: &Mark) -> bool
    ensures { result ≡ is_counted part.now which mark.now }
{
    part.meets(mark.place()) && which.takes(mark)
}

/// How many decisions are shown that were stamped, placed and not placed.
#[derive(Clone, Copy)]
struct Tally {
    stamped: u64,
    placed: u64,
    failed: u64,
}

impl Tally {
    /// Counts a decision, if it is shown.
    #[inline(always)]
    fn count(&mut self, part: &Part<'_>, mark: &Mark)
        requires stamped { self.old.stamped < u64.MAX }
        requires placed { self.old.placed < u64.MAX }
        requires failed { self.old.failed < u64.MAX }
        ensures stamped { self.new.stamped ≡ (if is_counted part.now Stamped mark.now then self.old.stamped + 1 else self.old.stamped) }
        ensures placed { self.new.placed ≡ (if is_counted part.now Placed mark.now then self.old.placed + 1 else self.old.placed) }
        ensures failed { self.new.failed ≡ (if is_counted part.now Failed mark.now then self.old.failed + 1 else self.old.failed) }
    {
        if is_counted(part, Which::Stamped, mark) {
            self.stamped += 1;
        }
        if is_counted(part, Which::Placed, mark) {
            self.placed += 1;
        }
        if is_counted(part, Which::Failed, mark) {
            self.failed += 1;
        }
    }
}

/// Counts a decision by the number of its outcome, if it is shown, landed and was not placed.
#[inline(always)]
fn count_outcome(counts: &mut [u64], part: &Part<'_>, mark: &Mark)
    requires all { length counts.old ≡ OUTCOMES }
    requires few { (n : ℕ) → n < OUTCOMES → get_or counts.old n 0 < u64.MAX }
    ensures { (n : ℕ) → n < OUTCOMES → get_or counts.new n 0 ≡ (if is_counted part.now (Numbered n) mark.now then get_or counts.old n 0 + 1 else get_or counts.old n 0) }
{
    if !part.meets(mark.place()) {
        return;
    }
    let Some(outcome) = failure_of(mark) else {
        return;
    };
    counts[outcome.number() as usize] += 1;
}

/// Counts the marks that are shown, those that were not placed also by the number of what they came to, into counts of
/// none. It walks the marks once.
fn count_marks(counts: &mut [u64], part: &Part<'_>, marks: &[Mark]) -> Tally
    requires { counts.old ≡ replicate OUTCOMES 0 }
    ensures outcomes { counts.new ≡ map (λ n. count_of part.now (Numbered n) marks.now) (range_with_len 0 OUTCOMES) }
    ensures stamped { result.stamped ≡ count_of part.now Stamped marks.now }
    ensures placed { result.placed ≡ count_of part.now Placed marks.now }
    ensures failed { result.failed ≡ count_of part.now Failed marks.now }
{
    let mut tally = Tally {
        stamped: 0,
        placed: 0,
        failed: 0,
    };
    for mark in marks {
        tally.count(part, mark);
        count_outcome(counts, part, mark);
    }
    tally
}

/// Counts the marks that are shown.
pub(crate) fn counted(alloc: Global, part: &Part<'_>, marks: &[Mark]) -> Result<Counts, AllocError>
    ensures stamped { IfOk result (λ counts. counts.stamped ≡ count_of part.now Stamped marks.now) }
    ensures placed { IfOk result (λ counts. counts.placed ≡ count_of part.now Placed marks.now) }
    ensures failed { IfOk result (λ counts. counts.failed ≡ count_of part.now Failed marks.now) }
    ensures outcomes { IfOk result (λ counts. counts.outcomes.items ≡ map (λ n. count_of part.now (Numbered n) marks.now) (range_with_len 0 OUTCOMES)) }
{
    let mut outcomes = Vec::new(alloc);
    outcomes.resize(OUTCOMES as usize, 0)?;
    let tally = count_marks(outcomes.as_mut_slice(), part, marks);
    Ok(Counts {
        stamped: tally.stamped,
        placed: tally.placed,
        failed: tally.failed,
        outcomes,
    })
}

/// Where the next outcome stands.
#[derive(Clone, Copy)]
struct Pen {
    x: u64,
    y: u64,
}

impl Pen {
    /// Adds an outcome: its shape, its words, and how many landings came to it.
    fn write(&mut self, out: &mut Text, outcome: Outcome, count: u64) -> Result<(), AllocError>
        ensures { OnOk result (Adds (came_to outcome count) out.old.settled out.new.settled) }
    {
        let words = words_of(outcome);
        let letters = (words.len() as u64)
            .saturating_add(digits(count))
            .saturating_add(3);
        let width = SHAPE.saturating_add(room_for(letters));
        if self.x.saturating_add(width) > END {
            self.x = 10;
            self.y = self.y.saturating_add(NEXT);
        }
        begin_path(
            out,
            "failed",
            self.x.saturating_add(6),
            self.y.saturating_sub(4),
        )?;
        out.push_str(shape_of(outcome))?;
        out.push_str("\"/>\n")?;
        out.settle();
        begin_text(out, self.x.saturating_add(SHAPE), self.y, "lost")?;
        out.push_str(words)?;
        out.push_number(" ", count)?;
        out.push_str("</text>\n")?;
        out.settle();
        self.x = self.x.saturating_add(width);
        Ok(())
    }

    /// Adds the outcome of a number, if some landings came to it.
    fn write_any(&mut self, out: &mut Text, number: u16, count: u64) -> Result<(), AllocError>
        ensures { OnOk result (Adds (any_came (outcome_numbered number) count) out.old.settled out.new.settled) }
    {
        match Outcome::numbered(number) {
            Some(outcome) if count > 0 => self.write(out, outcome, count),
            _ => Ok(()),
        }
    }
}

impl Counts {
    /// Returns how many landings came to the outcome of a number, and were not placed.
    fn came_to(&self, number: u16) -> u64
        ensures { result ≡ get_or self.now.outcomes.items number 0 }
    {
        self.outcomes.get(number as usize).copied().unwrap_or(0)
    }
}

/// Adds how many decisions are shown, and how many were placed or not.
pub(crate) fn write_sums(out: &mut Text, counts: &Counts) -> Result<(), AllocError>
    ensures settled { out.new.settled ≡ out.old.settled }
    ensures told { OnOk result (out.new.told ≡ out.old.told ++ sums counts.now.stamped counts.now.placed counts.now.failed) }
{
    out.push_number("Decisions: stamped ", counts.stamped)?;
    out.push_number(", placed ", counts.placed)?;
    out.push_number(", not placed ", counts.failed)
}

/// Adds how many decisions are shown, and what came of them.
pub(crate) fn write_counted(out: &mut Text, counts: &Counts) -> Result<(), AllocError>
    ensures { OnOk result (Adds (told_by counts.now) out.old.settled out.new.settled) }
{
    begin_text(out, 10, FIRST, "count")?;
    out.settle();
    write_sums(out, counts)?;
    out.push_str("</text>\n")?;
    out.settle();
    let numbers = [counts.stamped, counts.placed, counts.failed];
    let mut letters = WORDS;
    for number in &numbers {
        letters = letters.saturating_add(digits(*number));
    }
    let mut pen = Pen {
        x: room_for(letters),
        y: FIRST,
    };
    for number in 0..OUTCOMES {
        pen.write_any(out, number, counts.came_to(number))?;
    }
    Ok(())
}
