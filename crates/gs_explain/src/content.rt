//! What is told of a late landing behind the script's line, as far as its bytes go.

ghost use Rattle.std.specs.Prelude.{◌≡◌, Some, true};
ghost use Rattle.gs_sentences.specs.Given.{cause_given, causes_given, landed_given};
ghost use Rattle.gs_explain.specs.ToldAgain.{entries_told, late_told, source_of};

use crate::same::{same_entry, same_landing};
use gs_journal::Entry;
use gs_kernel::Landing;
use gs_layout::Outcome;
use gs_sentences::{Cause, Landed, Stamped};

/// An entry that is a reason, with the line that added it and its place.
#[derive(Clone, Copy)]
pub(crate) struct Noted {
    pub(crate) line: usize,
    pub(crate) place: usize,
    pub(crate) entry: Entry,
}

/// All that the bytes depend on which are told behind the script's line: a transaction of a number landed late and was not placed. It
/// tore nothing down, and no group failed it.
#[derive(Clone, Copy)]
pub(crate) struct Told {
    pub(crate) number: u32,
    pub(crate) landing: Landing,
    pub(crate) stamped: Stamped,
    pub(crate) source: Option<Noted>,
    pub(crate) entries: usize,
    pub(crate) limit: u32,
}

/// Returns an entry that is a reason, to keep.
#[inline(always)]
fn source_of(cause: &Option<Cause<'_>>) -> Option<Noted>
    ensures { result ≡ source_of (causes_given cause.now) }
{
    match cause {
        Some(cause) => Some(Noted {
            line: cause.line,
            place: cause.place,
            entry: cause.entry(),
        }),
        None => None,
    }
}

/// Returns whether an entry is the one that was kept.
#[inline(always)]
#[tactic(auto, using(crate::proofs::Keeping::same_source))]
fn is_source(source: &Noted, cause: &Cause<'_>) -> bool
    ensures { result ≡ true → Some source.now ≡ source_of (Some (cause_given cause.now)) }
{
    if source.line == cause.line {
        if source.place == cause.place {
            return same_entry(&source.entry, &cause.entry());
        }
    }
    false
}

/// Returns whether what is a reason is what was kept.
#[inline(always)]
fn are_same(source: &Option<Noted>, cause: &Option<Cause<'_>>) -> bool
    ensures { result ≡ true → source.now ≡ source_of (causes_given cause.now) }
{
    match (source, cause) {
        (Some(source), Some(cause)) => is_source(source, cause),
        (None, None) => true,
        _ => false,
    }
}

/// Returns how many entries a sentence tells of: 0, if it tells of none.
#[inline(always)]
fn entries_told(outcome: Outcome, entries: usize) -> usize
    ensures { result ≡ entries_told outcome entries }
{
    match outcome {
        Outcome::HistoryFull => entries,
        _ => 0,
    }
}

/// Returns what is told of a late landing.
#[inline(always)]
pub(crate) fn late_told(number: u32, landed: &Landed<'_>) -> Told
    ensures { result ≡ late_told number (landed_given landed.now) }
{
    Told {
        number,
        landing: *landed.landing,
        stamped: landed.stamped,
        source: source_of(&landed.cause),
        entries: entries_told(landed.landing.outcome, landed.entries),
        limit: landed.limit,
    }
}

impl Told {
    /// Returns whether it is told of a late landing.
    #[inline(always)]
    pub(crate) fn is_late(&self, late: u32, landed: &Landed<'_>) -> bool
        ensures { result ≡ true → self.now ≡ late_told late (landed_given landed.now) }
    {
        self.number == late
            && same_landing(&self.landing, landed.landing)
            && self.stamped == landed.stamped
            && self.entries == entries_told(landed.landing.outcome, landed.entries)
            && self.limit == landed.limit
            && are_same(&self.source, &landed.cause)
    }
}
