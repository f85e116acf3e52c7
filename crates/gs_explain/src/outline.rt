//! An event whose object is put together at the end.

ghost use Rattle.std.specs.Prelude.{◌≡◌, ◌≤◌, ◌+◌, ◌++◌, ◌-◌, IfOk, OnOk, length, take, true};
ghost use Rattle.gs_journal.specs.Last.{entry_lent};
ghost use Rattle.gs_reasons.specs.Kept.{HasHeard};
ghost use Rattle.gs_script.specs.Unread.{said_line};
ghost use Rattle.gs_script.specs.Words.{is_text};
ghost use Rattle.gs_trace.specs.Came.{reply_in};
ghost use Rattle.gs_explain.specs.Marked.{IsMarked};
ghost use Rattle.gs_explain.specs.Moment.{moment_of};
ghost use Rattle.gs_explain.specs.Objects.{done_object, object_row};
ghost use Rattle.gs_sentences.specs.Parts.{part};
ghost use Rattle.gs_explain.specs.Outlined.{Grows, HasParts, IsOutlined, Notes, TellsNothing, outline_text};

use crate::draft::Draft;
use crate::hearing::hear_all;
use crate::moment::Scene;
use crate::whys::push_whys;
use gs_journal::{Journal, LastEntry};
use gs_reasons::Index;
use gs_script::SaidLine;
use gs_sentences::Tail;
use gs_trace::Came;
use std::alloc::AllocError;

/// What is told of an event.
#[derive(Clone, Copy)]
pub(crate) enum Told {
    /// A text has the lines of its reply, and behind them its reasons.
    Parts {
        /// How many entries the event added.
        count: u32,
        /// Where the lines begin.
        from: usize,
        /// How many bytes they have.
        lines: u32,
        /// How many bytes the reasons have.
        whys: u32,
    },
    /// It was refused and added no entry.
    Refused {
        /// The line and the place of the entry that is the reason, if one is.
        at: Option<(u32, u32)>,
        /// The numbers that its sentence tells of.
        tail: Tail,
    },
}

/// An event whose object is put together at the end. It has its line with that line's number, the place of the first entry that it added,
/// and what is told of it.
#[derive(Clone, Copy)]
pub(crate) struct Outline<'a> {
    pub(crate) line: &'a [u8],
    pub(crate) number: u32,
    pub(crate) first: u32,
    pub(crate) told: Told,
}

const _: () = prove!(size_of::<Outline<'static>>() == 56);

/// Returns a number in 32 bits. One that does not fit counts as out of memory.
#[inline(always)]
pub(crate) fn short(number: usize) -> Result<u32, AllocError>
    ensures { IfOk result (λ n. n ≡ number) }
{
    match u32::try_from(number) {
        Ok(number) => Ok(number),
        Err(_) => Err(AllocError),
    }
}

/// Returns the lines of a reply that a text has from a place on, so many bytes, and the reasons behind them.
#[inline(always)]
pub(crate) fn parts_in(text: &[u8], from: usize, lines: u32, whys: u32) -> (&[u8], &[u8])
    requires { HasParts text.now from (from + lines) (from + lines + whys) }
    ensures lines { result.0.now ≡ part from (from + lines) text.now }
    ensures whys { result.1.now ≡ part (from + lines) (from + lines + whys) text.now }
{
    let mid = from + lines as usize;
    let to = mid + whys as usize;
    (&text[from..mid], &text[mid..to])
}

impl Told {
    /// Returns that a text has the lines of a reply between two places, and reasons behind them, of an event that added so many
    /// entries. A number that does not fit into 32 bits counts as out of memory.
    #[inline(always)]
    pub(crate) fn parts(count: u32, from: usize, mid: usize, to: usize) -> Result<Told, AllocError>
        requires begins { from ≤ mid }
        requires ends { mid ≤ to }
        ensures { IfOk result (λ told. told ≡ Told.Parts count from (mid - from) (to - mid)) }
    {
        let lines = short(mid - from)?;
        let whys = short(to - mid)?;
        Ok(Told::Parts {
            count,
            from,
            lines,
            whys,
        })
    }
}

impl<'a> Outline<'a> {
    /// Makes one. A number that does not fit into 32 bits counts as out of memory.
    #[inline(always)]
    fn new(
        said: &SaidLine<'a>,
        first: usize,
        end: usize,
        from: usize,
        mid: usize,
        to: usize,
    ) -> Result<Outline<'a>, AllocError>
        requires entries { first ≤ end }
        requires begins { from ≤ mid }
        requires ends { mid ≤ to }
        ensures { IfOk result (Notes (said_line said.now) first (end - first) from mid to) }
    {
        let number = short(said.number)?;
        let end = short(end)?;
        let first = first as u32;
        let told = Told::parts(end - first, from, mid, to)?;
        Ok(Outline {
            line: said.bytes,
            number,
            first,
            told,
        })
    }
}

/// Adds the reason of a commit that stamped nothing, and returns what is told of each such commit. It fails only if out of memory.
#[inline(never)]
pub(crate) fn told_nothing(draft: &mut Draft) -> Result<Told, AllocError>
    ensures grown { OnOk result (Grows draft.old draft.new) }
    ensures told { IfOk result (λ told. TellsNothing draft.new told) }
{
    let from = draft.len();
    draft.nothing()?;
    let to = draft.len();
    Told::parts(0, from, from, to)
}

/// Adds what the object of an event is put together of, and returns the event. An index has heard the entries before the
/// event, so many, and hears those of the event. It fails only if out of memory.
#[inline(always)]
pub(crate) fn outlined<'a>(
    draft: &mut Draft,
    said: &SaidLine<'a>,
    scene: &Scene<'_>,
    index: &mut Index,
    first: usize,
    came: Came<'_>,
) -> Result<Outline<'a>, AllocError>
    requires text { is_text said.now.bytes.now ≡ true }
    requires within { first ≤ length scene.now.journal.now.entries }
    requires heard { HasHeard index.old (take first scene.now.journal.now.entries) }
    requires marked { IsMarked scene.now.last.now.places.items scene.now.transactions.now }
    ensures grown { OnOk result (Grows draft.old draft.new) }
    ensures told { IfOk result (λ o. outline_text draft.new o ≡ object_row (said_line said.now) (moment_of scene.now) first (reply_in came.entry)) }
    ensures stands { IfOk result (λ o. IsOutlined draft.new o) }
    ensures heard { OnOk result (HasHeard index.new scene.now.journal.now.entries) }
{
    let from = draft.len();
    draft.reply(came)?;
    let mid = draft.len();
    push_whys(draft, scene, index, first, came)?;
    let to = draft.len();
    Outline::new(said, first, scene.journal.len(), from, mid, to)
}

/// Adds what the object of a command that was done is put together of, by the kernel's journal and the last entry, and returns
/// it, as [`outlined`] does.
#[inline(always)]
pub(crate) fn outlined_done<'a>(
    draft: &mut Draft,
    said: &SaidLine<'a>,
    journal: &Journal,
    index: &mut Index,
    first: usize,
    last: LastEntry<'_>,
) -> Result<Outline<'a>, AllocError>
    requires text { is_text said.now.bytes.now ≡ true }
    requires within { first ≤ length journal.now.entries }
    requires heard { HasHeard index.old (take first journal.now.entries) }
    ensures grown { OnOk result (Grows draft.old draft.new) }
    ensures told { IfOk result (λ o. outline_text draft.new o ≡ done_object (said_line said.now) first (length journal.now.entries) (entry_lent last.entry)) }
    ensures stands { IfOk result (λ o. IsOutlined draft.new o) }
    ensures heard { OnOk result (HasHeard index.new journal.now.entries) }
{
    let from = draft.len();
    draft.done(last)?;
    let to = draft.len();
    hear_all(index, journal, first)?;
    Outline::new(said, first, journal.len(), from, to, to)
}
