//! The rows of all events of a script.

ghost use Rattle.std.specs.Prelude.{◌≡◌, ◌≤◌, ◌++◌, [], None, true, false, IfOk, IfSome, Ok, OnOk, OnErr, length, take};
ghost use Rattle.std.specs.Io.KnownBytes.{Appends};
ghost use Rattle.gs_journal.specs.Last.{entry_lent};
ghost use Rattle.gs_reasons.specs.Kept.{HasHeard};
ghost use Rattle.gs_replies.specs.declared.reply.Reply.TheVariants as replies;
ghost use Rattle.gs_script.specs.Words.{is_text};
ghost use Rattle.gs_script.specs.Unread.{said_line};
ghost use Rattle.gs_sentences.specs.Refused.{refused_text};
ghost use Rattle.gs_explain.specs.Landings.{landed};
ghost use Rattle.gs_explain.specs.Marked.{IsMarked};
ghost use Rattle.gs_explain.specs.Moment.{moment_of};
ghost use Rattle.gs_explain.specs.Quiet.{quiet_row};
ghost use Rattle.gs_explain.specs.Refusals.{why_refused};
ghost use Rattle.gs_explain.specs.Retold.{IsBegun, retold};
ghost use Rattle.gs_explain.specs.Rows.{done_row, heading, row};
ghost use Rattle.gs_sentences.specs.Tails.{IsTail};
ghost use Rattle.gs_trace.specs.Came.{reply_in};
ghost use Rattle.gs_explain.specs.ToldAgain.{AreHeld, is_kept_out, late_told, told_text};

use crate::kept::{Kept, late_again, marked_late, tell_late};
use crate::landed::landed_late;
use crate::moment::Scene;
use crate::page::Page;
use crate::piece::{MOST_LINE_LEN, Piece};
use crate::pieces::write_retold;
use crate::pushing::push_in_place;
use crate::quiet::Quiet;
use crate::row::{write_done, write_quiet, write_row};
use crate::slots::Slot;
use crate::tail::tail_of;
use crate::teller::Teller;
use gs_core::Reply;
use gs_journal::{Journal, LastEntry};
use gs_kernel::Landing;
use gs_layout::Refusal;
use gs_reasons::Index;
use gs_script::SaidLine;
use gs_text::WriteFailed;
use gs_trace::Came;
use std::alloc::{AllocError, Global};
use std::io::Write;
use std::marker::Model;

/// The rows so far. Those of events that were refused are told at the end, by the numbers that they tell of. A late landing of which an earlier
/// row says the same may be kept as the place of that. Clauses see the bytes that are told. What adds a row fails only if out of memory.
#[derive(Drop)]
pub(crate) struct Rows<'a> {
    page: Page,
    pieces: Vec<Piece<'a>>,
    /// What was kept of late landings that may be told again.
    kepts: Vec<Kept>,
    /// The slots of lines: none, before the first late landing.
    slots: Vec<Slot>,
}

impl<'a> Model for Rows<'a> {
    ghost use Rattle.std.specs.Prelude.{List, ℕ};
    ghost use Rattle.gs_explain.specs.Retold.{retold};
    ghost use Rattle.gs_explain.specs.ToldAgain.{AreHeld};

    ghost Value = { List ℕ };

    ghost view = { λ r. retold 0 r.pieces.items r.page };

    ghost invariant = { λ r. AreHeld r.page r.pieces.items r.kepts.items };
}

/// Takes away what is told at the end, and what is kept: for when memory ran out, and what the text has is not known.
#[cold]
#[inline(never)]
fn forget(pieces: &mut Vec<Piece<'_>>, kepts: &mut Vec<Kept>)
    ensures pieces { pieces.new.items ≡ [] }
    ensures kepts { kepts.new.items ≡ [] }
{
    pieces.clear();
    kepts.clear();
}

/// Returns how an event that was refused is told at the end, behind this script's line and the first bytes of a text, so many. Returns
/// `None` if it does not fit. An index has heard all entries.
#[inline(always)]
fn piece_of<'a>(
    len: usize,
    said: &SaidLine<'a>,
    scene: &Scene<'_>,
    index: &Index,
    refusal: Refusal,
) -> Option<Piece<'a>>
    requires heard { HasHeard index.now scene.now.journal.now.entries }
    requires marked { IsMarked scene.now.last.now.places.items scene.now.transactions.now }
    ensures at { IfSome result (λ p. p.at ≡ len) }
    ensures said { IfSome result (λ p. (p.number, p.line.now) ≡ said_line said.now) }
    ensures tail { IfSome result (λ p. IsTail p.tail refusal (refused_text (why_refused (moment_of scene.now) refusal))) }
    ensures short { IfSome result (λ p. length p.line.now ≤ MOST_LINE_LEN) }
{
    let (tail, _) = tail_of(scene, index, refusal)?;
    Piece::new(len, said, tail)
}

impl<'a> Rows<'a> {
    /// Makes those of no event.
    pub(crate) fn new(alloc: Global) -> Rows<'a>
        ensures { result ≡ [] }
    {
        Rows {
            page: Page::new(alloc),
            pieces: Vec::new(alloc),
            kepts: Vec::new(alloc),
            slots: Vec::new(alloc),
        }
    }

    /// Adds a row as text. An index has heard the entries before the event, so many, and hears those of the event.
    #[inline(never)]
    #[tactic(auto, using(crate::proofs::Retelling::retold_more, crate::proofs::Keeping::held_more))]
    fn add_text(
        &mut self,
        said: &SaidLine<'_>,
        scene: &Scene<'_>,
        index: &mut Index,
        first: usize,
        came: Came<'_>,
    ) -> Result<(), AllocError>
        requires text { is_text said.now.bytes.now ≡ true }
        requires within { first ≤ length scene.now.journal.now.entries }
        requires heard { HasHeard index.old (take first scene.now.journal.now.entries) }
        requires marked { IsMarked scene.now.last.now.places.items scene.now.transactions.now }
        ensures shown { OnOk result (self.new ≡ self.old ++ row (said_line said.now) (moment_of scene.now) first (reply_in came.entry)) }
        ensures heard { OnOk result (HasHeard index.new scene.now.journal.now.entries) }
    {
        match write_row(&mut self.page, said, scene, index, first, came) {
            Ok(()) => Ok(()),
            Err(error) => {
                forget(&mut self.pieces, &mut self.kepts);
                Err(error)
            }
        }
    }

    /// Adds the row of a command that was done as text, by the kernel's journal and the last entry, as [`Rows::add_text`] does.
    #[inline(never)]
    #[tactic(auto, using(crate::proofs::Retelling::retold_more, crate::proofs::Keeping::held_more))]
    fn add_done(
        &mut self,
        said: &SaidLine<'_>,
        journal: &Journal,
        index: &mut Index,
        first: usize,
        last: LastEntry<'_>,
    ) -> Result<(), AllocError>
        requires text { is_text said.now.bytes.now ≡ true }
        requires within { first ≤ length journal.now.entries }
        requires heard { HasHeard index.old (take first journal.now.entries) }
        ensures shown { OnOk result (self.new ≡ self.old ++ done_row (said_line said.now) first (length journal.now.entries) (entry_lent last.entry)) }
        ensures heard { OnOk result (HasHeard index.new journal.now.entries) }
    {
        match write_done(&mut self.page, said, journal, index, first, last) {
            Ok(()) => Ok(()),
            Err(error) => {
                forget(&mut self.pieces, &mut self.kepts);
                Err(error)
            }
        }
    }

    /// Adds the row of a commit that stamped nothing, tore nothing down and added no entry.
    #[inline(always)]
    #[tactic(auto, using(crate::proofs::Retelling::retold_more, crate::proofs::Keeping::held_more))]
    fn add_nothing(&mut self, said: &SaidLine<'_>) -> Result<(), AllocError>
        requires { is_text said.now.bytes.now ≡ true }
        ensures { OnOk result (self.new ≡ self.old ++ quiet_row (said_line said.now) Quiet.Nothing) }
    {
        match self.page.nothing_row(said) {
            Ok(()) => Ok(()),
            Err(error) => {
                forget(&mut self.pieces, &mut self.kepts);
                Err(error)
            }
        }
    }

    /// Adds the row of any event that added no entry, with what came of it.
    #[inline(never)]
    #[tactic(auto, using(crate::proofs::Retelling::retold_more, crate::proofs::Keeping::held_more))]
    fn add_quiet(&mut self, said: &SaidLine<'_>, quiet: &Quiet) -> Result<(), AllocError>
        requires { is_text said.now.bytes.now ≡ true }
        ensures { OnOk result (self.new ≡ self.old ++ quiet_row (said_line said.now) quiet.now) }
    {
        match write_quiet(&mut self.page, said, quiet) {
            Ok(()) => Ok(()),
            Err(error) => {
                forget(&mut self.pieces, &mut self.kepts);
                Err(error)
            }
        }
    }

    /// Adds a late landing that was not placed and tore nothing down as text, and keeps it for the lines of its slot. The event added no entry,
    /// and an index has heard all.
    #[inline(never)]
    #[tactic(auto, using(crate::proofs::Keeping::none_overflowed))]
    fn add_anew(
        &mut self,
        said: &SaidLine<'_>,
        scene: &Scene<'_>,
        index: &Index,
        mark: u32,
        number: u32,
        landing: &Landing,
    ) -> Result<(), AllocError>
        requires text { is_text said.now.bytes.now ≡ true }
        requires kept { is_kept_out landing.now.outcome ≡ true }
        requires heard { HasHeard index.now scene.now.journal.now.entries }
        requires marked { IsMarked scene.now.last.now.places.items scene.now.transactions.now }
        ensures { OnOk result (self.new ≡ self.old ++ (heading (said_line said.now) ++ told_text (late_told number (landed (moment_of scene.now) None true (length scene.now.journal.now.entries) landing.now)))) }
    {
        let landed = landed_late(scene, index, landing);
        match tell_late(
            &mut self.page,
            &mut self.kepts,
            &mut self.slots,
            mark,
            said,
            number,
            &landed,
        ) {
            Ok(()) => Ok(()),
            Err(error) => {
                forget(&mut self.pieces, &mut self.kepts);
                Err(error)
            }
        }
    }

    /// Adds the row of a late landing that was not placed and tore nothing down, before which there were as many entries as
    /// behind it. An index has heard them.
    #[tactic(auto, using(crate::proofs::Keeping::late_row))]
    fn add_late_row(
        &mut self,
        said: &SaidLine<'a>,
        scene: &Scene<'_>,
        index: &Index,
        mark: u32,
        number: u32,
        landing: &Landing,
    ) -> Result<(), AllocError>
        requires text { is_text said.now.bytes.now ≡ true }
        requires kept { is_kept_out landing.now.outcome ≡ true }
        requires heard { HasHeard index.now scene.now.journal.now.entries }
        requires marked { IsMarked scene.now.last.now.places.items scene.now.transactions.now }
        ensures { OnOk result (self.new ≡ self.old ++ row (said_line said.now) (moment_of scene.now) (length scene.now.journal.now.entries) (replies.Late number landing.now false)) }
    {
        if late_again(
            &mut self.pieces,
            &self.page,
            &self.kepts,
            &self.slots,
            mark,
            said,
            scene,
            index,
            number,
            landing,
        )? {
            return Ok(());
        }
        self.add_anew(said, scene, index, mark, number, landing)
    }

    /// Adds the row of an event that was refused, to be told at the end, and returns whether that could be. An index has heard all entries, and
    /// the event added none.
    #[inline(always)]
    #[tactic(auto, using(crate::proofs::Retelling::retold_one, crate::proofs::Keeping::refused_row))]
    fn add_refused(
        &mut self,
        said: &SaidLine<'a>,
        scene: &Scene<'_>,
        index: &Index,
        refusal: Refusal,
    ) -> Result<bool, AllocError>
        requires text { is_text said.now.bytes.now ≡ true }
        requires heard { HasHeard index.now scene.now.journal.now.entries }
        requires marked { IsMarked scene.now.last.now.places.items scene.now.transactions.now }
        ensures told { IfOk result (λ b. b ≡ true → self.new ≡ self.old ++ row (said_line said.now) (moment_of scene.now) (length scene.now.journal.now.entries) (replies.Refused refusal)) }
        ensures same { IfOk result (λ b. b ≡ false → self.new ≡ self.old) }
    {
        match piece_of(self.page.as_bytes().len(), said, scene, index, refusal) {
            Some(piece) => {
                push_in_place(&mut self.pieces, piece)?;
                Ok(true)
            }
            None => Ok(false),
        }
    }

    /// Adds the row of a reply, if it may say what an earlier row says, and returns whether that is so. The event added no entry.
    /// An index has heard all.
    #[inline(never)]
    fn add_again(
        &mut self,
        said: &SaidLine<'a>,
        scene: &Scene<'_>,
        index: &Index,
        reply: &Reply,
    ) -> Result<bool, AllocError>
        requires text { is_text said.now.bytes.now ≡ true }
        requires heard { HasHeard index.now scene.now.journal.now.entries }
        requires marked { IsMarked scene.now.last.now.places.items scene.now.transactions.now }
        ensures told { IfOk result (λ b. b ≡ true → self.new ≡ self.old ++ row (said_line said.now) (moment_of scene.now) (length scene.now.journal.now.entries) reply.now) }
        ensures same { IfOk result (λ b. b ≡ false → self.new ≡ self.old) }
    {
        let Some(late) = marked_late(&mut self.slots, said, reply)? else {
            return Ok(false);
        };
        self.add_late_row(said, scene, index, late.mark, late.number, late.landing)?;
        Ok(true)
    }

    /// Writes all rows, in blocks, for which an empty one is given.
    ///
    /// # Errors
    ///
    /// `WriteFailed` if a write fails or takes no byte, or out of memory: a beginning was written, short of the whole.
    pub(crate) fn write<W: Write>(&self, block: Vec<u8>, writer: &mut W) -> Result<(), WriteFailed>
        requires { block.items ≡ [] }
        ensures sent { OnOk result (Appends (W.contents writer.old) (W.contents writer.new) self.now) }
        ensures begun { OnErr result (IsBegun (W.contents writer.old) (W.contents writer.new) self.now) }
    {
        write_retold(self.page.as_bytes(), self.pieces.as_slice(), block, writer)
    }
}

impl<'a> Teller<'a> for Rows<'a> {
    ghost bytes = { λ rows. rows };

    ghost show = { row };

    #[inline(always)]
    fn row(
        &mut self,
        said: &SaidLine<'a>,
        scene: &Scene<'_>,
        index: &mut Index,
        first: usize,
        came: Came<'_>,
    ) -> Result<(), AllocError> {
        if let Came::Replied(reply) = came {
            if scene.journal.len() == first && self.add_again(said, scene, index, reply)? {
                return Ok(());
            }
        }
        self.add_text(said, scene, index, first, came)
    }

    #[inline(always)]
    fn done_row(
        &mut self,
        said: &SaidLine<'a>,
        journal: &Journal,
        index: &mut Index,
        first: usize,
        last: LastEntry<'_>,
    ) -> Result<(), AllocError> {
        self.add_done(said, journal, index, first, last)
    }

    #[inline(always)]
    fn quiet_row(
        &mut self,
        said: &SaidLine<'a>,
        _first: usize,
        quiet: Quiet,
    ) -> Result<(), AllocError> {
        match &quiet {
            Quiet::Nothing => self.add_nothing(said),
            quiet => self.add_quiet(said, quiet),
        }
    }

    #[inline(always)]
    fn refused_row(
        &mut self,
        said: &SaidLine<'a>,
        scene: &Scene<'_>,
        index: &mut Index,
        first: usize,
        refusal: Refusal,
    ) -> Result<(), AllocError> {
        if scene.journal.len() == first && self.add_refused(said, scene, index, refusal)? {
            return Ok(());
        }
        let event = *scene.event;
        let scene = Scene {
            event: &event,
            ..*scene
        };
        self.add_text(said, &scene, index, first, Came::Refused(refusal))
    }
}
