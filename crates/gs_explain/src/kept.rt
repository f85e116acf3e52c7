//! What was told of late landings, and where.

ghost use Rattle.std.specs.Prelude.{◌≡◌, ◌<◌, ◌≤◌, ◌++◌, true, false, Contains, None, IfOk, IfSome, OnOk, length};
ghost use Rattle.std.specs.List.{All};
ghost use Rattle.gs_reasons.specs.Kept.{HasHeard};
ghost use Rattle.gs_replies.specs.declared.reply.Reply.TheVariants as replies;
ghost use Rattle.gs_script.specs.Unread.{said_line};
ghost use Rattle.gs_script.specs.Words.{is_text};
ghost use Rattle.gs_sentences.specs.Given.{landed_given};
ghost use Rattle.gs_explain.specs.Landings.{landed};
ghost use Rattle.gs_explain.specs.Marked.{IsMarked};
ghost use Rattle.gs_explain.specs.Moment.{moment_of};
ghost use Rattle.gs_explain.specs.Retold.{IsWithin, retold};
ghost use Rattle.gs_explain.specs.Rows.{heading};
ghost use Rattle.gs_explain.specs.ToldAgain.{AreHeld, IsKept, is_kept_out, kept_put, late_told, told_text};

use crate::content::{Told, late_told};
use crate::landed::landed_late;
use crate::moment::Scene;
use crate::page::Page;
use crate::piece::{MOST_LINE_LEN, Piece};
use crate::slots::{Slot, make_slots, mark_of, note_mark, place_of, set_place};
use gs_core::Reply;
use gs_kernel::Landing;
use gs_layout::Outcome;
use gs_reasons::Index;
use gs_script::SaidLine;
use gs_sentences::{Landed, Tail};
use std::alloc::AllocError;
use std::slice;

/// So many are kept at most: they take 90 KiB, which a processor has near at hand.
const MOST_KEPT: usize = 512;

/// What was told of a late landing, and where a text has it.
#[derive(Clone, Copy)]
pub(crate) struct Kept {
    pub(crate) told: Told,
    /// Where its reply begins, behind the script's line.
    pub(crate) from: usize,
    /// Where its reason begins.
    pub(crate) mid: usize,
    /// Where that ends.
    pub(crate) to: usize,
}

/// A late landing that was not placed and tore nothing down, with the mark of its line.
#[derive(Clone, Copy)]
pub(crate) struct Late<'a> {
    pub(crate) mark: u32,
    pub(crate) number: u32,
    pub(crate) landing: &'a Landing,
}

/// Returns what landed late, and under which number, if that was not placed and tore nothing down.
#[inline(always)]
fn late_of(reply: &Reply) -> Option<(u32, &Landing)>
    ensures reply { IfSome result (λ p. reply.now ≡ replies.Late p.0 p.1.now false) }
    ensures kept { IfSome result (λ p. is_kept_out p.1.now.outcome ≡ true) }
{
    match reply {
        Reply::Late {
            number,
            landing,
            torn: false,
        } if is_kept_out(landing.outcome) => Some((*number, landing)),
        _ => None,
    }
}

/// Returns whether a late landing that came out so was not placed, and tore nothing down.
#[inline(always)]
fn is_kept_out(outcome: Outcome) -> bool
    ensures { result ≡ is_kept_out outcome }
{
    !matches!(outcome, Outcome::Placed | Outcome::Gone)
}

/// Returns a late landing that was not placed and tore nothing down, if its line came before with no other of its slot between. The line is
/// noted. It fails only if out of memory.
#[inline(always)]
pub(crate) fn marked_late<'a>(
    slots: &mut Vec<Slot>,
    said: &SaidLine<'_>,
    reply: &'a Reply,
) -> Result<Option<Late<'a>>, AllocError>
    ensures reply { IfOk result (λ found. IfSome found (λ late. reply.now ≡ replies.Late late.number late.landing.now false)) }
    ensures kept { IfOk result (λ found. IfSome found (λ late. is_kept_out late.landing.now.outcome ≡ true)) }
{
    let Some((number, landing)) = late_of(reply) else {
        return Ok(None);
    };
    make_slots(slots)?;
    let mark = mark_of(said.bytes);
    if !note_mark(slots, mark) {
        return Ok(None);
    }
    Ok(Some(Late {
        mark,
        number,
        landing,
    }))
}

/// Keeps what was told now, for the lines that have a mark, and takes away what was kept before if that was much. It fails only if
/// out of memory.
#[inline(never)]
pub(crate) fn settle(
    kepts: &mut Vec<Kept>,
    slots: &mut [Slot],
    mark: u32,
    kept: &Kept,
) -> Result<(), AllocError>
    ensures { OnOk result (kepts.new.items ≡ kept_put kept.now kepts.old.items) }
{
    if MOST_KEPT <= kepts.len() {
        kepts.clear();
    }
    kepts.extend_from_slice(slice::from_ref(kept))?;
    set_place(slots, mark, kepts.len());
    Ok(())
}

/// Returns what is kept for the lines that have a mark, if it was told of such a late landing. An index has heard all entries.
#[inline(always)]
pub(crate) fn kept_for<'a>(
    kepts: &'a [Kept],
    slots: &[Slot],
    mark: u32,
    scene: &Scene<'_>,
    index: &Index,
    number: u32,
    landing: &Landing,
) -> Option<&'a Kept>
    requires heard { HasHeard index.now scene.now.journal.now.entries }
    requires marked { IsMarked scene.now.last.now.places.items scene.now.transactions.now }
    ensures same { IfSome result (λ kept. kept.now.told ≡ late_told number (landed (moment_of scene.now) None true (length scene.now.journal.now.entries) landing.now)) }
    ensures among { IfSome result (λ kept. Contains kepts.now kept.now) }
{
    let place = place_of(slots, mark);
    if place == 0 || kepts.len() < place {
        return None;
    }
    let kept = &kepts[place - 1];
    let landed = landed_late(scene, index, landing);
    if !kept.told.is_late(number, &landed) {
        return None;
    }
    Some(kept)
}

impl Kept {
    /// Returns what tells it again, if the numbers are small.
    #[inline(always)]
    fn tail(&self) -> Option<Tail>
        ensures { IfSome result (λ t. t ≡ Tail.Part self.now.from self.now.to) }
    {
        Some(Tail::Part {
            from: u32::try_from(self.from).ok()?,
            to: u32::try_from(self.to).ok()?,
        })
    }

    /// Returns how a text that ends here tells it again behind a script's line, or `None` if a number is too large.
    #[inline(always)]
    fn again<'a>(&self, len: usize, said: &SaidLine<'a>) -> Option<Piece<'a>>
        ensures at { IfSome result (λ p. p.at ≡ len) }
        ensures said { IfSome result (λ p. (p.number, p.line.now) ≡ said_line said.now) }
        ensures tail { IfSome result (λ p. p.tail ≡ Tail.Part self.now.from self.now.to) }
        ensures short { IfSome result (λ p. length p.line.now ≤ MOST_LINE_LEN) }
    {
        Piece::new(len, said, self.tail()?)
    }
}

/// Adds to what is told at the end what was kept, behind a script's line, and returns whether that could be. It fails only if out of
/// memory.
#[inline(always)]
#[tactic(auto, using(crate::proofs::Retelling::retold_one, crate::proofs::RowsAgain::within_one))]
pub(crate) fn push_part<'a>(
    pieces: &mut Vec<Piece<'a>>,
    page: &Page,
    kept: &Kept,
    said: &SaidLine<'a>,
) -> Result<bool, AllocError>
    requires text { is_text said.now.bytes.now ≡ true }
    requires kept { IsKept page.now kept.now }
    requires within { All (IsWithin (length page.now)) pieces.old.items }
    ensures told { IfOk result (λ b. b ≡ true → retold 0 pieces.new.items page.now ≡ retold 0 pieces.old.items page.now ++ (heading (said_line said.now) ++ told_text kept.now.told)) }
    ensures same { IfOk result (λ b. b ≡ false → pieces.new.items ≡ pieces.old.items) }
    ensures within { All (IsWithin (length page.now)) pieces.new.items }
{
    match kept.again(page.as_bytes().len(), said) {
        Some(piece) => {
            pieces.push(piece)?;
            Ok(true)
        }
        None => Ok(false),
    }
}

/// Tells a late landing again, if the same is kept, and returns whether that is so. An index has heard all entries. It fails only if out of
/// memory.
#[inline(always)]
pub(crate) fn late_again<'a>(
    pieces: &mut Vec<Piece<'a>>,
    page: &Page,
    kepts: &[Kept],
    slots: &[Slot],
    mark: u32,
    said: &SaidLine<'a>,
    scene: &Scene<'_>,
    index: &Index,
    number: u32,
    landing: &Landing,
) -> Result<bool, AllocError>
    requires text { is_text said.now.bytes.now ≡ true }
    requires held { AreHeld page.now pieces.old.items kepts.now }
    requires heard { HasHeard index.now scene.now.journal.now.entries }
    requires marked { IsMarked scene.now.last.now.places.items scene.now.transactions.now }
    ensures told { IfOk result (λ b. b ≡ true → retold 0 pieces.new.items page.now ≡ retold 0 pieces.old.items page.now ++ (heading (said_line said.now) ++ told_text (late_told number (landed (moment_of scene.now) None true (length scene.now.journal.now.entries) landing.now)))) }
    ensures same { IfOk result (λ b. b ≡ false → pieces.new.items ≡ pieces.old.items) }
    ensures held { AreHeld page.now pieces.new.items kepts.now }
{
    match kept_for(kepts, slots, mark, scene, index, number, landing) {
        Some(kept) => push_part(pieces, page, kept, said),
        None => Ok(false),
    }
}

/// Tells of a late landing as text, and keeps it for the lines that have a mark. It fails only if out of memory.
#[tactic(auto, using(crate::proofs::Keeping::late_told_text))]
pub(crate) fn tell_late(
    page: &mut Page,
    kepts: &mut Vec<Kept>,
    slots: &mut [Slot],
    mark: u32,
    said: &SaidLine<'_>,
    number: u32,
    landed: &Landed<'_>,
) -> Result<(), AllocError>
    requires text { is_text said.now.bytes.now ≡ true }
    requires alone { (landed.now.overflow ≡ None) × (landed.now.fault.now ≡ None) }
    requires kept { All (IsKept page.old) kepts.old.items }
    ensures shown { OnOk result (page.new ≡ page.old ++ (heading (said_line said.now) ++ told_text (late_told number (landed_given landed.now)))) }
    ensures kept { OnOk result (All (IsKept page.new) kepts.new.items) }
{
    page.heading(said)?;
    let from = page.as_bytes().len();
    page.late(number, landed.landing)?;
    let mid = page.as_bytes().len();
    page.landed(landed)?;
    let kept = Kept {
        told: late_told(number, landed),
        from,
        mid,
        to: page.as_bytes().len(),
    };
    settle(kepts, slots, mark, &kept)
}
