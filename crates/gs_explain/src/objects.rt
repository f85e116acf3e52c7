//! What explains a script, as a JSON object for each event.

ghost use Rattle.std.specs.Prelude.{◌≡◌, ◌<◌, ◌≤◌, ◌++◌, ◌∷◌, [], ℕ, false, IfOk, IsOk, List, None, OnErr, OnOk, length, take, true};
ghost use Rattle.std.specs.Io.KnownBytes.{Appends};
ghost use Rattle.std.specs.List.{All};
ghost use Rattle.std.specs.Str.{IsUtf8};
ghost use Rattle.gs_journal.specs.Last.{entry_lent};
ghost use Rattle.gs_reasons.specs.Kept.{HasHeard};
ghost use Rattle.gs_replies.specs.declared.reply.Reply.TheVariants as replies;
ghost use Rattle.gs_script.specs.Unread.{said_line};
ghost use Rattle.gs_script.specs.Words.{is_text};
ghost use Rattle.gs_trace.specs.Came.{reply_in};
ghost use Rattle.gs_explain.specs.Marked.{IsMarked};
ghost use Rattle.gs_explain.specs.Moment.{moment_of};
ghost use Rattle.gs_explain.specs.Objects.{done_object, object_row};
ghost use Rattle.gs_explain.specs.Composed.{front_pieces};
ghost use Rattle.gs_explain.specs.Outlined.{AreOutlined, HasTold, IsKept, IsOutlined, again, all_events, events, nothing_object, outline_text, outlines_text, told_object, told_of, told_rest, widened};
ghost use Rattle.gs_explain.specs.Quiet.{quiet_object};
ghost use Rattle.gs_explain.specs.Retold.{IsBegun, Moves};
ghost use Rattle.gs_explain.specs.ToldAgain.{is_kept_out};

use crate::draft::Draft;
use crate::kept::{Kept, Late, marked_late};
use crate::moment::Scene;
use crate::object::{Pen, push_rest};
use crate::once::{forget, tell_again, tell_nothing, tell_quiet};
use crate::outline::{Outline, Told, outlined, outlined_done, parts_in};
use crate::outlines::{Outlines, Short};
use crate::quiet::Quiet;
use crate::refusal::{push_refused, push_refused_rest};
use crate::slots::Slot;
use crate::tail::tail_of;
use crate::teller::Teller;
use gs_core::Reply;
use gs_journal::{Journal, LastEntry};
use gs_layout::Refusal;
use gs_lines::Text;
use gs_reasons::Index;
use gs_script::SaidLine;
use gs_text::{WriteFailed, write_out};
use gs_trace::Came;
use std::alloc::{AllocError, Global};
use std::io::Write;
use std::marker::Model;

/// Objects that are put together are written whenever there are more bytes of them than so many.
const BLOCK_LEN: usize = 61_440;

/// Most objects have fewer bytes than so many.
const OBJECT_LEN: usize = 4_096;

/// Adds the object of an event that is told aside: of which a text has the lines of the reply and the reasons, or which was refused.
#[inline(always)]
#[tactic(auto, using(crate::proofs::Outlining::has_parts, crate::proofs::Outlining::is_refused))]
fn push_aside(
    alloc: Global,
    out: &mut Text,
    pen: &mut Pen,
    text: &[u8],
    told: &Told,
    short: &Short<'_>,
) -> Result<(), AllocError>
    requires line { is_text short.now.line.now ≡ true }
    requires told { IsKept text.now told.now }
    ensures { OnOk result (out.new ≡ out.old ++ told_object (short.now.number, short.now.line.now) short.now.first text.now told.now) }
{
    match *told {
        Told::Parts {
            count,
            from,
            lines,
            whys,
        } => {
            let (lines, whys) = parts_in(text, from, lines, whys);
            pen.push_seldom(
                alloc,
                out,
                short.number,
                short.line,
                short.first,
                count,
                lines,
                whys,
            )
        }
        Told::Refused { at, tail } => push_refused(alloc, out, pen, short, at, &tail),
    }
}

/// Adds the object of an event.
#[inline(always)]
#[tactic(auto, using(crate::proofs::Aside::parts_of, crate::proofs::Aside::kept_parts))]
fn push_object(
    alloc: Global,
    out: &mut Text,
    pen: &mut Pen,
    text: &[u8],
    asides: &[Told],
    short: &Short<'_>,
) -> Result<(), AllocError>
    requires aside { HasTold (length asides.now) short.now }
    requires outlined { IsOutlined text.now (widened asides.now short.now) }
    ensures { OnOk result (out.new ≡ out.old ++ outline_text text.now (widened asides.now short.now)) }
{
    if short.is_aside() {
        let told = short.told(asides);
        return push_aside(alloc, out, pen, text, told, short);
    }
    let (lines, whys) = short.told_in(text);
    let count = short.count as u32;
    pen.push(
        alloc,
        out,
        short.number,
        short.line,
        short.first,
        count,
        lines,
        whys,
    )
}

/// Makes an empty block, with room for all that it mostly has before it is written.
pub(crate) fn new_block(alloc: Global) -> Result<Text, AllocError>
    ensures { IfOk result (λ block. block ≡ []) }
{
    Text::with_room(alloc, BLOCK_LEN + OBJECT_LEN)
}

/// Writes a block, and takes its bytes away.
#[inline(never)]
fn send<W: Write>(block: &mut Text, writer: &mut W) -> Result<(), WriteFailed>
    ensures empty { OnOk result (block.new ≡ []) }
    ensures sent { OnOk result (Appends (W.contents writer.old) (W.contents writer.new) block.old) }
    ensures begun { OnErr result (IsBegun (W.contents writer.old) (W.contents writer.new) block.old) }
{
    write_out(writer, block.as_bytes())?;
    block.clear();
    Ok(())
}

/// Writes a block if it is full, and takes its bytes away then.
#[inline(always)]
fn send_full<W: Write>(block: &mut Text, writer: &mut W) -> Result<(), WriteFailed>
    ensures moved { OnOk result (Moves (W.contents writer.old) block.old [] (W.contents writer.new) block.new) }
    ensures begun { OnErr result (IsBegun (W.contents writer.old) (W.contents writer.new) block.old) }
{
    if BLOCK_LEN < block.len() {
        send(block, writer)?;
    }
    Ok(())
}

/// Adds the object of an event to a block, and writes that if it is full then. It is called at one place, where the compiler folds it.
#[tactic(auto, using(crate::proofs::Outlining::some_object, crate::proofs::Retelling::moved_then))]
fn add_object<W: Write>(
    alloc: Global,
    block: &mut Text,
    writer: &mut W,
    pen: &mut Pen,
    text: &[u8],
    asides: &[Told],
    short: &Short<'_>,
) -> Result<(), WriteFailed>
    requires aside { HasTold (length asides.now) short.now }
    requires outlined { IsOutlined text.now (widened asides.now short.now) }
    ensures moved { OnOk result (Moves (W.contents writer.old) block.old (outline_text text.now (widened asides.now short.now)) (W.contents writer.new) block.new) }
    ensures begun { OnErr result (IsBegun (W.contents writer.old) (W.contents writer.new) (block.old ++ outline_text text.now (widened asides.now short.now))) }
{
    push_object(alloc, block, pen, text, asides, short)?;
    send_full(block, writer)
}

/// Adds what the object of an event has behind its line's number.
#[inline(never)]
#[tactic(auto, using(crate::proofs::Outlining::has_parts, crate::proofs::Outlining::is_refused, crate::proofs::Aside::parts_of, crate::proofs::Aside::kept_parts))]
fn push_behind(
    alloc: Global,
    out: &mut Text,
    text: &[u8],
    asides: &[Told],
    short: &Short<'_>,
) -> Result<(), AllocError>
    requires aside { HasTold (length asides.now) short.now }
    requires outlined { IsOutlined text.now (widened asides.now short.now) }
    ensures { OnOk result (out.new ≡ out.old ++ told_rest short.now.line.now text.now (told_of asides.now short.now)) }
{
    if !short.is_aside() {
        let (lines, whys) = short.told_in(text);
        return push_rest(alloc, out, short.line, lines, whys);
    }
    match *short.told(asides) {
        Told::Parts {
            from,
            lines,
            whys,
            ..
        } => {
            let (lines, whys) = parts_in(text, from, lines, whys);
            push_rest(alloc, out, short.line, lines, whys)
        }
        Told::Refused { at, tail } => push_refused_rest(alloc, out, short.line, at, &tail),
    }
}

/// Adds the object of an event of a line, by what it has behind the number of the line, and writes the block if it is full then.
#[inline(always)]
fn add_next<W: Write>(
    block: &mut Text,
    writer: &mut W,
    pen: &mut Pen,
    number: u64,
    first: u32,
    count: u32,
    rest: &[u8],
) -> Result<(), WriteFailed>
    requires { IsUtf8 rest.now }
    ensures moved { OnOk result (Moves (W.contents writer.old) block.old (front_pieces number first count ++ rest.now) (W.contents writer.new) block.new) }
    ensures begun { OnErr result (IsBegun (W.contents writer.old) (W.contents writer.new) (block.old ++ (front_pieces number first count ++ rest.now))) }
{
    pen.set(first, number);
    pen.push_front(block, count)?;
    block.append(rest)?;
    send_full(block, writer)
}

/// Adds the objects of an event for the lines on which it comes again, and writes a block whenever it is full then. What they have in
/// common behind the number of the line is put together once.
#[inline(never)]
fn add_again<W: Write>(
    alloc: Global,
    block: &mut Text,
    writer: &mut W,
    pen: &mut Pen,
    rest: &mut Text,
    text: &[u8],
    asides: &[Told],
    short: &Short<'_>,
) -> Result<(), WriteFailed>
    requires aside { HasTold (length asides.now) short.now }
    requires outlined { IsOutlined text.now (widened asides.now short.now) }
    requires some { 0 < short.now.times }
    ensures moved { OnOk result (Moves (W.contents writer.old) block.old (outlines_text text.now (again (widened asides.now short.now) short.now.times)) (W.contents writer.new) block.new) }
    ensures begun { OnErr result (IsBegun (W.contents writer.old) (W.contents writer.new) (block.old ++ outlines_text text.now (again (widened asides.now short.now) short.now.times))) }
{
    rest.clear();
    push_behind(alloc, rest, text, asides, short)?;
    let count = short.added(asides);
    let mut n = 0;
    while n < short.times {
        n += 1;
        let number = short.number as u64 + n as u64;
        add_next(
            block,
            writer,
            pen,
            number,
            short.first,
            count,
            rest.utf8_bytes(),
        )?;
    }
    Ok(())
}

/// Adds the objects of an event, for its line and for those on which it comes again, and writes a block whenever it is full then.
#[inline(always)]
fn add_events<W: Write>(
    alloc: Global,
    block: &mut Text,
    writer: &mut W,
    pen: &mut Pen,
    rest: &mut Text,
    text: &[u8],
    asides: &[Told],
    short: &Short<'_>,
) -> Result<(), WriteFailed>
    requires aside { HasTold (length asides.now) short.now }
    requires outlined { IsOutlined text.now (widened asides.now short.now) }
    ensures moved { OnOk result (Moves (W.contents writer.old) block.old (outlines_text text.now (events asides.now short.now)) (W.contents writer.new) block.new) }
    ensures begun { OnErr result (IsBegun (W.contents writer.old) (W.contents writer.new) (block.old ++ outlines_text text.now (events asides.now short.now))) }
{
    add_object(alloc, block, writer, pen, text, asides, short)?;
    if short.times == 0 {
        return Ok(());
    }
    add_again(alloc, block, writer, pen, rest, text, asides, short)
}

/// Writes the objects of events, in blocks, for which an empty one is given.
fn write_objects<W: Write>(
    alloc: Global,
    text: &[u8],
    shorts: &[Short<'_>],
    asides: &[Told],
    block: Text,
    writer: &mut W,
) -> Result<(), WriteFailed>
    requires aside { All (HasTold (length asides.now)) shorts.now }
    requires outlined { All (IsOutlined text.now) (all_events asides.now shorts.now) }
    requires empty { block ≡ [] }
    ensures sent { OnOk result (Appends (W.contents writer.old) (W.contents writer.new) (outlines_text text.now (all_events asides.now shorts.now))) }
    ensures begun { OnErr result (IsBegun (W.contents writer.old) (W.contents writer.new) (outlines_text text.now (all_events asides.now shorts.now))) }
{
    let mut block = block;
    let mut pen = Pen::new();
    let mut rest = Text::new(alloc);
    for short in shorts {
        add_events(
            alloc, &mut block, writer, &mut pen, &mut rest, text, asides, short,
        )?;
    }
    send(&mut block, writer)
}

/// The events so far, of which the objects are put together at the end. Clauses see the bytes that are written.
#[derive(Drop)]
pub(crate) struct Objects<'a> {
    alloc: Global,
    draft: Draft,
    outlines: Outlines<'a>,
    /// What is told of a commit that stamped nothing, if there was one.
    nothing: Option<Told>,
    /// What was told of late landings that may be told again.
    kepts: Vec<Kept>,
    /// The slots of lines: none, before the first late landing.
    slots: Vec<Slot>,
}

impl<'a> Model for Objects<'a> {
    ghost use Rattle.std.specs.Prelude.{List, ℕ};
    ghost use Rattle.gs_explain.specs.Outlined.{AreOutlined, outlines_text};

    ghost Value = { List ℕ };

    ghost view = { λ o. outlines_text o.draft o.outlines };

    ghost invariant = { λ o. AreOutlined o.draft o.outlines o.nothing o.kepts.items };
}

/// Adds an event that was outlined. If that failed, what the text has is not known, and nothing is kept.
#[inline(always)]
fn keep<'a>(
    outlines: &mut Outlines<'a>,
    nothing: &mut Option<Told>,
    kepts: &mut Vec<Kept>,
    outlined: Result<Outline<'a>, AllocError>,
) -> Result<(), AllocError>
    ensures told { OnOk result (IsOk outlined.entry) }
    ensures added { OnOk result (IfOk outlined.entry (λ outline. outlines.new ≡ outlines.old ++ outline ∷ [])) }
    ensures same { OnOk result ((nothing.new ≡ nothing.old) × (kepts.new.items ≡ kepts.old.items)) }
    ensures none { OnErr result ((outlines.new ≡ []) × (nothing.new ≡ None) × (kepts.new.items ≡ [])) }
{
    let kept = match outlined {
        Ok(outline) => outlines.push(outline),
        Err(error) => Err(error),
    };
    if kept.is_err() {
        forget(outlines, nothing, kepts);
    }
    kept
}

impl<'a> Objects<'a> {
    /// Makes those of no event.
    pub(crate) fn new(alloc: Global) -> Objects<'a>
        ensures { result ≡ [] }
    {
        Objects {
            alloc,
            draft: Draft::new(alloc),
            outlines: Outlines::new(alloc),
            nothing: None,
            kepts: Vec::new(alloc),
            slots: Vec::new(alloc),
        }
    }

    /// Writes all objects, in blocks, for which an empty one is given.
    ///
    /// # Errors
    ///
    /// `WriteFailed` if a write fails or takes no byte, or out of memory: a beginning was written, short of the whole.
    pub(crate) fn write<W: Write>(&self, block: Text, writer: &mut W) -> Result<(), WriteFailed>
        requires { block ≡ [] }
        ensures sent { OnOk result (Appends (W.contents writer.old) (W.contents writer.new) self.now) }
        ensures begun { OnErr result (IsBegun (W.contents writer.old) (W.contents writer.new) self.now) }
    {
        let (shorts, asides) = self.outlines.as_slices();
        write_objects(
            self.alloc,
            self.draft.as_bytes(),
            shorts,
            asides,
            block,
            writer,
        )
    }
}

impl<'a> Objects<'a> {
    /// Adds an event. An index has heard the entries before the event, so many, and hears those of the event.
    #[inline(never)]
    fn add(
        &mut self,
        said: &SaidLine<'a>,
        scene: &Scene<'_>,
        index: &mut Index,
        first: usize,
        came: Came<'_>,
    ) -> Result<(), AllocError>
        requires text { is_text said.now.bytes.now ≡ true }
        requires within { first ≤ length scene.now.journal.now.entries }
        requires heard { HasHeard index.old (take first scene.now.journal.now.entries) }
        requires marked { IsMarked scene.now.last.now.places.items scene.now.transactions.now }
        ensures shown { OnOk result (self.new ≡ self.old ++ object_row (said_line said.now) (moment_of scene.now) first (reply_in came.entry)) }
        ensures heard { OnOk result (HasHeard index.new scene.now.journal.now.entries) }
    {
        let outlined = outlined(&mut self.draft, said, scene, index, first, came);
        keep(
            &mut self.outlines,
            &mut self.nothing,
            &mut self.kepts,
            outlined,
        )
    }

    /// Adds a command that was done, by the kernel's journal and the last entry, as [`Objects::add`] does.
    #[inline(never)]
    fn add_done(
        &mut self,
        said: &SaidLine<'a>,
        journal: &Journal,
        index: &mut Index,
        first: usize,
        last: LastEntry<'_>,
    ) -> Result<(), AllocError>
        requires text { is_text said.now.bytes.now ≡ true }
        requires within { first ≤ length journal.now.entries }
        requires heard { HasHeard index.old (take first journal.now.entries) }
        ensures shown { OnOk result (self.new ≡ self.old ++ done_object (said_line said.now) first (length journal.now.entries) (entry_lent last.entry)) }
        ensures heard { OnOk result (HasHeard index.new journal.now.entries) }
    {
        let outlined = outlined_done(&mut self.draft, said, journal, index, first, last);
        keep(
            &mut self.outlines,
            &mut self.nothing,
            &mut self.kepts,
            outlined,
        )
    }

    /// Adds a commit that stamped nothing and added no entry, and before which so many entries stand.
    #[inline(never)]
    fn add_nothing(&mut self, said: &SaidLine<'a>, first: usize) -> Result<(), AllocError>
        requires text { is_text said.now.bytes.now ≡ true }
        ensures { OnOk result (self.new ≡ self.old ++ nothing_object (said_line said.now) first) }
    {
        let told = tell_nothing(
            &mut self.draft,
            &mut self.outlines,
            &mut self.nothing,
            &mut self.kepts,
        )?;
        self.outlines.push_told(said, first, &told)?;
        Ok(())
    }

    /// Adds any event that added no entry, and before which so many stand, with what came of it.
    #[inline(never)]
    fn add_quiet(
        &mut self,
        said: &SaidLine<'a>,
        first: usize,
        quiet: &Quiet,
    ) -> Result<(), AllocError>
        requires text { is_text said.now.bytes.now ≡ true }
        ensures { OnOk result (self.new ≡ self.old ++ quiet_object quiet.now (said_line said.now) first) }
    {
        let told = tell_quiet(
            &mut self.draft,
            &mut self.outlines,
            &mut self.nothing,
            &mut self.kepts,
            quiet,
        )?;
        self.outlines.push_told(said, first, &told)?;
        Ok(())
    }

    /// Adds a late landing that was not placed and tore nothing down, of a line that has a mark, before which there were as many entries
    /// as behind it. An index has heard them.
    fn add_late(
        &mut self,
        said: &SaidLine<'a>,
        scene: &Scene<'_>,
        index: &Index,
        late: &Late<'_>,
    ) -> Result<(), AllocError>
        requires text { is_text said.now.bytes.now ≡ true }
        requires kept { is_kept_out late.now.landing.now.outcome ≡ true }
        requires heard { HasHeard index.now scene.now.journal.now.entries }
        requires marked { IsMarked scene.now.last.now.places.items scene.now.transactions.now }
        ensures { OnOk result (self.new ≡ self.old ++ object_row (said_line said.now) (moment_of scene.now) (length scene.now.journal.now.entries) (replies.Late late.now.number late.now.landing.now false)) }
    {
        let told = tell_again(
            &mut self.draft,
            &mut self.outlines,
            &mut self.nothing,
            &mut self.kepts,
            &mut self.slots,
            scene,
            index,
            late,
        )?;
        self.outlines.push_told(said, scene.journal.len(), &told)?;
        Ok(())
    }

    /// Adds the event of a reply, if it may tell what an earlier one tells, and returns whether that is so. The event added no entry. An
    /// index has heard all.
    #[inline(never)]
    fn add_again(
        &mut self,
        said: &SaidLine<'a>,
        scene: &Scene<'_>,
        index: &Index,
        reply: &Reply,
    ) -> Result<bool, AllocError>
        requires text { is_text said.now.bytes.now ≡ true }
        requires heard { HasHeard index.now scene.now.journal.now.entries }
        requires marked { IsMarked scene.now.last.now.places.items scene.now.transactions.now }
        ensures told { IfOk result (λ b. b ≡ true → self.new ≡ self.old ++ object_row (said_line said.now) (moment_of scene.now) (length scene.now.journal.now.entries) reply.now) }
        ensures same { IfOk result (λ b. b ≡ false → self.new ≡ self.old) }
    {
        let Some(late) = marked_late(&mut self.slots, said, reply)? else {
            return Ok(false);
        };
        self.add_late(said, scene, index, &late)?;
        Ok(true)
    }

    /// Adds an event that was refused, to be told at the end by numbers, and returns whether that could be. An index has heard all
    /// entries, and the event added none.
    #[inline(always)]
    fn add_refused(
        &mut self,
        said: &SaidLine<'a>,
        scene: &Scene<'_>,
        index: &Index,
        refusal: Refusal,
    ) -> Result<bool, AllocError>
        requires text { is_text said.now.bytes.now ≡ true }
        requires heard { HasHeard index.now scene.now.journal.now.entries }
        requires marked { IsMarked scene.now.last.now.places.items scene.now.transactions.now }
        ensures told { IfOk result (λ b. b ≡ true → self.new ≡ self.old ++ object_row (said_line said.now) (moment_of scene.now) (length scene.now.journal.now.entries) (replies.Refused refusal)) }
        ensures same { IfOk result (λ b. b ≡ false → self.new ≡ self.old) }
    {
        match tail_of(scene, index, refusal) {
            Some((tail, at)) => {
                self.outlines
                    .push_refused(said, scene.journal.len(), at, &tail)?;
                Ok(true)
            }
            None => Ok(false),
        }
    }
}

impl<'a> Teller<'a> for Objects<'a> {
    ghost bytes = { λ objects. objects };

    ghost show = { object_row };

    #[inline(always)]
    fn row(
        &mut self,
        said: &SaidLine<'a>,
        scene: &Scene<'_>,
        index: &mut Index,
        first: usize,
        came: Came<'_>,
    ) -> Result<(), AllocError> {
        if let Came::Replied(reply) = came {
            if scene.journal.len() == first && self.add_again(said, scene, index, reply)? {
                return Ok(());
            }
        }
        self.add(said, scene, index, first, came)
    }

    #[inline(always)]
    fn done_row(
        &mut self,
        said: &SaidLine<'a>,
        journal: &Journal,
        index: &mut Index,
        first: usize,
        last: LastEntry<'_>,
    ) -> Result<(), AllocError> {
        self.add_done(said, journal, index, first, last)
    }

    #[inline(always)]
    fn quiet_row(
        &mut self,
        said: &SaidLine<'a>,
        first: usize,
        quiet: Quiet,
    ) -> Result<(), AllocError> {
        match &quiet {
            Quiet::Nothing => self.add_nothing(said, first),
            quiet => self.add_quiet(said, first, quiet),
        }
    }

    #[inline(always)]
    fn refused_row(
        &mut self,
        said: &SaidLine<'a>,
        scene: &Scene<'_>,
        index: &mut Index,
        first: usize,
        refusal: Refusal,
    ) -> Result<(), AllocError> {
        if scene.journal.len() == first && self.add_refused(said, scene, index, refusal)? {
            return Ok(());
        }
        let event = *scene.event;
        let scene = Scene {
            event: &event,
            ..*scene
        };
        self.add(said, &scene, index, first, Came::Refused(refusal))
    }
}
