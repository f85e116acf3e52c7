ghost use Rattle.std.specs.Prelude.{◌≡◌, ◌<◌, ◌++◌, [], List, ℕ, Some, IfOk, OnErr, OnOk, flat_map, length, map, slice_get};
ghost use Rattle.std.specs.Io.KnownBytes.{Appends};
ghost use Rattle.std.specs.Option.{option_map};
ghost use Rattle.gs_timeline.specs.Bars.{bars, pieces_of, scale};
ghost use Rattle.gs_timeline.specs.Counts.{decisions, told_by};
ghost use Rattle.gs_timeline.specs.Lanes.{LaneOf};
ghost use Rattle.gs_timeline.specs.Lives.{born, class_among};
ghost use Rattle.gs_timeline.specs.Pieces.{Adds, HasEach};
ghost use Rattle.gs_timeline.specs.Places.{scale_of};
ghost use Rattle.gs_timeline.specs.Sent.{Grows, Sends};
ghost use Rattle.gs_timeline.specs.Stays.{all_stays, stays};

use crate::agents::{write_pages, write_reigns, write_steps};
use crate::bars::{BarDigits, write_stay};
use crate::blur::Blur;
use crate::counts::{Counts, write_counted, write_sums};
use crate::decided::write_decided;
use crate::endings::Endings;
use crate::foot::{end_of_foot, write_foot};
use crate::gathered::{Drawn, Gathered};
use crate::groups::write_groups;
use crate::layout::{BAR, TOP, row_of};
use crate::legend::{write_legend, write_style};
use crate::lives::{Life, life_of};
use crate::marks::{write_axis, write_hold, write_marks};
use crate::notes::{Listed, Notes};
use crate::part::{EDGE, LEFT, Part};
use crate::phrases::begin_text;
use crate::rect::{Rect, write_entry};
use crate::ring::write_ring;
use crate::slots::write_stamped;
use crate::spans::{HeldTimes, Hold};
use crate::stay::Stay;
use crate::text::Text;
use gs_journal::{Entry, Journal};
use gs_text::WriteFailed;
use std::alloc::{AllocError, Global};
use std::io::Write;
use std::marker::Model;

/// How far from one another a wide picture repeats the names of its rows.
const AGAIN: u64 = 1_000;

/// The least width of a picture: that of the line that says what the marks mean.
const LEAST_WIDTH: u64 = 910;

/// Adds the background of a row whose bars begin at `y`.
fn write_back(out: &mut Text, part: &Part<'_>, y: u64) -> Result<(), AllocError>
    ensures { out.new.settled ≡ out.old.settled }
{
    let row = Rect {
        x: LEFT,
        y,
        width: part.width(part.first(), part.behind()),
        height: BAR,
    };
    row.write(out)?;
    out.push_str("\" class=\"row\"/>\n")
}

/// Adds the row of a CPU: its name, and its background.
fn write_row(out: &mut Text, part: &Part<'_>, cpu: u16) -> Result<(), AllocError>
    ensures { out.new.settled ≡ out.old.settled }
{
    let y = row_of(cpu);
    begin_text(out, 10, y.saturating_add(17), "label")?;
    out.push_number("CPU ", u64::from(cpu))?;
    out.push_str("</text>\n")?;
    write_back(out, part, y)
}

/// Adds when the other class held a CPU, and writes what is long enough.
fn write_holds<W: Write>(
    out: &mut Text,
    writer: &mut W,
    part: &Part<'_>,
    holds: &[Hold],
) -> Result<(), WriteFailed>
    ensures sent { OnOk result (Sends [] (W.contents writer.old) (W.contents writer.new) out.old.settled out.new.settled) }
    ensures stuck { OnErr result (Grows (W.contents writer.old) (W.contents writer.new)) }
{
    for hold in holds {
        write_hold(out, part, hold)?;
        out.spill(writer)?;
    }
    Ok(())
}

/// Adds the name of a CPU's row again, at `x`.
fn write_name(out: &mut Text, x: u64, y: u64, cpu: u16) -> Result<(), AllocError>
    ensures { out.new.settled ≡ out.old.settled }
{
    begin_text(out, x, y, "again")?;
    out.push_number("CPU ", u64::from(cpu))?;
    out.push_str("</text>\n")
}

/// Adds the name of a CPU's row again, where a wide picture repeats it, and writes what is long enough.
fn write_again<W: Write>(
    out: &mut Text,
    writer: &mut W,
    part: &Part<'_>,
    cpu: u16,
) -> Result<(), WriteFailed>
    ensures sent { OnOk result (Sends [] (W.contents writer.old) (W.contents writer.new) out.old.settled out.new.settled) }
    ensures stuck { OnErr result (Grows (W.contents writer.old) (W.contents writer.new)) }
{
    let y = row_of(cpu).saturating_add(BAR + 10);
    let places = part.width(part.first(), part.behind()) / AGAIN;
    for place in 1..places {
        let x = LEFT.saturating_add(place.saturating_mul(AGAIN));
        write_name(out, x, y, cpu)?;
        out.spill(writer)?;
    }
    Ok(())
}

/// Adds the bar of a stay that is at least a pixel wide. One that is narrower, and shown, is drawn with others that touch it.
#[inline(always)]
fn write_next(
    out: &mut Text,
    kept: &mut BarDigits,
    blur: &mut Blur,
    part: &Part<'_>,
    endings: &Endings<'_>,
    lives: &[Life],
    stay: &Stay,
) -> Result<(), AllocError>
    ensures { OnOk result (Adds (pieces_of (scale part.now) (class_among (map born lives.now)) endings.now stay.now) out.old.settled out.new.settled) }
{
    if part.width(stay.from, stay.to) > 0 {
        blur.write(out, part)?;
        let life = life_of(lives, stay.tid);
        let ending = endings.at(stay.to);
        return write_stay(out, kept, part, stay, life, ending);
    }
    if part.shown(stay.from, stay.to) > 0 {
        return blur.add(out, part, stay);
    }
    Ok(())
}

/// Adds the bars of the threads on a CPU, and writes what is long enough.
fn write_stays<W: Write>(
    out: &mut Text,
    writer: &mut W,
    kept: &mut BarDigits,
    drawn: &Drawn<'_>,
    cpu: u16,
    stays: &[Stay],
) -> Result<(), WriteFailed>
    ensures sent { OnOk result (Sends (flat_map (pieces_of (scale drawn.now.part.now) (class_among (map born drawn.now.all.now.lives.items)) drawn.now.all.now.endings) stays.now) (W.contents writer.old) (W.contents writer.new) out.old.settled out.new.settled) }
    ensures stuck { OnErr result (Grows (W.contents writer.old) (W.contents writer.new)) }
{
    let part = drawn.part;
    let endings = &drawn.all.endings;
    let lives = drawn.all.lives.as_slice();
    let mut blur = Blur::new(cpu);
    for stay in stays {
        write_next(out, kept, &mut blur, part, endings, lives, stay)?;
        out.spill(writer)?;
    }
    blur.write(out, part)?;
    Ok(())
}

/// Lends the times that the other class held a CPU.
fn holds_of(held: &[HeldTimes], cpu: u16) -> &[Hold] {
    match held.get(cpu as usize) {
        Some(held) => held.ended(),
        None => &[],
    }
}

/// Adds the rows of the CPUs, with who was on each, and writes what is long enough.
fn write_rows<W: Write>(
    out: &mut Text,
    writer: &mut W,
    drawn: &Drawn<'_>,
) -> Result<(), WriteFailed>
    requires count { length drawn.now.all.now.lanes.items ≡ drawn.now.cpus }
    requires stays { (c : ℕ) → c < drawn.now.cpus → option_map (λ (lane : LaneOf). lane.ended) (slice_get drawn.now.all.now.lanes.items c) ≡ Some (stays drawn.now.all.now.endings c) }
    ensures sent { OnOk result (Sends (flat_map (pieces_of (scale drawn.now.part.now) (class_among (map born drawn.now.all.now.lives.items)) drawn.now.all.now.endings) (all_stays drawn.now.all.now.endings drawn.now.cpus)) (W.contents writer.old) (W.contents writer.new) out.old.settled out.new.settled) }
    ensures stuck { OnErr result (Grows (W.contents writer.old) (W.contents writer.new)) }
{
    let part = drawn.part;
    let mut kept = BarDigits::new();
    for cpu in 0..drawn.cpus {
        write_row(out, part, cpu)?;
        write_holds(out, writer, part, holds_of(&drawn.all.holds, cpu))?;
        let stays = drawn.all.lanes[cpu as usize].stays();
        write_stays(out, writer, &mut kept, drawn, cpu, stays)?;
        write_again(out, writer, part, cpu)?;
        out.spill(writer)?;
    }
    Ok(())
}

/// Adds what was decided of the CPUs, above the bars of each, and writes what is long enough.
fn write_decisions<W: Write>(
    out: &mut Text,
    writer: &mut W,
    drawn: &Drawn<'_>,
) -> Result<(), WriteFailed>
    ensures sent { OnOk result (Sends [] (W.contents writer.old) (W.contents writer.new) out.old.settled out.new.settled) }
    ensures stuck { OnErr result (Grows (W.contents writer.old) (W.contents writer.new)) }
{
    let all = drawn.all;
    for cpu in 0..drawn.cpus {
        write_stamped(out, writer, drawn, cpu)?;
        write_decided(
            out,
            writer,
            drawn.part,
            &all.lives,
            cpu,
            all.decided.of(cpu),
        )?;
        out.spill(writer)?;
    }
    let marks = drawn.notes.marks;
    write_groups(out, writer, drawn.part, &all.lives, marks, &all.groups)
}

/// Adds the row of the agents, and where each was active, and writes what is long enough.
fn write_agents<W: Write>(
    out: &mut Text,
    writer: &mut W,
    drawn: &Drawn<'_>,
) -> Result<(), WriteFailed>
    ensures sent { OnOk result (Sends [] (W.contents writer.old) (W.contents writer.new) out.old.settled out.new.settled) }
    ensures stuck { OnErr result (Grows (W.contents writer.old) (W.contents writer.new)) }
{
    write_reigns(out, writer, drawn.part, drawn.cpus, &drawn.all.reigns)?;
    write_steps(out, writer, drawn.part, &drawn.all.steps)?;
    write_pages(out, writer, drawn.part, drawn.notes.agents)
}

/// Adds a width and a height.
fn write_size(out: &mut Text, width: u64, height: u64) -> Result<(), AllocError> {
    out.push_number(" width=\"", width)?;
    out.push_number("\" height=\"", height)?;
    out.push_str("\"")
}

/// Adds the heading: which entries are shown, of how many, and whether the last of all is a tear-down.
fn write_heading(out: &mut Text, part: &Part<'_>, journal: &Journal) -> Result<(), AllocError> {
    out.push_str("<text x=\"10\" y=\"22\" font-size=\"14\" font-weight=\"bold\">Who ran where: ")?;
    out.push_decimal(part.count() as u64)?;
    out.push_number(" of ", journal.len() as u64)?;
    out.push_number(" entries, from entry ", part.first() as u64)?;
    if part.sharing() > 1 {
        out.push_number(", entries a pixel: ", part.sharing() as u64)?;
        out.push_str("; grey: several stays")?;
    }
    let last = journal.len().saturating_sub(1);
    if matches!(journal.get(last), Some(Entry::Torn)) {
        write_entry(out, part, "; torn down at entry ", last)?;
        out.push_str(": a message did not fit into the ring")?;
    }
    out.push_str("</text>\n")
}

/// Adds what a picture is, in words, for whoever does not see it.
fn write_description(
    out: &mut Text,
    cpus: u16,
    threads: usize,
    journal: &Journal,
    counts: &Counts,
) -> Result<(), AllocError> {
    out.push_str("<title id=\"title\">Who ran where</title>\n<desc id=\"desc\">")?;
    out.push_number("CPUs: ", u64::from(cpus))?;
    out.push_number(", threads: ", threads as u64)?;
    out.push_number(", entries of the journal: ", journal.len() as u64)?;
    out.push_str(". ")?;
    write_sums(out, counts)?;
    out.push_str(
        ". A row for each CPU shows which thread was on it from which entry to which, and above that what was decided of it. The agents and the ring have a row each, and threads have a line below the rows.</desc>\n",
    )
}

/// Adds the beginning of the picture, whose height is `end`: its size, what it is, how its parts look, its heading and what
/// its marks mean.
fn write_head(out: &mut Text, drawn: &Drawn<'_>, end: u64) -> Result<(), AllocError>
    ensures { OnOk result ((start : List ℕ) × Adds (told_by drawn.now.all.now.counts) start out.new.settled) }
{
    let Drawn {
        cpus,
        part,
        all,
        ..
    } = *drawn;
    let journal = all.endings.journal();
    let width = part.x(part.behind()).saturating_add(EDGE).max(LEAST_WIDTH);
    out.push_str("<svg xmlns=\"http://www.w3.org/2000/svg\"")?;
    write_size(out, width, end)?;
    out.push_number(" viewBox=\"0 0 ", width)?;
    out.push_number(" ", end)?;
    out.push_str(
        "\" font-family=\"sans-serif\" font-size=\"12\" role=\"img\" aria-labelledby=\"title desc\">\n",
    )?;
    write_description(out, cpus, all.lives.len(), journal, &all.counts)?;
    write_style(out)?;
    out.push_str("<rect")?;
    write_size(out, width, end)?;
    out.push_str(" class=\"page-back\"/>\n")?;
    write_heading(out, part, journal)?;
    write_legend(out)?;
    write_counted(out, &all.counts)
}

/// Adds what the row of the agents is called, and its background.
fn write_agent_row(out: &mut Text, part: &Part<'_>) -> Result<(), AllocError>
    ensures { out.new.settled ≡ out.old.settled }
{
    begin_text(out, 10, TOP + 17, "label")?;
    out.push_str("agent</text>\n")?;
    write_back(out, part, TOP)
}

/// Adds what stands above the rows: the axis, which goes down to `end`, the row of the agents, and that of the ring. It
/// writes what is long enough.
fn write_above<W: Write>(
    out: &mut Text,
    writer: &mut W,
    drawn: &Drawn<'_>,
    end: u64,
) -> Result<(), WriteFailed>
    ensures sent { OnOk result (Sends [] (W.contents writer.old) (W.contents writer.new) out.old.settled out.new.settled) }
    ensures stuck { OnErr result (Grows (W.contents writer.old) (W.contents writer.new)) }
{
    let part = drawn.part;
    write_axis(out, writer, part, drawn.cpus, end)?;
    write_agent_row(out, part)?;
    write_ring(out, writer, part, drawn.notes.fills, drawn.notes.ring)
}

/// Adds what is drawn over the rows, and the foot below them. It writes what is long enough.
fn write_below<W: Write>(
    out: &mut Text,
    writer: &mut W,
    drawn: &Drawn<'_>,
) -> Result<(), WriteFailed>
    ensures sent { OnOk result (Sends [] (W.contents writer.old) (W.contents writer.new) out.old.settled out.new.settled) }
    ensures stuck { OnErr result (Grows (W.contents writer.old) (W.contents writer.new)) }
{
    write_agents(out, writer, drawn)?;
    let journal = drawn.all.endings.journal();
    write_marks(out, writer, drawn.part, drawn.cpus, journal)?;
    write_decisions(out, writer, drawn)?;
    write_foot(out, writer, drawn)
}

/// Adds the whole picture: its beginning, its rows with what stands in them, its foot and its end. It writes what is long
/// enough.
fn draw<W: Write>(out: &mut Text, writer: &mut W, drawn: &Drawn<'_>) -> Result<(), WriteFailed>
    requires count { length drawn.now.all.now.lanes.items ≡ drawn.now.cpus }
    requires stays { (c : ℕ) → c < drawn.now.cpus → option_map (λ (lane : LaneOf). lane.ended) (slice_get drawn.now.all.now.lanes.items c) ≡ Some (stays drawn.now.all.now.endings c) }
    ensures sent { OnOk result ((start : List ℕ) × Sends (told_by drawn.now.all.now.counts ++ flat_map (pieces_of (scale drawn.now.part.now) (class_among (map born drawn.now.all.now.lives.items)) drawn.now.all.now.endings) (all_stays drawn.now.all.now.endings drawn.now.cpus)) (W.contents writer.old) (W.contents writer.new) start out.new.settled) }
    ensures stuck { OnErr result (Grows (W.contents writer.old) (W.contents writer.new)) }
{
    let end = end_of_foot(drawn.cpus, drawn.all.lines.len());
    write_head(out, drawn, end)?;
    write_above(out, writer, drawn, end)?;
    write_rows(out, writer, drawn)?;
    write_below(out, writer, drawn)?;
    out.push_str("</svg>\n")?;
    Ok(())
}

/// A picture of a history as SVG, of which nothing is written yet. It has a row for each of so many CPUs, and in it a bar for each stay of
/// a thread. Above the bars of a CPU stand the decisions of the notes: each stamp, and each landing that was not
/// placed, with what it came to. Marks that are near to one another are drawn as one, and its title tells of the first few.
/// Below the rows threads are listed.
///
/// Contracts see pieces that the text has, in order: what is told of decisions, and then what is drawn of stays.
#[derive(Drop)]
pub struct Picture<'a> {
    cpus: u16,
    notes: Notes<'a>,
    part: Part<'a>,
    all: Gathered<'a>,
    /// What is drawn and not written yet.
    out: Text,
}

impl<'a> Model for Picture<'a> {
    ghost use Rattle.std.specs.Prelude.{◌≡◌, ◌<◌, ◌++◌, [], List, ℕ, Some, flat_map, length, map, slice_get};
    ghost use Rattle.std.specs.Option.{option_map};
    ghost use Rattle.gs_timeline.specs.Bars.{pieces_of, scale};
    ghost use Rattle.gs_timeline.specs.Counts.{told_by};
    ghost use Rattle.gs_timeline.specs.Lanes.{LaneOf};
    ghost use Rattle.gs_timeline.specs.Lives.{born, class_among};
    ghost use Rattle.gs_timeline.specs.Stays.{all_stays, stays};

    ghost Value = { List (List ℕ) };

    ghost view = { λ p. told_by p.all.counts ++ flat_map (pieces_of (scale p.part) (class_among (map born p.all.lives.items)) p.all.endings) (all_stays p.all.endings p.cpus) };

    ghost invariant = { λ p. (length p.all.lanes.items ≡ p.cpus) × ((c : ℕ) → c < p.cpus → option_map (λ (lane : LaneOf). lane.ended) (slice_get p.all.lanes.items c) ≡ Some (stays p.all.endings c)) };
}

impl<'a> Picture<'a> {
    /// Gathers what a picture shows of the entries from place `from` to place `to`, that one too, and makes room for it to
    /// be written piece by piece. Of more than [`MOST_SINGLE`](crate::MOST_SINGLE) entries several share a pixel, and stays
    /// that are narrower are drawn together if they touch.
    ///
    /// # Errors
    ///
    /// `AllocError` if out of memory.
    pub fn new(
        alloc: Global,
        cpus: u16,
        journal: &'a Journal,
        notes: Notes<'a>,
        from: usize,
        to: usize,
        listed: Listed,
    ) -> Result<Picture<'a>, AllocError>
        ensures { IfOk result (λ picture. picture ≡ decisions (scale_of (length journal.now.entries) from to) notes.entry.marks.now ++ bars (scale_of (length journal.now.entries) from to) journal.now.entries cpus) }
    {
        let part = Part::new(journal.len(), notes.lines, from, to);
        let all = Gathered::new(alloc, cpus, journal, &notes, &part, listed)?;
        Ok(Picture {
            cpus,
            notes,
            part,
            all,
            out: Text::with_room(alloc)?,
        })
    }

    /// Draws the picture, and writes it piece by piece: it is never kept whole.
    ///
    /// # Errors
    ///
    /// `WriteFailed` if a write fails or takes no byte, or if memory runs out beyond what was made room for. A beginning was
    /// written then.
    pub fn write<W: Write>(self, writer: &mut W) -> Result<(), WriteFailed>
        ensures written { OnOk result ((text : List ℕ) × Appends (W.contents writer.old) (W.contents writer.new) text × HasEach self.entry text) }
        ensures stuck { OnErr result (Grows (W.contents writer.old) (W.contents writer.new)) }
    {
        let Picture {
            cpus,
            notes,
            part,
            all,
            mut out,
        } = self;
        let drawn = Drawn {
            cpus,
            notes,
            part: &part,
            all: &all,
        };
        draw(&mut out, writer, &drawn)?;
        out.send(writer)
    }
}
