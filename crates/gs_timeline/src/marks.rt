ghost use Rattle.std.specs.Prelude.{◌≡◌, ◌<◌, [], OnErr, OnOk};
ghost use Rattle.gs_timeline.specs.Sent.{Grows, Sends};

use crate::layout::{BAR, TOP, foot_of, row_of};
use crate::part::Part;
use crate::phrases::{begin_path, begin_text};
use crate::rect::{Rect, write_entry, write_from_to};
use crate::spans::Hold;
use crate::text::Text;
use gs_journal::{Entry, Journal};
use gs_layout::Message;
use gs_text::{Digits, WriteFailed};
use std::alloc::AllocError;
use std::io::Write;

/// The least width of an entry whose tick has a title.
const TITLED: usize = 4;

/// How far below its place the line of an entry stands on the axis.
const LOWER: u64 = 12;

/// How high the axis below the rows is.
const AXIS: u64 = 26;

/// Adds the hatching of a CPU that the other class holds.
pub(crate) fn write_hold(out: &mut Text, part: &Part<'_>, hold: &Hold) -> Result<(), AllocError>
    ensures { out.new.settled ≡ out.old.settled }
{
    if part.shown(hold.from, hold.to) == 0 {
        return Ok(());
    }
    let bar = Rect {
        x: part.x(hold.from),
        y: row_of(hold.cpu),
        width: part.width(hold.from, hold.to).max(1),
        height: BAR,
    };
    bar.write(out)?;
    out.push_number("\" class=\"held\"><title>CPU ", u64::from(hold.cpu))?;
    out.push_str(" is held by the other class")?;
    write_from_to(out, part, hold.from, hold.to)?;
    out.push_str("</title></rect>\n")
}

/// Adds the mark of a tick. The digits of where it stands are kept in `y`: ticks of one CPU mostly follow one another.
#[inline(always)]
fn write_tick(
    out: &mut Text,
    y: &mut Digits,
    part: &Part<'_>,
    place: usize,
    cpu: u16,
) -> Result<(), AllocError>
    ensures { out.new.settled ≡ out.old.settled }
{
    y.set(row_of(cpu).saturating_sub(3));
    out.push_number_digits("<path d=\"M", part.x(place), " ", y)?;
    if part.unit() < TITLED {
        return out.push_str("v6\"/>\n");
    }
    out.push_number("v6\"><title>tick of CPU ", u64::from(cpu))?;
    write_entry(out, part, ", entry ", place)?;
    out.push_str("</title></path>\n")
}

/// Adds the line of a tear-down, through all rows.
fn write_torn(out: &mut Text, part: &Part<'_>, cpus: u16, place: usize) -> Result<(), AllocError>
    ensures { out.new.settled ≡ out.old.settled }
{
    let x = part.x(place);
    let end = foot_of(cpus);
    out.push_number("<path class=\"torn\" d=\"M", x)?;
    out.push_number(" ", TOP.saturating_sub(4))?;
    out.push_number("V", end)?;
    write_entry(out, part, "\"><title>torn down at entry ", place)?;
    out.push_str(": a message did not fit into the ring</title></path>\n")?;
    begin_text(
        out,
        x.saturating_add(5),
        end.saturating_sub(AXIS),
        "on-torn",
    )?;
    out.push_str("torn down</text>\n")
}

/// Adds the tear-downs, and writes what is long enough.
fn write_tears<W: Write>(
    out: &mut Text,
    writer: &mut W,
    part: &Part<'_>,
    cpus: u16,
    journal: &Journal,
) -> Result<(), WriteFailed>
    ensures sent { OnOk result (Sends [] (W.contents writer.old) (W.contents writer.new) out.old.settled out.new.settled) }
    ensures stuck { OnErr result (Grows (W.contents writer.old) (W.contents writer.new)) }
{
    for place in 0..journal.len() {
        if !matches!(journal.entry(place), Entry::Torn) || !part.has(place) {
            continue;
        }
        write_torn(out, part, cpus, place)?;
        out.spill(writer)?;
    }
    Ok(())
}

/// Adds the ticks, and writes what is long enough. Returns whether there is a tear-down.
fn write_ticks<W: Write>(
    out: &mut Text,
    writer: &mut W,
    part: &Part<'_>,
    cpus: u16,
    journal: &Journal,
) -> Result<bool, WriteFailed>
    ensures sent { OnOk result (Sends [] (W.contents writer.old) (W.contents writer.new) out.old.settled out.new.settled) }
    ensures stuck { OnErr result (Grows (W.contents writer.old) (W.contents writer.new)) }
{
    let mut y = Digits::new(0);
    let mut torn = false;
    for place in 0..journal.len() {
        match journal.entry(place) {
            Entry::Posted {
                message: Message::TimerTick { cpu },
            } if cpu < cpus && part.has(place) => write_tick(out, &mut y, part, place, cpu)?,
            Entry::Torn => torn = true,
            _ => continue,
        }
        out.spill(writer)?;
    }
    Ok(torn)
}

/// Adds ticks and tear-downs, and writes what is long enough.
pub(crate) fn write_marks<W: Write>(
    out: &mut Text,
    writer: &mut W,
    part: &Part<'_>,
    cpus: u16,
    journal: &Journal,
) -> Result<(), WriteFailed>
    ensures sent { OnOk result (Sends [] (W.contents writer.old) (W.contents writer.new) out.old.settled out.new.settled) }
    ensures stuck { OnErr result (Grows (W.contents writer.old) (W.contents writer.new)) }
{
    out.push_str("<g class=\"tick\">\n")?;
    let torn = write_ticks(out, writer, part, cpus, journal)?;
    out.push_str("</g>\n")?;
    if torn {
        return write_tears(out, writer, part, cpus, journal);
    }
    Ok(())
}

/// Adds the numbers of the axis at an entry, whose middle is at `x`: its place, and below that the line that added it.
fn write_numbers(
    out: &mut Text,
    part: &Part<'_>,
    x: u64,
    y: u64,
    place: usize,
) -> Result<(), AllocError>
    ensures { out.new.settled ≡ out.old.settled }
{
    begin_text(out, x, y, "axis")?;
    out.push_decimal(place as u64)?;
    out.push_str("</text>\n")?;
    if let Some(line) = part.line(place) {
        begin_text(out, x, y.saturating_add(LOWER), "axis")?;
        out.push_decimal(line as u64)?;
        out.push_str("</text>\n")?;
    }
    Ok(())
}

/// Adds what the two numbers of the axis are.
fn write_names(out: &mut Text, y: u64) -> Result<(), AllocError>
    ensures { out.new.settled ≡ out.old.settled }
{
    begin_text(out, 10, y, "small")?;
    out.push_str("entry</text>\n")?;
    begin_text(out, 10, y.saturating_add(LOWER), "small")?;
    out.push_str("line</text>\n")
}

/// The axis of a part: how many entries are between two of its lines, where its numbers stand above the rows and below
/// them, and where its lines end.
#[derive(Clone, Copy)]
struct Axis {
    step: usize,
    above: u64,
    below: u64,
    end: u64,
    ghost stepped: { 0 < step },
}

impl Axis {
    /// Returns whether an entry has a line: one of a round place, or the first of fewer than a step.
    fn has(&self, part: &Part<'_>, place: usize) -> bool {
        place % self.step == 0 || (part.count() < self.step && place == part.first())
    }

    /// Adds what its numbers are, above the rows and below them.
    fn write_names(&self, out: &mut Text) -> Result<(), AllocError>
        ensures { out.new.settled ≡ out.old.settled }
    {
        write_names(out, self.above)?;
        write_names(out, self.below)
    }

    /// Adds the line of an entry, with its numbers.
    fn write_line(&self, out: &mut Text, part: &Part<'_>, place: usize) -> Result<(), AllocError>
        ensures { out.new.settled ≡ out.old.settled }
    {
        let x = part.x(place);
        begin_path(out, "grid", x, self.above.saturating_add(LOWER + 3))?;
        out.push_number("V", self.end)?;
        out.push_str("\"/>\n")?;
        write_numbers(out, part, x, self.above, place)?;
        write_numbers(out, part, x, self.below, place)
    }
}

/// Adds the axis, and writes what is long enough. Each entry of a round place has a line where it begins, through all that
/// is drawn, down to `end`. The place and the line of the script stand above the rows and below them. If there are fewer
/// entries than a step of the axis, the first has these too.
pub(crate) fn write_axis<W: Write>(
    out: &mut Text,
    writer: &mut W,
    part: &Part<'_>,
    cpus: u16,
    end: u64,
) -> Result<(), WriteFailed>
    ensures sent { OnOk result (Sends [] (W.contents writer.old) (W.contents writer.new) out.old.settled out.new.settled) }
    ensures stuck { OnErr result (Grows (W.contents writer.old) (W.contents writer.new)) }
{
    let axis = Axis {
        step: part.step(),
        above: TOP.saturating_sub(34),
        below: foot_of(cpus).saturating_sub(AXIS - 10),
        end,
    };
    axis.write_names(out)?;
    for place in part.first()..part.behind() {
        if !axis.has(part, place) {
            continue;
        }
        axis.write_line(out, part, place)?;
        out.spill(writer)?;
    }
    Ok(())
}
