//! The groups: those that land together have a bracket that joins their CPUs.

ghost use Rattle.std.specs.Prelude.{◌≡◌, [], OnErr, OnOk};
ghost use Rattle.gs_timeline.specs.Sent.{Grows, Sends};

use crate::decided::{failure_of, write_mark};
use crate::layout::decided_of;
use crate::lives::Life;
use crate::notes::Mark;
use crate::part::Part;
use crate::phrases::begin_path;
use crate::picks::Picks;
use crate::text::Text;
use gs_text::{Digits, WriteFailed};
use std::alloc::AllocError;
use std::io::Write;

/// How far before their place a bracket stands.
const BEFORE: u64 = 8;

/// How many of a group have a line each in the title of its bracket, at most.
const MOST_TOLD: usize = 8;

/// Lends the mark of a place, if there is one.
fn mark_at<'a>(marks: &'a [Mark], place: Option<&usize>) -> Option<&'a Mark> {
    match place {
        Some(place) => marks.get(*place),
        None => None,
    }
}

/// Returns whether one of a group was not placed. Then none was.
fn has_failed(marks: &[Mark], group: &[usize]) -> bool {
    for place in group {
        if marks
            .get(*place)
            .is_some_and(|mark| failure_of(mark).is_some())
        {
            return true;
        }
    }
    false
}

/// Adds the beginning of a group's bracket: from the CPU of its first mark to that of its last one, at `x`.
fn begin_bracket(
    out: &mut Text,
    x: u64,
    failed: bool,
    marks: &[Mark],
    group: &[usize],
    first: &Mark,
) -> Result<(), AllocError>
    ensures { out.new.settled ≡ out.old.settled }
{
    let class = if failed { "group lost-group" } else { "group" };
    begin_path(out, class, x, decided_of(first.cpu))?;
    let last = mark_at(marks, group.last()).unwrap_or(first);
    out.push_number("V", decided_of(last.cpu))
}

/// Adds the end of a bracket at one of its CPUs.
fn write_end(out: &mut Text, x: u64, cpu: u16) -> Result<(), AllocError>
    ensures { out.new.settled ≡ out.old.settled }
{
    out.push_two("M", x, " ", decided_of(cpu))?;
    out.push_str("h4")
}

/// Adds the ends of a group's bracket at its CPUs, and writes what is long enough.
fn write_ends<W: Write>(
    out: &mut Text,
    writer: &mut W,
    x: u64,
    marks: &[Mark],
    group: &[usize],
) -> Result<(), WriteFailed>
    ensures sent { OnOk result (Sends [] (W.contents writer.old) (W.contents writer.new) out.old.settled out.new.settled) }
    ensures stuck { OnErr result (Grows (W.contents writer.old) (W.contents writer.new)) }
{
    for place in group {
        let Some(mark) = marks.get(*place) else {
            continue;
        };
        write_end(out, x, mark.cpu)?;
        out.spill(writer)?;
    }
    Ok(())
}

/// Adds the title of a group's bracket: how many they are, whether they were placed, and what is told of the first few.
fn write_title(
    out: &mut Text,
    lives: &[Life],
    failed: bool,
    marks: &[Mark],
    group: &[usize],
) -> Result<(), AllocError>
    ensures { out.new.settled ≡ out.old.settled }
{
    out.push_number("\"><title>group of ", group.len() as u64)?;
    out.push_str(if failed {
        ": none placed"
    } else {
        ": all placed"
    })?;
    let mut cpu = Digits::new(0);
    for place in group.iter().take(MOST_TOLD) {
        if let Some(mark) = marks.get(*place) {
            write_mark(out, "\nline ", lives, mark, &mut cpu)?;
        }
    }
    let more = group.len().saturating_sub(MOST_TOLD);
    if more > 0 {
        out.push_number("\nand more: ", more as u64)?;
    }
    out.push_str("</title></path>\n")
}

/// Adds the bracket of a group that landed, if that is shown, and writes what is long enough.
fn write_group<W: Write>(
    out: &mut Text,
    writer: &mut W,
    part: &Part<'_>,
    lives: &[Life],
    marks: &[Mark],
    group: &[usize],
) -> Result<(), WriteFailed>
    ensures sent { OnOk result (Sends [] (W.contents writer.old) (W.contents writer.new) out.old.settled out.new.settled) }
    ensures stuck { OnErr result (Grows (W.contents writer.old) (W.contents writer.new)) }
{
    let Some(first) = mark_at(marks, group.first()) else {
        return Ok(());
    };
    if !part.meets(first.place()) {
        return Ok(());
    }
    let x = part.x(first.place()).saturating_sub(BEFORE);
    let failed = has_failed(marks, group);
    begin_bracket(out, x, failed, marks, group, first)?;
    write_ends(out, writer, x, marks, group)?;
    write_title(out, lives, failed, marks, group)?;
    Ok(())
}

/// Adds a bracket for each group that landed, and writes what is long enough.
pub(crate) fn write_groups<W: Write>(
    out: &mut Text,
    writer: &mut W,
    part: &Part<'_>,
    lives: &[Life],
    marks: &[Mark],
    groups: &Picks,
) -> Result<(), WriteFailed>
    ensures sent { OnOk result (Sends [] (W.contents writer.old) (W.contents writer.new) out.old.settled out.new.settled) }
    ensures stuck { OnErr result (Grows (W.contents writer.old) (W.contents writer.new)) }
{
    for number in 0..groups.len() {
        write_group(out, writer, part, lives, marks, groups.list(number))?;
        out.spill(writer)?;
    }
    Ok(())
}
