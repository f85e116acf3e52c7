//! The agents: their row, with how each began and ended and what pages it was given, and where each is active.

ghost use Rattle.std.specs.Prelude.{◌≡◌, [], OnErr, OnOk};
ghost use Rattle.gs_timeline.specs.Sent.{Grows, Sends};

use crate::layout::{ABOVE, BAR, TOP, row_of};
use crate::notes::{AgentEvent, AgentMark};
use crate::part::{EDGE, Part};
use crate::phrases::{begin_path, begin_text};
use crate::rect::{Rect, write_from_to};
use crate::spans::{News, Reign, Turn};
use crate::text::Text;
use crate::threads::{digits, room_for};
use gs_text::WriteFailed;
use std::alloc::{AllocError, Global};
use std::io::Write;

/// How many letters stand before the generation of an agent.
const AGENT: u64 = 6;

/// How high the tick of a page is.
const PAGE: u64 = 8;

/// How far from one another the ticks of pages at one place are.
const PAGES: u64 = 4;

/// Adds what is said of an agent in both of its bars, behind the bar's place.
fn write_title(
    out: &mut Text,
    part: &Part<'_>,
    reign: &Reign,
    style: &str,
) -> Result<(), AllocError>
    ensures { out.new.settled ≡ out.old.settled }
{
    out.push_str("\" class=\"")?;
    out.push_str(style)?;
    out.push_number(
        "\"><title>agent of generation ",
        u64::from(reign.generation),
    )?;
    out.push_str(", ")?;
    out.push_str(style)?;
    out.push_str(",")?;
    write_from_to(out, part, reign.from, reign.to)?;
    out.push_str("</title></rect>\n")
}

/// Adds the bar of an agent, with what is said of it.
fn write_bar(
    out: &mut Text,
    part: &Part<'_>,
    bar: &Rect,
    reign: &Reign,
    style: &str,
) -> Result<(), AllocError>
    ensures { out.new.settled ≡ out.old.settled }
{
    bar.write(out)?;
    write_title(out, part, reign, style)?;
    let generation = u64::from(reign.generation);
    let letters = digits(generation);
    if room_for(letters) > bar.width {
        return Ok(());
    }
    bar.write_text(out)?;
    out.push_str("\" class=\"name on-")?;
    out.push_str(style)?;
    let whole = room_for(letters.saturating_add(AGENT)) <= bar.width;
    out.push_number(if whole { "\">agent " } else { "\">" }, generation)?;
    out.push_str("</text>\n")
}

/// Adds an agent: in the row of the agents, and, while it is active, on its CPU.
fn write_reign(out: &mut Text, part: &Part<'_>, cpus: u16, reign: &Reign) -> Result<(), AllocError>
    ensures { out.new.settled ≡ out.old.settled }
{
    let bar = Rect {
        x: part.x(reign.from),
        y: TOP,
        width: part.width(reign.from, reign.to),
        height: BAR,
    };
    if bar.width == 0 {
        return Ok(());
    }
    let style = match reign.cpu {
        Some(_) => "active",
        None => "attaching",
    };
    write_bar(out, part, &bar, reign, style)?;
    match reign.cpu {
        Some(cpu) if cpu < cpus => {
            let y = row_of(cpu);
            write_bar(out, part, &Rect { y, ..bar }, reign, style)
        }
        _ => Ok(()),
    }
}

/// Something that happened to an agent: the entry that tells it, and the word of the script for it.
#[derive(Clone, Copy)]
pub(crate) struct Step {
    place: usize,
    word: &'static str,
}

/// Returns the word for an agent that became active, by whether one is active already, or attaches.
fn word_of_role(place: usize, active: bool) -> &'static str {
    if place == 0 {
        ""
    } else if active {
        "handoff"
    } else {
        "activate"
    }
}

/// Returns the places of the entries by which agents crashed, in order.
fn crashes(alloc: Global, marks: &[AgentMark]) -> Result<Vec<usize>, AllocError> {
    let mut places = Vec::new(alloc);
    for mark in marks {
        if mark.event == AgentEvent::Crashed {
            places.push(mark.entries)?;
        }
    }
    Ok(places)
}

/// Returns what happened to the agents, in order.
pub(crate) fn steps(
    alloc: Global,
    turns: &[Turn],
    marks: &[AgentMark],
) -> Result<Vec<Step>, AllocError> {
    let mut steps = Vec::new(alloc);
    let crashes = crashes(alloc, marks)?;
    let mut active = false;
    for turn in turns {
        let place = turn.place;
        let word = match turn.news {
            News::Role { .. } => {
                let word = word_of_role(place, active);
                active = true;
                word
            }
            News::Begin { .. } => "begin",
            News::Left => {
                active = false;
                let crashed = crashes.binary_search(&place).is_ok();
                if crashed { "crash" } else { "leave" }
            }
            News::Torn => continue,
        };
        steps.push(Step { place, word })?;
    }
    Ok(steps)
}

/// Adds the word of what happened to an agent, if it ends before `limit`.
fn write_word(out: &mut Text, x: u64, limit: u64, word: &str) -> Result<(), AllocError>
    ensures { out.new.settled ≡ out.old.settled }
{
    if word.is_empty() || x.saturating_add(room_for(word.len() as u64)) > limit {
        return Ok(());
    }
    begin_text(out, x.saturating_add(2), TOP - ABOVE + 4, "step")?;
    out.push_str(word)?;
    out.push_str("</text>\n")
}

/// Adds an agent each, and writes what is long enough.
pub(crate) fn write_reigns<W: Write>(
    out: &mut Text,
    writer: &mut W,
    part: &Part<'_>,
    cpus: u16,
    reigns: &[Reign],
) -> Result<(), WriteFailed>
    ensures sent { OnOk result (Sends [] (W.contents writer.old) (W.contents writer.new) out.old.settled out.new.settled) }
    ensures stuck { OnErr result (Grows (W.contents writer.old) (W.contents writer.new)) }
{
    for reign in reigns {
        write_reign(out, part, cpus, reign)?;
        out.spill(writer)?;
    }
    Ok(())
}

/// Adds the words of what happened to the agents, each where the next one leaves room, and writes what is long enough.
pub(crate) fn write_steps<W: Write>(
    out: &mut Text,
    writer: &mut W,
    part: &Part<'_>,
    steps: &[Step],
) -> Result<(), WriteFailed>
    ensures sent { OnOk result (Sends [] (W.contents writer.old) (W.contents writer.new) out.old.settled out.new.settled) }
    ensures stuck { OnErr result (Grows (W.contents writer.old) (W.contents writer.new)) }
{
    let mut limit = part.x(part.behind()).saturating_add(EDGE);
    for step in steps.iter().rev() {
        if !part.has(step.place) {
            continue;
        }
        let x = part.x(step.place);
        write_word(out, x, limit, step.word)?;
        out.spill(writer)?;
        limit = x;
    }
    Ok(())
}

/// Adds the tick of a page.
fn write_page(
    out: &mut Text,
    x: u64,
    mark: &AgentMark,
    count: u16,
    next: Option<u32>,
) -> Result<(), AllocError>
    ensures { out.new.settled ≡ out.old.settled }
{
    begin_path(out, "page", x, TOP + BAR - PAGE)?;
    out.push_number("v", PAGE)?;
    out.push_number("\"><title>line ", mark.line as u64)?;
    out.push_number(", before entry ", mark.entries as u64)?;
    out.push_number(": page of threads: ", u64::from(count))?;
    match next {
        Some(tid) => out.push_number(", the next from thread ", u64::from(tid))?,
        None => out.push_str(", the last one")?,
    }
    out.push_str("</title></path>\n")
}

/// Adds a tick for each page that an agent was given, and writes what is long enough. Those of one place stand before one
/// another.
pub(crate) fn write_pages<W: Write>(
    out: &mut Text,
    writer: &mut W,
    part: &Part<'_>,
    marks: &[AgentMark],
) -> Result<(), WriteFailed>
    ensures sent { OnOk result (Sends [] (W.contents writer.old) (W.contents writer.new) out.old.settled out.new.settled) }
    ensures stuck { OnErr result (Grows (W.contents writer.old) (W.contents writer.new)) }
{
    let mut last = 0;
    let mut shift: u64 = 0;
    for mark in marks.iter().rev() {
        let AgentEvent::Page { count, next } = mark.event else {
            continue;
        };
        let x = part.x(mark.entries);
        shift = if x == last {
            shift.saturating_add(PAGES)
        } else {
            PAGES
        };
        last = x;
        if !part.meets(mark.entries) {
            continue;
        }
        let before = x.saturating_sub(shift.min(part.unit() as u64));
        write_page(out, before, mark, count, next)?;
        out.spill(writer)?;
    }
    Ok(())
}
