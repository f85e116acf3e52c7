ghost use Rattle.std.specs.Prelude.{◌≡◌, [], OnErr, OnOk};
ghost use Rattle.gs_timeline.specs.Sent.{Grows, Sends};

use crate::gathered::Drawn;
use crate::layout::{LINE, foot_of};
use crate::listing::Line;
use crate::lives::{Life, life_of};
use crate::part::Part;
use crate::phrases::begin_text;
use crate::strip::Strip;
use crate::text::Text;
use crate::threads::{shade_of, write_called, write_thread};
use crate::times::Times;
use gs_layout::Class;
use gs_text::WriteFailed;
use std::alloc::AllocError;
use std::io::Write;

/// How many lines are above those of the threads, and behind them.
const LINES: u64 = 5;

/// Returns where what is drawn below the rows ends, if so many lines are listed there.
pub(crate) fn end_of_foot(cpus: u16, listed: usize) -> u64 {
    foot_of(cpus).saturating_add((listed as u64).saturating_add(LINES).saturating_mul(LINE))
}

/// Adds behind how many entries threads ran, and behind how many they waited.
fn write_counts(out: &mut Text, ran: usize, waited: usize) -> Result<(), AllocError>
    ensures { out.new.settled ≡ out.old.settled }
{
    if ran == 0 {
        out.push_str(": never ran, ")?;
    } else {
        out.push_number(": ran ", ran as u64)?;
        out.push_str(" entries, ")?;
    }
    out.push_number("waited ", waited as u64)
}

/// Adds the beginning of a path of lengths on the axis, of these classes.
fn begin_strip(out: &mut Text, y: u64, class: &str, shade: &str) -> Result<(), AllocError>
    ensures { out.new.settled ≡ out.old.settled }
{
    out.push_number("<path transform=\"translate(0 ", y)?;
    out.push_str(")\" class=\"")?;
    out.push_str(class)?;
    out.push_str(shade)?;
    out.push_str("\" d=\"")
}

/// Adds the end of a path of lengths, with what the thread did.
fn end_strip(out: &mut Text, life: &Life) -> Result<(), AllocError>
    ensures { out.new.settled ≡ out.old.settled }
{
    out.push_str("\"><title>")?;
    write_thread(out, life.tid, Some(life))?;
    write_counts(out, life.ran(), life.waited())?;
    out.push_str("</title></path>\n")
}

/// Adds a path of lengths on the axis, which are times of a thread, and writes what is long enough.
fn write_strip<W: Write>(
    out: &mut Text,
    writer: &mut W,
    y: u64,
    class: &str,
    life: &Life,
    strip: &Strip,
) -> Result<(), WriteFailed>
    ensures sent { OnOk result (Sends [] (W.contents writer.old) (W.contents writer.new) out.old.settled out.new.settled) }
    ensures stuck { OnErr result (Grows (W.contents writer.old) (W.contents writer.new)) }
{
    begin_strip(out, y, class, shade_of(life.tid, Some(life.class)))?;
    strip.write(out, writer)?;
    end_strip(out, life)?;
    Ok(())
}

/// Adds which thread has a line.
fn begin_life(out: &mut Text, y: u64, life: &Life) -> Result<(), AllocError>
    ensures { out.new.settled ≡ out.old.settled }
{
    begin_text(out, 10, y, "thread")?;
    out.push_decimal(u64::from(life.tid))?;
    if life.has_name() {
        out.push_str(" ")?;
        write_called(out, life.tid, Some(life))?;
    }
    out.push_str("</text>\n")
}

/// Adds behind how many of the shown entries a thread ran and waited, at the end of its line.
fn end_life(out: &mut Text, part: &Part<'_>, y: u64, life: &Life) -> Result<(), AllocError>
    ensures { out.new.settled ≡ out.old.settled }
{
    begin_text(out, part.x(part.behind()).saturating_add(8), y, "thread")?;
    out.push_number("class ", life.class.number() as u64)?;
    write_counts(out, life.ran(), life.waited())?;
    out.push_str("</text>\n")
}

/// Adds what a thread did: behind how many of the shown entries it ran and waited, and when. It writes what is long enough.
fn write_life<W: Write>(
    out: &mut Text,
    writer: &mut W,
    part: &Part<'_>,
    y: u64,
    life: &Life,
    times: &Times,
) -> Result<(), WriteFailed>
    ensures sent { OnOk result (Sends [] (W.contents writer.old) (W.contents writer.new) out.old.settled out.new.settled) }
    ensures stuck { OnErr result (Grows (W.contents writer.old) (W.contents writer.new)) }
{
    let middle = y.saturating_sub(4);
    begin_life(out, y, life)?;
    write_strip(out, writer, middle, "ready ", life, &times.ready)?;
    write_strip(out, writer, middle, "ran ", life, &times.ran)?;
    end_life(out, part, y, life)?;
    Ok(())
}

/// Adds how many more threads of a class there are that ran, or that never did.
fn write_more(out: &mut Text, y: u64, class: Class, ran: bool, count: u64) -> Result<(), AllocError>
    ensures { out.new.settled ≡ out.old.settled }
{
    begin_text(out, 10, y, "thread")?;
    out.push_decimal(count)?;
    out.push_number(" more, of class ", class.number() as u64)?;
    out.push_str(if ran { ", ran" } else { ", never ran" })?;
    out.push_str("</text>\n")
}

/// Adds what the threads of a class did together.
fn write_class(out: &mut Text, y: u64, lives: &[Life], class: Class) -> Result<(), AllocError>
    ensures { out.new.settled ≡ out.old.settled }
{
    let mut ran: usize = 0;
    let mut waited: usize = 0;
    let mut threads: u64 = 0;
    for life in lives {
        if life.class == class {
            ran = ran.saturating_add(life.ran());
            waited = waited.saturating_add(life.waited());
            threads = threads.saturating_add(1);
        }
    }
    begin_text(out, 10, y, "count")?;
    out.push_number("class ", class.number() as u64)?;
    out.push_number(", threads ", threads)?;
    write_counts(out, ran, waited)?;
    out.push_str("</text>\n")
}

/// Adds what the classes did, and what the lines below that are. Returns where the last of these lines stands.
fn write_classes(out: &mut Text, cpus: u16, lives: &[Life]) -> Result<u64, AllocError>
    ensures { out.new.settled ≡ out.old.settled }
{
    let mut y = foot_of(cpus).saturating_add(LINE);
    write_class(out, y, lives, Class::Zero)?;
    y = y.saturating_add(LINE);
    write_class(out, y, lives, Class::One)?;
    y = y.saturating_add(LINE);
    begin_text(out, 10, y, "small")?;
    out.push_str(
        "Threads, those that never ran first, and then by how long they waited. Thick: it ran; thin: it could run, and waited; nothing: it could not run.</text>\n",
    )?;
    Ok(y)
}

/// Adds a line below the rows, and writes what is long enough.
fn write_line<W: Write>(
    out: &mut Text,
    writer: &mut W,
    drawn: &Drawn<'_>,
    y: u64,
    line: &Line,
) -> Result<(), WriteFailed>
    ensures sent { OnOk result (Sends [] (W.contents writer.old) (W.contents writer.new) out.old.settled out.new.settled) }
    ensures stuck { OnErr result (Grows (W.contents writer.old) (W.contents writer.new)) }
{
    let all = drawn.all;
    match line {
        Line::Thread { tid } => match (life_of(&all.lives, *tid), all.times.of(*tid)) {
            (Some(life), Some(times)) => write_life(out, writer, drawn.part, y, life, times),
            _ => Ok(()),
        },
        Line::More { class, ran, count } => {
            write_more(out, y, *class, *ran, *count)?;
            Ok(())
        }
    }
}

/// Adds what the classes did, and what the threads did that are listed. It writes what is long enough.
pub(crate) fn write_foot<W: Write>(
    out: &mut Text,
    writer: &mut W,
    drawn: &Drawn<'_>,
) -> Result<(), WriteFailed>
    ensures sent { OnOk result (Sends [] (W.contents writer.old) (W.contents writer.new) out.old.settled out.new.settled) }
    ensures stuck { OnErr result (Grows (W.contents writer.old) (W.contents writer.new)) }
{
    let all = drawn.all;
    let mut y = write_classes(out, drawn.cpus, &all.lives)?;
    for line in &all.lines {
        y = y.saturating_add(LINE);
        write_line(out, writer, drawn, y, line)?;
        out.spill(writer)?;
    }
    Ok(())
}
