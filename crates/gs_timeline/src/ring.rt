//! How full the ring is, as a strip.

ghost use Rattle.std.specs.Prelude.{◌≡◌, [], OnErr, OnOk};
ghost use Rattle.gs_timeline.specs.Sent.{Grows, Sends};

use crate::layout::{BAR, RING};
use crate::notes::Fill;
use crate::part::{LEFT, Part};
use crate::phrases::begin_text;
use crate::text::Text;
use gs_text::{Digits, WriteFailed};
use std::alloc::AllocError;
use std::io::Write;

/// How high the strip is where so many bytes of so many are in use: as high as a bar if all are, and not flat if some are.
fn height_of(used: usize, ring: usize) -> u64 {
    let share = (used.min(ring) as u64).saturating_mul(BAR);
    share.div_ceil((ring as u64).max(1)).min(BAR)
}

/// The line above which the strip is empty, as it is drawn.
#[derive(Drop)]
struct Edge {
    /// Up to where it is drawn.
    x: u64,
    /// How high it is at most there, and how high behind that.
    most: u64,
    last: u64,
    /// Where it was drawn last.
    y: Digits,
}

impl Edge {
    /// Goes on to a place.
    #[inline(always)]
    fn go(&mut self, out: &mut Text, x: u64) -> Result<(), AllocError>
        ensures { out.new.settled ≡ out.old.settled }
    {
        if x <= self.x {
            return Ok(());
        }
        if self.most != self.last {
            let most = (RING + BAR).saturating_sub(self.most);
            out.push_two("V", most, "H", self.x.saturating_add(1))?;
        }
        self.y.set((RING + BAR).saturating_sub(self.last));
        out.push_digits("V", &self.y)?;
        out.push_number("H", x)?;
        self.x = x;
        self.most = self.last;
        Ok(())
    }

    /// Is so high from a place on. Of those that share a pixel the highest is shown there.
    #[inline(always)]
    fn set(&mut self, out: &mut Text, shared: bool, x: u64, height: u64) -> Result<(), AllocError>
        ensures { out.new.settled ≡ out.old.settled }
    {
        self.go(out, x)?;
        self.most = if shared {
            self.most.max(height)
        } else {
            height
        };
        self.last = height;
        Ok(())
    }
}

/// Returns how many bytes are in use at most.
fn most_used(fills: &[Fill]) -> usize {
    let mut most = 0;
    for fill in fills {
        most = most.max(fill.used);
    }
    most
}

/// Adds the names of the ring's row, its background, and the beginning of its strip, up to where that begins.
fn begin_ring(out: &mut Text, end: u64, ring: usize) -> Result<(), AllocError>
    ensures { out.new.settled ≡ out.old.settled }
{
    begin_text(out, 10, RING + 11, "label")?;
    out.push_str("ring</text>\n")?;
    begin_text(out, 10, RING + 24, "small")?;
    out.push_decimal(ring as u64)?;
    out.push_str(" bytes</text>\n")?;
    out.push_number("<rect x=\"", LEFT)?;
    out.push_number("\" y=\"", RING)?;
    out.push_number("\" width=\"", end.saturating_sub(LEFT))?;
    out.push_number("\" height=\"", BAR)?;
    out.push_str("\" class=\"row\"/>\n")?;
    out.push_number("<path class=\"ring\" d=\"M", LEFT)?;
    out.push_number(" ", RING + BAR)
}

/// Goes on to what is in use from a place on, if it is not behind the part.
#[inline(always)]
fn write_fill(
    out: &mut Text,
    edge: &mut Edge,
    part: &Part<'_>,
    fill: &Fill,
    ring: usize,
) -> Result<(), AllocError>
    ensures { out.new.settled ≡ out.old.settled }
{
    if fill.entries > part.behind() {
        return Ok(());
    }
    let shared = part.sharing() > 1 && fill.entries >= part.first();
    edge.set(
        out,
        shared,
        part.x(fill.entries),
        height_of(fill.used, ring),
    )
}

/// Adds the line above which the strip is empty, up to `end`, and writes what is long enough.
fn write_edge<W: Write>(
    out: &mut Text,
    writer: &mut W,
    part: &Part<'_>,
    fills: &[Fill],
    ring: usize,
    end: u64,
) -> Result<(), WriteFailed>
    ensures sent { OnOk result (Sends [] (W.contents writer.old) (W.contents writer.new) out.old.settled out.new.settled) }
    ensures stuck { OnErr result (Grows (W.contents writer.old) (W.contents writer.new)) }
{
    let mut edge = Edge {
        x: LEFT,
        most: 0,
        last: 0,
        y: Digits::new(0),
    };
    for fill in fills {
        write_fill(out, &mut edge, part, fill, ring)?;
        out.spill(writer)?;
    }
    edge.go(out, end)?;
    Ok(())
}

/// Adds the end of the strip, with how many bytes are in use at most.
fn end_ring(out: &mut Text, fills: &[Fill], ring: usize) -> Result<(), AllocError>
    ensures { out.new.settled ≡ out.old.settled }
{
    out.push_number("V", RING + BAR)?;
    out.push_number(
        "z\"><title>bytes of the ring in use, at most: ",
        most_used(fills) as u64,
    )?;
    out.push_number(" of ", ring as u64)?;
    out.push_str("</title></path>\n")
}

/// Adds the strip of a ring of so many bytes, of which it shows how many are in use, and writes what is long enough.
pub(crate) fn write_ring<W: Write>(
    out: &mut Text,
    writer: &mut W,
    part: &Part<'_>,
    fills: &[Fill],
    ring: usize,
) -> Result<(), WriteFailed>
    ensures sent { OnOk result (Sends [] (W.contents writer.old) (W.contents writer.new) out.old.settled out.new.settled) }
    ensures stuck { OnErr result (Grows (W.contents writer.old) (W.contents writer.new)) }
{
    let end = part.x(part.behind());
    begin_ring(out, end, ring)?;
    write_edge(out, writer, part, fills, ring, end)?;
    end_ring(out, fills, ring)?;
    Ok(())
}
