ghost use Rattle.std.specs.Prelude.{◌≡◌};

use crate::part::Part;
use crate::text::Text;
use std::alloc::AllocError;

/// Where a bar is, in units of the picture.
#[derive(Clone, Copy)]
pub(crate) struct Rect {
    pub x: u64,
    pub y: u64,
    pub width: u64,
    pub height: u64,
}

impl Rect {
    /// Adds the beginning of the bar, up to its last number. What it is filled with follows behind a quotation mark.
    #[inline(always)]
    pub(crate) fn write(&self, out: &mut Text) -> Result<(), AllocError>
        ensures { out.new.settled ≡ out.old.settled }
    {
        out.push_two("<rect x=\"", self.x, "\" y=\"", self.y)?;
        out.push_two("\" width=\"", self.width, "\" height=\"", self.height)
    }

    /// Returns where the middle of a text in the bar is.
    pub(crate) fn middle(&self) -> u64 {
        self.x.saturating_add(self.width / 2)
    }

    /// Returns where a text in the bar stands.
    pub(crate) fn base(&self) -> u64 {
        self.y.saturating_add(self.height / 2 + 4)
    }

    /// Adds the beginning of a text in the middle of the bar, up to its last number.
    pub(crate) fn write_text(&self, out: &mut Text) -> Result<(), AllocError>
        ensures { out.new.settled ≡ out.old.settled }
    {
        let middle = self.middle();
        let base = self.base();
        out.push_two("<text x=\"", middle, "\" y=\"", base)
    }
}

/// Adds an entry by its place, and by the line that added it, if there is one.
#[inline(always)]
fn write_place(
    out: &mut Text,
    words: &str,
    place: usize,
    line: Option<usize>,
) -> Result<(), AllocError>
    ensures { out.new.settled ≡ out.old.settled }
{
    let Some(line) = line else {
        return out.push_number(words, place as u64);
    };
    out.push_two(words, place as u64, " (line ", line as u64)?;
    out.push_str(")")
}

/// Adds an entry by its place, and by the line that added it.
#[inline(always)]
pub(crate) fn write_entry(
    out: &mut Text,
    part: &Part<'_>,
    words: &str,
    place: usize,
) -> Result<(), AllocError>
    ensures { out.new.settled ≡ out.old.settled }
{
    write_place(out, words, place, part.line(place))
}

/// From which entry on and to which something is, and the lines that added these. The lines of a whole history are in no near
/// cache, so they are looked up before they are wanted.
#[derive(Clone, Copy)]
pub(crate) struct Between {
    from: usize,
    to: usize,
    first: Option<usize>,
    last: Option<usize>,
}

impl Between {
    /// Looks the lines up.
    #[inline(always)]
    pub(crate) fn new(part: &Part<'_>, from: usize, to: usize) -> Between {
        Between {
            from,
            to,
            first: part.line(from),
            last: part.line(to),
        }
    }

    /// Adds from which entry on and to which something is, with their lines.
    #[inline(always)]
    pub(crate) fn write(&self, out: &mut Text) -> Result<(), AllocError>
        ensures { out.new.settled ≡ out.old.settled }
    {
        let (Some(first), Some(last)) = (self.first, self.last) else {
            return self.write_some(out);
        };
        out.push_two(" from entry ", self.from as u64, " (line ", first as u64)?;
        out.push_two(") to ", self.to as u64, " (line ", last as u64)?;
        out.push_str(")")
    }

    /// Adds the same if there are not both lines.
    fn write_some(&self, out: &mut Text) -> Result<(), AllocError>
        ensures { out.new.settled ≡ out.old.settled }
    {
        write_place(out, " from entry ", self.from, self.first)?;
        write_place(out, " to ", self.to, self.last)
    }
}

/// Adds from which entry on and to which something is.
pub(crate) fn write_from_to(
    out: &mut Text,
    part: &Part<'_>,
    from: usize,
    to: usize,
) -> Result<(), AllocError>
    ensures { out.new.settled ≡ out.old.settled }
{
    Between::new(part, from, to).write(out)
}
