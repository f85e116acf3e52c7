ghost use Rattle.std.specs.Prelude.{◌≡◌};

use crate::layout::{BAR, row_of};
use crate::part::Part;
use crate::rect::{Rect, write_from_to};
use crate::stay::Stay;
use crate::text::Text;
use std::alloc::AllocError;

/// Stays on a CPU that are narrower than a pixel each, in pixels that touch: they are drawn as one bar.
#[derive(Clone, Copy)]
pub(crate) struct Blur {
    cpu: u16,
    stays: u64,
    from: usize,
    to: usize,
}

impl Blur {
    /// Makes a blur of no stays, on this CPU.
    pub(crate) fn new(cpu: u16) -> Blur {
        Blur {
            cpu,
            stays: 0,
            from: 0,
            to: 0,
        }
    }

    /// Adds a stay behind the others. If its pixel does not touch theirs, it draws the others first.
    pub(crate) fn add(
        &mut self,
        out: &mut Text,
        part: &Part<'_>,
        stay: &Stay,
    ) -> Result<(), AllocError>
        ensures { out.new.settled ≡ out.old.settled }
    {
        if part.width(self.to, stay.from) > 1 {
            self.write(out, part)?;
        }
        if self.stays == 0 {
            self.from = stay.from;
        }
        self.stays = self.stays.saturating_add(1);
        self.to = stay.to;
        Ok(())
    }

    /// Draws the stays as one bar, if there are any, and lets go of them.
    pub(crate) fn write(&mut self, out: &mut Text, part: &Part<'_>) -> Result<(), AllocError>
        ensures { out.new.settled ≡ out.old.settled }
    {
        if self.stays > 0 {
            let bar = Rect {
                x: part.x(self.from),
                y: row_of(self.cpu),
                width: part.width(self.from, self.to).saturating_add(1),
                height: BAR,
            };
            bar.write(out)?;
            out.push_number("\" class=\"blur\"><title>stays: ", self.stays)?;
            out.push_number(", on CPU ", u64::from(self.cpu))?;
            write_from_to(out, part, self.from, self.to)?;
            out.push_str("</title></rect>\n")?;
        }
        self.stays = 0;
        Ok(())
    }
}
