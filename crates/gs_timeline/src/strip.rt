ghost use Rattle.std.specs.Prelude.{◌≡◌, [], OnErr, OnOk};
ghost use Rattle.gs_timeline.specs.Sent.{Grows, Sends};

use crate::part::Part;
use crate::text::Text;
use gs_text::WriteFailed;
use std::alloc::{AllocError, Global};
use std::io::Write;

/// A length on the axis.
#[derive(Clone, Copy)]
struct Length {
    from: u64,
    to: u64,
}

/// The times of a thread on the axis, as lengths that draw them. Times that touch are drawn as one.
#[derive(Drop)]
pub(crate) struct Strip {
    lengths: Vec<Length>,
    from: u64,
    to: u64,
}

impl Strip {
    /// Makes a strip of no time. It does not allocate.
    pub(crate) fn new(alloc: Global) -> Strip {
        Strip {
            lengths: Vec::new(alloc),
            from: 0,
            to: 0,
        }
    }

    /// Adds the entries from one on and before another. One that shares its pixel with others takes the whole of it.
    pub(crate) fn add(
        &mut self,
        part: &Part<'_>,
        from: usize,
        to: usize,
    ) -> Result<(), AllocError> {
        if part.shown(from, to) == 0 {
            return Ok(());
        }
        let from = part.x(from);
        let to = part.x(to).max(from.saturating_add(1));
        if from < self.from || from > self.to {
            self.end()?;
            self.from = from;
        }
        self.to = self.to.max(to);
        Ok(())
    }

    /// Ends the last time.
    pub(crate) fn end(&mut self) -> Result<(), AllocError> {
        if self.to > self.from {
            self.lengths.push(Length {
                from: self.from,
                to: self.to,
            })?;
        }
        self.to = 0;
        Ok(())
    }

    /// Adds the data of a path that draws the times, and writes what is long enough.
    pub(crate) fn write<W: Write>(&self, out: &mut Text, writer: &mut W) -> Result<(), WriteFailed>
        ensures sent { OnOk result (Sends [] (W.contents writer.old) (W.contents writer.new) out.old.settled out.new.settled) }
        ensures stuck { OnErr result (Grows (W.contents writer.old) (W.contents writer.new)) }
    {
        for length in &self.lengths {
            let long = length.to.saturating_sub(length.from);
            out.push_two("M", length.from, " 0h", long)?;
            out.spill(writer)?;
        }
        Ok(())
    }
}
