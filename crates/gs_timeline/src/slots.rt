//! The slots of the CPUs: when something was stamped in each.

ghost use Rattle.std.specs.Prelude.{◌≡◌, [], OnErr, OnOk};
ghost use Rattle.gs_timeline.specs.Sent.{Grows, Sends};

use crate::gathered::Drawn;
use crate::layout::decided_of;
use crate::notes::{Mark, What};
use crate::part::Part;
use crate::picks::Picks;
use crate::rows::InRow;
use crate::spans::{News, Turn};
use crate::text::Text;
use gs_text::WriteFailed;
use std::alloc::{AllocError, Global};
use std::io::Write;

/// A time that something is stamped in the slot of a CPU: before which entry it was stamped, and before which it landed or
/// the slot was cleared.
#[derive(Clone, Copy)]
pub(crate) struct Pending {
    cpu: u16,
    from: usize,
    to: usize,
}

impl Pending {
    /// Returns how long it is drawn.
    #[inline(always)]
    fn width(&self, part: &Part<'_>) -> u64 {
        if self.from == self.to {
            return 0;
        }
        part.width(self.from, self.to)
    }
}

/// All that are kept are drawn.
impl InRow for Pending {
    #[inline(always)]
    fn row(&self, _part: &Part<'_>) -> Option<u16> {
        Some(self.cpu)
    }
}

/// Returns the places of the entries from which on all slots are idle, or land no more: those by which an agent began to
/// attach, and a tear-down.
fn clearings(alloc: Global, turns: &[Turn]) -> Result<Vec<usize>, AllocError> {
    let mut places = Vec::new(alloc);
    for turn in turns {
        if matches!(turn.news, News::Begin { .. } | News::Torn) {
            places.push(turn.place)?;
        }
    }
    Ok(places)
}

/// Returns the first of these places that is not before an entry, or `end` if there is none.
fn cleared_by(clearings: &[usize], from: usize, end: usize) -> usize {
    let at = match clearings.binary_search(&from) {
        Ok(at) | Err(at) => at,
    };
    clearings.get(at).copied().unwrap_or(end)
}

/// A slot as the marks are walked.
#[derive(Clone, Copy)]
struct Slot {
    /// Before which entry something was stamped in it, if that did not land yet.
    since: Option<usize>,
    /// Whether what was stamped in it is one of a group.
    group: bool,
    /// How many marks of its CPU are drawn.
    drawn: usize,
}

/// One in which nothing is stamped.
const IDLE: Slot = Slot {
    since: None,
    group: false,
    drawn: 0,
};

/// The slots as the marks are walked.
#[derive(Drop)]
struct Slots {
    /// By CPU.
    slots: Vec<Slot>,
    clearings: Vec<usize>,
    /// How many entries the journal has.
    entries: usize,
    /// The line by which a group landed last.
    line: Option<u32>,
    told: Stamped,
}

/// What was stamped, and how it landed.
#[derive(Drop)]
pub(crate) struct Stamped {
    /// The times that something was stamped in a slot, of those that are drawn. Those of a CPU are in order.
    pub pending: Vec<Pending>,
    /// A list for each group that landed, with the marks that tell so, in order.
    pub groups: Picks,
    /// How many marks of each CPU are drawn.
    pub drawn: Vec<usize>,
}

impl Slots {
    /// Makes so many slots in which nothing is stamped.
    fn new(
        alloc: Global,
        clearings: Vec<usize>,
        cpus: u16,
        entries: usize,
    ) -> Result<Slots, AllocError> {
        let mut slots = Vec::new(alloc);
        slots.resize(cpus as usize, IDLE)?;
        Ok(Slots {
            slots,
            clearings,
            entries,
            line: None,
            told: Stamped {
                pending: Vec::new(alloc),
                groups: Picks::new(alloc),
                drawn: Vec::with_capacity(alloc, cpus as usize)?,
            },
        })
    }

    /// Keeps a time that something was stamped, if it is drawn.
    #[inline(always)]
    fn add(&mut self, part: &Part<'_>, cpu: u16, from: usize, to: usize) -> Result<(), AllocError> {
        let pending = Pending { cpu, from, to };
        if pending.width(part) > 0 {
            self.told.pending.push(pending)?;
        }
        Ok(())
    }

    /// Keeps the time that something is stamped in a slot up to where it is cleared, if something is.
    fn clear(&mut self, part: &Part<'_>, cpu: u16, since: Option<usize>) -> Result<(), AllocError> {
        match since {
            Some(from) => {
                let to = cleared_by(&self.clearings, from, self.entries);
                self.add(part, cpu, from, to)
            }
            None => Ok(()),
        }
    }

    /// Keeps that the mark of this place tells that one of a group landed.
    fn add_to_group(&mut self, place: usize, mark: &Mark) -> Result<(), AllocError> {
        let is_new = self.line != Some(mark.line);
        self.line = Some(mark.line);
        self.told.groups.push(place, is_new)
    }

    /// Keeps the time that something is stamped in the slot of a CPU still, up to where it is cleared, and how many marks of
    /// the CPU are drawn.
    fn end(&mut self, part: &Part<'_>, cpu: u16) -> Result<(), AllocError> {
        let slot = self.slots.get(cpu as usize).copied().unwrap_or(IDLE);
        self.told.drawn.push(slot.drawn)?;
        self.clear(part, cpu, slot.since)
    }

    /// Changes as a mark says, whose place is given, and keeps what it ends.
    #[inline(always)]
    fn hear(&mut self, part: &Part<'_>, place: usize, mark: &Mark) -> Result<(), AllocError> {
        let Some(slot) = self.slots.get_mut(mark.cpu as usize) else {
            return Ok(());
        };
        let before = *slot;
        if mark.row(part).is_some() {
            slot.drawn = before.drawn.saturating_add(1);
        }
        match mark.what {
            What::Stamped { group, .. } => {
                slot.since = Some(mark.place());
                slot.group = group;
                self.clear(part, mark.cpu, before.since)
            }
            What::Landed { .. } => {
                slot.since = None;
                slot.group = false;
                if before.group {
                    self.add_to_group(place, mark)?;
                }
                match before.since {
                    Some(from) => self.add(part, mark.cpu, from, mark.place()),
                    None => Ok(()),
                }
            }
            What::Late { .. } => Ok(()),
        }
    }
}

impl Stamped {
    /// Walks the marks once, and returns what was stamped in the slots of so many CPUs, and how it landed. So many entries are
    /// the journal's.
    ///
    /// # Errors
    ///
    /// `AllocError` if out of memory.
    pub(crate) fn new(
        alloc: Global,
        part: &Part<'_>,
        marks: &[Mark],
        turns: &[Turn],
        cpus: u16,
        entries: usize,
    ) -> Result<Stamped, AllocError> {
        let mut slots = Slots::new(alloc, clearings(alloc, turns)?, cpus, entries)?;
        for (place, mark) in marks.iter().enumerate() {
            slots.hear(part, place, mark)?;
        }
        for cpu in 0..cpus {
            slots.end(part, cpu)?;
        }
        Ok(slots.told)
    }
}

/// Adds the length of a time that something is stamped in a slot, whose line is at `y`.
fn write_length(
    out: &mut Text,
    part: &Part<'_>,
    y: u64,
    pending: &Pending,
) -> Result<(), AllocError>
    ensures { out.new.settled ≡ out.old.settled }
{
    out.push_two("M", part.x(pending.from), " ", y)?;
    out.push_number("h", pending.width(part))
}

/// Adds the data of the line of a CPU's slot: the lengths of these times. It writes what is long enough.
fn write_lengths<W: Write>(
    out: &mut Text,
    writer: &mut W,
    drawn: &Drawn<'_>,
    cpu: u16,
    all: &[Pending],
) -> Result<(), WriteFailed>
    ensures sent { OnOk result (Sends [] (W.contents writer.old) (W.contents writer.new) out.old.settled out.new.settled) }
    ensures stuck { OnErr result (Grows (W.contents writer.old) (W.contents writer.new)) }
{
    let y = decided_of(cpu);
    for pending in all {
        write_length(out, drawn.part, y, pending)?;
        out.spill(writer)?;
    }
    Ok(())
}

/// Adds a line for each time that something is stamped in the slot of a CPU: from its stamp to its landing, or to where
/// the slot was cleared. It writes what is long enough.
pub(crate) fn write_stamped<W: Write>(
    out: &mut Text,
    writer: &mut W,
    drawn: &Drawn<'_>,
    cpu: u16,
) -> Result<(), WriteFailed>
    ensures sent { OnOk result (Sends [] (W.contents writer.old) (W.contents writer.new) out.old.settled out.new.settled) }
    ensures stuck { OnErr result (Grows (W.contents writer.old) (W.contents writer.new)) }
{
    let all = drawn.all.slots.of(cpu);
    if all.is_empty() {
        return Ok(());
    }
    out.push_str("<path class=\"slot\" d=\"")?;
    write_lengths(out, writer, drawn, cpu, all)?;
    out.push_str("\"/>\n")?;
    Ok(())
}
