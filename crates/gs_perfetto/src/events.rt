//! How an event of a trace begins and ends. Each stands behind others, on a line of its own.

ghost use Rattle.std.specs.Prelude.{◌≡◌};

use gs_timeline::{Digits, Text};
use std::alloc::AllocError;

/// When and by what something happens.
#[derive(Clone, Copy)]
pub(crate) struct When<'a> {
    /// The place of the entry.
    pub place: &'a Digits,
    /// The line of the script.
    pub line: &'a Digits,
}

/// What stands in front of the time of an event.
pub(crate) const TIME: &str = ",\"ts\":";

/// Tells the beginning of an event: its kind and its process, its track, and when it happens.
#[inline(always)]
pub(crate) fn begin_event(
    out: &mut Text,
    head: &str,
    track: u64,
    place: &Digits,
) -> Result<(), AllocError>
    ensures { out.new.settled ≡ out.old.settled }
{
    out.push_number_digits(head, track, TIME, place)
}

/// Tells the last arguments of an event: the line of the script, and the place of the entry. It ends the event. `front` stands
/// in front of them.
#[inline(always)]
pub(crate) fn end_event(out: &mut Text, front: &str, when: When<'_>) -> Result<(), AllocError>
    ensures { out.new.settled ≡ out.old.settled }
{
    out.push_str(front)?;
    out.push_digits("\"line\":", when.line)?;
    out.push_digits(",\"entry\":", when.place)?;
    out.push_str("}}")
}

/// Tells the end of the slice that began last on a track.
#[inline(always)]
pub(crate) fn end_slice(
    out: &mut Text,
    head: &str,
    track: u64,
    place: &Digits,
) -> Result<(), AllocError>
    ensures { out.new.settled ≡ out.old.settled }
{
    begin_event(out, head, track, place)?;
    out.push_str("}")
}
