//! The stays of threads as slices.

ghost use Rattle.std.specs.Prelude.{◌≡◌, ◌-◌, ◌∷◌, [], OnOk};
ghost use Rattle.gs_perfetto.specs.Events.{slice_back, slice_front};
ghost use Rattle.gs_timeline.specs.Pieces.{Adds};

use crate::events::TIME;
use crate::tracks::{CPU_SLICE, cpu_track};
use gs_timeline::{Digits, Stay, Text};
use std::alloc::AllocError;

/// Returns how many entries a stay lasts.
fn length_of(stay: &Stay) -> usize
    ensures { result ≡ stay.now.to - stay.now.from }
{
    stay.to.saturating_sub(stay.from)
}

/// Adds the beginning of the slice of a stay: its track, when it begins, how long it is, and its thread.
#[inline(always)]
fn write_front(out: &mut Text, stay: &Stay, place: &Digits) -> Result<(), AllocError>
    requires { place.now ≡ stay.now.from }
    ensures slice { OnOk result (Adds (slice_front stay.now ∷ []) out.old.settled out.new.settled) }
    ensures rest { OnOk result (out.new.told ≡ []) }
{
    out.push_number_digits(CPU_SLICE, cpu_track(stay.cpu), TIME, place)?;
    let length = length_of(stay) as u64;
    out.push_two(",\"dur\":", length, ",\"args\":{\"tid\":", stay.tid as u64)?;
    out.settle();
    Ok(())
}

/// Adds a stay as a slice: behind its beginning the script's line that placed it, and what the thread is called, as JSON.
pub(crate) fn write_slice(
    out: &mut Text,
    stay: &Stay,
    line: &Digits,
    place: &Digits,
    name: &str,
) -> Result<(), AllocError>
    requires { place.now ≡ stay.now.from }
    ensures slice { OnOk result (Adds (slice_front stay.now ∷ []) out.old.settled out.new.settled) }
    ensures rest { OnOk result (out.new.told ≡ slice_back stay.now line.now name.now) }
{
    write_front(out, stay, place)?;
    out.push_digits(",\"line\":", line)?;
    out.push_digits(",\"entry\":", place)?;
    out.push_str("},\"name\":")?;
    out.push_str(name)?;
    out.push_str("}")?;
    Ok(())
}
