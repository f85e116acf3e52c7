ghost use Rattle.std.specs.Prelude.{◌≡◌};
ghost use Rattle.gs_timeline.specs.Marks.{shade_of};

use crate::lives::Life;
use crate::rect::Rect;
use crate::text::Text;
use gs_layout::Class;
use gs_text::Digits;
use std::alloc::AllocError;

/// How wide a letter in a bar is: each is as wide as any other.
const LETTER: u64 = 7;

/// Returns how wide a bar with so many letters is at least.
pub(crate) fn room_for(letters: u64) -> u64 {
    letters.saturating_mul(LETTER).saturating_add(4)
}

/// Returns how many digits a tid or a generation has: exactly up to five, and 10 for more.
pub(crate) fn digits(number: u64) -> u64 {
    match number {
        0..10 => 1,
        10..100 => 2,
        100..1_000 => 3,
        1_000..10_000 => 4,
        10_000..100_000 => 5,
        _ => 10,
    }
}

/// Lends the life of a thread that has a name, or returns `None` if it has none.
fn named(life: Option<&Life>) -> Option<&Life> {
    life.filter(|life| life.has_name())
}

/// Returns how many letters what a thread is called has.
pub(crate) fn letters_of(tid: u32, life: Option<&Life>) -> u64 {
    match named(life) {
        Some(life) => life.letters(),
        None => digits(u64::from(tid)),
    }
}

/// Adds what a thread is called: its name, or its tid if it has no name.
pub(crate) fn write_called(out: &mut Text, tid: u32, life: Option<&Life>) -> Result<(), AllocError>
    ensures { out.new.settled ≡ out.old.settled }
{
    match named(life) {
        Some(life) => life.write_name(out),
        None => out.push_decimal(u64::from(tid)),
    }
}

/// Adds what a thread is called to its bar: its name, or its tid if it has no name or that does not fit. It adds nothing
/// if the tid does not fit either. `base` is where texts in the bar stand.
pub(crate) fn write_label(
    out: &mut Text,
    bar: &Rect,
    base: &Digits,
    tid: u32,
    life: Option<&Life>,
) -> Result<(), AllocError>
    ensures { out.new.settled ≡ out.old.settled }
{
    let room = bar.width;
    let name = named(life).filter(|life| room_for(life.letters()) <= room);
    let number = u64::from(tid);
    if name.is_none() && room_for(digits(number)) > room {
        return Ok(());
    }
    out.push_number_digits("<text x=\"", bar.middle(), "\" y=\"", base)?;
    out.push_str("\" class=\"name\">")?;
    match name {
        Some(life) => life.write_name(out)?,
        None => out.push_decimal(number)?,
    }
    out.push_str("</text>\n")
}

/// Returns the class of the style by which a thread is coloured. Each class of threads has a hue of its own, and four shades of it, which
/// its threads take in turn.
pub(crate) fn shade_of(tid: u32, class: Option<Class>) -> &'static str
    ensures { result.now ≡ shade_of tid class }
{
    match (class, tid % 4) {
        (Some(Class::Zero), 0) => "z0",
        (Some(Class::Zero), 1) => "z1",
        (Some(Class::Zero), 2) => "z2",
        (Some(Class::Zero), _) => "z3",
        (Some(Class::One), 0) => "o0",
        (Some(Class::One), 1) => "o1",
        (Some(Class::One), 2) => "o2",
        (Some(Class::One), _) => "o3",
        (None, _) => "unknown",
    }
}

/// Adds which thread it is: its tid, and what is known of it.
#[inline(always)]
pub(crate) fn write_thread(out: &mut Text, tid: u32, life: Option<&Life>) -> Result<(), AllocError>
    ensures { out.new.settled ≡ out.old.settled }
{
    match life {
        Some(life) => life.write(out),
        None => {
            out.push_number("thread ", u64::from(tid))?;
            out.push_str(", class ?")
        }
    }
}
