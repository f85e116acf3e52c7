ghost use Rattle.std.specs.Prelude.{◌≡◌, ◌+◌, ◌++◌, ◌-◌, ◌∷◌, [], OnOk, codes};
ghost use Rattle.gs_timeline.specs.Bars.{bar_front, bar_pieces, end_of, ends, has_letter, letter, lower, reason, row, scale, style, width_in};
ghost use Rattle.gs_timeline.specs.Lives.{class_known};
ghost use Rattle.gs_timeline.specs.Pieces.{Adds};
ghost use Rattle.gs_timeline.specs.Places.{x_in};
ghost use Rattle.gs_timeline.specs.declared.layout.TheConstants.{BAR};

use crate::ending::Ending;
use crate::layout::{BAR, row_of};
use crate::lives::{Life, class_known};
use crate::part::Part;
use crate::rect::{Between, Rect};
use crate::stay::Stay;
use crate::text::Text;
use crate::threads::{shade_of, write_label, write_thread};
use gs_layout::Class;
use gs_text::Digits;
use std::alloc::AllocError;

/// How much lower the bar of a thread of class 1 is than that of one of class 0.
const LOWER: u64 = 8;

/// The least width of a bar that has a border: a narrower one would be no more than that.
const BORDERED: u64 = 6;

/// The least width of a bar with a letter below its end.
const LETTERED: u64 = 8;

/// Returns how much lower than others a bar of this class is.
fn lower_by(class: Option<Class>) -> u64
    ensures { result ≡ lower class }
{
    match class {
        Some(Class::One) => LOWER,
        _ => 0,
    }
}

/// Returns the bar of a stay, which is where its entries are and as wide as they are, and stands on the ground of its CPU's
/// row. That of a thread of class 1 is lower.
fn bar_of(part: &Part<'_>, stay: &Stay, class: Option<Class>) -> Rect
    ensures place { result.x ≡ x_in (scale part.now) stay.now.from }
    ensures width { result.width ≡ width_in (scale part.now) stay.now }
    ensures top { result.y ≡ row stay.now.cpu + lower class }
    ensures height { result.height ≡ BAR - lower class }
{
    let lower = lower_by(class);
    Rect {
        x: part.x(stay.from),
        y: row_of(stay.cpu) + lower,
        width: part.width(stay.from, stay.to),
        height: BAR - lower,
    }
}

/// The digits of the numbers that most bars of a row share: their CPU, where they and their texts are, and how high they are.
#[derive(Drop)]
pub(crate) struct BarDigits {
    cpu: Digits,
    y: Digits,
    height: Digits,
    base: Digits,
    end: Digits,
}

impl BarDigits {
    /// Keeps those of no bar.
    pub(crate) fn new() -> BarDigits {
        BarDigits {
            cpu: Digits::new(0),
            y: Digits::new(0),
            height: Digits::new(0),
            base: Digits::new(0),
            end: Digits::new(0),
        }
    }

    /// Keeps those of a bar on this CPU.
    #[inline(always)]
    fn set(&mut self, cpu: u16, bar: &Rect)
        ensures top { self.new.y ≡ bar.now.y }
        ensures height { self.new.height ≡ bar.now.height }
        ensures end { self.new.end ≡ row cpu + BAR + 9 }
    {
        self.cpu.set(u64::from(cpu));
        self.y.set(bar.y);
        self.height.set(bar.height);
        self.base.set(bar.base());
        self.end.set(row_of(cpu) + BAR + 9);
    }
}

/// Returns the letter that tells why a stay ended, from behind the place of its text to the end of it.
fn letter_of(ending: Ending) -> &'static str
    ensures { result.now ≡ codes "\" class=\"end\">" ++ letter ending }
{
    match ending {
        Ending::Preempted => "\" class=\"end\">P</text>\n",
        Ending::Blocked => "\" class=\"end\">B</text>\n",
        Ending::Yielded => "\" class=\"end\">Y</text>\n",
        Ending::Died => "\" class=\"end\">D</text>\n",
        Ending::Affinity => "\" class=\"end\">A</text>\n",
        Ending::Torn => "\" class=\"end\">T</text>\n",
        Ending::Replaced => "\" class=\"end\">R</text>\n",
        Ending::StillThere => "\" class=\"end\">S</text>\n",
    }
}

/// Returns what a stay's title says of why it ended, to the end of the bar.
fn reason_of(ending: Ending) -> &'static str
    ensures { result.now ≡ reason ending }
{
    match ending {
        Ending::Preempted => ": preempted</title></rect>\n",
        Ending::Blocked => ": blocked</title></rect>\n",
        Ending::Yielded => ": yielded</title></rect>\n",
        Ending::Died => ": died</title></rect>\n",
        Ending::Affinity => ": affinity</title></rect>\n",
        Ending::Torn => ": torn</title></rect>\n",
        Ending::Replaced => ": replaced</title></rect>\n",
        Ending::StillThere => ": still there</title></rect>\n",
    }
}

/// Adds the letter of why a stay ended, below the end of its bar, whether or not there is room for it.
#[inline(always)]
fn write_letter(
    out: &mut Text,
    y: &Digits,
    part: &Part<'_>,
    stay: &Stay,
    ending: Ending,
) -> Result<(), AllocError>
    requires { y.now ≡ row stay.now.cpu + BAR + 9 }
    ensures { OnOk result (Adds (end_of (scale part.now) ending stay.now ∷ []) out.old.settled out.new.settled) }
{
    out.push_number_digits("<text x=\"", part.x(stay.to), "\" y=\"", y)?;
    out.push_str(letter_of(ending))?;
    out.settle();
    Ok(())
}

/// Returns whether there is room for a letter below a bar of some width, and its end is shown.
fn has_letter(part: &Part<'_>, stay: &Stay, width: u64) -> bool
    requires { width ≡ width_in (scale part.now) stay.now }
    ensures { result ≡ has_letter (scale part.now) stay.now }
{
    width >= LETTERED && part.has(stay.to)
}

/// Adds the first letter of why a stay ended, below the end of its bar, if there is room for it.
#[inline(always)]
fn write_end(
    out: &mut Text,
    y: &Digits,
    part: &Part<'_>,
    stay: &Stay,
    width: u64,
    ending: Ending,
) -> Result<(), AllocError>
    requires ground { y.now ≡ row stay.now.cpu + BAR + 9 }
    requires width { width ≡ width_in (scale part.now) stay.now }
    ensures { OnOk result (Adds (ends (scale part.now) ending stay.now) out.old.settled out.new.settled) }
{
    if !has_letter(part, stay, width) {
        return Ok(());
    }
    write_letter(out, y, part, stay, ending)
}

/// Returns how a bar of some width looks: with a border, or without one.
fn style_of(width: u64) -> &'static str
    ensures { result.now ≡ style width }
{
    if width >= BORDERED {
        "\" rx=\"3\" class=\"wide "
    } else {
        "\" class=\"bar "
    }
}

/// Adds the bar of a stay, up to its title.
#[inline(always)]
fn write_bar(
    out: &mut Text,
    kept: &BarDigits,
    part: &Part<'_>,
    stay: &Stay,
    class: Option<Class>,
    bar: &Rect,
) -> Result<(), AllocError>
    requires top { kept.now.y ≡ bar.now.y }
    requires height { kept.now.height ≡ bar.now.height }
    requires place { bar.now.x ≡ x_in (scale part.now) stay.now.from }
    requires width { bar.now.width ≡ width_in (scale part.now) stay.now }
    requires row { bar.now.y ≡ row stay.now.cpu + lower class }
    requires low { bar.now.height ≡ BAR - lower class }
    ensures { OnOk result (Adds (bar_front (scale part.now) class stay.now ∷ []) out.old.settled out.new.settled) }
{
    out.push_number_digits("<rect x=\"", bar.x, "\" y=\"", &kept.y)?;
    out.push_number_digits("\" width=\"", bar.width, "\" height=\"", &kept.height)?;
    out.push_str(style_of(bar.width))?;
    out.push_str(shade_of(stay.tid, class))?;
    out.push_str("\"><title>")?;
    out.settle();
    Ok(())
}

/// Adds what the title of a bar says: which thread it is, where, from which entry to which, and why the stay ended.
#[inline(always)]
fn write_title(
    out: &mut Text,
    cpu: &Digits,
    between: &Between,
    tid: u32,
    life: Option<&Life>,
    ending: Ending,
) -> Result<(), AllocError>
    ensures { OnOk result (Adds (reason ending ∷ []) out.old.settled out.new.settled) }
{
    write_thread(out, tid, life)?;
    out.push_digits(", on CPU ", cpu)?;
    between.write(out)?;
    out.push_str(reason_of(ending))?;
    out.settle();
    Ok(())
}

/// Adds the bar of a stay that is at least a pixel wide.
pub(crate) fn write_stay(
    out: &mut Text,
    kept: &mut BarDigits,
    part: &Part<'_>,
    stay: &Stay,
    life: Option<&Life>,
    ending: Ending,
) -> Result<(), AllocError>
    ensures { OnOk result (Adds (bar_pieces (scale part.now) (class_known life.entry) ending stay.now) out.old.settled out.new.settled) }
{
    let between = Between::new(part, stay.from, stay.to);
    let class = class_known(life);
    let bar = bar_of(part, stay, class);
    kept.set(stay.cpu, &bar);
    write_bar(out, kept, part, stay, class, &bar)?;
    write_title(out, &kept.cpu, &between, stay.tid, life, ending)?;
    write_label(out, &bar, &kept.base, stay.tid, life)?;
    write_end(out, &kept.end, part, stay, bar.width, ending)
}
