ghost use Rattle.std.specs.Prelude.{◌≡◌, ◌++◌, OnOk};
ghost use Rattle.gs_timeline.specs.Escapes.{escaped, shown};

use crate::text::Text;
use gs_layout::Name;
use std::alloc::AllocError;

/// Adds the beginning of a text of this class that stands at a place. What it says follows.
#[inline(always)]
pub(crate) fn begin_text(out: &mut Text, x: u64, y: u64, class: &str) -> Result<(), AllocError>
    ensures { out.new.settled ≡ out.old.settled }
{
    out.push_two("<text x=\"", x, "\" y=\"", y)?;
    out.push_str("\" class=\"")?;
    out.push_str(class)?;
    out.push_str("\">")
}

/// Adds the beginning of a path of this class, up to a place on it.
#[inline(always)]
pub(crate) fn begin_path(out: &mut Text, class: &str, x: u64, y: u64) -> Result<(), AllocError>
    ensures { out.new.settled ≡ out.old.settled }
{
    out.push_str("<path class=\"")?;
    out.push_str(class)?;
    out.push_two("\" d=\"M", x, " ", y)
}

/// Adds a byte of a name: a mark of the language by what stands for it.
fn write_byte(out: &mut Text, byte: u8) -> Result<(), AllocError>
    ensures settled { out.new.settled ≡ out.old.settled }
    ensures told { OnOk result (out.new.told ≡ out.old.told ++ shown byte) }
{
    match byte {
        b'<' => out.push_str("&lt;"),
        b'>' => out.push_str("&gt;"),
        b'&' => out.push_str("&amp;"),
        b'"' => out.push_str("&quot;"),
        _ => out.push_str(char::from(byte).encode_utf8(&mut [0; 4])),
    }
}

/// Adds a name so that it is shown as it is, whatever bytes it has.
pub(crate) fn write_escaped(out: &mut Text, name: &Name) -> Result<(), AllocError>
    ensures settled { out.new.settled ≡ out.old.settled }
    ensures told { OnOk result (out.new.told ≡ out.old.told ++ escaped name.now) }
{
    let bytes = name.as_bytes();
    for byte in bytes {
        write_byte(out, *byte)?;
    }
    Ok(())
}
