//! Words at the right end of columns.

ghost use Rattle.std.specs.Prelude.{◌≡◌, ◌+◌, ◌-◌, ◌≤◌, ◌++◌, OnOk, codes, length, replicate};
ghost use Rattle.gs_lines.specs.Columns.{class_word, column};

use gs_layout::Class;
use gs_text::Sheet as Text;
use std::alloc::AllocError;

/// The most places of a column.
pub const MOST_COLUMN: usize = 38;

/// A space, and as many more as the widest column has places.
const BLANKS: &str = "                                       ";

/// Returns a space, and as many more as stand before a word of this length at the right end of so many places.
#[inline(always)]
pub fn blanks(width: usize, len: usize) -> &'static str
    requires { width ≤ MOST_COLUMN }
    ensures value { result.now ≡ codes " " ++ replicate (width - len) 32 }
    ensures short { length result.now ≤ width + 1 }
{
    &BLANKS[..width.saturating_sub(len) + 1]
}

/// Adds a column: a space, and a word at the right end of so many places. A longer word takes more.
///
/// # Errors
///
/// `AllocError` if out of memory.
pub fn push_column(out: &mut Text, width: usize, word: &str) -> Result<(), AllocError>
    requires { width ≤ MOST_COLUMN }
    ensures { OnOk result (out.new ≡ out.old ++ column width word.now) }
{
    out.push_str(blanks(width, word.len()))?;
    out.push_str(word)
}

/// Returns the number of a class, or a dash for none.
pub fn class_word(class: Option<Class>) -> &'static str
    ensures { result.now ≡ class_word class }
{
    match class {
        Some(Class::Zero) => "0",
        Some(Class::One) => "1",
        None => "-",
    }
}
