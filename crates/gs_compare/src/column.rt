//! Columns of a table.

ghost use Rattle.std.specs.Prelude.{◌≡◌, ◌≤◌, ◌++◌, OnOk};
ghost use Rattle.gs_lines.specs.declared.column.TheConstants.{MOST_COLUMN};
ghost use Rattle.gs_lines.specs.Columns.{column};
ghost use Rattle.gs_compare.specs.Columns.{number_word};

use gs_lines::{Text, push_column};
use itoa::Buffer;
use std::alloc::AllocError;

/// The places of a column.
pub(crate) const WIDTH: usize = 12;

/// The places of three columns, and of the spaces between them.
pub(crate) const THREE_WIDTH: usize = 38;

/// Adds a column of so many places with a number, or with a dash for none.
pub(crate) fn push_number(
    out: &mut Text,
    width: usize,
    number: Option<usize>,
) -> Result<(), AllocError>
    requires { width ≤ MOST_COLUMN }
    ensures { OnOk result (out.new ≡ out.old ++ column width (number_word number)) }
{
    let Some(number) = number else {
        return push_column(out, width, "-");
    };
    let mut buffer = Buffer::new();
    push_column(out, width, buffer.format(number))
}
