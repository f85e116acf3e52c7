ghost use Rattle.std.specs.Prelude.{◌≡◌, ◌≤◌, ◌++◌, OnOk, decimal, length};
ghost use Rattle.gs_lines.specs.Columns.{column};

use gs_lines::{Text, blanks};
use itoa::Buffer;
use std::alloc::AllocError;

/// The most places of a column of numbers.
const MOST_WIDTH: usize = 9;

/// Returns how many digits a number has, however many these are.
#[cold]
#[inline(never)]
fn many_digits(number: usize) -> usize
    ensures { result ≡ length (decimal number) }
{
    let mut buffer = Buffer::new();
    buffer.format(number).len()
}

/// Returns how many digits a number has.
#[inline(always)]
pub(crate) fn digits(number: usize) -> usize
    ensures { result ≡ length (decimal number) }
{
    match number {
        0..10 => 1,
        10..100 => 2,
        100..1_000 => 3,
        1_000..10_000 => 4,
        10_000..100_000 => 5,
        100_000..1_000_000 => 6,
        _ => many_digits(number),
    }
}

/// Adds a column with a number. Its arms differ in how many blanks they copy: that is known to the compiler then.
#[inline(always)]
pub(crate) fn push_count(out: &mut Text, width: usize, count: usize) -> Result<(), AllocError>
    requires { width ≤ MOST_WIDTH }
    ensures { OnOk result (out.new ≡ out.old ++ column width (decimal count)) }
{
    let number = count as u64;
    match digits(count) {
        1 => out.push_number(blanks(width, 1), number),
        2 => out.push_number(blanks(width, 2), number),
        3 => out.push_number(blanks(width, 3), number),
        4 => out.push_number(blanks(width, 4), number),
        5 => out.push_number(blanks(width, 5), number),
        6 => out.push_number(blanks(width, 6), number),
        more => out.push_number(blanks(width, more), number),
    }
}
