//! A line with a mark below a part of it.

use gs_script::Marked;
use std::alloc::AllocError;

/// The most bytes that are shown before what is marked, of it, and behind it.
const MOST_SHOWN: usize = 60;

/// What stands for bytes that are left out.
const LEFT_OUT: &str = "...";

/// Writes bytes, with `?` for each that may not stand in a script.
fn write_bytes(text: &mut String, bytes: &[u8]) -> Result<(), AllocError> {
    for byte in bytes {
        let shown = if 32 <= *byte && *byte <= 126 {
            *byte
        } else {
            b'?'
        };
        text.push(char::from(shown))?;
    }
    Ok(())
}

/// Writes a character so many times.
fn write_many(text: &mut String, one: char, count: usize) -> Result<(), AllocError> {
    for _time in 0..count {
        text.push(one)?;
    }
    Ok(())
}

/// Writes the last of bytes, and returns how many columns that are.
fn write_last(text: &mut String, bytes: &[u8]) -> Result<usize, AllocError> {
    if bytes.len() <= MOST_SHOWN {
        write_bytes(text, bytes)?;
        return Ok(bytes.len());
    }
    text.push_str(LEFT_OUT)?;
    write_bytes(text, &bytes[bytes.len() - MOST_SHOWN..])?;
    Ok(MOST_SHOWN + LEFT_OUT.len())
}

/// Writes the first of bytes, and returns how many columns that are.
fn write_first(text: &mut String, bytes: &[u8]) -> Result<usize, AllocError> {
    let (first, rest) = bytes.split_at(bytes.len().min(MOST_SHOWN));
    write_bytes(text, first)?;
    if rest.is_empty() {
        return Ok(first.len());
    }
    text.push_str(LEFT_OUT)?;
    Ok(MOST_SHOWN + LEFT_OUT.len())
}

/// Where a mark stands below a line, in columns.
#[derive(Clone, Copy)]
struct Columns {
    before: usize,
    marked: usize,
}

/// Writes the parts of a line, and returns where the mark stands. If nothing is marked, it is a column behind the last
/// word.
fn write_parts(text: &mut String, mark: &Marked<'_>) -> Result<Columns, AllocError> {
    let before = write_last(text, mark.front)?;
    if mark.word.is_empty() {
        return Ok(Columns {
            before: before.min(MOST_SHOWN + LEFT_OUT.len()) + 1,
            marked: 1,
        });
    }
    let marked = write_first(text, mark.word)?;
    write_first(text, mark.behind)?;
    Ok(Columns { before, marked })
}

/// Writes the margin of a line without a number.
pub(crate) fn write_margin(text: &mut String, width: usize) -> Result<(), AllocError> {
    write_many(text, ' ', width)?;
    text.push(' ')
}

/// Writes the line of a number, and marks a part of it. The text of the mark is to follow.
pub(crate) fn write_line(
    text: &mut String,
    number: &str,
    mark: &Marked<'_>,
) -> Result<(), AllocError> {
    let width = number.len().min(MOST_SHOWN);
    write_margin(text, width)?;
    text.push_str("|\n")?;
    text.push_str(number)?;
    text.push_str(" | ")?;
    let Columns { before, marked } = write_parts(text, mark)?;
    text.push('\n')?;
    write_margin(text, width)?;
    text.push_str("| ")?;
    write_many(text, ' ', before)?;
    write_many(text, '^', marked)
}
