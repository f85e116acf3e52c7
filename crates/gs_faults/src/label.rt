//! What is said below a mark.

use crate::wanted_text::write_wanted;
use gs_script::{Found, Reason};
use std::alloc::AllocError;
use std::fmt::Write;

/// Writes which byte may not stand in a script.
fn write_bad_byte(text: &mut String, byte: Option<u8>) -> Result<(), AllocError> {
    match byte {
        Some(b'\r') => text.push_str("a carriage return: a line ends in a newline alone"),
        Some(b'\t') => text.push_str("a tab: words are parted by spaces"),
        Some(byte) => write!(
            text,
            "the byte {byte}: each is from 32 to 126, in a comment too"
        ),
        None => Ok(()),
    }
}

/// Writes why the count of words is wrong.
fn write_bad_count(text: &mut String, found: &Found<'_>) -> Result<(), AllocError> {
    if !found.mark.word.is_empty() {
        return text.push_str("no word may stand here");
    }
    text.push_str("the line ends too early")?;
    if found.wanted.is_empty() {
        return Ok(());
    }
    text.push_str("; ")?;
    write_wanted(text, found.wanted.as_slice())
}

/// Returns what is wrong with a line that is no event's, by its first word.
fn unknown_line(word: &[u8]) -> &'static str {
    if word == b"cpus".as_slice() {
        "the header stands once, before all events"
    } else {
        "no line begins with this word"
    }
}

/// Writes what is wrong with what is marked, and what is wanted there.
pub(crate) fn write_label(text: &mut String, found: &Found<'_>) -> Result<(), AllocError> {
    match found.fault.reason {
        Reason::TooLong => Ok(()),
        Reason::BadByte => write_bad_byte(text, found.mark.word.first().copied()),
        Reason::NoHeader => {
            text.push_str(
                "the first line that says anything is the header, which begins with `cpus`",
            )
        }
        Reason::BadWord if found.wanted.is_empty() => text.push_str(unknown_line(found.mark.word)),
        Reason::BadCount => write_bad_count(text, found),
        Reason::BadWord | Reason::BadNumber | Reason::BadName => {
            write_wanted(text, found.wanted.as_slice())
        }
    }
}
