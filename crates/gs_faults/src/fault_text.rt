ghost use Rattle.std.specs.Prelude.{IfOk, IsErr, IsOk, MatchOption};
ghost use Rattle.gs_script.specs.Script.{script_of};

use crate::form_text::{HEADER, LineForm, line_form};
use crate::label::write_label;
use crate::meant::meant;
use crate::shown_line::{write_line, write_margin};
use gs_script::{Found, MOST_BYTES, NamedPolicy, Reason, find_fault};
use std::alloc::{AllocError, Global};
use std::fmt::Write;

/// Returns the name of a reason.
fn reason_name(reason: Reason) -> &'static str {
    match reason {
        Reason::TooLong => "TooLong",
        Reason::BadByte => "BadByte",
        Reason::NoHeader => "NoHeader",
        Reason::BadWord => "BadWord",
        Reason::BadCount => "BadCount",
        Reason::BadNumber => "BadNumber",
        Reason::BadName => "BadName",
    }
}

/// Returns the first word of a line, of which these are the bytes before what is marked, and what is marked.
fn first_word<'a>(front: &'a [u8], marked: &'a [u8]) -> &'a [u8] {
    let word = front
        .split(|byte| *byte == b' ')
        .find(|word| !word.is_empty());
    word.unwrap_or(marked)
}

/// Returns the form of the line that has a fault, if a line begins as it does, and a form can have that fault.
fn form_of(found: &Found<'_>) -> Option<LineForm> {
    if found.fault.reason == Reason::NoHeader {
        return Some(HEADER);
    }
    if found.fault.reason == Reason::BadByte {
        return None;
    }
    let Ok(first) = str::from_utf8(first_word(found.mark.front, found.mark.word)) else {
        return None;
    };
    line_form(first)
}

/// Writes a line of help below the marked one, with a word.
fn write_help(text: &mut String, width: usize, help: &str, word: &str) -> Result<(), AllocError> {
    write_margin(text, width)?;
    write!(text, "= help: {help} `{word}`\n")
}

/// Writes a line of help with the form of a line.
fn write_form_help<P: NamedPolicy>(
    text: &mut String,
    width: usize,
    help: &str,
    form: LineForm,
) -> Result<(), AllocError> {
    write_margin(text, width)?;
    write!(text, "= help: {help} `")?;
    form.write(text, P::forms())?;
    text.push_str("`\n")
}

/// Writes what is wrong with the script itself.
fn write_whole<P: NamedPolicy>(text: &mut String, reason: Reason) -> Result<(), AllocError> {
    match reason {
        Reason::TooLong => write!(
            text,
            "error: a script has at most {MOST_BYTES} bytes: TooLong\n"
        ),
        _ => {
            text.push_str("error: the script has no header: NoHeader\n")?;
            write_form_help::<P>(text, 1, "its first line is", HEADER)
        }
    }
}

/// Writes the line that has the fault, with what is wrong in it.
fn write_found<P: NamedPolicy>(
    alloc: Global,
    text: &mut String,
    found: &Found<'_>,
    number: &str,
) -> Result<(), AllocError> {
    let name = reason_name(found.fault.reason);
    write!(
        text,
        "error: line {number} is no line of a script: {name}\n"
    )?;
    write_line(text, number, &found.mark)?;
    text.push(' ')?;
    write_label(text, found)?;
    text.push('\n')?;
    let width = number.len().min(20);
    if let Some(form) = form_of(found) {
        write_form_help::<P>(text, width, "such a line is", form)?;
    }
    if let Some(word) = meant(alloc, found)? {
        write_help(text, width, "a word of nearly the same letters is", word)?;
    }
    Ok(())
}

/// Returns what is wrong with the script that these bytes say, as text. It has the line of the first fault, and a mark below
/// the word at which that stands. Then come what is wanted there, the form of such a line, and the word that was probably meant.
/// It is `None` if they are a script. It fails only if out of memory.
pub fn explain<P: NamedPolicy>(alloc: Global, bytes: &[u8]) -> Result<Option<String>, AllocError>
    ensures { IfOk result (λ text. MatchOption text (IsOk (script_of P.naming bytes.now)) (λ _. IsErr (script_of P.naming bytes.now))) }
{
    let Some(found) = find_fault::<P>(alloc, bytes)? else {
        return Ok(None);
    };
    let mut text = String::new(alloc);
    match found.fault.line {
        0 => write_whole::<P>(&mut text, found.fault.reason)?,
        line => {
            let number = format!(in alloc; "{line}")?;
            write_found::<P>(alloc, &mut text, &found, number.as_str())?;
        }
    }
    Ok(Some(text))
}
