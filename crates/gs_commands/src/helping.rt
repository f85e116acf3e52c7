//! The words that `ghost help` says something of.

ghost use Rattle.std.specs.Prelude.{◌≡◌, map, option_map, string_bytes};
ghost use Rattle.gs_commands.specs.Asked.{Helps, help_word, is_command, is_option};
ghost use Rattle.gs_commands.specs.Failures.{IsUnknown};

use crate::failure::Failure;
use crate::policy_help::add_policies;
use gs_help::{help_text, nearest_word, reference_rows};
use gs_script::NamedPolicy;
use gs_trace::{Ended, TraceFault, write_out};
use std::alloc::{AllocError, Global};
use std::io::Write;

/// Returns whether a word is a command of the program, whose help is the command line's.
fn is_command(word: &str) -> bool
    ensures { result ≡ is_command word.now }
{
    matches!(
        word,
        "run"
            | "explain"
            | "report"
            | "journal"
            | "timeline"
            | "timehist"
            | "latency"
            | "trace"
            | "serve"
            | "simulate"
            | "compare"
            | "threads"
            | "help"
    )
}

/// Returns whether a word is an option.
fn is_option(word: &str) -> bool
    ensures { result ≡ is_option word.now }
{
    word.as_bytes().first() == Some(&b'-')
}

/// Returns the word of `ghost help WORD`, unless that is a command or an option.
pub(crate) fn help_word(words: &[String]) -> Option<&str>
    ensures { option_map (λ word. word.now) result ≡ help_word (map string_bytes words.now) }
{
    let [_, command, word] = words else {
        return None;
    };
    let word = word.as_str();
    if command.as_str() != "help" || is_command(word) || is_option(word) {
        return None;
    }
    Some(word)
}

/// Returns the word that something is said of and that was probably meant by another one, if there is one.
fn word_near(alloc: Global, word: &str) -> Result<Option<&'static str>, AllocError> {
    nearest_word(alloc, &reference_rows(alloc)?, word)
}

/// Returns why nothing is said of a word.
fn unknown(alloc: Global, word: &str) -> Failure
    ensures { IsUnknown result }
{
    match word_near(alloc, word) {
        Ok(Some(near)) => Failure::NearWord(near),
        Ok(None) => Failure::UnknownWord,
        Err(_) => Failure::Script(TraceFault::OutOfMemory),
    }
}

/// Returns what is said of a word: what docs/REFERENCE.md says, and which policies of the program it names.
fn text_about<P: NamedPolicy>(alloc: Global, word: &str) -> Result<String, AllocError> {
    let mut text = help_text(alloc, &reference_rows(alloc)?, word)?;
    add_policies::<P>(&mut text, word)?;
    Ok(text)
}

/// Writes what is said of a word.
pub(crate) fn show_help<P: NamedPolicy, W: Write>(
    alloc: Global,
    word: &str,
    writer: &mut W,
) -> Result<Ended, Failure>
    ensures { Helps (W.contents writer.old) (W.contents writer.new) result }
{
    let Ok(text) = text_about::<P>(alloc, word) else {
        return Err(Failure::Script(TraceFault::OutOfMemory));
    };
    if text.is_empty() {
        return Err(unknown(alloc, word));
    }
    match write_out(writer, text.as_bytes()) {
        Ok(()) => Ok(Ended::Ran),
        Err(_) => Err(Failure::Script(TraceFault::WriteFailed)),
    }
}
