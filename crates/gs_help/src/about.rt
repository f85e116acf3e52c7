ghost use Rattle.std.specs.Prelude.{◌≡◌, IfOk, string_bytes};
ghost use Rattle.gs_hints.specs.Nearest.{IsNearest};
ghost use Rattle.gs_help.specs.About.{is_about, text_about, words_of};

use gs_hints::nearest;
use std::alloc::{AllocError, Global};

/// A row of docs/REFERENCE.md.
#[derive(Clone, Copy)]
pub struct Row {
    /// The words that it is about.
    pub words: &'static [&'static str],
    /// What it says, as lines.
    pub text: &'static str,
}

/// Returns whether a row is about a word, in capitals or not.
fn is_about(row: &Row, word: &str) -> bool
    ensures { result ≡ is_about word.now row.now }
{
    row.words
        .iter()
        .any(|other| other.eq_ignore_ascii_case(word))
}

/// Returns what the rows say that are about a word, in capitals or not, in order. It is empty if none is. It fails only if out of
/// memory.
pub fn help_text(alloc: Global, rows: &[Row], word: &str) -> Result<String, AllocError>
    ensures { IfOk result (λ text. string_bytes text ≡ text_about word.now rows.now) }
{
    let mut text = String::new(alloc);
    for row in rows {
        if is_about(row, word) {
            text.push_str(row.text)?;
        }
    }
    Ok(text)
}

/// Returns the word of these rows that was probably meant by another one, as [`nearest`] of gs_hints finds it. It fails only if
/// out of memory.
pub fn nearest_word(
    alloc: Global,
    rows: &[Row],
    word: &str,
) -> Result<Option<&'static str>, AllocError>
    ensures { IfOk result (IsNearest word.now (words_of rows.now)) }
{
    let mut words = Vec::new(alloc);
    for row in rows {
        words.extend_from_slice(row.words)?;
    }
    nearest(alloc, word, words.as_slice())
}
