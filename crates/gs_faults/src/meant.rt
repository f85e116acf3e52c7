//! Which word was probably meant.

use crate::form_text::EVENTS;
use gs_hints::nearest;
use gs_script::{Found, PolicyWord, Reason, Wanted};
use std::alloc::{AllocError, Global};

/// Returns the word that may stand there, if one alone may.
fn word_of(wanted: Wanted) -> Option<&'static str> {
    match wanted {
        Wanted::Named(PolicyWord::Word(word)) => Some(word),
        Wanted::Ring => Some("ring"),
        Wanted::FirstTseq => Some("first-tseq"),
        Wanted::FirstGen => Some("first-gen"),
        Wanted::History => Some("history"),
        Wanted::Policy => Some("policy"),
        _ => None,
    }
}

/// Returns the words that may stand there.
fn words_of(alloc: Global, wanted: &[Wanted]) -> Result<Vec<&'static str>, AllocError> {
    let mut words = Vec::new(alloc);
    for one in wanted {
        if let Some(word) = word_of(*one) {
            words.push(word)?;
        }
    }
    Ok(words)
}

/// Returns the word of these that is near the one that is marked, in lower case.
fn near_word(
    alloc: Global,
    marked: &[u8],
    words: &[&'static str],
) -> Result<Option<&'static str>, AllocError> {
    let Ok(marked) = str::from_utf8(marked) else {
        return Ok(None);
    };
    let lower = marked.to_ascii_lowercase(alloc)?;
    nearest(alloc, lower.as_str(), words)
}

/// The longest word that one is looked for that was meant.
const LONGEST: usize = 40;

/// Returns the word that was probably meant by the one that is marked, if it should be one of a few.
pub(crate) fn meant(alloc: Global, found: &Found<'_>) -> Result<Option<&'static str>, AllocError> {
    let marked = found.mark.word;
    if marked.len() > LONGEST {
        return Ok(None);
    }
    match found.fault.reason {
        Reason::NoHeader => near_word(alloc, marked, &["cpus"]),
        Reason::BadWord if found.wanted.is_empty() => near_word(alloc, marked, &EVENTS),
        Reason::BadWord => {
            let words = words_of(alloc, found.wanted.as_slice())?;
            near_word(alloc, marked, words.as_slice())
        }
        _ => Ok(None),
    }
}
