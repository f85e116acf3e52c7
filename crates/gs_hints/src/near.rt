ghost use Rattle.std.specs.Prelude.{ℕ, ◌≡◌, ◌∷◌, [], ◌++◌, IfOk, nat_le, List};
ghost use denote.Ref.{Bor};
ghost use Rattle.gs_hints.specs.Nearest.{IsBest, IsNearest, distance, most_edits};

use std::alloc::{AllocError, Global};
use strsim::osa_distance;

/// A word of several, and how far it is from the one that was written.
#[derive(Clone, Copy)]
struct Candidate<'a> {
    word: &'a str,
    edits: usize,
}

/// Returns whether a word that is so many edits away was probably meant.
fn is_few(word: &str, edits: usize) -> bool
    ensures { result ≡ nat_le edits (most_edits word.now) }
{
    edits <= word.len().max(3) / 3
}

/// Returns the better of two words, the first if they are as near.
#[tactic(auto, using(crate::proofs::Better::passed_over, crate::proofs::Better::as_near, crate::proofs::Better::nearer, crate::proofs::Better::first_near))]
fn better<'a>(
    word: &str,
    best: Option<Candidate<'a>>,
    other: Candidate<'a>,
) -> Option<Candidate<'a>>
    ensures { (words : List (Bor (List ℕ))) → other.entry.edits ≡ distance word.now other.entry.word.now → IsBest word.now words best.entry → IsBest word.now (words ++ other.entry.word ∷ []) result }
{
    if !is_few(word, other.edits) {
        return best;
    }
    match best {
        Some(first) if first.edits <= other.edits => Some(first),
        _ => Some(other),
    }
}

/// Returns the word of these that was probably meant by the one that was written: the nearest, and the first of
/// several. It is `None` if each is more than one edit in three bytes away, or more than one in all.
///
/// An edit is a character more, fewer or another, or two neighbours exchanged. It fails only if out of memory.
pub fn nearest<'a>(
    alloc: Global,
    word: &str,
    others: &[&'a str],
) -> Result<Option<&'a str>, AllocError>
    ensures { IfOk result (IsNearest word.now others.now) }
{
    let mut best: Option<Candidate<'a>> = None;
    for other in others {
        let edits = osa_distance(alloc, word, other)?;
        best = better(word, best, Candidate { word: other, edits });
    }
    match best {
        Some(found) => Ok(Some(found.word)),
        None => Ok(None),
    }
}
