//! A word of a line, with what stands before and behind it.

ghost use Rattle.std.specs.Prelude.{◌≡◌, ◌≢◌, ◌+◌, ◌≤◌, ◌<◌, ◌==◌, true, false, length, take, slice_index};
ghost use Rattle.std.specs.List.{list_all};
ghost use Rattle.gs_script.specs.Words.{is_text};
ghost use Rattle.gs_script.specs.Found.{IsCut, Marks, MarksByte, has_none};

/// The parts of a line, one behind another.
#[derive(Clone, Copy)]
pub struct Marked<'a> {
    pub front: &'a [u8],
    /// What is marked.
    pub word: &'a [u8],
    pub behind: &'a [u8],
}

/// Returns how many spaces a text begins with.
fn spaces(text: &[u8]) -> usize
    ensures within { result ≤ length text.now }
    ensures spaces { list_all (λ b. b == 32) (take result text.now) ≡ true }
    ensures ended { result < length text.now → slice_index text.now result ≢ 32 }
{
    let mut count = 0;
    while count < text.len() && text[count] == b' ' {
        count += 1;
    }
    count
}

/// Returns how many bytes a text begins with before its first space.
fn letters(text: &[u8]) -> usize
    ensures within { result ≤ length text.now }
    ensures letters { has_none 32 (take result text.now) ≡ true }
    ensures ended { result < length text.now → slice_index text.now result ≡ 32 }
{
    let mut count = 0;
    while count < text.len() && text[count] != b' ' {
        count += 1;
    }
    count
}

/// Returns the parts of a line before so many bytes from `start` on, those bytes, and what is behind them.
fn cut(line: &[u8], start: usize, count: usize) -> Marked<'_>
    requires { start + count ≤ length line.now }
    ensures { IsCut line.now start count result }
{
    let (front, rest) = line.split_at(start);
    let (word, behind) = rest.split_at(count);
    Marked {
        front,
        word,
        behind,
    }
}

/// Returns the parts of a line, in which the word at a place is marked, counted from 0. If there is none, nothing
/// behind the last word is.
pub(crate) fn word_at(line: &[u8], place: usize) -> Marked<'_>
    ensures { Marks line.now place result }
{
    let mut before = 0;
    let mut end = 0;
    let mut start = spaces(line);
    while before < place && start < line.len() {
        end = start + letters(line.split_at(start).1);
        start = end + spaces(line.split_at(end).1);
        before += 1;
    }
    if start >= line.len() {
        return cut(line, end, 0);
    }
    cut(line, start, letters(line.split_at(start).1))
}

/// Returns the parts of a line, in which the first byte is marked that may not stand in one.
pub(crate) fn bad_byte(line: &[u8]) -> Marked<'_>
    requires { is_text line.now ≡ false }
    ensures { MarksByte line.now result }
{
    let mut count = 0;
    while count < line.len() && 32 <= line[count] && line[count] <= 126 {
        count += 1;
    }
    cut(line, count, 1)
}
