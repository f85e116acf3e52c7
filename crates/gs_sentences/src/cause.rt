ghost use Rattle.std.specs.Prelude.{◌≡◌, ◌≤◌, ◌+◌, ◌++◌, length};
ghost use Rattle.gs_sentences.specs.Given.{causes_given, entry_in};
ghost use Rattle.gs_sentences.specs.Shared.{at_text, on_text, since_text};
ghost use Rattle.gs_sentences.specs.Words.{said};

use crate::sentence::{SENTENCE_LEN, Sentence};
use crate::words::{Words, put_numbered, put_words};
use gs_journal::{Entry, Journal};

/// An entry of the journal that is a reason, and where it is from. The entry itself is read only for a sentence that tells
/// what it says.
#[derive(Clone, Copy)]
pub struct Cause<'a> {
    /// The script's line whose event added it, counted from 1 over all lines.
    pub line: usize,
    /// Its place in the journal, counted from 0.
    pub place: usize,
    /// The journal that has it.
    pub journal: &'a Journal,
}

impl<'a> Cause<'a> {
    /// Returns the entry.
    #[inline(always)]
    pub fn entry(&self) -> Entry
        ensures { result ≡ entry_in self.now.journal.now.entries self.now.place }
    {
        if self.place < self.journal.len() {
            self.journal.entry(self.place)
        } else {
            Entry::Left
        }
    }
}

/// Puts a script's line, and the place of the entry that it added.
#[inline(always)]
pub(crate) fn put_line(to: &mut Sentence, line: usize, place: usize)
    requires { length to.old + 168 ≤ SENTENCE_LEN }
    ensures value { to.new ≡ at_text line place ++ to.old }
    ensures short { length to.new ≤ length to.old + 168 }
{
    put_words(to, Words::Close);
    put_numbered(to, Words::Entry, place as u64);
    to.put_number(line as u64);
}

/// Puts words, and behind them the line and the place.
#[inline(always)]
pub(crate) fn put_place(to: &mut Sentence, words: Words, line: usize, place: usize)
    requires { length to.old + 232 ≤ SENTENCE_LEN }
    ensures value { to.new ≡ said words ++ at_text line place ++ to.old }
    ensures short { length to.new ≤ length to.old + 232 }
{
    put_line(to, line, place);
    put_words(to, words);
}

/// Puts since when something is so, if an entry made it so.
pub(crate) fn put_since(to: &mut Sentence, cause: &Option<Cause<'_>>)
    requires { length to.old + 232 ≤ SENTENCE_LEN }
    ensures value { to.new ≡ since_text (causes_given cause.now) ++ to.old }
    ensures short { length to.new ≤ length to.old + 232 }
{
    match cause {
        Some(cause) => put_place(to, Words::SinceLine, cause.line, cause.place),
        None => {}
    }
}

/// Puts when something happened, if an entry tells of it.
pub(crate) fn put_on(to: &mut Sentence, cause: &Option<Cause<'_>>)
    requires { length to.old + 232 ≤ SENTENCE_LEN }
    ensures value { to.new ≡ on_text (causes_given cause.now) ++ to.old }
    ensures short { length to.new ≤ length to.old + 232 }
{
    match cause {
        Some(cause) => put_place(to, Words::OnLine, cause.line, cause.place),
        None => {}
    }
}
