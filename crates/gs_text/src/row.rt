//! Rows, of which all parts are written at once.

ghost use Rattle.std.specs.Prelude.{◌≡◌, ◌+◌, ◌<◌, ◌≤◌, ◌++◌, IfSome, length, take};
ghost use Rattle.std.specs.Str.{IsUtf8};
ghost use Rattle.gs_text.specs.Rows.{row_room, row_text};

use crate::digits::{Digits, KEPT_LEN};
use crate::forwards::{put_digit, put_digits, put_few_behind, put_texts};

/// A row of a text: words, and behind each of them a digit, a number whose digits are kept, or bytes. They stand in this order, and
/// words at the end.
#[derive(Clone, Copy)]
pub struct Row<'a> {
    /// Words, and a digit from 0 to 9.
    pub digit: (&'a str, u8),
    /// Words, and a number.
    pub first: (&'a str, &'a Digits),
    /// Words, and another number.
    pub second: (&'a str, &'a Digits),
    /// Words, and any bytes that are UTF-8. Four to 32 are copied without a call.
    pub few: (&'a str, &'a [u8]),
    /// Words, and such bytes once more.
    pub line: (&'a str, &'a [u8]),
    /// Words, and any bytes that are UTF-8. They are copied by a call, if there are some.
    pub rest: (&'a str, &'a [u8]),
    /// The words at the end.
    pub end: &'a str,
}

impl Row<'_> {
    /// Returns how many bytes it may have, or `None` if they are too many to count.
    #[inline(always)]
    pub(crate) fn room(self) -> Option<usize>
        ensures { IfSome result (λ room. room ≡ row_room self.entry) }
    {
        let front = self.digit.0.len() + self.first.0.len();
        let middle = self.second.0.len() + self.few.0.len();
        let back = self.line.0.len() + self.rest.0.len();
        let end = self.end.len() + 1 + 2 * KEPT_LEN;
        let texts = self.few.1.len() + self.rest.1.len();
        front
            .checked_add(middle)?
            .checked_add(back)?
            .checked_add(end)?
            .checked_add(texts)?
            .checked_add(self.line.1.len())
    }

    /// Writes it, and returns the place behind it.
    #[inline(always)]
    pub(crate) fn put(self, bytes: &mut [u8], at: usize) -> usize
        requires digit { self.digit.1 < 10 }
        requires room { at + row_room self ≤ length bytes.old }
        ensures end { result ≤ at + row_room self.entry }
        ensures written { take result bytes.new ≡ take at bytes.old ++ row_text self.entry }
        ensures utf8 { IsUtf8 self.entry.few.1.now → IsUtf8 self.entry.line.1.now → IsUtf8 self.entry.rest.1.now → IsUtf8 (take at bytes.old) → IsUtf8 (take result bytes.new) }
    {
        let first = put_digit(bytes, at, self.digit.0, self.digit.1);
        let second = put_digits(bytes, first, self.first.0, self.first.1);
        let few = put_digits(bytes, second, self.second.0, self.second.1);
        let line = put_few_behind(bytes, few, self.few.0, self.few.1);
        put_texts(
            bytes,
            line,
            self.line.0,
            self.line.1,
            self.rest.0,
            self.rest.1,
            self.end,
        )
    }
}
