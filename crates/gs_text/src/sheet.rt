ghost use Rattle.std.specs.Prelude.{◌≡◌, ◌+◌, ◌<◌, ◌≤◌, ◌++◌, ◌∷◌, [], decimal, length, take, vec_len, OnErr, OnOk, IfOk};
ghost use Rattle.std.specs.Bool.{OnFalse, OnTrue};
ghost use Rattle.std.specs.Str.{IsUtf8};
ghost use Rattle.gs_text.specs.Rows.{row_text};

use crate::digits::{Digits, KEPT_LEN};
use crate::forwards::{
    DIGITS, MASK_DIGITS, put, put_behind, put_between, put_digits, put_digits_between, put_first,
    put_line, put_mask_between, put_number, put_number_digits, put_texts, put_two, put_word_two,
    put_words,
};
use crate::row::Row;
use std::alloc::{AllocError, Global};
use std::marker::Model;

/// So many zeros are added at once, beside those that are wanted: as many as the text has bytes, but at least and at most so many.
const LEAST_BLOCK_LEN: usize = 32;

const BLOCK_LEN: usize = 1024;

/// Memory is taken for so many times as many bytes as are wanted, so that a long text is seldom copied. It is touched only as far as it is
/// written.
const GROWTH: usize = 4;

/// A text that grows at its end: words, and numbers behind words. What adds to it fails only if out of memory. Clauses see
/// its bytes, which are UTF-8.
#[derive(Drop)]
pub struct Sheet {
    /// The bytes of the text, and behind them zeros, or what else was written there.
    bytes: Vec<u8>,
    /// How many bytes the text has.
    len: usize,
}

impl Model for Sheet {
    ghost use Rattle.std.specs.Prelude.{List, ℕ, ◌≡◌, ◌≤◌, take, true, vec_len};
    ghost use Rattle.std.specs.Str.{is_utf8};

    ghost Value = { List ℕ };

    ghost view = { λ s. take s.len s.bytes.items };

    ghost invariant = { λ s. record {
      within : s.len ≤ vec_len s.bytes;
      utf8 : is_utf8 (take s.len s.bytes.items) ≡ true;
    } };
}

/// Adds a block of zeros, and as many more as are wanted behind so many bytes, which stay as they are.
#[cold]
#[inline(never)]
fn add_block(bytes: &mut Vec<u8>, len: usize, wanted: usize) -> Result<(), AllocError>
    requires { len ≤ vec_len bytes.old }
    ensures room { OnOk result (len + wanted ≤ vec_len bytes.new) }
    ensures within { len ≤ vec_len bytes.new }
    ensures same { take len bytes.new.items ≡ take len bytes.old.items }
{
    let Some(end) = len.checked_add(wanted) else {
        return Err(AllocError);
    };
    let more = end.clamp(LEAST_BLOCK_LEN, BLOCK_LEN);
    let Some(whole) = end.max(bytes.len()).checked_add(more) else {
        return Err(AllocError);
    };
    if bytes.capacity() < whole {
        bytes.reserve_exact(whole.saturating_mul(GROWTH) - bytes.len())?;
    }
    bytes.resize(whole, 0)
}

/// Makes room for so many bytes behind others, which stay as they are.
#[inline(always)]
fn make_room(bytes: &mut Vec<u8>, len: usize, wanted: usize) -> Result<(), AllocError>
    requires { len ≤ vec_len bytes.old }
    ensures room { OnOk result (len + wanted ≤ vec_len bytes.new) }
    ensures within { len ≤ vec_len bytes.new }
    ensures same { take len bytes.new.items ≡ take len bytes.old.items }
{
    if wanted <= bytes.len() - len {
        Ok(())
    } else {
        add_block(bytes, len, wanted)
    }
}

impl Sheet {
    /// Makes an empty text. It does not allocate.
    pub fn new(alloc: Global) -> Sheet
        ensures { result ≡ [] }
    {
        Sheet {
            bytes: Vec::new(alloc),
            len: 0,
        }
    }

    /// Makes an empty text with room for so many bytes.
    ///
    /// # Errors
    ///
    /// `AllocError` if out of memory.
    pub fn with_room(alloc: Global, room: usize) -> Result<Sheet, AllocError>
        ensures { IfOk result (λ sheet. sheet ≡ []) }
    {
        let mut sheet = Sheet::new(alloc);
        make_room(&mut sheet.bytes, sheet.len, room)?;
        Ok(sheet)
    }

    /// Lends the bytes of the text.
    pub fn as_bytes(&self) -> &[u8]
        ensures { result.now ≡ self.now }
    {
        &self.bytes[..self.len]
    }

    /// Lends the bytes of the text, as [`Sheet::as_bytes`] does, and says that they are UTF-8.
    #[inline(always)]
    pub fn utf8_bytes(&self) -> &[u8]
        ensures value { result.now ≡ self.now }
        ensures utf8 { IsUtf8 self.now }
    {
        let len = self.len;
        &self.bytes[..len]
    }

    /// Lends the text. Each call reads it all, to see that it is UTF-8.
    pub fn as_str(&self) -> &str
        ensures { result.now ≡ self.now }
    {
        str::from_utf8(&self.bytes[..self.len]).unwrap()
    }

    /// Returns the bytes of the text, to keep.
    pub fn into_bytes(self) -> Vec<u8>
        ensures { result.items ≡ self }
    {
        let Sheet { bytes, len } = self;
        let mut bytes = bytes;
        bytes.truncate(len);
        bytes
    }

    /// Takes all away. The memory is kept.
    pub fn clear(&mut self)
        ensures { self.new ≡ [] }
    {
        self.len = 0;
    }

    /// Adds bytes that are UTF-8.
    #[inline(always)]
    pub fn append(&mut self, bytes: &[u8]) -> Result<(), AllocError>
        requires { IsUtf8 bytes.now }
        ensures added { OnOk result (self.new ≡ self.old ++ bytes.now) }
        ensures kept { OnErr result (self.new ≡ self.old) }
    {
        make_room(&mut self.bytes, self.len, bytes.len())?;
        self.len = put(&mut self.bytes, self.len, bytes);
        Ok(())
    }

    /// Adds the first of these bytes, so many, which are UTF-8. It copies all of them: their number is known where it is compiled.
    #[inline(always)]
    pub fn append_first<const N: usize>(
        &mut self,
        bytes: &[u8; N],
        count: usize,
    ) -> Result<(), AllocError>
        requires few { count ≤ N }
        requires utf8 { IsUtf8 (take count bytes.now) }
        ensures added { OnOk result (self.new ≡ self.old ++ take count bytes.now) }
        ensures kept { OnErr result (self.new ≡ self.old) }
    {
        make_room(&mut self.bytes, self.len, N)?;
        self.len = put_first(&mut self.bytes, self.len, bytes, count);
        Ok(())
    }

    /// Adds words.
    #[inline(always)]
    pub fn push_str(&mut self, words: &str) -> Result<(), AllocError>
        ensures added { OnOk result (self.new ≡ self.old ++ words.now) }
        ensures kept { OnErr result (self.new ≡ self.old) }
    {
        self.append(words.as_bytes())
    }

    /// Adds words that are known where it is compiled. They are written byte by byte, without a call.
    #[inline(always)]
    pub fn push_words(&mut self, words: &str) -> Result<(), AllocError>
        ensures added { OnOk result (self.new ≡ self.old ++ words.now) }
        ensures kept { OnErr result (self.new ≡ self.old) }
    {
        make_room(&mut self.bytes, self.len, words.len())?;
        self.len = put_words(&mut self.bytes, self.len, words);
        Ok(())
    }

    /// Ends a line.
    #[inline(always)]
    pub fn end_line(&mut self) -> Result<(), AllocError>
        ensures added { OnOk result (self.new ≡ self.old ++ 10 ∷ []) }
        ensures kept { OnErr result (self.new ≡ self.old) }
    {
        self.push_words("\n")
    }

    /// Adds a number.
    #[inline(always)]
    pub fn push_decimal(&mut self, number: u64) -> Result<(), AllocError>
        ensures added { OnOk result (self.new ≡ self.old ++ decimal number) }
        ensures kept { OnErr result (self.new ≡ self.old) }
    {
        make_room(&mut self.bytes, self.len, DIGITS)?;
        self.len = put_number(&mut self.bytes, self.len, number);
        Ok(())
    }

    /// Adds words and a number behind them.
    #[inline(always)]
    pub fn push_number(&mut self, words: &str, number: u64) -> Result<(), AllocError>
        ensures added { OnOk result (self.new ≡ self.old ++ words.now ++ decimal number) }
        ensures kept { OnErr result (self.new ≡ self.old) }
    {
        make_room(&mut self.bytes, self.len, words.len() + DIGITS)?;
        self.len = put_behind(&mut self.bytes, self.len, words, number);
        Ok(())
    }

    /// Adds a number between words.
    #[inline(always)]
    pub fn push_between(&mut self, words: &str, number: u64, behind: &str) -> Result<(), AllocError>
        ensures added { OnOk result (self.new ≡ self.old ++ words.now ++ decimal number ++ behind.now) }
        ensures kept { OnErr result (self.new ≡ self.old) }
    {
        let Some(wanted) = (words.len() + DIGITS).checked_add(behind.len()) else {
            return Err(AllocError);
        };
        if wanted > self.bytes.len() - self.len {
            return self.push_between_in_more(words, number, behind);
        }
        self.len = put_between(&mut self.bytes, self.len, words, number, behind);
        Ok(())
    }

    /// Adds a number between words, and makes room for them before.
    #[cold]
    #[inline(never)]
    fn push_between_in_more(
        &mut self,
        words: &str,
        number: u64,
        behind: &str,
    ) -> Result<(), AllocError>
        ensures added { OnOk result (self.new ≡ self.old ++ words.now ++ decimal number ++ behind.now) }
        ensures kept { OnErr result (self.new ≡ self.old) }
    {
        let Some(wanted) = (words.len() + DIGITS).checked_add(behind.len()) else {
            return Err(AllocError);
        };
        make_room(&mut self.bytes, self.len, wanted)?;
        let end = put_between(&mut self.bytes, self.len, words, number, behind);
        self.len = end;
        Ok(())
    }

    /// Adds a mask between words.
    #[inline(always)]
    pub fn push_mask(&mut self, words: &str, mask: u128, behind: &str) -> Result<(), AllocError>
        ensures added { OnOk result (self.new ≡ self.old ++ words.now ++ decimal mask ++ behind.now) }
        ensures kept { OnErr result (self.new ≡ self.old) }
    {
        let Some(wanted) = (words.len() + MASK_DIGITS).checked_add(behind.len()) else {
            return Err(AllocError);
        };
        make_room(&mut self.bytes, self.len, wanted)?;
        self.len = put_mask_between(&mut self.bytes, self.len, words, mask, behind);
        Ok(())
    }

    /// Adds words, a number, words and a number.
    #[inline(always)]
    pub fn push_two(
        &mut self,
        words: &str,
        first: u64,
        between: &str,
        second: u64,
    ) -> Result<(), AllocError>
        ensures added { OnOk result (self.new ≡ self.old ++ words.now ++ decimal first ++ between.now ++ decimal second) }
        ensures kept { OnErr result (self.new ≡ self.old) }
    {
        let Some(wanted) = (words.len() + DIGITS).checked_add(between.len() + DIGITS) else {
            return Err(AllocError);
        };
        make_room(&mut self.bytes, self.len, wanted)?;
        self.len = put_two(&mut self.bytes, self.len, words, first, between, second);
        Ok(())
    }

    /// Adds a word, and behind it a number, another one and words, with words before each number.
    #[inline(always)]
    pub fn push_word_two(
        &mut self,
        word: &str,
        words: &str,
        first: u64,
        between: &str,
        second: u64,
        behind: &str,
    ) -> Result<(), AllocError>
        ensures added { OnOk result (self.new ≡ self.old ++ word.now ++ words.now ++ decimal first ++ between.now ++ decimal second ++ behind.now) }
        ensures kept { OnErr result (self.new ≡ self.old) }
    {
        let Some(numbers) = (words.len() + DIGITS).checked_add(between.len() + DIGITS) else {
            return Err(AllocError);
        };
        let Some(front) = word.len().checked_add(behind.len()) else {
            return Err(AllocError);
        };
        let Some(wanted) = numbers.checked_add(front) else {
            return Err(AllocError);
        };
        make_room(&mut self.bytes, self.len, wanted)?;
        self.len = put_word_two(
            &mut self.bytes,
            self.len,
            word,
            words,
            first,
            between,
            second,
            behind,
        );
        Ok(())
    }

    /// Adds words, and a number behind them whose digits are kept.
    #[inline(always)]
    pub fn push_digits(&mut self, words: &str, digits: &Digits) -> Result<(), AllocError>
        ensures added { OnOk result (self.new ≡ self.old ++ words.now ++ decimal digits.now) }
        ensures kept { OnErr result (self.new ≡ self.old) }
    {
        make_room(&mut self.bytes, self.len, words.len() + KEPT_LEN)?;
        self.len = put_digits(&mut self.bytes, self.len, words, digits);
        Ok(())
    }

    /// Adds a number whose digits are kept between words.
    #[inline(always)]
    pub fn push_digits_between(
        &mut self,
        words: &str,
        digits: &Digits,
        behind: &str,
    ) -> Result<(), AllocError>
        ensures added { OnOk result (self.new ≡ self.old ++ words.now ++ decimal digits.now ++ behind.now) }
        ensures kept { OnErr result (self.new ≡ self.old) }
    {
        let Some(wanted) = (words.len() + KEPT_LEN).checked_add(behind.len()) else {
            return Err(AllocError);
        };
        make_room(&mut self.bytes, self.len, wanted)?;
        self.len = put_digits_between(&mut self.bytes, self.len, words, digits, behind);
        Ok(())
    }

    /// Adds words, a number whose digits are kept, words, a few bytes that are UTF-8, and words.
    #[inline(always)]
    pub fn push_line(
        &mut self,
        words: &str,
        digits: &Digits,
        between: &str,
        line: &[u8],
        behind: &str,
    ) -> Result<(), AllocError>
        requires { IsUtf8 line.now }
        ensures added { OnOk result (self.new ≡ self.old ++ words.now ++ decimal digits.now ++ between.now ++ line.now ++ behind.now) }
        ensures kept { OnErr result (self.new ≡ self.old) }
    {
        let Some(front) = (words.len() + KEPT_LEN).checked_add(between.len()) else {
            return Err(AllocError);
        };
        let Some(back) = line.len().checked_add(behind.len()) else {
            return Err(AllocError);
        };
        let Some(wanted) = front.checked_add(back) else {
            return Err(AllocError);
        };
        make_room(&mut self.bytes, self.len, wanted)?;
        self.len = put_line(
            &mut self.bytes,
            self.len,
            words,
            digits,
            between,
            line,
            behind,
        );
        Ok(())
    }

    /// Adds a row, of which all bytes are UTF-8, if the text has room for it without new memory. Returns whether it did: if not, nothing is
    /// added. No clause says when there is room, so whoever calls it has another way to write the same.
    #[inline(always)]
    pub fn fit_row(&mut self, row: Row<'_>) -> bool
        requires digit { row.digit.1 < 10 }
        requires few { IsUtf8 row.few.1.now }
        requires line { IsUtf8 row.line.1.now }
        requires rest { IsUtf8 row.rest.1.now }
        ensures added { OnTrue result (self.new ≡ self.old ++ row_text row.entry) }
        ensures kept { OnFalse result (self.new ≡ self.old) }
    {
        let room = self.bytes.len() - self.len;
        match row.room() {
            Some(wanted) if wanted <= room => {
                self.len = row.put(&mut self.bytes, self.len);
                true
            }
            _ => false,
        }
    }

    /// Adds words, a few bytes, words, any bytes and words, with one look whether there is room. All bytes are UTF-8.
    #[inline(always)]
    pub fn push_texts(
        &mut self,
        words: &str,
        few: &[u8],
        between: &str,
        more: &[u8],
        behind: &str,
    ) -> Result<(), AllocError>
        requires few { IsUtf8 few.now }
        requires more { IsUtf8 more.now }
        ensures added { OnOk result (self.new ≡ self.old ++ words.now ++ few.now ++ between.now ++ more.now ++ behind.now) }
        ensures kept { OnErr result (self.new ≡ self.old) }
    {
        let Some(front) = words.len().checked_add(between.len()) else {
            return Err(AllocError);
        };
        let Some(known) = front.checked_add(behind.len()) else {
            return Err(AllocError);
        };
        let Some(wanted) = known.checked_add(few.len() + more.len()) else {
            return Err(AllocError);
        };
        make_room(&mut self.bytes, self.len, wanted)?;
        self.len = put_texts(&mut self.bytes, self.len, words, few, between, more, behind);
        Ok(())
    }

    /// Adds words, a number, words and a number whose digits are kept.
    #[inline(always)]
    pub fn push_number_digits(
        &mut self,
        words: &str,
        number: u64,
        between: &str,
        digits: &Digits,
    ) -> Result<(), AllocError>
        ensures added { OnOk result (self.new ≡ self.old ++ words.now ++ decimal number ++ between.now ++ decimal digits.now) }
        ensures kept { OnErr result (self.new ≡ self.old) }
    {
        let Some(wanted) = (words.len() + DIGITS).checked_add(between.len() + KEPT_LEN) else {
            return Err(AllocError);
        };
        make_room(&mut self.bytes, self.len, wanted)?;
        self.len = put_number_digits(&mut self.bytes, self.len, words, number, between, digits);
        Ok(())
    }

    /// Returns how many bytes the text has.
    pub fn len(&self) -> usize
        ensures { result ≡ length self.now }
    {
        self.len
    }
}
