//! A text that is put together from its end.

ghost use Rattle.std.specs.Prelude.{◌≡◌, ◌+◌, ◌-◌, ◌≤◌, ◌++◌, [], decimal, drop, length};
ghost use Rattle.std.specs.Str.{IsUtf8};

use crate::backwards::{put, put_mask, put_number, put_text};
use std::marker::Model;

/// The most bytes of a [`Sentence`].
pub const SENTENCE_LEN: usize = 640;

/// The most bytes of the sentence of a reason.
pub const MOST_REASON_LEN: usize = 632;

/// The most digits of a mask.
const MOST_MASK_LEN: usize = 39;

/// A text that is put together in an array from its end: what is put stands in front of what was there. Clauses see its
/// bytes, which are UTF-8.
#[derive(Drop)]
pub struct Sentence {
    bytes: [u8; SENTENCE_LEN],
    start: usize,
    /// The long mask that was put last. Its digits are kept, since each takes a division, and the same is often put again.
    mask: u128,
    /// The digits of that mask, at the end.
    digits: [u8; MOST_MASK_LEN],
    /// Where the digits begin.
    first: usize,
}

impl Model for Sentence {
    ghost use Rattle.std.specs.Prelude.{List, ℕ, ◌≡◌, ◌≤◌, decimal, drop};
    ghost use Rattle.std.specs.Str.{IsUtf8};

    ghost Value = { List ℕ };

    ghost view = { λ s. drop s.start s.bytes };

    ghost invariant = { λ s. record {
      within : s.start ≤ 640;
      utf8 : IsUtf8 (drop s.start s.bytes);
      first : s.first ≤ 39;
      digits : drop s.first s.digits ≡ decimal s.mask;
    } };
}

/// Writes bytes from a place on so that they end here, and returns where they begin.
#[inline(always)]
fn put_from(array: &mut [u8], end: usize, bytes: &[u8], from: usize) -> usize
    requires within { from ≤ length bytes.now }
    requires room { (length (drop from bytes.now) ≤ end) × (end ≤ length array.old) }
    ensures start { result + length (drop from bytes.now) ≡ end }
    ensures written { drop result array.new ≡ drop from bytes.now ++ drop end array.old }
    ensures size { length array.new ≡ length array.old }
{
    let start = end - (bytes.len() - from);
    array[start..end].copy_from_slice(&bytes[from..]);
    start
}

/// Writes the digits of a mask at the end of an array that has there, from a place on, those of a mask that was kept.
/// Returns where they begin.
#[inline(always)]
fn put_digits(digits: &mut [u8], first: usize, kept: u128, mask: u128) -> usize
    requires size { length digits.old ≡ MOST_MASK_LEN }
    requires first { first ≤ MOST_MASK_LEN }
    requires kept { drop first digits.old ≡ decimal kept }
    ensures first { result ≤ MOST_MASK_LEN }
    ensures value { drop result digits.new ≡ decimal mask }
    ensures size { length digits.new ≡ MOST_MASK_LEN }
{
    if kept == mask {
        return first;
    }
    put_mask(digits, MOST_MASK_LEN, mask)
}

impl Sentence {
    /// Makes an empty one.
    #[inline(always)]
    pub fn new() -> Sentence
        ensures { result ≡ [] }
    {
        Sentence {
            bytes: [0; SENTENCE_LEN],
            start: SENTENCE_LEN,
            mask: 0,
            digits: [b'0'; MOST_MASK_LEN],
            first: MOST_MASK_LEN - 1,
        }
    }

    /// Makes it empty again.
    #[inline(always)]
    pub fn clear(&mut self)
        ensures { self.new ≡ [] }
    {
        self.start = SENTENCE_LEN;
    }

    /// Keeps only its last bytes, so many.
    #[inline(always)]
    pub fn keep_last(&mut self, len: usize)
        requires within { len ≤ length self.old }
        requires utf8 { IsUtf8 (drop (length self.old - len) self.old) }
        ensures { self.new ≡ drop (length self.old - len) self.old }
    {
        self.start = SENTENCE_LEN.saturating_sub(len);
    }

    /// Returns how many bytes it has.
    #[inline(always)]
    pub fn len(&self) -> usize
        ensures value { result ≡ length self.now }
        ensures utf8 { IsUtf8 self.now }
    {
        SENTENCE_LEN - self.start
    }

    /// Lends its bytes.
    #[inline(always)]
    pub fn as_bytes(&self) -> &[u8]
        ensures value { result.now ≡ self.now }
        ensures utf8 { IsUtf8 result.now }
    {
        &self.bytes[self.start..]
    }

    /// Lends it as text. Each call reads it all, to see that it is UTF-8.
    pub fn as_str(&self) -> &str
        ensures { result.now ≡ self.now }
    {
        str::from_utf8(self.as_bytes()).unwrap()
    }

    /// Puts a word in front.
    #[inline(always)]
    pub fn put(&mut self, word: &str)
        requires { length word.now + length self.old ≤ SENTENCE_LEN }
        ensures { self.new ≡ word.now ++ self.old }
    {
        self.start = put(&mut self.bytes, self.start, word);
    }

    /// Puts bytes in front that are UTF-8.
    #[inline(always)]
    pub fn put_bytes(&mut self, bytes: &[u8])
        requires room { length bytes.now + length self.old ≤ SENTENCE_LEN }
        requires utf8 { IsUtf8 bytes.now }
        ensures { self.new ≡ bytes.now ++ self.old }
    {
        self.start = put_text(&mut self.bytes, self.start, bytes);
    }

    /// Puts a number in front.
    #[inline(always)]
    pub fn put_number(&mut self, number: u64)
        requires { length self.old + 20 ≤ SENTENCE_LEN }
        ensures value { self.new ≡ decimal number ++ self.old }
        ensures short { length self.new ≤ length self.old + 20 }
    {
        self.start = put_number(&mut self.bytes, self.start, number);
    }

    /// Puts a mask in front.
    #[inline(never)]
    pub(crate) fn put_mask(&mut self, mask: u128)
        requires { length self.old + 39 ≤ SENTENCE_LEN }
        ensures value { self.new ≡ decimal mask ++ self.old }
        ensures short { length self.new ≤ length self.old + 39 }
    {
        match u64::try_from(mask) {
            Ok(number) => self.put_number(number),
            Err(_) => self.put_long_mask(mask),
        }
    }

    /// Puts a mask in front, also one of more than 64 bits.
    fn put_long_mask(&mut self, mask: u128)
        requires { length self.old + 39 ≤ SENTENCE_LEN }
        ensures value { self.new ≡ decimal mask ++ self.old }
        ensures short { length self.new ≤ length self.old + 39 }
    {
        self.first = put_digits(&mut self.digits, self.first, self.mask, mask);
        self.mask = mask;
        self.start = put_from(&mut self.bytes, self.start, &self.digits, self.first);
    }
}
