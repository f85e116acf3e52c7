//! Words and numbers, written into bytes from a place on.

ghost use Rattle.std.specs.Prelude.{◌≡◌, ◌+◌, ◌-◌, ◌*◌, ◌/◌, ◌^◌, ◌<◌, ◌≤◌, ◌++◌, decimal, drop, length, take};
ghost use Rattle.std.specs.Str.{IsUtf8};

use crate::digits::{Digits, KEPT_LEN};
use itoa::{Buffer, write_digits};
use std::simd::Simd;

/// The most digits that a number of 64 bits has.
pub(crate) const DIGITS: usize = 20;

/// The most digits that a mask has.
pub(crate) const MASK_DIGITS: usize = 39;

/// How many of the last digits of a long mask are written at once.
const TAIL_DIGITS: usize = 18;

/// A number below this has at most so many digits.
const TAIL_LIMIT: u64 = 1_000_000_000_000_000_000;

/// Where the digits in front of the last ones of a mask end.
const UPPER_END: usize = MASK_DIGITS - TAIL_DIGITS;

/// A number that is not below this has more than eight digits.
const LONG: u64 = 100_000_000;

/// Writes more bytes, and returns the place behind them.
#[inline(always)]
pub(crate) fn put(bytes: &mut [u8], at: usize, more: &[u8]) -> usize
    requires { at + length more.now ≤ length bytes.old }
    ensures end { result ≡ at + length more.now }
    ensures written { take result bytes.new ≡ take at bytes.old ++ more.now }
    ensures utf8 { IsUtf8 more.now → IsUtf8 (take at bytes.old) → IsUtf8 (take result bytes.new) }
{
    let end = at + more.len();
    bytes[at..end].copy_from_slice(more);
    end
}

/// Writes more bytes, of which the first count, so many, and returns the place behind these.
#[inline(always)]
pub(crate) fn put_first(bytes: &mut [u8], at: usize, more: &[u8], count: usize) -> usize
    requires room { at + length more.now ≤ length bytes.old }
    requires few { count ≤ length more.now }
    ensures end { result ≡ at + count }
    ensures written { take result bytes.new ≡ take at bytes.old ++ take count more.now }
    ensures utf8 { IsUtf8 (take count more.now) → IsUtf8 (take at bytes.old) → IsUtf8 (take result bytes.new) }
{
    put(bytes, at, more);
    at + count
}

/// Writes the first of some bytes, as many as are known where it is compiled: by one load and one store. Returns the place behind them.
#[inline(always)]
pub(crate) fn put_front<const N: usize>(bytes: &mut [u8], at: usize, more: &[u8]) -> usize
    requires many { N ≤ length more.now }
    requires room { at + N ≤ length bytes.old }
    ensures end { result ≡ at + N }
    ensures written { take result bytes.new ≡ take at bytes.old ++ take N more.now }
{
    Simd::<u8, N>::from_slice(more).copy_to_slice(&mut bytes[at..]);
    at + N
}

/// Writes bytes, at most twice as many as are known, as their first and their last ones, and returns the place behind them.
#[inline(always)]
#[tactic(auto, using(crate::proofs::Grown::ends_put))]
pub(crate) fn put_ends<const N: usize>(bytes: &mut [u8], at: usize, more: &[u8]) -> usize
    requires room { at + length more.now ≤ length bytes.old }
    requires many { N ≤ length more.now }
    requires few { length more.now ≤ N + N }
    ensures end { result ≡ at + length more.now }
    ensures written { take result bytes.new ≡ take at bytes.old ++ more.now }
    ensures utf8 { IsUtf8 more.now → IsUtf8 (take at bytes.old) → IsUtf8 (take result bytes.new) }
{
    let last = more.len() - N;
    put_front::<N>(bytes, at, more);
    put_front::<N>(bytes, at + last, &more[last..])
}

/// Writes a few bytes, and returns the place behind them. Four to 32 are copied as two pieces of a known length, which takes no call.
#[inline(always)]
pub(crate) fn put_few(bytes: &mut [u8], at: usize, more: &[u8]) -> usize
    requires { at + length more.now ≤ length bytes.old }
    ensures end { result ≡ at + length more.now }
    ensures written { take result bytes.new ≡ take at bytes.old ++ more.now }
    ensures utf8 { IsUtf8 more.now → IsUtf8 (take at bytes.old) → IsUtf8 (take result bytes.new) }
{
    match more.len() {
        8..=16 => put_ends::<8>(bytes, at, more),
        17..=32 => put_ends::<16>(bytes, at, more),
        4..8 => put_ends::<4>(bytes, at, more),
        _ => put(bytes, at, more),
    }
}

/// Writes words that are known where it is compiled, and returns the place behind them. Byte by byte it takes no look whether the words
/// overlap with what is written, and the compiler puts the bytes together.
#[inline(always)]
pub(crate) fn put_words(bytes: &mut [u8], at: usize, words: &str) -> usize
    requires { at + length words.now ≤ length bytes.old }
    ensures end { result ≡ at + length words.now }
    ensures written { take result bytes.new ≡ take at bytes.old ++ words.now }
    ensures utf8 { IsUtf8 (take at bytes.old) → IsUtf8 (take result bytes.new) }
{
    let more = words.as_bytes();
    let mut n = 0;
    while n < more.len() {
        bytes[at + n] = more[n];
        n += 1;
    }
    at + n
}

/// Returns how many digits a number has that is below 10,000.
#[inline(always)]
fn short_count(number: u64) -> usize
    requires { number < 10_000 }
    ensures { result ≡ length (decimal number) }
{
    match number {
        0..10 => 1,
        10..100 => 2,
        100..1_000 => 3,
        _ => 4,
    }
}

/// Returns how many digits a number has that has at most eight.
#[inline(always)]
fn digit_count(number: u64) -> usize
    requires { number < LONG }
    ensures { result ≡ length (decimal number) }
{
    match number {
        0..10_000 => short_count(number),
        10_000..100_000 => 5,
        100_000..1_000_000 => 6,
        1_000_000..10_000_000 => 7,
        _ => 8,
    }
}

/// Writes any number, and returns the place behind it.
#[cold]
#[inline(never)]
fn put_long(bytes: &mut [u8], at: usize, number: u64) -> usize
    requires { at + DIGITS ≤ length bytes.old }
    ensures end { result ≤ at + DIGITS }
    ensures written { take result bytes.new ≡ take at bytes.old ++ decimal number }
    ensures utf8 { IsUtf8 (take at bytes.old) → IsUtf8 (take result bytes.new) }
{
    let mut buffer = Buffer::new();
    put(bytes, at, buffer.format(number).as_bytes())
}

/// Writes a number, for which there is room whatever it is, and returns the place behind it.
#[inline(always)]
pub(crate) fn put_number(bytes: &mut [u8], at: usize, number: u64) -> usize
    requires { at + DIGITS ≤ length bytes.old }
    ensures end { result ≤ at + DIGITS }
    ensures written { take result bytes.new ≡ take at bytes.old ++ decimal number }
    ensures utf8 { IsUtf8 (take at bytes.old) → IsUtf8 (take result bytes.new) }
{
    if number < 10 {
        return put_digit(bytes, at, "", number as u8);
    }
    if number >= LONG {
        return put_long(bytes, at, number);
    }
    let end = at + digit_count(number);
    write_digits(number, bytes, end);
    end
}

/// Writes words and a number, for which there is room whatever it is, and returns the place behind them.
#[inline(always)]
pub(crate) fn put_behind(bytes: &mut [u8], at: usize, words: &str, number: u64) -> usize
    requires { at + length words.now + DIGITS ≤ length bytes.old }
    ensures end { result ≤ at + length words.now + DIGITS }
    ensures written { take result bytes.new ≡ take at bytes.old ++ words.now ++ decimal number }
    ensures utf8 { IsUtf8 (take at bytes.old) → IsUtf8 (take result bytes.new) }
{
    let behind = put_words(bytes, at, words);
    put_number(bytes, behind, number)
}

/// Writes words, a number and words, for which there is room whatever it is, and returns the place behind them.
#[inline(always)]
pub(crate) fn put_between(
    bytes: &mut [u8],
    at: usize,
    words: &str,
    number: u64,
    behind: &str,
) -> usize
    requires { at + length words.now + DIGITS + length behind.now ≤ length bytes.old }
    ensures end { result ≤ at + length words.now + DIGITS + length behind.now }
    ensures written { take result bytes.new ≡ take at bytes.old ++ words.now ++ decimal number ++ behind.now }
    ensures utf8 { IsUtf8 (take at bytes.old) → IsUtf8 (take result bytes.new) }
{
    let end = put_behind(bytes, at, words, number);
    put_words(bytes, end, behind)
}

/// Writes words, a number, words and a number, for which there is room whatever they are, and returns the place behind them.
#[inline(always)]
pub(crate) fn put_two(
    bytes: &mut [u8],
    at: usize,
    words: &str,
    first: u64,
    between: &str,
    second: u64,
) -> usize
    requires { at + length words.now + length between.now + 2 * DIGITS ≤ length bytes.old }
    ensures end { result ≤ at + length words.now + length between.now + 2 * DIGITS }
    ensures written { take result bytes.new ≡ take at bytes.old ++ words.now ++ decimal first ++ between.now ++ decimal second }
    ensures utf8 { IsUtf8 (take at bytes.old) → IsUtf8 (take result bytes.new) }
{
    let behind = put_behind(bytes, at, words, first);
    put_behind(bytes, behind, between, second)
}

/// Writes a mask, for which there is room whatever it is, and returns the place behind it. One of 64 bits is written as a number.
#[inline(always)]
pub(crate) fn put_mask(bytes: &mut [u8], at: usize, mask: u128) -> usize
    requires { at + MASK_DIGITS ≤ length bytes.old }
    ensures end { result ≤ at + MASK_DIGITS }
    ensures written { take result bytes.new ≡ take at bytes.old ++ decimal mask }
    ensures utf8 { IsUtf8 (take at bytes.old) → IsUtf8 (take result bytes.new) }
{
    match u64::try_from(mask) {
        Ok(number) => put_number(bytes, at, number),
        Err(_) => put_long_mask(bytes, at, mask),
    }
}

/// Writes the last 18 digits of a number that has more, with all their zeros, so that they end at a place. Returns the number in front
/// of them. The byte before them changes too.
#[inline(always)]
fn write_tail(number: u128, buffer: &mut [u8], end: usize) -> u128
    requires long { TAIL_LIMIT ≤ number }
    requires room { TAIL_DIGITS < end }
    requires within { end ≤ length buffer.old }
    ensures front { result ≡ number / TAIL_LIMIT }
    ensures written { decimal result ++ drop (end - TAIL_DIGITS) buffer.new ≡ decimal number ++ drop end buffer.old }
{
    let limit = TAIL_LIMIT as u128;
    let front = number / limit;
    let tail = (number - front * limit) as u64;
    write_digits(TAIL_LIMIT + tail, buffer, end);
    front
}

/// Writes a mask of more than 64 bits, and returns the place behind it.
#[inline(never)]
fn put_long_mask(bytes: &mut [u8], at: usize, mask: u128) -> usize
    requires long { 2 ^ 64 ≤ mask }
    requires room { at + MASK_DIGITS ≤ length bytes.old }
    ensures end { result ≤ at + MASK_DIGITS }
    ensures written { take result bytes.new ≡ take at bytes.old ++ decimal mask }
    ensures utf8 { IsUtf8 (take at bytes.old) → IsUtf8 (take result bytes.new) }
{
    let mut buffer = [0; MASK_DIGITS];
    let upper = write_tail(mask, &mut buffer, MASK_DIGITS);
    let start = match u64::try_from(upper) {
        Ok(number) => write_digits(number, &mut buffer, UPPER_END),
        Err(_) => {
            let top = write_tail(upper, &mut buffer, UPPER_END);
            write_digits(top as u64, &mut buffer, UPPER_END - TAIL_DIGITS)
        }
    };
    put(bytes, at, &buffer[start..])
}

/// Writes words, a mask and words, for which there is room whatever it is, and returns the place behind them.
#[inline(always)]
pub(crate) fn put_mask_between(
    bytes: &mut [u8],
    at: usize,
    words: &str,
    mask: u128,
    behind: &str,
) -> usize
    requires { at + length words.now + MASK_DIGITS + length behind.now ≤ length bytes.old }
    ensures end { result ≤ at + length words.now + MASK_DIGITS + length behind.now }
    ensures written { take result bytes.new ≡ take at bytes.old ++ words.now ++ decimal mask ++ behind.now }
    ensures utf8 { IsUtf8 (take at bytes.old) → IsUtf8 (take result bytes.new) }
{
    let from = put_words(bytes, at, words);
    let end = put_mask(bytes, from, mask);
    put_words(bytes, end, behind)
}

/// Writes a word, words, a number, words, a number and words, for which there is room whatever they are, and returns the place
/// behind them.
#[inline(always)]
pub(crate) fn put_word_two(
    bytes: &mut [u8],
    at: usize,
    word: &str,
    words: &str,
    first: u64,
    between: &str,
    second: u64,
    behind: &str,
) -> usize
    requires { at + length word.now + length words.now + length between.now + length behind.now + 2 * DIGITS ≤ length bytes.old }
    ensures end { result ≤ at + length word.now + length words.now + length between.now + length behind.now + 2 * DIGITS }
    ensures written { take result bytes.new ≡ take at bytes.old ++ word.now ++ words.now ++ decimal first ++ between.now ++ decimal second ++ behind.now }
    ensures utf8 { IsUtf8 (take at bytes.old) → IsUtf8 (take result bytes.new) }
{
    let from = put_few(bytes, at, word.as_bytes());
    let end = put_two(bytes, from, words, first, between, second);
    put_words(bytes, end, behind)
}

/// Writes words and a number whose digits are kept, for which there is room whatever it is, and returns the place behind them.
#[inline(always)]
pub(crate) fn put_digits(bytes: &mut [u8], at: usize, words: &str, digits: &Digits) -> usize
    requires { at + length words.now + KEPT_LEN ≤ length bytes.old }
    ensures end { result ≤ at + length words.now + KEPT_LEN }
    ensures written { take result bytes.new ≡ take at bytes.old ++ words.now ++ decimal digits.now }
    ensures utf8 { IsUtf8 (take at bytes.old) → IsUtf8 (take result bytes.new) }
{
    let behind = put_words(bytes, at, words);
    digits.put(bytes, behind)
}

/// Writes words, a number whose digits are kept, and words, for which there is room whatever it is, and returns the place behind
/// them.
#[inline(always)]
pub(crate) fn put_digits_between(
    bytes: &mut [u8],
    at: usize,
    words: &str,
    digits: &Digits,
    behind: &str,
) -> usize
    requires { at + length words.now + KEPT_LEN + length behind.now ≤ length bytes.old }
    ensures end { result ≤ at + length words.now + KEPT_LEN + length behind.now }
    ensures written { take result bytes.new ≡ take at bytes.old ++ words.now ++ decimal digits.now ++ behind.now }
    ensures utf8 { IsUtf8 (take at bytes.old) → IsUtf8 (take result bytes.new) }
{
    let end = put_digits(bytes, at, words, digits);
    put_words(bytes, end, behind)
}

/// Writes words, a number whose digits are kept, words, a few bytes and words, for which there is room whatever they are, and returns
/// the place behind them.
#[inline(always)]
pub(crate) fn put_line(
    bytes: &mut [u8],
    at: usize,
    words: &str,
    digits: &Digits,
    between: &str,
    line: &[u8],
    behind: &str,
) -> usize
    requires { at + length words.now + KEPT_LEN + length between.now + length line.now + length behind.now ≤ length bytes.old }
    ensures end { result ≤ at + length words.now + KEPT_LEN + length between.now + length line.now + length behind.now }
    ensures written { take result bytes.new ≡ take at bytes.old ++ words.now ++ decimal digits.now ++ between.now ++ line.now ++ behind.now }
    ensures utf8 { IsUtf8 line.now → IsUtf8 (take at bytes.old) → IsUtf8 (take result bytes.new) }
{
    let from = put_digits_between(bytes, at, words, digits, between);
    let end = put_few(bytes, from, line);
    put_words(bytes, end, behind)
}

/// Writes words and a digit, and returns the place behind them.
#[inline(always)]
pub(crate) fn put_digit(bytes: &mut [u8], at: usize, words: &str, digit: u8) -> usize
    requires digit { digit < 10 }
    requires room { at + length words.now + 1 ≤ length bytes.old }
    ensures end { result ≡ at + length words.now + 1 }
    ensures written { take result bytes.new ≡ take at bytes.old ++ words.now ++ decimal digit }
    ensures utf8 { IsUtf8 (take at bytes.old) → IsUtf8 (take result bytes.new) }
{
    let behind = put_words(bytes, at, words);
    bytes[behind] = b'0' + digit;
    behind + 1
}

/// Writes words and a few bytes, and returns the place behind them.
#[inline(always)]
pub(crate) fn put_few_behind(bytes: &mut [u8], at: usize, words: &str, few: &[u8]) -> usize
    requires { at + length words.now + length few.now ≤ length bytes.old }
    ensures end { result ≡ at + length words.now + length few.now }
    ensures written { take result bytes.new ≡ take at bytes.old ++ words.now ++ few.now }
    ensures utf8 { IsUtf8 few.now → IsUtf8 (take at bytes.old) → IsUtf8 (take result bytes.new) }
{
    let behind = put_words(bytes, at, words);
    put_few(bytes, behind, few)
}

/// Writes any bytes, and returns the place behind them. For none it takes no call.
#[inline(always)]
fn put_any(bytes: &mut [u8], at: usize, more: &[u8]) -> usize
    requires { at + length more.now ≤ length bytes.old }
    ensures end { result ≡ at + length more.now }
    ensures written { take result bytes.new ≡ take at bytes.old ++ more.now }
    ensures utf8 { IsUtf8 more.now → IsUtf8 (take at bytes.old) → IsUtf8 (take result bytes.new) }
{
    if more.is_empty() {
        return at;
    }
    put(bytes, at, more)
}

/// Writes words, a few bytes, words, any bytes and words, and returns the place behind them.
#[inline(always)]
pub(crate) fn put_texts(
    bytes: &mut [u8],
    at: usize,
    words: &str,
    few: &[u8],
    between: &str,
    more: &[u8],
    behind: &str,
) -> usize
    requires { at + length words.now + length few.now + length between.now + length more.now + length behind.now ≤ length bytes.old }
    ensures end { result ≡ at + length words.now + length few.now + length between.now + length more.now + length behind.now }
    ensures written { take result bytes.new ≡ take at bytes.old ++ words.now ++ few.now ++ between.now ++ more.now ++ behind.now }
    ensures utf8 { IsUtf8 few.now → IsUtf8 more.now → IsUtf8 (take at bytes.old) → IsUtf8 (take result bytes.new) }
{
    let from = put_few_behind(bytes, at, words, few);
    let start = put_words(bytes, from, between);
    let end = put_any(bytes, start, more);
    put_words(bytes, end, behind)
}

/// Writes words, a number, words and a number whose digits are kept, for which there is room whatever they are, and returns the
/// place behind them.
#[inline(always)]
pub(crate) fn put_number_digits(
    bytes: &mut [u8],
    at: usize,
    words: &str,
    number: u64,
    between: &str,
    digits: &Digits,
) -> usize
    requires { at + length words.now + length between.now + DIGITS + KEPT_LEN ≤ length bytes.old }
    ensures end { result ≤ at + length words.now + length between.now + DIGITS + KEPT_LEN }
    ensures written { take result bytes.new ≡ take at bytes.old ++ words.now ++ decimal number ++ between.now ++ decimal digits.now }
    ensures utf8 { IsUtf8 (take at bytes.old) → IsUtf8 (take result bytes.new) }
{
    let behind = put_behind(bytes, at, words, number);
    put_digits(bytes, behind, between, digits)
}
