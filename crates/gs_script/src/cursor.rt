//! Reading what stands first in a text. Each call returns what was read and what is left behind it, and
//! `None` says nothing of the text.

ghost use Rattle.std.specs.Prelude.{◌≡◌, ◌≤◌, ◌++◌, ◌∷◌, [], length, take, IfSome, Ok, true};
ghost use Rattle.std.specs.Str.{all_ascii_digits};
ghost use Rattle.std.specs.Str.Parse.{digits_value};
ghost use Rattle.gs_script.specs.Words.{is_word, lines_of};
ghost use Rattle.gs_script.specs.Rows.{number_between};
ghost use Rattle.gs_script.specs.Plain.{FirstLine, StartsWith, flags_text, lines_left};

use gs_slots::Flags;

/// Any number of so many digits has 64 bits.
const SURE_DIGITS: usize = 19;

/// Returns the first line of a text, and what stands behind its newline, or `None` if it has none.
#[inline(always)]
pub fn first_line(text: &[u8]) -> (&[u8], Option<&[u8]>)
    ensures { lines_of text.now ≡ result.0.now ∷ lines_left result.1 }
{
    let mut end = 0;
    while end < text.len() && text[end] != b'\n' {
        end += 1;
    }
    if end >= text.len() {
        return (text, None);
    }
    (&text[..end], Some(&text[end + 1..]))
}

/// Returns what stands behind these bytes, if a text begins with them.
#[inline(always)]
pub(crate) fn behind<'a>(text: &'a [u8], front: &[u8]) -> Option<&'a [u8]>
    ensures { IfSome result (λ rest. text.now ≡ front.now ++ rest.now) }
{
    text.strip_prefix(front)
}

/// What is left behind a line that ends here.
#[inline(always)]
pub(crate) fn line_end(text: &[u8]) -> Option<Option<&[u8]>>
    ensures { IfSome result (λ left. lines_of text.now ≡ [] ∷ lines_left left) }
{
    match text {
        [] => Some(None),
        [b'\n', rest @ ..] => Some(Some(rest)),
        _ => None,
    }
}

/// Reads digits that a text begins with, [`SURE_DIGITS`] at most: the number that they write, and how many were read.
#[inline(always)]
fn sure_digits(text: &[u8]) -> (u64, usize)
    ensures few { result.1 ≤ SURE_DIGITS }
    ensures within { result.1 ≤ length text.now }
    ensures digits { all_ascii_digits (take result.1 text.now) ≡ true }
    ensures value { result.0 ≡ digits_value 10 (take result.1 text.now) }
{
    let most = text.len().min(SURE_DIGITS);
    let mut value: u64 = 0;
    let mut count = 0;
    while count < most && text[count].is_ascii_digit() {
        value = value * 10 + (text[count] - b'0') as u64;
        count += 1;
    }
    (value, count)
}

/// Returns the number that a text begins with, and what stands behind its digits, of which there are [`SURE_DIGITS`] at
/// most. It returns `None` if the text begins with no digit or a needless zero.
#[inline(always)]
fn digits_first(text: &[u8]) -> Option<(u64, &[u8])>
    ensures { IfSome result (λ p. StartsWith (λ digits. number_between 0 u64.MAX digits ≡ Ok p.0) text.now p.1.now) }
{
    let (value, count) = sure_digits(text);
    if count == 0 {
        return None;
    }
    if count > 1 && text[0] == b'0' {
        return None;
    }
    Some((value, &text[count..]))
}

/// The same of any number of 128 bits.
#[inline(never)]
fn long_mask(text: &[u8]) -> Option<(u128, &[u8])>
    ensures { IfSome result (λ p. StartsWith (λ digits. number_between 0 u128.MAX digits ≡ Ok p.0) text.now p.1.now) }
{
    let (sure, mut count) = sure_digits(text);
    let mut value = sure as u128;
    while count < text.len() && text[count].is_ascii_digit() {
        let digit = (text[count] - b'0') as u128;
        value = value.checked_mul(10)?.checked_add(digit)?;
        count += 1;
    }
    if count == 0 {
        return None;
    }
    if count > 1 && text[0] == b'0' {
        return None;
    }
    Some((value, &text[count..]))
}

/// Returns the number of 128 bits that a text begins with, and what stands behind its digits. It returns `None` if the
/// text begins with no digit or a needless zero, or the number has more bits.
#[inline(always)]
fn mask_first(text: &[u8]) -> Option<(u128, &[u8])>
    ensures { IfSome result (λ p. StartsWith (λ digits. number_between 0 u128.MAX digits ≡ Ok p.0) text.now p.1.now) }
{
    let (value, rest) = digits_first(text)?;
    match rest {
        [b'0'..=b'9', ..] => long_mask(text),
        _ => Some((value as u128, rest)),
    }
}

/// A mask, and the space behind it.
#[inline(always)]
pub(crate) fn mask_spaced(text: &[u8]) -> Option<(u128, &[u8])>
    ensures number { IfSome result (λ p. StartsWith (λ digits. number_between 0 u128.MAX digits ≡ Ok p.0) text.now (32 ∷ p.1.now)) }
{
    let (number, rest) = mask_first(text)?;
    match rest {
        [b' ', rest @ ..] => Some((number, rest)),
        _ => None,
    }
}

/// A mask that is all of a line.
#[inline(always)]
pub(crate) fn mask_last(text: &[u8]) -> Option<(u128, Option<&[u8]>)>
    ensures number { IfSome result (λ p. FirstLine (λ digits. number_between 0 u128.MAX digits ≡ Ok p.0) text.now p.1) }
{
    let (number, rest) = mask_first(text)?;
    let left = line_end(rest)?;
    Some((number, left))
}

/// A number up to `most`.
#[inline(always)]
pub(crate) fn number_first(text: &[u8], most: u64) -> Option<(u64, &[u8])>
    ensures number { IfSome result (λ p. StartsWith (λ digits. number_between 0 most digits ≡ Ok p.0) text.now p.1.now) }
    ensures high { IfSome result (λ p. p.0 ≤ most) }
{
    let (number, rest) = digits_first(text)?;
    if number > most {
        return None;
    }
    Some((number, rest))
}

/// A number up to `most`, and the space behind it.
#[inline(always)]
pub(crate) fn number_spaced(text: &[u8], most: u64) -> Option<(u64, &[u8])>
    ensures number { IfSome result (λ p. StartsWith (λ digits. number_between 0 most digits ≡ Ok p.0) text.now (32 ∷ p.1.now)) }
    ensures high { IfSome result (λ p. p.0 ≤ most) }
{
    let (number, rest) = number_first(text, most)?;
    let rest = behind(rest, b" ")?;
    Some((number, rest))
}

/// A number up to `most` that is all of a line.
#[inline(always)]
pub(crate) fn number_last(text: &[u8], most: u64) -> Option<(u64, Option<&[u8]>)>
    ensures number { IfSome result (λ p. FirstLine (λ digits. number_between 0 most digits ≡ Ok p.0) text.now p.1) }
    ensures high { IfSome result (λ p. p.0 ≤ most) }
{
    let (number, rest) = number_first(text, most)?;
    let left = line_end(rest)?;
    Some((number, left))
}

/// A number of 16 bits that is all of a line.
#[inline(always)]
pub(crate) fn u16_last(text: &[u8]) -> Option<(u16, Option<&[u8]>)>
    ensures { IfSome result (λ p. FirstLine (λ digits. number_between 0 u16.MAX digits ≡ Ok p.0) text.now p.1) }
{
    let (number, left) = number_last(text, u16::MAX as u64)?;
    Some((number as u16, left))
}

/// A number of 32 bits that is all of a line.
#[inline(always)]
pub(crate) fn u32_last(text: &[u8]) -> Option<(u32, Option<&[u8]>)>
    ensures { IfSome result (λ p. FirstLine (λ digits. number_between 0 u32.MAX digits ≡ Ok p.0) text.now p.1) }
{
    let (number, left) = number_last(text, u32::MAX as u64)?;
    Some((number as u32, left))
}

/// The flags that stand behind a space, or none if no flag does, and what is left behind them.
#[inline(always)]
pub(crate) fn flags_first(text: &[u8]) -> (Flags, &[u8])
    ensures { text.now ≡ flags_text result.0 ++ result.1.now }
{
    let (preempt, group, rest) = match text {
        [b' ', b'p', b'g', rest @ ..] => (true, true, rest),
        [b' ', b'p', rest @ ..] => (true, false, rest),
        [b' ', b'g', rest @ ..] => (false, true, rest),
        _ => return (Flags::NONE, text),
    };
    (Flags { preempt, group }, rest)
}

/// All of a line that is not empty.
#[inline(always)]
pub(crate) fn rest_of_line(text: &[u8]) -> Option<(&[u8], Option<&[u8]>)>
    ensures { IfSome result (λ p. FirstLine (λ line. (line ≡ p.0.now) × (is_word line ≡ true)) text.now p.1) }
{
    let (line, left) = first_line(text);
    if line.is_empty() {
        return None;
    }
    Some((line, left))
}
