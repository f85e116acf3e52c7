ghost use Rattle.std.specs.Prelude.{◌≡◌, ◌≤◌, Err, IfOk, Ok, OnOk, MatchOption, true, false, map};
ghost use Rattle.gs_script.specs.Words.{is_text, words_of};
ghost use Rattle.gs_script.specs.Rows.{number_between, name_in};
ghost use Rattle.gs_script.specs.Held.{begins_plainly};

use crate::fault::Reason;
use gs_layout::Name;
use std::alloc::AllocError;

/// Whether each byte may stand in a line.
pub(crate) fn is_printed(line: &[u8]) -> bool
    ensures { result ≡ is_text line.now }
{
    line.iter().all(|byte| 32 <= *byte && *byte <= 126)
}

/// Returns a line as text, if each of its bytes may stand in one.
#[tactic(auto, using(crate::proofs::Texts::text_is_utf8))]
pub(crate) fn text(line: &[u8]) -> Option<&str>
    ensures { MatchOption result (is_text line.now ≡ false) (λ t. (t.now ≡ line.now) × (is_text line.now ≡ true)) }
{
    if !is_printed(line) {
        return None;
    }
    match str::from_utf8(line) {
        Ok(text) => Some(text),
        Err(_) => None,
    }
}

/// Puts the words of a line in the place of those that are there. If it fails, some of the line's words may
/// be there.
pub(crate) fn split<'a>(line: &'a str, words: &mut Vec<&'a str>) -> Result<(), AllocError>
    ensures { OnOk result (map (λ w. w.now) words.new.items ≡ words_of line.now) }
{
    words.clear();
    words.extend(line.split(' ').filter(|word| !word.is_empty()))
}

/// Whether a word begins with neither a sign nor a needless zero.
fn is_plain(word: &str) -> bool
    ensures { result ≡ begins_plainly word.now }
{
    match word.as_bytes() {
        [b'+', ..] | [b'0', _, ..] => false,
        _ => true,
    }
}

/// Returns the decimal number that a word writes, from `least` to `most`. It has no sign, and no zero in front but 0 itself.
///
/// # Errors
///
/// `BadNumber` if the word is no such number.
pub fn number(word: &str, least: u64, most: u64) -> Result<u64, Reason>
    ensures exact { result ≡ number_between least most word.now }
    ensures low { IfOk result (λ n. least ≤ n) }
    ensures high { IfOk result (λ n. n ≤ most) }
{
    if !is_plain(word) {
        return Err(Reason::BadNumber);
    }
    let Ok(n) = word.parse::<u64>() else {
        return Err(Reason::BadNumber);
    };
    if n < least || most < n {
        return Err(Reason::BadNumber);
    }
    Ok(n)
}

/// A mask in decimal: any number of 128 bits.
pub(crate) fn mask(word: &str) -> Result<u128, Reason>
    ensures { result ≡ number_between 0 u128.MAX word.now }
{
    if !is_plain(word) {
        return Err(Reason::BadNumber);
    }
    let Ok(n) = word.parse::<u128>() else {
        return Err(Reason::BadNumber);
    };
    Ok(n)
}

/// The thread's name that a word spells, if it spells one: `-` is the empty one.
#[inline(always)]
pub(crate) fn name_spelled(word: &[u8]) -> Option<Name>
    ensures { MatchOption result (name_in word.now ≡ Err Reason.BadName) (λ name. name_in word.now ≡ Ok name) }
{
    match word {
        b"-" => Name::new(&[]),
        _ => Name::new(word),
    }
}

/// A thread's name, of which `-` is the empty one.
pub(crate) fn name(word: &[u8]) -> Result<Name, Reason>
    ensures { result ≡ name_in word.now }
{
    match name_spelled(word) {
        Some(name) => Ok(name),
        None => Err(Reason::BadName),
    }
}
