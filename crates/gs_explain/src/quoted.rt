//! Texts in quotation marks, as JSON has them.

ghost use Rattle.std.specs.Prelude.{◌≡◌, ◌+◌, ◌≤◌, ◌++◌, IfOk, OnOk, length};
ghost use Rattle.std.specs.Bool.{OnTrue};
ghost use Rattle.std.specs.Str.{IsUtf8};
ghost use Rattle.json.specs.Print.{quoted};
ghost use Rattle.json.specs.Written.{PlainBetween};

use gs_lines::Text;
use json::Writer;
use std::alloc::{AllocError, Global};
use std::simd::prelude::*;

/// The lanes of two vectors of four, one behind another.
const BOTH_4: [usize; 8] = [0, 1, 2, 3, 4, 5, 6, 7];

/// The lanes of two vectors of eight, one behind another.
const BOTH_8: [usize; 16] = [0, 1, 2, 3, 4, 5, 6, 7, 8, 9, 10, 11, 12, 13, 14, 15];

/// Returns whether no byte has to be escaped, of four to eight: of the first four and the last four at once.
#[inline(always)]
fn plain_ends_4(bytes: &[u8]) -> bool
    requires many { 4 ≤ length bytes.now }
    requires few { length bytes.now ≤ 8 }
    ensures { OnTrue result (PlainBetween bytes.now 0 (length bytes.now)) }
{
    let first = u8x4::from_slice(bytes);
    let last = u8x4::from_slice(&bytes[bytes.len() - 4..]);
    let v = first.shuffle::<8>(last, BOTH_4);
    (v.simd_eq(u8x8::splat(b'"'))
        | v.simd_eq(u8x8::splat(b'\\'))
        | v.simd_lt(u8x8::splat(0x20))).to_bitmask()
        == 0
}

/// Returns whether no byte has to be escaped, of eight to sixteen: of the first eight and the last eight at once.
#[inline(always)]
fn plain_ends_8(bytes: &[u8]) -> bool
    requires many { 8 ≤ length bytes.now }
    requires few { length bytes.now ≤ 16 }
    ensures { OnTrue result (PlainBetween bytes.now 0 (length bytes.now)) }
{
    let first = u8x8::from_slice(bytes);
    let last = u8x8::from_slice(&bytes[bytes.len() - 8..]);
    let v = first.shuffle::<16>(last, BOTH_8);
    (v.simd_eq(u8x16::splat(b'"'))
        | v.simd_eq(u8x16::splat(b'\\'))
        | v.simd_lt(u8x16::splat(0x20))).to_bitmask()
        == 0
}

/// Returns whether none of the sixteen bytes from a place on has to be escaped.
#[inline(always)]
fn plain_16(bytes: &[u8], at: usize) -> bool
    requires { at + 16 ≤ length bytes.now }
    ensures { OnTrue result (PlainBetween bytes.now at (at + 16)) }
{
    let v = u8x16::from_slice(&bytes[at..]);
    (v.simd_eq(u8x16::splat(b'"'))
        | v.simd_eq(u8x16::splat(b'\\'))
        | v.simd_lt(u8x16::splat(0x20))).to_bitmask()
        == 0
}

/// Returns whether no byte has to be escaped, of a few.
#[inline(always)]
fn plain_few(bytes: &[u8]) -> bool
    ensures { OnTrue result (PlainBetween bytes.now 0 (length bytes.now)) }
{
    for &byte in bytes {
        if byte == b'"' || byte == b'\\' || byte < 0x20 {
            return false;
        }
    }
    true
}

/// Returns whether no byte has to be escaped, of many: sixteen at a time, and at last the last sixteen.
#[inline(always)]
fn plain_many(bytes: &[u8]) -> bool
    requires { 16 ≤ length bytes.now }
    ensures { OnTrue result (PlainBetween bytes.now 0 (length bytes.now)) }
{
    let mut at = 0;
    while bytes.len() - at > 16 {
        if !plain_16(bytes, at) {
            return false;
        }
        at += 16;
    }
    plain_16(bytes, bytes.len() - 16)
}

/// Returns whether no byte has to be escaped: it is neither a quotation mark, a backslash nor below a space.
#[inline(always)]
pub(crate) fn is_plain(bytes: &[u8]) -> bool
    ensures { OnTrue result (PlainBetween bytes.now 0 (length bytes.now)) }
{
    let len = bytes.len();
    if len >= 16 {
        plain_many(bytes)
    } else if len >= 8 {
        plain_ends_8(bytes)
    } else if len >= 4 {
        plain_ends_4(bytes)
    } else {
        plain_few(bytes)
    }
}

/// Lends bytes that are text, as text.
pub(crate) fn as_text(bytes: &[u8]) -> &str
    requires { IsUtf8 bytes.now }
    ensures { result.now ≡ bytes.now }
{
    str::from_utf8(bytes).unwrap()
}

/// Returns a text in quotation marks, with what has to be escaped.
fn escaped(alloc: Global, bytes: &[u8]) -> Result<Vec<u8>, AllocError>
    requires { IsUtf8 bytes.now }
    ensures is { IfOk result (λ text. text.items ≡ quoted bytes.now) }
    ensures utf8 { IfOk result (λ text. IsUtf8 text.items) }
{
    let mut writer = Writer::new(Vec::new(alloc));
    writer.string(as_text(bytes))?;
    Ok(writer.into_inner())
}

/// Adds a text in quotation marks, of which some bytes have to be escaped.
#[cold]
#[inline(never)]
fn push_escaped(alloc: Global, out: &mut Text, bytes: &[u8]) -> Result<(), AllocError>
    requires { IsUtf8 bytes.now }
    ensures { OnOk result (out.new ≡ out.old ++ quoted bytes.now) }
{
    let text = escaped(alloc, bytes)?;
    out.append(&text)
}

/// Adds a text in quotation marks, of which no byte has to be escaped.
#[inline(always)]
fn push_plain(out: &mut Text, bytes: &[u8]) -> Result<(), AllocError>
    requires utf8 { IsUtf8 bytes.now }
    requires plain { PlainBetween bytes.now 0 (length bytes.now) }
    ensures { OnOk result (out.new ≡ out.old ++ quoted bytes.now) }
{
    out.push_str("\"")?;
    out.append(bytes)?;
    out.push_str("\"")
}

/// Adds a text in quotation marks.
#[inline(always)]
pub(crate) fn push_quoted(alloc: Global, out: &mut Text, bytes: &[u8]) -> Result<(), AllocError>
    requires { IsUtf8 bytes.now }
    ensures { OnOk result (out.new ≡ out.old ++ quoted bytes.now) }
{
    if is_plain(bytes) {
        push_plain(out, bytes)
    } else {
        push_escaped(alloc, out, bytes)
    }
}
