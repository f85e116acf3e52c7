//! The object of an event, put together piece by piece.

ghost use Rattle.std.specs.Prelude.{◌≡◌, ◌<◌, ◌++◌, ◌∷◌, [], IfSome, OnOk, codes, drop, length, true};
ghost use Rattle.std.specs.Bool.{OnFalse, OnTrue};
ghost use Rattle.std.specs.Str.{IsUtf8};
ghost use Rattle.json.specs.Print.{quoted};
ghost use Rattle.json.specs.Written.{PlainBetween};
ghost use Rattle.serde_json.specs.Written.{comma_if};
ghost use Rattle.gs_script.specs.Words.{is_text};
ghost use Rattle.gs_explain.specs.Composed.{front_pieces, object_pieces, replies_pieces, rest_pieces};

use crate::quoted::{as_text, is_plain, push_quoted};
use gs_lines::Text;
use gs_text::{Digits, Row};
use std::alloc::{AllocError, Global};

/// Returns the line that bytes are, without its newline, if no byte of it has to be escaped.
#[inline(always)]
fn only_line(bytes: &[u8]) -> Option<&[u8]>
    ensures line { IfSome result (λ line. bytes.now ≡ line.now ++ 10 ∷ []) }
    ensures plain { IfSome result (λ line. PlainBetween line.now 0 (length line.now)) }
{
    match bytes.split_last() {
        Some((b'\n', line)) if is_plain(line) => Some(line),
        _ => None,
    }
}

/// Adds a text in quotation marks, behind a comma if there are others before it.
fn push_item(alloc: Global, out: &mut Text, later: bool, text: &str) -> Result<(), AllocError>
    ensures { OnOk result (out.new ≡ out.old ++ comma_if later ++ quoted text.now) }
{
    if later {
        out.push_str(",")?;
    }
    push_quoted(alloc, out, text.as_bytes())
}

/// Adds lines as they stand in an array.
#[inline(never)]
fn push_lines(alloc: Global, out: &mut Text, lines: &str) -> Result<(), AllocError>
    ensures { OnOk result (out.new ≡ out.old ++ replies_pieces lines.now) }
{
    let mut later = false;
    for line in lines.lines() {
        push_item(alloc, out, later, line)?;
        later = true;
    }
    Ok(())
}

/// Returns reasons, which stand behind commas, as they stand in an array.
#[inline(always)]
fn in_array(whys: &[u8]) -> &[u8]
    ensures { result.now ≡ drop 1 whys.now }
{
    match whys.split_first() {
        Some((_, behind)) => behind,
        None => whys,
    }
}

/// Adds what the object of an event has behind its line's number: the lines of its reply, its line, and its reasons, which stand behind commas.
#[inline(never)]
#[tactic(auto, using(gs_script::proofs::Texts::text_is_utf8))]
pub(crate) fn push_rest(
    alloc: Global,
    out: &mut Text,
    line: &[u8],
    lines: &[u8],
    whys: &[u8],
) -> Result<(), AllocError>
    requires text { is_text line.now ≡ true }
    requires lines { IsUtf8 lines.now }
    requires whys { IsUtf8 (drop 1 whys.now) }
    ensures { OnOk result (out.new ≡ out.old ++ rest_pieces line.now lines.now whys.now) }
{
    out.push_str(",\"replies\":[")?;
    push_lines(alloc, out, as_text(lines))?;
    out.push_str("],\"text\":")?;
    push_quoted(alloc, out, line)?;
    out.push_texts(",\"why\":[", b"", "", in_array(whys), "]}\n")
}

/// Puts objects together. It keeps the digits of two numbers, which are mostly those of the object before, or little more.
#[derive(Drop)]
pub(crate) struct Pen {
    first: Digits,
    number: Digits,
}

impl Pen {
    /// Makes one by which no object was put together.
    pub(crate) fn new() -> Pen {
        Pen {
            first: Digits::new(0),
            number: Digits::new(0),
        }
    }

    /// Takes the place of the first entry of an event, and the number of its line.
    #[inline(always)]
    pub(crate) fn set(&mut self, first: u32, number: u64)
        ensures first { self.new.first ≡ first }
        ensures number { self.new.number ≡ number }
    {
        self.first.set(first as u64);
        self.number.set(number);
    }

    /// Adds an object, of which no byte of the script's line and of the only line of its reply has to be escaped, if there is room for
    /// it. Returns whether it did.
    #[inline(always)]
    #[tactic(auto, using(gs_script::proofs::Texts::text_is_utf8))]
    fn fit_short<'x>(
        &'x self,
        out: &mut Text,
        line: &'x [u8],
        count: u8,
        reply: &'x [u8],
        whys: &'x [u8],
    ) -> bool
        requires text { is_text line.now ≡ true }
        requires plain { PlainBetween line.now 0 (length line.now) }
        requires count { count < 10 }
        requires reply { IsUtf8 reply.now }
        requires short { PlainBetween reply.now 0 (length reply.now) }
        requires whys { IsUtf8 (drop 1 whys.now) }
        ensures added { OnTrue result (out.new ≡ out.old ++ object_pieces (self.now.number, line.now) self.now.first count (reply.now ++ 10 ∷ []) whys.now) }
        ensures kept { OnFalse result (out.new ≡ out.old) }
    {
        out.fit_row(Row {
            digit: ("{\"entries\":{\"count\":", count),
            first: (",\"first\":", &self.first),
            second: ("},\"line\":", &self.number),
            few: (",\"replies\":[\"", reply),
            line: ("\"],\"text\":\"", line),
            rest: ("\",\"why\":[", in_array(whys)),
            end: "]}\n",
        })
    }

    /// Adds the same, if the reply has no line.
    #[inline(always)]
    #[tactic(auto, using(gs_script::proofs::Texts::text_is_utf8))]
    fn fit_silent<'x>(&'x self, out: &mut Text, line: &'x [u8], count: u8, whys: &'x [u8]) -> bool
        requires text { is_text line.now ≡ true }
        requires plain { PlainBetween line.now 0 (length line.now) }
        requires count { count < 10 }
        requires whys { IsUtf8 (drop 1 whys.now) }
        ensures added { OnTrue result (out.new ≡ out.old ++ object_pieces (self.now.number, line.now) self.now.first count [] whys.now) }
        ensures kept { OnFalse result (out.new ≡ out.old) }
    {
        out.fit_row(Row {
            digit: ("{\"entries\":{\"count\":", count),
            first: (",\"first\":", &self.first),
            second: ("},\"line\":", &self.number),
            few: (",\"replies\":[", b""),
            line: ("],\"text\":\"", line),
            rest: ("\",\"why\":[", in_array(whys)),
            end: "]}\n",
        })
    }

    /// Adds an object, if it can be copied as it is and there is room for it. Returns whether it did.
    #[inline(always)]
    fn fit(&self, out: &mut Text, line: &[u8], count: u32, lines: &[u8], whys: &[u8]) -> bool
        requires text { is_text line.now ≡ true }
        requires lines { IsUtf8 lines.now }
        requires whys { IsUtf8 (drop 1 whys.now) }
        ensures added { OnTrue result (out.new ≡ out.old ++ object_pieces (self.now.number, line.now) self.now.first count lines.now whys.now) }
        ensures kept { OnFalse result (out.new ≡ out.old) }
    {
        if count >= 10 || !is_plain(line) {
            return false;
        }
        match only_line(lines) {
            Some(reply) => self.fit_short(out, line, count as u8, reply, whys),
            None if lines.is_empty() => self.fit_silent(out, line, count as u8, whys),
            None => false,
        }
    }

    /// Adds an object as far as its reasons, of an event that was refused, if no byte of its line has to be escaped and there is room for
    /// it. Returns whether it did. The reply is given in quotation marks.
    #[inline(always)]
    #[tactic(auto, using(gs_script::proofs::Texts::text_is_utf8))]
    pub(crate) fn fit_refused<'x>(&'x self, out: &mut Text, reply: &'x str, line: &'x [u8]) -> bool
        requires text { is_text line.now ≡ true }
        ensures added { OnTrue result (out.new ≡ out.old ++ (front_pieces self.now.number self.now.first 0 ++ codes ",\"replies\":[" ++ reply.now ++ codes "],\"text\":" ++ quoted line.now)) }
        ensures kept { OnFalse result (out.new ≡ out.old) }
    {
        if !is_plain(line) {
            return false;
        }
        out.fit_row(Row {
            digit: ("{\"entries\":{\"count\":", 0),
            first: (",\"first\":", &self.first),
            second: ("},\"line\":", &self.number),
            few: (",\"replies\":[", reply.as_bytes()),
            line: ("],\"text\":\"", line),
            rest: ("\"", b""),
            end: "",
        })
    }

    /// Adds how many entries an event added, the place of the first, and the number of its line.
    #[inline(always)]
    pub(crate) fn push_front(&self, out: &mut Text, count: u32) -> Result<(), AllocError>
        ensures { OnOk result (out.new ≡ out.old ++ front_pieces self.now.number self.now.first count) }
    {
        out.push_number_digits(
            "{\"entries\":{\"count\":",
            count as u64,
            ",\"first\":",
            &self.first,
        )?;
        out.push_digits("},\"line\":", &self.number)
    }

    /// Adds any object.
    #[inline(never)]
    fn push_any(
        &self,
        alloc: Global,
        out: &mut Text,
        line: &[u8],
        count: u32,
        lines: &[u8],
        whys: &[u8],
    ) -> Result<(), AllocError>
        requires text { is_text line.now ≡ true }
        requires lines { IsUtf8 lines.now }
        requires whys { IsUtf8 (drop 1 whys.now) }
        ensures { OnOk result (out.new ≡ out.old ++ object_pieces (self.now.number, line.now) self.now.first count lines.now whys.now) }
    {
        self.push_front(out, count)?;
        push_rest(alloc, out, line, lines, whys)
    }

    /// Adds the object of an event in a line of its own: by its line, its entries, the lines of its reply, and its reasons, which
    /// stand behind commas. It fails only if out of memory.
    #[inline(always)]
    pub(crate) fn push(
        &mut self,
        alloc: Global,
        out: &mut Text,
        number: u32,
        line: &[u8],
        first: u32,
        count: u32,
        lines: &[u8],
        whys: &[u8],
    ) -> Result<(), AllocError>
        requires text { is_text line.now ≡ true }
        requires lines { IsUtf8 lines.now }
        requires whys { IsUtf8 (drop 1 whys.now) }
        ensures { OnOk result (out.new ≡ out.old ++ object_pieces (number, line.now) first count lines.now whys.now) }
    {
        self.set(first, number as u64);
        if self.fit(out, line, count, lines, whys) {
            return Ok(());
        }
        self.push_any(alloc, out, line, count, lines, whys)
    }

    /// Adds the object of an event, as [`Pen::push`] does, for one that is seldom: it takes no look whether some of it can be copied as it is.
    #[inline(never)]
    pub(crate) fn push_seldom(
        &mut self,
        alloc: Global,
        out: &mut Text,
        number: u32,
        line: &[u8],
        first: u32,
        count: u32,
        lines: &[u8],
        whys: &[u8],
    ) -> Result<(), AllocError>
        requires text { is_text line.now ≡ true }
        requires lines { IsUtf8 lines.now }
        requires whys { IsUtf8 (drop 1 whys.now) }
        ensures { OnOk result (out.new ≡ out.old ++ object_pieces (number, line.now) first count lines.now whys.now) }
    {
        self.set(first, number as u64);
        self.push_any(alloc, out, line, count, lines, whys)
    }
}
