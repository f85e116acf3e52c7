//! Objects of events that were refused, which are told by numbers.

ghost use Rattle.std.specs.Prelude.{◌≡◌, ◌++◌, OnOk, codes, false, true};
ghost use Rattle.gs_script.specs.Words.{is_text};
ghost use Rattle.gs_sentences.specs.Tails.{is_part, tail_refusal, tail_sentence};
ghost use Rattle.gs_explain.specs.Composed.{option_json};
ghost use Rattle.gs_explain.specs.Tailed.{line_in, place_in, quoted_reply, reason_front, refused_object, refused_rest};

use crate::draft::refusal_word;
use crate::object::Pen;
use crate::outlines::Short;
use crate::quoted::push_quoted;
use crate::tail::refusal_in;
use gs_layout::Refusal;
use gs_lines::Text;
use gs_sentences::{Front, Tail, write_tail};
use std::alloc::{AllocError, Global};

/// Returns the reply of a refusal in quotation marks.
fn quoted_reply(refusal: Refusal) -> &'static str
    ensures { result.now ≡ quoted_reply refusal }
{
    match refusal {
        Refusal::NoThread => "\"refused 1 NoThread\"",
        Refusal::NotRunning => "\"refused 2 NotRunning\"",
        Refusal::NotBlocked => "\"refused 3 NotBlocked\"",
        Refusal::EmptyMask => "\"refused 4 EmptyMask\"",
        Refusal::BadCpu => "\"refused 5 BadCpu\"",
        Refusal::AgentThere => "\"refused 6 AgentThere\"",
        Refusal::CpuTaken => "\"refused 7 CpuTaken\"",
        Refusal::NotTaken => "\"refused 8 NotTaken\"",
        Refusal::NotActive => "\"refused 9 NotActive\"",
        Refusal::StillAttached => "\"refused 10 StillAttached\"",
        Refusal::NotAttaching => "\"refused 11 NotAttaching\"",
        Refusal::SeqSpent => "\"refused 12 SeqSpent\"",
        Refusal::GenSpent => "\"refused 13 GenSpent\"",
        Refusal::TidsSpent => "\"refused 14 TidsSpent\"",
        Refusal::HistoryFull => "\"refused 15 HistoryFull\"",
        Refusal::SlotOpen => "\"refused 16 SlotOpen\"",
        Refusal::NoSuchTransaction => "\"refused 17 NoSuchTransaction\"",
        Refusal::Gone => "\"refused 18 Gone\"",
        Refusal::OutOfMemory => "\"refused 19 OutOfMemory\"",
    }
}

/// Adds the entry and the line that are a reason, or null for each.
#[inline(always)]
fn push_place(out: &mut Text, at: Option<(u32, u32)>) -> Result<(), AllocError>
    ensures { OnOk result (out.new ≡ out.old ++ (codes ",\"why\":[{\"entry\":" ++ option_json (place_in at) ++ codes ",\"line\":" ++ option_json (line_in at))) }
{
    match at {
        Some((line, place)) => out.push_two(
            ",\"why\":[{\"entry\":",
            place as u64,
            ",\"line\":",
            line as u64,
        ),
        None => out.push_words(",\"why\":[{\"entry\":null,\"line\":null"),
    }
}

/// The line and the place of the entry that is a reason, if one is.
#[derive(Clone, Copy)]
struct Place {
    at: Option<(u32, u32)>,
}

impl Front for Place {
    ghost front = { λ p f. reason_front p.at f };

    #[inline(always)]
    fn write_front(&self, out: &mut Text, refusal: Refusal) -> Result<(), AllocError> {
        push_place(out, self.at)?;
        out.push_words(",\"reason\":\"")?;
        out.push_words(refusal_word(refusal))?;
        out.push_words("\",\"text\":\"")
    }
}

/// Adds the reason of an object, and its end.
#[inline(always)]
fn push_end(out: &mut Text, at: Option<(u32, u32)>, tail: &Tail) -> Result<(), AllocError>
    requires { is_part tail.now ≡ false }
    ensures { OnOk result (out.new ≡ out.old ++ reason_front at (tail_refusal tail.now) ++ tail_sentence tail.now ++ codes "\"}]}\n") }
{
    write_tail(out, &Place { at }, tail)?;
    out.push_words("\"}]}\n")
}

/// Adds what the object of such an event has behind its line's number.
#[inline(never)]
#[tactic(auto, using(gs_script::proofs::Texts::text_is_utf8))]
pub(crate) fn push_refused_rest(
    alloc: Global,
    out: &mut Text,
    line: &[u8],
    at: Option<(u32, u32)>,
    tail: &Tail,
) -> Result<(), AllocError>
    requires text { is_text line.now ≡ true }
    requires told { is_part tail.now ≡ false }
    ensures { OnOk result (out.new ≡ out.old ++ refused_rest line.now at tail.now) }
{
    let refusal = refusal_in(tail);
    out.push_texts(
        ",\"replies\":[",
        quoted_reply(refusal).as_bytes(),
        "],\"text\":",
        b"",
        "",
    )?;
    push_quoted(alloc, out, line)?;
    push_end(out, at, tail)
}

/// Adds the object of an event that was refused, and before which so many entries stand.
#[inline(never)]
#[tactic(auto, using(gs_script::proofs::Texts::text_is_utf8))]
pub(crate) fn push_refused(
    alloc: Global,
    out: &mut Text,
    pen: &mut Pen,
    short: &Short<'_>,
    at: Option<(u32, u32)>,
    tail: &Tail,
) -> Result<(), AllocError>
    requires text { is_text short.now.line.now ≡ true }
    requires told { is_part tail.now ≡ false }
    ensures { OnOk result (out.new ≡ out.old ++ refused_object (short.now.number, short.now.line.now) short.now.first at tail.now) }
{
    let Short {
        line,
        number,
        first,
        ..
    } = *short;
    pen.set(first, number as u64);
    if pen.fit_refused(out, quoted_reply(refusal_in(tail)), line) {
        return push_end(out, at, tail);
    }
    pen.push_front(out, 0)?;
    push_refused_rest(alloc, out, line, at, tail)
}
