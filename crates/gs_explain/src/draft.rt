//! What is told of events in their objects: the lines of a reply, and reasons.

ghost use Rattle.std.specs.Prelude.{◌≡◌, ◌++◌, ◌∷◌, [], None, OnOk, codes, length};
ghost use Rattle.std.specs.Str.{IsUtf8};
ghost use Rattle.gs_journal.specs.Last.{entry_lent};
ghost use Rattle.gs_lines.specs.Lines.{late_text, line, reply_lines};
ghost use Rattle.gs_replies.specs.declared.reply.Reply.TheVariants as replies;
ghost use Rattle.gs_sentences.specs.Given.{causes_given, reason_given};
ghost use Rattle.gs_sentences.specs.Reasons.{reason_text};
ghost use Rattle.gs_trace.specs.Came.{reply_in};
ghost use Rattle.gs_explain.specs.Composed.{behind_commas, option_json, reason_pieces, why_pieces};
ghost use Rattle.gs_explain.specs.Objects.{line_of_cause, place_of_cause, reason_cause, reason_data, reason_word, refusal_word, why_data};

use crate::quoted::{is_plain, push_quoted};
use gs_agent::Stop;
use gs_journal::LastEntry;
use gs_kernel::{Executed, Landing};
use gs_layout::Refusal;
use gs_lines::{
    Text, outcome_name, write_committed, write_decided, write_drained, write_executed, write_late,
    write_refused, write_reply, write_stamped,
};
use gs_sentences::{Cause, Reason, Sentence, put_reason};
use gs_trace::Came;
use std::alloc::{AllocError, Global};
use std::marker::Model;

/// The name of a refusal.
#[inline(always)]
#[tactic(auto, unfolding(crate::specs::Objects::refusal_word))]
pub(crate) fn refusal_word(refusal: Refusal) -> &'static str
    ensures { result.now ≡ refusal_word refusal }
{
    match refusal {
        Refusal::NoThread => "NoThread",
        Refusal::NotRunning => "NotRunning",
        Refusal::NotBlocked => "NotBlocked",
        Refusal::EmptyMask => "EmptyMask",
        Refusal::BadCpu => "BadCpu",
        Refusal::AgentThere => "AgentThere",
        Refusal::CpuTaken => "CpuTaken",
        Refusal::NotTaken => "NotTaken",
        Refusal::NotActive => "NotActive",
        Refusal::StillAttached => "StillAttached",
        Refusal::NotAttaching => "NotAttaching",
        Refusal::SeqSpent => "SeqSpent",
        Refusal::GenSpent => "GenSpent",
        Refusal::TidsSpent => "TidsSpent",
        Refusal::HistoryFull => "HistoryFull",
        Refusal::SlotOpen => "SlotOpen",
        Refusal::NoSuchTransaction => "NoSuchTransaction",
        Refusal::Gone => "Gone",
        Refusal::OutOfMemory => "OutOfMemory",
    }
}

/// Returns a reason in a word: the outcome, the refusal, or what else it is.
fn reason_word(reason: &Reason<'_>) -> &'static str
    ensures { result.now ≡ reason_word (reason_given reason.now) }
{
    match reason {
        Reason::Landed(landed) => outcome_name(landed.landing.outcome),
        Reason::Refused(refused) => refusal_word(refused.refusal),
        Reason::Torn(_) => "torn",
        Reason::Skipped(_) => "skipped",
        Reason::Orphans(_) => "orphans",
        Reason::Stopped(Stop::Gap) => "gap",
        Reason::Stopped(Stop::Memory) => "memory",
    }
}

/// Returns the last entry that made it so, if one did.
fn reason_cause<'a>(reason: &Reason<'a>) -> Option<Cause<'a>>
    ensures { causes_given result ≡ reason_cause (reason_given reason.now) }
{
    match reason {
        Reason::Landed(landed) => landed.cause,
        Reason::Refused(refused) => refused.cause,
        _ => None,
    }
}

/// Returns the place of an entry that is a reason.
fn place_of_cause(cause: &Option<Cause<'_>>) -> Option<usize>
    ensures { result ≡ place_of_cause (causes_given cause.now) }
{
    match cause {
        Some(cause) => Some(cause.place),
        None => None,
    }
}

/// Returns the line that added an entry that is a reason.
fn line_of_cause(cause: &Option<Cause<'_>>) -> Option<usize>
    ensures { result ≡ line_of_cause (causes_given cause.now) }
{
    match cause {
        Some(cause) => Some(cause.line),
        None => None,
    }
}

/// Adds the entry and the line where a reason points, or null for each.
#[inline(always)]
fn push_place(out: &mut Text, entry: Option<usize>, line: Option<usize>) -> Result<(), AllocError>
    ensures { OnOk result (out.new ≡ out.old ++ (codes ",{\"entry\":" ++ option_json entry ++ codes ",\"line\":" ++ option_json line)) }
{
    match (entry, line) {
        (Some(entry), Some(line)) => {
            out.push_two(",{\"entry\":", entry as u64, ",\"line\":", line as u64)
        }
        (Some(entry), None) => out.push_between(",{\"entry\":", entry as u64, ",\"line\":null"),
        (None, Some(line)) => out.push_number(",{\"entry\":null,\"line\":", line as u64),
        (None, None) => out.push_str(",{\"entry\":null,\"line\":null"),
    }
}

/// Adds the word and the text of a reason, of which some bytes have to be escaped.
#[cold]
#[inline(never)]
pub(crate) fn push_escaped_reason(
    alloc: Global,
    out: &mut Text,
    word: &str,
    text: &[u8],
) -> Result<(), AllocError>
    requires { IsUtf8 text.now }
    ensures { OnOk result (out.new ≡ out.old ++ reason_pieces word.now text.now) }
{
    out.push_texts(",\"reason\":\"", word.as_bytes(), "\",\"text\":", b"", "")?;
    push_quoted(alloc, out, text)?;
    out.push_str("}")
}

/// Adds a reason as an object behind a comma: where it points, its word, and its sentence.
fn push_why(
    alloc: Global,
    out: &mut Text,
    entry: Option<usize>,
    line: Option<usize>,
    word: &str,
    text: &[u8],
) -> Result<(), AllocError>
    requires { IsUtf8 text.now }
    ensures { OnOk result (out.new ≡ out.old ++ why_pieces entry line word.now text.now) }
{
    push_place(out, entry, line)?;
    if !is_plain(text) {
        return push_escaped_reason(alloc, out, word, text);
    }
    out.push_texts(
        ",\"reason\":\"",
        word.as_bytes(),
        "\",\"text\":\"",
        text,
        "\"}",
    )
}

/// What is told of events so far, and room for a sentence. Clauses see the bytes that are told. What adds to it fails only if
/// out of memory.
#[derive(Drop)]
pub(crate) struct Draft {
    alloc: Global,
    text: Text,
    sentence: Sentence,
}

impl Model for Draft {
    ghost use Rattle.std.specs.Prelude.{List, ℕ};

    ghost Value = { List ℕ };

    ghost view = { λ d. d.text };
}

impl Draft {
    /// Makes an empty one.
    pub(crate) fn new(alloc: Global) -> Draft
        ensures { result ≡ [] }
    {
        Draft {
            alloc,
            text: Text::new(alloc),
            sentence: Sentence::new(),
        }
    }

    /// Lends the bytes that are told.
    #[inline(always)]
    pub(crate) fn as_bytes(&self) -> &[u8]
        ensures value { result.now ≡ self.now }
        ensures utf8 { IsUtf8 self.now }
    {
        self.text.utf8_bytes()
    }

    /// Returns how many bytes are told.
    #[inline(always)]
    pub(crate) fn len(&self) -> usize
        ensures value { result ≡ length self.now }
        ensures utf8 { IsUtf8 self.now }
    {
        self.as_bytes().len()
    }

    /// Adds the lines of the reply that came of an event.
    #[inline(always)]
    pub(crate) fn reply(&mut self, came: Came<'_>) -> Result<(), AllocError>
        ensures { OnOk result (self.new ≡ self.old ++ reply_lines (reply_in came.entry)) }
    {
        match came {
            Came::Executed(came, last) => write_executed(&mut self.text, came, last),
            Came::Refused(refusal) => write_refused(&mut self.text, refusal),
            Came::Drained(drained) => write_drained(&mut self.text, drained),
            Came::Stamped { number, .. } => write_stamped(&mut self.text, number),
            Came::Landed(landings, torn) => write_committed(&mut self.text, landings, torn),
            Came::Decided(first, choices) => write_decided(&mut self.text, first, choices),
            Came::Replied(reply) => write_reply(&mut self.text, reply),
        }
    }

    /// Adds the line of a command that was done, by the last entry.
    #[inline(always)]
    pub(crate) fn done(&mut self, last: LastEntry<'_>) -> Result<(), AllocError>
        ensures { OnOk result (self.new ≡ self.old ++ reply_lines (replies.Done (entry_lent last.entry))) }
    {
        write_executed(&mut self.text, Ok(Executed::Done), last)
    }

    /// Adds the line of a late landing, by the number of its transaction.
    pub(crate) fn late(&mut self, number: u32, landing: &Landing) -> Result<(), AllocError>
        ensures { OnOk result (self.new ≡ self.old ++ line (late_text number landing.now)) }
    {
        write_late(&mut self.text, number, landing)
    }

    /// Adds a reason as an object behind a comma.
    #[tactic(auto, using(crate::proofs::Composing::whole_reason))]
    pub(crate) fn reason(&mut self, reason: &Reason<'_>) -> Result<(), AllocError>
        ensures { OnOk result (self.new ≡ self.old ++ behind_commas (reason_data (reason_given reason.now) ∷ [])) }
    {
        let cause = reason_cause(reason);
        self.sentence.clear();
        put_reason(&mut self.sentence, reason);
        push_why(
            self.alloc,
            &mut self.text,
            place_of_cause(&cause),
            line_of_cause(&cause),
            reason_word(reason),
            self.sentence.as_bytes(),
        )
    }

    /// Adds as a reason that no transaction landed.
    #[tactic(auto, using(crate::proofs::Composing::whole_nothing))]
    pub(crate) fn nothing(&mut self) -> Result<(), AllocError>
        ensures { OnOk result (self.new ≡ self.old ++ behind_commas (why_data None None (codes "nothing") (codes "no slot of the mask is stamped") ∷ [])) }
    {
        push_why(
            self.alloc,
            &mut self.text,
            None,
            None,
            "nothing",
            "no slot of the mask is stamped".as_bytes(),
        )
    }
}
