//! What is written of a script, and the sentences that say why.

ghost use Rattle.std.specs.Prelude.{◌≡◌, ◌++◌, Some, OnOk, [], codes, decimal, true};
ghost use Rattle.gs_lines.specs.Lines.{landing_text, late_text, line, reply_lines, torn_line};
ghost use Rattle.gs_journal.specs.Last.{entry_lent};
ghost use Rattle.gs_replies.specs.Replies.{reply_of};
ghost use Rattle.gs_replies.specs.declared.reply.Reply.TheVariants as replies;
ghost use Rattle.gs_script.specs.Words.{is_text};
ghost use Rattle.gs_sentences.specs.Given.{landed_given, reason_given, refused_given};
ghost use Rattle.gs_sentences.specs.Reason as reasons;
ghost use Rattle.gs_explain.specs.Landings.{because};
ghost use Rattle.gs_explain.specs.Rows.{added, heading, none_shown};
ghost use Rattle.gs_script.specs.Unread.{said_line};

use gs_agent::Drained;
use gs_core::Reply;
use gs_journal::LastEntry;
use gs_kernel::{Executed, Landing};
use gs_layout::Refusal;
use gs_lines::{
    Text, write_decided, write_drained, write_executed, write_landing, write_late, write_refused,
    write_reply, write_stamped, write_torn,
};
use gs_policy::Choice;
use gs_script::SaidLine;
use gs_sentences::{Landed, Reason, Refused, Sentence, put_landed, put_reason, put_refused};
use gs_text::Digits;
use std::alloc::{AllocError, Global};
use std::marker::Model;

/// What is written so far, room for a sentence, and the digits of numbers that rise from row to row. Clauses see the bytes that are written.
/// What adds to it fails only if out of memory.
#[derive(Drop)]
pub(crate) struct Page {
    text: Text,
    sentence: Sentence,
    /// The number of the last script's line.
    line: Digits,
    /// The place of the last entry that an event added alone.
    entry: Digits,
}

impl Model for Page {
    ghost use Rattle.std.specs.Prelude.{List, ℕ};

    ghost Value = { List ℕ };

    ghost view = { λ p. p.text };
}

impl Page {
    /// Makes an empty one.
    pub(crate) fn new(alloc: Global) -> Page
        ensures { result ≡ [] }
    {
        Page {
            text: Text::new(alloc),
            sentence: Sentence::new(),
            line: Digits::new(0),
            entry: Digits::new(0),
        }
    }

    /// Lends the bytes that are written.
    #[inline(always)]
    pub(crate) fn as_bytes(&self) -> &[u8]
        ensures { result.now ≡ self.now }
    {
        self.text.as_bytes()
    }

    /// Returns what is written, as text.
    pub(crate) fn into_text(self) -> Text
        ensures { result ≡ self }
    {
        let Page { text, .. } = self;
        text
    }

    /// Adds a script's line, with its number, and words behind it.
    #[inline(always)]
    #[tactic(auto, using(gs_script::proofs::Texts::text_is_utf8))]
    fn script_line(&mut self, said: &SaidLine<'_>, behind: &str) -> Result<(), AllocError>
        requires { is_text said.now.bytes.now ≡ true }
        ensures { OnOk result (self.new ≡ self.old ++ codes "line " ++ decimal said.now.number ++ codes ": " ++ said.now.bytes.now ++ behind.now) }
    {
        self.line.set(said.number as u64);
        self.text
            .push_line("line ", &self.line, ": ", said.bytes, behind)
    }

    /// Adds a script's line, with its number.
    #[inline(always)]
    pub(crate) fn heading(&mut self, said: &SaidLine<'_>) -> Result<(), AllocError>
        requires { is_text said.now.bytes.now ≡ true }
        ensures { OnOk result (self.new ≡ self.old ++ heading (said_line said.now)) }
    {
        self.script_line(said, "\n")
    }

    /// Adds the row of a commit that stamped nothing, tore nothing down and added no entry.
    #[inline(always)]
    pub(crate) fn nothing_row(&mut self, said: &SaidLine<'_>) -> Result<(), AllocError>
        requires { is_text said.now.bytes.now ≡ true }
        ensures { OnOk result (self.new ≡ self.old ++ (heading (said_line said.now) ++ none_shown [])) }
    {
        self.script_line(said, "\n  no slot of the mask is stamped\n")
    }

    /// Adds the lines of a reply.
    pub(crate) fn reply(&mut self, reply: &Reply) -> Result<(), AllocError>
        ensures { OnOk result (self.new ≡ self.old ++ reply_lines reply.now) }
    {
        write_reply(&mut self.text, reply)
    }

    /// Adds the line of the reply to a command, by what came of it and the kernel's last entry.
    pub(crate) fn executed(
        &mut self,
        came: Result<Executed, Refusal>,
        last: LastEntry<'_>,
    ) -> Result<(), AllocError>
        ensures { OnOk result (self.new ≡ self.old ++ reply_lines (reply_of came (entry_lent last.entry))) }
    {
        write_executed(&mut self.text, came, last)
    }

    /// Adds the line of a refusal.
    pub(crate) fn refusal(&mut self, refusal: Refusal) -> Result<(), AllocError>
        ensures { OnOk result (self.new ≡ self.old ++ reply_lines (replies.Refused refusal)) }
    {
        write_refused(&mut self.text, refusal)
    }

    /// Adds the line of a drain.
    pub(crate) fn drained(&mut self, drained: &Drained) -> Result<(), AllocError>
        ensures { OnOk result (self.new ≡ self.old ++ reply_lines (replies.Drained drained.now)) }
    {
        write_drained(&mut self.text, drained)
    }

    /// Adds the line of a transaction that was stamped.
    pub(crate) fn stamped(&mut self, number: u32) -> Result<(), AllocError>
        ensures { OnOk result (self.new ≡ self.old ++ reply_lines (replies.Stamped number)) }
    {
        write_stamped(&mut self.text, number)
    }

    /// Adds the lines of a decision, by the number of its first transaction.
    pub(crate) fn decided(&mut self, first: u32, choices: &[Choice]) -> Result<(), AllocError>
        ensures { OnOk result (self.new ≡ self.old ++ reply_lines (replies.Decided first choices.now)) }
    {
        write_decided(&mut self.text, first, choices)
    }

    /// Adds the line of a landing.
    pub(crate) fn landing(&mut self, landing: &Landing) -> Result<(), AllocError>
        ensures { OnOk result (self.new ≡ self.old ++ line (landing_text landing.now)) }
    {
        write_landing(&mut self.text, landing)
    }

    /// Adds the line of a late landing, by the number of its transaction.
    pub(crate) fn late(&mut self, number: u32, landing: &Landing) -> Result<(), AllocError>
        ensures { OnOk result (self.new ≡ self.old ++ line (late_text number landing.now)) }
    {
        write_late(&mut self.text, number, landing)
    }

    /// Adds the line behind landings that tore the enclave down, if they did.
    #[inline(always)]
    pub(crate) fn torn(&mut self, torn: bool) -> Result<(), AllocError>
        ensures { OnOk result (self.new ≡ self.old ++ torn_line torn) }
    {
        write_torn(&mut self.text, torn)
    }

    /// Adds that no transaction landed.
    #[inline(always)]
    pub(crate) fn nothing(&mut self) -> Result<(), AllocError>
        ensures { OnOk result (self.new ≡ self.old ++ none_shown []) }
    {
        self.text.push_str("  no slot of the mask is stamped\n")
    }

    /// Adds the entries that an event added, by how many there were before it and are behind it.
    #[inline(always)]
    pub(crate) fn added(&mut self, first: usize, end: usize) -> Result<(), AllocError>
        ensures { OnOk result (self.new ≡ self.old ++ added first end) }
    {
        if end <= first {
            return Ok(());
        }
        if end == first + 1 {
            self.entry.set(first as u64);
            return self.text.push_digits_between("  entry ", &self.entry, "\n");
        }
        self.text.push_number("  entries ", first as u64)?;
        self.text.push_between(" to ", (end - 1) as u64, "\n")
    }

    /// Adds why a transaction was not placed, in a line of its own.
    pub(crate) fn landed(&mut self, landed: &Landed<'_>) -> Result<(), AllocError>
        ensures { OnOk result (self.new ≡ self.old ++ because (Some (reasons.Landed (landed_given landed.now)))) }
    {
        self.sentence.clear();
        self.sentence.put("\n");
        put_landed(&mut self.sentence, landed);
        self.sentence.put("  ");
        self.text.append(self.sentence.as_bytes())
    }

    /// Adds why an event was refused, in a line of its own.
    #[inline(always)]
    pub(crate) fn refused(&mut self, refused: &Refused<'_>) -> Result<(), AllocError>
        ensures { OnOk result (self.new ≡ self.old ++ because (Some (reasons.Refused (refused_given refused.now)))) }
    {
        self.sentence.clear();
        self.sentence.put("\n");
        put_refused(&mut self.sentence, refused);
        self.sentence.put("  ");
        self.text.append(self.sentence.as_bytes())
    }

    /// Adds a reason in a line of its own.
    pub(crate) fn reason(&mut self, reason: &Reason<'_>) -> Result<(), AllocError>
        ensures { OnOk result (self.new ≡ self.old ++ because (Some (reason_given reason.now))) }
    {
        self.sentence.clear();
        self.sentence.put("\n");
        put_reason(&mut self.sentence, reason);
        self.sentence.put("  ");
        self.text.append(self.sentence.as_bytes())
    }
}
