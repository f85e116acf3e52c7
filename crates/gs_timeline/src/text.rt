//! The text of a picture or of a trace: what is settled of it, and what was told behind that.

ghost use Rattle.std.specs.Prelude.{◌≡◌, ◌++◌, [], decimal, ℕ, List, IfOk, OnErr, OnOk};
ghost use Rattle.std.specs.Io.KnownBytes.{Appends};
ghost use Rattle.gs_timeline.specs.Sent.{Grows, Sends};

use gs_text::{Digits, Sheet, WriteFailed, write_out};
use std::alloc::{AllocError, Global};
use std::io::Write;
use std::marker::Model;

/// A text that is written as it grows is written whenever it has so many bytes.
const BLOCK_LEN: usize = 24_576;

/// So many bytes may be told between two looks at whether it has as many: more than any part of a picture or a trace has.
const MOST_BEHIND: usize = 32_768;

/// A text that grows at its end, and of which a beginning is settled. What adds to it fails only if out of memory, and
/// changes nothing of what is settled.
#[derive(Drop)]
pub struct Text {
    sheet: Sheet,
    /// How many of the bytes are settled.
    settled: usize,
}

impl Model for Text {
    ghost use Rattle.std.specs.Prelude.{◌≤◌, drop, length, take};
    ghost use Rattle.gs_timeline.specs.Pieces.{Written};

    ghost Value = { Written };

    ghost view = { λ t. record { settled = take t.settled t.sheet; told = drop t.settled t.sheet } };

    ghost invariant = { λ t. t.settled ≤ length t.sheet };
}

impl Text {
    /// Makes an empty text. It does not allocate.
    pub fn new(alloc: Global) -> Text
        ensures { result ≡ record { settled = []; told = [] } }
    {
        Text {
            sheet: Sheet::new(alloc),
            settled: 0,
        }
    }

    /// Makes an empty text with room for all that it has before it is written.
    ///
    /// # Errors
    ///
    /// `AllocError` if out of memory.
    pub fn with_room(alloc: Global) -> Result<Text, AllocError>
        ensures { IfOk result (λ text. text ≡ record { settled = []; told = [] }) }
    {
        Ok(Text {
            sheet: Sheet::with_room(alloc, BLOCK_LEN + MOST_BEHIND)?,
            settled: 0,
        })
    }

    /// Tells words.
    #[inline(always)]
    #[tactic(auto, using(crate::proofs::Pieces::told_one, crate::proofs::Pieces::behind_one))]
    pub fn push_str(&mut self, words: &str) -> Result<(), AllocError>
        ensures settled { self.new.settled ≡ self.old.settled }
        ensures told { OnOk result (self.new.told ≡ self.old.told ++ words.now) }
    {
        self.sheet.push_str(words)
    }

    /// Tells a number.
    #[inline(always)]
    #[tactic(auto, using(crate::proofs::Pieces::told_one, crate::proofs::Pieces::behind_one))]
    pub fn push_decimal(&mut self, number: u64) -> Result<(), AllocError>
        ensures settled { self.new.settled ≡ self.old.settled }
        ensures told { OnOk result (self.new.told ≡ self.old.told ++ decimal number) }
    {
        self.sheet.push_decimal(number)
    }

    /// Tells words and a number behind them.
    #[inline(always)]
    #[tactic(auto, using(crate::proofs::Pieces::told_two, crate::proofs::Pieces::behind_two))]
    pub fn push_number(&mut self, words: &str, number: u64) -> Result<(), AllocError>
        ensures settled { self.new.settled ≡ self.old.settled }
        ensures told { OnOk result (self.new.told ≡ self.old.told ++ words.now ++ decimal number) }
    {
        self.sheet.push_number(words, number)
    }

    /// Tells words, a number, words and a number.
    #[inline(always)]
    #[tactic(auto, using(crate::proofs::Pieces::told_four, crate::proofs::Pieces::behind_four))]
    pub fn push_two(
        &mut self,
        words: &str,
        first: u64,
        between: &str,
        second: u64,
    ) -> Result<(), AllocError>
        ensures settled { self.new.settled ≡ self.old.settled }
        ensures told { OnOk result (self.new.told ≡ self.old.told ++ words.now ++ decimal first ++ between.now ++ decimal second) }
    {
        self.sheet.push_two(words, first, between, second)
    }

    /// Tells words, and a number behind them whose digits are kept.
    #[inline(always)]
    #[tactic(auto, using(crate::proofs::Pieces::told_two, crate::proofs::Pieces::behind_two))]
    pub fn push_digits(&mut self, words: &str, digits: &Digits) -> Result<(), AllocError>
        ensures settled { self.new.settled ≡ self.old.settled }
        ensures told { OnOk result (self.new.told ≡ self.old.told ++ words.now ++ decimal digits.now) }
    {
        self.sheet.push_digits(words, digits)
    }

    /// Tells words, a number, words and a number whose digits are kept.
    #[inline(always)]
    #[tactic(auto, using(crate::proofs::Pieces::told_four, crate::proofs::Pieces::behind_four))]
    pub fn push_number_digits(
        &mut self,
        words: &str,
        number: u64,
        between: &str,
        digits: &Digits,
    ) -> Result<(), AllocError>
        ensures settled { self.new.settled ≡ self.old.settled }
        ensures told { OnOk result (self.new.told ≡ self.old.told ++ words.now ++ decimal number ++ between.now ++ decimal digits.now) }
    {
        self.sheet
            .push_number_digits(words, number, between, digits)
    }

    /// Settles all that was told.
    #[inline(always)]
    #[tactic(auto, using(crate::proofs::Pieces::all_settled, crate::proofs::Pieces::none_told))]
    pub fn settle(&mut self)
        ensures { self.new ≡ record { settled = self.old.settled ++ self.old.told; told = [] } }
    {
        self.settled = self.sheet.len();
    }

    /// Returns how many bytes it has.
    pub(crate) fn len(&self) -> usize {
        self.sheet.len()
    }

    /// Lends all that it has. Each call reads it all, to see that it is UTF-8.
    pub(crate) fn as_str(&self) -> &str {
        self.sheet.as_str()
    }

    /// Takes all away. The memory is kept.
    pub fn clear(&mut self)
        ensures { self.new ≡ record { settled = []; told = [] } }
    {
        self.sheet.clear();
        self.settled = 0;
    }

    /// Writes all that the text has, and takes it away.
    ///
    /// # Errors
    ///
    /// `WriteFailed` if a write fails or takes no byte: a beginning was written, short of the whole.
    #[inline(never)]
    #[tactic(auto, using(crate::proofs::Sent::begins))]
    pub fn send<W: Write>(&mut self, writer: &mut W) -> Result<(), WriteFailed>
        ensures empty { OnOk result (self.new ≡ record { settled = []; told = [] }) }
        ensures sent { OnOk result (Appends (W.contents writer.old) (W.contents writer.new) (self.old.settled ++ self.old.told)) }
        ensures stuck { OnErr result (Grows (W.contents writer.old) (W.contents writer.new)) }
    {
        write_out(writer, self.sheet.as_bytes())?;
        self.clear();
        Ok(())
    }

    /// Writes all that the text has, and takes it away, once it has so many bytes that this is worth a write.
    ///
    /// # Errors
    ///
    /// As of [`Text::send`].
    #[inline(always)]
    pub fn spill<W: Write>(&mut self, writer: &mut W) -> Result<(), WriteFailed>
        ensures sent { OnOk result (Sends [] (W.contents writer.old) (W.contents writer.new) self.old.settled self.new.settled) }
        ensures stuck { OnErr result (Grows (W.contents writer.old) (W.contents writer.new)) }
    {
        if self.sheet.len() < BLOCK_LEN {
            return Ok(());
        }
        self.send(writer)
    }
}
