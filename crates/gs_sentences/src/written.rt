//! Sentences of refusals, written behind a text.

ghost use Rattle.std.specs.Prelude.{◌≡◌, ◌++◌, ℕ, false, List, OnOk, decimal};
ghost use Rattle.gs_layout.specs.declared.refusal.Refusal.{Refusal};
ghost use Rattle.gs_sentences.specs.Refused.{bad_cpu_text, bad_mask_text, page_text, transactions_text};
ghost use Rattle.gs_sentences.specs.Shared.{at_text};
ghost use Rattle.gs_sentences.specs.Tails.{is_part, tail_refusal, tail_sentence};
ghost use Rattle.gs_sentences.specs.Words.{said};
ghost use Rattle.gs_sentences.specs.declared.words.Words.TheVariants as texts;

use crate::tail::Tail;
use crate::words::Words;
use gs_layout::Refusal;
use gs_text::Sheet;
use std::alloc::AllocError;

/// Adds words, and the line and the place of an entry behind them.
#[inline(always)]
fn write_place(out: &mut Sheet, words: &str, line: u32, place: u32) -> Result<(), AllocError>
    ensures { OnOk result (out.new ≡ out.old ++ words.now ++ at_text line place) }
{
    let entry = Words::Entry.as_str();
    let close = Words::Close.as_str();
    out.push_word_two("", words, line as u64, entry, place as u64, close)
}

/// Adds words, a number, words, and the line and the place of an entry behind them.
#[inline(always)]
fn write_since(
    out: &mut Sheet,
    words: &str,
    number: u32,
    between: &str,
    line: u32,
    place: u32,
) -> Result<(), AllocError>
    ensures { OnOk result (out.new ≡ out.old ++ words.now ++ decimal number ++ between.now ++ at_text line place) }
{
    out.push_number(words, number as u64)?;
    write_place(out, between, line, place)
}

/// Adds words, and behind other ones the line and the place of an entry.
#[inline(always)]
fn write_behind(
    out: &mut Sheet,
    words: &str,
    between: &str,
    line: u32,
    place: u32,
) -> Result<(), AllocError>
    ensures { OnOk result (out.new ≡ out.old ++ words.now ++ between.now ++ at_text line place) }
{
    out.push_words(words)?;
    write_place(out, between, line, place)
}

/// Adds words and a number, and behind other ones the line and the place of an entry.
#[inline(always)]
fn write_numbered(
    out: &mut Sheet,
    words: &str,
    number: u32,
    more: &str,
    between: &str,
    line: u32,
    place: u32,
) -> Result<(), AllocError>
    ensures { OnOk result (out.new ≡ out.old ++ words.now ++ decimal number ++ more.now ++ between.now ++ at_text line place) }
{
    out.push_between(words, number as u64, more)?;
    write_place(out, between, line, place)
}

/// Adds how many there are, of at most so many.
#[inline(always)]
fn write_full(
    out: &mut Sheet,
    words: &str,
    count: u32,
    limit: u32,
    behind: &str,
) -> Result<(), AllocError>
    ensures { OnOk result (out.new ≡ out.old ++ words.now ++ decimal count ++ said texts.OfAtMost ++ decimal limit ++ behind.now) }
{
    let most = Words::OfAtMost.as_str();
    out.push_word_two("", words, count as u64, most, limit as u64, behind)
}

/// Adds what is wrong with a mask.
#[inline(never)]
fn write_bad_mask(out: &mut Sheet, mask: u64, cpus: u16) -> Result<(), AllocError>
    ensures { OnOk result (out.new ≡ out.old ++ bad_mask_text mask cpus) }
{
    if mask == 0 {
        return out.push_words(Words::TheMaskNamesNoCpu.as_str());
    }
    out.push_two(
        Words::Mask.as_str(),
        mask,
        Words::NamesACpuPastTheLastWhichIs.as_str(),
        cpus.saturating_sub(1) as u64,
    )
}

/// Adds that there is no such CPU.
#[inline(never)]
fn write_bad_cpu(out: &mut Sheet, cpu: u16, cpus: u16) -> Result<(), AllocError>
    ensures { OnOk result (out.new ≡ out.old ++ bad_cpu_text cpu cpus) }
{
    out.push_two(
        Words::ThereIsNoCpu.as_str(),
        cpu as u64,
        Words::TheLastIs.as_str(),
        cpus.saturating_sub(1) as u64,
    )
}

/// Adds that an agent of a generation is active on a CPU, and since when.
#[inline(never)]
fn write_active(
    out: &mut Sheet,
    cpu: u16,
    generation: u32,
    line: u32,
    place: u32,
) -> Result<(), AllocError>
    ensures { OnOk result (out.new ≡ out.old ++ said texts.Generation ++ decimal generation ++ said texts.IsActiveOnCpu ++ decimal cpu ++ said texts.SinceLine ++ at_text line place) }
{
    out.push_two(
        Words::Generation.as_str(),
        generation as u64,
        Words::IsActiveOnCpu.as_str(),
        cpu as u64,
    )?;
    write_place(out, Words::SinceLine.as_str(), line, place)
}

/// Adds whether the agent that attaches was given its last page.
#[inline(never)]
fn write_page(out: &mut Sheet, generation: u32, page: Option<u32>) -> Result<(), AllocError>
    ensures { OnOk result (out.new ≡ out.old ++ page_text generation page) }
{
    match page {
        Some(line) => out.push_two(
            Words::Generation.as_str(),
            generation as u64,
            Words::WasGivenItsLastPageOnLine.as_str(),
            line as u64,
        ),
        None => out.push_between(
            Words::Generation.as_str(),
            generation as u64,
            Words::AttachesAndWasNotGivenItsLastPage.as_str(),
        ),
    }
}

/// Adds which transaction waits in the slot of a CPU.
#[inline(never)]
fn write_waits(out: &mut Sheet, cpu: u16, number: u32, line: u32) -> Result<(), AllocError>
    ensures { OnOk result (out.new ≡ out.old ++ said texts.Transaction ++ decimal number ++ said texts.OfLine ++ decimal line ++ said texts.WaitsInTheSlotOfCpu ++ decimal cpu) }
{
    out.push_two(
        Words::Transaction.as_str(),
        number as u64,
        Words::OfLine.as_str(),
        line as u64,
    )?;
    out.push_number(Words::WaitsInTheSlotOfCpu.as_str(), cpu as u64)
}

/// Adds which transactions there are.
#[inline(never)]
fn write_transactions(out: &mut Sheet, count: u32) -> Result<(), AllocError>
    ensures { OnOk result (out.new ≡ out.old ++ transactions_text count) }
{
    if count == 0 {
        return out.push_words(Words::NoTransactionWasStampedYet.as_str());
    }
    out.push_number(Words::TheLastTransactionHasNumber.as_str(), count as u64)
}

/// What stands in front of the sentence of a refusal.
pub trait Front {
    /// Its bytes, by the refusal.
    ghost front: { Self → Refusal → List ℕ };

    /// Adds it.
    ///
    /// # Errors
    ///
    /// `AllocError` if out of memory.
    fn write_front(&self, out: &mut Sheet, refusal: Refusal) -> Result<(), AllocError>
        ensures { OnOk result (out.new ≡ out.old ++ front self.now refusal) };
}

/// Adds what stands in front, and then the sentence that says why an event was refused, by the numbers of which it tells. A part of a text has no
/// such sentence, and is not to be given. [`put_tail`](crate::put_tail) puts the same sentence in a line of its own.
///
/// # Errors
///
/// `AllocError` if out of memory.
pub fn write_tail<F: Front>(out: &mut Sheet, front: &F, tail: &Tail) -> Result<(), AllocError>
    requires { is_part tail.now ≡ false }
    ensures { OnOk result (out.new ≡ out.old ++ F.front front.now (tail_refusal tail.now) ++ tail_sentence tail.now) }
{
    match *tail {
        Tail::Part { .. } => Ok(()),
        Tail::NoThread { tid } => {
            front.write_front(out, Refusal::NoThread)?;
            out.push_number(Words::ThereNeverWasAThread.as_str(), tid as u64)
        }
        Tail::Dead { tid, line, place } => {
            front.write_front(out, Refusal::NoThread)?;
            write_numbered(
                out,
                Words::Thread.as_str(),
                tid,
                Words::Died.as_str(),
                Words::OnLine.as_str(),
                line,
                place,
            )
        }
        Tail::Unknown { tid } => {
            front.write_front(out, Refusal::NoThread)?;
            out.push_number(Words::TheAgentKnowsOfNoThread.as_str(), tid as u64)
        }
        Tail::NeverPlaced { tid } => {
            front.write_front(out, Refusal::NotRunning)?;
            out.push_between(
                Words::Thread.as_str(),
                tid as u64,
                Words::WasNeverPlaced.as_str(),
            )
        }
        Tail::Off { tid, line, place } => {
            front.write_front(out, Refusal::NotRunning)?;
            write_since(
                out,
                Words::Thread.as_str(),
                tid,
                Words::IsOnNoCpuSinceLine.as_str(),
                line,
                place,
            )
        }
        Tail::Runs { tid, line, place } => {
            front.write_front(out, Refusal::NotBlocked)?;
            write_numbered(
                out,
                Words::Thread.as_str(),
                tid,
                Words::MayRun.as_str(),
                Words::SinceLine.as_str(),
                line,
                place,
            )
        }
        Tail::BadMask { cpus, mask } => {
            front.write_front(out, Refusal::EmptyMask)?;
            write_bad_mask(out, mask, cpus)
        }
        Tail::BadCpu { cpu, cpus } => {
            front.write_front(out, Refusal::BadCpu)?;
            write_bad_cpu(out, cpu, cpus)
        }
        Tail::Active {
            refusal,
            cpu,
            generation,
            line,
            place,
        } => {
            front.write_front(out, refusal)?;
            write_active(out, cpu, generation, line, place)
        }
        Tail::Attaches {
            refusal,
            generation,
            line,
            place,
        } => {
            front.write_front(out, refusal)?;
            write_numbered(
                out,
                Words::Generation.as_str(),
                generation,
                Words::Attaches.as_str(),
                Words::SinceLine.as_str(),
                line,
                place,
            )
        }
        Tail::Left {
            refusal,
            line,
            place,
        } => {
            front.write_front(out, refusal)?;
            write_behind(
                out,
                Words::ThereIsNoAgent.as_str(),
                Words::SinceLine.as_str(),
                line,
                place,
            )
        }
        Tail::NoPage { generation } => {
            front.write_front(out, Refusal::NotAttaching)?;
            write_page(out, generation, None)
        }
        Tail::Page { generation, line } => {
            front.write_front(out, Refusal::NotAttaching)?;
            write_page(out, generation, Some(line))
        }
        Tail::Held { cpu, line, place } => {
            front.write_front(out, Refusal::CpuTaken)?;
            write_since(
                out,
                Words::TheOtherClassHoldsCpu.as_str(),
                cpu as u32,
                Words::SinceLine.as_str(),
                line,
                place,
            )
        }
        Tail::NeverTaken { cpu } => {
            front.write_front(out, Refusal::NotTaken)?;
            out.push_number(Words::TheOtherClassNeverTookCpu.as_str(), cpu as u64)
        }
        Tail::Given { cpu, line, place } => {
            front.write_front(out, Refusal::NotTaken)?;
            write_since(
                out,
                Words::TheOtherClassGaveCpu.as_str(),
                cpu as u32,
                Words::BackOnLine.as_str(),
                line,
                place,
            )
        }
        Tail::Spent { tid, line, place } => {
            front.write_front(out, Refusal::SeqSpent)?;
            write_numbered(
                out,
                Words::Thread.as_str(),
                tid,
                Words::HasItsLastSequenceNumber.as_str(),
                Words::SinceLine.as_str(),
                line,
                place,
            )
        }
        Tail::Generations { line, place } => {
            front.write_front(out, Refusal::GenSpent)?;
            write_behind(
                out,
                Words::NoGenerationFollowsThat.as_str(),
                Words::OfLine.as_str(),
                line,
                place,
            )
        }
        Tail::Tids { line, place } => {
            front.write_front(out, Refusal::TidsSpent)?;
            write_behind(
                out,
                Words::NoTidFollowsThat.as_str(),
                Words::OfLine.as_str(),
                line,
                place,
            )
        }
        Tail::Entries { count, limit } => {
            front.write_front(out, Refusal::HistoryFull)?;
            write_full(
                out,
                Words::TheJournalHas.as_str(),
                count,
                limit,
                Words::EntriesAndTooFewAreLeft.as_str(),
            )
        }
        Tail::Transactions { count, limit } => {
            front.write_front(out, Refusal::HistoryFull)?;
            write_full(
                out,
                Words::ThereAre.as_str(),
                count,
                limit,
                Words::TransactionsAndTooFewAreLeft.as_str(),
            )
        }
        Tail::Waits { cpu, number, line } => {
            front.write_front(out, Refusal::SlotOpen)?;
            write_waits(out, cpu, number, line)
        }
        Tail::Numbered { count } => {
            front.write_front(out, Refusal::NoSuchTransaction)?;
            write_transactions(out, count)
        }
        Tail::Gone { line, place } => {
            front.write_front(out, Refusal::Gone)?;
            write_behind(
                out,
                Words::TheEnclaveWasTornDown.as_str(),
                Words::OnLine.as_str(),
                line,
                place,
            )
        }
    }
}
